// A channel for one message as a plain value.
ghost use Rattle.std.specs.Prelude.{◌≡◌, [], false, ℕ};
ghost use Rattle.std.specs.declared.option.Option.TheVariants.{None};
ghost use Rattle.mono_sync.specs.Runs.{Leads, leads_itself, leads_on};
ghost use Rattle.mono_sync.specs.OneshotRuns.{Step};
ghost use Rattle.mono_sync.specs.Oneshot.{count, is_over, owed_by, listed_by, waiting_in, Sends, TriesToReceive, Receives, Closes, GivesUp, Pays};
ghost use Rattle.mono_sync.specs.Lines.{has_task};
ghost use Rattle.mono_sync.specs.Listed.{oneshot_some};
ghost use Rattle.mono_task.specs.Owed.{Keeps};

pub use crate::deliveries::{Recv, RecvError, close, send};
pub use crate::keyed_deliveries::{RecvAt, close_at, send_at};
use crate::lines::{Coming, Line, Ticket, Waiter};
use mono_task::SharedState;
use std::alloc::Global;
use std::mem;

/// A place for one message, and the task that waits for it.
///
/// One future waits at a time. Others are refused until it has the message or is given up.
#[derive(Drop)]
pub struct Oneshot<T> {
    pub(crate) message: Option<T>,
    // Whether it takes no further message.
    pub(crate) is_closed: bool,
    // The task that waits, and those whose future has left.
    pub(crate) line: Line,
}

/// The reason why no message was received at once.
#[derive(Debug, Drop)]
pub enum TryRecvError {
    /// No message was sent yet, or it is for a future that waited.
    Empty,
    /// The channel was closed before one was sent, or the message was received.
    Closed,
}

/// The answer to a future that receives.
#[derive(Drop)]
pub enum Receiving<T> {
    /// The message.
    Received(T),
    /// No message will come.
    Closed,
    /// Another future waits for the message.
    Taken,
    /// The allocation of a place in the line failed.
    Memory,
    /// The future waits from now on, with this ticket.
    Joined(Ticket),
    /// The future still waits.
    Waits,
}

/// A channel owes its receiver a wake once the message is there, or none will come.
impl<T> SharedState for Oneshot<T> {
    ghost leads = { Leads Step };

    ghost names = { λ a. has_task a.line };

    ghost lists = { listed_by };

    ghost waiting = { waiting_in };

    ghost owes = { owed_by };

    fn next_owed(&mut self) -> Option<u64> {
        match self.pay() {
            None => None,
            Some(first) => Some(first.task),
        }
    }

    ghost leads_itself = { leads_itself Step };

    ghost leads_on = { leads_on Step };

    ghost lists_some = { oneshot_some };
}

impl<T> Oneshot<T> {
    // Returns how many messages there are.
    fn count(&self) -> usize
        ensures { result ≡ count self.now.message }
    {
        match self.message {
            None => 0,
            Some(_) => 1,
        }
    }

    // Returns whether no message will come.
    fn is_over(&self) -> bool
        ensures { result ≡ is_over self.now }
    {
        self.is_closed && self.message.is_none()
    }

    // Takes the first task out of the line, if the message is there or none will come.
    fn pay(&mut self) -> Option<Waiter>
        ensures { Pays self.old result self.new }
    {
        let is_over = self.is_over();
        let room = self.count();
        self.line.take(is_over, room)
    }
}

impl<T: Drop> Oneshot<T> {
    /// Returns a channel to which nothing was sent.
    pub fn new(alloc: Global) -> Oneshot<T>
        ensures message { result.message ≡ None }
        ensures waiters { result.line.waiters.items ≡ [] }
        ensures granted { result.line.granted ≡ 0 }
        ensures open { result.is_closed ≡ false }
    {
        Oneshot {
            message: None,
            is_closed: false,
            line: Line::new(alloc),
        }
    }

    /// Returns whether the channel takes no further message: one was sent, or it was closed.
    pub fn is_closed(&self) -> bool
        ensures { result ≡ self.now.is_closed }
    {
        self.is_closed
    }

    /// Sends the message. It comes back if one was sent before or the channel was closed.
    pub fn send(&mut self, message: T) -> Result<(), T>
        ensures answer { Sends self.old message result self.new }
        ensures keeps { (me : ℕ) → Keeps listed_by me self.old self.new }
    {
        if self.is_closed {
            return Err(message);
        }
        self.is_closed = true;
        self.message = Some(message);
        Ok(())
    }

    /// Takes the message at once. Refused with `Closed` if none will come, and with `Empty` if none was sent yet or it is for
    /// a future that waited.
    pub fn try_recv(&mut self) -> Result<T, TryRecvError>
        ensures answer { TriesToReceive self.old result self.new }
        ensures keeps { (me : ℕ) → Keeps listed_by me self.old self.new }
    {
        if self.is_over() {
            return Err(TryRecvError::Closed);
        }
        if !self.line.has_room(1) {
            return Err(TryRecvError::Empty);
        }
        if self.message.is_none() {
            return Err(TryRecvError::Empty);
        }
        let Some(message) = mem::replace(&mut self.message, None) else {
            unreachable!()
        };
        Ok(message)
    }

    // Takes the message for a future of this task, or makes the future wait.
    fn ask(&mut self, ticket: Option<Ticket>, me: u64) -> Receiving<T>
        ensures { Receives self.old ticket me result self.new }
    {
        if self.is_over() {
            self.line.leave(ticket, me);
            return Receiving::Closed;
        }
        let room = self.count();
        match self.line.come(ticket, me, room) {
            Coming::Waits => Receiving::Waits,
            Coming::Free => {
                let Some(message) = mem::replace(&mut self.message, None) else {
                    unreachable!()
                };
                Receiving::Received(message)
            }
            Coming::Full => {
                if self.line.is_held() {
                    return Receiving::Taken;
                }
                match self.line.join(me) {
                    Ok(drawn) => Receiving::Joined(drawn),
                    Err(_) => Receiving::Memory,
                }
            }
        }
    }

    /// Takes the message for a future of this task, or makes the future wait. The ticket is the one that the future drew
    /// before. Refused with `Taken` if another future waits, or was woken for the message and has not asked yet.
    pub fn recv(&mut self, ticket: Option<Ticket>, me: u64) -> Receiving<T>
        ensures answer { Receives self.old ticket me result self.new }
        ensures keeps { Keeps listed_by me self.old self.new }
    {
        self.ask(ticket, me)
    }

    /// Closes the channel: a task that waits is to be woken. A message that was sent can still be received.
    pub fn close(&mut self)
        ensures answer { Closes self.old self.new }
        ensures keeps { (me : ℕ) → Keeps listed_by me self.old self.new }
    {
        self.is_closed = true;
    }

    /// Takes a future out of the line, in a turn of this task.
    pub fn give_up(&mut self, ticket: Option<Ticket>, me: u64)
        ensures answer { GivesUp self.old ticket me self.new }
        ensures keeps { Keeps listed_by me self.old self.new }
    {
        self.line.leave(ticket, me);
    }
}
