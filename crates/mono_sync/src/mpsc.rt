// A bounded channel as a plain value.
ghost use Rattle.std.specs.Prelude.{◌≡◌, ◌-◌, [], false, length, ℕ, ◌||◌};
ghost use Rattle.mono_sync.specs.MpscRuns.{Leads, leads_itself, leads_on};
ghost use Rattle.mono_sync.specs.Mpsc.{owed_by, listed_by, waiting_in, places, TriesToSend, TriesToReceive, Sends, Receives, GivesUpSend, GivesUpReceive, Closes, PaysSender, PaysReceiver};
ghost use Rattle.mono_sync.specs.Lines.{has_task};
ghost use Rattle.mono_sync.specs.Listed.{channel_some};
ghost use Rattle.mono_task.specs.Owed.{Keeps};

pub use crate::keyed_messages::{RecvAt, SendAt, close_at, try_recv_at, try_send_at};
use crate::lines::{Coming, Line, Ticket, Waiter};
pub use crate::messages::{Recv, Send, SendError, close, try_recv, try_send};
use mono_task::SharedState;
use std::alloc::Global;
use std::collections::VecDeque;

/// At most `bound` messages, the tasks that wait to send one, and the tasks that wait to receive one.
///
/// Both lines are first come, first served. A place that becomes free while tasks wait to send is owed to the first of
/// them. A message that comes while tasks wait to receive is owed to the first of them.
#[derive(Drop)]
pub struct Channel<T> {
    pub(crate) queue: VecDeque<T>,
    pub(crate) bound: usize,
    pub(crate) is_closed: bool,
    pub(crate) senders: Line,
    pub(crate) receivers: Line,
}

/// A message that was not sent at once, and comes back.
#[derive(Debug, Drop)]
pub enum TrySendError<T> {
    /// The channel was closed.
    Closed(T),
    /// Each place is taken, or owed to a task that waits, or reserved for one that was served.
    Full(T),
    /// The allocation failed.
    Memory(T),
}

/// The reason why no message was received at once.
#[derive(Debug, Drop)]
pub enum TryRecvError {
    /// Each queued message is owed to a task that waits, or promised to one that was served.
    Empty,
    /// The channel was closed, and no message is left.
    Disconnected,
}

/// The answer to a future that sends.
#[derive(Drop)]
pub enum Sending<T> {
    /// The message is queued.
    Sent,
    /// The channel was closed. The message comes back.
    Closed(T),
    /// The allocation failed. The message comes back.
    Memory(T),
    /// The future waits from now on, with this ticket. The message comes back.
    Joined(Ticket, T),
    /// The future still waits. The message comes back.
    Waits(T),
}

/// The answer to a future that receives.
#[derive(Drop)]
pub enum Receiving<T> {
    /// The first message.
    Received(T),
    /// The channel was closed, and no message is left.
    Closed,
    /// The allocation of a place in the line failed.
    Memory,
    /// The future waits from now on, with this ticket.
    Joined(Ticket),
    /// The future still waits.
    Waits,
}

/// A channel owes a wake to each task that waits to send for which a place is free, and to each that waits to receive for
/// which a message is queued. It owes one to all once it was closed.
impl<T> SharedState for Channel<T> {
    ghost leads = { Leads };

    ghost names = { λ a t. has_task a.senders t || has_task a.receivers t };

    ghost lists = { listed_by };

    ghost waiting = { waiting_in };

    ghost owes = { owed_by };

    fn next_owed(&mut self) -> Option<u64> {
        if let Some(first) = self.pay_sender() {
            return Some(first.task);
        }
        match self.pay_receiver() {
            None => None,
            Some(first) => Some(first.task),
        }
    }

    ghost leads_itself = { leads_itself };

    ghost leads_on = { leads_on };

    ghost lists_some = { channel_some };
}

impl<T> Channel<T> {
    // Returns how many places are not taken by a message.
    fn places(&self) -> usize
        ensures { result ≡ places self.now }
    {
        self.bound.saturating_sub(self.queue.len())
    }

    // Takes the first sender out of its line, if a place is free for it or the channel was closed.
    pub(crate) fn pay_sender(&mut self) -> Option<Waiter>
        ensures { PaysSender self.old result self.new }
    {
        let room = self.places();
        self.senders.take(self.is_closed, room)
    }

    // Takes the first receiver out of its line, if a message is there for it or the channel was closed.
    pub(crate) fn pay_receiver(&mut self) -> Option<Waiter>
        ensures { PaysReceiver self.old result self.new }
    {
        self.receivers.take(self.is_closed, self.queue.len())
    }
}

impl<T: Drop> Channel<T> {
    /// Returns an empty channel for at most `bound` messages.
    pub fn new(alloc: Global, bound: usize) -> Channel<T>
        ensures queue { result.queue.items ≡ [] }
        ensures bound { result.bound ≡ bound }
        ensures open { result.is_closed ≡ false }
        ensures senders { result.senders.waiters.items ≡ [] }
        ensures receivers { result.receivers.waiters.items ≡ [] }
        ensures reserved { result.senders.granted ≡ 0 }
        ensures promised { result.receivers.granted ≡ 0 }
        ensures tickets { (result.senders.next ≡ 0) × (result.receivers.next ≡ 0) }
    {
        Channel {
            queue: VecDeque::new(alloc),
            bound,
            is_closed: false,
            senders: Line::new(alloc),
            receivers: Line::new(alloc),
        }
    }

    /// Returns how many messages are queued.
    pub fn len(&self) -> usize
        ensures { result ≡ length self.now.queue.items }
    {
        self.queue.len()
    }

    /// Returns whether the channel was closed.
    pub fn is_closed(&self) -> bool
        ensures { result ≡ self.now.is_closed }
    {
        self.is_closed
    }

    /// Queues a message at once.
    ///
    /// Refused with `Closed` if the channel was closed, with `Full` if no place is free, and with `Memory` if the allocation
    /// failed. A refused message comes back.
    pub fn try_send(&mut self, message: T) -> Result<(), TrySendError<T>>
        ensures answer { TriesToSend self.old message result self.new }
        ensures keeps { (me : ℕ) → Keeps listed_by me self.old self.new }
    {
        if self.is_closed {
            return Err(TrySendError::Closed(message));
        }
        let room = self.places();
        if !self.senders.has_room(room) {
            return Err(TrySendError::Full(message));
        }
        match self.queue.push_back(message) {
            Ok(()) => Ok(()),
            Err(failed) => Err(TrySendError::Memory(failed.value)),
        }
    }

    /// Takes the first message at once.
    ///
    /// Refused with `Empty` if no message is queued that is neither promised nor owed, and with `Disconnected` if the channel
    /// was closed and no message is left.
    pub fn try_recv(&mut self) -> Result<T, TryRecvError>
        ensures answer { TriesToReceive self.old result self.new }
        ensures keeps { (me : ℕ) → Keeps listed_by me self.old self.new }
    {
        if self.is_closed {
            if self.queue.is_empty() {
                return Err(TryRecvError::Disconnected);
            }
        } else if !self.receivers.has_room(self.queue.len()) {
            return Err(TryRecvError::Empty);
        }
        let Some(message) = self.queue.pop_front() else {
            unreachable!()
        };
        Ok(message)
    }

    // Queues a message for a future of this task, or makes the future wait.
    fn ask_send(&mut self, ticket: Option<Ticket>, message: T, me: u64) -> Sending<T>
        ensures { Sends self.old ticket message me result self.new }
    {
        if self.is_closed {
            self.senders.leave(ticket, me);
            return Sending::Closed(message);
        }
        let room = self.places();
        match self.senders.come(ticket, me, room) {
            Coming::Waits => Sending::Waits(message),
            Coming::Free => match self.queue.push_back(message) {
                Ok(()) => Sending::Sent,
                Err(failed) => Sending::Memory(failed.value),
            },
            Coming::Full => match self.senders.join(me) {
                Ok(drawn) => Sending::Joined(drawn, message),
                Err(_) => Sending::Memory(message),
            },
        }
    }

    /// Sends a message for a future of this task, or makes the future wait for the task. The ticket is the one that the
    /// future drew before.
    pub fn send(&mut self, ticket: Option<Ticket>, message: T, me: u64) -> Sending<T>
        ensures answer { Sends self.old ticket message me result self.new }
        ensures keeps { Keeps listed_by me self.old self.new }
    {
        self.ask_send(ticket, message, me)
    }

    // Takes the first message for a future of this task, or makes the future wait.
    fn ask_recv(&mut self, ticket: Option<Ticket>, me: u64) -> Receiving<T>
        ensures { Receives self.old ticket me result self.new }
    {
        if self.is_closed {
            self.receivers.leave(ticket, me);
            return match self.queue.pop_front() {
                Some(message) => Receiving::Received(message),
                None => Receiving::Closed,
            };
        }
        match self.receivers.come(ticket, me, self.queue.len()) {
            Coming::Waits => Receiving::Waits,
            Coming::Free => match self.queue.pop_front() {
                Some(message) => Receiving::Received(message),
                None => unreachable!(),
            },
            Coming::Full => match self.receivers.join(me) {
                Ok(drawn) => Receiving::Joined(drawn),
                Err(_) => Receiving::Memory,
            },
        }
    }

    /// Receives a message for a future of this task, or makes the future wait for the task. The ticket is the one that
    /// the future drew before.
    pub fn recv(&mut self, ticket: Option<Ticket>, me: u64) -> Receiving<T>
        ensures answer { Receives self.old ticket me result self.new }
        ensures keeps { Keeps listed_by me self.old self.new }
    {
        self.ask_recv(ticket, me)
    }

    /// Takes a future out of the line of senders, in a turn of this task. Its reserved place, if any, is owed to the first
    /// task that waits.
    pub fn give_up_send(&mut self, ticket: Option<Ticket>, me: u64)
        ensures answer { GivesUpSend self.old ticket me self.new }
        ensures keeps { Keeps listed_by me self.old self.new }
    {
        self.senders.leave(ticket, me);
    }

    /// Takes a future out of the line of receivers, in a turn of this task. Its promised message, if any, is owed to the
    /// first task that waits.
    pub fn give_up_recv(&mut self, ticket: Option<Ticket>, me: u64)
        ensures answer { GivesUpReceive self.old ticket me self.new }
        ensures keeps { Keeps listed_by me self.old self.new }
    {
        self.receivers.leave(ticket, me);
    }

    /// Closes the channel: all tasks that wait are to be woken. The queued messages can still be received.
    pub fn close(&mut self)
        ensures answer { Closes self.old self.new }
        ensures keeps { (me : ℕ) → Keeps listed_by me self.old self.new }
    {
        self.is_closed = true;
    }
}
