// A channel whose receivers each get every message, as a plain value.
ghost use Rattle.std.specs.Prelude.{◌≡◌, [], false, ℕ, max};
ghost use Rattle.mono_sync.specs.Runs.{Leads, leads_itself, leads_on};
ghost use Rattle.mono_locks.specs.BroadcastRuns.{Step};
ghost use Rattle.mono_locks.specs.Broadcasts.{oldest, owed_by, listed_by, waiting_in, trimmed, SameButMessages, Sends, Looks, Receives, Closes, GivesUp, Pays};
ghost use Rattle.mono_locks.specs.Listed.{broadcast_some};
ghost use Rattle.mono_locks.specs.Queues.{has_task};
ghost use Rattle.mono_task.specs.Owed.{Keeps};

pub use crate::broadcast_calls::{RecvCall, RecvFuture, close, recv, send};
use crate::queues::{Asked, Entry, Queue, Ticket};
use mono_task::SharedState;
use std::alloc::Global;
use std::cmp::max;
use std::collections::VecDeque;
use thiserror::Error;

/// A bounded channel whose receivers each get every message that was sent after they subscribed, in order.
///
/// The channel keeps the last messages, up to its capacity. A receiver that lags behind them is told how many messages it
/// missed, and goes on with the oldest one that is kept.
#[derive(Drop)]
pub struct Broadcast<T> {
    pub(crate) messages: VecDeque<T>,
    pub(crate) capacity: usize,
    // How many messages were sent. Each has its number, from 0.
    pub(crate) sent: u64,
    pub(crate) is_closed: bool,
    // Tickets below this one were drawn before the last send.
    pub(crate) cleared: u64,
    pub(crate) queue: Queue,
}

/// A place among the messages of a broadcast: the number of the next message. A copy receives the same messages again.
#[derive(Clone, Copy, Debug)]
pub struct Receiver {
    pub(crate) next: u64,
}

/// The reason why a message was not sent, with the message.
#[derive(Debug, Drop, Error)]
pub enum SendError<T> {
    /// The channel was closed.
    #[error("channel closed")]
    Closed(T),
    /// The allocation of a place for the message failed, or no number is left.
    #[error("out of memory")]
    Memory(T),
}

/// The reason why a receiver got no message.
#[derive(Clone, Copy, Debug, Drop, Error)]
pub enum RecvError {
    /// The channel was closed, and the receiver got each message before.
    #[error("channel closed")]
    Closed,
    /// The receiver missed this many messages, which are kept no longer.
    #[error("channel lagged by {0}")]
    Lagged(u64),
}

/// What a receiver got, and the receiver for what comes next.
#[derive(Drop)]
pub struct Received<T> {
    /// The receiver of the next message.
    pub receiver: Receiver,
    /// The message, or why there is none.
    pub message: Result<T, RecvError>,
}

/// A broadcast owes a wake to each task that waited at the last send, and to all once it was closed.
impl<T> SharedState for Broadcast<T> {
    ghost leads = { Leads Step };

    ghost names = { λ a. has_task a.queue };

    ghost lists = { listed_by };

    ghost waiting = { waiting_in };

    ghost owes = { owed_by };

    fn next_owed(&mut self) -> Option<u64> {
        match self.pay() {
            None => None,
            Some(first) => Some(first.task),
        }
    }

    ghost leads_itself = { leads_itself Step };

    ghost leads_on = { leads_on Step };

    ghost lists_some = { broadcast_some };
}

impl<T> Broadcast<T> {
    // Takes the first task out of the queue, if it waited at the last send or the channel was closed.
    fn pay(&mut self) -> Option<Entry>
        ensures { Pays self.old result self.new }
    {
        self.queue.take_below(self.is_closed, self.cleared)
    }
}

impl<T: Copy + Drop> Broadcast<T> {
    /// Returns a channel that keeps this many messages. One for none keeps one.
    pub fn new(alloc: Global, capacity: usize) -> Broadcast<T>
        ensures messages { result.messages.items ≡ [] }
        ensures capacity { result.capacity ≡ max capacity 1 }
        ensures sent { result.sent ≡ 0 }
        ensures open { result.is_closed ≡ false }
        ensures waiters { result.queue.waiters.items ≡ [] }
        ensures tickets { (result.queue.next ≡ 0) × (result.cleared ≡ 0) }
    {
        Broadcast {
            messages: VecDeque::new(alloc),
            capacity: max(capacity, 1),
            sent: 0,
            is_closed: false,
            cleared: 0,
            queue: Queue::new(alloc),
        }
    }

    /// Returns a receiver of the messages that are sent from now on.
    pub fn subscribe(&self) -> Receiver
        ensures { result.next ≡ self.now.sent }
    {
        Receiver { next: self.sent }
    }

    /// Returns whether the channel was closed.
    pub fn is_closed(&self) -> bool
        ensures { result ≡ self.now.is_closed }
    {
        self.is_closed
    }

    // Drops the oldest message if there is one more than the capacity.
    fn trim(&mut self)
        ensures messages { self.new.messages.items ≡ trimmed self.old.capacity self.old.messages.items }
        ensures same { SameButMessages self.old self.new }
    {
        if self.messages.len() > self.capacity {
            let Some(_oldest) = self.messages.pop_front() else {
                unreachable!()
            };
        }
    }

    /// Sends a message to all receivers: all tasks that wait are to be woken. The oldest message is dropped if the channel
    /// is full.
    ///
    /// Refused with `Closed` if the channel was closed, and with `Memory` if out of memory, or if no number is left.
    pub fn send(&mut self, message: T) -> Result<(), SendError<T>>
        ensures answer { Sends self.old message result self.new }
        ensures keeps { (me : ℕ) → Keeps listed_by me self.old self.new }
    {
        if self.is_closed {
            return Err(SendError::Closed(message));
        }
        let Some(sent) = self.sent.checked_add(1) else {
            return Err(SendError::Memory(message));
        };
        match self.messages.push_back(message) {
            Err(failed) => Err(SendError::Memory(failed.value)),
            Ok(()) => {
                self.sent = sent;
                self.cleared = self.queue.next;
                self.trim();
                Ok(())
            }
        }
    }

    // Returns the number of the oldest message that is kept.
    fn oldest(&self) -> u64
        ensures { result ≡ oldest self.now }
    {
        self.sent.saturating_sub(self.messages.len() as u64)
    }

    // Returns what a receiver gets at once, if anything.
    fn look(&self, next: u64) -> Option<Received<T>>
        ensures { Looks self.now next result }
    {
        let oldest = self.oldest();
        if next < oldest {
            return Some(Received {
                receiver: Receiver { next: oldest },
                message: Err(RecvError::Lagged(oldest - next)),
            });
        }
        if next < self.sent {
            return Some(Received {
                receiver: Receiver { next: next + 1 },
                message: Ok(self.messages[(next - oldest) as usize]),
            });
        }
        if self.is_closed {
            return Some(Received {
                receiver: Receiver { next },
                message: Err(RecvError::Closed),
            });
        }
        None
    }

    /// Returns what a receiver gets at once, or `None` if it got all that was sent.
    pub fn try_recv(&self, receiver: Receiver) -> Option<Received<T>>
        ensures { Looks self.now receiver.next result }
    {
        self.look(receiver.next)
    }

    // Answers a receiver's future of this task, or makes it wait.
    fn ask(&mut self, next: u64, ticket: Option<Ticket>, me: u64) -> Asked<Received<T>>
        ensures { Receives self.old next ticket me result self.new }
    {
        match self.look(next) {
            Some(received) => {
                self.queue.leave(ticket, me, 1);
                Asked::Got(received)
            }
            None => match self.queue.ask(ticket, me, 1, 0) {
                Asked::Got(()) => unreachable!(),
                Asked::Memory => Asked::Memory,
                Asked::Joined(drawn) => Asked::Joined(drawn),
                Asked::Waits => Asked::Waits,
            },
        }
    }

    /// Answers a receiver's future of this task, or makes it wait. The ticket is the one that the future drew before.
    pub fn recv(
        &mut self,
        receiver: Receiver,
        ticket: Option<Ticket>,
        me: u64,
    ) -> Asked<Received<T>>
        ensures answer { Receives self.old receiver.next ticket me result self.new }
        ensures keeps { Keeps listed_by me self.old self.new }
    {
        self.ask(receiver.next, ticket, me)
    }

    /// Closes the channel: all tasks that wait are to be woken. The messages that are kept can still be received.
    pub fn close(&mut self)
        ensures answer { Closes self.old self.new }
        ensures keeps { (me : ℕ) → Keeps listed_by me self.old self.new }
    {
        self.is_closed = true;
    }

    /// Takes a future out of the queue, in a turn of this task.
    pub fn give_up(&mut self, ticket: Option<Ticket>, me: u64)
        ensures answer { GivesUp self.old ticket me self.new }
        ensures keeps { Keeps listed_by me self.old self.new }
    {
        self.queue.leave(ticket, me, 1);
    }
}
