// A watched value; only the last one is kept.
ghost use Rattle.std.specs.Prelude.{◌≡◌, [], false, ℕ};
ghost use Rattle.mono_sync.specs.Runs.{Leads, leads_itself, leads_on};
ghost use Rattle.mono_sync.specs.WatchRuns.{Step};
ghost use Rattle.mono_sync.specs.Watches.{owed_by, listed_by, waiting_in, Sends, Changes, GivesUp, Closes, Pays};
ghost use Rattle.mono_sync.specs.Lines.{has_task};
ghost use Rattle.mono_sync.specs.Listed.{watch_some};
ghost use Rattle.mono_task.specs.Owed.{Keeps};

pub use crate::changes::{Changed, ChangedError, close, send};
pub use crate::keyed_changes::{ChangedAt, close_at, send_at};
use crate::lines::{Coming, Line, Ticket, Waiter};
pub use crate::waiting::{WaitFor, wait_for};
use mono_task::SharedState;
use std::alloc::Global;
use std::mem;

/// A value with its version, and the tasks that wait for another.
#[derive(Drop)]
pub struct Watch<T> {
    pub(crate) value: T,
    pub(crate) version: u64,
    pub(crate) is_closed: bool,
    pub(crate) line: Line,
    // Tickets below this one were drawn before the last send.
    pub(crate) cleared: u64,
}

/// The answer to a future that waits for another value.
#[derive(Debug, Drop)]
pub enum Changing {
    /// There is another value, with this version.
    Changed(u64),
    /// No other value will come.
    Closed,
    /// The allocation of a place in the line failed.
    Memory,
    /// The future waits from now on, with this ticket.
    Joined(Ticket),
    /// The future still waits.
    Waits,
}

/// A watched value owes a wake to each task that waited at the last send, and to all once it was closed.
impl<T> SharedState for Watch<T> {
    ghost leads = { Leads Step };

    ghost names = { λ a. has_task a.line };

    ghost lists = { listed_by };

    ghost waiting = { waiting_in };

    ghost owes = { owed_by };

    fn next_owed(&mut self) -> Option<u64> {
        match self.pay() {
            None => None,
            Some(first) => Some(first.task),
        }
    }

    ghost leads_itself = { leads_itself Step };

    ghost leads_on = { leads_on Step };

    ghost lists_some = { watch_some };
}

impl<T> Watch<T> {
    // Takes the first task out of the line, if it waited at the last send or the value was closed.
    fn pay(&mut self) -> Option<Waiter>
        ensures { Pays self.old result self.new }
    {
        self.line.take_below(self.is_closed, self.cleared)
    }
}

impl<T: Drop> Watch<T> {
    /// Returns a watched value, at version 0.
    pub fn new(alloc: Global, value: T) -> Watch<T>
        ensures value { result.value ≡ value }
        ensures version { result.version ≡ 0 }
        ensures open { result.is_closed ≡ false }
        ensures waiters { result.line.waiters.items ≡ [] }
        ensures tickets { (result.line.next ≡ 0) × (result.cleared ≡ 0) }
    {
        Watch {
            value,
            version: 0,
            is_closed: false,
            line: Line::new(alloc),
            cleared: 0,
        }
    }

    /// Returns the last value.
    pub fn borrow(&self) -> &T
        ensures { result.now ≡ self.now.value }
    {
        &self.value
    }

    /// Returns the version of the last value.
    pub fn version(&self) -> u64
        ensures { result ≡ self.now.version }
    {
        self.version
    }

    /// Replaces the value, and returns the one before: all tasks that wait are to be woken.
    ///
    /// The new value comes back if the value was closed, or if no version is left.
    pub fn send(&mut self, value: T) -> Result<T, T>
        ensures answer { Sends self.old value result self.new }
        ensures keeps { (me : ℕ) → Keeps listed_by me self.old self.new }
    {
        if self.is_closed {
            return Err(value);
        }
        let Some(version) = self.version.checked_add(1) else {
            return Err(value);
        };
        self.version = version;
        self.cleared = self.line.next;
        Ok(mem::replace(&mut self.value, value))
    }

    // Answers a future of this task that has seen a version, or makes it wait.
    fn ask(&mut self, seen: u64, ticket: Option<Ticket>, me: u64) -> Changing
        ensures { Changes self.old seen ticket me result self.new }
    {
        if self.version != seen {
            self.line.leave(ticket, me);
            return Changing::Changed(self.version);
        }
        if self.is_closed {
            self.line.leave(ticket, me);
            return Changing::Closed;
        }
        match self.line.come(ticket, me, 0) {
            Coming::Waits => Changing::Waits,
            Coming::Free => unreachable!(),
            Coming::Full => match self.line.join(me) {
                Ok(drawn) => Changing::Joined(drawn),
                Err(_) => Changing::Memory,
            },
        }
    }

    /// Answers a future of this task that has seen a version, or makes it wait. The ticket is the one that the future
    /// drew before.
    pub fn changed(&mut self, seen: u64, ticket: Option<Ticket>, me: u64) -> Changing
        ensures answer { Changes self.old seen ticket me result self.new }
        ensures keeps { Keeps listed_by me self.old self.new }
    {
        self.ask(seen, ticket, me)
    }

    /// Takes a future out of the line, in a turn of this task.
    pub fn give_up(&mut self, ticket: Option<Ticket>, me: u64)
        ensures answer { GivesUp self.old ticket me self.new }
        ensures keeps { Keeps listed_by me self.old self.new }
    {
        self.line.leave(ticket, me);
    }

    /// Closes the value: all tasks that wait are to be woken.
    pub fn close(&mut self)
        ensures answer { Closes self.old self.new }
        ensures keeps { (me : ℕ) → Keeps listed_by me self.old self.new }
    {
        self.is_closed = true;
    }
}
