// A semaphore as a plain value.
ghost use Rattle.std.specs.Prelude.{◌≡◌, ◌-◌, ◌+◌, [], false, ℕ, length};
ghost use Rattle.mono_sync.specs.SemaphoreRuns.{Leads, leads_itself, leads_on};
ghost use Rattle.mono_sync.specs.Semaphores.{owed_by, listed_by, waiting_in, TriesToAcquire, Acquires, Releases, GivesUp, Closes, Pays};
ghost use Rattle.mono_sync.specs.Lines.{has_task};
ghost use Rattle.mono_sync.specs.Listed.{semaphore_some};
ghost use Rattle.mono_task.specs.Owed.{Keeps};

use crate::lines::{Coming, Line, Ticket, Waiter};
use mono_task::SharedState;
use std::alloc::Global;

/// The greatest number of permits that a semaphore may have.
pub const MAX_PERMITS: usize = 2305843009213693951;

/// Permits, and the tasks that wait for one, first come, first served.
///
/// A permit that is released while tasks wait is owed to the first of them. So no task that asks later overtakes it.
#[derive(Drop)]
pub struct Semaphore {
    // The permits that no task holds, with those that are reserved for tasks that were served.
    pub(crate) available: usize,
    pub(crate) is_closed: bool,
    pub(crate) line: Line,
}

/// The reason why no permit was given at once.
#[derive(Debug, Drop)]
pub enum TryAcquireError {
    /// The semaphore was closed.
    Closed,
    /// Each permit is held, or owed to a task that waits, or reserved for one that was served.
    NoPermits,
}

/// The error of a release while the permits are at their maximum.
#[derive(Debug, Drop)]
pub struct TooManyPermits;

/// The answer to a future that asks for a permit.
#[derive(Debug, Drop)]
pub enum Acquiring {
    /// The future has a permit.
    Acquired,
    /// The semaphore was closed.
    Closed,
    /// The allocation of a place in the line failed.
    Memory,
    /// The future waits from now on, with this ticket.
    Joined(Ticket),
    /// The future still waits.
    Waits,
}

/// A semaphore owes a wake to each waiting task for which a permit is free, and to all once it was closed.
impl SharedState for Semaphore {
    ghost leads = { Leads };

    ghost names = { λ a. has_task a.line };

    ghost lists = { listed_by };

    ghost waiting = { waiting_in };

    ghost owes = { owed_by };

    fn next_owed(&mut self) -> Option<u64> {
        match self.pay() {
            None => None,
            Some(first) => Some(first.task),
        }
    }

    ghost leads_itself = { leads_itself };

    ghost leads_on = { leads_on };

    ghost lists_some = { semaphore_some };
}

impl Semaphore {
    /// Returns a semaphore with `permits` permits.
    pub fn new(alloc: Global, permits: usize) -> Semaphore
        ensures available { result.available ≡ permits }
        ensures waiters { result.line.waiters.items ≡ [] }
        ensures granted { result.line.granted ≡ 0 }
        ensures tickets { result.line.next ≡ 0 }
        ensures open { result.is_closed ≡ false }
    {
        Semaphore {
            available: permits,
            is_closed: false,
            line: Line::new(alloc),
        }
    }

    /// Returns how many permits are neither held, nor reserved, nor owed to a task that waits.
    pub fn available_permits(&self) -> usize
        ensures { result ≡ self.now.available - (self.now.line.granted + length self.now.line.waiters.items) }
    {
        self.available
            .saturating_sub(self.line.granted)
            .saturating_sub(self.line.waiters.len())
    }

    /// Returns whether the semaphore was closed.
    pub fn is_closed(&self) -> bool
        ensures { result ≡ self.now.is_closed }
    {
        self.is_closed
    }

    /// Takes a permit at once. Refused with `Closed` if the semaphore was closed, and with `NoPermits` if no permit is free.
    pub fn try_acquire(&mut self) -> Result<(), TryAcquireError>
        ensures answer { TriesToAcquire self.old result self.new }
        ensures keeps { (me : ℕ) → Keeps listed_by me self.old self.new }
    {
        if self.is_closed {
            return Err(TryAcquireError::Closed);
        }
        if self.available_permits() == 0 {
            return Err(TryAcquireError::NoPermits);
        }
        self.available -= 1;
        Ok(())
    }

    // Takes a permit for a future of this task, or makes it wait.
    fn ask(&mut self, ticket: Option<Ticket>, me: u64) -> Acquiring
        ensures { Acquires self.old ticket me result self.new }
    {
        if self.is_closed {
            self.line.leave(ticket, me);
            return Acquiring::Closed;
        }
        match self.line.come(ticket, me, self.available) {
            Coming::Waits => Acquiring::Waits,
            Coming::Free => {
                self.available -= 1;
                Acquiring::Acquired
            }
            Coming::Full => match self.line.join(me) {
                Ok(drawn) => Acquiring::Joined(drawn),
                Err(_) => Acquiring::Memory,
            },
        }
    }

    /// Takes a permit for a future of this task, or makes the future wait. The ticket is the one that the future drew
    /// before.
    pub fn acquire(&mut self, ticket: Option<Ticket>, me: u64) -> Acquiring
        ensures answer { Acquires self.old ticket me result self.new }
        ensures keeps { Keeps listed_by me self.old self.new }
    {
        self.ask(ticket, me)
    }

    /// Releases a permit. If tasks wait, it is owed to the first of them.
    ///
    /// Refused if the permits are at their maximum.
    pub fn release(&mut self) -> Result<(), TooManyPermits>
        ensures answer { Releases self.old result self.new }
        ensures keeps { (me : ℕ) → Keeps listed_by me self.old self.new }
    {
        if self.available >= MAX_PERMITS {
            return Err(TooManyPermits);
        }
        self.available += 1;
        Ok(())
    }

    /// Takes a future out of the line, in a turn of this task. Its permit, if it was served, is owed to the first task that
    /// waits.
    pub fn give_up(&mut self, ticket: Option<Ticket>, me: u64)
        ensures answer { GivesUp self.old ticket me self.new }
        ensures keeps { Keeps listed_by me self.old self.new }
    {
        self.line.leave(ticket, me);
    }

    /// Closes the semaphore: all tasks that wait are to be woken. No task gets a permit from now on.
    pub fn close(&mut self)
        ensures answer { Closes self.old self.new }
        ensures keeps { (me : ℕ) → Keeps listed_by me self.old self.new }
    {
        self.is_closed = true;
    }

    // Takes the first task out of the line, if a permit is free for it or the semaphore was closed.
    fn pay(&mut self) -> Option<Waiter>
        ensures { Pays self.old result self.new }
    {
        self.line.take(self.is_closed, self.available)
    }
}
