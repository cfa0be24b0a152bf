// A lock that is held over waits, as a plain value.
ghost use Rattle.std.specs.Prelude.{◌≡◌, [], ℕ, Some, length};
ghost use Rattle.std.specs.Borrow.{sem};
ghost use Rattle.std.specs.Option.{option_copied};
ghost use Rattle.mono_sync.specs.Runs.{Leads, leads_itself, leads_on};
ghost use Rattle.mono_locks.specs.MutexRuns.{Step};
ghost use Rattle.mono_locks.specs.Mutexes.{free, has_none, owed_by, listed_by, waiting_in, TriesToLock, Locks, Unlocks, GivesUp, Pays};
ghost use Rattle.mono_locks.specs.Queues.{has_task};
ghost use Rattle.mono_locks.specs.Listed.{mutex_some};
ghost use Rattle.mono_task.specs.Owed.{Keeps};

pub use crate::locks::{LockCall, LockFuture, lock, try_lock, unlock};
use crate::queues::{Asked, Entry, Queue, Ticket};
use mono_task::SharedState;
use std::alloc::Global;
use std::mem;
use thiserror::Error;

/// A value that one task at a time holds, also over its waits, first come, first served.
///
/// Whoever locks it takes the value out, in a guard, and nobody else can reach it. `unlock` puts it back. The language
/// has no drop that reaches the mutex: a guard that is dropped or forgotten leaves it locked for good, as `is_locked`
/// tells. A mutex that is unlocked while tasks wait is owed to the first of them. So no task that asks later overtakes it.
#[derive(Drop)]
pub struct Mutex<T> {
    // The value, unless a guard has it.
    pub(crate) value: Option<T>,
    pub(crate) queue: Queue,
}

/// The value of a locked mutex. Only a mutex makes it, and it goes back by `unlock`.
#[derive(Drop)]
pub struct MutexGuard<T> {
    pub(crate) value: T,
}

/// The error of a lock at once: the mutex is locked, or owed to a task that waits, or reserved for one that was served.
#[derive(Debug, Drop, Error)]
#[error("operation would block")]
pub struct TryLockError;

impl<T> MutexGuard<T> {
    /// Returns a reference to the value.
    pub fn get(&self) -> &T
        ensures { result.now ≡ self.now.value }
    {
        &self.value
    }

    ghost use Rattle.mono_locks.specs.Loans.{LendsGuarded};

    /// Returns a mutable reference to the value. The last value under the reference is the guard's (`writes_back`).
    pub fn get_mut(&mut self) -> &mut T
        ensures* writes_back { sem 𝓛 (LendsGuarded T.row self.entry result) }
        ensures value { result.now ≡ self.old.value }
    {
        &mut self.value
    }
}

/// A mutex owes a wake to the first task that waits, if it is not locked and is reserved for no other.
impl<T> SharedState for Mutex<T> {
    ghost leads = { Leads Step };

    ghost names = { λ a. has_task a.queue };

    ghost lists = { listed_by };

    ghost waiting = { waiting_in };

    ghost owes = { owed_by };

    fn next_owed(&mut self) -> Option<u64> {
        match self.pay() {
            None => None,
            Some(first) => Some(first.task),
        }
    }

    ghost leads_itself = { leads_itself Step };

    ghost leads_on = { leads_on Step };

    ghost lists_some = { mutex_some };
}

impl<T> Mutex<T> {
    // Returns how many tasks may lock it.
    fn room(&self) -> usize
        ensures { result ≡ free self.now.value }
    {
        match self.value {
            None => 0,
            Some(_) => 1,
        }
    }

    // Takes the first task out of the queue, if the mutex is free for it.
    fn pay(&mut self) -> Option<Entry>
        ensures { Pays self.old result self.new }
    {
        let room = self.room();
        self.queue.serve(room)
    }
}

impl<T: Drop> Mutex<T> {
    /// Returns an unlocked mutex with this value.
    pub fn new(alloc: Global, value: T) -> Mutex<T>
        ensures value { result.value ≡ Some value }
        ensures waiters { result.queue.waiters.items ≡ [] }
        ensures granted { result.queue.granted ≡ 0 }
        ensures tickets { result.queue.next ≡ 0 }
    {
        Mutex {
            value: Some(value),
            queue: Queue::new(alloc),
        }
    }

    /// Returns whether a guard has the value. It stays so if the guard was dropped or forgotten.
    pub fn is_locked(&self) -> bool
        ensures { result ≡ has_none self.now.value }
    {
        self.value.is_none()
    }

    /// Returns how many futures wait for the value, with those that left in a turn of another task.
    pub fn waiting(&self) -> usize
        ensures { result ≡ length self.now.queue.waiters.items }
    {
        self.queue.waiters.len()
    }

    /// Returns the value, unless a guard has it.
    pub fn get(&self) -> Option<&T>
        ensures { option_copied result ≡ self.now.value }
    {
        self.value.as_ref()
    }

    /// Returns the value, unless a guard has it. No task can lock the mutex any more.
    pub fn into_inner(self) -> Option<T>
        ensures { result ≡ self.value }
    {
        self.value
    }

    /// Locks at once. Refused if a guard has the value, if a task waits for it, or if it is reserved for one that was served.
    pub fn try_lock(&mut self) -> Result<MutexGuard<T>, TryLockError>
        ensures answer { TriesToLock self.old result self.new }
        ensures keeps { (me : ℕ) → Keeps listed_by me self.old self.new }
    {
        let room = self.room();
        if !self.queue.has_room(1, room) {
            return Err(TryLockError);
        }
        let Some(value) = mem::replace(&mut self.value, None) else {
            unreachable!()
        };
        Ok(MutexGuard { value })
    }

    // Locks for a future of this task, or makes it wait.
    fn ask(&mut self, ticket: Option<Ticket>, me: u64) -> Asked<MutexGuard<T>>
        ensures { Locks self.old ticket me result self.new }
    {
        let room = self.room();
        match self.queue.ask(ticket, me, 1, room) {
            Asked::Got(()) => {
                let Some(value) = mem::replace(&mut self.value, None) else {
                    unreachable!()
                };
                Asked::Got(MutexGuard { value })
            }
            Asked::Memory => Asked::Memory,
            Asked::Joined(drawn) => Asked::Joined(drawn),
            Asked::Waits => Asked::Waits,
        }
    }

    /// Locks for a future of this task, or makes the future wait. The ticket is the one that the future drew before.
    pub fn lock(&mut self, ticket: Option<Ticket>, me: u64) -> Asked<MutexGuard<T>>
        ensures answer { Locks self.old ticket me result self.new }
        ensures keeps { Keeps listed_by me self.old self.new }
    {
        self.ask(ticket, me)
    }

    /// Puts the value of a guard back. If tasks wait, the mutex is owed to the first of them.
    ///
    /// The guard comes back if the mutex is not locked: then another mutex made it.
    pub fn unlock(&mut self, guard: MutexGuard<T>) -> Result<(), MutexGuard<T>>
        ensures answer { Unlocks self.old guard result self.new }
        ensures keeps { (me : ℕ) → Keeps listed_by me self.old self.new }
    {
        if self.value.is_some() {
            return Err(guard);
        }
        self.value = Some(guard.value);
        Ok(())
    }

    /// Takes a future out of the queue, in a turn of this task. The mutex, if it was reserved for the future, is owed to the
    /// first task that waits.
    pub fn give_up(&mut self, ticket: Option<Ticket>, me: u64)
        ensures answer { GivesUp self.old ticket me self.new }
        ensures keeps { Keeps listed_by me self.old self.new }
    {
        self.queue.leave(ticket, me, 1);
    }
}
