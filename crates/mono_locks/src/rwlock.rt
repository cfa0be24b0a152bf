// A lock for many readers or one writer that is held over waits, as a plain value.
ghost use Rattle.std.specs.Prelude.{◌≡◌, [], ℕ, Some, length};
ghost use Rattle.std.specs.Borrow.{sem};
ghost use Rattle.std.specs.Option.{option_copied};
ghost use Rattle.mono_sync.specs.Runs.{Leads, leads_itself, leads_on};
ghost use Rattle.mono_locks.specs.Listed.{rwlock_some};
ghost use Rattle.mono_locks.specs.Mutexes.{has_none};
ghost use Rattle.mono_locks.specs.Queues.{has_task};
ghost use Rattle.mono_locks.specs.RwLockRuns.{Step};
ghost use Rattle.mono_locks.specs.declared.rwlock.TheConstants.{MAX_READS};
ghost use Rattle.mono_locks.specs.RwLocks.{room_of, owed_by, listed_by, waiting_in, TriesToRead, TriesToWrite, Reads, Writes, EndsRead, EndsWrite, GivesUp, Pays};
ghost use Rattle.mono_task.specs.Owed.{Keeps};

use crate::mutex::TryLockError;
use crate::queues::{Asked, Entry, Queue, Ticket};
pub use crate::rw_calls::{
    ReadCall, ReadFuture, WriteCall, WriteFuture, end_read, end_write, read, try_read, try_write,
    write,
};
use mono_task::SharedState;
use std::alloc::Global;
use std::marker::PhantomData;
use std::mem;

/// The greatest number of read guards at a time.
pub const MAX_READS: usize = 536870911;

/// A value that many tasks read or one task writes, also over their waits, first come, first served.
///
/// Whoever writes takes the value out, in a guard, and nobody else can reach it. Whoever reads has a guard, and while one
/// is out the value stays in its place (`get`) and no task writes. A guard goes back by `end_read` or `end_write`. The
/// language has no drop that reaches the lock: a guard that is dropped or forgotten holds it for good, as `readers` and
/// `is_written` tell.
///
/// A task that asks while others wait goes behind them. So no reader overtakes a writer that waits.
#[derive(Drop)]
pub struct RwLock<T> {
    // The value, unless a write guard has it.
    pub(crate) value: Option<T>,
    // How many read guards are out.
    pub(crate) readers: usize,
    pub(crate) queue: Queue,
}

/// The right to read the value of a lock. Only a lock makes it, and it goes back by `end_read`.
#[derive(Drop)]
pub struct RwLockReadGuard<T> {
    value: PhantomData<T>,
}

/// The value of a lock, to be written. Only a lock makes it, and it goes back by `end_write`.
#[derive(Drop)]
pub struct RwLockWriteGuard<T> {
    pub(crate) value: T,
}

impl<T> RwLockWriteGuard<T> {
    /// Returns a reference to the value.
    pub fn get(&self) -> &T
        ensures { result.now ≡ self.now.value }
    {
        &self.value
    }

    ghost use Rattle.mono_locks.specs.Loans.{LendsWritten};

    /// Returns a mutable reference to the value. The last value under the reference is the guard's (`writes_back`).
    pub fn get_mut(&mut self) -> &mut T
        ensures* writes_back { sem 𝓛 (LendsWritten T.row self.entry result) }
        ensures value { result.now ≡ self.old.value }
    {
        &mut self.value
    }
}

/// A lock owes a wake to the first tasks that wait, as many as there is room for: readers up to the first writer, or one
/// writer.
impl<T> SharedState for RwLock<T> {
    ghost leads = { Leads Step };

    ghost names = { λ a. has_task a.queue };

    ghost lists = { listed_by };

    ghost waiting = { waiting_in };

    ghost owes = { owed_by };

    fn next_owed(&mut self) -> Option<u64> {
        match self.pay() {
            None => None,
            Some(first) => Some(first.task),
        }
    }

    ghost leads_itself = { leads_itself Step };

    ghost leads_on = { leads_on Step };

    ghost lists_some = { rwlock_some };
}

impl<T> RwLock<T> {
    // Returns how many readers may come. A writer takes the room of all.
    fn room(&self) -> usize
        ensures { result ≡ room_of self.now.value self.now.readers }
    {
        match self.value {
            None => 0,
            Some(_) => MAX_READS.saturating_sub(self.readers),
        }
    }

    // Takes the first task out of the queue, if there is room for it.
    fn pay(&mut self) -> Option<Entry>
        ensures { Pays self.old result self.new }
    {
        let room = self.room();
        self.queue.serve(room)
    }
}

impl<T: Drop> RwLock<T> {
    /// Returns a lock with this value, which no task has.
    pub fn new(alloc: Global, value: T) -> RwLock<T>
        ensures value { result.value ≡ Some value }
        ensures readers { result.readers ≡ 0 }
        ensures waiters { result.queue.waiters.items ≡ [] }
        ensures granted { result.queue.granted ≡ 0 }
        ensures tickets { result.queue.next ≡ 0 }
    {
        RwLock {
            value: Some(value),
            readers: 0,
            queue: Queue::new(alloc),
        }
    }

    /// Returns how many read guards are out, with those that were dropped or forgotten.
    pub fn readers(&self) -> usize
        ensures { result ≡ self.now.readers }
    {
        self.readers
    }

    /// Returns whether a write guard has the value. It stays so if the guard was dropped or forgotten.
    pub fn is_written(&self) -> bool
        ensures { result ≡ has_none self.now.value }
    {
        self.value.is_none()
    }

    /// Returns how many futures wait for the lock, with those that left in a turn of another task.
    pub fn waiting(&self) -> usize
        ensures { result ≡ length self.now.queue.waiters.items }
    {
        self.queue.waiters.len()
    }

    /// Returns the value, unless a write guard has it. While a read guard is out it is there
    /// (`laws::readers_have_the_value`).
    pub fn get(&self) -> Option<&T>
        ensures { option_copied result ≡ self.now.value }
    {
        self.value.as_ref()
    }

    /// Returns the value, unless a write guard has it. No task can take the lock any more.
    pub fn into_inner(self) -> Option<T>
        ensures { result ≡ self.value }
    {
        self.value
    }

    /// Takes a read guard at once. Refused if a task writes or waits, or if the lock is reserved for a writer that was
    /// served.
    pub fn try_read(&mut self) -> Result<RwLockReadGuard<T>, TryLockError>
        ensures answer { TriesToRead self.old result self.new }
        ensures keeps { (me : ℕ) → Keeps listed_by me self.old self.new }
    {
        let room = self.room();
        if !self.queue.has_room(1, room) {
            return Err(TryLockError);
        }
        self.readers += 1;
        Ok(RwLockReadGuard { value: PhantomData })
    }

    /// Takes the write guard at once. Refused if a task reads, writes or waits, or if the lock is reserved for one that was
    /// served.
    pub fn try_write(&mut self) -> Result<RwLockWriteGuard<T>, TryLockError>
        ensures answer { TriesToWrite self.old result self.new }
        ensures keeps { (me : ℕ) → Keeps listed_by me self.old self.new }
    {
        let room = self.room();
        if !self.queue.has_room(MAX_READS, room) {
            return Err(TryLockError);
        }
        let Some(value) = mem::replace(&mut self.value, None) else {
            unreachable!()
        };
        Ok(RwLockWriteGuard { value })
    }

    // Takes a read guard for a future of this task, or makes it wait.
    fn ask_read(&mut self, ticket: Option<Ticket>, me: u64) -> Asked<RwLockReadGuard<T>>
        ensures { Reads self.old ticket me result self.new }
    {
        let room = self.room();
        match self.queue.ask(ticket, me, 1, room) {
            Asked::Got(()) => {
                self.readers += 1;
                Asked::Got(RwLockReadGuard { value: PhantomData })
            }
            Asked::Memory => Asked::Memory,
            Asked::Joined(drawn) => Asked::Joined(drawn),
            Asked::Waits => Asked::Waits,
        }
    }

    // Takes the write guard for a future of this task, or makes it wait.
    fn ask_write(&mut self, ticket: Option<Ticket>, me: u64) -> Asked<RwLockWriteGuard<T>>
        ensures { Writes self.old ticket me result self.new }
    {
        let room = self.room();
        match self.queue.ask(ticket, me, MAX_READS, room) {
            Asked::Got(()) => {
                let Some(value) = mem::replace(&mut self.value, None) else {
                    unreachable!()
                };
                Asked::Got(RwLockWriteGuard { value })
            }
            Asked::Memory => Asked::Memory,
            Asked::Joined(drawn) => Asked::Joined(drawn),
            Asked::Waits => Asked::Waits,
        }
    }

    /// Takes a read guard for a future of this task, or makes the future wait. The ticket is the one that the future drew
    /// before.
    pub fn read(&mut self, ticket: Option<Ticket>, me: u64) -> Asked<RwLockReadGuard<T>>
        ensures answer { Reads self.old ticket me result self.new }
        ensures keeps { Keeps listed_by me self.old self.new }
    {
        self.ask_read(ticket, me)
    }

    /// Takes the write guard for a future of this task, or makes the future wait. The ticket is the one that the future
    /// drew before.
    pub fn write(&mut self, ticket: Option<Ticket>, me: u64) -> Asked<RwLockWriteGuard<T>>
        ensures answer { Writes self.old ticket me result self.new }
        ensures keeps { Keeps listed_by me self.old self.new }
    {
        self.ask_write(ticket, me)
    }

    /// Takes a read guard back. If it was the last one, the lock is owed to the first task that waits.
    ///
    /// The guard comes back if no read guard is out: then another lock made it.
    pub fn end_read(&mut self, guard: RwLockReadGuard<T>) -> Result<(), RwLockReadGuard<T>>
        ensures answer { EndsRead self.old guard result self.new }
        ensures keeps { (me : ℕ) → Keeps listed_by me self.old self.new }
    {
        if self.readers == 0 {
            return Err(guard);
        }
        self.readers -= 1;
        Ok(())
    }

    /// Puts the value of the write guard back. If tasks wait, the lock is owed to the first of them.
    ///
    /// The guard comes back if none is out: then another lock made it.
    pub fn end_write(&mut self, guard: RwLockWriteGuard<T>) -> Result<(), RwLockWriteGuard<T>>
        ensures answer { EndsWrite self.old guard result self.new }
        ensures keeps { (me : ℕ) → Keeps listed_by me self.old self.new }
    {
        if self.value.is_some() {
            return Err(guard);
        }
        self.value = Some(guard.value);
        Ok(())
    }

    /// Takes a reading future out of the queue, in a turn of this task. What was reserved for it is free again.
    pub fn give_up_read(&mut self, ticket: Option<Ticket>, me: u64)
        ensures answer { GivesUp self.old ticket me 1 self.new }
        ensures keeps { Keeps listed_by me self.old self.new }
    {
        self.queue.leave(ticket, me, 1);
    }

    /// Takes a writing future out of the queue, in a turn of this task. What was reserved for it is free again.
    pub fn give_up_write(&mut self, ticket: Option<Ticket>, me: u64)
        ensures answer { GivesUp self.old ticket me MAX_READS self.new }
        ensures keeps { Keeps listed_by me self.old self.new }
    {
        self.queue.leave(ticket, me, MAX_READS);
    }
}
