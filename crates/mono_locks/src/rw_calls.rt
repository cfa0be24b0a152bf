// The calls of a task on a lock for readers and writers.
ghost use Rattle.std.specs.Prelude.{◌≡◌, false, ℕ};
ghost use Rattle.mono_locks.specs.declared.rwlock.TheConstants.{MAX_READS};
ghost use Rattle.mono_locks.specs.RwLocks.{TriesToRead, TriesToWrite, Reads, Writes, EndsRead, EndsWrite, GivesUp};
ghost use Rattle.mono_task.specs.Owed.{Keeps};

use crate::asks::{Ask, Asking, ask_for};
use crate::mutex::TryLockError;
use crate::queues::{Asked, Ticket};
use crate::rwlock::{RwLock, RwLockReadGuard, RwLockWriteGuard};
use mono_sync::Holds;
use mono_task::SharedContext;
use std::marker::PhantomData;

/// A call of [`read`].
#[derive(Drop)]
pub struct ReadCall<T> {
    value: PhantomData<T>,
}

/// A call of [`write`].
#[derive(Drop)]
pub struct WriteCall<T> {
    value: PhantomData<T>,
}

/// A future that takes a read guard of the tasks' lock, and waits while a task writes or others wait.
pub type ReadFuture<W, T> = Asking<W, ReadCall<T>>;

/// A future that takes the write guard of the tasks' lock, and waits while a task reads or writes or others wait.
pub type WriteFuture<W, T> = Asking<W, WriteCall<T>>;

/// Returns a future that takes a read guard of the tasks' lock. It fails if out of memory.
pub fn read<W, T>() -> ReadFuture<W, T>
    ensures unspent { result.has_answered ≡ false }
{
    ask_for(ReadCall { value: PhantomData })
}

/// Returns a future that takes the write guard of the tasks' lock. It fails if out of memory.
pub fn write<W, T>() -> WriteFuture<W, T>
    ensures unspent { result.has_answered ≡ false }
{
    ask_for(WriteCall { value: PhantomData })
}

impl<W: Holds<RwLock<T>>, T: Drop> Ask<W> for ReadCall<T> {
    type Gets = RwLockReadGuard<T>;

    ghost asks = { λ k ticket me w r v. Reads (W.part w) ticket me r (W.part v) };

    ghost leaves = { λ k ticket me w v. GivesUp (W.part w) ticket me 1 (W.part v) };

    fn ask(&self, shared: &mut W, ticket: Option<Ticket>, me: u64) -> Asked<RwLockReadGuard<T>> {
        shared.part_mut().read(ticket, me)
    }

    fn leave(&self, shared: &mut W, ticket: Option<Ticket>, me: u64) {
        shared.part_mut().give_up_read(ticket, me)
    }
}

impl<W: Holds<RwLock<T>>, T: Drop> Ask<W> for WriteCall<T> {
    type Gets = RwLockWriteGuard<T>;

    ghost asks = { λ k ticket me w r v. Writes (W.part w) ticket me r (W.part v) };

    ghost leaves = { λ k ticket me w v. GivesUp (W.part w) ticket me MAX_READS (W.part v) };

    fn ask(&self, shared: &mut W, ticket: Option<Ticket>, me: u64) -> Asked<RwLockWriteGuard<T>> {
        shared.part_mut().write(ticket, me)
    }

    fn leave(&self, shared: &mut W, ticket: Option<Ticket>, me: u64) {
        shared.part_mut().give_up_write(ticket, me)
    }
}

// Takes a read guard at once.
fn try_read_part<W: Holds<RwLock<T>>, T: Drop>(
    whole: &mut W,
) -> Result<RwLockReadGuard<T>, TryLockError>
    ensures answer { TriesToRead (W.part whole.old) result (W.part whole.new) }
    ensures leads { W.leads whole.old whole.new }
    ensures keeps { (me : ℕ) → Keeps W.lists me whole.old whole.new }
{
    whole.part_mut().try_read()
}

// Takes the write guard at once.
fn try_write_part<W: Holds<RwLock<T>>, T: Drop>(
    whole: &mut W,
) -> Result<RwLockWriteGuard<T>, TryLockError>
    ensures answer { TriesToWrite (W.part whole.old) result (W.part whole.new) }
    ensures leads { W.leads whole.old whole.new }
    ensures keeps { (me : ℕ) → Keeps W.lists me whole.old whole.new }
{
    whole.part_mut().try_write()
}

// Takes a read guard back.
pub(crate) fn end_read_part<W: Holds<RwLock<T>>, T: Drop>(
    whole: &mut W,
    guard: RwLockReadGuard<T>,
) -> Result<(), RwLockReadGuard<T>>
    ensures answer { EndsRead (W.part whole.old) guard result (W.part whole.new) }
    ensures leads { W.leads whole.old whole.new }
    ensures keeps { (me : ℕ) → Keeps W.lists me whole.old whole.new }
{
    whole.part_mut().end_read(guard)
}

// Puts the value of the write guard back.
pub(crate) fn end_write_part<W: Holds<RwLock<T>>, T: Drop>(
    whole: &mut W,
    guard: RwLockWriteGuard<T>,
) -> Result<(), RwLockWriteGuard<T>>
    ensures answer { EndsWrite (W.part whole.old) guard result (W.part whole.new) }
    ensures leads { W.leads whole.old whole.new }
    ensures keeps { (me : ℕ) → Keeps W.lists me whole.old whole.new }
{
    whole.part_mut().end_write(guard)
}

/// Takes a read guard at once. Refused if a task writes or waits, or if the lock is reserved for a writer that was served.
pub fn try_read<W: Holds<RwLock<T>>, T: Drop, C: SharedContext<W>>(
    cx: &mut C,
) -> Result<RwLockReadGuard<T>, TryLockError>
    ensures answer { TriesToRead (W.part (C.shared cx.old)) result (W.part (C.shared cx.new)) }
    ensures work { C.work cx.new ≡ C.work cx.old }
    ensures reached { C.reaches cx.old cx.new }
{
    try_read_part::<W, T>(cx.shared_mut())
}

/// Takes the write guard at once. Refused if a task reads, writes or waits, or if the lock is reserved for one that was
/// served.
pub fn try_write<W: Holds<RwLock<T>>, T: Drop, C: SharedContext<W>>(
    cx: &mut C,
) -> Result<RwLockWriteGuard<T>, TryLockError>
    ensures answer { TriesToWrite (W.part (C.shared cx.old)) result (W.part (C.shared cx.new)) }
    ensures work { C.work cx.new ≡ C.work cx.old }
    ensures reached { C.reaches cx.old cx.new }
{
    try_write_part::<W, T>(cx.shared_mut())
}

/// Takes a read guard back. If it was the last one, the runtime wakes the first task that waits after the turn.
///
/// The guard comes back if no read guard is out: then another lock made it.
pub fn end_read<W: Holds<RwLock<T>>, T: Drop, C: SharedContext<W>>(
    cx: &mut C,
    guard: RwLockReadGuard<T>,
) -> Result<(), RwLockReadGuard<T>>
    ensures answer { EndsRead (W.part (C.shared cx.old)) guard result (W.part (C.shared cx.new)) }
    ensures work { C.work cx.new ≡ C.work cx.old }
    ensures reached { C.reaches cx.old cx.new }
{
    end_read_part::<W, T>(cx.shared_mut(), guard)
}

/// Puts the value of the write guard back. The runtime wakes the first tasks that wait after the turn.
///
/// The guard comes back if none is out: then another lock made it.
pub fn end_write<W: Holds<RwLock<T>>, T: Drop, C: SharedContext<W>>(
    cx: &mut C,
    guard: RwLockWriteGuard<T>,
) -> Result<(), RwLockWriteGuard<T>>
    ensures answer { EndsWrite (W.part (C.shared cx.old)) guard result (W.part (C.shared cx.new)) }
    ensures work { C.work cx.new ≡ C.work cx.old }
    ensures reached { C.reaches cx.old cx.new }
{
    end_write_part::<W, T>(cx.shared_mut(), guard)
}
