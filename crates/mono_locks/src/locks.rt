// The calls of a task on a mutex: it locks and unlocks.
ghost use Rattle.std.specs.Prelude.{◌≡◌, false, ℕ};
ghost use Rattle.mono_locks.specs.Mutexes.{TriesToLock, Locks, Unlocks, GivesUp};
ghost use Rattle.mono_task.specs.Owed.{Keeps};

use crate::asks::{Ask, Asking, ask_for};
use crate::mutex::{Mutex, MutexGuard, TryLockError};
use crate::queues::{Asked, Ticket};
use mono_sync::Holds;
use mono_task::SharedContext;
use std::marker::PhantomData;

/// A call of [`lock`].
#[derive(Drop)]
pub struct LockCall<T> {
    value: PhantomData<T>,
}

/// A future that locks the tasks' mutex, and waits while a guard has the value.
pub type LockFuture<W, T> = Asking<W, LockCall<T>>;

/// Returns a future that locks the tasks' mutex. It answers the guard with the value, and fails if out of memory.
pub fn lock<W, T>() -> LockFuture<W, T>
    ensures unspent { result.has_answered ≡ false }
{
    ask_for(LockCall { value: PhantomData })
}

impl<W: Holds<Mutex<T>>, T: Drop> Ask<W> for LockCall<T> {
    type Gets = MutexGuard<T>;

    ghost asks = { λ k ticket me w r v. Locks (W.part w) ticket me r (W.part v) };

    ghost leaves = { λ k ticket me w v. GivesUp (W.part w) ticket me (W.part v) };

    fn ask(&self, shared: &mut W, ticket: Option<Ticket>, me: u64) -> Asked<MutexGuard<T>> {
        shared.part_mut().lock(ticket, me)
    }

    fn leave(&self, shared: &mut W, ticket: Option<Ticket>, me: u64) {
        shared.part_mut().give_up(ticket, me)
    }
}

// Locks at once.
fn try_part<W: Holds<Mutex<T>>, T: Drop>(whole: &mut W) -> Result<MutexGuard<T>, TryLockError>
    ensures answer { TriesToLock (W.part whole.old) result (W.part whole.new) }
    ensures leads { W.leads whole.old whole.new }
    ensures keeps { (me : ℕ) → Keeps W.lists me whole.old whole.new }
{
    whole.part_mut().try_lock()
}

// Puts a guard's value back.
pub(crate) fn unlock_part<W: Holds<Mutex<T>>, T: Drop>(
    whole: &mut W,
    guard: MutexGuard<T>,
) -> Result<(), MutexGuard<T>>
    ensures answer { Unlocks (W.part whole.old) guard result (W.part whole.new) }
    ensures leads { W.leads whole.old whole.new }
    ensures keeps { (me : ℕ) → Keeps W.lists me whole.old whole.new }
{
    whole.part_mut().unlock(guard)
}

/// Locks at once. Refused if a guard has the value, if a task waits for it, or if it is reserved for one that was served.
pub fn try_lock<W: Holds<Mutex<T>>, T: Drop, C: SharedContext<W>>(
    cx: &mut C,
) -> Result<MutexGuard<T>, TryLockError>
    ensures answer { TriesToLock (W.part (C.shared cx.old)) result (W.part (C.shared cx.new)) }
    ensures work { C.work cx.new ≡ C.work cx.old }
    ensures reached { C.reaches cx.old cx.new }
{
    try_part::<W, T>(cx.shared_mut())
}

/// Puts the value of a guard back. If tasks wait for it, the runtime wakes the first of them after the turn.
///
/// The guard comes back if the mutex is not locked: then another mutex made it.
pub fn unlock<W: Holds<Mutex<T>>, T: Drop, C: SharedContext<W>>(
    cx: &mut C,
    guard: MutexGuard<T>,
) -> Result<(), MutexGuard<T>>
    ensures answer { Unlocks (W.part (C.shared cx.old)) guard result (W.part (C.shared cx.new)) }
    ensures work { C.work cx.new ≡ C.work cx.old }
    ensures reached { C.reaches cx.old cx.new }
{
    unlock_part::<W, T>(cx.shared_mut(), guard)
}
