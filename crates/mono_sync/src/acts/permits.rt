// What a future does with a semaphore in one turn.
ghost use Rattle.std.specs.Prelude.{◌≡◌, ℕ, Some, is_some, true};
ghost use Rattle.mono_sync.specs.Semaphores.{TriesToAcquire, Releases, Closes};
ghost use Rattle.mono_task.specs.Owed.{Keeps};

use crate::acts::performs::{Act, AtOnce, perform};
use crate::parts::Holds;
use crate::permits::{close_part, release_part, try_part};
use crate::semaphores::{Semaphore, TooManyPermits, TryAcquireError};
use std::alloc::Global;

/// A call of [`try_acquire`].
#[derive(Drop)]
pub struct TryAcquireCall;

/// Takes a permit at once.
///
/// Refused with `Closed` if the semaphore was closed, and with `NoPermits` if no permit is free.
pub fn try_acquire<W>() -> AtOnce<W, TryAcquireCall>
    ensures unspent { is_some result.act ≡ true }
{
    perform(TryAcquireCall)
}

impl<W: Holds<Semaphore>> Act<W> for TryAcquireCall {
    type Answer = Result<(), TryAcquireError>;

    ghost acts = { λ a w r v. TriesToAcquire (W.part w) r (W.part v) };

    fn act(self, _alloc: Global, shared: &mut W) -> Result<(), TryAcquireError> {
        try_part(shared)
    }
}

/// A call of [`release`].
#[derive(Drop)]
pub struct ReleaseCall;

/// Releases a permit: it is owed to the first task that waits for one.
///
/// Refused if the permits are at their maximum.
pub fn release<W>() -> AtOnce<W, ReleaseCall>
    ensures unspent { is_some result.act ≡ true }
{
    perform(ReleaseCall)
}

impl<W: Holds<Semaphore>> Act<W> for ReleaseCall {
    type Answer = Result<(), TooManyPermits>;

    ghost acts = { λ a w r v. Releases (W.part w) r (W.part v) };

    fn act(self, _alloc: Global, shared: &mut W) -> Result<(), TooManyPermits> {
        release_part(shared)
    }
}

/// A call of [`close_semaphore`].
#[derive(Drop)]
pub struct CloseSemaphoreCall;

/// Closes the semaphore: all tasks that wait for a permit are woken.
pub fn close_semaphore<W>() -> AtOnce<W, CloseSemaphoreCall>
    ensures unspent { is_some result.act ≡ true }
{
    perform(CloseSemaphoreCall)
}

impl<W: Holds<Semaphore>> Act<W> for CloseSemaphoreCall {
    type Answer = ();

    ghost acts = { λ a w r v. Closes (W.part w) (W.part v) };

    fn act(self, _alloc: Global, shared: &mut W) {
        close_part(shared)
    }
}
