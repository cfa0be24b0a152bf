// What a future does with one of many semaphores in one turn.
ghost use Rattle.std.specs.Prelude.{◌≡◌, ℕ, Some};
ghost use Rattle.mono_sync.specs.KeyedPermits.{TriesToAcquireAt, ReleasesAt, ClosesAt};
ghost use Rattle.mono_task.specs.Owed.{Keeps};

use crate::acts::performs::{Act, AtOnce, perform};
use crate::keyed_permits::{close_part, release_part, try_part};
use crate::parts::Holds;
use crate::semaphores::{Semaphore, TooManyPermits, TryAcquireError};
use crate::tables::Many;
use std::alloc::Global;

/// A call of [`try_acquire_at`].
#[derive(Drop)]
pub struct TryAcquireAtCall {
    pub(crate) key: u64,
}

/// Takes a permit of the semaphore with this key.
///
/// Refused with `Closed` if there is no such semaphore or it was closed, and with `NoPermits` if no permit is free.
pub fn try_acquire_at<W>(key: u64) -> AtOnce<W, TryAcquireAtCall>
    ensures act { result.act ≡ Some (record { key = key }) }
{
    perform(TryAcquireAtCall { key })
}

impl<W: Holds<Many<Semaphore>>> Act<W> for TryAcquireAtCall {
    type Answer = Result<(), TryAcquireError>;

    ghost acts = { λ a w r v. TriesToAcquireAt a.key (W.part w) r (W.part v) };

    fn act(self, _alloc: Global, shared: &mut W) -> Result<(), TryAcquireError> {
        try_part::<W>(shared, self.key)
    }
}

/// A call of [`release_at`].
#[derive(Drop)]
pub struct ReleaseAtCall {
    pub(crate) key: u64,
}

/// Releases a permit of the semaphore with this key, if there is one.
///
/// Refused if the permits are at their maximum.
pub fn release_at<W>(key: u64) -> AtOnce<W, ReleaseAtCall>
    ensures act { result.act ≡ Some (record { key = key }) }
{
    perform(ReleaseAtCall { key })
}

impl<W: Holds<Many<Semaphore>>> Act<W> for ReleaseAtCall {
    type Answer = Result<(), TooManyPermits>;

    ghost acts = { λ a w r v. ReleasesAt a.key (W.part w) r (W.part v) };

    fn act(self, _alloc: Global, shared: &mut W) -> Result<(), TooManyPermits> {
        release_part::<W>(shared, self.key)
    }
}

/// A call of [`close_semaphore_at`].
#[derive(Drop)]
pub struct CloseSemaphoreAtCall {
    pub(crate) key: u64,
}

/// Closes the semaphore with this key, if there is one.
pub fn close_semaphore_at<W>(key: u64) -> AtOnce<W, CloseSemaphoreAtCall>
    ensures act { result.act ≡ Some (record { key = key }) }
{
    perform(CloseSemaphoreAtCall { key })
}

impl<W: Holds<Many<Semaphore>>> Act<W> for CloseSemaphoreAtCall {
    type Answer = ();

    ghost acts = { λ a w r v. ClosesAt a.key (W.part w) (W.part v) };

    fn act(self, _alloc: Global, shared: &mut W) {
        close_part::<W>(shared, self.key)
    }
}
