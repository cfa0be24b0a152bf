// What a future does with several permits of a semaphore in one turn.
ghost use Rattle.std.specs.Prelude.{◌≡◌, ℕ, Some};
ghost use Rattle.mono_sync.specs.ManyPermits.{AddsPermits, TriesToAcquireMany, ForgetsPermits};
ghost use Rattle.mono_task.specs.Owed.{Keeps};

use crate::acts::performs::{Act, AtOnce, perform};
use crate::parts::Holds;
use crate::semaphores::{Semaphore, TooManyPermits, TryAcquireError};
use std::alloc::Global;

/// A call of [`add_permits`].
#[derive(Drop)]
pub struct AddPermitsCall {
    pub(crate) count: usize,
}

/// Adds `count` permits: one each is owed to the first `count` tasks that wait.
///
/// Refused, with no permit added, if there were more than the maximum.
pub fn add_permits<W>(count: usize) -> AtOnce<W, AddPermitsCall>
    ensures act { result.act ≡ Some (record { count = count }) }
{
    perform(AddPermitsCall { count })
}

// Adds permits, in the whole.
fn add_part<W: Holds<Semaphore>>(whole: &mut W, count: usize) -> Result<(), TooManyPermits>
    ensures answer { AddsPermits (W.part whole.old) count result (W.part whole.new) }
    ensures leads { W.leads whole.old whole.new }
    ensures keeps { (me : ℕ) → Keeps W.lists me whole.old whole.new }
{
    whole.part_mut().add_permits(count)
}

impl<W: Holds<Semaphore>> Act<W> for AddPermitsCall {
    type Answer = Result<(), TooManyPermits>;

    ghost acts = { λ a w r v. AddsPermits (W.part w) a.count r (W.part v) };

    fn act(self, _alloc: Global, shared: &mut W) -> Result<(), TooManyPermits> {
        add_part(shared, self.count)
    }
}

/// A call of [`try_acquire_many`].
#[derive(Drop)]
pub struct TryAcquireManyCall {
    pub(crate) count: usize,
}

/// Takes `count` permits at once, or none.
///
/// Refused with `Closed` if the semaphore was closed, and with `NoPermits` if fewer are free.
pub fn try_acquire_many<W>(count: usize) -> AtOnce<W, TryAcquireManyCall>
    ensures act { result.act ≡ Some (record { count = count }) }
{
    perform(TryAcquireManyCall { count })
}

// Takes permits at once, in the whole.
fn try_part<W: Holds<Semaphore>>(whole: &mut W, count: usize) -> Result<(), TryAcquireError>
    ensures answer { TriesToAcquireMany (W.part whole.old) count result (W.part whole.new) }
    ensures leads { W.leads whole.old whole.new }
    ensures keeps { (me : ℕ) → Keeps W.lists me whole.old whole.new }
{
    whole.part_mut().try_acquire_many(count)
}

impl<W: Holds<Semaphore>> Act<W> for TryAcquireManyCall {
    type Answer = Result<(), TryAcquireError>;

    ghost acts = { λ a w r v. TriesToAcquireMany (W.part w) a.count r (W.part v) };

    fn act(self, _alloc: Global, shared: &mut W) -> Result<(), TryAcquireError> {
        try_part(shared, self.count)
    }
}

/// A call of [`forget_permits`].
#[derive(Drop)]
pub struct ForgetPermitsCall {
    pub(crate) count: usize,
}

/// Removes `count` permits, or as many as are free, and answers how many. Answers 0 if the semaphore was closed.
pub fn forget_permits<W>(count: usize) -> AtOnce<W, ForgetPermitsCall>
    ensures act { result.act ≡ Some (record { count = count }) }
{
    perform(ForgetPermitsCall { count })
}

// Removes permits, in the whole.
fn forget_part<W: Holds<Semaphore>>(whole: &mut W, count: usize) -> usize
    ensures answer { ForgetsPermits (W.part whole.old) count result (W.part whole.new) }
    ensures leads { W.leads whole.old whole.new }
    ensures keeps { (me : ℕ) → Keeps W.lists me whole.old whole.new }
{
    whole.part_mut().forget_permits(count)
}

impl<W: Holds<Semaphore>> Act<W> for ForgetPermitsCall {
    type Answer = usize;

    ghost acts = { λ a w r v. ForgetsPermits (W.part w) a.count r (W.part v) };

    fn act(self, _alloc: Global, shared: &mut W) -> usize {
        forget_part(shared, self.count)
    }
}
