// What a future does with several permits of one of many semaphores in one turn.
ghost use Rattle.std.specs.Prelude.{◌≡◌, ℕ, Some};
ghost use Rattle.mono_sync.specs.Semaphores.{listed_by, owed_by, waiting_in};
ghost use Rattle.mono_sync.specs.SemaphoreRuns.{Leads};
ghost use Rattle.mono_sync.specs.Many.{LeadsEach, lists_each};
ghost use Rattle.mono_sync.specs.KeyedMany.{AddsPermitsAt, TriesToAcquireManyAt, ForgetsPermitsAt};
ghost use Rattle.mono_task.specs.Owed.{Keeps};

use crate::acts::performs::{Act, AtOnce, perform};
use crate::parts::Holds;
use crate::semaphores::{Semaphore, TooManyPermits, TryAcquireError};
use crate::tables::Many;
use std::alloc::Global;

/// A call of [`add_permits_at`].
#[derive(Drop)]
pub struct AddPermitsAtCall {
    pub(crate) key: u64,
    pub(crate) count: usize,
}

/// Adds `count` permits to the semaphore with this key, if there is one: one each is owed to the first `count` tasks that wait.
///
/// Refused, with no permit added, if there were more than the maximum.
pub fn add_permits_at<W>(key: u64, count: usize) -> AtOnce<W, AddPermitsAtCall>
    ensures act { result.act ≡ Some (record { key = key; count = count }) }
{
    perform(AddPermitsAtCall { key, count })
}

// Adds permits to the semaphore with this key.
fn add_table(semaphores: &mut Many<Semaphore>, key: u64, count: usize) -> Result<(), TooManyPermits>
    ensures answer { AddsPermitsAt key semaphores.old count result semaphores.new }
    ensures leads { LeadsEach Leads waiting_in owed_by semaphores.old semaphores.new }
    ensures keeps { (me : ℕ) → Keeps (lists_each listed_by) me semaphores.old semaphores.new }
{
    if semaphores.get(key).is_none() {
        return Ok(());
    }
    semaphores.part_mut(key).add_permits(count)
}

// Adds permits to the semaphore with this key, in the whole.
fn add_part<W: Holds<Many<Semaphore>>>(
    whole: &mut W,
    key: u64,
    count: usize,
) -> Result<(), TooManyPermits>
    ensures answer { AddsPermitsAt key (W.part whole.old) count result (W.part whole.new) }
    ensures leads { W.leads whole.old whole.new }
    ensures keeps { (me : ℕ) → Keeps W.lists me whole.old whole.new }
{
    add_table(whole.part_mut(), key, count)
}

impl<W: Holds<Many<Semaphore>>> Act<W> for AddPermitsAtCall {
    type Answer = Result<(), TooManyPermits>;

    ghost acts = { λ a w r v. AddsPermitsAt a.key (W.part w) a.count r (W.part v) };

    fn act(self, _alloc: Global, shared: &mut W) -> Result<(), TooManyPermits> {
        add_part::<W>(shared, self.key, self.count)
    }
}

/// A call of [`try_acquire_many_at`].
#[derive(Drop)]
pub struct TryAcquireManyAtCall {
    pub(crate) key: u64,
    pub(crate) count: usize,
}

/// Takes `count` permits of the semaphore with this key at once, or none.
///
/// Refused with `Closed` if there is no such semaphore or it was closed, and with `NoPermits` if fewer are free.
pub fn try_acquire_many_at<W>(key: u64, count: usize) -> AtOnce<W, TryAcquireManyAtCall>
    ensures act { result.act ≡ Some (record { key = key; count = count }) }
{
    perform(TryAcquireManyAtCall { key, count })
}

// Takes permits of the semaphore with this key.
fn try_table(
    semaphores: &mut Many<Semaphore>,
    key: u64,
    count: usize,
) -> Result<(), TryAcquireError>
    ensures answer { TriesToAcquireManyAt key semaphores.old count result semaphores.new }
    ensures leads { LeadsEach Leads waiting_in owed_by semaphores.old semaphores.new }
    ensures keeps { (me : ℕ) → Keeps (lists_each listed_by) me semaphores.old semaphores.new }
{
    if semaphores.get(key).is_none() {
        return Err(TryAcquireError::Closed);
    }
    semaphores.part_mut(key).try_acquire_many(count)
}

// Takes permits of the semaphore with this key, in the whole.
fn try_part<W: Holds<Many<Semaphore>>>(
    whole: &mut W,
    key: u64,
    count: usize,
) -> Result<(), TryAcquireError>
    ensures answer { TriesToAcquireManyAt key (W.part whole.old) count result (W.part whole.new) }
    ensures leads { W.leads whole.old whole.new }
    ensures keeps { (me : ℕ) → Keeps W.lists me whole.old whole.new }
{
    try_table(whole.part_mut(), key, count)
}

impl<W: Holds<Many<Semaphore>>> Act<W> for TryAcquireManyAtCall {
    type Answer = Result<(), TryAcquireError>;

    ghost acts = { λ a w r v. TriesToAcquireManyAt a.key (W.part w) a.count r (W.part v) };

    fn act(self, _alloc: Global, shared: &mut W) -> Result<(), TryAcquireError> {
        try_part::<W>(shared, self.key, self.count)
    }
}

/// A call of [`forget_permits_at`].
#[derive(Drop)]
pub struct ForgetPermitsAtCall {
    pub(crate) key: u64,
    pub(crate) count: usize,
}

/// Removes `count` permits of the semaphore with this key, or as many as are free, and answers how many. Answers 0 if there is
/// no such semaphore, or if it was closed.
pub fn forget_permits_at<W>(key: u64, count: usize) -> AtOnce<W, ForgetPermitsAtCall>
    ensures act { result.act ≡ Some (record { key = key; count = count }) }
{
    perform(ForgetPermitsAtCall { key, count })
}

// Removes permits of the semaphore with this key.
fn forget_table(semaphores: &mut Many<Semaphore>, key: u64, count: usize) -> usize
    ensures answer { ForgetsPermitsAt key semaphores.old count result semaphores.new }
    ensures leads { LeadsEach Leads waiting_in owed_by semaphores.old semaphores.new }
    ensures keeps { (me : ℕ) → Keeps (lists_each listed_by) me semaphores.old semaphores.new }
{
    if semaphores.get(key).is_none() {
        return 0;
    }
    semaphores.part_mut(key).forget_permits(count)
}

// Removes permits of the semaphore with this key, in the whole.
fn forget_part<W: Holds<Many<Semaphore>>>(whole: &mut W, key: u64, count: usize) -> usize
    ensures answer { ForgetsPermitsAt key (W.part whole.old) count result (W.part whole.new) }
    ensures leads { W.leads whole.old whole.new }
    ensures keeps { (me : ℕ) → Keeps W.lists me whole.old whole.new }
{
    forget_table(whole.part_mut(), key, count)
}

impl<W: Holds<Many<Semaphore>>> Act<W> for ForgetPermitsAtCall {
    type Answer = usize;

    ghost acts = { λ a w r v. ForgetsPermitsAt a.key (W.part w) a.count r (W.part v) };

    fn act(self, _alloc: Global, shared: &mut W) -> usize {
        forget_part::<W>(shared, self.key, self.count)
    }
}
