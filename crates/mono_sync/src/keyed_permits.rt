// The calls of a task on one of many semaphores, each under a key of its own.
ghost use Rattle.std.specs.Prelude.{◌≡◌, true, false, ℕ};
ghost use Rattle.std.specs.declared.option.Option.TheVariants.{None};
ghost use Rattle.mono_model.specs.Poll.{OnReady};
ghost use Rattle.mono_sync.specs.Semaphores.{listed_by, owed_by, waiting_in};
ghost use Rattle.mono_sync.specs.SemaphoreRuns.{Leads};
ghost use Rattle.mono_sync.specs.Many.{LeadsEach, lists_each};
ghost use Rattle.mono_sync.specs.KeyedPermits.{AcquiresAt, GivesUpAt, TriesToAcquireAt, ReleasesAt, ClosesAt, AcquireAtPolls, AcquireAtGives, AcquireAtCancels};
ghost use Rattle.mono_sync.specs.Spent.{acquire_at_spent};
ghost use Rattle.mono_task.specs.Owed.{Keeps};

use crate::lines::{Ticket, ticket_of};
use crate::parts::Holds;
use crate::permits::AcquireError;
use crate::semaphores::{Acquiring, Semaphore, TooManyPermits, TryAcquireError};
use crate::tables::Many;
use mono_model::{Host, Poll};
use mono_task::{SharedContext, TaskFuture};
use std::alloc::Global;
use std::marker::PhantomData;

/// A future that acquires a permit of the semaphore with one key, and waits for one if none is free.
#[derive(Drop)]
pub struct AcquireAt<W> {
    pub(crate) key: u64,
    // The number of the ticket that the future drew.
    pub(crate) ticket: Option<u64>,
    pub(crate) has_answered: bool,
    shared: PhantomData<W>,
}

impl<W> AcquireAt<W> {
    /// Returns a future that acquires a permit of the semaphore with this key.
    pub fn new(key: u64) -> AcquireAt<W>
        ensures key { result.key ≡ key }
        ensures ticket { result.ticket ≡ None }
        ensures unspent { result.has_answered ≡ false }
    {
        AcquireAt {
            key,
            ticket: None,
            has_answered: false,
            shared: PhantomData,
        }
    }
}

// Asks the semaphore with this key for a future of this task.
fn ask_table(
    semaphores: &mut Many<Semaphore>,
    key: u64,
    ticket: Option<Ticket>,
    me: u64,
) -> Acquiring
    ensures answer { AcquiresAt key semaphores.old ticket me result semaphores.new }
    ensures leads { LeadsEach Leads waiting_in owed_by semaphores.old semaphores.new }
    ensures keeps { Keeps (lists_each listed_by) me semaphores.old semaphores.new }
{
    if semaphores.get(key).is_none() {
        return Acquiring::Closed;
    }
    semaphores.part_mut(key).acquire(ticket, me)
}

// Asks the semaphore with this key, in the whole.
fn ask_part<W: Holds<Many<Semaphore>>>(
    whole: &mut W,
    key: u64,
    ticket: Option<Ticket>,
    me: u64,
) -> Acquiring
    ensures answer { AcquiresAt key (W.part whole.old) ticket me result (W.part whole.new) }
    ensures leads { W.leads whole.old whole.new }
    ensures keeps { Keeps W.lists me whole.old whole.new }
{
    ask_table(whole.part_mut(), key, ticket, me)
}

// Asks the semaphore with this key for the running task's future.
fn ask<W: Holds<Many<Semaphore>>, C: SharedContext<W>>(
    cx: &mut C,
    key: u64,
    ticket: Option<u64>,
) -> Acquiring
    ensures answer { AcquiresAt key (W.part (C.shared cx.old)) ticket (C.number cx.old) result (W.part (C.shared cx.new)) }
    ensures work { C.work cx.new ≡ C.work cx.old }
    ensures reached { C.reaches cx.old cx.new }
{
    let me = cx.me();
    ask_part::<W>(cx.shared_mut(), key, ticket_of(ticket), me)
}

// Takes a future out of the line of the semaphore with this key.
fn leave_table(semaphores: &mut Many<Semaphore>, key: u64, ticket: Option<Ticket>, me: u64)
    ensures answer { GivesUpAt key semaphores.old ticket me semaphores.new }
    ensures leads { LeadsEach Leads waiting_in owed_by semaphores.old semaphores.new }
    ensures keeps { Keeps (lists_each listed_by) me semaphores.old semaphores.new }
{
    if semaphores.get(key).is_none() {
        return;
    }
    semaphores.part_mut(key).give_up(ticket, me);
}

// Takes a future out of the line of the semaphore with this key, in the whole.
fn leave_part<W: Holds<Many<Semaphore>>>(whole: &mut W, key: u64, ticket: Option<Ticket>, me: u64)
    ensures answer { GivesUpAt key (W.part whole.old) ticket me (W.part whole.new) }
    ensures leads { W.leads whole.old whole.new }
    ensures keeps { Keeps W.lists me whole.old whole.new }
{
    leave_table(whole.part_mut(), key, ticket, me);
}

// Takes the running task's future out of the line of the semaphore with this key.
fn leave<W: Holds<Many<Semaphore>>, C: SharedContext<W>>(cx: &mut C, key: u64, ticket: Option<u64>)
    ensures answer { GivesUpAt key (W.part (C.shared cx.old)) ticket (C.number cx.old) (W.part (C.shared cx.new)) }
    ensures work { C.work cx.new ≡ C.work cx.old }
    ensures reached { C.reaches cx.old cx.new }
{
    let me = cx.me();
    leave_part::<W>(cx.shared_mut(), key, ticket_of(ticket), me);
}

// Takes a permit of the semaphore with this key at once.
fn try_table(semaphores: &mut Many<Semaphore>, key: u64) -> Result<(), TryAcquireError>
    ensures answer { TriesToAcquireAt key semaphores.old result semaphores.new }
    ensures leads { LeadsEach Leads waiting_in owed_by semaphores.old semaphores.new }
    ensures keeps { (me : ℕ) → Keeps (lists_each listed_by) me semaphores.old semaphores.new }
{
    if semaphores.get(key).is_none() {
        return Err(TryAcquireError::Closed);
    }
    semaphores.part_mut(key).try_acquire()
}

// Takes a permit of the semaphore with this key at once, in the whole.
pub(crate) fn try_part<W: Holds<Many<Semaphore>>>(
    whole: &mut W,
    key: u64,
) -> Result<(), TryAcquireError>
    ensures answer { TriesToAcquireAt key (W.part whole.old) result (W.part whole.new) }
    ensures leads { W.leads whole.old whole.new }
    ensures keeps { (me : ℕ) → Keeps W.lists me whole.old whole.new }
{
    try_table(whole.part_mut(), key)
}

/// Takes a permit of the semaphore with this key at once. Refused with `Closed` if no semaphore has the key or it was closed,
/// and with `NoPermits` if no permit is free.
pub fn try_acquire_at<W: Holds<Many<Semaphore>>, C: SharedContext<W>>(
    cx: &mut C,
    key: u64,
) -> Result<(), TryAcquireError>
    ensures answer { TriesToAcquireAt key (W.part (C.shared cx.old)) result (W.part (C.shared cx.new)) }
    ensures work { C.work cx.new ≡ C.work cx.old }
    ensures reached { C.reaches cx.old cx.new }
{
    try_part::<W>(cx.shared_mut(), key)
}

// Puts a permit of the semaphore with this key back.
fn release_table(semaphores: &mut Many<Semaphore>, key: u64) -> Result<(), TooManyPermits>
    ensures answer { ReleasesAt key semaphores.old result semaphores.new }
    ensures leads { LeadsEach Leads waiting_in owed_by semaphores.old semaphores.new }
    ensures keeps { (me : ℕ) → Keeps (lists_each listed_by) me semaphores.old semaphores.new }
{
    if semaphores.get(key).is_none() {
        return Ok(());
    }
    semaphores.part_mut(key).release()
}

// Puts a permit of the semaphore with this key back, in the whole.
pub(crate) fn release_part<W: Holds<Many<Semaphore>>>(
    whole: &mut W,
    key: u64,
) -> Result<(), TooManyPermits>
    ensures answer { ReleasesAt key (W.part whole.old) result (W.part whole.new) }
    ensures leads { W.leads whole.old whole.new }
    ensures keeps { (me : ℕ) → Keeps W.lists me whole.old whole.new }
{
    release_table(whole.part_mut(), key)
}

/// Releases a permit of the semaphore with this key. It is owed to the first task that waits for one, which the runtime wakes
/// after the turn. If no semaphore has the key, nothing is done.
///
/// Refused if the permits are at their maximum.
pub fn release_at<W: Holds<Many<Semaphore>>, C: SharedContext<W>>(
    cx: &mut C,
    key: u64,
) -> Result<(), TooManyPermits>
    ensures answer { ReleasesAt key (W.part (C.shared cx.old)) result (W.part (C.shared cx.new)) }
    ensures work { C.work cx.new ≡ C.work cx.old }
    ensures reached { C.reaches cx.old cx.new }
{
    release_part::<W>(cx.shared_mut(), key)
}

// Closes the semaphore with this key.
fn close_table(semaphores: &mut Many<Semaphore>, key: u64)
    ensures answer { ClosesAt key semaphores.old semaphores.new }
    ensures leads { LeadsEach Leads waiting_in owed_by semaphores.old semaphores.new }
    ensures keeps { (me : ℕ) → Keeps (lists_each listed_by) me semaphores.old semaphores.new }
{
    if semaphores.get(key).is_none() {
        return;
    }
    semaphores.part_mut(key).close();
}

// Closes the semaphore with this key, in the whole.
pub(crate) fn close_part<W: Holds<Many<Semaphore>>>(whole: &mut W, key: u64)
    ensures answer { ClosesAt key (W.part whole.old) (W.part whole.new) }
    ensures leads { W.leads whole.old whole.new }
    ensures keeps { (me : ℕ) → Keeps W.lists me whole.old whole.new }
{
    close_table(whole.part_mut(), key);
}

/// Closes the semaphore with this key, if there is one. The runtime wakes all tasks that wait for a permit after the turn.
pub fn close_at<W: Holds<Many<Semaphore>>, C: SharedContext<W>>(cx: &mut C, key: u64)
    ensures answer { ClosesAt key (W.part (C.shared cx.old)) (W.part (C.shared cx.new)) }
    ensures work { C.work cx.new ≡ C.work cx.old }
    ensures reached { C.reaches cx.old cx.new }
{
    close_part::<W>(cx.shared_mut(), key);
}

/// The future answers once it has a permit. It fails if no semaphore has the key, if the semaphore was closed, or if out of
/// memory.
impl<W: Holds<Many<Semaphore>>, C: SharedContext<W>> TaskFuture<C> for AcquireAt<W> {
    type Output = Result<(), AcquireError>;

    ghost is_spent = { acquire_at_spent };

    ghost polls = { λ f c r g d. AcquireAtPolls (λ x. W.part (C.shared x)) C.number C.work f.key f.ticket c r g.ticket d × (g.key ≡ f.key) × OnReady r ((g.ticket ≡ None) × (g.has_answered ≡ true)) };

    ghost gives = { λ f. AcquireAtGives (λ x. W.part (C.shared x)) C.number C.work f.key };

    ghost cancels = { λ f c d. AcquireAtCancels (λ x. W.part (C.shared x)) C.number C.work f.key f.ticket c d };

    fn spent(&self) -> bool {
        self.has_answered
    }

    fn poll<R: Host>(
        &mut self,
        _rt: &R,
        _alloc: Global,
        cx: &mut C,
    ) -> Poll<Result<(), AcquireError>> {
        match ask::<W, C>(cx, self.key, self.ticket) {
            Acquiring::Waits => Poll::Pending,
            Acquiring::Joined(ticket) => {
                self.ticket = Some(ticket.number());
                Poll::Pending
            }
            Acquiring::Acquired => {
                self.ticket = None;
                self.has_answered = true;
                Poll::Ready(Ok(()))
            }
            Acquiring::Closed => {
                self.ticket = None;
                self.has_answered = true;
                Poll::Ready(Err(AcquireError::Closed))
            }
            Acquiring::Memory => {
                self.ticket = None;
                self.has_answered = true;
                Poll::Ready(Err(AcquireError::Memory))
            }
        }
    }

    fn cancel(self, cx: &mut C) {
        leave::<W, C>(cx, self.key, self.ticket)
    }
}
