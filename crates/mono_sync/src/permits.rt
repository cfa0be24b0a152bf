// The calls of a task on a semaphore: it acquires and releases.
ghost use Rattle.std.specs.Prelude.{◌≡◌, true, false, ℕ};
ghost use Rattle.std.specs.declared.option.Option.TheVariants.{None};
ghost use Rattle.mono_model.specs.Poll.{OnReady};
ghost use Rattle.mono_sync.specs.Semaphores.{TriesToAcquire, Acquires, Releases, GivesUp, Closes};
ghost use Rattle.mono_sync.specs.Permits.{AcquirePolls, AcquireGives, AcquireCancels};
ghost use Rattle.mono_sync.specs.Spent.{acquire_spent};
ghost use Rattle.mono_task.specs.Owed.{Keeps};

pub use crate::keyed_permits::{close_at, release_at, try_acquire_at};
use crate::lines::{Ticket, ticket_of};
use crate::parts::Holds;
use crate::semaphores::{Acquiring, Semaphore, TooManyPermits, TryAcquireError};
use mono_model::{Host, Poll};
use mono_task::{SharedContext, TaskFuture};
use std::alloc::Global;
use std::marker::PhantomData;

/// A future that acquires a permit of the tasks' semaphore, and waits for one if none is free.
#[derive(Drop)]
pub struct Acquire<W> {
    // The number of the ticket that the future drew.
    pub(crate) ticket: Option<u64>,
    pub(crate) has_answered: bool,
    shared: PhantomData<W>,
}

/// The reason why no permit was acquired.
#[derive(Debug, Drop)]
pub enum AcquireError {
    /// The semaphore was closed.
    Closed,
    /// The allocation of a place in the line failed.
    Memory,
}

impl<W> Acquire<W> {
    /// Returns a future that acquires a permit.
    pub fn new() -> Acquire<W>
        ensures ticket { result.ticket ≡ None }
        ensures unspent { result.has_answered ≡ false }
    {
        Acquire {
            ticket: None,
            has_answered: false,
            shared: PhantomData,
        }
    }
}

// Asks the semaphore for a future of this task.
fn ask_part<W: Holds<Semaphore>>(whole: &mut W, ticket: Option<Ticket>, me: u64) -> Acquiring
    ensures answer { Acquires (W.part whole.old) ticket me result (W.part whole.new) }
    ensures leads { W.leads whole.old whole.new }
    ensures keeps { Keeps W.lists me whole.old whole.new }
{
    whole.part_mut().acquire(ticket, me)
}

// Takes a future out of the line.
fn leave_part<W: Holds<Semaphore>>(whole: &mut W, ticket: Option<Ticket>, me: u64)
    ensures answer { GivesUp (W.part whole.old) ticket me (W.part whole.new) }
    ensures leads { W.leads whole.old whole.new }
    ensures keeps { Keeps W.lists me whole.old whole.new }
{
    whole.part_mut().give_up(ticket, me)
}

// Takes a permit at once.
pub(crate) fn try_part<W: Holds<Semaphore>>(whole: &mut W) -> Result<(), TryAcquireError>
    ensures answer { TriesToAcquire (W.part whole.old) result (W.part whole.new) }
    ensures leads { W.leads whole.old whole.new }
    ensures keeps { (me : ℕ) → Keeps W.lists me whole.old whole.new }
{
    whole.part_mut().try_acquire()
}

// Puts a permit back.
pub(crate) fn release_part<W: Holds<Semaphore>>(whole: &mut W) -> Result<(), TooManyPermits>
    ensures answer { Releases (W.part whole.old) result (W.part whole.new) }
    ensures leads { W.leads whole.old whole.new }
    ensures keeps { (me : ℕ) → Keeps W.lists me whole.old whole.new }
{
    whole.part_mut().release()
}

// Closes the semaphore.
pub(crate) fn close_part<W: Holds<Semaphore>>(whole: &mut W)
    ensures answer { Closes (W.part whole.old) (W.part whole.new) }
    ensures leads { W.leads whole.old whole.new }
    ensures keeps { (me : ℕ) → Keeps W.lists me whole.old whole.new }
{
    whole.part_mut().close()
}

// Asks the semaphore for the running task's future.
fn ask<W: Holds<Semaphore>, C: SharedContext<W>>(cx: &mut C, ticket: Option<u64>) -> Acquiring
    ensures answer { Acquires (W.part (C.shared cx.old)) ticket (C.number cx.old) result (W.part (C.shared cx.new)) }
    ensures work { C.work cx.new ≡ C.work cx.old }
    ensures reached { C.reaches cx.old cx.new }
{
    let me = cx.me();
    ask_part(cx.shared_mut(), ticket_of(ticket), me)
}

// Takes the running task's future out of the line.
fn leave<W: Holds<Semaphore>, C: SharedContext<W>>(cx: &mut C, ticket: Option<u64>)
    ensures answer { GivesUp (W.part (C.shared cx.old)) ticket (C.number cx.old) (W.part (C.shared cx.new)) }
    ensures work { C.work cx.new ≡ C.work cx.old }
    ensures reached { C.reaches cx.old cx.new }
{
    let me = cx.me();
    leave_part(cx.shared_mut(), ticket_of(ticket), me)
}

/// Takes a permit at once. Refused with `Closed` if the semaphore was closed, and with `NoPermits` if no permit is free.
pub fn try_acquire<W: Holds<Semaphore>, C: SharedContext<W>>(
    cx: &mut C,
) -> Result<(), TryAcquireError>
    ensures answer { TriesToAcquire (W.part (C.shared cx.old)) result (W.part (C.shared cx.new)) }
    ensures work { C.work cx.new ≡ C.work cx.old }
    ensures reached { C.reaches cx.old cx.new }
{
    try_part(cx.shared_mut())
}

/// Releases a permit. It is owed to the first task that waits for one, which the runtime wakes after the turn.
///
/// Refused if the permits are at their maximum.
pub fn release<W: Holds<Semaphore>, C: SharedContext<W>>(cx: &mut C) -> Result<(), TooManyPermits>
    ensures answer { Releases (W.part (C.shared cx.old)) result (W.part (C.shared cx.new)) }
    ensures work { C.work cx.new ≡ C.work cx.old }
    ensures reached { C.reaches cx.old cx.new }
{
    release_part(cx.shared_mut())
}

/// Closes the semaphore. The runtime wakes all tasks that wait for a permit after the turn. No task gets one from now on.
pub fn close<W: Holds<Semaphore>, C: SharedContext<W>>(cx: &mut C)
    ensures answer { Closes (W.part (C.shared cx.old)) (W.part (C.shared cx.new)) }
    ensures work { C.work cx.new ≡ C.work cx.old }
    ensures reached { C.reaches cx.old cx.new }
{
    close_part(cx.shared_mut())
}

/// The future answers once it has a permit. It fails if the semaphore was closed, or if out of memory.
impl<W: Holds<Semaphore>, C: SharedContext<W>> TaskFuture<C> for Acquire<W> {
    type Output = Result<(), AcquireError>;

    ghost is_spent = { acquire_spent };

    ghost polls = { λ f c r g d. AcquirePolls (λ x. W.part (C.shared x)) C.number C.work f.ticket c r g.ticket d × OnReady r ((g.ticket ≡ None) × (g.has_answered ≡ true)) };

    ghost gives = { λ f. AcquireGives (λ x. W.part (C.shared x)) C.number C.work };

    ghost cancels = { λ f c d. AcquireCancels (λ x. W.part (C.shared x)) C.number C.work f.ticket c d };

    fn spent(&self) -> bool {
        self.has_answered
    }

    fn poll<R: Host>(
        &mut self,
        _rt: &R,
        _alloc: Global,
        cx: &mut C,
    ) -> Poll<Result<(), AcquireError>> {
        match ask::<W, C>(cx, self.ticket) {
            Acquiring::Waits => Poll::Pending,
            Acquiring::Joined(ticket) => {
                self.ticket = Some(ticket.number());
                Poll::Pending
            }
            Acquiring::Acquired => {
                self.ticket = None;
                self.has_answered = true;
                Poll::Ready(Ok(()))
            }
            Acquiring::Closed => {
                self.ticket = None;
                self.has_answered = true;
                Poll::Ready(Err(AcquireError::Closed))
            }
            Acquiring::Memory => {
                self.ticket = None;
                self.has_answered = true;
                Poll::Ready(Err(AcquireError::Memory))
            }
        }
    }

    fn cancel(self, cx: &mut C) {
        leave::<W, C>(cx, self.ticket)
    }
}
