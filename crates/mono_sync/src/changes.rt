// The calls of a task on a watched value: it waits for another value, and replaces it.
ghost use Rattle.std.specs.Prelude.{◌≡◌, true, false, ℕ};
ghost use Rattle.std.specs.declared.option.Option.TheVariants.{None};
ghost use Rattle.mono_model.specs.Poll.{OnReady};
ghost use Rattle.mono_sync.specs.Watches.{Sends, Changes, GivesUp, Closes};
ghost use Rattle.mono_sync.specs.Changes.{ChangedPolls, ChangedGives, ChangedCancels};
ghost use Rattle.mono_sync.specs.Spent.{changed_spent};
ghost use Rattle.mono_task.specs.Owed.{Keeps};

use crate::lines::{Ticket, ticket_of};
use crate::parts::Holds;
use crate::watch::{Changing, Watch};
use mono_model::{Host, Poll};
use mono_task::{SharedContext, TaskFuture};
use std::alloc::Global;
use std::marker::PhantomData;

/// A future that waits until the watched value of the tasks has another version than the one it has seen.
#[derive(Drop)]
pub struct Changed<W, T> {
    pub(crate) seen: u64,
    // The number of the ticket that the future drew.
    pub(crate) ticket: Option<u64>,
    pub(crate) has_answered: bool,
    shared: PhantomData<W>,
    value: PhantomData<T>,
}

/// The reason why no other value came.
#[derive(Debug, Drop)]
pub enum ChangedError {
    /// The value was closed.
    Closed,
    /// The allocation of a place in the line failed.
    Memory,
}

impl<W, T> Changed<W, T> {
    /// Returns a future that waits for another version than this one.
    pub fn new(seen: u64) -> Changed<W, T>
        ensures seen { result.seen ≡ seen }
        ensures ticket { result.ticket ≡ None }
        ensures unspent { result.has_answered ≡ false }
    {
        Changed {
            seen,
            ticket: None,
            has_answered: false,
            shared: PhantomData,
            value: PhantomData,
        }
    }
}

// Asks the watched value for a future of this task.
fn ask_part<W: Holds<Watch<T>>, T: Drop>(
    whole: &mut W,
    seen: u64,
    ticket: Option<Ticket>,
    me: u64,
) -> Changing
    ensures answer { Changes (W.part whole.old) seen ticket me result (W.part whole.new) }
    ensures leads { W.leads whole.old whole.new }
    ensures keeps { Keeps W.lists me whole.old whole.new }
{
    whole.part_mut().changed(seen, ticket, me)
}

// Takes a future out of the line.
fn leave_part<W: Holds<Watch<T>>, T: Drop>(whole: &mut W, ticket: Option<Ticket>, me: u64)
    ensures answer { GivesUp (W.part whole.old) ticket me (W.part whole.new) }
    ensures leads { W.leads whole.old whole.new }
    ensures keeps { Keeps W.lists me whole.old whole.new }
{
    whole.part_mut().give_up(ticket, me)
}

// Replaces the value.
pub(crate) fn send_part<W: Holds<Watch<T>>, T: Drop>(whole: &mut W, value: T) -> Result<T, T>
    ensures answer { Sends (W.part whole.old) value result (W.part whole.new) }
    ensures leads { W.leads whole.old whole.new }
    ensures keeps { (me : ℕ) → Keeps W.lists me whole.old whole.new }
{
    whole.part_mut().send(value)
}

// Closes the value.
pub(crate) fn close_part<W: Holds<Watch<T>>, T: Drop>(whole: &mut W)
    ensures answer { Closes (W.part whole.old) (W.part whole.new) }
    ensures leads { W.leads whole.old whole.new }
    ensures keeps { (me : ℕ) → Keeps W.lists me whole.old whole.new }
{
    whole.part_mut().close()
}

// Asks the watched value for the running task's future.
fn ask<W: Holds<Watch<T>>, T: Drop, C: SharedContext<W>>(
    cx: &mut C,
    seen: u64,
    ticket: Option<u64>,
) -> Changing
    ensures answer { Changes (W.part (C.shared cx.old)) seen ticket (C.number cx.old) result (W.part (C.shared cx.new)) }
    ensures work { C.work cx.new ≡ C.work cx.old }
    ensures reached { C.reaches cx.old cx.new }
{
    let me = cx.me();
    ask_part::<W, T>(cx.shared_mut(), seen, ticket_of(ticket), me)
}

// Takes the running task's future out of the line.
pub(crate) fn leave<W: Holds<Watch<T>>, T: Drop, C: SharedContext<W>>(
    cx: &mut C,
    ticket: Option<u64>,
)
    ensures answer { GivesUp (W.part (C.shared cx.old)) ticket (C.number cx.old) (W.part (C.shared cx.new)) }
    ensures work { C.work cx.new ≡ C.work cx.old }
    ensures reached { C.reaches cx.old cx.new }
{
    let me = cx.me();
    leave_part::<W, T>(cx.shared_mut(), ticket_of(ticket), me)
}

/// Replaces the watched value, and returns the value before. The runtime wakes all tasks that wait for another after the
/// turn.
///
/// The new value comes back if the watched value was closed, or if no version is left.
pub fn send<W: Holds<Watch<T>>, T: Drop, C: SharedContext<W>>(cx: &mut C, value: T) -> Result<T, T>
    ensures answer { Sends (W.part (C.shared cx.old)) value result (W.part (C.shared cx.new)) }
    ensures work { C.work cx.new ≡ C.work cx.old }
    ensures reached { C.reaches cx.old cx.new }
{
    send_part::<W, T>(cx.shared_mut(), value)
}

/// Closes the watched value. The runtime wakes all tasks that wait for another after the turn.
pub fn close<W: Holds<Watch<T>>, T: Drop, C: SharedContext<W>>(cx: &mut C)
    ensures answer { Closes (W.part (C.shared cx.old)) (W.part (C.shared cx.new)) }
    ensures work { C.work cx.new ≡ C.work cx.old }
    ensures reached { C.reaches cx.old cx.new }
{
    close_part::<W, T>(cx.shared_mut())
}

/// The future answers the version of the last value once it differs from the seen one. It fails if the value was
/// closed, or if out of memory.
impl<W: Holds<Watch<T>>, T: Drop, C: SharedContext<W>> TaskFuture<C> for Changed<W, T> {
    type Output = Result<u64, ChangedError>;

    ghost is_spent = { changed_spent };

    ghost polls = { λ f c r g d. ChangedPolls (λ x. W.part (C.shared x)) C.number C.work f.seen f.ticket c r g.ticket d × (g.seen ≡ f.seen) × OnReady r ((g.ticket ≡ None) × (g.has_answered ≡ true)) };

    ghost gives = { λ f. ChangedGives (λ x. W.part (C.shared x)) C.number C.work f.seen };

    ghost cancels = { λ f c d. ChangedCancels (λ x. W.part (C.shared x)) C.number C.work f.ticket c d };

    fn spent(&self) -> bool {
        self.has_answered
    }

    fn poll<R: Host>(
        &mut self,
        _rt: &R,
        _alloc: Global,
        cx: &mut C,
    ) -> Poll<Result<u64, ChangedError>> {
        match ask::<W, T, C>(cx, self.seen, self.ticket) {
            Changing::Waits => Poll::Pending,
            Changing::Joined(ticket) => {
                self.ticket = Some(ticket.number());
                Poll::Pending
            }
            Changing::Changed(version) => {
                self.ticket = None;
                self.has_answered = true;
                Poll::Ready(Ok(version))
            }
            Changing::Closed => {
                self.ticket = None;
                self.has_answered = true;
                Poll::Ready(Err(ChangedError::Closed))
            }
            Changing::Memory => {
                self.ticket = None;
                self.has_answered = true;
                Poll::Ready(Err(ChangedError::Memory))
            }
        }
    }

    fn cancel(self, cx: &mut C) {
        leave::<W, T, C>(cx, self.ticket)
    }
}
