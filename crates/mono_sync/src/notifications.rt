// The calls of a task on a notice: it waits, and notifies.
ghost use Rattle.std.specs.Prelude.{◌≡◌, true, false, ℕ};
ghost use Rattle.std.specs.declared.option.Option.TheVariants.{None};
ghost use Rattle.mono_model.specs.Poll.{OnReady, OnPending};
ghost use Rattle.mono_sync.specs.Notices.{NotifiesOne, NotifiesAll, Awaits, GivesUp};
ghost use Rattle.mono_sync.specs.Notifications.{NotifiedPolls, NotifiedGives, NotifiedCancels};
ghost use Rattle.mono_sync.specs.Spent.{notified_spent};
ghost use Rattle.mono_task.specs.Owed.{Keeps};

use crate::lines::{Ticket, ticket_of};
use crate::notices::{Notify, Notifying};
use crate::parts::Holds;
use mono_model::{Host, Poll};
use mono_task::{SharedContext, TaskFuture};
use std::alloc::{AllocError, Global};
use std::marker::PhantomData;

/// A future that waits for a notice that the tasks share.
#[derive(Drop)]
pub struct Notified<W> {
    // The number of the ticket that the future drew.
    pub(crate) ticket: Option<u64>,
    pub(crate) has_answered: bool,
    shared: PhantomData<W>,
}

impl<W> Notified<W> {
    /// Returns a future that waits for a notice.
    pub fn new() -> Notified<W>
        ensures ticket { result.ticket ≡ None }
        ensures unspent { result.has_answered ≡ false }
    {
        Notified {
            ticket: None,
            has_answered: false,
            shared: PhantomData,
        }
    }
}

// Asks the notice for a future of this task.
fn ask_part<W: Holds<Notify>>(whole: &mut W, ticket: Option<Ticket>, me: u64) -> Notifying
    ensures answer { Awaits (W.part whole.old) ticket me result (W.part whole.new) }
    ensures leads { W.leads whole.old whole.new }
    ensures keeps { Keeps W.lists me whole.old whole.new }
{
    whole.part_mut().notified(ticket, me)
}

// Takes a future out of the line.
fn leave_part<W: Holds<Notify>>(whole: &mut W, ticket: Option<Ticket>, me: u64)
    ensures answer { GivesUp (W.part whole.old) ticket me (W.part whole.new) }
    ensures leads { W.leads whole.old whole.new }
    ensures keeps { Keeps W.lists me whole.old whole.new }
{
    whole.part_mut().give_up(ticket, me)
}

// Notifies one task.
pub(crate) fn one_part<W: Holds<Notify>>(whole: &mut W)
    ensures answer { NotifiesOne (W.part whole.old) (W.part whole.new) }
    ensures leads { W.leads whole.old whole.new }
    ensures keeps { (me : ℕ) → Keeps W.lists me whole.old whole.new }
{
    whole.part_mut().notify_one()
}

// Notifies all tasks that wait.
pub(crate) fn all_part<W: Holds<Notify>>(whole: &mut W)
    ensures answer { NotifiesAll (W.part whole.old) (W.part whole.new) }
    ensures leads { W.leads whole.old whole.new }
    ensures keeps { (me : ℕ) → Keeps W.lists me whole.old whole.new }
{
    whole.part_mut().notify_waiters()
}

// Asks the notice for the running task's future.
fn ask<W: Holds<Notify>, C: SharedContext<W>>(cx: &mut C, ticket: Option<u64>) -> Notifying
    ensures answer { Awaits (W.part (C.shared cx.old)) ticket (C.number cx.old) result (W.part (C.shared cx.new)) }
    ensures work { C.work cx.new ≡ C.work cx.old }
    ensures reached { C.reaches cx.old cx.new }
{
    let me = cx.me();
    ask_part(cx.shared_mut(), ticket_of(ticket), me)
}

// Takes the running task's future out of the line.
fn leave<W: Holds<Notify>, C: SharedContext<W>>(cx: &mut C, ticket: Option<u64>)
    ensures answer { GivesUp (W.part (C.shared cx.old)) ticket (C.number cx.old) (W.part (C.shared cx.new)) }
    ensures work { C.work cx.new ≡ C.work cx.old }
    ensures reached { C.reaches cx.old cx.new }
{
    let me = cx.me();
    leave_part(cx.shared_mut(), ticket_of(ticket), me)
}

impl<W: Holds<Notify>> Notified<W> {
    /// Puts the future into the line without a poll, in a turn of the task that polls it later. So a notice that comes
    /// before its first poll serves it, to one or to all. It has the answer and the effect of a poll (`polled`).
    pub fn enable<C: SharedContext<W>>(&mut self, cx: &mut C) -> Poll<Result<(), AllocError>>
        requires unspent { self.old.has_answered ≡ false }
        ensures polled { NotifiedPolls (λ x. W.part (C.shared x)) C.number C.work self.old.ticket cx.old result self.new.ticket cx.new }
        ensures ended { OnReady result ((self.new.ticket ≡ None) × (self.new.has_answered ≡ true)) }
        ensures again { OnPending result (self.new.has_answered ≡ false) }
        ensures reached { C.reaches cx.old cx.new }
    {
        match ask::<W, C>(cx, self.ticket) {
            Notifying::Waits => Poll::Pending,
            Notifying::Joined(ticket) => {
                self.ticket = Some(ticket.number());
                Poll::Pending
            }
            Notifying::Notified => {
                self.ticket = None;
                self.has_answered = true;
                Poll::Ready(Ok(()))
            }
            Notifying::Memory => {
                self.ticket = None;
                self.has_answered = true;
                Poll::Ready(Err(AllocError))
            }
        }
    }
}

/// Notifies the first task that waits and has no notice, which the runtime wakes after the turn. If each task that waits has
/// one, the notice is kept.
pub fn notify_one<W: Holds<Notify>, C: SharedContext<W>>(cx: &mut C)
    ensures answer { NotifiesOne (W.part (C.shared cx.old)) (W.part (C.shared cx.new)) }
    ensures work { C.work cx.new ≡ C.work cx.old }
    ensures reached { C.reaches cx.old cx.new }
{
    one_part(cx.shared_mut())
}

/// Notifies all tasks that wait, which the runtime wakes after the turn. No notice is kept for a future that asks later.
pub fn notify_waiters<W: Holds<Notify>, C: SharedContext<W>>(cx: &mut C)
    ensures answer { NotifiesAll (W.part (C.shared cx.old)) (W.part (C.shared cx.new)) }
    ensures work { C.work cx.new ≡ C.work cx.old }
    ensures reached { C.reaches cx.old cx.new }
{
    all_part(cx.shared_mut())
}

/// The future answers once it was notified. It fails if out of memory.
impl<W: Holds<Notify>, C: SharedContext<W>> TaskFuture<C> for Notified<W> {
    type Output = Result<(), AllocError>;

    ghost is_spent = { notified_spent };

    ghost polls = { λ f c r g d. NotifiedPolls (λ x. W.part (C.shared x)) C.number C.work f.ticket c r g.ticket d × OnReady r ((g.ticket ≡ None) × (g.has_answered ≡ true)) };

    ghost gives = { λ f. NotifiedGives (λ x. W.part (C.shared x)) C.number C.work };

    ghost cancels = { λ f c d. NotifiedCancels (λ x. W.part (C.shared x)) C.number C.work f.ticket c d };

    fn spent(&self) -> bool {
        self.has_answered
    }

    fn poll<R: Host>(
        &mut self,
        _rt: &R,
        _alloc: Global,
        cx: &mut C,
    ) -> Poll<Result<(), AllocError>> {
        self.enable(cx)
    }

    fn cancel(self, cx: &mut C) {
        leave::<W, C>(cx, self.ticket)
    }
}
