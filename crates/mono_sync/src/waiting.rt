// A future that waits until a watched value meets a condition.
ghost use Rattle.std.specs.Prelude.{◌≡◌, true, false, ℕ};
ghost use Rattle.std.specs.Fn.{FnReturnsAt};
ghost use Rattle.std.specs.declared.option.Option.TheVariants.{None};
ghost use Rattle.mono_model.specs.Poll.{OnReady};
ghost use Rattle.mono_sync.specs.Watches.{GivesUp};
ghost use Rattle.mono_sync.specs.WaitsFor.{WaitsFor, WaitForPolls, WaitForGives};
ghost use Rattle.mono_sync.specs.Changes.{ChangedCancels};
ghost use Rattle.mono_sync.specs.Spent.{wait_for_spent};
ghost use Rattle.mono_task.specs.Owed.{Keeps};

use crate::changes::{ChangedError, leave};
use crate::lines::{Ticket, ticket_of};
use crate::parts::Holds;
use crate::watch::{Changing, Watch};
use mono_model::{Host, Poll};
use mono_task::{SharedContext, TaskFuture};
use std::alloc::Global;
use std::marker::PhantomData;

/// A future that waits until the watched value of the tasks meets a condition, which is a closure.
#[derive(Drop)]
pub struct WaitFor<W, T, F> {
    pub(crate) func: F,
    // The number of the ticket that the future drew.
    pub(crate) ticket: Option<u64>,
    pub(crate) has_answered: bool,
    shared: PhantomData<W>,
    value: PhantomData<T>,
}

/// Returns a future that waits until the watched value meets this condition. The condition is looked at in each poll, also in
/// the first.
pub fn wait_for<W, T, F: Fn(&T) -> bool>(func: F) -> WaitFor<W, T, F>
    ensures func { result.func ≡ func }
    ensures ticket { result.ticket ≡ None }
    ensures unspent { result.has_answered ≡ false }
{
    WaitFor {
        func,
        ticket: None,
        has_answered: false,
        shared: PhantomData,
        value: PhantomData,
    }
}

// Asks the watched value for a future of this task.
fn ask_part<W: Holds<Watch<T>>, T: Drop, F: Fn(&T) -> bool>(
    whole: &mut W,
    func: &F,
    ticket: Option<Ticket>,
    me: u64,
) -> Changing
    requires callable { F.IsAlwaysCallable func.now }
    ensures answer { WaitsFor (FnReturnsAt F.Fn func.now) (W.part whole.old) ticket me result (W.part whole.new) }
    ensures leads { W.leads whole.old whole.new }
    ensures keeps { Keeps W.lists me whole.old whole.new }
{
    whole.part_mut().wait_for(func, ticket, me)
}

// Asks the watched value for the running task's future.
fn ask<W: Holds<Watch<T>>, T: Drop, C: SharedContext<W>, F: Fn(&T) -> bool>(
    cx: &mut C,
    func: &F,
    ticket: Option<u64>,
) -> Changing
    requires callable { F.IsAlwaysCallable func.now }
    ensures answer { WaitsFor (FnReturnsAt F.Fn func.now) (W.part (C.shared cx.old)) ticket (C.number cx.old) result (W.part (C.shared cx.new)) }
    ensures work { C.work cx.new ≡ C.work cx.old }
    ensures reached { C.reaches cx.old cx.new }
{
    let me = cx.me();
    ask_part::<W, T, F>(cx.shared_mut(), func, ticket_of(ticket), me)
}

/// The future answers the version of the last value once the value meets the condition, also if the value was closed. It fails
/// if the value was closed and does not meet it, or if out of memory.
impl<W: Holds<Watch<T>>, T: Drop, C: SharedContext<W>, F: Fn(&T) -> bool + Drop> TaskFuture<C>
    for WaitFor<W, T, F> {
    type Output = Result<u64, ChangedError>;

    ghost is_spent = { wait_for_spent };

    ghost can_poll = { λ f. F.IsAlwaysCallable f.func };

    ghost polls = { λ f c r g d. WaitForPolls (λ x. W.part (C.shared x)) C.number C.work (FnReturnsAt F.Fn f.func) f.ticket c r g.ticket d × (g.func ≡ f.func) × OnReady r ((g.ticket ≡ None) × (g.has_answered ≡ true)) };

    ghost gives = { λ f. WaitForGives (λ x. W.part (C.shared x)) C.number C.work (FnReturnsAt F.Fn f.func) };

    ghost cancels = { λ f c d. ChangedCancels (λ x. W.part (C.shared x)) C.number C.work f.ticket c d };

    fn spent(&self) -> bool {
        self.has_answered
    }

    fn poll<R: Host>(
        &mut self,
        _rt: &R,
        _alloc: Global,
        cx: &mut C,
    ) -> Poll<Result<u64, ChangedError>> {
        match ask::<W, T, C, F>(cx, &self.func, self.ticket) {
            Changing::Waits => Poll::Pending,
            Changing::Joined(ticket) => {
                self.ticket = Some(ticket.number());
                Poll::Pending
            }
            Changing::Changed(version) => {
                self.ticket = None;
                self.has_answered = true;
                Poll::Ready(Ok(version))
            }
            Changing::Closed => {
                self.ticket = None;
                self.has_answered = true;
                Poll::Ready(Err(ChangedError::Closed))
            }
            Changing::Memory => {
                self.ticket = None;
                self.has_answered = true;
                Poll::Ready(Err(ChangedError::Memory))
            }
        }
    }

    fn cancel(self, cx: &mut C) {
        leave::<W, T, C>(cx, self.ticket)
    }
}
