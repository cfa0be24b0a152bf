// A future, or the output that it gave.
ghost use Rattle.std.specs.Prelude.{◌≡◌, ⊤, false};
ghost use Rattle.mono_model.specs.Poll.{OnPending, IfReady};
ghost use Rattle.std.specs.Option.{option_copied_mut};
ghost use Rattle.std.specs.Borrow.{sem};
ghost use Rattle.mono_combine.specs.Loans.{LendsOutput};
ghost use Rattle.mono_combine.specs.Branches.{maybe_spent, MaybeCanPoll, MaybePolls, MaybeGives, MaybeCancels, is_waiting, output_of, without_output};

use mono_model::{Host, Poll};
use mono_task::{Context, TaskFuture};
use std::alloc::Global;
use std::mem;

/// A future, or the output that it gave until that is taken.
///
/// The type names the output and no context, since a runtime's context names its future.
///
/// It is spent if and only if the output was taken or it holds a future that is spent.
#[derive(Drop)]
pub enum MaybeDone<Fut, X> {
    /// The future has not answered.
    Future(Fut),
    /// The future has answered, and was given up at once.
    Done(X),
    /// The output was taken.
    Gone,
}

/// Returns a future that keeps its output.
pub fn maybe_done<Fut, X>(future: Fut) -> MaybeDone<Fut, X>
    ensures { result ≡ MaybeDone.Future future }
{
    MaybeDone::Future(future)
}

impl<Fut: Drop, X: Drop> MaybeDone<Fut, X> {
    /// Returns the output if the future has answered.
    pub fn output_mut(&mut self) -> Option<&mut X>
        ensures value { option_copied_mut result ≡ output_of self.old }
        ensures* writes_back { sem 𝓛 (LendsOutput Fut.row X.row self.entry result) }
    {
        match self {
            MaybeDone::Done(output) => Some(output),
            _ => None,
        }
    }

    /// Removes and returns the output, if the future has answered; otherwise nothing changes.
    pub fn take_output(&mut self) -> Option<X>
        ensures output { result ≡ output_of self.old }
        ensures left { self.new ≡ without_output self.old }
    {
        match mem::replace(self, MaybeDone::Gone) {
            MaybeDone::Done(output) => Some(output),
            MaybeDone::Future(future) => {
                *self = MaybeDone::Future(future);
                None
            }
            MaybeDone::Gone => None,
        }
    }

    // Removes and returns the output; the future has answered.
    pub(crate) fn take_done<C: Context>(&mut self) -> X
    where
        Fut: TaskFuture<C, Output = X>,
        requires unspent { maybe_spent Fut.TaskFuture self.old ≡ false }
        requires done { is_waiting self.old ≡ false }
        ensures output { self.old ≡ MaybeDone.Done result }
        ensures gone { self.new ≡ MaybeDone.Gone }
    {
        let MaybeDone::Done(output) = mem::replace(self, MaybeDone::Gone) else {
            unreachable!()
        };
        output
    }

    // Returns whether the output is still to come.
    pub(crate) fn is_waiting(&self) -> bool
        ensures { result ≡ is_waiting self.now }
    {
        match self {
            MaybeDone::Future(_) => true,
            MaybeDone::Done(_) => false,
            MaybeDone::Gone => false,
        }
    }

    // Gives up the future that remains.
    pub(crate) fn give_up<C: Context>(&mut self, cx: &mut C)
    where
        Fut: TaskFuture<C, Output = X>,
        ensures gone { self.new ≡ MaybeDone.Gone }
        ensures cancelled { MaybeCancels Fut.TaskFuture self.old cx.old cx.new }
        ensures reached { C.reaches cx.old cx.new }
    {
        mem::replace(self, MaybeDone::Gone).cancel(cx);
    }
}

/// A poll polls the future until that has answered, and returns `Ready` from then on. The output stays until it is
/// taken.
impl<C: Context, X: Drop, Fut: TaskFuture<C, Output = X>> TaskFuture<C> for MaybeDone<Fut, X> {
    type Output = ();

    ghost is_spent = { maybe_spent Fut.TaskFuture };

    ghost can_poll = { MaybeCanPoll Fut.TaskFuture };

    ghost polls = { MaybePolls Fut.TaskFuture };

    ghost cancels = { MaybeCancels Fut.TaskFuture };

    fn spent(&self) -> bool {
        match self {
            MaybeDone::Future(future) => future.spent(),
            MaybeDone::Done(_) => false,
            MaybeDone::Gone => true,
        }
    }

    fn poll<R: Host>(&mut self, rt: &R, alloc: Global, cx: &mut C) -> Poll<()>
        requires unspent { maybe_spent Fut.TaskFuture self.old ≡ false }
        requires callable { MaybeCanPoll Fut.TaskFuture self.old }
        ensures polled { MaybePolls Fut.TaskFuture self.old cx.old result self.new cx.new }
        ensures again { OnPending result (maybe_spent Fut.TaskFuture self.new ≡ false) }
        ensures given { IfReady result (λ _. ⊤) }
        ensures same { OnPending result (⊤ → ⊤ → ⊤) }
        ensures callable { MaybeCanPoll Fut.TaskFuture self.new }
        ensures reached { C.reaches cx.old cx.new }
        ensures narrows { (x : _) → MaybeGives Fut.gives self.new x → MaybeGives Fut.gives self.old x }
    {
        match self {
            MaybeDone::Future(future) => match future.poll(rt, alloc, cx) {
                Poll::Ready(output) => {
                    self.give_up(cx);
                    *self = MaybeDone::Done(output);
                    Poll::Ready(())
                }
                Poll::Pending => Poll::Pending,
            },
            MaybeDone::Done(_) => Poll::Ready(()),
            MaybeDone::Gone => unreachable!(),
        }
    }

    fn cancel(self, cx: &mut C) {
        match self {
            MaybeDone::Future(future) => future.cancel(cx),
            MaybeDone::Done(_) => {}
            MaybeDone::Gone => {}
        }
    }
}
