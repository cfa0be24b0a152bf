// A branch of a select.
ghost use Rattle.std.specs.Prelude.{◌≡◌, false, true};
ghost use Rattle.std.specs.Fn.{FnReturnsAt};
ghost use Rattle.mono_combine.specs.Looks.{is_out, branch_spent, BranchCanPoll, BranchCancels, BranchNarrows, LookGives, TestsGiven, HasTurn};
ghost use Rattle.mono_combine.specs.Rules.{unless_masked};
ghost use Rattle.mono_combine.specs.Selects.{left_out_if};

use mono_model::{Host, Poll};
use mono_task::{Context, TaskFuture};
use std::alloc::Global;
use std::mem;

/// The result of one turn of a branch of a select. The rule of a select (`select_rule`) is a function of these results.
#[derive(Drop)]
pub enum Look<X> {
    /// The branch is ready, and its predicate is true of the output.
    Passes(X),
    /// The branch is pending.
    Waits,
    /// The branch is left out, or ready with an output for which its predicate is false.
    Rests,
}

// A branch of a select. Its bit in the mask is set unless it is live.
#[derive(Drop)]
pub(crate) enum Branch<T> {
    // It is polled in its turn.
    Live(T),
    // The caller's mask leaves it out.
    Out(T),
    // It was ready, or the select has answered; its future was given up.
    Gone,
}

// Returns a branch; the mask leaves it out if its bit is set.
pub(crate) fn branch_of<T>(future: T, is_left_out: bool) -> Branch<T>
    ensures { result ≡ left_out_if is_left_out future }
{
    if is_left_out {
        Branch::Out(future)
    } else {
        Branch::Live(future)
    }
}

impl<T> Branch<T> {
    pub(crate) fn spent<C: Context>(&self) -> bool
    where
        T: TaskFuture<C>,
        ensures { result ≡ branch_spent T.TaskFuture self.now }
    {
        match self {
            Branch::Live(future) => future.spent(),
            Branch::Out(_) => false,
            Branch::Gone => false,
        }
    }

    // Gives the branch its turn: it polls a live branch, and gives its future up at once if that is ready.
    pub(crate) fn look<R: Host, C: Context, P>(
        &mut self,
        test: &P,
        rt: &R,
        alloc: Global,
        cx: &mut C,
    ) -> Look<T::Output>
    where
        T: TaskFuture<C, Output: Drop>,
        P: Fn(&T::Output) -> bool,
        requires unspent { branch_spent T.TaskFuture self.old ≡ false }
        requires callable { BranchCanPoll T.TaskFuture self.old }
        requires test { TestsGiven T.gives P.Fn test.now self.old }
        ensures turn { HasTurn T.TaskFuture P.Fn test.now self.old cx.old result self.new cx.new }
        ensures counts { unless_masked (is_out self.old) result ≡ result }
        ensures unspent { branch_spent T.TaskFuture self.new ≡ false }
        ensures given { LookGives T.gives (λ x. FnReturnsAt P.Fn test.now x true) self.old result }
        ensures narrows { BranchNarrows T.gives self.new self.old }
        ensures callable { BranchCanPoll T.TaskFuture self.new }
        ensures reached { C.reaches cx.old cx.new }
    {
        match self {
            Branch::Live(future) => match future.poll(rt, alloc, cx) {
                Poll::Ready(x) => {
                    self.give_up(cx);
                    if test(&x) {
                        Look::Passes(x)
                    } else {
                        Look::Rests
                    }
                }
                Poll::Pending => Look::Waits,
            },
            Branch::Out(_) => Look::Rests,
            Branch::Gone => Look::Rests,
        }
    }

    // Gives up the future that remains.
    pub(crate) fn give_up<C: Context>(&mut self, cx: &mut C)
    where
        T: TaskFuture<C>,
        ensures gone { self.new ≡ Branch.Gone }
        ensures given_up { BranchCancels T.TaskFuture self.old cx.old cx.new }
        ensures reached { C.reaches cx.old cx.new }
    {
        match mem::replace(self, Branch::Gone) {
            Branch::Live(future) => future.cancel(cx),
            Branch::Out(future) => future.cancel(cx),
            Branch::Gone => {}
        }
    }
}
