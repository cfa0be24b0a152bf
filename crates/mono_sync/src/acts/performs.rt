// A call on the shared value as a future.
ghost use Rattle.std.specs.Prelude.{◌≡◌, ⊤, ℕ, Some};
ghost use Rattle.mono_task.specs.Owed.{Keeps};
ghost use Rattle.mono_sync.specs.Acts.{PerformCanPoll, PerformPolls, PerformGives};
ghost use Rattle.mono_sync.specs.Spent.{at_once_spent};

use mono_model::{Host, Poll};
use mono_task::{SharedContext, SharedState, TaskFuture};
use std::alloc::Global;
use std::marker::PhantomData;

/// A call on the shared value that waits for nothing: it is made in one turn.
///
/// A call specifies what it answers and what it leaves (`acts`). It leads the value as the value's own calls do, and takes
/// out no task that waits. So the runtime wakes the tasks that it served after the turn.
pub trait Act<W: SharedState>: Drop {
    /// What the call answers.
    type Answer;

    // What the call's closure requires; true if it holds none.
    ghost can_act: { Self → Type 0 } = { λ _. ⊤ };

    // What the call may answer, and the value before and after it.
    ghost acts: { Self → W → Self.Answer → W → Type 0 };

    /// Makes the call.
    fn act(self, alloc: Global, shared: &mut W) -> Self::Answer
        requires callable { can_act self }
        ensures acted { acts self shared.old result shared.new }
        ensures leads { W.leads shared.old shared.new }
        ensures keeps { (me : ℕ) → Keeps W.lists me shared.old shared.new };
}

/// A future whose first poll makes one call on the shared value, and answers what the call answers. Then it is spent.
#[derive(Drop)]
pub struct AtOnce<W, A> {
    pub(crate) act: Option<A>,
    shared: PhantomData<W>,
}

/// Returns a future that makes this call at its first poll.
pub fn perform<W, A>(act: A) -> AtOnce<W, A>
    ensures { result.act ≡ Some act }
{
    AtOnce {
        act: Some(act),
        shared: PhantomData,
    }
}

// Makes a call in the running task's turn.
fn act_on<W: SharedState, C: SharedContext<W>, A: Act<W>>(
    cx: &mut C,
    alloc: Global,
    act: A,
) -> A::Answer
    requires callable { A.can_act act }
    ensures acted { A.acts act (C.shared cx.old) result (C.shared cx.new) }
    ensures work { C.work cx.new ≡ C.work cx.old }
    ensures reached { C.reaches cx.old cx.new }
{
    act.act(alloc, cx.shared_mut())
}

impl<W: SharedState, C: SharedContext<W>, A: Act<W>> TaskFuture<C> for AtOnce<W, A> {
    type Output = A::Answer;

    ghost is_spent = { at_once_spent };

    ghost can_poll = { λ f. PerformCanPoll A.can_act f.act };

    ghost polls = { λ f c r g d. PerformPolls A.acts C.shared C.work f.act c r g.act d };

    // an answer of the call
    ghost gives = { λ f. PerformGives A.acts f.act };

    ghost cancels = { λ f c d. d ≡ c };

    fn spent(&self) -> bool {
        self.act.is_none()
    }

    fn poll<R: Host>(&mut self, _rt: &R, alloc: Global, cx: &mut C) -> Poll<A::Answer> {
        let Some(act) = self.act.take() else {
            unreachable!()
        };
        Poll::Ready(act_on::<W, C, A>(cx, alloc, act))
    }

    fn cancel(self, _cx: &mut C) {}
}
