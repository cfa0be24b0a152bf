// A yield to the other queued tasks.
ghost use Rattle.std.specs.Prelude.{◌≡◌};
ghost use Rattle.mono_forms.specs.Yields.{yield_spent, YieldPolls};

use mono_model::{Host, Poll};
use mono_task::{Context, TaskFuture};
use std::alloc::Global;

/// A yield to the queued tasks: its first poll wakes its own task and is pending, and the next is ready.
#[derive(Drop)]
pub enum YieldNow {
    /// It has not been polled.
    Fresh,
    /// It has woken its task.
    Woken,
    /// It has answered.
    Over,
}

impl<C: Context> TaskFuture<C> for YieldNow {
    type Output = ();

    ghost is_spent = { yield_spent };

    ghost polls = { YieldPolls C.number C.work C.wakes C.reaches };

    ghost cancels = { λ f c d. d ≡ c };

    fn spent(&self) -> bool {
        match self {
            YieldNow::Fresh => false,
            YieldNow::Woken => false,
            YieldNow::Over => true,
        }
    }

    fn poll<R: Host>(&mut self, _rt: &R, _alloc: Global, cx: &mut C) -> Poll<()> {
        match self {
            YieldNow::Fresh => {
                cx.wake_me();
                *self = YieldNow::Woken;
                Poll::Pending
            }
            YieldNow::Woken => {
                *self = YieldNow::Over;
                Poll::Ready(())
            }
            YieldNow::Over => unreachable!(),
        }
    }

    fn cancel(self, _cx: &mut C) {}
}
