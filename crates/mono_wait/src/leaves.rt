// Futures that wait for one source, and a value with a deadline.
ghost use Rattle.std.specs.Prelude.{◌≡◌};
ghost use Rattle.mono_wait.specs.Leaves.{sleeps_cover, SleepNeeds};
ghost use Rattle.mono_wait.specs.Deadlines.{TimeoutNeeds, timeout_reached, timeout_left, timeouts_cover};
ghost use Rattle.mono_wait.specs.Handles.{handles_cover};
ghost use Rattle.mono_wait.specs.Sources.{of_task};

use crate::waits::{WaitContext, Waits};
use mono_forms::FutureExt;
use mono_model::{Host, Poll};
use mono_task::{Context, JoinContext, JoinHandle, TaskFuture};
use mono_time::{Sleep, Timeout};
use std::alloc::Global;

// It needs its own sleep.
impl<C: WaitContext> Waits<C> for Sleep {
    ghost needs = { SleepNeeds };

    ghost polls_reach = { λ f c r g d p. p.reached };

    ghost cancels_reach = { λ f c d p. p.reached };

    ghost covers = { sleeps_cover C.number C.sleeps C.work C.reaches C.watcher C.reaches_itself C.same_number C.watches_sleeps };
}

// It needs the sources of its value, and its delay.
impl<C: WaitContext, T: Waits<C>> Waits<C> for Timeout<T> {
    ghost needs = { TimeoutNeeds T.needs };

    ghost polls_reach = { timeout_reached T.TaskFuture C.number C.sleeps C.work C.reaches C.reaches_on T.polls_reach };

    ghost cancels_reach = { timeout_left T.TaskFuture C.number C.sleeps C.work C.reaches C.reaches_on T.cancels_reach };

    ghost covers = { timeouts_cover T.TaskFuture C.number C.sleeps C.work C.reaches C.reaches_on C.watcher C.reaches_itself C.same_number C.watches_sleeps T.needs T.covers T.polls_reach };
}

/// A future whose relations say that the context is reached, as every poll and every cancel promises.
#[derive(Drop)]
pub struct Reaching<T> {
    /// The future.
    pub future: T,
}

impl<T> FutureExt for Reaching<T> {}

impl<C: Context, T: TaskFuture<C>> TaskFuture<C> for Reaching<T> {
    type Output = T::Output;

    ghost is_spent = { λ f. T.is_spent f.future };

    ghost can_poll = { λ f. T.can_poll f.future };

    ghost polls = { λ f c r g d. T.polls f.future c r g.future d × C.reaches c d };

    ghost gives = { λ f. T.gives f.future };

    ghost cancels = { λ f c d. T.cancels f.future c d × C.reaches c d };

    fn spent(&self) -> bool {
        self.future.spent()
    }

    fn poll<R: Host>(&mut self, rt: &R, alloc: Global, cx: &mut C) -> Poll<T::Output> {
        self.future.poll(rt, alloc, cx)
    }

    fn cancel(self, cx: &mut C) {
        self.future.cancel(cx);
    }
}

// It needs the end of its task.
impl<O: Drop, C: WaitContext + JoinContext<O>> Waits<C> for Reaching<JoinHandle<O>> {
    ghost needs = { λ f x. x ≡ of_task f.future };

    ghost polls_reach = { λ f c r g d p. p.1 };

    ghost cancels_reach = { λ f c d p. p.1 };

    ghost covers = { λ f c g d p. rw p.0.0 (handles_cover C.number C.tasks C.work C.reaches C.watcher C.reaches_itself C.same_number C.same_work C.watches_tasks f.future c d p.0.1 p.0.2 p.1) };
}

// It needs the end of its task.
impl<O: Drop, C: WaitContext + JoinContext<O>> Waits<C> for JoinHandle<O> {
    ghost needs = { λ h x. x ≡ of_task h };

    ghost polls_reach = { λ h c r g d p. p.3 };

    ghost cancels_reach = { λ h c d p. p.1 };

    ghost covers = { λ h c g d p. rw p.0 (handles_cover C.number C.tasks C.work C.reaches C.watcher C.reaches_itself C.same_number C.same_work C.watches_tasks h c d p.1 p.2 p.3) };
}
