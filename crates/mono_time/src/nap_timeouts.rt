// A future with a limited time from its first poll on.
ghost use Rattle.std.specs.Prelude.{◌≡◌, None, Some};
ghost use Rattle.mono_time.specs.NapTimeouts.{limit_spent, LimitCanPoll, LimitPolls, LimitGives, LimitCancels, late_cause};

use crate::SleepError;
use crate::context::TimeContext;
use crate::error::{Elapsed, LateError};
use crate::naps::{SleepFor, sleep_for};
use mono_model::{Host, Poll};
use mono_task::TaskFuture;
use std::alloc::Global;
use std::time::Duration;

/// A future with a deadline that is a duration from its first poll on. It needs no context before.
///
/// Each poll polls the future first, and the delay if the future waits. Once one has answered, both are given up, the
/// future first, and the timeout is spent.
#[derive(Drop)]
pub struct TimeoutFor<T> {
    pub(crate) both: Option<(T, SleepFor)>,
}

/// Limits a future to a duration from its first poll on.
///
/// The timeout answers the future's output, or why there is none: the duration has elapsed, or the context refused the
/// delay.
pub fn timeout_for<T>(duration: Duration, future: T) -> TimeoutFor<T>
    ensures { result.both ≡ Some (future, SleepFor.Fresh duration) }
{
    TimeoutFor {
        both: Some((future, sleep_for(duration))),
    }
}

// Returns why there is no output, from the delay's answer.
fn cause_of(answer: Result<(), SleepError>) -> LateError
    ensures { result ≡ late_cause answer }
{
    match answer {
        Ok(()) => LateError::Elapsed(Elapsed),
        Err(error) => LateError::Sleep(error),
    }
}

impl<T> TimeoutFor<T> {
    // Gives up the future and the delay.
    fn end<C: TimeContext>(&mut self, cx: &mut C)
    where
        T: TaskFuture<C>,
        ensures over { self.new.both ≡ None }
        ensures cancelled { LimitCancels T.cancels C.sleeps C.work C.reaches self.old.both cx.old cx.new }
        ensures reached { C.reaches cx.old cx.new }
    {
        if let Some((value, delay)) = self.both.take() {
            value.cancel(cx);
            delay.cancel(cx);
        }
    }
}

impl<C: TimeContext, T: TaskFuture<C>> TaskFuture<C> for TimeoutFor<T> {
    type Output = Result<T::Output, LateError>;

    ghost is_spent = { λ f. limit_spent T.is_spent f.both };

    ghost can_poll = { λ f. LimitCanPoll T.can_poll f.both };

    ghost polls = { λ f c r g d. LimitPolls T.TaskFuture C.nanos C.number C.sleeps C.work C.reaches f.both c r g.both d };

    ghost gives = { λ f. LimitGives T.gives f.both };

    ghost cancels = { λ f c d. LimitCancels T.cancels C.sleeps C.work C.reaches f.both c d };

    fn spent(&self) -> bool {
        match &self.both {
            Some((value, delay)) => value.spent() || delay.is_over(),
            None => true,
        }
    }

    fn poll<R: Host>(
        &mut self,
        rt: &R,
        alloc: Global,
        cx: &mut C,
    ) -> Poll<Result<T::Output, LateError>> {
        let Some((value, delay)) = &mut self.both else {
            unreachable!()
        };
        match value.poll(rt, alloc, cx) {
            Poll::Ready(x) => {
                self.end(cx);
                Poll::Ready(Ok(x))
            }
            Poll::Pending => match delay.poll(rt, alloc, cx) {
                Poll::Ready(answer) => {
                    self.end(cx);
                    Poll::Ready(Err(cause_of(answer)))
                }
                Poll::Pending => Poll::Pending,
            },
        }
    }

    fn cancel(self, cx: &mut C) {
        if let Some((value, delay)) = self.both {
            value.cancel(cx);
            delay.cancel(cx);
        }
    }
}
