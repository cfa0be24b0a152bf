// An interval that is made at its first poll.
ghost use Rattle.std.specs.Prelude.{◌≡◌, ◌<◌, false, None};
ghost use Rattle.std.specs.Duration.{as_nanos};
ghost use Rattle.mono_forms.specs.Intervals.{NextTick, TickMade, IntervalPolls, IntervalGives, IntervalCancels, SameTicks};

use mono_model::{Host, Poll};
use mono_task::TaskFuture;
use mono_time::{Instant, Interval, SleepError, TimeContext, interval};
use std::alloc::Global;
use std::time::Duration;

/// A future of the next tick of an interval that is made at the first poll. So it needs no context before.
///
/// The first tick is the moment of the first poll, and one follows at each period after it. It is never spent: a poll
/// after a tick waits for the tick after it. So `outputs(interval_for(period))` is the stream of the ticks. If the
/// context refuses the sleep, it answers the cause, and the next poll tries again.
#[derive(Drop)]
pub struct IntervalFor {
    pub(crate) period: Duration,
    pub(crate) interval: Option<Interval>,
    ghost goes_on: { 0 < as_nanos period },
}

/// Makes an interval from its first poll on. The period is not zero.
///
/// ```rust
/// // test_forms/src/ticks.rt
/// let task = sleep_for(Duration::from_millis(3))
///     .then(|_: Result<(), SleepError>| interval_for(Duration::from_millis(5)))
///     .map(|tick: Result<Instant, SleepError>| tick.is_ok() as u64);
/// ```
pub fn interval_for(period: Duration) -> IntervalFor
    requires { 0 < as_nanos period }
    ensures period { result.period ≡ period }
    ensures fresh { result.interval ≡ None }
{
    IntervalFor {
        period,
        interval: None,
    }
}

impl IntervalFor {
    // Polls for the next tick of an interval that was made.
    fn go_on<C: TimeContext>(
        &mut self,
        cx: &mut C,
        made: Interval,
    ) -> Poll<Result<Instant, SleepError>>
        ensures ticks { NextTick C.number C.nanos C.sleeps C.work made cx.old result self.new.interval cx.new }
        ensures same { SameTicks made result self.new.interval }
        ensures period { self.new.period ≡ self.old.period }
        ensures reached { C.reaches cx.old cx.new }
    {
        let mut made = made;
        let answer = made.poll_tick(cx);
        self.interval = Some(made);
        match answer {
            Ok(polled) => match polled {
                Poll::Ready(tick) => Poll::Ready(Ok(tick)),
                Poll::Pending => Poll::Pending,
            },
            Err(error) => Poll::Ready(Err(SleepError::Timer(error))),
        }
    }
}

impl<C: TimeContext> TaskFuture<C> for IntervalFor {
    type Output = Result<Instant, SleepError>;

    ghost is_spent = { λ f. false };

    ghost polls = { λ f c r g d. IntervalPolls C.number C.nanos C.sleeps C.work C.reaches f.period f.interval c r g.interval d × (g.period ≡ f.period) };

    ghost gives = { λ f. IntervalGives f.interval };

    ghost cancels = { λ f c d. IntervalCancels C.sleeps C.work C.reaches f.interval c d };

    fn spent(&self) -> bool {
        false
    }

    fn poll<R: Host>(
        &mut self,
        _rt: &R,
        alloc: Global,
        cx: &mut C,
    ) -> Poll<Result<Instant, SleepError>> {
        match self.interval.take() {
            Some(made) => self.go_on(cx, made),
            None => match interval(alloc, cx, self.period) {
                Ok(made) => self.go_on(cx, made),
                Err(error) => Poll::Ready(Err(error)),
            },
        }
    }

    fn cancel(self, cx: &mut C) {
        if let Some(made) = self.interval {
            made.cancel(cx);
        }
    }
}
