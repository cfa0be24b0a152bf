// Ticks that come one period after another.
ghost use Rattle.std.specs.Prelude.{◌≡◌, ◌<◌, ◌≤◌};
ghost use Rattle.std.specs.Duration.{as_nanos};
ghost use Rattle.mono_model.specs.Ticks.{max_nanos};
ghost use Rattle.mono_time.specs.MissedTicks.{next_deadline};

use crate::Error;
use crate::context::TimeContext;
use crate::instant::Instant;
use crate::missed_ticks::MissedTickBehavior;
use crate::sleeps::Sleep;
use mono_model::Poll;
use mono_task::TaskFuture;
use std::time::Duration;

/// How many nanoseconds a tick may be late before it counts as missed.
const LATE: u128 = 5000000;

/// A source of ticks at a start and at each period after it. [`Interval::poll_tick`] polls for a tick.
///
/// An interval that is dropped without [`Interval::cancel`] leaves its delay in the context.
///
/// ```rust
/// // from test_futures/src/interval_ticks.rt: at 199 ms, four ticks follow at once
/// fn ticks_at(cx: &mut Desk, interval: &mut Interval, millis: u32) -> bool {
///     interval.poll_tick(cx) == Ok(Poll::Ready(at_millis(millis)))
/// }
/// // ..
/// let Ok(mut ticks) = interval(alloc, cx, Duration::from_millis(50)) else {
///     return false;
/// };
/// go_to(cx, 199);
/// for millis in [0, 50, 100, 150] {
///     if !ticks_at(cx, &mut ticks, millis) {
///         return false;
///     }
/// }
/// ```
#[derive(Drop)]
pub struct Interval {
    pub(crate) delay: Sleep,
    pub(crate) period: Duration,
    pub(crate) behavior: MissedTickBehavior,
    pub ghost goes_on: { 0 < as_nanos period },
}

// Returns the deadline after the tick of a deadline, in nanoseconds.
fn next_after(behavior: MissedTickBehavior, deadline: u128, period: Duration, now: u128) -> u128
    requires deadline_in { deadline ≤ max_nanos }
    requires now_in { now ≤ max_nanos }
    requires goes_on { 0 < as_nanos period }
    ensures { result ≡ next_deadline behavior deadline (as_nanos period) now }
{
    let period = period.as_nanos();
    if now <= deadline + LATE {
        return deadline + period;
    }
    match behavior {
        MissedTickBehavior::Burst => deadline + period,
        MissedTickBehavior::Delay => now + period,
        MissedTickBehavior::Skip => now + period - (now - deadline) % period,
    }
}

impl Interval {
    ghost use Rattle.mono_time.specs.IntervalTicks.{TickPolls};
    ghost use Rattle.mono_time.specs.Futures.{SleepCancels};

    /// Returns the time between two ticks; it is not zero.
    pub fn period(&self) -> Duration
        ensures { result ≡ self.now.period }
    {
        self.period
    }

    /// Returns the behavior after a missed tick.
    pub fn missed_tick_behavior(&self) -> MissedTickBehavior
        ensures { result ≡ self.now.behavior }
    {
        self.behavior
    }

    /// Sets the behavior after a missed tick.
    pub fn set_missed_tick_behavior(&mut self, behavior: MissedTickBehavior)
        ensures behavior { self.new.behavior ≡ behavior }
        ensures delay { self.new.delay ≡ self.old.delay }
        ensures period { self.new.period ≡ self.old.period }
    {
        self.behavior = behavior;
    }

    /// Polls for the next tick, which comes at its deadline; the running task is woken then. After a tick, the delay
    /// moves to the next deadline.
    ///
    /// Refused as invalid if and only if the delay has elapsed and the next deadline is past the last instant; the
    /// delay then stays elapsed at its old deadline. Refused as shutdown if and only if the context has no such live
    /// sleep (`ticks`).
    pub fn poll_tick<C: TimeContext>(&mut self, cx: &mut C) -> Result<Poll<Instant>, Error>
        ensures ticks { TickPolls C.number C.nanos C.sleeps C.work self.old cx.old result self.new cx.new }
        ensures reached { C.reaches cx.old cx.new }
    {
        match cx.poll_sleep(self.delay.number)? {
            Poll::Pending => Ok(Poll::Pending),
            Poll::Ready(()) => {
                let tick = self.delay.deadline;
                let next = next_after(self.behavior, tick.as_nanos(), self.period, cx.now());
                match Instant::from_nanos(next) {
                    None => Err(Error::Invalid),
                    Some(deadline) => {
                        self.delay.reset(cx, deadline)?;
                        Ok(Poll::Ready(tick))
                    }
                }
            }
        }
    }

    /// Gives up the interval and its delay.
    pub fn cancel<C: TimeContext>(self, cx: &mut C)
        ensures cancelled { SleepCancels C.sleeps C.work C.reaches self.delay cx.old cx.new }
        ensures reached { C.reaches cx.old cx.new }
    {
        let Interval {
            delay,
            period: _,
            behavior: _,
        } = self;
        delay.cancel(cx);
    }
}
