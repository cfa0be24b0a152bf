// The calls that make sleeps, intervals and timeouts.
ghost use Rattle.std.specs.Prelude.{◌≡◌, ◌<◌, true};
ghost use Rattle.std.specs.Option.{option_map};
ghost use Rattle.std.specs.Duration.{as_nanos};
ghost use Rattle.mono_time.specs.Instants.{nanos_of};
ghost use Rattle.mono_time.specs.Futures.{SleepMade, SleepMadeAt, deadline_after};
ghost use Rattle.mono_time.specs.IntervalTicks.{IntervalMade};
ghost use Rattle.mono_time.specs.Timeouts.{delay_of, future_of};
ghost use Rattle.mono_model.specs.declared.error.SleepError.TheVariants.{Memory};

use crate::context::TimeContext;
use crate::instant::Instant;
use crate::intervals::Interval;
use crate::missed_ticks::MissedTickBehavior;
use crate::sleeps::Sleep;
use crate::timeouts::{Timeout, TimeoutRefused};
use crate::{Error, SleepError};
use mono_task::TaskFuture;
use std::alloc::Global;
use std::time::Duration;

/// The length of a sleep whose deadline would be past the last instant: thirty years of 365 days, in seconds.
const FAR_OFF_SECONDS: u64 = 946080000;

/// Makes a fresh sleep until a deadline.
///
/// Refused as the context refuses a further sleep: shutdown, then at capacity, then out of memory (`made`).
pub fn sleep_until<C: TimeContext>(
    alloc: Global,
    cx: &mut C,
    deadline: Instant,
) -> Result<Sleep, SleepError>
    ensures made { SleepMade (C.sleeps cx.old) (nanos_of deadline) result (C.sleeps cx.new) }
    ensures memory { result ≡ Err Memory → C.is_out_of_memory cx.new ≡ true }
    ensures work { C.work cx.new ≡ C.work cx.old }
    ensures reached { C.reaches cx.old cx.new }
{
    match cx.add_sleep(alloc, deadline) {
        Ok(number) => Ok(Sleep { number, deadline }),
        Err(error) => Err(error),
    }
}

// Returns the deadline of a sleep for a duration from now.
fn deadline_from(now: Instant, duration: Duration) -> Option<Instant>
    ensures { option_map nanos_of result ≡ deadline_after (nanos_of now) (as_nanos duration) }
{
    match now.checked_add(duration) {
        Some(deadline) => Some(deadline),
        None => now.checked_add(Duration::from_secs(FAR_OFF_SECONDS)),
    }
}

/// Makes a fresh sleep for a duration from the context's now. If its deadline would be past the last instant, the
/// deadline is 946,080,000 seconds from now.
///
/// Refused as invalid if and only if that is past the last instant too, and otherwise as [`sleep_until`] (`made`).
///
/// ```rust
/// // from example_checks/src/drivers/naps.rt: the nap answers 0 if its sleep is refused
/// let made = match self.delay.take() {
///     Some(delay) => Ok(delay),
///     None => sleep(alloc, cx, self.length),
/// };
/// let Ok(mut delay) = made else {
///     self.has_answered = true;
///     return Poll::Ready(0);
/// };
/// ```
pub fn sleep<C: TimeContext>(
    alloc: Global,
    cx: &mut C,
    duration: Duration,
) -> Result<Sleep, SleepError>
    ensures made { SleepMadeAt C.sleeps (deadline_after (C.nanos cx.old) (as_nanos duration)) cx.old result cx.new }
    ensures memory { result ≡ Err Memory → C.is_out_of_memory cx.new ≡ true }
    ensures work { C.work cx.new ≡ C.work cx.old }
    ensures reached { C.reaches cx.old cx.new }
{
    match deadline_from(Instant::now(cx), duration) {
        Some(deadline) => sleep_until(alloc, cx, deadline),
        None => Err(SleepError::Timer(Error::Invalid)),
    }
}

/// Makes an interval that ticks at a start and at each period after it. The period is not zero.
///
/// Refused as the context refuses a further sleep (`made`).
pub fn interval_at<C: TimeContext>(
    alloc: Global,
    cx: &mut C,
    start: Instant,
    period: Duration,
) -> Result<Interval, SleepError>
    requires { 0 < as_nanos period }
    ensures made { IntervalMade (C.sleeps cx.old) (nanos_of start) (as_nanos period) result (C.sleeps cx.new) }
    ensures memory { result ≡ Err Memory → C.is_out_of_memory cx.new ≡ true }
    ensures work { C.work cx.new ≡ C.work cx.old }
    ensures reached { C.reaches cx.old cx.new }
{
    match sleep_until(alloc, cx, start) {
        Ok(delay) => Ok(Interval {
            delay,
            period,
            behavior: MissedTickBehavior::Burst,
        }),
        Err(error) => Err(error),
    }
}

/// Makes an interval that ticks now and at each period from now on. The period is not zero.
///
/// Refused as the context refuses a further sleep (`made`).
pub fn interval<C: TimeContext>(
    alloc: Global,
    cx: &mut C,
    period: Duration,
) -> Result<Interval, SleepError>
    requires { 0 < as_nanos period }
    ensures made { IntervalMade (C.sleeps cx.old) (C.nanos cx.old) (as_nanos period) result (C.sleeps cx.new) }
    ensures memory { result ≡ Err Memory → C.is_out_of_memory cx.new ≡ true }
    ensures work { C.work cx.new ≡ C.work cx.old }
    ensures reached { C.reaches cx.old cx.new }
{
    let start = Instant::now(cx);
    interval_at(alloc, cx, start, period)
}

/// Gives a future a deadline.
///
/// Refused as [`sleep_until`] is (`made`, `memory`); then the future comes back (`future`).
pub fn timeout_at<C: TimeContext, T: TaskFuture<C>>(
    alloc: Global,
    cx: &mut C,
    deadline: Instant,
    future: T,
) -> Result<Timeout<T>, TimeoutRefused<T>>
    ensures made { SleepMade (C.sleeps cx.old) (nanos_of deadline) (delay_of result) (C.sleeps cx.new) }
    ensures future { future_of result ≡ future }
    ensures memory { delay_of result ≡ Err Memory → C.is_out_of_memory cx.new ≡ true }
    ensures work { C.work cx.new ≡ C.work cx.old }
    ensures reached { C.reaches cx.old cx.new }
{
    match sleep_until(alloc, cx, deadline) {
        Ok(delay) => Ok(Timeout {
            value: future,
            delay,
        }),
        Err(cause) => Err(TimeoutRefused { cause, future }),
    }
}

/// Gives a future a deadline that is a duration from now. If that would be past the last instant, the deadline is
/// 946,080,000 seconds from now.
///
/// Refused as [`sleep`] is (`made`, `memory`); then the future comes back (`future`).
///
/// ```rust
/// // from test_futures/src/interval_ticks.rt
/// let value = Answer { value: Some(6) };
/// let Ok(timeout) = timeout(alloc, cx, Duration::from_secs(1), value) else {
///     return false;
/// };
/// let kept = timeout.get_ref().value;
/// let back = timeout.into_inner(cx);
/// ```
pub fn timeout<C: TimeContext, T: TaskFuture<C>>(
    alloc: Global,
    cx: &mut C,
    duration: Duration,
    future: T,
) -> Result<Timeout<T>, TimeoutRefused<T>>
    ensures made { SleepMadeAt C.sleeps (deadline_after (C.nanos cx.old) (as_nanos duration)) cx.old (delay_of result) cx.new }
    ensures future { future_of result ≡ future }
    ensures memory { delay_of result ≡ Err Memory → C.is_out_of_memory cx.new ≡ true }
    ensures work { C.work cx.new ≡ C.work cx.old }
    ensures reached { C.reaches cx.old cx.new }
{
    match sleep(alloc, cx, duration) {
        Ok(delay) => Ok(Timeout {
            value: future,
            delay,
        }),
        Err(cause) => Err(TimeoutRefused { cause, future }),
    }
}
