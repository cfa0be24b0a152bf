//! The first of two tasks, under a timeout.
ghost use Rattle.std.specs.Prelude.{◌≡◌, ◌⊎◌, IfSome};

use mono_forms::{FutureExt, race};
use mono_rt::{
    Host, LateError, NoPool, SleepError, StepDriver, TimeDriver, sleep_for, start, timeout_for,
};
use std::alloc::Global;
use std::time::Duration;

/// Races two sleeps, for at most `limit` milliseconds. Returns the milliseconds of the one that ended first, or 0 if
/// neither ended in time.
pub fn first_of_two<R: Host>(rt: &R, alloc: Global, a: u64, b: u64, limit: u64) -> Option<u64>
    ensures { IfSome result (λ first. (first ≡ a) ⊎ ((first ≡ b) ⊎ (first ≡ 0))) }
{
    let one = sleep_for(Duration::from_millis(a)).map(move |_: Result<(), SleepError>| a);
    let two = sleep_for(Duration::from_millis(b)).map(move |_: Result<(), SleepError>| b);
    let task = timeout_for(Duration::from_millis(limit), race(one, two)).map(|first: Result<
        u64,
        LateError,
    >| first.unwrap_or(0));
    let driver = TimeDriver::new(StepDriver::new(Vec::new(alloc)));
    start::<_, _, _, NoPool, R>(rt, alloc, driver, task, 100).ok()
}
