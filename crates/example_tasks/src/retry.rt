//! Tries with exponential backoff.
ghost use Rattle.std.specs.Prelude.{◌≤◌, IfSome};

use mono_forms::{FutureExt, Loop, repeat};
use mono_rt::{Host, NoPool, SleepError, StepDriver, TimeDriver, sleep_for, start};
use std::alloc::Global;
use std::time::Duration;

/// Calls a server that fails `failures` times, at most `most` times. It waits 10 ms before the second call, and twice as
/// long before each further one. Returns how many calls it made: at most `most`.
pub fn retry<R: Host>(rt: &R, alloc: Global, failures: u64, most: u64) -> Option<u64>
    requires { 1 ≤ most }
    ensures { IfSome result (λ tries. tries ≤ most) }
{
    let task = repeat((most, 0), move |state: (u64, u64)| {
        let (left, rest) = state;
        sleep_for(Duration::from_millis(rest)).map(move |slept: Result<(), SleepError>| {
            let left = left.saturating_sub(1);
            let is_answered = slept.is_ok() && most.saturating_sub(left) > failures;
            if is_answered || left == 0 {
                Loop::Break(left)
            } else {
                Loop::Continue((left, rest.saturating_mul(2).max(10)))
            }
        })
    })
    .map(move |left: u64| most.saturating_sub(left));
    let driver = TimeDriver::new(StepDriver::new(Vec::new(alloc)));
    start::<_, _, _, NoPool, R>(rt, alloc, driver, task, 1000).ok()
}
