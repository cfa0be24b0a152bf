// An interval that is made at its first poll, in a main task of a built runtime.
use crate::chains::run;
use mono_forms::{FutureExt, IntervalFor, interval_for};
use mono_time::{Instant, SleepError, sleep_for};
use std::time::Duration;

/// Makes an interval after a sleep.
fn after_a_sleep(_: Result<(), SleepError>) -> IntervalFor {
    interval_for(Duration::from_millis(5))
}

/// Returns 1 if a tick came.
fn ticked(tick: Result<Instant, SleepError>) -> u64 {
    u64::from(tick.is_ok())
}

// It needs no context before, so it can follow a sleep. Its first tick is the first poll's moment.
#[test]
fn a_tick_follows_a_sleep(rt: HostRuntime) {
    let task = sleep_for(Duration::from_millis(3))
        .then(after_a_sleep)
        .map(ticked);
    assert_eq!(rt; run(&rt, rt.alloc(), task), (Ok(1), (2, 1, 3)));
}
