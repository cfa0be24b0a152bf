//! Intervals on a small context.
use crate::desks::{Desk, at_millis, empty_desk, fires};
use mono_task::Poll;
use mono_time::*;
use std::alloc::Global;
use std::time::Duration;

// Moves to a time, by a clock step in which at most one sleep fires.
pub(crate) fn go_to(cx: &mut Desk, millis: u32) {
    let now = at_millis(millis);
    cx.now = now;
    let _ = fires(&mut cx.timers, now);
    let _ = fires(&mut cx.timers, now);
}

// Returns whether a poll of the interval answers this tick.
pub(crate) fn ticks_at(cx: &mut Desk, interval: &mut Interval, millis: u32) -> bool {
    interval.poll_tick(cx) == Ok(Poll::Ready(at_millis(millis)))
}

// Returns whether an interval of 50 ms from a start, whose first tick is polled at a time, ticks next at that deadline.
fn goes_on(
    alloc: Global,
    cx: &mut Desk,
    behavior: MissedTickBehavior,
    start: u32,
    now: u32,
    next: u32,
) -> bool {
    let Ok(mut ticks) = interval_at(alloc, cx, at_millis(start), Duration::from_millis(50)) else {
        return false;
    };
    ticks.set_missed_tick_behavior(behavior);
    go_to(cx, now);
    let is_first = ticks_at(cx, &mut ticks, start);
    go_to(cx, 1000);
    let is_next = ticks_at(cx, &mut ticks, next);
    ticks.cancel(cx);
    is_first && is_next
}

// How an interval continues: its start, when its first tick is polled, and the next deadline. A tick that is 5 ms late is
// not missed.
const MISSED: [(MissedTickBehavior, u32, u32, u32); 8] = [
    (MissedTickBehavior::Skip, 0, 75, 100),
    (MissedTickBehavior::Delay, 0, 200, 250),
    (MissedTickBehavior::Burst, 100, 105, 150),
    (MissedTickBehavior::Burst, 100, 106, 150),
    (MissedTickBehavior::Delay, 100, 105, 150),
    (MissedTickBehavior::Delay, 100, 106, 156),
    (MissedTickBehavior::Skip, 100, 105, 150),
    (MissedTickBehavior::Skip, 100, 106, 150),
];

#[test]
fn missed_ticks(rt: HostRuntime) {
    for (behavior, start, now, next) in MISSED {
        let mut cx = empty_desk(&rt, rt.alloc(), at_millis(0));
        assert!(rt; goes_on(rt.alloc(), &mut cx, behavior, start, now, next));
    }
}
