//! A user's future by hand, poll by poll.
use crate::desks::{Desk, at_millis, empty_desk, fires};
use example_parts::pulses::Pulse;
use mono_model::{Host, Poll};
use mono_task::TaskFuture;
use mono_time::sleep;
use std::alloc::Global;
use std::time::Duration;

/// Returns whether a pulse whose sleep is due at once waits for the one period that it has left, and ends with it.
fn waits_a_period<R: Host>(rt: &R, alloc: Global, cx: &mut Desk) -> bool {
    let Ok(delay) = sleep(alloc, cx, Duration::from_millis(0)) else {
        return false;
    };
    let mut pulse = Pulse::new(delay, Duration::from_millis(10), 1);
    if pulse.poll(rt, alloc, cx).is_ready() {
        return false;
    }
    let before = fires(&mut cx.timers, at_millis(9));
    let at = fires(&mut cx.timers, at_millis(10));
    let answer = pulse.poll(rt, alloc, cx);
    before.is_none() && at.is_some() && answer == Poll::Ready(Ok(()))
}

#[test]
fn a_pulse_of_one_period(rt: HostRuntime) {
    let mut cx = empty_desk(&rt, rt.alloc(), at_millis(0));
    assert!(rt; waits_a_period(&rt, rt.alloc(), &mut cx));
}
