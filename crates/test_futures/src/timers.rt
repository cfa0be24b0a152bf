//! Sleeps on a small context.
use crate::desks::{Desk, at_millis, empty_desk};
use mono_model::MAX_NANOS;
use mono_time::*;
use std::alloc::Global;
use std::time::Duration;

// Returns whether deadlines that are too far off are refused.
fn far_off(alloc: Global, cx: &mut Desk) -> bool {
    let Ok(far) = sleep(alloc, cx, Duration::MAX) else {
        return false;
    };
    let Ok(same) = sleep_until(alloc, cx, far.deadline()) else {
        return false;
    };
    far.deadline().as_nanos() == 946080000000000000
        && same.deadline() == far.deadline()
        && same.number() == 1
}

#[test]
fn far_deadlines(rt: HostRuntime) {
    let mut cx = empty_desk(&rt, rt.alloc(), at_millis(0));
    assert!(rt; far_off(rt.alloc(), &mut cx));
    cx.now = Instant::from_nanos(MAX_NANOS).expect(&rt, "an instant");
    let invalid = sleep(rt.alloc(), &mut cx, Duration::MAX);
    assert!(rt; invalid == Err(SleepError::Timer(Error::Invalid)));
}
