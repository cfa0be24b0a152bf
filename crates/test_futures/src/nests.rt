// The nest over a small context with timers and no tasks.
ghost use Rattle.std.specs.Prelude.{◌≡◌, ◌<◌};
ghost use Rattle.mono_time.specs.Timers.{sleeps_of};

use crate::desks::{Desk, at_millis, empty_desk};
use example_parts::nests::begin;
use mono_model::Host;
use mono_time::{Error, Instant, TimeContext};
use std::alloc::Global;

/// Returns whether the first poll of a nest with no due deadline waits, and leaves no sleep. The third countdown waits
/// for `third` polls.
fn first_poll<R: Host>(rt: &R, alloc: Global, cx: &mut Desk, third: u64) -> bool
    requires fresh { (sleeps_of cx.old.timers).greatest ≡ 0 }
    requires counts { 0 < third }
{
    let Some(at) = Instant::from_nanos(10000000) else {
        return false;
    };
    let waits = begin(rt, alloc, cx, (at, at), ((1, 2), (third, 4)));
    waits == Ok(true) && cx.sleep_elapsed(0) == Err(Error::Shutdown)
}

#[test]
fn begun(rt: HostRuntime) {
    for third in 1..4u64 {
        let mut cx = empty_desk(&rt, rt.alloc(), at_millis(0));
        assert!(rt; first_poll(&rt, rt.alloc(), &mut cx, third));
    }
}
