//! A join of three sleeps.
ghost use Rattle.std.specs.Prelude.{◌≡◌, ◌⊎◌, IfSome};

use mono_combine::join3;
use mono_forms::FutureExt;
use mono_rt::{Host, NoPool, SleepError, StepDriver, TimeDriver, sleep_for, start};
use std::alloc::Global;
use std::time::Duration;

type Slept = Result<(), SleepError>;

/// Sleeps three times at once. Returns how many sleeps have ended: all three, or 0 if one was refused.
pub fn three_sleeps<R: Host>(rt: &R, alloc: Global) -> Option<u64>
    ensures { IfSome result (λ ended. (ended ≡ 3) ⊎ (ended ≡ 0)) }
{
    let task = join3(
        sleep_for(Duration::from_millis(3)),
        sleep_for(Duration::from_millis(5)),
        sleep_for(Duration::from_millis(4)),
    )
    .map(|all: ((Slept, Slept), Slept)| match all {
        ((Ok(()), Ok(())), Ok(())) => 3u64,
        _ => 0,
    });
    let driver = TimeDriver::new(StepDriver::new(Vec::new(alloc)));
    start::<_, _, _, NoPool, R>(rt, alloc, driver, task, 100).ok()
}
