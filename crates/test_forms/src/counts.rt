// A future whose closure rests on what it captured, on a runtime of its own.
ghost use Rattle.std.specs.Prelude.{◌≡◌, ◌+◌, ◌<◌, ◌⊎◌, IfOk};

use crate::chains::{Ended, told_in};
use mono_forms::{FutureExt, race};
use mono_quiet::laws::quiet_futures_spawn_none;
use mono_rt::{
    BlockingHandle, BlockingStrategy, Host, Limits, NoPool, NoUnpark, SleepError, StepDriver,
    run_alone, sleep_for,
};
use std::alloc::{AllocError, Global};
use std::time::Duration;

/// Races the count one up from a count below 1,000 against a longer sleep. Its closure has captured the count.
fn count_in_a_race<R: Host>(rt: &R, alloc: Global, count: u64) -> Result<Ended<u64>, AllocError>
    requires { count < 1000 }
    ensures { IfOk result (λ ended. IfOk ended.0 (λ n. (n ≡ count + 1) ⊎ (n ≡ 0))) }
{
    let counted = sleep_for(Duration::from_millis(1)).map(move |slept: Result<(), SleepError>| {
        match slept {
            Ok(()) => count + 1,
            Err(_) => 0,
        }
    });
    let late = sleep_for(Duration::from_millis(5)).map(|_: Result<(), SleepError>| 0u64);
    let task = race(counted, late);
    quiet_futures_spawn_none::<_, u64, NoPool, NoUnpark, ()>(&task);
    let limits = Limits {
        tasks: 1,
        jobs: 0,
        sleeps: 2,
    };
    let driver = StepDriver::new(Vec::new(alloc));
    let pool: BlockingHandle<NoPool> = BlockingHandle::Empty(BlockingStrategy::Panic);
    let (answer, journal) = run_alone(rt, alloc, driver, pool, limits, task, 100)?;
    Ok((answer, told_in(&journal)))
}

#[test]
fn a_closure_in_a_race_rests_on_a_captured_count(rt: HostRuntime) {
    for count in [0, 1, 999] {
        let ended = count_in_a_race(&rt, rt.alloc(), count).expect(&rt, "memory");
        assert_eq!(rt; ended, (Ok(count + 1), (2, 1, 1)));
    }
}
