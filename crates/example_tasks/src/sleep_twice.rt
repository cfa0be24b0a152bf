//! A task that sleeps twice, on a runtime of its own that never waits.
ghost use Rattle.std.specs.Prelude.{◌≡◌, ◌⊎◌, IfOk};

use mono_forms::FutureExt;
use mono_rt::{
    BlockingHandle, BlockingStrategy, Host, Limits, NoPool, RunError, SleepError, StepDriver,
    run_alone, sleep_for,
};
use std::alloc::{AllocError, Global};
use std::time::Duration;

/// Returns how often a task has slept on a runtime of its own: twice, or never if a sleep was refused.
pub fn sleep_twice<R: Host>(rt: &R, alloc: Global) -> Result<Result<u64, RunError>, AllocError>
    ensures { IfOk result (λ answer. IfOk answer (λ times. (times ≡ 2) ⊎ (times ≡ 0))) }
{
    let task = sleep_for(Duration::from_millis(5))
        .and_then(|_: ()| sleep_for(Duration::from_millis(7)))
        .map(|answer: Result<(), SleepError>| if answer.is_ok() { 2u64 } else { 0 });
    let limits = Limits {
        tasks: 1,
        jobs: 0,
        sleeps: 1,
    };
    let driver = StepDriver::new(Vec::new(alloc));
    let pool: BlockingHandle<NoPool> = BlockingHandle::Empty(BlockingStrategy::Panic);
    let (answer, _journal) = run_alone(rt, alloc, driver, pool, limits, task, 100)?;
    Ok(answer)
}
