// A built runtime, and a start on the defaults.
ghost use Rattle.mono_rt.specs.Views.{Rests};

use crate::turns::Gives;
use crate::waits::{Work, Worked, outcome_of, ready};
use mono_blocking::{BlockingStrategy, NoPool};
use mono_model::Host;
use mono_rt::{RunError, RuntimeBuilder, StepDriver, TimeDriver, start};
use std::alloc::Global;
use std::process::Abort;

/// Returns a builder on a driver that never waits.
pub(crate) fn builder(alloc: Global) -> RuntimeBuilder<StepDriver, NoPool<Gives>> {
    RuntimeBuilder::new(StepDriver::new(Vec::new(alloc)))
}

/// Builds a runtime with timers and a journal.
fn built<R: Abort>(rt: &R, alloc: Global) -> Worked<TimeDriver<StepDriver>>
    ensures { Rests result }
{
    builder(alloc)
        .with_blocking_strategy(BlockingStrategy::ExecuteLocal)
        .with_journal()
        .enable_timer()
        .build(alloc)
        .expect(rt, "memory")
}

/// Returns whether a main task on a built runtime is ready with 1, and the journal was kept.
fn runs<R: Host + Abort>(rt: &R, alloc: Global) -> bool {
    let one = ready(rt, alloc, 1);
    let mut runtime = built(rt, alloc);
    let answer = outcome_of(rt, alloc, &mut runtime, one, 10);
    let is_kept = !runtime.journal().is_full();
    let has_no_pool = runtime.into_pool().is_none();
    answer == Ok(1) && is_kept && has_no_pool
}

#[test]
fn a_built_runtime_runs(rt: HostRuntime) {
    assert!(rt; runs(&rt, rt.alloc()));
}

/// Returns how a main task on a runtime with the defaults ends.
fn started<R: Host>(rt: &R, alloc: Global, main: Work, units: u64) -> Result<u64, RunError> {
    let driver = StepDriver::new(Vec::new(alloc));
    start::<_, _, _, NoPool<Gives>, _>(rt, alloc, driver, main, units)
}

#[test]
fn a_start_ends_with_the_output_or_the_turns(rt: HostRuntime) {
    let alloc = rt.alloc();
    assert!(rt; started(&rt, alloc, ready(&rt, alloc, 1), 10) == Ok(1));
    assert!(rt; started(&rt, alloc, Work::Waits, 3) == Err(RunError::Turns));
}
