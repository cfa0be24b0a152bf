//! Tasks that wait for permits which nobody releases. No park finds a lost wake.
ghost use Rattle.mono_rt.specs.FuturePolls.{OnMain};
ghost use Rattle.mono_rt.specs.Views.{Rests};
ghost use Rattle.mono_wait.specs.RunPlaces.{ParksFind};
ghost use Rattle.example_waits.specs.Gates.{StandsInLine};

use mono_forms::FutureExt;
use mono_rt::{
    Cx, Host, NoPool, NoUnpark, Outcome, RunError, Runtime, RuntimeBuilder, SharedState,
    StepDriver, TimeDriver,
};
use mono_sync::{Acquire, AcquireError, Only, Semaphore, laws};
use mono_wait::laws::each_park_of_block_on_finds_its_tasks_listed;
use mono_wait::{Reaching, WaitsIn};
use std::alloc::Global;

type Shared = Only<Semaphore>;

type Steps = TimeDriver<StepDriver>;

/// Runs a task. Unless memory ran out, each park finds each task that waits for a permit in the line, and no permit free.
fn run<F: WaitsIn<Shared, Cx<F, u64, NoPool, NoUnpark, Shared>, Output = u64> + Drop, R: Host>(
    rt: &R,
    alloc: Global,
    runtime: &mut Runtime<F, u64, Steps, NoPool, Shared>,
    main: F,
) -> Result<u64, RunError>
    requires callable { (f : F) → F.can_poll f }
    requires rests { Rests runtime.old }
    ensures { OnMain result (ParksFind ⟦<u64 as Outcome>⟧.output_number ⟦<Shared as SharedState>⟧ F.TaskFuture F.waits_in StandsInLine main runtime.old runtime.new) }
{
    each_park_of_block_on_finds_its_tasks_listed::<F, u64, Steps, NoPool, Shared>();
    laws::no_permit_lies_idle();
    runtime.block_on(rt, alloc, main, 100)
}

// Runs two tasks that share a semaphore with these permits. Returns the output of the second.
fn run_both<F, R: Host>(rt: &R, alloc: Global, permits: usize, first: F, second: F) -> Option<u64>
where
    F: WaitsIn<Shared, Cx<F, u64, NoPool, NoUnpark, Shared>, Output = u64> + Drop,
    requires callable { (f : F) → F.can_poll f }
{
    let driver = TimeDriver::new(StepDriver::new(Vec::new(alloc)));
    let builder: RuntimeBuilder<Steps, NoPool> = RuntimeBuilder::new(driver);
    let part = Semaphore::new(alloc, permits);
    let mut runtime = builder.build_sharing(alloc, Only { part }).ok()?;
    runtime.spawn(alloc, first).ok()?;
    run(rt, alloc, &mut runtime, second).ok()
}

/// Runs two tasks that take a permit each. Returns 1 if the second got one, or None if it still waits after 100 turns.
pub fn wait_at_gate<R: Host>(rt: &R, alloc: Global, permits: usize) -> Option<u64> {
    let visitor = |future: Acquire<Shared>| {
        Reaching { future }.map(|got: Result<(), AcquireError>| u64::from(got.is_ok()))
    };
    let (first, second) = (visitor(Acquire::new()), visitor(Acquire::new()));
    run_both(rt, alloc, permits, first, second)
}
