// Blocking jobs as futures: run, and refused.
use mono_forms::FutureExt;
use mono_rt::{
    BlockingHandle, BlockingStrategy, Cx, Host, Job, JobError, Limits, NoPool, NoUnpark, Outcome,
    RunError, SpawnError, StepDriver, TaskFuture, run_alone, run_job,
};
use std::alloc::Global;
use std::process::Abort;

/// Gives its number.
#[derive(Drop)]
pub(crate) struct Gives(pub(crate) u64);

impl Outcome for Gives {
    ghost output_number = { λ job. job.0 };

    fn number(&self) -> u64 {
        self.0
    }
}

impl Job for Gives {
    type Output = u64;

    type Unpark = NoUnpark;

    fn run(self) -> u64 {
        self.0
    }
}

/// Returns a code of what a job gave.
fn code(answer: Result<u64, JobError<Gives>>) -> u64 {
    match answer {
        Ok(output) => output,
        Err(JobError::Spawn(SpawnError::NoPool(job))) => job.0.saturating_add(1000),
        Err(JobError::Spawn(SpawnError::AtCapacity(job))) => job.0.saturating_add(2000),
        Err(JobError::Spawn(_)) => 3000,
        Err(JobError::Canceled) => 4000,
        Err(JobError::Poll(_)) => 5000,
    }
}

/// Runs a main task with so many jobs, without a pool, on a runtime of its own. Returns its answer.
pub(crate) fn run<F, R: Host + Abort>(
    rt: &R,
    alloc: Global,
    strategy: BlockingStrategy,
    jobs: u64,
    future: F,
) -> Result<u64, RunError>
where
    F: TaskFuture<Cx<F, u64, NoPool<Gives>, NoUnpark>, Output = u64> + Drop,
    requires { (f : F) → F.can_poll f }
{
    let limits = Limits {
        tasks: 1,
        jobs,
        sleeps: 2,
    };
    let driver = StepDriver::new(Vec::new(alloc));
    let pool = BlockingHandle::Empty(strategy);
    let (answer, _journal) = run_alone(rt, alloc, driver, pool, limits, future, 1000).expect(
        rt, "memory",
    );
    answer
}

/// Runs the job that gives 7, and returns its output or a code.
fn gives_seven<R: Host + Abort>(
    rt: &R,
    alloc: Global,
    strategy: BlockingStrategy,
    jobs: u64,
) -> Result<u64, RunError> {
    run(rt, alloc, strategy, jobs, run_job(Gives(7)).map(code))
}

#[test]
fn a_job_runs_or_comes_back(rt: HostRuntime) {
    let (local, none) = (BlockingStrategy::ExecuteLocal, BlockingStrategy::Panic);
    assert_eq!(rt; gives_seven(&rt, rt.alloc(), local, 1), Ok(7));
    assert_eq!(rt; gives_seven(&rt, rt.alloc(), none, 1), Ok(1007));
    assert_eq!(rt; gives_seven(&rt, rt.alloc(), local, 0), Ok(2007));
}
