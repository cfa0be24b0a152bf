//! A job that blocks its thread, under a timeout.
ghost use Rattle.std.specs.Prelude.{◌≤◌, IfSome};

use crate::naps::Nap;
use mono_forms::FutureExt;
use mono_rt::{
    DefaultThreadPool, Host, JobError, LateError, RuntimeBuilder, SystemClock, ThreadDriver,
    ThreadSpawner, TimeDriver, run_job, timeout_for,
};
use std::time::Duration;

type Napped = Result<Result<u64, JobError<Nap>>, LateError>;

// Returns how many milliseconds of the limit a job left: none if it was late or gave nothing.
fn left_of(ms: u64, napped: Napped) -> u64
    ensures { result ≤ ms }
{
    ms.saturating_sub(napped.unwrap_or(Ok(ms)).unwrap_or(ms))
}

/// Runs a job for at most `ms` milliseconds. Returns how many of them it left, by its output, or 0 if it was late.
pub fn job_timeout<R: Host + Copy + Send + 'static>(rt: R, nap: Nap, ms: u64) -> Option<u64>
    ensures { IfSome result (λ left. left ≤ ms) }
{
    let alloc = nap.rt.alloc();
    let limit = Duration::from_millis(ms);
    let task = timeout_for(limit, run_job(nap)).map(move |napped: Napped| left_of(ms, napped));
    let mut threads = ThreadSpawner::new(alloc);
    let pool = DefaultThreadPool::new(&rt, alloc, 1, &mut threads).ok()?;
    let driver = TimeDriver::new(ThreadDriver::new(alloc, SystemClock::new(rt)).ok()?);
    let builder: RuntimeBuilder<_, DefaultThreadPool<Nap>> = RuntimeBuilder::new(driver);
    let Ok(mut runtime) = builder.attach_thread_pool(pool).build(alloc) else {
        return None;
    };
    match runtime.block_on(&rt, alloc, task, 1000) {
        Err(_) => None,
        Ok(left) => Some(left),
    }
}
