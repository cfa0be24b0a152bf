//! A pool of worker threads that is shut down: it finishes the jobs that it was given.
ghost use Rattle.std.specs.Prelude.{◌≡◌, ◌⊎◌, IfSome};

use crate::naps::Nap;
use mono_combine::join3;
use mono_forms::FutureExt;
use mono_rt::{
    DefaultThreadPool, Host, JobError, RuntimeBuilder, SystemClock, ThreadDriver, ThreadSpawner,
    run_job,
};

type Napped = Result<u64, JobError<Nap>>;

// Returns how many jobs are done: all three, or 0 if one was not run.
fn done_of(all: ((Napped, Napped), Napped)) -> u64
    ensures { (result ≡ 3) ⊎ (result ≡ 0) }
{
    match all {
        ((Ok(_), Ok(_)), Ok(_)) => 3,
        _ => 0,
    }
}

/// Runs three jobs on two workers and waits for all. Then it shuts the pool down and joins its threads. Returns how many
/// jobs are done: all three, or 0 if one was not run.
pub fn pool<R: Host + Copy + Send + 'static>(rt: R, naps: (Nap, Nap, Nap)) -> Option<u64>
    ensures { IfSome result (λ jobs. (jobs ≡ 3) ⊎ (jobs ≡ 0)) }
{
    let alloc = naps.0.rt.alloc();
    let jobs = join3(run_job(naps.0), run_job(naps.1), run_job(naps.2));
    let task = jobs.map(|all: ((Napped, Napped), Napped)| done_of(all));
    let mut threads = ThreadSpawner::new(alloc);
    let pool = DefaultThreadPool::new(&rt, alloc, 2, &mut threads).ok()?;
    let driver = ThreadDriver::new(alloc, SystemClock::new(rt)).ok()?;
    let builder: RuntimeBuilder<_, DefaultThreadPool<Nap>> = RuntimeBuilder::new(driver);
    let Ok(mut runtime) = builder.attach_thread_pool(pool).build(alloc) else {
        return None;
    };
    let jobs = runtime.block_on(&rt, alloc, task, 1000).ok();
    if let Some(pool) = runtime.into_pool() {
        pool.close(&rt);
    }
    threads.join(&rt);
    jobs
}
