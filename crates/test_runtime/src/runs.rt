// Runtimes of the tests, and the answer of a main task on one.

ghost use Rattle.mono_rt.specs.Views.{Rests};

use crate::turns::{Gives, Shared, Task, Turns};
use mono_blocking::{BlockingHandle, ThreadPool};
use mono_machine::Limits;
use mono_model::Host;
use mono_rt::{Driver, Instant, ListClock, RunError, Runtime, ThreadDriver};
use std::alloc::Global;
use std::process::Abort;
use std::sync::atomic::AtomicU64;
use std::sync::{Arc, Mutex};

/// A runtime of tasks that ask for jobs, whose driver parks its thread.
pub(crate) type Sleeping<P> = Runtime<Turns, u64, ThreadDriver<ListClock>, P>;

/// Returns a runtime on this driver, whose first instant is 0.
pub(crate) fn a_runtime<F: Drop, D: Driver, P: ThreadPool + Drop, R: Abort>(
    rt: &R,
    alloc: Global,
    driver: D,
    pool: BlockingHandle<P>,
    limits: Limits,
    has_timers: bool,
) -> Runtime<F, u64, D, P>
    ensures { Rests result }
{
    let start = Instant::from_nanos(0).expect(rt, "an instant");
    Runtime::new(alloc, driver, pool, limits, has_timers, start, ()).expect(rt, "memory")
}

/// Returns a driver that parks its thread, and whose clock always reads 0.
pub(crate) fn parking<R: Abort>(rt: &R, alloc: Global) -> ThreadDriver<ListClock> {
    let zero = Instant::from_nanos(0).expect(rt, "an instant");
    let clock = ListClock::new(vec![in alloc; zero].expect(rt, "memory"));
    ThreadDriver::new(alloc, clock).expect(rt, "memory")
}

/// Returns a runtime that parks its thread, with this pool and this limit of jobs.
pub(crate) fn sleeping<P: ThreadPool<Job = Gives> + Drop, R: Abort>(
    rt: &R,
    alloc: Global,
    pool: BlockingHandle<P>,
    jobs: u64,
) -> Sleeping<P>
    ensures { Rests result }
{
    let limits = Limits {
        tasks: 2,
        jobs,
        sleeps: 2,
    };
    a_runtime(rt, alloc, parking(rt, alloc), pool, limits, false)
}

/// Returns the future of a task.
pub(crate) fn main_task<R: Abort>(rt: &R, alloc: Global, task: Task) -> Turns {
    let shared = Shared {
        waker: Mutex::new(None),
        turns: AtomicU64::new(0),
    };
    Turns {
        task,
        seen: Vec::new(alloc),
        shared: Arc::new(alloc, shared).expect(rt, "memory"),
        flag: Arc::new(alloc, AtomicU64::new(0)).expect(rt, "memory"),
    }
}

/// Returns the answer of a main task with a budget of `units` turns. It has no clauses, so callers have none to carry.
pub(crate) fn answer_of<P: ThreadPool<Job = Gives> + Drop, R: Host>(
    rt: &R,
    alloc: Global,
    runtime: &mut Sleeping<P>,
    main: Turns,
    units: u64,
) -> Result<u64, RunError>
    requires { Rests runtime.old }
{
    runtime.block_on(rt, alloc, main, units)
}
