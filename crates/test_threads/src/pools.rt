// Pools: without workers, with two, with a spawner of its own, and with a spawner that refuses.
ghost use Rattle.std.specs.Prelude.{◌≡◌, ◌<◌, IfNone, IfSome};
ghost use Rattle.std.specs.Vec.{vec_len, vec_capacity};
ghost use Rattle.mono_blocking.specs.Counts.{counted_by};

use crate::jobs::{Gives, ends, waker};
use crate::keeps::pool_refusing;
use mono_blocking::*;
use mono_inbox::NoUnpark;
use mono_model::{Host, Poll};
use std::alloc::Global;
use std::process::Abort;
use std::sync::Arc;
use std::sync::atomic::{AtomicU64, Ordering};
use std::thread;
use std::thread::JoinHandle;
use std::time::Duration;

/// Returns a task whose output is 4, and its joiner.
fn gives_four<R: Abort>(rt: &R, alloc: Global) -> (BlockingTask<Gives>, JobJoiner<Gives>) {
    let made = BlockingTask::new(alloc, Gives(4));
    made.ok().expect(rt, "memory")
}

#[test]
fn a_pool_without_workers_runs_on_the_caller(rt: HostRuntime) {
    let alloc = rt.alloc();
    let mut spawner = NoSpawner::new();
    let mut pool = DefaultThreadPool::new(&rt, alloc, 2, &mut spawner).expect(&rt, "memory");
    let (task, joiner) = gives_four(&rt, alloc);
    assert!(rt; pool.workers() == 0);
    assert!(rt; pool.schedule_task(&rt, alloc, task).is_ok());
    ends(&rt, joiner, waker(&rt, alloc, 0), Ok(4));
    pool.close(&rt);
}

/// A job: the first reads a flag until it is set, and each other job adds one to it.
#[derive(Drop)]
struct Meets {
    number: u64,
    flag: Arc<AtomicU64, Global>,
}

impl Outcome for Meets {
    ghost output_number = { λ job. job.number };

    fn number(&self) -> u64 {
        self.number
    }
}

/// Reads the flag until it counts `count`. A pool that never sets it hangs the test.
fn looks(flag: &AtomicU64, count: u64) {
    for _ in 0..u64::MAX {
        if flag.load(Ordering::SeqCst) >= count {
            return;
        }
    }
}

impl Job for Meets {
    type Output = u64;

    type Unpark = NoUnpark;

    fn run(self) -> u64 {
        if self.number == 1 {
            looks(&self.flag, 1);
        } else {
            self.flag.fetch_add(1, Ordering::SeqCst);
        }
        self.number
    }
}

/// The step between the last job and the close of the pool.
enum Between {
    Nothing,
    /// The flag is set.
    Sets,
    /// The flag is read until it is set.
    Looks,
}

/// A use of a pool: how many workers get, after how many milliseconds, how many jobs, which are numbered from here on.
struct Plan {
    workers: usize,
    after: u64,
    first: u64,
    jobs: u64,
    between: Between,
}

/// Gives the pool the jobs of the plan, and returns their joiners.
fn give_all<R: Host + Abort>(
    rt: &R,
    alloc: Global,
    pool: &mut DefaultThreadPool<Meets>,
    flag: &Arc<AtomicU64, Global>,
    plan: &Plan,
) -> Vec<JobJoiner<Meets>> {
    let mut joiners = Vec::new(alloc);
    for job in 0..plan.jobs {
        let number = plan.first.wrapping_add(job);
        let flag = Arc::try_clone(flag).expect(rt, "memory");
        let made = BlockingTask::new(alloc, Meets { number, flag }).ok();
        let (task, joiner) = made.expect(rt, "memory");
        assert!(rt; pool.schedule_task(rt, alloc, task).is_ok());
        joiners.push(joiner).expect(rt, "memory");
    }
    joiners
}

/// Makes a pool by the spawner, uses it as planned and closes it.
fn use_pool<R: Host + Abort + Send + 'static, P: Spawner>(
    rt: &R,
    alloc: Global,
    spawner: &mut P,
    flag: &Arc<AtomicU64, Global>,
    plan: &Plan,
) -> Vec<JobJoiner<Meets>> {
    let mut pool = DefaultThreadPool::new(rt, alloc, plan.workers, spawner).expect(rt, "memory");
    assert!(rt; pool.workers() == plan.workers);
    thread::sleep(rt, Duration::from_millis(plan.after));
    let joiners = give_all(rt, alloc, &mut pool, flag, plan);
    match plan.between {
        Between::Nothing => {}
        Between::Sets => {
            flag.fetch_add(1, Ordering::SeqCst);
        }
        Between::Looks => looks(flag, 1),
    }
    pool.close(rt);
    joiners
}

/// Returns how many jobs are done, each with its own number, from the first one on.
fn count_met<R: Host + Abort>(
    rt: &R,
    alloc: Global,
    joiners: Vec<JobJoiner<Meets>>,
    first: u64,
) -> u64 {
    let mut number = first;
    for joiner in joiners {
        ends(rt, joiner, waker(rt, alloc, 0), Ok(number));
        number = number.wrapping_add(1);
    }
    number.wrapping_sub(first)
}

/// Returns how many jobs of the plan the workers have run when the pool was closed.
fn run_by<R: Host + Abort + Send + 'static>(rt: &R, alloc: Global, plan: &Plan) -> u64 {
    let flag = Arc::new(alloc, AtomicU64::new(0)).expect(rt, "memory");
    let mut spawner = ThreadSpawner::new(alloc);
    let joiners = use_pool(rt, alloc, &mut spawner, &flag, plan);
    spawner.join(rt);
    count_met(rt, alloc, joiners, plan.first)
}

/// Uses a pool as each plan says, and asserts that the workers have run all its jobs.
fn run_all_by<R: Host + Abort + Send + 'static>(rt: &R, alloc: Global, plans: &[Plan]) {
    for plan in plans {
        assert!(rt; run_by(rt, alloc, plan) == plan.jobs);
    }
}

/// How long the workers have to begin to wait, in milliseconds.
const A_WHILE: u64 = 50;

const PLANS: [Plan; 8] = [
    // two workers run two jobs at once; the first reads the flag and the second sets it
    Plan {
        workers: 2,
        after: 0,
        first: 1,
        jobs: 2,
        between: Between::Nothing,
    },
    // one worker runs five jobs, and eight run thirty-two
    Plan {
        workers: 1,
        after: 0,
        first: 2,
        jobs: 5,
        between: Between::Nothing,
    },
    Plan {
        workers: 8,
        after: 0,
        first: 2,
        jobs: 32,
        between: Between::Nothing,
    },
    // the close ends workers that wait
    Plan {
        workers: 3,
        after: A_WHILE,
        first: 2,
        jobs: 0,
        between: Between::Nothing,
    },
    // a waiting worker is notified of a job
    Plan {
        workers: 1,
        after: A_WHILE,
        first: 2,
        jobs: 1,
        between: Between::Looks,
    },
    // two waiting workers are both notified, before the close: the first job reads the flag, and the second sets it
    Plan {
        workers: 2,
        after: A_WHILE,
        first: 1,
        jobs: 2,
        between: Between::Looks,
    },
    // a worker that has waited long is still there
    Plan {
        workers: 1,
        after: 4000,
        first: 2,
        jobs: 1,
        between: Between::Looks,
    },
    // one worker leaves the caller free, and the caller sets the flag that the job reads
    Plan {
        workers: 1,
        after: 0,
        first: 1,
        jobs: 1,
        between: Between::Sets,
    },
];

#[test]
fn workers_run_all(rt: HostRuntime) {
    run_all_by(&rt, rt.alloc(), &PLANS);
}

/// A job that sets the flag.
#[derive(Drop)]
struct Sets(Arc<AtomicU64, Global>);

impl Entry for Sets {
    fn enter(self) {
        self.0.fetch_add(1, Ordering::SeqCst);
    }
}

/// A spawner of threads that set a flag before they run their worker.
#[derive(Drop)]
struct SetsFirst {
    inner: ThreadSpawner,
    flag: Arc<AtomicU64, Global>,
}

impl Spawner for SetsFirst {
    type Entry = Sets;

    ghost starts = { λ spawner. spawner.inner.asked.starts };

    ghost refusals = { λ spawner. spawner.inner.asked.refusals };

    ghost can_keep = { λ spawner. vec_len spawner.inner.threads < vec_capacity spawner.inner.threads };

    fn admit(&mut self) -> Option<Sets>
        ensures starts { self.new.inner.asked.starts ≡ counted_by 1 self.old.inner.asked.starts }
        ensures admitted { IfSome result (λ _. (vec_len self.new.inner.threads < vec_capacity self.new.inner.threads) × (self.new.inner.asked.refusals ≡ self.old.inner.asked.refusals)) }
        ensures refused { IfNone result (self.new.inner.asked.refusals ≡ counted_by 1 self.old.inner.asked.refusals) }
    {
        self.inner.admit()?;
        match Arc::try_clone(&self.flag) {
            Ok(flag) => Some(Sets(flag)),
            Err(_) => {
                self.inner.refuse();
                None
            }
        }
    }

    fn keep(&mut self, thread: JoinHandle<()>)
        requires { vec_len self.old.inner.threads < vec_capacity self.old.inner.threads }
        ensures starts { self.new.inner.asked.starts ≡ self.old.inner.asked.starts }
        ensures refusals { self.new.inner.asked.refusals ≡ self.old.inner.asked.refusals }
    {
        self.inner.keep(thread);
    }

    fn refuse(&mut self)
        ensures starts { self.new.inner.asked.starts ≡ self.old.inner.asked.starts }
        ensures refusals { self.new.inner.asked.refusals ≡ counted_by 1 self.old.inner.asked.refusals }
    {
        self.inner.refuse();
    }
}

/// The job reads the flag, which its thread has set.
const ENTERED: Plan = Plan {
    workers: 1,
    after: 0,
    first: 1,
    jobs: 1,
    between: Between::Nothing,
};

#[test]
fn a_thread_enters_before_its_worker(rt: HostRuntime) {
    let alloc = rt.alloc();
    let flag = Arc::new(alloc, AtomicU64::new(0)).expect(&rt, "memory");
    let mut spawner = SetsFirst {
        inner: ThreadSpawner::new(alloc),
        flag: Arc::try_clone(&flag).expect(&rt, "memory"),
    };
    let joiners = use_pool(&rt, alloc, &mut spawner, &flag, &ENTERED);
    let SetsFirst { inner, flag: _flag } = spawner;
    inner.join(&rt);
    assert!(rt; count_met(&rt, alloc, joiners, 1) == 1);
}

/// How many jobs are handed over one by one: enough to catch a wake that is lost now and then.
const HANDED: u64 = 100_000;

/// Hands jobs to the pool one by one, each once the last one has run. A lost wake hangs the test.
fn hand_over<R: Host + Abort>(
    rt: &R,
    alloc: Global,
    pool: &mut DefaultThreadPool<Meets>,
    flag: &Arc<AtomicU64, Global>,
) {
    for job in 0..HANDED {
        let theirs = Arc::try_clone(flag).expect(rt, "memory");
        let made = BlockingTask::new(
            alloc,
            Meets {
                number: 2,
                flag: theirs,
            },
        );
        let (task, _joiner) = made.ok().expect(rt, "memory");
        assert!(rt; pool.schedule_task(rt, alloc, task).is_ok());
        looks(flag, job.wrapping_add(1));
    }
}

#[test]
fn each_job_wakes_a_worker_that_waits(rt: HostRuntime) {
    let alloc = rt.alloc();
    let flag = Arc::new(alloc, AtomicU64::new(0)).expect(&rt, "memory");
    let mut spawner = ThreadSpawner::new(alloc);
    let mut pool = DefaultThreadPool::new(&rt, alloc, 1, &mut spawner).expect(&rt, "memory");
    hand_over(&rt, alloc, &mut pool, &flag);
    pool.close(&rt);
    spawner.join(&rt);
}

/// How many pools are dropped, to catch an end that is lost now and then.
const DROPPED: u64 = 300;

/// Drops a pool of three workers, which run a job or none. A worker that waits for ever hangs the test.
fn drop_pool<R: Host + Abort + Send + 'static>(rt: &R, alloc: Global, has_job: bool) {
    let mut spawner = ThreadSpawner::new(alloc);
    let mut pool = DefaultThreadPool::new(rt, alloc, 3, &mut spawner).expect(rt, "memory");
    let (task, joiner) = gives_four(rt, alloc);
    if has_job {
        assert!(rt; pool.schedule_task(rt, alloc, task).is_ok());
    } else {
        drop(task);
    }
    drop(pool);
    spawner.join(rt);
    let output = if has_job {
        Ok(4)
    } else {
        Err(JoinError::Canceled)
    };
    ends(rt, joiner, waker(rt, alloc, 0), output);
}

#[test]
fn a_dropped_pool_ends_its_workers(rt: HostRuntime) {
    for round in 0..DROPPED {
        drop_pool(&rt, rt.alloc(), round % 2 == 1);
    }
}

/// Gives the spawner a thread that adds one to a count after some milliseconds.
fn keep_late<R: Host + Abort + Copy + Send + 'static>(
    rt: R,
    spawner: &mut ThreadSpawner,
    ended: &Arc<AtomicU64, Global>,
    after: u64,
) {
    let theirs = Arc::try_clone(ended).expect(&rt, "memory");
    let thread = thread::spawn(&rt, move || {
        thread::sleep(&rt, Duration::from_millis(after));
        theirs.fetch_add(1, Ordering::SeqCst);
    });
    assert!(rt; spawner.admit().is_some());
    spawner.keep(thread.ok().expect(&rt, "a thread"));
}

#[test]
fn a_spawner_joins_each_thread(rt: HostRuntime) {
    let alloc = rt.alloc();
    let ended = Arc::new(alloc, AtomicU64::new(0)).expect(&rt, "memory");
    let mut spawner = ThreadSpawner::new(alloc);
    keep_late(rt, &mut spawner, &ended, 0);
    keep_late(rt, &mut spawner, &ended, 1000);
    spawner.join(&rt);
    assert!(rt; ended.load(Ordering::SeqCst) == 2);
}

#[test]
fn a_refused_task_comes_back(rt: HostRuntime) {
    let alloc = rt.alloc();
    let (mut pool, _waiting) = pool_refusing(&rt, alloc, 0);
    let (task, joiner) = gives_four(&rt, alloc);
    let Err(ScheduleError::Refused(task)) = pool.schedule_task(&rt, alloc, task) else {
        panic!(rt; "the pool took the task")
    };
    let (job, _spent) = task.cancel(&rt);
    assert!(rt; pool.refusals == 1 && job.0 == 4);
    ends(&rt, joiner, waker(&rt, alloc, 0), Err(JoinError::Canceled));
}
