// Jobs on a pool of the tests: each call on its happy path, and a refusal by the pool.
use crate::jobs::{Gives, waker};
use crate::keeps::{Keeps, Waiting, pool_refusing, run_all};
use mono_blocking::{BlockingHandle, JoinError, *};
use mono_machine::{How, Refusal, Reply};
use mono_model::{Host, Poll};
use std::alloc::Global;
use std::process::Abort;

/// One call on the jobs.
#[derive(Clone, Copy)]
enum Call {
    /// Makes a job with this output.
    Spawn(u64),
    /// Asks whether the job has ended.
    HasEnded(u64),
    /// Polls the job for this task.
    Poll(u64, u64),
    /// Drops the job's handle.
    Drop(u64),
    /// Runs all waiting tasks.
    RunAll,
}

/// A call, its expected answer, and the end of a job that it must see.
type Row = (Call, Reply, Option<End>);

/// The end of a job that was run, and for which no task waited.
const RAN: Option<End> = Some(End {
    how: How::Ran,
    waiter: None,
});

/// The end of a job that was run, and for which task 7 waited.
const RAN_FOR_SEVEN: Option<End> = Some(End {
    how: How::Ran,
    waiter: Some(7),
});

/// Returns the answer of a spawn: `Canceled` if the pool refused the job. A refused job must have this output, and any
/// other answer is `Pending`, which no test expects.
fn spawned(answer: Result<JobHandle, SpawnError<Gives>>, output: u64) -> Reply {
    match answer {
        Ok(handle) => Reply::Job(handle.job()),
        Err(SpawnError::AtCapacity(job)) if job.0 == output => Reply::Refused(Refusal::AtCapacity),
        Err(SpawnError::NoPool(job)) if job.0 == output => Reply::Refused(Refusal::NoPool),
        Err(SpawnError::PoolFault) => Reply::Canceled,
        Err(_) => Reply::Pending,
    }
}

/// Returns the answer to the question whether a job has ended.
fn asked(answer: Result<bool, Refusal>) -> Reply {
    match answer {
        Ok(true) => Reply::Yes,
        Ok(false) => Reply::No,
        Err(refusal) => Reply::Refused(refusal),
    }
}

/// Returns the answer of a poll.
fn polled(answer: Result<Poll<Result<u64, JoinError>>, Refusal>) -> Reply {
    match answer {
        Ok(Poll::Pending) => Reply::Pending,
        Ok(Poll::Ready(Ok(output))) => Reply::Output(output),
        Ok(Poll::Ready(Err(JoinError::Canceled))) => Reply::Canceled,
        Err(refusal) => Reply::Refused(refusal),
    }
}

/// Returns the answer of the drop of a handle.
fn dropped(answer: Result<Option<Result<u64, JoinError>>, Refusal>) -> Reply {
    match answer {
        Ok(Some(Ok(output))) => Reply::Dropped(Some(output)),
        Ok(Some(Err(JoinError::Canceled))) => Reply::Canceled,
        Ok(None) => Reply::Dropped(None),
        Err(refusal) => Reply::Refused(refusal),
    }
}

/// Makes one call, and returns its answer and the end that it saw.
fn answer<R: Host + Abort>(
    rt: &R,
    alloc: Global,
    jobs: &mut Blockings<Keeps>,
    waiting: &Waiting,
    call: Call,
) -> (Reply, Option<End>) {
    match call {
        Call::Spawn(output) => {
            let answer = jobs.spawn(rt, alloc, Gives(output));
            (spawned(answer, output), None)
        }
        Call::HasEnded(job) => (asked(jobs.has_ended(job)), None),
        Call::Poll(job, task) => {
            let seen = jobs.poll(job, waker(rt, alloc, task));
            (polled(seen.answer), seen.end)
        }
        Call::Drop(job) => {
            let seen = jobs.drop_handle(job);
            (dropped(seen.answer), seen.end)
        }
        Call::RunAll => {
            run_all(rt, waiting, MANY);
            (Reply::Ready, None)
        }
    }
}

/// Makes the calls in turn, and asserts their answers.
fn all_answer<R: Host + Abort>(
    rt: &R,
    alloc: Global,
    jobs: &mut Blockings<Keeps>,
    waiting: &Waiting,
    rows: &[Row],
) {
    for row in rows {
        let (reply, end) = answer(rt, alloc, jobs, waiting, row.0);
        assert!(rt; reply == row.1 && end == row.2);
    }
}

/// Makes the calls on new jobs with this limit, by a strategy, and returns the pool, if there is one.
fn all_answer_by<R: Host + Abort>(
    rt: &R,
    alloc: Global,
    strategy: BlockingHandle<Keeps>,
    limit: u64,
    waiting: &Waiting,
    rows: &[Row],
) -> Option<Keeps> {
    let mut jobs = Blockings::new(alloc, strategy, limit);
    all_answer(rt, alloc, &mut jobs, waiting, rows);
    jobs.into_pool()
}

/// More jobs than a table makes room for at first.
const MANY: u64 = 300;

// A refused task makes no job.
const ONE_REFUSED: [Row; 5] = [
    (Call::Spawn(4), Reply::Job(0), None),
    (Call::Spawn(5), Reply::Canceled, None),
    (Call::HasEnded(1), Reply::Refused(Refusal::NoTask), None),
    (Call::HasEnded(0), Reply::No, None),
    (Call::Spawn(6), Reply::Job(1), None),
];

// A poll and a drop see the end.
const SEEN_BY_EACH: [Row; 7] = [
    (Call::Spawn(4), Reply::Job(0), None),
    (Call::Spawn(5), Reply::Job(1), None),
    (Call::Spawn(6), Reply::Job(2), None),
    (Call::Drop(2), Reply::Dropped(None), None),
    (Call::RunAll, Reply::Ready, None),
    (Call::Poll(0, 7), Reply::Output(4), RAN),
    (Call::Drop(1), Reply::Dropped(Some(5)), RAN),
];

/// The task that a pool refuses, counted from 0, if any, and the calls; how often it refused, and how many tasks then
/// wait in it.
const ON_A_POOL: [(u64, &[Row], u64, usize); 2] = [
    (1, &ONE_REFUSED, 1, 2),
    (u64::MAX, &SEEN_BY_EACH, 0, 0),
];

/// Makes the calls on new jobs on such a pool, and returns how often it refused, and how many tasks then wait in it.
fn all_answer_on_a_pool<R: Host + Abort>(
    rt: &R,
    alloc: Global,
    refused: u64,
    rows: &[Row],
) -> (u64, usize) {
    let (pool, waiting) = pool_refusing(rt, alloc, refused);
    let pool = BlockingHandle::Attached(pool);
    let pool = all_answer_by(rt, alloc, pool, 3, &waiting, rows).expect(rt, "a pool");
    (pool.refusals, waiting.lock(rt).len())
}

#[test]
fn jobs_on_a_pool(rt: HostRuntime) {
    for (refused, rows, refusals, waiting) in ON_A_POOL {
        let told = all_answer_on_a_pool(&rt, rt.alloc(), refused, rows);
        assert!(rt; told.0 == refusals && told.1 == waiting);
    }
}

/// Returns jobs on a pool that refuses none of their tasks, and its waiting tasks.
fn jobs_on<R: Abort>(rt: &R, alloc: Global, limit: u64) -> (Blockings<Keeps>, Waiting) {
    let (pool, waiting) = pool_refusing(rt, alloc, u64::MAX);
    let jobs = Blockings::new(alloc, BlockingHandle::Attached(pool), limit);
    (jobs, waiting)
}

/// Returns the calls on a job before it ran and after it: its end is seen once, with its waiter, and the drop after it
/// sees none.
fn rows_of(number: u64) -> ([Row; 2], [Row; 4]) {
    let before = [
        (Call::Poll(number, 7), Reply::Pending, None),
        (Call::HasEnded(number), Reply::No, None),
    ];
    let after = [
        (Call::HasEnded(number), Reply::Yes, None),
        (Call::HasEnded(number), Reply::Yes, None),
        (Call::Poll(number, 8), Reply::Output(number), RAN_FOR_SEVEN),
        (Call::Drop(number), Reply::Dropped(None), None),
    ];
    (before, after)
}

/// Makes all jobs, polls each of them, runs them, and polls them again.
fn ends_are_seen_once<R: Host + Abort>(
    rt: &R,
    alloc: Global,
    jobs: &mut Blockings<Keeps>,
    waiting: &Waiting,
) {
    for number in 0..MANY {
        let row = (Call::Spawn(number), Reply::Job(number), None);
        all_answer(rt, alloc, jobs, waiting, &[row]);
    }
    for number in 0..MANY {
        all_answer(rt, alloc, jobs, waiting, &rows_of(number).0);
    }
    run_all(rt, waiting, MANY);
    for number in 0..MANY {
        all_answer(rt, alloc, jobs, waiting, &rows_of(number).1);
    }
}

#[test]
fn an_end_is_seen_once(rt: HostRuntime) {
    let (mut jobs, waiting) = jobs_on(&rt, rt.alloc(), MANY);
    ends_are_seen_once(&rt, rt.alloc(), &mut jobs, &waiting);
}
