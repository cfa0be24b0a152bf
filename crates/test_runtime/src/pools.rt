// A job on a worker of the crates' pool, which is a thread of its own.
use crate::cases::{Turn, is_turn, is_woken};
use crate::runs::{Sleeping, answer_of, main_task, sleeping};
use crate::turns::{Call, Gives, IDLE, NO_OUTPUT, PENDING, Task};
use mono_blocking::{BlockingHandle, DefaultThreadPool, ThreadSpawner};
use mono_model::Host;
use mono_rt::{Act, How, Journal, Query, Reply, TurnStep};
use std::alloc::Global;
use std::process::Abort;

const BLOCK: TurnStep = TurnStep::Act(Act::Block(4));

const END: TurnStep = TurnStep::Act(Act::JobEnd(0, How::Ran));

const POLL: TurnStep = TurnStep::Query(Query::Job(0));

const DROP: TurnStep = TurnStep::Act(Act::DropJob(0));

/// Makes a job and waits for its output. It sets the job's flag only after its poll was pending.
const ON_A_WAKE: Task = Task {
    calls: &[Call::Block(4), Call::Poll(0), Call::SetFlag],
    later: &[Call::Poll(0), Call::Drop(0)],
    answers: &[0, PENDING, 4, NO_OUTPUT],
    ..IDLE
};

/// The turn that ends with the wait.
const BEFORE: Turn = Turn {
    steps: &[BLOCK, POLL],
    replies: &[Reply::Job(0), Reply::Pending],
};

/// The turn after the wake.
const AFTER: Turn = Turn {
    steps: &[END, POLL, DROP],
    replies: &[
        Reply::Ended(Some(0)),
        Reply::Output(4),
        Reply::Dropped(None),
    ],
};

/// Returns whether the task waited, and took the output once it was woken.
fn tells_a_wake(journal: &Journal) -> bool {
    let last = journal.len();
    last >= 10
        && is_turn(journal, 2, &BEFORE)
        && is_woken(journal, last - 5)
        && is_turn(journal, last - 2, &AFTER)
}

/// Returns whether the runtime handed its pool back, which is then closed.
fn closes<R: Host>(rt: &R, runtime: Sleeping<DefaultThreadPool<Gives>>) -> bool {
    match runtime.into_pool() {
        Some(pool) => {
            pool.close(rt);
            true
        }
        None => false,
    }
}

/// Returns whether a pool of one worker runs the job of a task.
fn is_done<R: Host + Abort + Send + 'static>(
    rt: &R,
    alloc: Global,
    spawner: &mut ThreadSpawner,
) -> bool {
    let main = main_task(rt, alloc, ON_A_WAKE);
    let pool = DefaultThreadPool::new(rt, alloc, 1, spawner).expect(rt, "memory");
    let has_all = pool.workers() == 1;
    let mut runtime = sleeping(rt, alloc, BlockingHandle::Attached(pool), 4);
    let is_ready = matches!(answer_of(rt, alloc, &mut runtime, main, 1000), Ok(1));
    let is_told = tells_a_wake(runtime.journal());
    let is_closed = closes(rt, runtime);
    has_all && is_ready && is_told && is_closed
}

#[test]
fn a_worker_wakes_the_task_that_waits_for_its_job(rt: HostRuntime) {
    let mut spawner = ThreadSpawner::new(rt.alloc());
    assert!(rt; is_done(&rt, rt.alloc(), &mut spawner));
    spawner.join(&rt);
}
