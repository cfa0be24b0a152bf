// A task and its joiner: each public function on its happy path, and the effect of a drop.
use mono_blocking::*;
use mono_inbox::{Inbox, NoUnpark, RemoteWaker};
use mono_model::{Host, Poll};
use std::alloc::Global;
use std::process::Abort;

/// A job that returns its number.
#[derive(Drop)]
pub(crate) struct Gives(pub(crate) u64);

impl Outcome for Gives {
    ghost output_number = { λ job. job.0 };

    fn number(&self) -> u64 {
        self.0
    }
}

impl Job for Gives {
    type Output = u64;

    type Unpark = NoUnpark;

    fn run(self) -> u64 {
        self.0
    }
}

/// Returns a waker of this task of an inbox of its own, for a joiner.
pub(crate) fn waker<R: Host + Abort>(rt: &R, alloc: Global, task: u64) -> JobWaker<NoUnpark> {
    let inbox = Inbox::new(alloc, 1, NoUnpark).expect(rt, "memory");
    JobWaker::new(inbox.waker(rt, alloc, task).expect(rt, "memory"))
}

/// A task, its joiner, which waits with a waker, and another waker of the same task.
type Awaited = (BlockingTask<Gives>, JobJoiner<Gives>, RemoteWaker<NoUnpark>);

fn awaited<R: Host + Abort>(rt: &R, alloc: Global) -> Awaited {
    let inbox = Inbox::new(alloc, 1, NoUnpark).expect(rt, "memory");
    let waker = inbox.waker(rt, alloc, 3).expect(rt, "memory");
    let other = waker.clone().expect(rt, "memory");
    let made = BlockingTask::new(alloc, Gives(4)).ok();
    let (task, mut joiner) = made.expect(rt, "memory");
    assert!(rt; joiner.poll(JobWaker::new(waker)).is_pending());
    (task, joiner, other)
}

/// Polls the joiner, and asserts this answer.
pub(crate) fn ends<R: Abort>(
    rt: &R,
    mut joiner: JobJoiner<Gives>,
    waker: JobWaker<NoUnpark>,
    output: Result<u64, JoinError>,
) {
    assert!(rt; !joiner.is_taken());
    assert!(rt; joiner.poll(waker) == Poll::Ready(output));
}

/// Asserts that the end of a job woke its joiner's task or not, and has this answer.
fn ends_waking<R: Host + Abort>(
    rt: &R,
    joiner: JobJoiner<Gives>,
    other: RemoteWaker<NoUnpark>,
    was_woken: bool,
    output: Result<u64, JoinError>,
) {
    assert!(rt; other.wake(rt) != was_woken);
    ends(rt, joiner, JobWaker::new(other), output);
}

#[test]
fn a_run_ends_the_word_and_wakes(rt: HostRuntime) {
    let (task, joiner, other) = awaited(&rt, rt.alloc());
    drop(task.run(&rt));
    ends_waking(&rt, joiner, other, true, Ok(4));
}

#[test]
fn a_cancel_hands_the_job_back_and_wakes(rt: HostRuntime) {
    let (task, joiner, other) = awaited(&rt, rt.alloc());
    let (job, _spent) = task.cancel(&rt);
    assert!(rt; job.0 == 4);
    ends_waking(&rt, joiner, other, true, Err(JoinError::Canceled));
}

#[test]
fn a_dropped_task_ends_canceled_and_wakes_nobody(rt: HostRuntime) {
    let (task, joiner, other) = awaited(&rt, rt.alloc());
    drop(task);
    ends_waking(&rt, joiner, other, false, Err(JoinError::Canceled));
}
