// A job that is made at the first poll.
ghost use Rattle.std.specs.Prelude.{◌≡◌, false};
ghost use Rattle.mono_model.specs.Poll.{OnPending, IfReady};
ghost use Rattle.mono_blocking.specs.Handles.{RunGives, Tells};
ghost use Rattle.mono_blocking.specs.Runs.{run_spent, told, Awaits, RunPolls, RunCancels};

use crate::contexts::JobContext;
use crate::jobs::{JobHandle, PollJob, SpawnError};
use mono_joinword::{JoinError, Outcome};
use mono_model::{Host, Poll};
use mono_task::TaskFuture;
use std::alloc::Global;
use std::mem;

/// Why a job gave no output.
#[derive(Drop)]
pub enum JobError<J> {
    /// It was not made.
    Spawn(SpawnError<J>),
    /// It was not asked.
    Poll(PollJob),
    /// It was let go before it was done.
    Canceled,
}

/// A job that is made at the first poll, and whose handle is dropped once it has answered.
#[derive(Drop)]
pub enum RunJob<J> {
    /// It was not polled.
    Fresh(J),
    /// The job was made.
    Waits(JobHandle),
    /// It has answered.
    Over,
}

/// Runs a job, which is made at the first poll. The future answers the job's output, or why there is none.
pub fn run_job<J>(job: J) -> RunJob<J>
    ensures { result ≡ RunJob.Fresh job }
{
    RunJob::Fresh(job)
}

// The answer of the handle as one of the form.
fn told<A: Drop, J>(answer: Result<Result<A, JoinError>, PollJob>) -> Result<A, JobError<J>>
    ensures { result ≡ told answer }
{
    match answer {
        Ok(Ok(output)) => Ok(output),
        Ok(Err(_)) => Err(JobError::Canceled),
        Err(error) => Err(JobError::Poll(error)),
    }
}

impl<J: Drop> RunJob<J> {
    // The handle is polled, and dropped if it answered.
    fn go_on<C: JobContext<Job = J>, R: Host>(
        &mut self,
        rt: &R,
        alloc: Global,
        cx: &mut C,
        handle: JobHandle,
    ) -> Poll<Result<C::JobOutput, JobError<J>>>
        ensures awaits { Awaits C.JobOutput.output_number C.number C.jobs C.is_out_of_memory C.work C.reaches handle cx.old result self.new cx.new }
        ensures again { OnPending result (run_spent self.new ≡ false) }
        ensures given { IfReady result (Tells C.JobOutput.output_number handle.job) }
        ensures stays { OnPending result (self.new ≡ RunJob.Waits handle) }
        ensures reached { C.reaches cx.old cx.new }
    {
        let mut handle = handle;
        match handle.poll(rt, alloc, cx) {
            Poll::Pending => {
                *self = RunJob::Waits(handle);
                Poll::Pending
            }
            Poll::Ready(answer) => {
                handle.cancel(cx);
                *self = RunJob::Over;
                Poll::Ready(told(answer))
            }
        }
    }
}

impl<J: Outcome + Drop, C: JobContext<Job = J>> TaskFuture<C> for RunJob<J> {
    type Output = Result<C::JobOutput, JobError<J>>;

    ghost is_spent = { run_spent };

    ghost polls = { RunPolls J.output_number C.JobOutput.output_number C.number C.jobs C.strategy C.refusals C.is_out_of_memory C.work C.reaches };

    // why the job was not made, or what its handle answers
    ghost gives = { RunGives J.output_number C.JobOutput.output_number };

    ghost cancels = { RunCancels C.JobOutput.output_number C.jobs C.work C.reaches };

    fn spent(&self) -> bool {
        match self {
            RunJob::Fresh(_) => false,
            RunJob::Waits(_) => false,
            RunJob::Over => true,
        }
    }

    fn poll<R: Host>(
        &mut self,
        rt: &R,
        alloc: Global,
        cx: &mut C,
    ) -> Poll<Result<C::JobOutput, JobError<J>>> {
        match mem::replace(self, RunJob::Over) {
            RunJob::Fresh(job) => match cx.spawn_blocking(rt, alloc, job) {
                Ok(handle) => self.go_on(rt, alloc, cx, handle),
                Err(error) => Poll::Ready(Err(JobError::Spawn(error))),
            },
            RunJob::Waits(handle) => self.go_on(rt, alloc, cx, handle),
            RunJob::Over => unreachable!(),
        }
    }

    fn cancel(self, cx: &mut C) {
        if let RunJob::Waits(handle) = self {
            handle.cancel(cx);
        }
    }
}
