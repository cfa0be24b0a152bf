// The handle of a job as a future.
ghost use Rattle.std.specs.Prelude.{◌≡◌, false};
ghost use Rattle.mono_model.specs.Poll.{call_of};
ghost use Rattle.mono_blocking.specs.Calls.{PollsOutput, DropsHandle, Finds};
ghost use Rattle.mono_blocking.specs.Handles.{JobGives};

use crate::contexts::JobContext;
use crate::jobs::{JobHandle, PollJob};
use mono_joinword::JoinError;
use mono_machine::Refusal;
use mono_model::{Host, Poll};
use mono_task::TaskFuture;
use std::alloc::Global;

impl JobHandle {
    /// Returns whether the job has ended. Refused as `NoTask`, and then as `NoHandle`.
    pub fn is_finished<C: JobContext>(&self, cx: &mut C) -> Result<bool, Refusal>
        ensures found { Finds self.now.job result (C.jobs cx.old) }
        ensures jobs { C.jobs cx.new ≡ C.jobs cx.old }
        ensures reached { C.reaches cx.old cx.new }
    {
        cx.job_finished(self.job())
    }

    /// Gives the handle up, and returns an output that nobody took. A job that runs is not stopped.
    ///
    /// Refused as `NoTask`, and then as `NoHandle` (`dropped`).
    pub fn cancel_join<C: JobContext>(
        self,
        cx: &mut C,
    ) -> Result<Option<Result<C::JobOutput, JoinError>>, Refusal>
        ensures dropped { DropsHandle C.JobOutput.output_number self.job result (C.jobs cx.old) (C.jobs cx.new) }
        ensures work { C.work cx.new ≡ C.work cx.old }
        ensures reached { C.reaches cx.old cx.new }
    {
        cx.drop_job(self.job())
    }
}

/// A handle answers the output of its job, that the job was cancelled, or why it was refused. It is never spent: a poll
/// after the output was taken answers `Taken`.
impl<C: JobContext> TaskFuture<C> for JobHandle {
    type Output = Result<Result<C::JobOutput, JoinError>, PollJob>;

    ghost is_spent = { λ h. false };

    // the answer and the jobs are those of a poll by the running task, and the handle stays
    ghost polls = { λ h c r g d. (g ≡ h) × PollsOutput C.JobOutput.output_number (C.number c) h.job (call_of r) (C.jobs c) (C.jobs d) (C.is_out_of_memory d) × (C.work d ≡ C.work c) × C.reaches c d };

    // what a poll of the job may answer among some jobs
    ghost gives = { λ h. JobGives C.JobOutput.output_number h.job };

    // the handle is dropped
    ghost cancels = { λ h c d. (r : _) × DropsHandle C.JobOutput.output_number h.job r (C.jobs c) (C.jobs d) × (C.work d ≡ C.work c) × C.reaches c d };

    fn spent(&self) -> bool {
        false
    }

    fn poll<R: Host>(
        &mut self,
        _rt: &R,
        _alloc: Global,
        cx: &mut C,
    ) -> Poll<Result<Result<C::JobOutput, JoinError>, PollJob>> {
        match cx.poll_job(self.job()) {
            Ok(Poll::Ready(output)) => Poll::Ready(Ok(output)),
            Ok(Poll::Pending) => Poll::Pending,
            Err(error) => Poll::Ready(Err(error)),
        }
    }

    fn cancel(self, cx: &mut C) {
        let _ = self.cancel_join(cx);
    }
}
