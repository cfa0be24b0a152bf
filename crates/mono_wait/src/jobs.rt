// The sources of a blocking job's handle, and of a job that is made at the first poll.
ghost use Rattle.mono_wait.specs.Frames.{frame_of};
ghost use Rattle.mono_wait.specs.Jobs.{JobNeeds, jobs_cover, RunNeeds, run_left, run_reached, runs_cover};

use crate::waits::{JobWaitContext, Waits};
use mono_blocking::{JobHandle, Outcome, RunJob};

// It needs the end of its job.
impl<C: JobWaitContext> Waits<C> for JobHandle {
    ghost needs = { JobNeeds };

    ghost polls_reach = { λ h c r g d p. p.3 };

    ghost cancels_reach = { λ h c d p. p.3 };

    ghost covers = { λ h c g d p. rw p.0 (jobs_cover (frame_of C.number C.work C.reaches C.watcher C.reaches_itself C.reaches_on) C.JobOutput.output_number C.jobs C.is_out_of_memory C.same_number C.watches_jobs h c d p.1 p.3) };
}

// It needs the end of its job, once it is made.
impl<J: Outcome + Drop, C: JobWaitContext<Job = J>> Waits<C> for RunJob<J> {
    ghost needs = { RunNeeds };

    ghost polls_reach = { run_reached (frame_of C.number C.work C.reaches C.watcher C.reaches_itself C.reaches_on) C.JobOutput.output_number C.jobs C.is_out_of_memory J.output_number C.strategy C.refusals };

    ghost cancels_reach = { run_left (frame_of C.number C.work C.reaches C.watcher C.reaches_itself C.reaches_on) C.JobOutput.output_number C.jobs };

    ghost covers = { runs_cover (frame_of C.number C.work C.reaches C.watcher C.reaches_itself C.reaches_on) C.JobOutput.output_number C.jobs C.is_out_of_memory C.same_number C.watches_jobs J.output_number C.strategy C.refusals };
}
