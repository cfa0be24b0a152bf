// The handles of tasks and jobs, and jobs that are made at the first poll.
ghost use Rattle.mono_quiet.specs.Numbers.{same_tasks};
ghost use Rattle.mono_quiet.specs.Handles.{join_handle_makes_none, join_handle_left, run_left, run_makes_none};

use crate::futures::Quiet;
use mono_blocking::{JobContext, JobHandle, RunJob};
use mono_joinword::Outcome;
use mono_task::{JoinContext, JoinHandle};

impl<O: Drop, C: JoinContext<O>> Quiet<C> for JoinHandle<O> {
    ghost polls_make_none = { λ h c r g d q. join_handle_makes_none C.work C.tasks C.same_work h (C.number c) c d q.2 };

    ghost cancels_make_none = { λ h c d q. join_handle_left C.work C.tasks C.same_work h c d q.0 };
}

impl<C: JobContext> Quiet<C> for JobHandle {
    ghost polls_make_none = { λ h c r g d q. same_tasks C.work c d q.2 };

    ghost cancels_make_none = { λ h c d q. same_tasks C.work c d q.2 };
}

impl<J: Outcome + Drop, C: JobContext<Job = J>> Quiet<C> for RunJob<J> {
    ghost polls_make_none = { run_makes_none C.JobOutput.output_number C.jobs C.work C.reaches C.number C.is_out_of_memory J.output_number C.strategy C.refusals };

    ghost cancels_make_none = { run_left C.JobOutput.output_number C.jobs C.work C.reaches };
}
