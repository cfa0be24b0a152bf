// The calls of a running task on blocking jobs.
ghost use Rattle.std.specs.Prelude.{◌≡◌, true, refl, None, Err, IfOk};
ghost use Rattle.mono_rt.specs.JobActs.{SpawnsJob, PollsJob, DropsJob, AsksWhetherEnded};
ghost use Rattle.mono_rt.specs.Reaches.{ReachesSharing};
ghost use Rattle.mono_machine.specs.JobCalls.{poll_answer};
ghost use Rattle.mono_blocking.specs.JobSpawns.{strategy_of, refusals_of};
ghost use Rattle.mono_blocking.specs.JobAnswers.{refusal_in};
ghost use Rattle.mono_blocking.specs.declared.jobs.refusals.PollJob.TheVariants.{Memory};
ghost use Rattle.mono_rt.specs.Views.{OnParts, ChangesParts};

use crate::contexts::Cx;
use mono_blocking::{
    Job, JobContext, JobHandle, JobWaker, OutputOf, PollJob, RemoteContext, SpawnError, ThreadPool,
};
use mono_inbox::{RemoteWaker, Unpark};
use mono_joinword::{JoinError, Outcome};
use mono_machine::Refusal;
use mono_model::{Host, Poll};
use mono_task::SharedState;
use std::alloc::{AllocError, Global};

impl<F: Drop, O: Outcome + Drop, P: ThreadPool + Drop, U: Unpark, W: SharedState + Drop> Cx<
    F,
    O,
    P,
    U,
    W,
> {
    /// Hands a job to the pool, or runs it in this call if no pool is attached and the strategy is to run jobs on the
    /// caller. The output of such a job waits in the table of jobs. The handle has the next job number.
    ///
    /// Refused as at capacity, and then if there is no pool. The job is handed back, and the refusal is an act of the
    /// turn, as a job made is (`spawned`). If it runs out of memory, the job is handed back and nothing was done. A
    /// pool that counts a refusal gives `PoolFault`: the job was cancelled, and nothing else was done.
    ///
    /// ```rust
    /// // mono_run/src/tasks.rt
    /// match cx.spawn_blocking(rt, alloc, ScriptJob::new(output)) {
    ///     Ok(handle) => Some(handle.job()),
    ///     Err(_) => None,
    /// }
    /// ```
    pub fn spawn_blocking<R: Host>(
        &mut self,
        rt: &R,
        alloc: Global,
        job: P::Job,
    ) -> Result<JobHandle, SpawnError<P::Job>>
        ensures spawned { OnParts (SpawnsJob P.Job.output_number P.refusals job result) self.old self.new }
        ensures same { ChangesParts self.old self.new }
        ensures reached { ReachesSharing O.output_number W.SharedState self.old self.new }
    {
        self.parts.spawn_blocking(rt, alloc, job)
    }

    /// Drops the handle of a job, and returns an output that was not taken. Refused as `NoTask`, and then as
    /// `NoHandle`. The drop is an act of the turn. If this call is the first to see the job's end, the end is an act
    /// right before it (`dropped`).
    pub fn drop_job(&mut self, job: u64) -> Result<Option<Result<OutputOf<P>, JoinError>>, Refusal>
        ensures dropped { OnParts (DropsJob P.Job.Output.output_number job result) self.old self.new }
        ensures same { ChangesParts self.old self.new }
        ensures reached { ReachesSharing O.output_number W.SharedState self.old self.new }
    {
        self.parts.drop_job(job)
    }

    /// Returns whether a job has ended. Refused as `NoTask`, and then as `NoHandle`. It is a question: the turn records
    /// none of it. If it saw the end, the next poll or drop records that (`asked`).
    pub fn job_finished(&mut self, job: u64) -> Result<bool, Refusal>
        ensures asked { OnParts (AsksWhetherEnded job result) self.old self.new }
        ensures same { ChangesParts self.old self.new }
        ensures reached { ReachesSharing O.output_number W.SharedState self.old self.new }
    {
        self.parts.has_job_ended(job)
    }

    // Returns a waker of the task whose turn runs.
    fn own_waker(&self) -> Result<RemoteWaker<U>, AllocError>
        ensures { IfOk result (λ waker. waker ≡ self.now.parts.me) }
    {
        match &self.waker {
            Some(waker) if waker.task() == self.parts.me => waker.clone(),
            _ => Err(AllocError),
        }
    }
}

impl<F: Drop, O: Outcome + Drop, P: ThreadPool + Drop, U: Unpark, W: SharedState + Drop> Cx<
    F,
    O,
    P,
    U,
    W,
>
where
    P::Job: Job<Unpark = U>,
{
    /// Polls the handle of a job. If pending, the running task waits for the job in the place of any other, and the
    /// job's end wakes it through the inbox. An output, or that the job was cancelled, is returned once.
    ///
    /// Refused as `NoTask`, then as `NoHandle`, and then as `Taken`. `Memory` comes after these (`last`): there was no
    /// waker to hand out, and the job was not polled. Otherwise the poll is an act of the turn. If this call is the first
    /// to see the job's end, the end is an act right before it (`polled`).
    pub fn poll_job(&mut self, job: u64) -> Result<Poll<Result<OutputOf<P>, JoinError>>, PollJob>
        ensures polled { OnParts (PollsJob P.Job.Output.output_number job result) self.old self.new }
        ensures last { result ≡ Err Memory → refusal_in (poll_answer self.old.parts.blocking.table.jobs job) ≡ None }
        ensures same { ChangesParts self.old self.new }
        ensures reached { ReachesSharing O.output_number W.SharedState self.old self.new }
    {
        match self.own_waker() {
            Err(_) => match self.parts.refuse_job_poll(job) {
                Some(refusal) => Err(PollJob::Refused(refusal)),
                None => {
                    self.parts.is_out_of_memory = true;
                    Err(PollJob::Memory)
                }
            },
            Ok(waker) => match self.parts.poll_job(job, JobWaker::new(waker)) {
                Ok(answer) => Ok(answer),
                Err(refusal) => Err(PollJob::Refused(refusal)),
            },
        }
    }
}

impl<F: Drop, O: Outcome + Drop, P: ThreadPool + Drop, U: Unpark, W: SharedState + Drop> JobContext
    for Cx<F, O, P, U, W>
where
    P::Job: Job<Unpark = U>,
{
    type Job = P::Job;

    type JobOutput = OutputOf<P>;

    ghost jobs = { λ c. c.parts.blocking.table.jobs };

    ghost strategy = { λ c. strategy_of c.parts.blocking.pool };

    ghost refusals = { λ c. refusals_of P.refusals c.parts.blocking.pool };

    fn spawn_blocking<R: Host>(
        &mut self,
        rt: &R,
        alloc: Global,
        job: P::Job,
    ) -> Result<JobHandle, SpawnError<P::Job>> {
        Cx::spawn_blocking(self, rt, alloc, job)
    }

    fn poll_job(&mut self, job: u64) -> Result<Poll<Result<OutputOf<P>, JoinError>>, PollJob> {
        Cx::poll_job(self, job)
    }

    fn drop_job(&mut self, job: u64) -> Result<Option<Result<OutputOf<P>, JoinError>>, Refusal> {
        Cx::drop_job(self, job)
    }

    fn job_finished(&mut self, job: u64) -> Result<bool, Refusal> {
        Cx::job_finished(self, job)
    }
}

impl<
    F: Drop,
    O: Outcome + Drop,
    P: ThreadPool + Drop,
    U: Unpark,
    W: SharedState + Drop,
> RemoteContext<U> for Cx<F, O, P, U, W> {
    ghost has_handed_out = { λ c. c.has_handed_out };

    ghost handed_out = { λ c. record c { has_handed_out = true } };

    fn remote_waker(&mut self) -> Result<RemoteWaker<U>, AllocError> {
        Cx::remote_waker(self)
    }

    ghost hands_out = { λ c. refl };
}
