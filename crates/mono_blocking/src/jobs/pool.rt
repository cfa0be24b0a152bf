// The pool that runs the blocking jobs, with the table of those jobs.
ghost use Rattle.std.specs.Prelude.{◌≡◌, ◌≤◌, false, None, Err, IfSome, IfNone};
ghost use Rattle.mono_model.specs.Jobs.{no_jobs};
ghost use Rattle.mono_model.specs.Table.{is_full, value_at, next_number};
ghost use Rattle.mono_machine.specs.Watches.{job_waiter};
ghost use Rattle.mono_machine.specs.JobCalls.{poll_answer, job_polled, drop_answer, job_dropped};
ghost use Rattle.mono_machine.specs.declared.events.Blocking.TheVariants as strategy;
ghost use Rattle.mono_blocking.specs.declared.strategy.BlockingHandle.TheVariants.{Attached};
ghost use Rattle.mono_blocking.specs.JobAnswers.{IsEnd, after_end, refusal_in, polled_reply, dropped_reply, used, left, PollShown, DropShown, FinishShown};
ghost use Rattle.mono_blocking.specs.JobSpawns.{Spawned, strategy_of, refusals_of, IsApart};

use crate::jobs::ends::{Answered, PolledJob};
use crate::jobs::handles::JobHandle;
use crate::jobs::refusals::SpawnError;
use crate::jobs::table::JobTable;
use crate::{
    BlockingHandle, BlockingStrategy, BlockingTask, Job, JobWaker, JoinError, Outcome,
    ScheduleError, ThreadPool,
};
use mono_machine::Refusal;
use mono_model::Host;
use std::alloc::Global;
use std::marker::Model;

/// The output of a job of the pool.
pub type OutputOf<P: ThreadPool> = <P::Job as Job>::Output;

/// The pool, or the strategy without one, and the jobs whose handles are kept.
#[derive(Drop)]
pub struct Blockings<P: ThreadPool> {
    pool: BlockingHandle<P>,
    jobs: JobTable<P::Job>,
}

impl<P: ThreadPool> Model for Blockings<P> {
    ghost use Rattle.mono_blocking.specs.JobSpawns.{Seen};

    ghost Value = { Seen P };

    ghost view = { λ a. record { table = a.jobs; pool = a.pool } };
}

// Runs a job in this call, if there is a place for it, and keeps its output in the table.
fn run_here<J: Job>(
    alloc: Global,
    jobs: &mut JobTable<J>,
    job: J,
) -> Result<JobHandle, SpawnError<J>>
    requires { is_full jobs.old.jobs.table jobs.old.jobs.limit ≡ false }
    ensures { Spawned J.output_number job result strategy.ExecuteLocal 0 0 jobs.old.jobs jobs.new.jobs }
{
    if jobs.reserve(alloc).is_err() {
        return Err(SpawnError::Memory(job));
    }
    let number = job.number();
    Ok(JobHandle::of_job(jobs.keep(number, job.run())))
}

// Passes a job to the pool, if there is a place for it.
fn hand_over<P: ThreadPool + Drop, R: Host>(
    rt: &R,
    alloc: Global,
    jobs: &mut JobTable<P::Job>,
    pool: &mut P,
    job: P::Job,
) -> Result<JobHandle, SpawnError<P::Job>>
    requires { is_full jobs.old.jobs.table jobs.old.jobs.limit ≡ false }
    ensures spawned { Spawned P.Job.output_number job result strategy.Attached (P.refusals pool.old) (P.refusals pool.new) jobs.old.jobs jobs.new.jobs }
    ensures later { P.refusals pool.old ≤ P.refusals pool.new }
{
    if jobs.reserve(alloc).is_err() {
        return Err(SpawnError::Memory(job));
    }
    let number = job.number();
    match BlockingTask::new(alloc, job) {
        Err(job) => Err(SpawnError::Memory(job)),
        Ok((task, joiner)) => match pool.schedule_task(rt, alloc, task) {
            Ok(()) => Ok(JobHandle::of_job(jobs.start(number, joiner))),
            Err(ScheduleError::Memory(task)) => {
                let (job, _spent) = task.cancel(rt);
                Err(SpawnError::Memory(job))
            }
            Err(ScheduleError::Refused(task)) => {
                drop(task.cancel(rt));
                Err(SpawnError::PoolFault)
            }
        },
    }
}

impl<P: ThreadPool + Drop> Blockings<P> {
    /// Returns a table without jobs over this pool; it keeps at most `limit` jobs at once.
    pub fn new(alloc: Global, pool: BlockingHandle<P>, limit: u64) -> Blockings<P>
        ensures jobs { result.table.jobs ≡ no_jobs limit }
        ensures pool { result.pool ≡ pool }
    {
        Blockings {
            pool,
            jobs: JobTable::new(alloc, limit),
        }
    }

    /// Passes a job to the pool. If the strategy is to run it on the caller, the call runs it without a word, and the
    /// table keeps the output. `spawned` defines each answer. AtCapacity comes before NoPool, and the pool is asked
    /// only after both. The pool refuses only if its count of refusals rose; then the job is cancelled. With each other
    /// refusal the same job comes back. A refusal leaves the jobs as they were.
    pub fn spawn<R: Host>(
        &mut self,
        rt: &R,
        alloc: Global,
        job: P::Job,
    ) -> Result<JobHandle, SpawnError<P::Job>>
        ensures spawned { Spawned P.Job.output_number job result (strategy_of self.old.pool) (refusals_of P.refusals self.old.pool)
            (refusals_of P.refusals self.new.pool) self.old.table.jobs self.new.table.jobs }
        ensures strategy { strategy_of self.new.pool ≡ strategy_of self.old.pool }
        ensures later { refusals_of P.refusals self.old.pool ≤ refusals_of P.refusals self.new.pool }
    {
        if self.jobs.is_full() {
            return Err(SpawnError::AtCapacity(job));
        }
        match &mut self.pool {
            BlockingHandle::Empty(BlockingStrategy::Panic) => Err(SpawnError::NoPool(job)),
            BlockingHandle::Empty(BlockingStrategy::ExecuteLocal) => {
                run_here(alloc, &mut self.jobs, job)
            }
            BlockingHandle::Attached(pool) => hand_over(rt, alloc, &mut self.jobs, pool, job),
        }
    }

    /// Returns why a poll of a job's handle is refused, as `JobTable::poll_refusal` does. The pool is not asked.
    pub fn poll_refusal(&self, j: u64) -> Option<Refusal>
        ensures refused { IfSome result (λ refusal. poll_answer self.now.table.jobs j ≡ Err refusal) }
        ensures asked { IfNone result (refusal_in (poll_answer self.now.table.jobs j) ≡ None) }
    {
        self.jobs.poll_refusal(j)
    }

    /// Polls a job's handle as `JobTable::poll` does. The pool is not asked.
    pub fn poll(&mut self, j: u64, waker: JobWaker<<P::Job as Job>::Unpark>) -> PolledJob<P::Job>
        ensures end { IsEnd result.end self.old.table.jobs j }
        ensures answer { polled_reply P.Job.Output.output_number result.answer ≡ poll_answer (after_end result.end self.old.table.jobs j) j }
        ensures jobs { self.new.table.jobs ≡ job_polled (after_end result.end self.old.table.jobs j) j waker }
        ensures shown { PollShown P.Job.Output.output_number self.old.table j waker result.answer (used result.joiner) self.new.table }
        ensures pool { self.new.pool ≡ self.old.pool }
    {
        self.jobs.poll(j, waker)
    }

    /// Drops the handle of a job as `JobTable::drop_handle` does. The pool is not asked.
    pub fn drop_handle(
        &mut self,
        j: u64,
    ) -> Answered<P::Job, Option<Result<OutputOf<P>, JoinError>>>
        ensures end { IsEnd result.end self.old.table.jobs j }
        ensures answer { dropped_reply P.Job.Output.output_number result.answer ≡ drop_answer (after_end result.end self.old.table.jobs j) j }
        ensures jobs { self.new.table.jobs ≡ job_dropped (after_end result.end self.old.table.jobs j) j }
        ensures shown { DropShown P.Job.Output.output_number self.old.table j result.answer (left result.seat) }
        ensures pool { self.new.pool ≡ self.old.pool }
    {
        self.jobs.drop_handle(j)
    }

    /// Returns whether a job has ended, as `JobTable::has_ended` does. The pool is not asked.
    pub fn has_ended(&mut self, j: u64) -> Result<bool, Refusal>
        ensures jobs { self.new.table.jobs ≡ self.old.table.jobs }
        ensures shown { FinishShown self.old.table j result self.new.table }
        ensures pool { self.new.pool ≡ self.old.pool }
    {
        self.jobs.has_ended(j)
    }

    /// Returns how many numbers were given to jobs.
    pub fn issued(&self) -> u64
        ensures { result ≡ next_number self.now.table.jobs.table }
    {
        self.jobs.issued()
    }

    /// Returns the task that waits for a job, if one does. Only a running job has such a task.
    pub fn waiter(&self, j: u64) -> Option<u64>
        ensures { result ≡ job_waiter (value_at self.now.table.jobs.table j) }
    {
        self.jobs.waiter(j)
    }

    /// Returns the attached pool, or `None` if and only if none is attached.
    pub fn into_pool(self) -> Option<P>
        ensures some { IfSome result (λ pool. self.pool ≡ Attached pool) }
        ensures none { IfNone result (IsApart self.pool) }
    {
        let Blockings { pool, jobs: _ } = self;
        match pool {
            BlockingHandle::Attached(pool) => Some(pool),
            BlockingHandle::Empty(_) => None,
        }
    }
}
