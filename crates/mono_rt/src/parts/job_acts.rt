// The calls of a running task on blocking jobs, on the parts of a runtime. Each is an act of the machine, and is
// recorded. If a call is the first to see the end of a job, the end is recorded as an act right before it.
ghost use Rattle.std.specs.Prelude.{◌≡◌, None, Err, IfSome, IfNone};
ghost use Rattle.mono_rt.specs.JobActs.{noted_end, SpawnsJob, AsksOutput, DropsJob, AsksWhetherEnded};
ghost use Rattle.mono_rt.specs.Leads.{Leads};
ghost use Rattle.mono_rt.specs.Refinement.{hosting_of};
ghost use Rattle.mono_machine.specs.Acts.{reply_of};
ghost use Rattle.mono_machine.specs.JobCalls.{poll_answer};
ghost use Rattle.mono_blocking.specs.JobAnswers.{polled_reply, dropped_reply, refusal_in};

use crate::parts::acts::Acts;
use crate::parts::state::Parts;
use mono_blocking::{Blockings, End, Job, JobHandle, JobWaker, OutputOf, SpawnError, ThreadPool};
use mono_joinword::{JoinError, Outcome};
use mono_machine::{Act, Query, Refusal, Reply, TurnStep};
use mono_model::{Host, Poll};
use std::alloc::Global;

/// Returns the reply to a poll of a job's handle.
fn polled_reply<A: Outcome>(answer: &Result<Poll<Result<A, JoinError>>, Refusal>) -> Reply
    ensures { result ≡ reply_of (polled_reply A.output_number answer.now) }
{
    match answer {
        Ok(Poll::Ready(Ok(output))) => Reply::Output(output.number()),
        Ok(Poll::Ready(Err(_))) => Reply::Canceled,
        Ok(Poll::Pending) => Reply::Pending,
        Err(refusal) => Reply::Refused(*refusal),
    }
}

/// Returns the reply to the drop of a job's handle.
fn dropped_reply<A: Outcome>(answer: &Result<Option<Result<A, JoinError>>, Refusal>) -> Reply
    ensures { result ≡ reply_of (dropped_reply A.output_number answer.now) }
{
    match answer {
        Ok(Some(Ok(output))) => Reply::Dropped(Some(output.number())),
        Ok(Some(Err(_))) => Reply::Dropped(None),
        Ok(None) => Reply::Dropped(None),
        Err(refusal) => Reply::Refused(*refusal),
    }
}

impl Acts {
    /// Records the end of a job if this call is the first to see it.
    fn note_end(&mut self, job: u64, end: Option<End>)
        ensures { self.new ≡ noted_end self.old job end }
    {
        if let Some(end) = end {
            self.note(
                TurnStep::Act(Act::JobEnd(job, end.how)),
                Reply::Ended(end.waiter),
            );
        }
    }
}

impl<O: Outcome + Drop, P: ThreadPool + Drop> Parts<O, Blockings<P>> {
    /// Makes a job.
    pub fn spawn_blocking<R: Host>(
        &mut self,
        rt: &R,
        alloc: Global,
        job: P::Job,
    ) -> Result<JobHandle, SpawnError<P::Job>>
        ensures spawns { SpawnsJob P.Job.output_number P.refusals job result self.old self.new }
        ensures leads { Leads O.output_number hosting_of self.old self.new }
    {
        let step = TurnStep::Act(Act::Block(job.number()));
        let answer = self.blocking.spawn(rt, alloc, job);
        match &answer {
            Ok(handle) => self.acts.note(step, Reply::Job(handle.job())),
            Err(SpawnError::AtCapacity(_)) => self
                .acts
                .note(step, Reply::Refused(Refusal::AtCapacity)),
            Err(SpawnError::NoPool(_)) => self.acts.note(step, Reply::Refused(Refusal::NoPool)),
            Err(SpawnError::Memory(_)) => self.is_out_of_memory = true,
            Err(SpawnError::PoolFault) => {}
        }
        answer
    }

    /// Polls the handle of a job with a waker of the running task.
    pub fn poll_job(
        &mut self,
        job: u64,
        waker: JobWaker<<P::Job as Job>::Unpark>,
    ) -> Result<Poll<Result<OutputOf<P>, JoinError>>, Refusal>
        requires mine { waker ≡ self.old.me }
        ensures asks { AsksOutput P.Job.Output.output_number job result self.old self.new }
        ensures leads { Leads O.output_number hosting_of self.old self.new }
    {
        let polled = self.blocking.poll(job, waker);
        self.acts.note_end(job, polled.end);
        let reply = polled_reply(&polled.answer);
        self.acts.note(TurnStep::Query(Query::Job(job)), reply);
        polled.answer
    }

    /// Refuses a poll of a job's handle by a task without a waker, and records that, if the poll is refused with a waker,
    /// too. Returns None and changes nothing if it is not.
    pub fn refuse_job_poll(&mut self, job: u64) -> Option<Refusal>
        ensures refused { IfSome result (λ refusal. AsksOutput P.Job.Output.output_number job (Err refusal) self.old self.new) }
        ensures asked { IfNone result (refusal_in (poll_answer self.old.blocking.table.jobs job) ≡ None) }
        ensures same { IfNone result (self.new ≡ self.old) }
        ensures leads { Leads O.output_number hosting_of self.old self.new }
    {
        match self.blocking.poll_refusal(job) {
            None => None,
            Some(refusal) => {
                self.acts
                    .note(TurnStep::Query(Query::Job(job)), Reply::Refused(refusal));
                Some(refusal)
            }
        }
    }

    /// Drops the handle of a job.
    pub fn drop_job(&mut self, job: u64) -> Result<Option<Result<OutputOf<P>, JoinError>>, Refusal>
        ensures drops { DropsJob P.Job.Output.output_number job result self.old self.new }
        ensures leads { Leads O.output_number hosting_of self.old self.new }
    {
        let dropped = self.blocking.drop_handle(job);
        self.acts.note_end(job, dropped.end);
        let reply = dropped_reply(&dropped.answer);
        self.acts.note(TurnStep::Act(Act::DropJob(job)), reply);
        dropped.answer
    }

    /// Returns whether a job has ended. The question is not recorded.
    pub fn has_job_ended(&mut self, job: u64) -> Result<bool, Refusal>
        ensures asks { AsksWhetherEnded job result self.old self.new }
        ensures leads { Leads O.output_number hosting_of self.old self.new }
    {
        self.blocking.has_ended(job)
    }
}
