// The parts of an executor, and the acts and polls on them.
ghost use Rattle.std.specs.Prelude.{◌≡◌, ℕ, IfOk, OnOk, None};
ghost use Rattle.mono_machine.specs.Machine.{Machine, start_machine};
ghost use Rattle.mono_machine.specs.Acts.{act_outcome, query_outcome, step_outcome};
ghost use Rattle.mono_time.specs.Sleeps.{IsNoneArmedUpTo};
ghost use Rattle.mono_time.specs.Timers.{sleeps_of, registered_of};
ghost use Rattle.mono_replay.specs.PartRefinement.{Matches};
ghost use Rattle.mono_time.specs.Registrations.{FollowsAct};

use crate::inbox::TaskInbox;
use crate::jobs::Jobs;
use crate::{Act, Blocking, Query, Refusal, Reply, TurnStep};
use mono_machine::{
    Limits, drop_reply, elapsed_reply, finished_reply, gone_reply, join_reply, poll_reply,
    reply_of, wake_reply,
};
use mono_task::{SpawnTask, Tasks};
use mono_time::Timers;
use std::alloc::{AllocError, AllocFailed, Global};

/// The tasks, the sleeps, the jobs and the inbox of an executor, in a turn or between two turns.
///
/// The inbox knows exactly the tasks that have not finished.
#[derive(Drop)]
pub struct Parts {
    pub tasks: Tasks<u64>,
    pub timers: Timers,
    pub jobs: Jobs,
    pub inbox: TaskInbox,
    pub blocking: Blocking,
}

impl Parts {
    /// Returns parts without tasks, jobs and sleeps, with a clock at 0, outside of a turn.
    pub fn new(alloc: Global, limits: Limits, blocking: Blocking) -> Result<Parts, AllocError>
        ensures matches { IfOk result (λ parts. Matches parts (start_machine limits blocking)) }
        ensures rest { IfOk result (λ parts. parts.tasks.turn ≡ None) }
        ensures registered { IfOk result (λ parts. (s : ℕ) → registered_of parts.timers s ≡ None) }
    {
        let tasks = Tasks::new(alloc, limits.tasks)?;
        let timers = Timers::new(alloc, limits.sleeps, true)?;
        let inbox = TaskInbox::new(alloc)?;
        Ok(Parts {
            tasks,
            timers,
            jobs: Jobs::new(alloc, limits.jobs),
            inbox,
            blocking,
        })
    }

    /// Makes a task, and makes it known to the inbox.
    fn spawn(&mut self, alloc: Global) -> Result<Reply, AllocError>
        ensures reply { IfOk result (λ r. (m : Machine) → Matches self.old m → r ≡ (act_outcome Act.Spawn m).reply) }
        ensures matches { OnOk result ((m : Machine) → Matches self.old m → Matches self.new (act_outcome Act.Spawn m).machine) }
        ensures turn { self.new.tasks.turn ≡ self.old.tasks.turn }
        ensures timers { self.new.timers ≡ self.old.timers }
    {
        match self.tasks.spawn(alloc) {
            Ok(t) => {
                self.inbox.know(alloc, t)?;
                Ok(Reply::Task(t))
            }
            Err(SpawnTask::AtCapacity) => Ok(Reply::Refused(Refusal::AtCapacity)),
            Err(SpawnTask::Memory) => Err(AllocError),
        }
    }

    /// Makes a job, by the strategy.
    fn block(&mut self, alloc: Global, output: u64) -> Result<Reply, AllocError>
        ensures reply { IfOk result (λ r. (m : Machine) → Matches self.old m → r ≡ (act_outcome (Act.Block output) m).reply) }
        ensures matches { OnOk result ((m : Machine) → Matches self.old m → Matches self.new (act_outcome (Act.Block output) m).machine) }
        ensures turn { self.new.tasks.turn ≡ self.old.tasks.turn }
        ensures timers { self.new.timers ≡ self.old.timers }
    {
        if self.jobs.is_full() {
            return Ok(Reply::Refused(Refusal::AtCapacity));
        }
        match self.blocking {
            Blocking::Attached => {
                let j = self.jobs.start(alloc, output)?;
                Ok(Reply::Job(j))
            }
            Blocking::ExecuteLocal => {
                let j = self.jobs.run(alloc, output)?;
                Ok(Reply::Job(j))
            }
            Blocking::Panic => Ok(Reply::Refused(Refusal::NoPool)),
        }
    }

    /// Answers an act as the machine answers it, and leaves the machine's outcome.
    #[inline(always)]
    pub fn act(&mut self, alloc: Global, act: Act) -> Result<Reply, AllocError>
        ensures reply { IfOk result (λ r. (m : Machine) → Matches self.old m → r ≡ (act_outcome act m).reply) }
        ensures matches { OnOk result ((m : Machine) → Matches self.old m → Matches self.new (act_outcome act m).machine) }
        ensures turn { self.new.tasks.turn ≡ self.old.tasks.turn }
        ensures registered { OnOk result ((m : Machine) → Matches self.old m → IsNoneArmedUpTo (sleeps_of self.old.timers) →
            FollowsAct self.old.timers self.new.timers m.sleeps (act_outcome act m).machine.sleeps) }
    {
        match act {
            Act::Spawn => self.spawn(alloc),
            Act::Wake(t) => Ok(wake_reply(self.tasks.wake(t))),
            Act::NewSleep(n) => self.new_sleep(alloc, n),
            Act::Reset(s, n) => Ok(self.reset(s, n)),
            Act::DropSleep(s) => Ok(gone_reply(self.timers.remove(s))),
            Act::SleepElapsed(s) => Ok(elapsed_reply(self.timers.is_elapsed(s))),
            Act::DropJoin(t) => Ok(drop_reply(self.tasks.drop_join(t))),
            Act::Block(output) => self.block(alloc, output),
            Act::DropJob(j) => Ok(reply_of(self.jobs.drop_handle(j))),
            Act::Finished(t) => Ok(finished_reply(self.tasks.is_finished(t))),
            Act::JobFinished(j) => Ok(reply_of(self.jobs.has_ended(j))),
            Act::JobEnd(j, how) => Ok(reply_of(self.jobs.end(j, how))),
        }
    }

    /// Polls for the running task.
    fn query(&mut self, me: u64, query: Query) -> Result<Reply, AllocError>
        ensures reply { IfOk result (λ r. (m : Machine) → Matches self.old m → r ≡ (query_outcome me query m).reply) }
        ensures matches { OnOk result ((m : Machine) → Matches self.old m → Matches self.new (query_outcome me query m).machine) }
        ensures turn { self.new.tasks.turn ≡ self.old.tasks.turn }
        ensures registered { OnOk result ((m : Machine) → Matches self.old m → IsNoneArmedUpTo (sleeps_of self.old.timers) → FollowsAct self.old.timers self.new.timers m.sleeps (query_outcome me query m).machine.sleeps) }
    {
        match query {
            Query::Sleep(s) => Ok(poll_reply(self.timers.poll(s, me))),
            Query::Join(t) => Ok(join_reply(self.tasks.poll_join(t, me))),
            Query::Job(j) => Ok(reply_of(self.jobs.poll(j, me))),
        }
    }

    /// Does one step of a turn.
    #[inline(always)]
    pub fn step(&mut self, alloc: Global, me: u64, step: TurnStep) -> Result<Reply, AllocError>
        ensures reply { IfOk result (λ r. (m : Machine) → Matches self.old m → r ≡ (step_outcome me step m).reply) }
        ensures matches { OnOk result ((m : Machine) → Matches self.old m → Matches self.new (step_outcome me step m).machine) }
        ensures turn { self.new.tasks.turn ≡ self.old.tasks.turn }
        ensures registered { OnOk result ((m : Machine) → Matches self.old m → IsNoneArmedUpTo (sleeps_of self.old.timers) →
            FollowsAct self.old.timers self.new.timers m.sleeps (step_outcome me step m).machine.sleeps) }
    {
        match step {
            TurnStep::Act(act) => self.act(alloc, act),
            TurnStep::Query(query) => self.query(me, query),
        }
    }
}
