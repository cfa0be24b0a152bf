// The calls of a running task on the parts of a runtime. Each is an act of the machine, and is recorded.
ghost use Rattle.std.specs.Prelude.{◌≡◌, true, Err, IfOk, OnOk, OnErr};
ghost use Rattle.mono_model.specs.Table.{next_number, is_full};
ghost use Rattle.mono_model.specs.Tasks.{woken, woken_if_any, spawned};
ghost use Rattle.mono_model.specs.Joins.{wake_answer, join_answer, joined, drop_answer, join_dropped};
ghost use Rattle.mono_task.specs.Schedule as schedule;
ghost use Rattle.mono_task.specs.declared.error.SpawnTask.TheVariants.{AtCapacity};
ghost use Rattle.mono_time.specs.Instants.{nanos_of};
ghost use Rattle.mono_model.specs.SleepAnswers.{without_waker, waker_in};
ghost use Rattle.mono_time.specs.Sleeps.{Added, sleep_poll_answer, with_polled_sleep, sleep_reset_answer, with_reset_sleep, sleep_remove_answer, with_removed_sleep};
ghost use Rattle.mono_time.specs.Timers.{sleeps_of};
ghost use Rattle.mono_model.specs.declared.error.SleepError.TheVariants.{Memory};
ghost use Rattle.mono_machine.specs.JoinCalls as replies;
ghost use Rattle.mono_rt.specs.Numbering.{join_numbered, drop_numbered};
ghost use Rattle.mono_rt.specs.CallActs.{noted_wake, noted_join, noted_drop, noted_task, lacks_task, noted_sleep, lacks_sleep, noted_poll, noted_gone, noted_reset};
ghost use Rattle.mono_rt.specs.Leads.{Leads};
ghost use Rattle.mono_rt.specs.Refinement.{Hosting};

use crate::parts::state::Parts;
use mono_joinword::Outcome;
use mono_machine::{
    Act, Query, Refusal, Reply, TurnStep, gone_reply, poll_reply, refusal_of, reset_reply,
    wake_reply,
};
use mono_task::{Poll, SpawnTask, TaskError, Woke, wake_if_any};
use mono_time::{Error, Instant, SleepError};
use std::alloc::Global;

/// Returns the reply to a poll of a task's handle.
fn join_reply_of<O: Outcome>(answer: &Result<Poll<O>, TaskError>) -> Reply
    ensures { result ≡ replies.join_reply (join_numbered O.output_number answer.now) }
{
    match answer {
        Ok(Poll::Ready(output)) => Reply::Output(output.number()),
        Ok(Poll::Pending) => Reply::Pending,
        Err(error) => Reply::Refused(refusal_of(*error)),
    }
}

/// Returns the reply to the drop of a task's handle.
pub(crate) fn drop_reply_of<O: Outcome>(answer: &Result<Option<O>, TaskError>) -> Reply
    ensures { result ≡ replies.drop_reply (drop_numbered O.output_number answer.now) }
{
    match answer {
        Ok(Some(output)) => Reply::Dropped(Some(output.number())),
        Ok(None) => Reply::Dropped(None),
        Err(error) => Reply::Refused(refusal_of(*error)),
    }
}

impl<O: Outcome + Drop, B: Drop> Parts<O, B> {
    /// Wakes a task.
    pub fn wake(&mut self, task: u64) -> Result<Woke, TaskError>
        ensures answer { result ≡ wake_answer self.old.tasks.tasks task }
        ensures tasks { self.new.tasks ≡ schedule.with_tasks self.old.tasks (woken self.old.tasks.tasks task) }
        ensures timers { self.new.timers ≡ self.old.timers }
        ensures kept { self.new ≡ record self.old { tasks = self.new.tasks; acts = noted_wake self.old.acts task result } }
        ensures leads { (hosting : B → Hosting) → Leads O.output_number hosting self.old self.new }
    {
        let answer = self.tasks.wake(task);
        self.acts
            .note(TurnStep::Act(Act::Wake(task)), wake_reply(answer));
        answer
    }

    /// Polls the handle of a task for the running task.
    pub fn poll_join(&mut self, task: u64) -> Result<Poll<O>, TaskError>
        ensures answer { result ≡ join_answer self.old.tasks.tasks task }
        ensures tasks { self.new.tasks ≡ schedule.with_tasks self.old.tasks (joined self.old.tasks.tasks task self.old.me) }
        ensures timers { self.new.timers ≡ self.old.timers }
        ensures kept { self.new ≡ record self.old { tasks = self.new.tasks; acts = noted_join O.output_number self.old.acts task result } }
        ensures leads { (hosting : B → Hosting) → Leads O.output_number hosting self.old self.new }
    {
        let answer = self.tasks.poll_join(task, self.me);
        let reply = join_reply_of(&answer);
        self.acts.note(TurnStep::Query(Query::Join(task)), reply);
        answer
    }

    /// Drops the handle of a task.
    pub fn drop_join(&mut self, task: u64) -> Result<Option<O>, TaskError>
        ensures answer { result ≡ drop_answer self.old.tasks.tasks task }
        ensures tasks { self.new.tasks ≡ schedule.with_tasks self.old.tasks (join_dropped self.old.tasks.tasks task) }
        ensures timers { self.new.timers ≡ self.old.timers }
        ensures kept { self.new ≡ record self.old { tasks = self.new.tasks; acts = noted_drop O.output_number self.old.acts task result } }
        ensures leads { (hosting : B → Hosting) → Leads O.output_number hosting self.old self.new }
    {
        let answer = self.tasks.drop_join(task);
        let reply = drop_reply_of(&answer);
        self.acts.note(TurnStep::Act(Act::DropJoin(task)), reply);
        answer
    }

    /// Records a spawn that is refused for want of a place. It takes no memory.
    pub fn refuse_spawn(&mut self)
        requires { is_full self.old.tasks.tasks.table self.old.tasks.tasks.limit ≡ true }
        ensures kept { self.new ≡ record self.old { acts = noted_task self.old.acts (Err AtCapacity) } }
        ensures leads { (hosting : B → Hosting) → Leads O.output_number hosting self.old self.new }
    {
        self.acts.note(
            TurnStep::Act(Act::Spawn),
            Reply::Refused(Refusal::AtCapacity),
        );
    }

    /// Makes a task.
    pub fn spawn(&mut self, alloc: Global) -> Result<u64, SpawnTask>
        ensures number { IfOk result (λ t. t ≡ next_number self.old.tasks.tasks.table) }
        ensures after { OnOk result (self.new.tasks ≡ schedule.with_tasks self.old.tasks (spawned self.old.tasks.tasks)) }
        ensures refused { OnErr result (self.new.tasks ≡ self.old.tasks) }
        ensures full { (result ≡ Err AtCapacity) → is_full self.old.tasks.tasks.table self.old.tasks.tasks.limit ≡ true }
        ensures timers { self.new.timers ≡ self.old.timers }
        ensures kept { self.new ≡ record self.old { tasks = self.new.tasks; acts = noted_task self.old.acts result; is_out_of_memory = lacks_task self.old.is_out_of_memory result } }
        ensures leads { (hosting : B → Hosting) → Leads O.output_number hosting self.old self.new }
    {
        match self.tasks.spawn(alloc) {
            Ok(t) => {
                self.acts.note(TurnStep::Act(Act::Spawn), Reply::Task(t));
                Ok(t)
            }
            Err(SpawnTask::AtCapacity) => {
                self.acts.note(
                    TurnStep::Act(Act::Spawn),
                    Reply::Refused(Refusal::AtCapacity),
                );
                Err(SpawnTask::AtCapacity)
            }
            Err(SpawnTask::Memory) => {
                self.is_out_of_memory = true;
                Err(SpawnTask::Memory)
            }
        }
    }

    /// Makes a sleep.
    pub fn add_sleep(&mut self, alloc: Global, deadline: Instant) -> Result<u64, SleepError>
        ensures added { Added (sleeps_of self.old.timers) (nanos_of deadline) result (sleeps_of self.new.timers) }
        ensures memory { result ≡ Err Memory → self.new.is_out_of_memory ≡ true }
        ensures tasks { self.new.tasks ≡ self.old.tasks }
        ensures kept { self.new ≡ record self.old {
          timers = self.new.timers;
          acts = noted_sleep self.old.acts (nanos_of deadline) result;
          is_out_of_memory = lacks_sleep self.old.is_out_of_memory result;
        } }
        ensures leads { (hosting : B → Hosting) → Leads O.output_number hosting self.old self.new }
    {
        let step = TurnStep::Act(Act::NewSleep(deadline.as_nanos()));
        match self.timers.add(alloc, deadline) {
            Ok(s) => {
                self.acts.note(step, Reply::Sleep(s));
                Ok(s)
            }
            Err(SleepError::Memory) => {
                self.is_out_of_memory = true;
                Err(SleepError::Memory)
            }
            Err(SleepError::Timer(Error::AtCapacity)) => {
                self.acts.note(step, Reply::Refused(Refusal::AtCapacity));
                Err(SleepError::Timer(Error::AtCapacity))
            }
            Err(SleepError::Timer(Error::Shutdown)) => Err(SleepError::Timer(Error::Shutdown)),
            Err(SleepError::Timer(Error::Invalid)) => unreachable!(),
        }
    }

    /// Polls a sleep for the running task.
    pub fn poll_sleep(&mut self, sleep: u64) -> Result<Poll<()>, Error>
        ensures answer { result ≡ sleep_poll_answer (sleeps_of self.old.timers) sleep }
        ensures sleeps { sleeps_of self.new.timers ≡ with_polled_sleep (sleeps_of self.old.timers) sleep self.old.me }
        ensures tasks { self.new.tasks ≡ self.old.tasks }
        ensures kept { self.new ≡ record self.old { timers = self.new.timers; acts = noted_poll self.old.acts sleep result } }
        ensures leads { (hosting : B → Hosting) → Leads O.output_number hosting self.old self.new }
    {
        let answer = self.timers.poll(sleep, self.me);
        self.acts
            .note(TurnStep::Query(Query::Sleep(sleep)), poll_reply(answer));
        answer
    }

    /// Drops a sleep.
    pub fn drop_sleep(&mut self, sleep: u64) -> Result<(), Error>
        ensures answer { result ≡ sleep_remove_answer (sleeps_of self.old.timers) sleep }
        ensures sleeps { sleeps_of self.new.timers ≡ with_removed_sleep (sleeps_of self.old.timers) sleep }
        ensures tasks { self.new.tasks ≡ self.old.tasks }
        ensures kept { self.new ≡ record self.old { timers = self.new.timers; acts = noted_gone self.old.acts sleep result } }
        ensures leads { (hosting : B → Hosting) → Leads O.output_number hosting self.old self.new }
    {
        let answer = self.timers.remove(sleep);
        self.acts
            .note(TurnStep::Act(Act::DropSleep(sleep)), gone_reply(answer));
        answer
    }

    /// Resets a sleep to a new deadline.
    pub fn reset_sleep(&mut self, sleep: u64, deadline: Instant) -> Result<(), Error>
        ensures answer { result ≡ without_waker (sleep_reset_answer (sleeps_of self.old.timers) sleep (nanos_of deadline)) }
        ensures sleeps { sleeps_of self.new.timers ≡ with_reset_sleep (sleeps_of self.old.timers) sleep (nanos_of deadline) }
        ensures tasks { self.new.tasks ≡ schedule.with_tasks self.old.tasks (woken_if_any self.old.tasks.tasks (waker_in (sleep_reset_answer (sleeps_of self.old.timers) sleep (nanos_of deadline)))) }
        ensures kept { self.new ≡ record self.old {
          tasks = self.new.tasks;
          timers = self.new.timers;
          acts = noted_reset self.old.acts (sleeps_of self.old.timers).greatest sleep (nanos_of deadline) result;
        } }
        ensures leads { (hosting : B → Hosting) → Leads O.output_number hosting self.old self.new }
    {
        let nanos = deadline.as_nanos();
        let step = TurnStep::Act(Act::Reset(sleep, nanos));
        match self.timers.reset(sleep, deadline) {
            Err(error) => {
                self.acts.note(step, Reply::Refused(Refusal::NoTimer));
                Err(error)
            }
            Ok(waker) => {
                wake_if_any(&mut self.tasks, waker);
                let reply = reset_reply(nanos, self.timers.greatest());
                self.acts.note(step, reply);
                Ok(())
            }
        }
    }
}
