// The parts of a trace, and the acts and polls on them.
ghost use Rattle.std.specs.Prelude.{◌≡◌, ◌<◌, ◌-◌, ◌^◌, ◌∷◌, [], List, ℕ, IfOk, OnOk, MatchOption, is_some, true};
ghost use Rattle.mono_model.specs.Table.{value_at};
ghost use Rattle.mono_machine.specs.Machine.{start_machine};
ghost use Rattle.mono_machine.specs.Acts.{act_outcome, query_outcome, step_outcome};
ghost use Rattle.mono_machine.specs.Turns.{after_begin, end_answer, after_end};
ghost use Rattle.mono_machine.specs.Steps.{after_fire, at_clock};
ghost use Rattle.mono_trace.specs.Versions.{kept, changed};

use crate::jobs::Jobs;
use crate::sleeps::Sleeps;
use crate::tasks::Tasks;
use mono_machine::{Act, Blocking, End, Ended, Limits, MAX_NANOS, Query, Refusal, Reply, TurnStep};
use std::alloc::{AllocError, Global};
use std::marker::Model;

/// The tasks, the jobs, the sleeps and the inbox of a trace.
///
/// Contracts see a machine, as it is and as it was when its changes were last kept. Changes of the inbox are not taken
/// back.
#[derive(Drop)]
pub struct Parts {
    pub tasks: Tasks,
    pub jobs: Jobs,
    pub sleeps: Sleeps,
    pub inbox: Vec<u64>,
    pub blocking: Blocking,
}

impl Model for Parts {
    ghost use Rattle.mono_machine.specs.Machine.{Machine};
    ghost use Rattle.mono_trace.specs.Versions.{Versions};
    ghost use Rattle.mono_trace.specs.Trials.{machine_in};

    ghost Value = { Versions Machine };

    ghost view = { λ a. record { now = machine_in a.tasks.now a.jobs.now a.sleeps.now a.inbox.items a.blocking; before = machine_in a.tasks.before a.jobs.before a.sleeps.before a.inbox.items a.blocking } };
}

impl Parts {
    /// Returns the parts of the start machine.
    pub fn new(alloc: Global, limits: Limits, blocking: Blocking) -> Parts
        ensures { result ≡ kept (start_machine limits blocking) }
    {
        Parts {
            tasks: Tasks::new(alloc, limits.tasks),
            jobs: Jobs::new(alloc, limits.jobs),
            sleeps: Sleeps::new(alloc, limits.sleeps),
            inbox: Vec::new(alloc),
            blocking,
        }
    }

    /// Makes a task.
    fn spawn(&mut self) -> Result<Reply, AllocError>
        ensures reply { IfOk result (λ r. r ≡ (act_outcome Act.Spawn self.old.now).reply) }
        ensures machine { OnOk result (self.new ≡ changed self.old (act_outcome Act.Spawn self.old.now).machine) }
    {
        if self.tasks.is_full() {
            return Ok(Reply::Refused(Refusal::AtCapacity));
        }
        let t = self.tasks.spawn()?;
        Ok(Reply::Task(t))
    }

    /// Makes a job, by the strategy.
    fn block(&mut self, output: u64) -> Result<Reply, AllocError>
        ensures reply { IfOk result (λ r. r ≡ (act_outcome (Act.Block output) self.old.now).reply) }
        ensures machine { OnOk result (self.new ≡ changed self.old (act_outcome (Act.Block output) self.old.now).machine) }
    {
        if self.jobs.is_full() {
            return Ok(Reply::Refused(Refusal::AtCapacity));
        }
        match self.blocking {
            Blocking::Attached => {
                let j = self.jobs.start(output)?;
                Ok(Reply::Job(j))
            }
            Blocking::ExecuteLocal => {
                let j = self.jobs.run(output)?;
                Ok(Reply::Job(j))
            }
            Blocking::Panic => Ok(Reply::Refused(Refusal::NoPool)),
        }
    }

    /// Makes a sleep.
    fn new_sleep(&mut self, n: u128) -> Result<Reply, AllocError>
        ensures reply { IfOk result (λ r. r ≡ (act_outcome (Act.NewSleep n) self.old.now).reply) }
        ensures machine { OnOk result (self.new ≡ changed self.old (act_outcome (Act.NewSleep n) self.old.now).machine) }
    {
        if self.sleeps.is_full() {
            return Ok(Reply::Refused(Refusal::AtCapacity));
        }
        if n > MAX_NANOS {
            return Ok(Reply::Refused(Refusal::Invalid));
        }
        let s = self.sleeps.add(n)?;
        Ok(Reply::Sleep(s))
    }

    /// Arms a sleep at another deadline. If it elapses at once, its waker is woken.
    fn reset(&mut self, s: u64, n: u128) -> Result<Reply, AllocError>
        requires { self.old.now.sleeps.arm_count < 2 ^ 128 - 1 }
        ensures reply { IfOk result (λ r. r ≡ (act_outcome (Act.Reset s n) self.old.now).reply) }
        ensures machine { OnOk result (self.new ≡ changed self.old (act_outcome (Act.Reset s n) self.old.now).machine) }
    {
        if self.sleeps.get(s).is_none() {
            return Ok(Reply::Refused(Refusal::NoTimer));
        }
        if n > MAX_NANOS {
            return Ok(Reply::Refused(Refusal::Invalid));
        }
        let reply = self.sleeps.reset_reply(n);
        let waker = self.sleeps.reset(s, n)?;
        self.tasks.wake_if_any(waker)?;
        Ok(reply)
    }

    /// Makes an act: it returns the machine's answer, and the parts become the machine's outcome.
    pub fn act(&mut self, act: Act) -> Result<Reply, AllocError>
        requires { self.old.now.sleeps.arm_count < 2 ^ 128 - 1 }
        ensures reply { IfOk result (λ r. r ≡ (act_outcome act self.old.now).reply) }
        ensures machine { OnOk result (self.new ≡ changed self.old (act_outcome act self.old.now).machine) }
    {
        match act {
            Act::Spawn => self.spawn(),
            Act::Wake(t) => self.tasks.wake_by_number(t),
            Act::NewSleep(n) => self.new_sleep(n),
            Act::Reset(s, n) => self.reset(s, n),
            Act::DropSleep(s) => self.sleeps.remove(s),
            Act::SleepElapsed(s) => Ok(self.sleeps.elapsed(s)),
            Act::DropJoin(t) => self.tasks.drop_join(t),
            Act::Block(output) => self.block(output),
            Act::DropJob(j) => self.jobs.drop_handle(j),
            Act::Finished(t) => Ok(self.tasks.finished(t)),
            Act::JobFinished(j) => Ok(self.jobs.has_ended(j)),
            Act::JobEnd(j, how) => self.jobs.end(j, how),
        }
    }

    /// Makes a poll by the running task.
    fn query(&mut self, me: u64, query: Query) -> Result<Reply, AllocError>
        requires { self.old.now.sleeps.arm_count < 2 ^ 128 - 1 }
        ensures reply { IfOk result (λ r. r ≡ (query_outcome me query self.old.now).reply) }
        ensures machine { OnOk result (self.new ≡ changed self.old (query_outcome me query self.old.now).machine) }
    {
        match query {
            Query::Sleep(s) => self.sleeps.poll(s, me),
            Query::Join(t) => self.tasks.join(t, me),
            Query::Job(j) => self.jobs.poll(j, me),
        }
    }

    /// Makes one step of a turn.
    pub fn step(&mut self, me: u64, step: TurnStep) -> Result<Reply, AllocError>
        requires { self.old.now.sleeps.arm_count < 2 ^ 128 - 1 }
        ensures reply { IfOk result (λ r. r ≡ (step_outcome me step self.old.now).reply) }
        ensures machine { OnOk result (self.new ≡ changed self.old (step_outcome me step self.old.now).machine) }
    {
        match step {
            TurnStep::Act(act) => self.act(act),
            TurnStep::Query(query) => self.query(me, query),
        }
    }

    /// Begins a turn: the front of the queue runs.
    pub fn begin(&mut self) -> Result<Option<u64>, AllocError>
        ensures { IfOk result (λ r. MatchOption r ((self.old.now.tasks.queue ≡ []) × (self.new ≡ self.old))
            (λ t. (rest : List ℕ) × (self.old.now.tasks.queue ≡ t ∷ rest) × (self.new ≡ changed self.old (after_begin t rest self.old.now)))) }
    {
        self.tasks.begin()
    }

    /// Ends the turn of a task.
    pub fn end(&mut self, me: u64, end: End) -> Result<Ended, AllocError>
        ensures ended { IfOk result (λ e. e ≡ end_answer end me self.old.now) }
        ensures machine { OnOk result (self.new ≡ changed self.old (after_end end me self.old.now)) }
    {
        match end {
            End::Pending => self.tasks.pause(me),
            End::Ready(output) => self.tasks.complete(me, output),
        }
    }

    /// Sets the clock to `n` nanoseconds. Nothing fires yet.
    pub fn at_clock(&mut self, n: u128)
        ensures { self.new ≡ changed self.old (at_clock self.old.now n) }
    {
        self.sleeps.at_clock(n);
    }

    /// Fires a sleep: it has elapsed, and its waker is woken.
    pub fn fire(&mut self, s: u64) -> Result<(), AllocError>
        requires { is_some (value_at self.old.now.sleeps.table s) ≡ true }
        ensures { OnOk result (self.new ≡ changed self.old (after_fire self.old.now s)) }
    {
        let waker = self.sleeps.waker_at(s);
        self.sleeps.fire(s)?;
        self.tasks.wake_if_any(waker)
    }

    /// Keeps all changes, so that they cannot be taken back any more.
    pub fn keep(&mut self)
        ensures { self.new ≡ kept self.old.now }
    {
        self.tasks.keep();
        self.jobs.keep();
        self.sleeps.keep();
    }

    /// Takes back all changes since they were last kept.
    pub fn take_back(&mut self) -> Result<(), AllocError>
        ensures { OnOk result (self.new ≡ kept self.old.before) }
    {
        self.tasks.take_back()?;
        self.jobs.take_back();
        self.sleeps.take_back()
    }
}
