// The executor.
ghost use Rattle.std.specs.Prelude.{◌≡◌, ℕ, IfOk, OnOk, Option, None};
ghost use Rattle.mono_machine.specs.Machine.{Machine, start_machine};
ghost use Rattle.mono_machine.specs.Steps.{Step};

use crate::parts::Parts;
use crate::{Blocking, Event, List, Reply, Report};
use mono_machine::Limits;
use mono_time::{Due, Timers};
use std::alloc::{AllocError, Global};
use std::mem;

/// An executor: tasks with their queue, jobs, sleeps, and the inbox of wakes from other threads.
///
/// It refines the reference machine. `Stands` defines which machines it refines. Each event leads from any machine that
/// it refined to a machine that it refines, by a step of the machine.
///
/// The lists of a clock step are kept for the next one.
#[derive(Drop)]
pub struct Exec {
    parts: Parts,
    due: Due,
    ghost rest: { parts.tasks.turn ≡ None },
}

impl Exec {
    ghost use Rattle.mono_time.specs.Sleeps.{IsNoneArmedUpTo};
    ghost use Rattle.mono_time.specs.Refinement.{StandsForSleeps};
    ghost use Rattle.mono_time.specs.Timers.{sleeps_of, elapsed_tick, registered_of};
    ghost use Rattle.mono_time.specs.SlotRegistration.{NextExpiration};
    ghost use Rattle.mono_replay.specs.Refinement.{Stands, registered_in};
    ghost use Rattle.mono_time.specs.Registrations.{registered_after, IsNext};

    /// Returns an executor with no task, no job, no sleep, an empty inbox and a clock at 0: it refines the start
    /// machine with these limits and this strategy. No sleep is registered (`registered`).
    pub fn new(alloc: Global, limits: Limits, blocking: Blocking) -> Result<Exec, AllocError>
        ensures start { IfOk result (λ exec. Stands exec (start_machine limits blocking)) }
        ensures registered { IfOk result (λ exec. (s : ℕ) → registered_in exec s ≡ None) }
    {
        let parts = Parts::new(alloc, limits, blocking)?;
        Ok(Exec {
            parts,
            due: Due::new(alloc),
        })
    }

    /// Applies one event and returns its report.
    ///
    /// Leads each machine that the executor refined, by a step with this event and this report, to a machine that the
    /// executor refines (`step`). So the executor refuses an event if and only if the machine refuses it, and a refused
    /// event changes nothing. The registered ticks of the sleeps in the wheel change as the wheel's model specifies
    /// (`registered`). The only error is out of memory; after it the executor is of no further use.
    pub fn apply(&mut self, alloc: Global, event: &Event) -> Result<Report, AllocError>
        ensures step { IfOk result (λ report. (m : Machine) → Stands self.old m → (new : Machine) × Step m event.now report new × Stands self.new new) }
        ensures registered { OnOk result ((m : Machine) → Stands self.old m → (s : ℕ) → registered_in self.new s ≡ registered_after event.now m s (registered_in self.old s)) }
    {
        let mut spare = List::new(alloc);
        self.apply_reusing(alloc, event, &mut spare)
    }

    /// Applies an event as `apply` does, by the same step of the machine (`step`), which also changes the registered
    /// ticks of the sleeps (`registered`).
    ///
    /// The memory of the spare list is used for the replies of a turn, so the list of an earlier report can serve
    /// again. The list has no other use.
    #[inline(always)]
    pub fn apply_reusing(
        &mut self,
        alloc: Global,
        event: &Event,
        spare: &mut List<Reply>,
    ) -> Result<Report, AllocError>
        ensures step { IfOk result (λ report. (m : Machine) → Stands self.old m → (new : Machine) × Step m event.now report new × Stands self.new new) }
        ensures registered { OnOk result ((m : Machine) → Stands self.old m → (s : ℕ) → registered_in self.new s ≡ registered_after event.now m s (registered_in self.old s)) }
    {
        match event {
            Event::Act(act) => {
                let reply = self.parts.act(alloc, *act)?;
                Ok(Report::Reply(reply))
            }
            Event::Turn(steps, end) => {
                let replies = mem::replace(spare, List::new(alloc));
                let report = self.parts.turn(alloc, replies, steps.as_slice(), *end)?;
                Ok(report)
            }
            Event::Clock(n) => {
                let report = self.parts.clock(alloc, *n, &mut self.due)?;
                Ok(report)
            }
            Event::Remote(t) => Ok(self.parts.remote(*t)),
            Event::Drain => {
                let report = self.parts.drain(alloc)?;
                Ok(report)
            }
        }
    }

    /// Returns the table of sleeps, which refines the machine's sleeps (`sleeps`) with its greatest tick (`greatest`).
    ///
    /// No clock step is in progress (`rests`). So the table's next expiration is None if and only if no sleep is
    /// registered. Otherwise it is the least start of a slot over the executor's registered ticks, which are the
    /// table's (`next`, `registered`). It is above the greatest tick and not above the least armed tick.
    pub fn timers(&self) -> &Timers
        ensures sleeps { (m : Machine) → Stands self.now m → StandsForSleeps result.now m.sleeps }
        ensures greatest { (m : Machine) → Stands self.now m → (sleeps_of result.now).greatest ≡ m.sleeps.greatest }
        ensures rests { (m : Machine) → Stands self.now m → IsNoneArmedUpTo (sleeps_of result.now) × (elapsed_tick result.now ≡ (sleeps_of result.now).greatest) }
        ensures registered { (s : ℕ) → registered_of result.now s ≡ registered_in self.now s }
        ensures next { (m : Machine) → Stands self.now m → (answer : Option ℕ) →
            NextExpiration (elapsed_tick result.now) (registered_of result.now) (sleeps_of result.now) answer →
            IsNext m.sleeps.greatest (registered_in self.now) answer }
    {
        &self.parts.timers
    }
}
