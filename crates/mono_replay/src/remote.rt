// Wakes from other threads, which wait in the inbox until it is drained.
ghost use Rattle.std.specs.Prelude.{◌≡◌, IfOk, OnErr, OnOk};
ghost use Rattle.mono_machine.specs.Machine.{Machine};
ghost use Rattle.mono_machine.specs.Steps.{remote_report, after_remote, after_drain};
ghost use Rattle.mono_replay.specs.PartRefinement.{Matches};
ghost use Rattle.mono_machine.specs.declared.events.Report.TheVariants as report;

use crate::parts::Parts;
use crate::{List, Refusal, Reply, Report};
use mono_task::{TaskError, wake_all};
use std::alloc::{AllocError, Global};

impl Parts {
    /// Puts a task that another thread wakes into the inbox. It takes no memory.
    pub fn remote(&mut self, t: u64) -> Report
        ensures report { (m : Machine) → Matches self.old m → result ≡ remote_report m t }
        ensures matches { (m : Machine) → Matches self.old m → Matches self.new (after_remote m t) }
        ensures turn { self.new.tasks.turn ≡ self.old.tasks.turn }
        ensures timers { self.new.timers ≡ self.old.timers }
    {
        match self.tasks.is_finished(t) {
            Err(TaskError::NoTask) => Report::Reply(Reply::Refused(Refusal::NoTask)),
            _ => {
                if self.inbox.put(t) {
                    Report::Listed
                } else {
                    Report::Unlisted
                }
            }
        }
    }

    /// Empties the inbox, and wakes each listed task in order. If memory runs out, nothing changes (`refused`).
    pub fn drain(&mut self, alloc: Global) -> Result<Report, AllocError>
        ensures report { IfOk result (λ r. (m : Machine) → Matches self.old m → r ≡ report.Drained m.inbox) }
        ensures matches { OnOk result ((m : Machine) → Matches self.old m → Matches self.new (after_drain m)) }
        ensures refused { OnErr result (self.new ≡ self.old) }
        ensures turn { self.new.tasks.turn ≡ self.old.tasks.turn }
        ensures timers { self.new.timers ≡ self.old.timers }
    {
        let mut woken = Vec::with_capacity(alloc, self.inbox.waiting())?;
        self.inbox.drain(&mut woken);
        wake_all(&mut self.tasks, &woken);
        Ok(Report::Drained(List::from(woken)))
    }
}
