// The journal's entries before a turn and after it.
ghost use Rattle.std.specs.Prelude.{◌≡◌, ◌++◌, ◌∷◌, ◌||◌, [], IfSome, IfNone};
ghost use Rattle.mono_time.specs.Instants.{nanos_of};
ghost use Rattle.mono_machine.specs.declared.events.Event.TheVariants as event;
ghost use Rattle.mono_machine.specs.declared.events.Report.TheVariants as report;
ghost use Rattle.mono_rt.specs.declared.parts.journals.Entry.TheVariants.{Ran};
ghost use Rattle.mono_rt.specs.Record.{no_acts};
ghost use Rattle.mono_rt.specs.Journals.{Goes, Does, Stays, IsReading, ReadsAt, HasPlaces};
ghost use Rattle.mono_rt.specs.DriverReadings.{going, Telling, Still};
ghost use Rattle.mono_rt.specs.Views.{exposed};
ghost use Rattle.mono_rt.specs.Progress.{turn_answer};

use crate::parts::errors::RunError;
use crate::parts::journals::{Entry, Journal};
use crate::parts::state::Parts;
use mono_blocking::{Blockings, ThreadPool};
use mono_driver::Driver;
use mono_joinword::Outcome;
use mono_machine::{End, Ended};
use mono_time::Instant;
use std::alloc::Global;

impl<O: Outcome + Drop, P: ThreadPool + Drop> Parts<O, Blockings<P>> {
    /// Records the turn that ended.
    #[inline(always)]
    pub fn keep_turn(
        &mut self,
        alloc: Global,
        journal: &mut Journal,
        task: u64,
        end: End,
        ended: Ended,
    )
        requires { HasPlaces journal.old 1 }
        ensures history { journal.new.history.entries ≡ journal.old.history.entries ++ Ran (event.Turn self.old.acts.steps end) (report.Turn task self.old.acts.replies ended) ∷ [] }
        ensures tasks { self.new.tasks ≡ self.old.tasks }
        ensures timers { self.new.timers ≡ self.old.timers }
        ensures has_timers { self.new.has_timers ≡ self.old.has_timers }
        ensures blocking { self.new.blocking ≡ self.old.blocking }
        ensures memory { self.new.is_out_of_memory ≡ self.old.is_out_of_memory }
        ensures full { journal.new.is_full ≡ (journal.old.is_full || self.old.acts.is_full) }
        ensures held { journal.new.entries.held ≡ journal.old.entries.held }
    {
        if self.acts.is_full() {
            journal.lose_turn(task, &mut self.acts, end, ended);
            return;
        }
        journal.push_turn(alloc, task, &mut self.acts, end, ended);
    }

    /// Returns an error if memory ran out in the turn that ended.
    pub fn turn_answer(&self) -> Result<(), RunError>
        ensures { result ≡ turn_answer self.entry.now.is_out_of_memory }
    {
        if self.is_out_of_memory {
            Err(RunError::Memory)
        } else {
            Ok(())
        }
    }

    /// Reserves room for a turn, and records the reading of the clock.
    #[inline(always)]
    pub fn open_turn<D: Driver>(
        &mut self,
        alloc: Global,
        driver: &mut D,
        journal: &mut Journal,
    ) -> Option<Instant>
        ensures acts { IfSome result (λ now. self.new.acts ≡ no_acts journal.old.is_full) }
        ensures place { IfSome result (λ x. HasPlaces journal.new 1) }
        ensures reading { IfSome result (λ x. Does O.output_number IsReading self.old self.new journal.old journal.new) }
        ensures at { IfSome result (λ x. Does O.output_number (ReadsAt (nanos_of x)) self.old self.new journal.old journal.new) }
        ensures unread { IfNone result (Does O.output_number Stays self.old self.new journal.old journal.new) }
        ensures goes { Goes O.output_number self.old self.new journal.old journal.new }
        ensures same { self.new ≡ record self.old { acts = self.new.acts } }
        ensures tasks { self.new.tasks ≡ self.old.tasks }
        ensures has_timers { self.new.has_timers ≡ self.old.has_timers }
        ensures faults { D.faults driver.new ≡ D.faults driver.old }
        ensures told { Telling (Still going) (exposed D.Clock driver.old) going journal.old journal.new (exposed D.Clock driver.new) }
        ensures full { journal.new.is_full ≡ journal.old.is_full }
        ensures held { journal.new.entries.held ≡ journal.old.entries.held }
    {
        match journal.reserve(2) {
            Err(_) => None,
            Ok(()) => match self.acts.begin(alloc, journal.is_full()) {
                Err(_) => None,
                Ok(()) => {
                    let now = driver.now();
                    journal.push(Entry::Now(now.as_nanos()));
                    Some(now)
                }
            },
        }
    }
}
