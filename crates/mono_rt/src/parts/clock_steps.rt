// A clock step: reads the clock and fires the due sleeps.
ghost use Rattle.std.specs.Prelude.{◌≡◌, ◌≤◌, ◌+◌, [], true, vec_len, vec_capacity, OnOk, OnErr, IfSome, IfNone};
ghost use Rattle.mono_rt.specs.Outputs.{AddsNone};
ghost use Rattle.mono_time.specs.Instants.{nanos_of};
ghost use Rattle.mono_time.specs.Sleeps.{armed_count};
ghost use Rattle.mono_time.specs.Timers.{sleeps_of};
ghost use Rattle.mono_rt.specs.Journals.{Goes, Does, Stays, HasPlaces};
ghost use Rattle.mono_rt.specs.Rounds.{IsClock};
ghost use Rattle.mono_rt.specs.DriverReadings.{Course, Telling, IsRead, Still};
ghost use Rattle.mono_rt.specs.Views.{exposed};

use crate::parts::errors::RunError;
use crate::parts::journals::Journal;
use crate::parts::state::Parts;
use mono_blocking::{Blockings, ThreadPool};
use mono_driver::Driver;
use mono_joinword::Outcome;
use mono_task::wake_all;
use mono_time::{Due, Instant, Timers, take_due};
use std::alloc::Global;
use std::marker::Brand;
use std::mem;
use std::sync::ledger::Blank;

// Reserves room for a clock step, and reads the clock.
fn open_clock<D: Driver>(
    timers: &Timers,
    driver: &mut D,
    journal: &mut Journal,
    lists: &mut Due,
) -> Option<Instant>
    ensures place { IfSome result (λ now. HasPlaces journal.new 1) }
    ensures fired { IfSome result (λ now. (lists.new.fired.items ≡ []) × (armed_count (sleeps_of timers.now) + vec_len lists.new.fired ≤ vec_capacity lists.new.fired)) }
    ensures wakers { IfSome result (λ now. (lists.new.wakers.items ≡ []) × (armed_count (sleeps_of timers.now) + vec_len lists.new.wakers ≤ vec_capacity lists.new.wakers)) }
    ensures history { journal.new.history.entries ≡ journal.old.history.entries }
    ensures full { journal.new.is_full ≡ journal.old.is_full }
    ensures read { IfSome result (λ now. IsRead (nanos_of now) (exposed D.Clock driver.old) (exposed D.Clock driver.new)) }
    ensures unread { IfNone result (driver.new ≡ driver.old) }
    ensures faults { D.faults driver.new ≡ D.faults driver.old }
    ensures held { journal.new.entries.held ≡ journal.old.entries.held }
{
    match journal.reserve(1) {
        Err(_) => None,
        Ok(()) => match lists.make_room(timers) {
            Err(_) => None,
            Ok(()) => Some(driver.now()),
        },
    }
}

impl<O: Outcome + Drop, P: ThreadPool + Drop> Parts<O, Blockings<P>> {
    /// Reads the clock, and fires the due sleeps. If it runs out of memory, nothing changes, since room for all sleeps
    /// that may fire is reserved first. The lists of the step before serve it, so a step takes memory only if more sleeps
    /// live than at any step before, or for the entry that a kept journal gets.
    pub fn clock_step<D: Driver>(
        &mut self,
        alloc: Global,
        driver: &mut D,
        journal: &mut Journal,
        lists: &mut Due,
    ) -> Result<(), RunError>
        requires { self.old.has_timers ≡ true }
        ensures goes { Goes O.output_number self.old self.new journal.old journal.new }
        ensures clocked { OnOk result (Does O.output_number IsClock self.old self.new journal.old journal.new) }
        ensures refused { OnErr result (self.new ≡ self.old) }
        ensures undone { OnErr result (Does O.output_number Stays self.old self.new journal.old journal.new) }
        ensures has_timers { self.new.has_timers ≡ self.old.has_timers }
        ensures turn { self.new.tasks.turn ≡ self.old.tasks.turn }
        ensures turns { self.new.tasks.turns ≡ self.old.tasks.turns }
        ensures adds { AddsNone self.old.tasks.tasks self.new.tasks.tasks }
        ensures faults { D.faults driver.new ≡ D.faults driver.old }
        ensures told { (course : Course) → Telling (Still course) (exposed D.Clock driver.old) course journal.old journal.new (exposed D.Clock driver.new) }
        ensures full { journal.new.is_full ≡ journal.old.is_full }
        ensures held { journal.new.entries.held ≡ journal.old.entries.held }
    {
        let Some(now) = open_clock(&self.timers, driver, journal, lists) else {
            return Err(RunError::Memory);
        };
        let room = mem::replace(lists, Due::new(alloc));
        let due = take_due::<Brand>(&mut self.timers, now, Blank::new(1), room);
        wake_all(&mut self.tasks, &due.wakers);
        *lists = journal.push_fires(alloc, now.as_nanos(), due);
        Ok(())
    }
}
