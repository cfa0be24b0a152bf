// How the driver is parked, and for how long.
ghost use Rattle.std.specs.Prelude.{◌≡◌, Some, OnOk, OnErr, IfSome};
ghost use Rattle.mono_time.specs.Instants.{nanos_of};
ghost use Rattle.mono_time.specs.Timers.{registered_of};
ghost use Rattle.mono_machine.specs.Machine.{Machine};
ghost use Rattle.mono_rt.specs.Refinement.{hosting_of, Matches};
ghost use Rattle.mono_rt.specs.Journals.{Goes, Does, Stays, WaitsForNext};
ghost use Rattle.mono_rt.specs.Faults.{RisesIf, FaultsParked};
ghost use Rattle.mono_rt.specs.Rounds.{IsWait, IsPark};
ghost use Rattle.mono_rt.specs.DriverReadings.{going, Telling, IsParked, EndsParked};
ghost use Rattle.mono_rt.specs.Views.{exposed};

use crate::parts::errors::RunError;
use crate::parts::journals::{Entry, Journal};
use crate::parts::state::Parts;
use mono_blocking::{Blockings, ThreadPool};
use mono_driver::Driver;
use mono_joinword::Outcome;
use mono_model::Host;
use mono_time::Instant;
use std::time::Duration;

// Parks the driver for at most `wait` milliseconds. Returns whether it failed.
fn park_driver<D: Driver, R: Host>(rt: &R, driver: &mut D, wait: Option<u64>) -> bool
    ensures parked { IsParked wait result (exposed D.Clock driver.old) (exposed D.Clock driver.new) }
    ensures faults { RisesIf result (D.faults driver.old) (D.faults driver.new) }
{
    match wait {
        Some(ticks) => driver
            .park_timeout(rt, Duration::from_millis(ticks))
            .is_err(),
        None => driver.park(rt).is_err(),
    }
}

impl<O: Outcome + Drop, P: ThreadPool + Drop> Parts<O, Blockings<P>> {
    /// Returns how long the driver is parked, in milliseconds.
    fn wait_from(&self, now: Instant) -> Option<u64>
        ensures wait { (m : Machine) → Matches O.output_number hosting_of self.entry.now m → IsWait self.entry.now.has_timers m (nanos_of now) result }
        ensures next { IfSome result (λ v. (m : Machine) → Matches O.output_number hosting_of self.entry.now m → WaitsForNext m (registered_of self.entry.now.timers) (Some (nanos_of now)) v) }
    {
        if self.has_timers {
            match self.timers.next_expiration_time() {
                None => None,
                Some(tick) => Some(tick.saturating_sub(now.clock_tick())),
            }
        } else {
            None
        }
    }

    /// Reads the clock, and parks the driver. Returns whether it failed.
    pub fn park<D: Driver, R: Host>(
        &self,
        rt: &R,
        driver: &mut D,
        journal: &mut Journal,
    ) -> Result<bool, RunError>
        ensures goes { Goes O.output_number self.entry.now self.entry.now journal.old journal.new }
        ensures refused { OnErr result (Does O.output_number Stays self.entry.now self.entry.now journal.old journal.new) }
        ensures parked { OnOk result (Does O.output_number (IsPark self.entry.now.has_timers) self.entry.now self.entry.now journal.old journal.new) }
        ensures told { Telling (EndsParked result) (exposed D.Clock driver.old) going journal.old journal.new (exposed D.Clock driver.new) }
        ensures faults { FaultsParked result (D.faults driver.old) (D.faults driver.new) }
        ensures full { journal.new.is_full ≡ journal.old.is_full }
        ensures held { journal.new.entries.held ≡ journal.old.entries.held }
    {
        match journal.reserve(2) {
            Err(_) => Err(RunError::Memory),
            Ok(()) => {
                let now = driver.now();
                journal.push(Entry::Now(now.as_nanos()));
                let wait = self.wait_from(now);
                journal.push(Entry::Park(wait));
                let failed = park_driver(rt, driver, wait);
                Ok(failed)
            }
        }
    }
}
