// A whole clock step, for callers that do not count its steps.
ghost use Rattle.std.specs.Prelude.{◌≡◌, ◌<◌, ◌≤◌, ◌+◌, ℕ, OnOk, OnErr, vec_len, vec_capacity};
ghost use Rattle.mono_time.specs.Instants.{nanos_of};
ghost use Rattle.mono_time.specs.Sleeps.{armed_count};
ghost use Rattle.mono_model.specs.Table.{value_at};
ghost use Rattle.mono_time.specs.SlotRegistration.{stepped_registered};
ghost use Rattle.mono_time.specs.Timers.{sleeps_of, elapsed_tick, registered_of};
ghost use Rattle.mono_time.specs.Fires.{FiredAll};

use crate::{Instant, Timers};
use mono_wheel::Steps;
use std::alloc::{AllocError, Global};
use std::marker::Brand;
use std::sync::ledger::{Blank, Ledger};

// Fires all sleeps that are due. There is room for them.
fn fire_each<L: Ledger>(
    timers: &mut Timers,
    now: Instant,
    fired: &mut Vec<(u64, Option<u64>)>,
    blank: Blank,
)
    requires ledger { (blank.name ≡ L.name) × (blank.parts ≡ L.parts) × (0 < L.parts) }
    requires room { vec_len fired.old + armed_count (sleeps_of timers.old) ≤ vec_capacity fired.old }
    ensures fires { FiredAll timers.old timers.new (nanos_of now) fired.old.items fired.new.items }
    ensures has_gone { elapsed_tick timers.new ≡ (sleeps_of timers.new).greatest }
    ensures registered { (s : ℕ) → registered_of timers.new s ≡ stepped_registered (elapsed_tick timers.old) (elapsed_tick timers.new) (value_at (sleeps_of timers.old).table s) (registered_of timers.old s) }
{
    let mut steps: Steps<L> = Steps::new(blank);
    while let Some(one) = timers.clock(now, &mut steps) {
        fired.push_reserved(one);
    }
}

impl Timers {
    /// Fires all sleeps that are due at a reading, as [`Timers::clock`] does one by one. It appends their numbers and
    /// wakers to the list, in the order in which they fired (`fires`).
    ///
    /// It first reserves room for all live sleeps. If that fails, nothing has changed (`refused`), so no fired number
    /// is ever lost. It does not count the steps.
    pub fn fire_all(
        &mut self,
        _alloc: Global,
        now: Instant,
        fired: &mut Vec<(u64, Option<u64>)>,
    ) -> Result<(), AllocError>
        ensures fires { OnOk result (FiredAll self.old self.new (nanos_of now) fired.old.items fired.new.items) }
        ensures refused { OnErr result ((self.new ≡ self.old) × (fired.new.items ≡ fired.old.items)) }
        // These clauses show the wheel under the table.
        ensures elapsed { OnOk result (elapsed_tick self.new ≡ (sleeps_of self.new).greatest) }
        ensures registered { OnOk result ((s : ℕ) → registered_of self.new s
            ≡ stepped_registered (elapsed_tick self.old) (elapsed_tick self.new) (value_at (sleeps_of self.old).table s)
            (registered_of self.old s)) }
    {
        fired.reserve(self.live() as usize)?;
        fire_each::<Brand>(self, now, fired, Blank::new(1));
        Ok(())
    }
}
