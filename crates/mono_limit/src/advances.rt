// A whole clock step, for callers who do not count its steps.
ghost use Rattle.std.specs.Prelude.{◌≡◌, ◌<◌, ◌≤◌, ◌+◌, OnOk, OnErr, vec_len, vec_capacity};
ghost use Rattle.mono_model.specs.Table.{count_of};
ghost use Rattle.mono_time.specs.Instants.{nanos_of};
ghost use Rattle.mono_limit.specs.Limits.{limits_of, credit_of, ListsInto};

use crate::limiter::Limiter;
use mono_time::Instant;
use mono_wheel::Steps;
use std::alloc::{AllocError, Global};
use std::marker::Brand;
use std::sync::ledger::{Blank, Ledger};

// Ends all waits that are due. There is room for them.
fn end_each<L: Ledger>(limiter: &mut Limiter, now: Instant, due: &mut Vec<u64>, blank: Blank)
    requires ledger { (blank.name ≡ L.name) × (blank.parts ≡ L.parts) × (0 < L.parts) }
    requires room { vec_len due.old + count_of (limits_of limiter.old).retries ≤ vec_capacity due.old }
    ensures due { ListsInto (limits_of limiter.old) (nanos_of now) due.old.items due.new.items (limits_of limiter.new) }
    ensures credit { credit_of limiter.new ≤ credit_of limiter.old }
{
    let mut steps: Steps<L> = Steps::new(blank);
    limiter.clock(now, due, &mut steps);
}

impl Limiter {
    /// Shows the clock a moment, as [`Limiter::clock`] does, and appends the retries whose wait ends to `due` (`due`).
    ///
    /// Reserves room for all live retries first. If that allocation fails, nothing has changed (`refused`). The steps
    /// of the wheel are not counted; they are at most the fall of its credit (`credit`).
    pub fn advance(
        &mut self,
        _alloc: Global,
        now: Instant,
        due: &mut Vec<u64>,
    ) -> Result<(), AllocError>
        ensures due { OnOk result (ListsInto (limits_of self.old) (nanos_of now) due.old.items due.new.items (limits_of self.new)) }
        ensures refused { OnErr result ((self.new ≡ self.old) × (due.new.items ≡ due.old.items)) }
        ensures credit { credit_of self.new ≤ credit_of self.old }
    {
        due.reserve(self.live())?;
        end_each::<Brand>(self, now, due, Blank::new(1));
        Ok(())
    }
}
