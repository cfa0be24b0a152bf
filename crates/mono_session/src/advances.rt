// A whole clock step, for callers who do not count its steps.
ghost use Rattle.std.specs.Prelude.{◌≡◌, ◌<◌, ◌≤◌, ◌+◌, ◌++◌, ℕ, List, OnOk, OnErr, vec_len, vec_capacity};
ghost use Rattle.mono_model.specs.Due.{ListsDue};
ghost use Rattle.mono_time.specs.Instants.{nanos_of};
ghost use Rattle.mono_session.specs.Keeper.{Keeper, with_greatest};
ghost use Rattle.mono_session.specs.Steps.{closing_value, greatest_at, without_all};
ghost use Rattle.mono_session.specs.Refinement.{StandsFor, open_count, steps_left};

use crate::keeper::Sessions;
use mono_time::Instant;
use mono_wheel::Steps;
use std::alloc::{AllocError, Global};
use std::marker::Brand;
use std::sync::ledger::{Blank, Ledger};

// Closes all sessions that are due. There is room for them.
fn close_each<L: Ledger>(sessions: &mut Sessions, now: Instant, closed: &mut Vec<u64>, blank: Blank)
    requires ledger { (blank.name ≡ L.name) × (blank.parts ≡ L.parts) × (0 < L.parts) }
    requires room { vec_len closed.old + open_count sessions.old ≤ vec_capacity closed.old }
    ensures step { (k : Keeper) → StandsFor sessions.old k → (due : List ℕ) × (closed.new.items ≡ closed.old.items ++ due) × ListsDue closing_value k.sessions (greatest_at k (nanos_of now)) due × StandsFor sessions.new (without_all (with_greatest k (greatest_at k (nanos_of now))) due) }
    ensures left { steps_left sessions.new ≤ steps_left sessions.old }
{
    let mut steps: Steps<L> = Steps::new(blank);
    sessions.clock(now, closed, &mut steps);
}

impl Sessions {
    /// Shows the clock an instant, as [`Sessions::clock`] does, and appends the sessions that it closes to `closed`
    /// (`step`).
    ///
    /// Reserves room for all open sessions first. If that allocation fails, nothing has changed (`refused`). The steps
    /// of the wheel are not counted; they are at most the fall of its remaining steps (`left`).
    pub fn advance(
        &mut self,
        _alloc: Global,
        now: Instant,
        closed: &mut Vec<u64>,
    ) -> Result<(), AllocError>
        ensures step { OnOk result ((k : Keeper) → StandsFor self.old k → (due : List ℕ) × (closed.new.items ≡ closed.old.items ++ due)
            × ListsDue closing_value k.sessions (greatest_at k (nanos_of now)) due
            × StandsFor self.new (without_all (with_greatest k (greatest_at k (nanos_of now))) due)) }
        ensures refused { OnErr result ((self.new ≡ self.old) × (closed.new.items ≡ closed.old.items)) }
        ensures left { steps_left self.new ≤ steps_left self.old }
    {
        closed.reserve(self.open_len())?;
        close_each::<Brand>(self, now, closed, Blank::new(1));
        Ok(())
    }
}
