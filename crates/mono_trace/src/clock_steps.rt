// A test of a clock step's list of sleeps, for any order that was chosen within a tick.
ghost use Rattle.std.specs.Prelude.{◌≡◌, ◌≤◌, MatchBool, MatchOption, IfOk, OnOk, true, false};
ghost use Rattle.mono_model.specs.Ticks.{max_nanos};
ghost use Rattle.mono_model.specs.FireOrder.{IsNoneDue};
ghost use Rattle.mono_machine.specs.Steps.{after_fires};
ghost use Rattle.mono_trace.specs.Traces.{may_follow, arms_after, may_follow_value, tick_after_value, arms_after_value};
ghost use Rattle.mono_trace.specs.Tables.{arming_of, sleep_place};
ghost use Rattle.mono_trace.specs.Trials.{Tried, are_in_turn, least_after};
ghost use Rattle.mono_machine.specs.declared.events.Event.TheVariants as event;

use crate::comparisons::is_reply;
use crate::parts::Parts;
use crate::sleeps::{Arming, Sleep};
use mono_machine::{MAX_NANOS, Refusal, Reply, Report};
use std::alloc::AllocError;

/// The progress in a list of sleeps that fire: the tick of the last sleep, and the arm number of the last sleep there
/// that was not moved.
#[derive(Clone, Copy)]
pub struct Reached {
    pub tick: u128,
    pub last: Option<u128>,
}

/// Returns whether a sleep with this arming may follow.
fn may_follow(reached: Reached, arming: Arming) -> bool
    ensures { result ≡ may_follow reached.tick (least_after reached.last) (arming_of arming) }
{
    if reached.tick < arming.tick {
        return true;
    }
    if arming.tick != reached.tick {
        return false;
    }
    match reached.last {
        None => true,
        Some(arm) => arming.is_moved || arm < arming.arm,
    }
}

/// Returns the progress after a sleep with this arming.
fn after(reached: Reached, arming: Arming) -> Reached
    ensures tick { result.tick ≡ arming.tick }
    ensures arms { least_after result.last ≡ arms_after reached.tick (least_after reached.last) (arming_of arming) }
{
    let tick = arming.tick;
    let last = if !arming.is_moved {
        Some(arming.arm)
    } else if tick == reached.tick {
        reached.last
    } else {
        None
    };
    Reached { tick, last }
}

/// Returns the progress after one more sleep, if that may follow.
fn next(reached: Reached, greatest: u128, value: Option<Sleep>) -> Option<Reached>
    ensures { MatchOption result (may_follow_value greatest reached.tick (least_after reached.last) (sleep_place value) ≡ false) (λ n. (may_follow_value greatest reached.tick (least_after reached.last) (sleep_place value) ≡ true) × (n.tick ≡ tick_after_value reached.tick (sleep_place value)) × (least_after n.last ≡ arms_after_value reached.tick (least_after reached.last) (sleep_place value))) }
{
    match value {
        Some(Sleep::Armed(arming)) => {
            if arming.tick <= greatest && may_follow(reached, arming) {
                Some(after(reached, arming))
            } else {
                None
            }
        }
        _ => None,
    }
}

impl Parts {
    /// Fires the sleeps of the list, one after another, as long as each may follow.
    fn fire_all(&mut self, fired: &[u64]) -> Result<bool, AllocError>
        ensures told { IfOk result (λ b. b ≡ are_in_turn self.old.now.sleeps.table self.old.now.sleeps.greatest 0 0 fired.now) }
        ensures machine { IfOk result (λ b. b ≡ true → self.new.now ≡ after_fires self.old.now fired.now) }
        ensures before { OnOk result (self.new.before ≡ self.old.before) }
    {
        let mut reached = Reached {
            tick: 0,
            last: None,
        };
        for s in fired {
            match next(reached, self.sleeps.greatest(), self.sleeps.get(*s)) {
                None => return Ok(false),
                Some(further) => {
                    self.fire(*s)?;
                    reached = further;
                }
            }
        }
        Ok(true)
    }

    /// Returns whether no sleep is due.
    fn is_none_due(&self) -> bool
        ensures { MatchBool result (IsNoneDue self.now.now.sleeps.table self.now.now.sleeps.greatest) (IsNoneDue self.now.now.sleeps.table self.now.now.sleeps.greatest → ⊥) }
    {
        self.sleeps.is_none_due()
    }

    /// Sets the clock to `n` nanoseconds, and fires the sleeps of the list if a clock step may list them.
    fn fire_due(&mut self, n: u128, fired: &[u64]) -> Result<bool, AllocError>
        requires { n ≤ max_nanos }
        ensures tried { IfOk result (λ b. Tried (event.Clock n) (Report.Fired fired.now) self.old self.new b) }
        ensures before { OnOk result (self.new.before ≡ self.old.before) }
    {
        self.at_clock(n);
        if !self.fire_all(fired)? {
            return Ok(false);
        }
        let told = self.is_none_due();
        Ok(told)
    }

    /// Makes a clock step if the report is a report of that step.
    pub fn clock(&mut self, n: u128, report: &Report) -> Result<bool, AllocError>
        ensures tried { IfOk result (λ b. Tried (event.Clock n) report.now self.old self.new b) }
        ensures before { OnOk result (self.new.before ≡ self.old.before) }
    {
        if n > MAX_NANOS {
            return Ok(is_reply(report, Reply::Refused(Refusal::Invalid)));
        }
        match report {
            Report::Fired(fired) => {
                let told = self.fire_due(n, fired.as_slice())?;
                Ok(told)
            }
            _ => Ok(false),
        }
    }
}
