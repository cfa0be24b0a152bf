// A clock step, at which the due sleeps fire.
ghost use Rattle.std.specs.Prelude.{◌≡◌, ◌<◌, ◌≤◌, ◌+◌, [], ℕ, IfOk, OnOk, OnErr, vec_len, vec_capacity};
ghost use Rattle.mono_model.specs.FireOrder.{FireInTurn};
ghost use Rattle.mono_time.specs.Instants.{nanos_of};
ghost use Rattle.mono_time.specs.Sleeps.{armed_count};
ghost use Rattle.mono_time.specs.Timers.{sleeps_of, elapsed_tick, registered_of};
ghost use Rattle.mono_time.specs.SlotRegistration.{stepped_registered};
ghost use Rattle.mono_model.specs.Table.{value_at};
ghost use Rattle.mono_machine.specs.Machine.{Machine};
ghost use Rattle.mono_machine.specs.Steps.{ClockStep, at_clock, after_fires};
ghost use Rattle.mono_replay.specs.PartRefinement.{Matches, MatchesInStep};
ghost use Rattle.mono_time.specs.Registrations.{registered_after};
ghost use Rattle.mono_machine.specs.declared.events.Event.TheVariants as event;

use crate::parts::Parts;
use crate::{Refusal, Reply, Report};
use mono_task::{Tasks, wake_all};
use mono_time::{Due, Instant, Timers, take_due};
use std::alloc::{AllocError, Global};
use std::marker::Brand;
use std::mem;
use std::sync::ledger::{Blank, Ledger};

/// Fires all due sleeps, one after another, and then wakes their wakers in the same order.
fn fire_all<L: Ledger>(
    timers: &mut Timers,
    tasks: &mut Tasks<u64>,
    now: Instant,
    blank: Blank,
    room: Due,
) -> Due
    requires ledger { (blank.name ≡ L.name) × (blank.parts ≡ L.parts) × (0 < L.parts) }
    requires fired { (room.fired.items ≡ []) × (armed_count (sleeps_of timers.old) + vec_len room.fired ≤ vec_capacity room.fired) }
    requires wakers { (room.wakers.items ≡ []) × (armed_count (sleeps_of timers.old) + vec_len room.wakers ≤ vec_capacity room.wakers) }
    ensures fires { (m : Machine) → MatchesInStep timers.old tasks.old m → MatchesInStep timers.new tasks.new (after_fires (at_clock m (nanos_of now)) result.fired.items) × FireInTurn (at_clock m (nanos_of now)).sleeps.table (at_clock m (nanos_of now)).sleeps.greatest result.fired.items }
    ensures has_gone { elapsed_tick timers.new ≡ (sleeps_of timers.new).greatest }
    ensures turn { tasks.new.turn ≡ tasks.old.turn }
    ensures registered { (s : ℕ) → registered_of timers.new s ≡ stepped_registered (elapsed_tick timers.old) (elapsed_tick timers.new) (value_at (sleeps_of timers.old).table s) (registered_of timers.old s) }
{
    let due = take_due::<L>(timers, now, blank, room);
    wake_all(tasks, &due.wakers);
    due
}

impl Parts {
    /// Shows the clock a reading, in nanoseconds, and fires the due sleeps. If memory runs out, nothing changes
    /// (`memory`), since the room for all that may fire is reserved first, in the borrowed lists.
    #[inline(always)]
    pub fn clock(&mut self, alloc: Global, n: u128, lent: &mut Due) -> Result<Report, AllocError>
        ensures steps { IfOk result (λ r. (m : Machine) → Matches self.old m → (new : Machine) × ClockStep m n r new × Matches self.new new) }
        ensures turn { self.new.tasks.turn ≡ self.old.tasks.turn }
        ensures memory { OnErr result (self.new ≡ self.old) }
        ensures registered { OnOk result ((m : Machine) → Matches self.old m → (s : ℕ) → registered_of self.new.timers s ≡ registered_after (event.Clock n) m s (registered_of self.old.timers s)) }
    {
        match Instant::from_nanos(n) {
            None => Ok(Report::Reply(Reply::Refused(Refusal::Invalid))),
            Some(now) => {
                lent.make_room(&self.timers)?;
                let room = mem::replace(lent, Due::new(alloc));
                let mut due = fire_all::<Brand>(
                    &mut self.timers,
                    &mut self.tasks,
                    now,
                    Blank::new(1),
                    room,
                );
                let fired = due.fired_apart(alloc);
                *lent = due;
                Ok(Report::Fired(fired))
            }
        }
    }
}
