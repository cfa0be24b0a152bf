// The sleeps that fire at a clock step, in lists that have room for them.
ghost use Rattle.std.specs.Prelude.{◌≡◌, ◌<◌, ◌≤◌, ◌+◌, ◌++◌, ◌∷◌, [], ℕ, IfOk, OnOk, vec_len, vec_capacity};
ghost use Rattle.mono_model.specs.Table.{value_at};
ghost use Rattle.mono_model.specs.Sleeps.{Sleeps};
ghost use Rattle.mono_model.specs.SleepActs as sleep;
ghost use Rattle.mono_model.specs.FireOrder.{FireInTurn};
ghost use Rattle.mono_machine.specs.Steps.{all_fired, with_first, wakers_of};
ghost use Rattle.mono_time.specs.Instants.{nanos_of};
ghost use Rattle.mono_time.specs.Sleeps.{armed_count, IsNoneArmedUpTo};
ghost use Rattle.mono_time.specs.Refinement.{Keeps};
ghost use Rattle.mono_time.specs.Timers.{sleeps_of, elapsed_tick, registered_of};
ghost use Rattle.mono_time.specs.SlotRegistration.{stepped_registered};

use crate::{Instant, Timers};
use mono_machine::List;
use mono_wheel::Steps;
use std::alloc::{AllocError, Global};
use std::mem;
use std::sync::ledger::{Blank, Ledger};

/// The sleeps that fired, in order, and the wakers of those that had one.
#[derive(Drop)]
pub struct Due {
    pub fired: Vec<u64>,
    pub wakers: Vec<u64>,
}

impl Due {
    /// Returns empty lists, which take no memory.
    pub fn new(alloc: Global) -> Due
        ensures fired { result.fired.items ≡ [] }
        ensures wakers { result.wakers.items ≡ [] }
    {
        Due {
            fired: Vec::new(alloc),
            wakers: Vec::new(alloc),
        }
    }

    /// Returns empty lists with room for all sleeps that a clock step may fire, so that the step takes no memory.
    pub fn with_room(alloc: Global, timers: &Timers) -> Result<Due, AllocError>
        ensures fired { IfOk result (λ due. (due.fired.items ≡ []) × (armed_count (sleeps_of timers.now) + vec_len due.fired ≤ vec_capacity due.fired)) }
        ensures wakers { IfOk result (λ due. (due.wakers.items ≡ []) × (armed_count (sleeps_of timers.now) + vec_len due.wakers ≤ vec_capacity due.wakers)) }
    {
        let live = timers.live() as usize;
        Ok(Due {
            fired: Vec::with_capacity(alloc, live)?,
            wakers: Vec::with_capacity(alloc, live)?,
        })
    }

    /// Empties the lists of an earlier step, and reserves room for all sleeps that the next one may fire. It takes
    /// memory only if more sleeps live than the lists ever had room for.
    pub fn make_room(&mut self, timers: &Timers) -> Result<(), AllocError>
        ensures fired { OnOk result ((self.new.fired.items ≡ []) × (armed_count (sleeps_of timers.now) + vec_len self.new.fired ≤ vec_capacity self.new.fired)) }
        ensures wakers { OnOk result ((self.new.wakers.items ≡ []) × (armed_count (sleeps_of timers.now) + vec_len self.new.wakers ≤ vec_capacity self.new.wakers)) }
    {
        let live = timers.live() as usize;
        self.fired.clear();
        self.wakers.clear();
        self.fired.reserve(live)?;
        self.wakers.reserve(live)
    }

    /// Appends one more sleep that fired, and its waker if it has one.
    fn put(&mut self, s: u64, waker: Option<u64>)
        requires room { (vec_len self.old.fired < vec_capacity self.old.fired) × (vec_len self.old.wakers < vec_capacity self.old.wakers) }
        ensures fired { self.new.fired.items ≡ self.old.fired.items ++ s ∷ [] }
        ensures wakers { self.new.wakers.items ≡ self.old.wakers.items ++ with_first waker [] }
        ensures capacities { (vec_capacity self.new.fired ≡ vec_capacity self.old.fired) × (vec_capacity self.new.wakers ≡ vec_capacity self.old.wakers) }
        ensures longer { (vec_len self.new.fired ≡ vec_len self.old.fired + 1) × (vec_len self.new.wakers ≤ vec_len self.old.wakers + 1) }
    {
        self.fired.push_reserved(s);
        if let Some(t) = waker {
            self.wakers.push_reserved(t);
        }
    }

    /// Returns the sleeps that fired as a list of just their length; `fired` keeps its memory. If the allocation fails,
    /// it returns `fired` itself, so a clock step never fails once it has begun.
    pub fn fired_apart(&mut self, alloc: Global) -> List<u64>
        ensures { result ≡ self.old.fired.items }
    {
        match Vec::from_slice(alloc, &self.fired) {
            Ok(fired) => List::from(fired),
            Err(_) => List::from(mem::replace(&mut self.fired, Vec::new(alloc))),
        }
    }

    /// Returns the sleeps that fired, in a list of just their length.
    pub fn into_fired(self) -> List<u64>
        ensures { result ≡ self.fired.items }
    {
        let mut fired = self.fired;
        fired.shrink_to_fit();
        List::from(fired)
    }
}

/// Fires all sleeps that are due at `now`, one after another, and returns them in the lists of `room`. It wakes no task
/// and takes no memory.
pub fn take_due<L: Ledger>(timers: &mut Timers, now: Instant, blank: Blank, room: Due) -> Due
    requires ledger { (blank.name ≡ L.name) × (blank.parts ≡ L.parts) × (0 < L.parts) }
    requires fired { (room.fired.items ≡ []) × (armed_count (sleeps_of timers.old) + vec_len room.fired ≤ vec_capacity room.fired) }
    requires wakers { (room.wakers.items ≡ []) × (armed_count (sleeps_of timers.old) + vec_len room.wakers ≤ vec_capacity room.wakers) }
    ensures fires { (sleeps : Sleeps) → Keeps timers.old sleeps →
        Keeps timers.new (all_fired (sleep.at_clock sleeps (nanos_of now)) result.fired.items)
        × FireInTurn (sleep.at_clock sleeps (nanos_of now)).table (sleep.at_clock sleeps (nanos_of now)).greatest result.fired.items }
    ensures wakers { (sleeps : Sleeps) → Keeps timers.old sleeps → result.wakers.items ≡ wakers_of (sleep.at_clock sleeps (nanos_of now)) result.fired.items }
    ensures has_gone { elapsed_tick timers.new ≡ (sleeps_of timers.new).greatest }
    ensures rests { IsNoneArmedUpTo (sleeps_of timers.new) }
    ensures registered { (s : ℕ) → registered_of timers.new s ≡ stepped_registered (elapsed_tick timers.old) (elapsed_tick timers.new)
        (value_at (sleeps_of timers.old).table s) (registered_of timers.old s) }
{
    let mut steps: Steps<L> = Steps::new(blank);
    let mut due = room;
    while let Some((s, waker)) = timers.clock(now, &mut steps) {
        due.put(s, waker);
    }
    due
}
