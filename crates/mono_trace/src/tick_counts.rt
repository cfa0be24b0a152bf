// The sleeps by number, with the number of armed sleeps at each tick.
ghost use Rattle.std.specs.Prelude.{◌≡◌, [], OnOk, Some, is_some, true, map, MatchBool};
ghost use Rattle.mono_model.specs.Table.{value_at, next_number, with_next, with_value, without, count_of};
ghost use Rattle.mono_model.specs.FireOrder.{IsNoneDue};
ghost use Rattle.mono_trace.specs.Versions.{kept, changed};
ghost use Rattle.mono_trace.specs.Tables.{sleep_place};
ghost use Rattle.mono_trace.specs.TickCounts.{AreTicks, armed_tick, armed_count};

use crate::places::Places;
use crate::sleeps::Sleep;
use crate::ticks::Ticks;
use std::alloc::{AllocError, Global};
use std::marker::Model;

/// A table of sleeps, and the number of armed sleeps at each tick, in the order of ticks.
///
/// Contracts see the table alone, as it is and as it was when its changes were last kept. The table is empty once it
/// was out of memory.
#[derive(Drop)]
pub struct SleepPlaces {
    places: Places<Sleep>,
    ticks: Ticks,
}

impl Model for SleepPlaces {
    ghost use Rattle.std.specs.Prelude.{List, Option};
    ghost use Rattle.mono_trace.specs.Versions.{Versions};
    ghost use Rattle.mono_trace.specs.TickCounts.{AreTicks, armed_count};
    ghost use Rattle.mono_trace.specs.declared.sleeps.Sleep.{Sleep as CodeSleep};

    ghost Value = { Versions (List (Option CodeSleep)) };

    ghost view = { λ a. a.places };

    ghost invariant = { λ a. AreTicks (armed_count a.places.now) (armed_count a.places.before) a.ticks };
}

/// Returns the tick of an armed sleep.
fn armed_at(value: Option<Sleep>) -> Option<u128>
    ensures { result ≡ armed_tick value }
{
    match value {
        Some(Sleep::Armed(arming)) => Some(arming.tick),
        _ => None,
    }
}

/// Stores another value under a number that has a value, and counts it.
fn set(
    places: &mut Places<Sleep>,
    ticks: &mut Ticks,
    number: u64,
    value: Sleep,
) -> Result<(), AllocError>
    requires there { is_some (value_at places.old.now number) ≡ true }
    requires ticks { AreTicks (armed_count places.old.now) (armed_count places.old.before) ticks.old }
    ensures places { OnOk result (places.new ≡ changed places.old (with_value places.old.now number value)) }
    ensures ticks { OnOk result (AreTicks (armed_count places.new.now) (armed_count places.new.before) ticks.new) }
{
    let from = armed_at(places.get(number));
    places.set(number, value)?;
    ticks.change(from, armed_at(Some(value)))
}

/// Removes the value of a number that has one, and no longer counts it.
fn remove(places: &mut Places<Sleep>, ticks: &mut Ticks, number: u64) -> Result<(), AllocError>
    requires there { is_some (value_at places.old.now number) ≡ true }
    requires ticks { AreTicks (armed_count places.old.now) (armed_count places.old.before) ticks.old }
    ensures places { OnOk result (places.new ≡ changed places.old (without places.old.now number)) }
    ensures ticks { OnOk result (AreTicks (armed_count places.new.now) (armed_count places.new.before) ticks.new) }
{
    let from = armed_at(places.get(number));
    places.remove(number)?;
    ticks.change(from, None)
}

impl SleepPlaces {
    /// Returns a table in which no number was given out.
    pub fn new(alloc: Global) -> SleepPlaces
        ensures { result ≡ kept [] }
    {
        SleepPlaces {
            places: Places::new(alloc),
            ticks: Ticks::new(alloc),
        }
    }

    /// Returns the number that is given out next.
    pub fn next_number(&self) -> u64
        ensures { result ≡ next_number self.now.now }
    {
        self.places.next_number()
    }

    /// Returns how many numbers have a value.
    pub fn live(&self) -> u64
        ensures { result ≡ count_of self.now.now }
    {
        self.places.live()
    }

    /// Returns the sleep with this number. Returns `None` if it was never given out, or was removed.
    pub fn get(&self, number: u64) -> Option<Sleep>
        ensures { result ≡ value_at self.now.now number }
    {
        self.places.get(number)
    }

    /// Gives out the next number, with a sleep that was never polled.
    pub fn push_fresh(&mut self, nanos: u128) -> Result<(), AllocError>
        ensures { OnOk result (self.new ≡ changed self.old (with_next self.old.now (Sleep.Fresh nanos))) }
    {
        self.places.push(Sleep::Fresh(nanos))
    }

    /// Stores another value under a number that has a value.
    pub fn set(&mut self, number: u64, value: Sleep) -> Result<(), AllocError>
        requires { is_some (value_at self.old.now number) ≡ true }
        ensures { OnOk result (self.new ≡ changed self.old (with_value self.old.now number value)) }
    {
        match set(&mut self.places, &mut self.ticks, number, value) {
            Ok(()) => Ok(()),
            Err(_) => {
                self.places.clear();
                self.ticks.clear();
                Err(AllocError)
            }
        }
    }

    /// Removes the value of a number that has one.
    pub fn remove(&mut self, number: u64) -> Result<(), AllocError>
        requires { is_some (value_at self.old.now number) ≡ true }
        ensures { OnOk result (self.new ≡ changed self.old (without self.old.now number)) }
    {
        match remove(&mut self.places, &mut self.ticks, number) {
            Ok(()) => Ok(()),
            Err(_) => {
                self.places.clear();
                self.ticks.clear();
                Err(AllocError)
            }
        }
    }

    /// Returns whether no sleep is armed at a tick up to this one.
    pub fn is_none_due(&self, greatest: u128) -> bool
        ensures { MatchBool result (IsNoneDue (map sleep_place self.now.now) greatest) (IsNoneDue (map sleep_place self.now.now) greatest → ⊥) }
    {
        self.ticks.are_above(greatest)
    }

    /// Keeps all changes, so that they cannot be taken back any more.
    pub fn keep(&mut self)
        ensures { self.new ≡ kept self.old.now }
    {
        self.places.keep();
        self.ticks.keep();
    }

    /// Takes back all changes since they were last kept.
    pub fn take_back(&mut self) -> Result<(), AllocError>
        ensures { OnOk result (self.new ≡ kept self.old.before) }
    {
        self.places.take_back();
        match self.ticks.take_back() {
            Ok(()) => Ok(()),
            Err(_) => {
                self.places.clear();
                self.ticks.clear();
                Err(AllocError)
            }
        }
    }
}
