// Parts of one kind under keys, made at run time.
ghost use Rattle.std.specs.Prelude.{◌≡◌, ◌↔◌, IsTrue, true, [], ℕ, Some, is_some};
ghost use Rattle.std.specs.Borrow.{sem};
ghost use Rattle.std.specs.Option.{option_copied};
ghost use Rattle.mono_model.specs.Table.{value_at, count_of, without};
ghost use Rattle.mono_task.specs.Owed.{Hands};
ghost use Rattle.mono_sync.specs.Many.{parts_of, lists_each, tasks_each, waits_each, LeadsEach, IsFull, IsNoted, IsIdle, Makes, Removes, HandsAt};
ghost use Rattle.mono_sync.specs.PlaceLends.{place_lends};
ghost use Rattle.mono_sync.specs.ManyLeads.{each_itself, each_on, each_some};

use crate::touched::Touched;
use mono_table::Table;
use mono_task::SharedState;
use std::alloc::Global;
use std::marker::Model;
use thiserror::Error;

/// A shared value that answers whether it is idle.
pub trait Idle: SharedState {
    /// Returns whether no task waits in the value and none is owed a wake.
    fn is_idle(&self) -> bool
        ensures { IsTrue result ↔ IsIdle Self.waiting Self.owes self.now };
}

/// The reason why no part was removed.
#[derive(Debug, Drop, Error)]
pub enum RemoveError {
    /// The key was never given out, or its part was removed.
    #[error("no part has this key")]
    Missing,
    /// A task waits in the part, or is owed a wake.
    #[error("a task waits in this part")]
    InUse,
}

/// Parts of one kind, each under a key of its own. The keys count from 0, and none is used again.
///
/// A task makes a part in its turn (`make`), and removes it once its work is done (`remove`). The memory follows the parts
/// that are there, as `mono_table` says.
///
/// The value is a list: for each key that was given out its part, or none if it was removed.
#[derive(Drop)]
pub struct Many<X: SharedState> {
    places: Table<Option<X>>,
    // The keys of the parts that may owe a wake.
    touched: Touched,
}

impl<X: SharedState> Model for Many<X> {
    ghost use Rattle.mono_model.specs.Table as model;

    ghost Value = { model.Table X };

    ghost use Rattle.mono_sync.specs.Many.{parts_of, IsNoted};

    ghost view = { λ a. parts_of a.places };

    ghost invariant = { λ a. IsNoted X.owes a.places a.touched };
}

/// Each part is led, parts come, and idle ones go. What the part with the least key owes comes first.
impl<X: SharedState> SharedState for Many<X> {
    ghost leads = { λ a b. LeadsEach X.leads X.waiting X.owes a b };

    ghost names = { λ a. waits_each X.waiting a };

    ghost lists = { λ a. lists_each X.lists a };

    ghost waiting = { λ a. tasks_each X.waiting a };

    ghost owes = { λ a. tasks_each X.owes a };

    fn next_owed(&mut self) -> Option<u64> {
        hand_out(&mut self.places, &mut self.touched)
    }

    ghost leads_itself = { λ a. each_itself X.leads X.waiting X.owes X.leads_itself a };

    ghost leads_on = { λ a b c. each_on X.leads X.waiting X.owes X.leads_on a b c };

    ghost lists_some = { λ a. each_some X.lists X.waiting X.lists_some a };
}

impl<X: SharedState> Many<X> {
    ghost use Rattle.mono_sync.specs.ManyLends.{many_lends};

    /// Returns a value without parts, which has given out no key.
    pub fn new(alloc: Global) -> Many<X>
        ensures { result ≡ [] }
    {
        Many {
            places: Table::new(alloc),
            touched: Touched::new(alloc),
        }
    }

    /// Returns how many parts there are.
    pub fn len(&self) -> u64
        ensures { result ≡ count_of self.now }
    {
        self.places.count()
    }

    /// Returns the part with this key, or `None` if it was removed or never made.
    #[inline(always)]
    pub fn get(&self, key: u64) -> Option<&X>
        ensures { option_copied result ≡ value_at self.now key }
    {
        match self.places.get(key) {
            Some(Some(part)) => Some(part),
            _ => None,
        }
    }

    /// Returns the part with this key, to be read and changed. The last value under the reference is the part afterwards,
    /// and no other part changes (`writes_back`). The runtime takes what it owes after the turn.
    #[inline(always)]
    pub fn part_mut(&mut self, key: u64) -> &mut X
        requires { is_some (value_at self.old key) ≡ true }
        ensures* writes_back { sem 𝓛 (many_lends X.row X.SharedState self.entry key result) }
        ensures value { value_at self.old key ≡ Some result.now }
    {
        let place = self.places.value_mut(key);
        self.touched.mark(key);
        in_place(place)
    }
}

impl<X: SharedState + Drop> Many<X> {
    /// Makes a part, and returns its key, which is the next. The part comes back if out of memory, or if the keys are used
    /// up.
    pub fn make(&mut self, alloc: Global, part: X) -> Result<u64, X>
        ensures made { Makes self.old part result self.new }
    {
        let key = self.places.len();
        if key == u64::MAX {
            return Err(part);
        }
        match self.places.push_or_back(alloc, Some(part)) {
            Ok(()) => {
                self.touched.mark(key);
                Ok(key)
            }
            Err(Some(part)) => Err(part),
            Err(None) => unreachable!(),
        }
    }
}

impl<X: Idle + Drop> Many<X> {
    /// Removes the part with this key, and returns it.
    ///
    /// Refused with `Missing` if it was removed or never made, and with `InUse` while a task waits in it or is owed a wake.
    /// Close such a part first: the runtime wakes its tasks after the turn, and then it can be removed.
    pub fn remove(&mut self, key: u64) -> Result<X, RemoveError>
        ensures removed { Removes X.waiting X.owes self.old key result self.new }
    {
        match self.get(key) {
            None => return Err(RemoveError::Missing),
            Some(part) => {
                if !part.is_idle() {
                    return Err(RemoveError::InUse);
                }
            }
        }
        Ok(take_out(&mut self.places, key))
    }
}

// Returns the part in a place that has one, to be read and changed.
#[inline(always)]
fn in_place<X>(place: &mut Option<X>) -> &mut X
    requires { is_some place.old ≡ true }
    ensures* writes_back { sem 𝓛 (place_lends X.row place.entry result) }
    ensures value { place.old ≡ Some result.now }
{
    match place {
        Some(part) => part,
        None => unreachable!(),
    }
}

// Takes the part out of a place that has one.
fn take_part<X: Drop>(place: &mut Option<X>) -> X
    requires { is_some place.old ≡ true }
    ensures { place.old ≡ Some result }
{
    match place.take() {
        Some(part) => part,
        None => unreachable!(),
    }
}

// Removes the part with this key, with its place.
fn take_out<X: Drop>(places: &mut Table<Option<X>>, key: u64) -> X
    requires full { IsFull places.old }
    requires there { is_some (value_at (parts_of places.old) key) ≡ true }
    ensures value { value_at (parts_of places.old) key ≡ Some result }
    ensures without { places.new ≡ without places.old key }
{
    let part = take_part(places.value_mut(key));
    places.remove(key);
    part
}

// Asks the part with this key for the first task that it owes a wake.
fn hand_at<X: SharedState>(places: &mut Table<Option<X>>, key: u64) -> Option<u64>
    requires full { IsFull places.old }
    ensures full { IsFull places.new }
    ensures hands { HandsAt X.leads X.lists X.owes key (parts_of places.old) result (parts_of places.new) }
{
    if places.get(key).is_none() {
        return None;
    }
    in_place(places.value_mut(key)).next_owed()
}

// Takes the first task that a part owes a wake.
fn hand_out<X: SharedState>(places: &mut Table<Option<X>>, touched: &mut Touched) -> Option<u64>
    requires noted { IsNoted X.owes places.old touched.old }
    ensures noted { IsNoted X.owes places.new touched.new }
    ensures hands { Hands (lists_each X.lists) (tasks_each X.owes) (parts_of places.old) result (parts_of places.new) }
    ensures leads { LeadsEach X.leads X.waiting X.owes (parts_of places.old) (parts_of places.new) }
{
    while let Some(key) = touched.first(places.len()) {
        if let Some(task) = hand_at(places, key) {
            return Some(task);
        }
        touched.pass(key);
    }
    touched.clear();
    None
}
