// A page: the places of 64 consecutive numbers, in one piece of memory.
ghost use Rattle.std.specs.Prelude.{◌≡◌, ◌<◌, true, [], length, IfErr, OnOk, OnErr, is_some, Some, vec_capacity};
ghost use Rattle.std.specs.Borrow.{sem};
ghost use Rattle.std.specs.Option.{option_copied};
ghost use Rattle.mono_model.specs.Table.{value_at, with_next, with_value, without, count_of};
ghost use Rattle.mono_table.specs.Layout.{left_of};
ghost use Rattle.mono_table.specs.Loans.{place_lends};

use std::alloc::Global;
use std::marker::Model;

/// How many numbers a page has.
pub(crate) const PAGE: usize = 64;

/// The places of those numbers of one page that were given out. It takes all its memory at once, with the first number.
#[derive(Drop)]
pub(crate) struct Page<T> {
    places: Vec<Option<T>>,
    live: usize,
}

impl<T> Model for Page<T> {
    ghost use Rattle.std.specs.Prelude.{vec_capacity};
    ghost use Rattle.mono_model.specs.Table.{Table};

    ghost Value = { Table T };

    ghost use Rattle.mono_table.specs.Layout.{IsPage};

    ghost view = { λ a. a.places.items };

    ghost invariant = { λ a. IsPage a.places.items (vec_capacity a.places) a.live };
}

impl<T> Page<T> {
    ghost use Rattle.mono_table.specs.Loans.{page_lends};

    /// Creates a page without places and without memory.
    pub(crate) fn new(alloc: Global) -> Page<T>
        ensures { result ≡ [] }
    {
        Page {
            places: Vec::new(alloc),
            live: 0,
        }
    }

    /// Returns how many of its numbers have a value.
    pub(crate) fn count(&self) -> usize
        ensures { result ≡ count_of self.now }
    {
        self.live
    }

    /// Returns the value at a place.
    #[inline(always)]
    pub(crate) fn get(&self, at: usize) -> Option<&T>
        ensures { option_copied result ≡ value_at self.now at }
    {
        if at >= self.places.len() {
            return None;
        }
        match &self.places[at] {
            None => None,
            Some(value) => Some(value),
        }
    }

    /// Returns the value at a place that has one, for writing.
    #[inline(always)]
    pub(crate) fn value_mut(&mut self, at: usize) -> &mut T
        requires { is_some (value_at self.old at) ≡ true }
        ensures* writes_back { sem 𝓛 (page_lends T.row self.entry at result) }
        ensures value { value_at self.old at ≡ Some result.now }
    {
        value_in(&mut self.places[at])
    }
}

// Returns the value at a place that has one, for writing.
#[inline(always)]
fn value_in<T>(place: &mut Option<T>) -> &mut T
    requires { is_some place.old ≡ true }
    ensures* writes_back { sem 𝓛 (place_lends T.row place.entry result) }
    ensures value { place.old ≡ Some result.now }
{
    match place {
        Some(value) => value,
        None => unreachable!(),
    }
}

impl<T: Drop> Page<T> {
    /// Adds a place with this value, and returns the value if refused.
    #[inline(always)]
    pub(crate) fn push_or_back(&mut self, value: T) -> Result<(), T>
        requires { length self.old < 64 }
        ensures after { OnOk result (self.new ≡ with_next self.old value) }
        ensures back { IfErr result (λ v. v ≡ value) }
        ensures refused { OnErr result (self.new ≡ self.old) }
    {
        let more = if self.places.len() == 0 { PAGE } else { 1 };
        if self.places.reserve(more).is_err() {
            return Err(value);
        }
        self.places.push_reserved(Some(value));
        self.live += 1;
        Ok(())
    }

    /// Replaces the value at a place that has one.
    pub(crate) fn set(&mut self, at: usize, value: T)
        requires { is_some (value_at self.old at) ≡ true }
        ensures { self.new ≡ with_value self.old at value }
    {
        self.places[at] = Some(value);
    }

    /// Removes the value at a place. If the page is closed and that was its last value, gives its memory back.
    #[inline(always)]
    pub(crate) fn remove(&mut self, at: usize, is_closed: bool)
        requires { is_some (value_at self.old at) ≡ true }
        ensures { self.new ≡ left_of is_closed (without self.old at) }
    {
        self.places[at] = None;
        self.live -= 1;
        if is_closed && self.live == 0 {
            give_back(&mut self.places);
        }
    }
}

// Empties a list of places and gives its memory back.
fn give_back<T: Drop>(places: &mut Vec<Option<T>>)
    ensures items { places.new.items ≡ [] }
    ensures room { vec_capacity places.new ≡ 0 }
{
    places.truncate(0);
    places.shrink_to_fit();
}
