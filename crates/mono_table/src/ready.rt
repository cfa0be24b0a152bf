// A table by number with a place that may be ready for the next number.
ghost use Rattle.std.specs.Prelude.{◌≡◌, ◌++◌, ◌∷◌, true, [], None, IfErr, OnOk, OnErr, is_some, Some};
ghost use Rattle.std.specs.Option.{option_copied};
ghost use Rattle.mono_model.specs.Table.{value_at, count_of, next_number, with_next, with_value, without};
ghost use Rattle.mono_table.specs.Ready.{HasPlace};

use crate::Table;
use std::alloc::{AllocError, Global};
use std::marker::Model;
use std::mem;

/// The values of numbers that are given out from 0 on and never twice, as the table of the reference machine. A place
/// for the next number may be ready, with a value in it. `reserve_value` makes that place with the value to be given
/// out, and `commit` gives it out. `reserve` makes it with any value, and `add` gives out another.
///
/// It costs as much as its table (`mono_table`): it gives back a page without values in which no further number is
/// given out.
#[derive(Drop)]
pub struct ReadyTable<T> {
    // The places of the numbers that were given out, then that of the next number, if it is ready.
    places: Table<T>,
    next: u64,
}

impl<T> Model for ReadyTable<T> {
    ghost use Rattle.std.specs.Prelude.{length, take};
    ghost use Rattle.mono_model.specs.Table.{value_at};
    ghost use Rattle.mono_table.specs.Ready.{Places, Lies};

    ghost Value = { Places T };

    ghost view = { λ a. record { table = take a.next a.places; room = length a.places; reserved = value_at a.places a.next } };

    ghost invariant = { λ a. Lies a.places a.next };
}

impl<T> ReadyTable<T> {
    /// Creates a table that has given out no number and has no place ready. It takes no memory.
    pub fn new(alloc: Global) -> ReadyTable<T>
        ensures { result ≡ record { table = []; room = 0; reserved = None } }
    {
        ReadyTable {
            places: Table::new(alloc),
            next: 0,
        }
    }

    /// Returns the number that is given out next, which is the count of those given out before.
    pub fn len(&self) -> u64
        ensures { result ≡ next_number self.now.table }
    {
        self.next
    }

    /// Returns how many numbers have a value.
    pub fn count(&self) -> u64
        ensures { result ≡ count_of self.now.table }
    {
        self.places.count() - (self.places.len() - self.next)
    }

    /// Returns whether a number has a value. It has none if it was removed or was never given out.
    #[inline(always)]
    pub fn has(&self, number: u64) -> bool
        ensures { result ≡ is_some (value_at self.now.table number) }
    {
        number < self.next && self.places.get(number).is_some()
    }

    /// Returns the value of a number, or `None` if it was removed or was never given out.
    #[inline(always)]
    pub fn get(&self, number: u64) -> Option<&T>
        ensures { option_copied result ≡ value_at self.now.table number }
    {
        if number >= self.next {
            return None;
        }
        self.places.get(number)
    }
}

impl<T: Drop> ReadyTable<T> {
    /// Reserves a place for the next number and puts this value into it, also if a place was ready. `commit` gives it
    /// out.
    ///
    /// Refused if out of memory, or if the numbers are used up: 2^64 - 1 is never given out. Then nothing changes, and
    /// the value comes back.
    #[inline(always)]
    pub fn reserve_value(&mut self, alloc: Global, value: T) -> Result<(), T>
        ensures place { OnOk result (HasPlace self.new) }
        ensures reserved { OnOk result (self.new.reserved ≡ Some value) }
        ensures table { self.new.table ≡ self.old.table }
        ensures back { IfErr result (λ v. v ≡ value) }
        ensures refused { OnErr result (self.new ≡ self.old) }
    {
        if self.places.len() > self.next {
            self.places.set(self.next, value);
            return Ok(());
        }
        if self.next == u64::MAX {
            return Err(value);
        }
        self.places.push_or_back(alloc, value)
    }

    /// Gives the next number out, with the value in its place. It takes no memory.
    #[inline(always)]
    pub fn commit(&mut self) -> u64
        requires { is_some self.old.reserved ≡ true }
        ensures number { result ≡ next_number self.old.table }
        ensures table { self.new.table ≡ self.old.table ++ self.old.reserved ∷ [] }
    {
        let number = self.next;
        self.next = self.places.len();
        number
    }

    /// Takes back the value in the place of the next number, and leaves another there. It takes no memory.
    #[inline(always)]
    pub fn abort(&mut self, filler: T) -> T
        requires { is_some self.old.reserved ≡ true }
        ensures value { self.old.reserved ≡ Some result }
        ensures reserved { self.new.reserved ≡ Some filler }
        ensures table { self.new.table ≡ self.old.table }
    {
        mem::replace(self.places.value_mut(self.next), filler)
    }

    /// Reserves a place for the next number, which holds this value until then.
    ///
    /// Refused if out of memory, or if the numbers are used up: 2^64 - 1 is never given out. Then nothing changes.
    #[inline(always)]
    pub fn reserve(&mut self, alloc: Global, filler: T) -> Result<(), AllocError>
        ensures place { OnOk result (HasPlace self.new) }
        ensures table { self.new.table ≡ self.old.table }
        ensures refused { OnErr result (self.new ≡ self.old) }
    {
        match self.reserve_value(alloc, filler) {
            Ok(()) => Ok(()),
            Err(_filler) => Err(AllocError),
        }
    }

    /// Gives the next number out with this value, if its place is ready. It takes no memory.
    #[inline(always)]
    pub fn add(&mut self, value: T) -> u64
        requires { HasPlace self.old }
        ensures number { result ≡ next_number self.old.table }
        ensures table { self.new.table ≡ with_next self.old.table value }
    {
        self.places.set(self.next, value);
        self.commit()
    }

    /// Replaces the value of a number that has one, and returns the old value. It takes no memory.
    #[inline(always)]
    pub fn replace(&mut self, number: u64, value: T) -> T
        requires { is_some (value_at self.old.table number) ≡ true }
        ensures table { self.new.table ≡ with_value self.old.table number value }
        ensures value { value_at self.old.table number ≡ Some result }
    {
        mem::replace(self.places.value_mut(number), value)
    }

    /// Removes the value of a number that has one. It takes no memory. It gives back the memory of a page without
    /// values in which no further number is given out.
    #[inline(always)]
    pub fn remove(&mut self, number: u64)
        requires { is_some (value_at self.old.table number) ≡ true }
        ensures { self.new.table ≡ without self.old.table number }
    {
        self.places.remove(number);
    }
}
