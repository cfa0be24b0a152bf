// A table by number whose changes can be taken back.
ghost use Rattle.std.specs.Prelude.{◌≡◌, [], Some, OnOk, OnErr, is_some, true, List};
ghost use Rattle.mono_model.specs.Table.{value_at, next_number, is_issued, with_next, with_value, without, count_of};
ghost use Rattle.mono_trace.specs.Versions.{kept, changed, undone};

use std::alloc::{AllocError, AllocFailed, Global};
use std::marker::Model;

/// One change of a table: a number was given out, or a number had this value.
#[derive(Drop)]
pub enum Change<V> {
    Added,
    Had(u64, V),
}

/// A table by number: the value of each number that was given out, or none once it was removed.
///
/// Contracts see the table as it is and as it was when its changes were last kept.
#[derive(Drop)]
pub struct Places<V> {
    items: Vec<Option<V>>,
    live: u64,
    live_before: u64,
    changes: Vec<Change<V>>,
}

impl<V> Model for Places<V> {
    ghost use Rattle.std.specs.Prelude.{◌≡◌, List, Option};
    ghost use Rattle.mono_model.specs.Table.{count_of};
    ghost use Rattle.mono_trace.specs.Versions.{Versions, undone};

    ghost Value = { Versions (List (Option V)) };

    ghost view = { λ a. record { now = a.items.items; before = undone a.changes.items a.items.items } };

    ghost invariant = { λ a. (a.live ≡ count_of a.items.items) × (a.live_before ≡ count_of (undone a.changes.items a.items.items)) };
}

/// Takes back all changes, the last first.
#[tactic(auto, using(crate::proofs::UndoLemmas::undone_last, crate::proofs::UndoLemmas::undone_past))]
fn take_back<V: Copy + Drop>(items: &mut Vec<Option<V>>, changes: &mut Vec<Change<V>>)
    ensures items { items.new.items ≡ undone changes.old.items items.old.items }
    ensures changes { changes.new.items ≡ [] }
{
    while let Some(change) = changes.pop() {
        match change {
            Change::Added => {
                items.pop();
            }
            Change::Had(number, value) => {
                if (number as usize) < items.len() {
                    items[number as usize] = Some(value);
                }
            }
        }
    }
}

impl<V: Copy + Drop> Places<V> {
    /// Returns a table in which no number was given out.
    pub fn new(alloc: Global) -> Places<V>
        ensures { result ≡ kept [] }
    {
        Places {
            items: Vec::new(alloc),
            live: 0,
            live_before: 0,
            changes: Vec::new(alloc),
        }
    }

    /// Returns the number that is given out next.
    pub fn next_number(&self) -> u64
        ensures { result ≡ next_number self.now.now }
    {
        self.items.len() as u64
    }

    /// Returns how many numbers have a value.
    pub fn live(&self) -> u64
        ensures { result ≡ count_of self.now.now }
    {
        self.live
    }

    /// Returns whether this number was given out.
    pub fn is_issued(&self, number: u64) -> bool
        ensures { result ≡ is_issued self.now.now number }
    {
        number < self.items.len() as u64
    }

    /// Returns the value of a number. Returns `None` if it was never given out, or was removed.
    pub fn get(&self, number: u64) -> Option<V>
        ensures { result ≡ value_at self.now.now number }
    {
        match self.items.get(number as usize) {
            None => None,
            Some(place) => *place,
        }
    }

    /// Gives out the next number, with this value.
    pub fn push(&mut self, value: V) -> Result<(), AllocError>
        ensures changed { OnOk result (self.new ≡ changed self.old (with_next self.old.now value)) }
        ensures refused { OnErr result (self.new ≡ self.old) }
    {
        self.items.push(Some(value))?;
        match self.changes.push(Change::Added) {
            Ok(_) => {
                self.live += 1;
                Ok(())
            }
            Err(_) => {
                self.items.pop();
                Err(AllocError)
            }
        }
    }

    /// Stores another value under a number that has a value.
    pub fn set(&mut self, number: u64, value: V) -> Result<(), AllocError>
        requires { is_some (value_at self.old.now number) ≡ true }
        ensures changed { OnOk result (self.new ≡ changed self.old (with_value self.old.now number value)) }
        ensures refused { OnErr result (self.new ≡ self.old) }
    {
        if let Some(old) = self.get(number) {
            self.changes.push(Change::Had(number, old))?;
            self.items[number as usize] = Some(value);
        }
        Ok(())
    }

    /// Removes the value of a number that has one.
    pub fn remove(&mut self, number: u64) -> Result<(), AllocError>
        requires { is_some (value_at self.old.now number) ≡ true }
        ensures changed { OnOk result (self.new ≡ changed self.old (without self.old.now number)) }
        ensures refused { OnErr result (self.new ≡ self.old) }
    {
        if let Some(old) = self.get(number) {
            self.changes.push(Change::Had(number, old))?;
            self.items[number as usize] = None;
            self.live -= 1;
        }
        Ok(())
    }

    /// Keeps all changes, so that they cannot be taken back any more.
    pub fn keep(&mut self)
        ensures { self.new ≡ kept self.old.now }
    {
        self.changes.clear();
        self.live_before = self.live;
    }

    /// Takes back all changes since they were last kept.
    pub fn take_back(&mut self)
        ensures { self.new ≡ kept self.old.before }
    {
        take_back(&mut self.items, &mut self.changes);
        self.live = self.live_before;
    }

    /// Forgets all values and changes: no number was given out.
    pub fn clear(&mut self)
        ensures { self.new ≡ kept [] }
    {
        self.items.clear();
        self.changes.clear();
        self.live = 0;
        self.live_before = 0;
    }
}
