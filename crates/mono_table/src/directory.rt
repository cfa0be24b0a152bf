// The directory: the parts of all numbers that were given out.
ghost use Rattle.std.specs.Prelude.{◌≡◌, ◌<◌, ◌≤◌, ◌+◌, ◌-◌, ◌^◌, ◌⊎◌, ℕ, true, [], length, IfErr, OnOk, OnErr, is_some, Some, vec_capacity};
ghost use Rattle.std.specs.Borrow.{sem};
ghost use Rattle.std.specs.Option.{option_copied};
ghost use Rattle.mono_model.specs.Table.{value_at, with_next, with_value, without, count_of, next_number};
ghost use Rattle.mono_table.specs.Layout.{child_at};

use crate::parts::{PART, Part};
use std::alloc::{AllocError, Global};
use std::marker::Model;

/// The values of numbers that are given out from 0 on and never twice, as the table of the reference machine.
///
/// It reads and writes a number in constant time. The numbers lie in pages of 64, each in one piece of memory, and the
/// pages in parts of 1,024. It gives a page back once all 64 numbers were given out and none has a value; the same holds
/// for a part. So its memory is that of the pages with a value or with the next number, and of the heads of the pages
/// of their parts, 40 bytes each. In addition it takes 40 bytes for every 65,536 numbers that were given out.
#[derive(Drop)]
pub struct Table<T> {
    parts: Vec<Part<T>>,
    len: usize,
    live: usize,
}

impl<T> Model for Table<T> {
    ghost use Rattle.std.specs.Prelude.{vec_capacity};
    ghost use Rattle.mono_model.specs.Table as model;

    ghost Value = { model.Table T };

    ghost use Rattle.mono_table.specs.Layout.{laid_table, IsLaid};

    ghost view = { λ a. laid_table 65536 a.parts.items a.len };

    ghost invariant = { λ a. IsLaid 65536 a.parts.items (vec_capacity a.parts) a.len a.live };
}

impl<T> Table<T> {
    ghost use Rattle.mono_table.specs.Loans.{table_lends};

    /// Creates a table that has given out no number. It takes no memory.
    pub fn new(alloc: Global) -> Table<T>
        ensures { result ≡ [] }
    {
        Table {
            parts: Vec::new(alloc),
            len: 0,
            live: 0,
        }
    }

    /// Returns the number that is given out next, which is the count of those given out before.
    pub fn len(&self) -> u64
        ensures { result ≡ next_number self.now }
    {
        self.len as u64
    }

    /// Returns how many numbers have a value.
    pub fn count(&self) -> u64
        ensures { result ≡ count_of self.now }
    {
        self.live as u64
    }

    /// Returns the value of a number, or `None` if it was removed or was never given out.
    #[inline(always)]
    pub fn get(&self, number: u64) -> Option<&T>
        ensures { option_copied result ≡ value_at self.now number }
    {
        let number = number as usize;
        if number >= self.len {
            return None;
        }
        self.parts[number / PART].get(number % PART)
    }

    /// Returns the value of a number that has one, for writing. The number has the last value written once the borrow
    /// is over.
    #[inline(always)]
    pub fn value_mut(&mut self, number: u64) -> &mut T
        requires { is_some (value_at self.old number) ≡ true }
        ensures* writes_back { sem 𝓛 (table_lends T.row self.entry number result) }
        ensures value { value_at self.old number ≡ Some result.now }
    {
        let number = number as usize;
        self.parts[number / PART].value_mut(number % PART)
    }
}

impl<T: Drop> Table<T> {
    /// Gives the next number out, with this value. The last number, 2^64 - 1, is never given out.
    ///
    /// Refused only if out of memory; then nothing changes (`refused`).
    #[inline(always)]
    pub fn push(&mut self, alloc: Global, value: T) -> Result<(), AllocError>
        requires { next_number self.old < 2 ^ 64 - 1 }
        ensures after { OnOk result (self.new ≡ with_next self.old value) }
        ensures refused { OnErr result (self.new ≡ self.old) }
    {
        match self.push_or_back(alloc, value) {
            Ok(()) => Ok(()),
            Err(_value) => Err(AllocError),
        }
    }

    /// Gives the next number out as `push` does, and returns the value if refused (`back`).
    #[inline(always)]
    pub fn push_or_back(&mut self, alloc: Global, value: T) -> Result<(), T>
        requires { next_number self.old < 2 ^ 64 - 1 }
        ensures after { OnOk result (self.new ≡ with_next self.old value) }
        ensures back { IfErr result (λ v. v ≡ value) }
        ensures refused { OnErr result (self.new ≡ self.old) }
    {
        let at = self.len / PART;
        if open_part(&mut self.parts, alloc, at).is_err() {
            return Err(value);
        }
        match self.parts[at].push_or_back(alloc, value) {
            Ok(()) => {
                self.len += 1;
                self.live += 1;
                Ok(())
            }
            Err(value) => Err(value),
        }
    }

    /// Replaces the value of a number that has one. It takes no memory.
    pub fn set(&mut self, number: u64, value: T)
        requires { is_some (value_at self.old number) ≡ true }
        ensures { self.new ≡ with_value self.old number value }
    {
        let number = number as usize;
        self.parts[number / PART].set(number % PART, value);
    }

    /// Removes the value of a number that has one. It takes no memory. It gives back the memory of a page without
    /// values in which no further number is given out.
    #[inline(always)]
    pub fn remove(&mut self, number: u64)
        requires { is_some (value_at self.old number) ≡ true }
        ensures { self.new ≡ without self.old number }
    {
        let number = number as usize;
        let at = number / PART;
        let is_closed = at < self.len / PART;
        self.parts[at].remove(number % PART, is_closed);
        self.live -= 1;
    }
}

// Makes sure that the part at this index exists.
#[inline(always)]
fn open_part<T: Drop>(parts: &mut Vec<Part<T>>, alloc: Global, at: usize) -> Result<(), AllocError>
    requires { at ≤ length parts.old.items }
    ensures same { (i : ℕ) → child_at parts.new.items i ≡ child_at parts.old.items i }
    ensures longer { length parts.old.items ≤ length parts.new.items }
    ensures inside { OnOk result (at < length parts.new.items) }
    ensures no_more { (length parts.new.items ≤ at + 1) ⊎ (length parts.new.items ≡ length parts.old.items) }
    ensures refused { OnErr result (parts.new.items ≡ parts.old.items) }
    ensures room { OnErr result (vec_capacity parts.new ≡ vec_capacity parts.old) }
{
    if at < parts.len() {
        return Ok(());
    }
    parts.reserve(1)?;
    parts.push_reserved(Part::new(alloc));
    Ok(())
}
