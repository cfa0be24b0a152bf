// A part of the directory: the pages of 65,536 consecutive numbers.
ghost use Rattle.std.specs.Prelude.{◌≡◌, ◌<◌, ◌≤◌, ◌+◌, ◌⊎◌, ℕ, true, [], length, IfErr, OnOk, OnErr, is_some, Some, vec_capacity};
ghost use Rattle.std.specs.Borrow.{sem};
ghost use Rattle.std.specs.Option.{option_copied};
ghost use Rattle.mono_model.specs.Table.{value_at, with_next, with_value, without, count_of};
ghost use Rattle.mono_table.specs.Layout.{child_at, left_of};

use crate::pages::{PAGE, Page};
use std::alloc::{AllocError, Global};
use std::marker::Model;

/// How many numbers a part has.
pub(crate) const PART: usize = 65536;

/// The pages of those numbers of one part that were given out. A closed page without values has no memory.
#[derive(Drop)]
pub(crate) struct Part<T> {
    pages: Vec<Page<T>>,
    len: usize,
    live: usize,
}

impl<T> Model for Part<T> {
    ghost use Rattle.std.specs.Prelude.{vec_capacity};
    ghost use Rattle.mono_model.specs.Table.{Table};

    ghost Value = { Table T };

    ghost use Rattle.mono_table.specs.Layout.{laid_table, IsLaid};

    ghost view = { λ a. laid_table 64 a.pages.items a.len };

    ghost invariant = { λ a. IsLaid 64 a.pages.items (vec_capacity a.pages) a.len a.live };
}

impl<T> Part<T> {
    ghost use Rattle.mono_table.specs.Loans.{part_lends};

    /// Creates a part without numbers and without memory.
    pub(crate) fn new(alloc: Global) -> Part<T>
        ensures { result ≡ [] }
    {
        Part {
            pages: Vec::new(alloc),
            len: 0,
            live: 0,
        }
    }

    /// Returns how many of its numbers have a value.
    pub(crate) fn count(&self) -> usize
        ensures { result ≡ count_of self.now }
    {
        self.live
    }

    /// Returns the value of a number.
    #[inline(always)]
    pub(crate) fn get(&self, number: usize) -> Option<&T>
        ensures { option_copied result ≡ value_at self.now number }
    {
        if number >= self.len {
            return None;
        }
        self.pages[number / PAGE].get(number % PAGE)
    }

    /// Returns the value of a number that has one, for writing. The number has the last value written once the borrow
    /// is over.
    #[inline(always)]
    pub(crate) fn value_mut(&mut self, number: usize) -> &mut T
        requires { is_some (value_at self.old number) ≡ true }
        ensures* writes_back { sem 𝓛 (part_lends T.row self.entry number result) }
        ensures value { value_at self.old number ≡ Some result.now }
    {
        self.pages[number / PAGE].value_mut(number % PAGE)
    }
}

impl<T: Drop> Part<T> {
    /// Adds a number with this value, and returns the value if refused.
    #[inline(always)]
    pub(crate) fn push_or_back(&mut self, alloc: Global, value: T) -> Result<(), T>
        requires { length self.old < 65536 }
        ensures after { OnOk result (self.new ≡ with_next self.old value) }
        ensures back { IfErr result (λ v. v ≡ value) }
        ensures refused { OnErr result (self.new ≡ self.old) }
    {
        let at = self.len / PAGE;
        if open_page(&mut self.pages, alloc, at).is_err() {
            return Err(value);
        }
        match self.pages[at].push_or_back(value) {
            Ok(()) => {
                self.len += 1;
                self.live += 1;
                Ok(())
            }
            Err(value) => Err(value),
        }
    }

    /// Replaces the value of a number that has one.
    pub(crate) fn set(&mut self, number: usize, value: T)
        requires { is_some (value_at self.old number) ≡ true }
        ensures { self.new ≡ with_value self.old number value }
    {
        self.pages[number / PAGE].set(number % PAGE, value);
    }

    /// Removes the value of a number. If the part is closed and that was its last value, gives its memory back.
    #[inline(always)]
    pub(crate) fn remove(&mut self, number: usize, is_closed: bool)
        requires { is_some (value_at self.old number) ≡ true }
        ensures { self.new ≡ left_of is_closed (without self.old number) }
    {
        self.take_out(number);
        if is_closed && self.count() == 0 {
            self.clear();
        }
    }

    // Removes the value of a number.
    #[inline(always)]
    fn take_out(&mut self, number: usize)
        requires { is_some (value_at self.old number) ≡ true }
        ensures { self.new ≡ without self.old number }
    {
        let at = number / PAGE;
        let is_closed = at < self.len / PAGE;
        self.pages[at].remove(number % PAGE, is_closed);
        self.live -= 1;
    }

    // Removes all pages; no number has a value, and none will be added.
    fn clear(&mut self)
        ensures { self.new ≡ [] }
    {
        give_back(&mut self.pages);
        self.len = 0;
        self.live = 0;
    }
}

// Makes sure that the page at this index exists.
#[inline(always)]
fn open_page<T: Drop>(pages: &mut Vec<Page<T>>, alloc: Global, at: usize) -> Result<(), AllocError>
    requires { at ≤ length pages.old.items }
    ensures same { (i : ℕ) → child_at pages.new.items i ≡ child_at pages.old.items i }
    ensures longer { length pages.old.items ≤ length pages.new.items }
    ensures inside { OnOk result (at < length pages.new.items) }
    ensures no_more { (length pages.new.items ≤ at + 1) ⊎ (length pages.new.items ≡ length pages.old.items) }
    ensures refused { OnErr result (pages.new.items ≡ pages.old.items) }
    ensures room { OnErr result (vec_capacity pages.new ≡ vec_capacity pages.old) }
{
    if at < pages.len() {
        return Ok(());
    }
    pages.reserve(1)?;
    pages.push_reserved(Page::new(alloc));
    Ok(())
}

// Empties a list of pages and gives its memory back.
fn give_back<T: Drop>(pages: &mut Vec<Page<T>>)
    ensures items { pages.new.items ≡ [] }
    ensures room { vec_capacity pages.new ≡ 0 }
{
    pages.truncate(0);
    pages.shrink_to_fit();
}
