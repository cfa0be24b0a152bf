// A page: the standings of 4,096 tasks in a row, in one piece of memory.
ghost use Rattle.std.specs.Prelude.{◌≡◌, ◌+◌, ◌<◌, ◌≤◌, ◌++◌, ◌∷◌, true, [], OnOk, OnErr, length, replicate, slice_set, vec_len, vec_capacity};
ghost use Rattle.mono_inbox.specs.Standings.{has_place, standing_at, count_where, AreKnown, without_row};
ghost use Rattle.mono_inbox.specs.Pages.{grown, with_mark, left_of};

use crate::standings::{Standing, is_idle, places_of};
use std::alloc::{AllocError, Global};
use std::marker::Model;

/// The number of tasks in a page.
pub(crate) const PAGE: usize = 4096;

/// The standings of the tasks of one page, up to the last that was made known. The page allocates all its memory with
/// the first entry.
#[derive(Drop)]
pub(crate) struct Page {
    standings: Vec<Standing>,
    placed: usize,
}

impl Model for Page {
    ghost use Rattle.std.specs.Prelude.{List, vec_capacity};
    ghost use Rattle.mono_inbox.specs.declared.standings.Standing.{Standing};
    ghost use Rattle.mono_inbox.specs.Pages.{IsPage};

    ghost Value = { List Standing };

    ghost view = { λ a. a.standings.items };

    ghost invariant = { λ a. IsPage a.standings.items (vec_capacity a.standings) a.placed };
}

impl Page {
    /// Returns a page without entries and without memory.
    pub(crate) fn new(alloc: Global) -> Page
        ensures { result ≡ [] }
    {
        Page {
            standings: Vec::new(alloc),
            placed: 0,
        }
    }

    /// Returns how many of its tasks have a place.
    pub(crate) fn count(&self) -> usize
        ensures { result ≡ count_where has_place self.now }
    {
        self.placed
    }

    /// Returns how many of its tasks have an entry.
    pub(crate) fn len(&self) -> usize
        ensures { result ≡ length self.now }
    {
        self.standings.len()
    }

    /// Returns the standing of the task at a place.
    #[inline(always)]
    pub(crate) fn standing(&self, at: usize) -> Standing
        ensures { result ≡ standing_at self.now at }
    {
        match self.standings.get(at) {
            Some(standing) => *standing,
            None => Standing::Unknown,
        }
    }

    /// Gives the task at a place, which was unknown, this standing.
    pub(crate) fn mark(&mut self, at: usize, standing: Standing) -> Result<(), AllocError>
        requires inside { at < 4096 }
        requires unknown { standing_at self.old at ≡ Standing.Unknown }
        requires placed { has_place standing ≡ true }
        ensures after { OnOk result (self.new ≡ with_mark self.old at standing) }
        ensures refused { OnErr result (self.new ≡ self.old) }
    {
        put_mark(&mut self.standings, at, standing)?;
        self.placed += 1;
        Ok(())
    }

    /// Appends `count` known tasks after those that have an entry, if the page has entries.
    #[inline(always)]
    pub(crate) fn extend(&mut self, count: usize) -> Result<(), AllocError>
        requires begun { 0 < length self.old }
        requires inside { length self.old + count ≤ 4096 }
        ensures after { OnOk result (self.new ≡ self.old ++ replicate count Standing.Known) }
        ensures refused { OnErr result (self.new ≡ self.old) }
    {
        self.standings.reserve(count)?;
        fill(&mut self.standings, count, Standing::Known);
        self.placed += count;
        Ok(())
    }

    /// Gives the task at a place, which has a place in the list, another standing. It frees the memory of a closed page
    /// if that was the last task with a place.
    #[inline(always)]
    pub(crate) fn change(&mut self, at: usize, standing: Standing, is_closed: bool)
        requires { has_place (standing_at self.old at) ≡ true }
        ensures { self.new ≡ left_of is_closed (slice_set self.old at standing) }
    {
        self.write(at, standing);
        self.leave(is_closed);
    }

    /// Makes at most `count` tasks in a row, from this place on, unknown, and returns how many. Each of them is known
    /// and does not wait. It frees the memory of a closed page if none of its tasks has a place any more.
    #[inline(always)]
    pub(crate) fn forget(&mut self, at: usize, count: usize, is_closed: bool) -> usize
        requires { at < 4096 }
        ensures most { result ≤ count }
        ensures known { AreKnown self.old at result }
        ensures after { self.new ≡ left_of is_closed (without_row self.old at result) }
    {
        let row = self.write_row(at, count);
        self.leave(is_closed);
        row
    }

    /// Closes the page, which gets no further number. It frees the memory if no task of the page has a place.
    pub(crate) fn close(&mut self)
        ensures { self.new ≡ left_of true self.old }
    {
        if self.placed == 0 {
            give_back(&mut self.standings);
        }
    }

    // Frees the memory if the page is closed and no task of it has a place.
    #[inline(always)]
    fn leave(&mut self, is_closed: bool)
        ensures { self.new ≡ left_of is_closed self.old }
    {
        if is_closed {
            self.close();
        }
    }

    // Makes at most `count` tasks in a row, from this place on, unknown. Each of them is known and does not wait.
    #[inline(always)]
    fn write_row(&mut self, at: usize, count: usize) -> usize
        requires { at < 4096 }
        ensures most { result ≤ count }
        ensures known { AreKnown self.old at result }
        ensures after { self.new ≡ without_row self.old at result }
    {
        let row = clear_known(&mut self.standings, at, count);
        self.placed -= row;
        row
    }

    // Gives the task at a place, which has a place in the list, another standing.
    #[inline(always)]
    fn write(&mut self, at: usize, standing: Standing)
        requires { has_place (standing_at self.old at) ≡ true }
        ensures { self.new ≡ slice_set self.old at standing }
    {
        self.standings[at] = standing;
        self.placed = self.placed - 1 + places_of(standing);
    }
}

// Writes the standing of the task at a place. Most often the place is the next after the entries.
#[inline(always)]
#[tactic(auto, using(crate::proofs::LayoutLemmas::mark_behind))]
fn put_mark(standings: &mut Vec<Standing>, at: usize, standing: Standing) -> Result<(), AllocError>
    requires { at < 4096 }
    ensures items { OnOk result (standings.new.items ≡ with_mark standings.old.items at standing) }
    ensures refused { OnErr result (standings.new.items ≡ standings.old.items) }
    ensures room { OnErr result (vec_capacity standings.new ≡ vec_capacity standings.old) }
{
    if at > 0 && at == standings.len() {
        return add_mark(standings, standing);
    }
    make_entry(standings, at)?;
    standings[at] = standing;
    Ok(())
}

// Appends one entry.
#[inline(always)]
fn add_mark(standings: &mut Vec<Standing>, standing: Standing) -> Result<(), AllocError>
    ensures items { OnOk result (standings.new.items ≡ standings.old.items ++ standing ∷ []) }
    ensures refused { OnErr result (standings.new.items ≡ standings.old.items) }
    ensures room { OnErr result (vec_capacity standings.new ≡ vec_capacity standings.old) }
{
    standings.reserve(1)?;
    standings.push_reserved(standing);
    Ok(())
}

// Appends entries up to the place if it has none. Most often that is one entry.
fn make_entry(standings: &mut Vec<Standing>, at: usize) -> Result<(), AllocError>
    requires { at < 4096 }
    ensures items { OnOk result (standings.new.items ≡ grown standings.old.items at) }
    ensures refused { OnErr result (standings.new.items ≡ standings.old.items) }
    ensures room { OnErr result (vec_capacity standings.new ≡ vec_capacity standings.old) }
{
    if at < standings.len() {
        return Ok(());
    }
    let missing = at + 1 - standings.len();
    let more = if standings.len() == 0 { PAGE } else { missing };
    standings.reserve(more)?;
    fill(standings, missing, Standing::Unknown);
    Ok(())
}

// Appends `missing` entries with this standing.
fn fill(standings: &mut Vec<Standing>, missing: usize, standing: Standing)
    requires { vec_len standings.old + missing ≤ vec_capacity standings.old }
    ensures items { standings.new.items ≡ standings.old.items ++ replicate missing standing }
    ensures room { vec_capacity standings.new ≡ vec_capacity standings.old }
{
    for _ in 0..missing {
        standings.push_reserved(standing);
    }
}

// Makes at most `count` tasks in a row, from this place on, unknown. Each of them is known and does not wait.
#[inline(always)]
fn clear_known(standings: &mut Vec<Standing>, at: usize, count: usize) -> usize
    requires { at < 4096 }
    ensures most { result ≤ count }
    ensures known { AreKnown standings.old.items at result }
    ensures items { standings.new.items ≡ without_row standings.old.items at result }
    ensures room { vec_capacity standings.new ≡ vec_capacity standings.old }
{
    let until = standings.len();
    let mut row = 0;
    while row < count && at + row < until && is_idle(standings[at + row]) {
        standings[at + row] = Standing::Unknown;
        row += 1;
    }
    row
}

// Removes all entries and frees their memory.
fn give_back(standings: &mut Vec<Standing>)
    ensures items { standings.new.items ≡ [] }
    ensures room { vec_capacity standings.new ≡ 0 }
{
    standings.truncate(0);
    standings.shrink_to_fit();
}
