// A part of the directory: the pages of 1,048,576 tasks in a row.
ghost use Rattle.std.specs.Prelude.{◌≡◌, ◌+◌, ◌<◌, ◌≤◌, ◌++◌, ◌⊎◌, ℕ, true, [], length, replicate, OnOk, OnErr, slice_set, vec_capacity};
ghost use Rattle.mono_inbox.specs.Standings.{has_place, standing_at, count_where, AreKnown, without_row};
ghost use Rattle.mono_inbox.specs.Pages.{with_mark, left_of, child_at, closed_before};

use crate::pages::{PAGE, Page};
use crate::standings::{Standing, places_of};
use std::alloc::{AllocError, Global};
use std::marker::Model;

/// The number of tasks in a part.
pub(crate) const PART: usize = 1048576;

/// The standings of the tasks of one part, up to the last that was made known. A closed page in which no task has a
/// place has no memory.
#[derive(Drop)]
pub(crate) struct Part {
    pages: Vec<Page>,
    len: usize,
    placed: usize,
}

impl Model for Part {
    ghost use Rattle.std.specs.Prelude.{List, vec_capacity};
    ghost use Rattle.mono_inbox.specs.declared.standings.Standing.{Standing};
    ghost use Rattle.mono_inbox.specs.Pages.{laid_standings, IsPart};

    ghost Value = { List Standing };

    ghost view = { λ a. laid_standings 4096 a.pages.items a.len };

    ghost invariant = { λ a. IsPart 4096 1048576 a.pages.items (vec_capacity a.pages) a.len a.placed };
}

impl Part {
    /// Returns a part without entries and without memory.
    pub(crate) fn new(alloc: Global) -> Part
        ensures { result ≡ [] }
    {
        Part {
            pages: Vec::new(alloc),
            len: 0,
            placed: 0,
        }
    }

    /// Returns how many of its tasks have a place.
    pub(crate) fn count(&self) -> usize
        ensures { result ≡ count_where has_place self.now }
    {
        self.placed
    }

    /// Returns how many of its tasks have an entry.
    pub(crate) fn len(&self) -> usize
        ensures { result ≡ length self.now }
    {
        self.len
    }

    /// Returns the task's standing.
    #[inline(always)]
    pub(crate) fn standing(&self, task: usize) -> Standing
        ensures { result ≡ standing_at self.now task }
    {
        let at = task / PAGE;
        if at >= self.pages.len() {
            return Standing::Unknown;
        }
        self.pages[at].standing(task % PAGE)
    }

    /// Gives a task that was unknown this standing.
    pub(crate) fn mark(
        &mut self,
        alloc: Global,
        task: usize,
        standing: Standing,
    ) -> Result<(), AllocError>
        requires inside { task < 1048576 }
        requires unknown { standing_at self.old task ≡ Standing.Unknown }
        requires placed { has_place standing ≡ true }
        ensures after { OnOk result (self.new ≡ with_mark self.old task standing) }
        ensures refused { OnErr result (self.new ≡ self.old) }
    {
        let at = task / PAGE;
        let len = greater_of(self.len, task + 1);
        close_before(&mut self.pages, self.len / PAGE, at);
        open_page(&mut self.pages, alloc, at)?;
        self.pages[at].mark(task % PAGE, standing)?;
        self.len = len;
        self.placed += 1;
        Ok(())
    }

    /// Makes at most `count` tasks after those that have an entry known, and returns how many. It stops at the end of
    /// the page begun last. Returns zero if that page lacks an entry for an earlier number, or if it is out of memory.
    #[inline(always)]
    pub(crate) fn extend(&mut self, count: usize) -> usize
        requires inside { length self.old + count ≤ 1048576 }
        ensures most { result ≤ count }
        ensures after { self.new ≡ self.old ++ replicate result Standing.Known }
    {
        let at = self.len / PAGE;
        let begun = self.len % PAGE;
        if begun == 0 || at >= self.pages.len() || self.pages[at].len() != begun {
            return 0;
        }
        let more = lesser_of(count, PAGE - begun);
        match self.pages[at].extend(more) {
            Err(_) => 0,
            Ok(()) => {
                self.len += more;
                self.placed += more;
                more
            }
        }
    }

    /// Gives a task that has a place another standing. It frees the memory of a closed part if that was the last task
    /// with a place.
    #[inline(always)]
    pub(crate) fn change(&mut self, task: usize, standing: Standing, is_closed: bool)
        requires { has_place (standing_at self.old task) ≡ true }
        ensures { self.new ≡ left_of is_closed (slice_set self.old task standing) }
    {
        self.write(task, standing);
        self.leave(is_closed);
    }

    /// Makes at most `count` tasks in a row, from `task` on and in its page, unknown, and returns how many. Each of
    /// them is known and does not wait. It frees the memory of a closed part if none of its tasks has a place any more.
    #[inline(always)]
    pub(crate) fn forget(&mut self, task: usize, count: usize, is_closed: bool) -> usize
        requires { has_place (standing_at self.old task) ≡ true }
        ensures most { result ≤ count }
        ensures known { AreKnown self.old task result }
        ensures after { self.new ≡ left_of is_closed (without_row self.old task result) }
    {
        let row = self.write_row(task, count);
        self.leave(is_closed);
        row
    }

    /// Closes the part, which gets no further number. It frees the memory if no task of the part has a place.
    pub(crate) fn close(&mut self)
        ensures { self.new ≡ left_of true self.old }
    {
        if self.count() == 0 {
            self.clear();
        }
    }

    // Frees the memory if the part is closed and no task of it has a place.
    #[inline(always)]
    fn leave(&mut self, is_closed: bool)
        ensures { self.new ≡ left_of is_closed self.old }
    {
        if is_closed {
            self.close();
        }
    }

    // Makes at most `count` tasks in a row, from `task` on and in its page, unknown. Each of them is known and does not
    // wait.
    #[inline(always)]
    fn write_row(&mut self, task: usize, count: usize) -> usize
        requires { has_place (standing_at self.old task) ≡ true }
        ensures most { result ≤ count }
        ensures known { AreKnown self.old task result }
        ensures after { self.new ≡ without_row self.old task result }
    {
        let at = task / PAGE;
        let most = lesser_of(count, PAGE - task % PAGE);
        let begun = self.len / PAGE;
        let row = self.pages[at].forget(task % PAGE, most, at < begun);
        self.placed -= row;
        row
    }

    // Gives a task that has a place another standing.
    #[inline(always)]
    fn write(&mut self, task: usize, standing: Standing)
        requires { has_place (standing_at self.old task) ≡ true }
        ensures { self.new ≡ slice_set self.old task standing }
    {
        let at = task / PAGE;
        let is_closed = at < self.len / PAGE;
        self.pages[at].change(task % PAGE, standing, is_closed);
        self.placed = self.placed - 1 + places_of(standing);
    }

    // Removes all pages; no task of the part has a place.
    fn clear(&mut self)
        ensures { self.new ≡ [] }
    {
        give_back(&mut self.pages);
        self.len = 0;
        self.placed = 0;
    }
}

/// Returns the lesser of two numbers.
#[inline(always)]
pub(crate) fn lesser_of(a: usize, b: usize) -> usize
    ensures first { result ≤ a }
    ensures second { result ≤ b }
{
    if a < b { a } else { b }
}

/// Returns the greater of two numbers.
pub(crate) fn greater_of(a: usize, b: usize) -> usize
    ensures first { a ≤ result }
    ensures second { b ≤ result }
    ensures one { (result ≡ a) ⊎ (result ≡ b) }
{
    if a < b { b } else { a }
}

// Closes the page that was begun last if it is another than the page at this place: it gets no further number.
fn close_before(pages: &mut Vec<Page>, begun: usize, at: usize)
    ensures items { pages.new.items ≡ closed_before pages.old.items begun at }
    ensures room { vec_capacity pages.new ≡ vec_capacity pages.old }
{
    if begun < at && begun < pages.len() {
        pages[begun].close();
    }
}

// Adds pages up to the page at this place.
fn open_page(pages: &mut Vec<Page>, alloc: Global, at: usize) -> Result<(), AllocError>
    requires { at < 256 }
    ensures same { (i : ℕ) → child_at pages.new.items i ≡ child_at pages.old.items i }
    ensures inside { OnOk result (at < length pages.new.items) }
    ensures refused { OnErr result (pages.new.items ≡ pages.old.items) }
    ensures room { OnErr result (vec_capacity pages.new ≡ vec_capacity pages.old) }
{
    if at < pages.len() {
        return Ok(());
    }
    let missing = at + 1 - pages.len();
    pages.reserve(missing)?;
    for _ in 0..missing {
        pages.push_reserved(Page::new(alloc));
    }
    Ok(())
}

// Removes all pages and frees their memory.
fn give_back(pages: &mut Vec<Page>)
    ensures items { pages.new.items ≡ [] }
    ensures room { vec_capacity pages.new ≡ 0 }
{
    pages.truncate(0);
    pages.shrink_to_fit();
}
