// The directory: the parts with the standings of all tasks.
ghost use Rattle.std.specs.Prelude.{◌≡◌, ◌<◌, ◌≤◌, ◌^◌, ◌++◌, ℕ, true, [], length, replicate, OnOk, OnErr, slice_set};
ghost use Rattle.mono_inbox.specs.Standings.{has_place, standing_at, AreKnown, without_row};
ghost use Rattle.mono_inbox.specs.Pages.{with_mark, child_at, closed_before};

use crate::parts::{PART, Part, greater_of, lesser_of};
use crate::standings::Standing;
use std::alloc::{AllocError, Global};
use std::marker::Model;

/// The standing of each task, by its number.
///
/// A standing is read and changed in constant time. A page holds 4,096 standings of a byte each, and a part holds 256
/// pages. A page is freed once none of its tasks has a place and a later page was begun; so is a part. The memory is
/// that of the pages in which some task has a place, and of the page begun last. The heads of the pages in their parts,
/// and 40 bytes for every 1,048,576 numbers, are added.
#[derive(Drop)]
pub(crate) struct Marks {
    parts: Vec<Part>,
    len: usize,
}

impl Model for Marks {
    ghost use Rattle.std.specs.Prelude.{List};
    ghost use Rattle.mono_inbox.specs.declared.standings.Standing.{Standing};
    ghost use Rattle.mono_inbox.specs.Pages.{laid_standings, IsLaid};

    ghost Value = { List Standing };

    ghost view = { λ a. laid_standings 1048576 a.parts.items a.len };

    ghost invariant = { λ a. IsLaid 1048576 a.parts.items a.len };
}

impl Marks {
    /// Returns a directory in which all tasks are unknown. It takes no memory.
    pub(crate) fn new(alloc: Global) -> Marks
        ensures { result ≡ [] }
    {
        Marks {
            parts: Vec::new(alloc),
            len: 0,
        }
    }

    /// Returns the number after the last that was ever made known.
    pub(crate) fn len(&self) -> usize
        ensures { result ≡ length self.now }
    {
        self.len
    }

    /// Returns the task's standing.
    #[inline(always)]
    pub(crate) fn standing(&self, task: u64) -> Standing
        ensures { result ≡ standing_at self.now task }
    {
        let task = task as usize;
        if task >= self.len {
            return Standing::Unknown;
        }
        let at = task / PART;
        if at >= self.parts.len() {
            return Standing::Unknown;
        }
        self.parts[at].standing(task % PART)
    }

    /// Gives a task that was unknown this standing.
    ///
    /// Fails if it is out of memory or the task is 2^64 - 1, which never has a place; then nothing changes (`refused`).
    pub(crate) fn mark(
        &mut self,
        alloc: Global,
        task: u64,
        standing: Standing,
    ) -> Result<(), AllocError>
        requires unknown { standing_at self.old task ≡ Standing.Unknown }
        requires placed { has_place standing ≡ true }
        ensures after { OnOk result (self.new ≡ with_mark self.old task standing) }
        ensures refused { OnErr result (self.new ≡ self.old) }
    {
        let task = task as usize;
        if task == usize::MAX {
            return Err(AllocError);
        }
        let at = task / PART;
        let len = greater_of(self.len, task + 1);
        close_before(&mut self.parts, self.len / PART, at);
        open_part(&mut self.parts, alloc, at)?;
        self.parts[at].mark(alloc, task % PART, standing)?;
        self.len = len;
        Ok(())
    }

    /// Makes at most `count` tasks after the last number known, and returns how many. It stops at the end of the page
    /// begun last. Returns zero if that page lacks an entry for an earlier number, or if it is out of memory.
    #[inline(always)]
    pub(crate) fn extend(&mut self, count: usize) -> usize
        ensures most { result ≤ count }
        ensures after { self.new ≡ self.old ++ replicate result Standing.Known }
    {
        let at = self.len / PART;
        let begun = self.len % PART;
        if at >= self.parts.len() || self.parts[at].len() != begun {
            return 0;
        }
        let most = lesser_of(PART - begun, usize::MAX - self.len);
        let more = self.parts[at].extend(lesser_of(count, most));
        self.len += more;
        more
    }

    /// Gives a task that has a place another standing. It takes no memory. It frees a page that gets no further number
    /// once no task of the page has a place.
    #[inline(always)]
    pub(crate) fn change(&mut self, task: u64, standing: Standing)
        requires { has_place (standing_at self.old task) ≡ true }
        ensures { self.new ≡ slice_set self.old task standing }
    {
        let task = task as usize;
        let at = task / PART;
        let is_closed = at < self.len / PART;
        self.parts[at].change(task % PART, standing, is_closed);
    }

    /// Makes at most `count` tasks in a row, from `task` on and in its page, unknown. Each of them is known and does
    /// not wait. Returns how many, and frees memory as `change` does.
    #[inline(always)]
    pub(crate) fn forget(&mut self, task: u64, count: usize) -> usize
        requires { has_place (standing_at self.old task) ≡ true }
        ensures most { result ≤ count }
        ensures known { AreKnown self.old task result }
        ensures after { self.new ≡ without_row self.old task result }
    {
        let task = task as usize;
        let at = task / PART;
        let most = lesser_of(count, PART - task % PART);
        let begun = self.len / PART;
        self.parts[at].forget(task % PART, most, at < begun)
    }
}

// Closes the part that was begun last if it is another than the part at this place: it gets no further number.
fn close_before(parts: &mut Vec<Part>, begun: usize, at: usize)
    ensures { parts.new.items ≡ closed_before parts.old.items begun at }
{
    if begun < at && begun < parts.len() {
        parts[begun].close();
    }
}

// Adds parts up to the part at this place.
fn open_part(parts: &mut Vec<Part>, alloc: Global, at: usize) -> Result<(), AllocError>
    requires { at < 2 ^ 44 }
    ensures same { (i : ℕ) → child_at parts.new.items i ≡ child_at parts.old.items i }
    ensures inside { OnOk result (at < length parts.new.items) }
    ensures refused { OnErr result (parts.new.items ≡ parts.old.items) }
{
    if at < parts.len() {
        return Ok(());
    }
    let missing = at + 1 - parts.len();
    parts.reserve(missing)?;
    for _ in 0..missing {
        parts.push_reserved(Part::new(alloc));
    }
    Ok(())
}
