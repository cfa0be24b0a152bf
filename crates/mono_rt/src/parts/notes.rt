// How a journal records entries. Its history has every entry, and memory may keep fewer.
ghost use Rattle.std.specs.Prelude.{◌≡◌, ◌≤◌, ◌<◌, ◌||◌, ◌++◌, ◌∷◌, [], true, false, OnOk, OnErr, IfSome, IfNone, length, slice_get, ℕ, ◌+◌, Some};
ghost use Rattle.mono_machine.specs.declared.events.Event.TheVariants as event;
ghost use Rattle.mono_machine.specs.declared.events.Report.TheVariants as report;
ghost use Rattle.mono_rt.specs.declared.parts.journals.Entry.TheVariants.{Ran};
ghost use Rattle.mono_rt.specs.Journals.{HasPlaces, IsKept};
ghost use Rattle.mono_rt.specs.HeldRoom.{HasRoomFor};

use crate::parts::acts::Acts;
use crate::parts::held_room::RoomList;
use crate::parts::journals::{Entry, Journal};
use mono_machine::{End, Ended, Event, Reply, Report, TurnStep};
use mono_model::{History, Tells};
use mono_time::Due;
use std::alloc::{AllocError, Global};

/// A turn that ended, of which memory keeps no act.
#[derive(Drop)]
pub struct LostTurn {
    task: u64,
    done: History<TurnStep>,
    replied: History<Reply>,
    end: End,
    ended: Ended,
}

/// The entry of a turn of which memory keeps no act.
pub struct LostEntry;

impl Tells<LostTurn, Entry> for LostEntry {
    ghost use Rattle.mono_machine.specs.declared.events.Event.TheVariants as event;
    ghost use Rattle.mono_machine.specs.declared.events.Report.TheVariants as report;
    ghost use Rattle.mono_rt.specs.declared.parts.journals.Entry.TheVariants.{Ran};

    ghost entry = { λ t. Ran (event.Turn t.done.entries t.end) (report.Turn t.task t.replied.entries t.ended) };
}

/// The sleeps that fired at a clock step, with its reading in nanoseconds.
#[derive(Drop)]
pub struct Fires {
    nanos: u128,
    due: Due,
}

/// The entry of a clock step.
pub struct ClockEntry;

impl Tells<Fires, Entry> for ClockEntry {
    ghost use Rattle.mono_machine.specs.declared.events.Event.TheVariants as event;
    ghost use Rattle.mono_machine.specs.declared.events.Report.TheVariants as report;
    ghost use Rattle.mono_rt.specs.declared.parts.journals.Entry.TheVariants.{Ran};

    ghost entry = { λ f. Ran (event.Clock f.nanos) (report.Fired f.due.fired.items) };
}

// Keeps the entry of a clock step, unless the journal is full. Returns the lists of the step.
fn keep_fires(entries: &mut RoomList<Entry>, is_full: bool, alloc: Global, fires: Fires) -> Due
    requires { HasRoomFor entries.old 1 }
    ensures kept { IsKept is_full entries.old.items is_full entries.new.items (Ran (event.Clock fires.nanos) (report.Fired fires.due.fired.items)) }
    ensures held { entries.new.held ≡ entries.old.held }
{
    let Fires { nanos, mut due } = fires;
    if !is_full {
        let fired = due.fired_apart(alloc);
        entries.push(Entry::Ran(Event::Clock(nanos), Report::Fired(fired)));
    }
    due
}

// Keeps one more entry, unless the journal is full.
#[inline(always)]
fn keep(entries: &mut RoomList<Entry>, is_full: bool, entry: Entry)
    requires { HasRoomFor entries.old 1 }
    ensures kept { IsKept is_full entries.old.items is_full entries.new.items entry }
    ensures room { (n : ℕ) → HasRoomFor entries.old (n + 1) → HasRoomFor entries.new n }
    ensures held { entries.new.held ≡ entries.old.held }
{
    if !is_full {
        entries.push(entry);
    }
}

impl Journal {
    /// Returns whether the journal is full.
    pub fn is_full(&self) -> bool
        ensures { result ≡ self.now.is_full }
    {
        self.is_full
    }

    /// Returns how many entries there are.
    pub fn len(&self) -> usize
        ensures { result ≡ length self.now.entries.items }
    {
        self.entries.len()
    }

    /// Returns the entry at a place, or None from the length on.
    pub fn get(&self, place: usize) -> Option<&Entry>
        ensures some { IfSome result (λ entry. slice_get self.now.entries.items place ≡ Some entry.now) }
        ensures none { IfNone result (length self.now.entries.items ≤ place) }
    {
        self.entries.get(place)
    }

    /// Reserves room for `more` entries, in addition to the held room.
    pub(crate) fn reserve(&mut self, more: usize) -> Result<(), AllocError>
        ensures room { OnOk result (HasPlaces self.new more) }
        ensures entries { self.new.entries.items ≡ self.old.entries.items }
        ensures history { self.new.history.entries ≡ self.old.history.entries }
        ensures full { self.new.is_full ≡ self.old.is_full }
        ensures held { self.new.entries.held ≡ self.old.entries.held }
    {
        self.entries.reserve(more)
    }

    /// Releases the room that was held for an entry, which is free now.
    pub(crate) fn release(&mut self)
        requires { 0 < self.old.entries.held }
        ensures room { HasPlaces self.new 1 }
        ensures entries { self.new.entries.items ≡ self.old.entries.items }
        ensures history { self.new.history.entries ≡ self.old.history.entries }
        ensures full { self.new.is_full ≡ self.old.is_full }
        ensures held { self.new.entries.held + 1 ≡ self.old.entries.held }
    {
        self.entries.release();
    }

    /// Records the turn of a task, all of whose acts memory has. There is room for it. The record keeps its own room.
    #[inline(never)]
    pub(crate) fn push_turn(
        &mut self,
        alloc: Global,
        task: u64,
        acts: &mut Acts,
        end: End,
        ended: Ended,
    )
        requires place { HasPlaces self.old 1 }
        requires kept { acts.old.is_full ≡ false }
        ensures history { self.new.history.entries ≡ self.old.history.entries ++ Ran (event.Turn acts.old.steps end) (report.Turn task acts.old.replies ended) ∷ [] }
        ensures full { self.new.is_full ≡ self.old.is_full }
        ensures held { self.new.entries.held ≡ self.old.entries.held }
    {
        let (steps, replies) = acts.take_apart(alloc);
        let report = Report::Turn(task, replies, ended);
        self.push(Entry::Ran(Event::Turn(steps, end), report));
    }

    /// Records the turn of a task whose acts memory lost. The journal is full from then on. It takes no room.
    #[inline(always)]
    pub(crate) fn lose_turn(&mut self, task: u64, acts: &mut Acts, end: End, ended: Ended)
        requires { acts.old.is_full ≡ true }
        ensures history { self.new.history.entries ≡ self.old.history.entries ++ Ran (event.Turn acts.old.steps end) (report.Turn task acts.old.replies ended) ∷ [] }
        ensures full { self.new.is_full ≡ true }
        ensures held { self.new.entries.held ≡ self.old.entries.held }
    {
        let (done, replied) = acts.take_lost();
        let turn = LostTurn {
            task,
            done,
            replied,
            end,
            ended,
        };
        let history = self.history.told::<LostTurn, LostEntry>(&turn);
        self.is_full = true;
        self.history = history;
    }

    /// Records a clock step, for which there is room, and returns its lists. A full journal takes no memory for it.
    pub(crate) fn push_fires(&mut self, alloc: Global, nanos: u128, due: Due) -> Due
        requires { HasPlaces self.old 1 }
        ensures history { self.new.history.entries ≡ self.old.history.entries ++ Ran (event.Clock nanos) (report.Fired due.fired.items) ∷ [] }
        ensures full { self.new.is_full ≡ self.old.is_full }
        ensures held { self.new.entries.held ≡ self.old.entries.held }
    {
        let fires = Fires { nanos, due };
        let history = self.history.told::<Fires, ClockEntry>(&fires);
        let lists = keep_fires(&mut self.entries, self.is_full, alloc, fires);
        self.history = history;
        lists
    }

    /// Adds one entry, for which there is room.
    #[inline(always)]
    pub(crate) fn push(&mut self, entry: Entry)
        requires { HasPlaces self.old 1 }
        ensures history { self.new.history.entries ≡ self.old.history.entries ++ entry ∷ [] }
        ensures full { self.new.is_full ≡ self.old.is_full }
        ensures room { (n : ℕ) → HasPlaces self.old (n + 1) → HasPlaces self.new n }
        ensures held { self.new.entries.held ≡ self.old.entries.held }
    {
        let history = self.history.and(&entry);
        keep(&mut self.entries, self.is_full, entry);
        self.history = history;
    }

    /// Adds one entry, for which it reserves room first, unless the journal is full. Returns an error and adds nothing if
    /// there is no memory for that room.
    pub(crate) fn add(&mut self, entry: Entry) -> Result<(), AllocError>
        ensures history { OnOk result (self.new.history.entries ≡ self.old.history.entries ++ entry ∷ []) }
        ensures same { OnErr result (self.new.history.entries ≡ self.old.history.entries) }
        ensures kept { OnErr result (self.old.is_full ≡ false) }
        ensures full { self.new.is_full ≡ self.old.is_full }
        ensures held { self.new.entries.held ≡ self.old.entries.held }
    {
        if self.is_full {
            self.history = self.history.and(&entry);
            return Ok(());
        }
        self.reserve(1)?;
        self.push(entry);
        Ok(())
    }

    /// Adds one entry, for which there is room, and holds room for another one.
    pub(crate) fn push_and_hold(&mut self, entry: Entry)
        requires { HasPlaces self.old 2 }
        ensures history { self.new.history.entries ≡ self.old.history.entries ++ entry ∷ [] }
        ensures full { self.new.is_full ≡ self.old.is_full }
        ensures held { self.new.entries.held ≡ self.old.entries.held + 1 }
    {
        self.push(entry);
        self.entries.hold();
    }
}
