//! The lists of a wheel, and the slots that have a node.
ghost use Rattle.std.specs.Prelude.{◌≡◌, ℕ, ◌+◌, ◌<◌, ◌≤◌, true, false, [], ◌∷◌, ◌++◌, List, replicate, IfOk, OnOk, OnErr, IfSome, is_some, if◌then◌else◌, length};
ghost use Rattle.mono_wheel.specs.Rings.{Distinct};
ghost use Rattle.mono_wheel.specs.Lists.{list_at, IsIn, IsListed, IsLoose, is_node, entry_at, no_entry, with_list, with_entry, without, IsLast, PoppedBack, Added, Freed};
ghost use Rattle.mono_wheel.specs.Holdings.{IsFirstOccupied, timed_in};
ghost use Rattle.mono_wheel.specs.Start.{slot_count, taken_list, list_count};
ghost use Rattle.mono_wheel.specs.Counts.{no_moves, slot_move};

use crate::entry::Entry;
use crate::level::LEVELS;
use crate::numbers::{PENDING, SLOTS, slot_at};
use crate::occupancy::Occupied;
use crate::{Links, Steps};
use mono_model::History;
use std::alloc::{AllocError, Global};
use std::marker::Model;
use std::sync::ledger::Ledger;

/// The list of the keys that wait to be registered anew.
pub const TAKEN: usize = PENDING + 1;

// The number of lists: the slots, the pending list, the taken list.
const LISTS: usize = TAKEN + 1;

/// The lists of a wheel: one for each slot, the pending list, the taken list. A bit for each slot says whether its list
/// has a node, so that the search looks once at each level. A contract sees the lists, and how often a node entered or
/// left one of them (`moves.all`), and one that is not the pending list (`moves.slots`).
#[derive(Drop)]
pub struct SlotLinks {
    links: Links,
    occupied: Occupied,
    // In proofs alone: each node that entered or left a list.
    moves: History<usize>,
    // In proofs alone: those of them whose list is not the pending list.
    slot_moves: History<usize>,
}

impl Model for SlotLinks {
    ghost use Rattle.std.specs.Prelude.{length};
    ghost use Rattle.mono_wheel.specs.Counts.{Counted};
    ghost use Rattle.mono_wheel.specs.Bits.{Marks};

    ghost Value = { Counted };

    ghost view = { λ a. record { table = a.links; moves = record { slots = length a.slot_moves.entries; all = length a.moves.entries } } };

    ghost invariant = { λ a. Marks a.occupied a.links };
}

// Adds a node to a history, unless its list is the pending list.
fn note_slot_move(nodes: &mut History<usize>, list: usize, node: usize)
    ensures { length nodes.new.entries ≡ length nodes.old.entries + slot_move list }
{
    if list != PENDING {
        *nodes = nodes.and(&node);
    }
}

impl SlotLinks {
    /// Makes empty lists, and no node.
    pub fn new(alloc: Global) -> Result<SlotLinks, AllocError>
        ensures lists { IfOk result (λ links. links.table.lists ≡ replicate list_count []) }
        ensures nodes { IfOk result (λ links. (node : ℕ) → is_node links.table node ≡ false) }
        ensures entries { IfOk result (λ links. (node : ℕ) → entry_at links.table node ≡ no_entry) }
        ensures moves { IfOk result (λ links. links.moves ≡ no_moves) }
    {
        let links = Links::new(alloc, LISTS)?;
        Ok(SlotLinks {
            links,
            occupied: Occupied::new(),
            moves: History::new(),
            slot_moves: History::new(),
        })
    }

    /// Returns the last node of the list, or `None` if and only if the list is empty.
    pub fn last(&self, list: usize) -> Option<usize>
        requires { list < list_count }
        ensures { IsLast (list_at self.now.table list) result }
    {
        self.links.last(list)
    }

    /// Returns the list of the first occupied slot: in each level from the slot after the current one on, the current
    /// slot at the end.
    pub fn first_occupied(&self, elapsed: u64) -> Option<usize>
        ensures { IsFirstOccupied elapsed self.now.table result }
    {
        for level in 0..LEVELS {
            if let Some(slot) = self.occupied.first_after(level, slot_at(level, elapsed)) {
                return Some(level * 64 + slot);
            }
        }
        None
    }

    /// Returns whether this is a known node.
    pub fn is_node(&self, node: usize) -> bool
        ensures { result ≡ is_node self.now.table node }
    {
        self.links.is_node(node)
    }

    /// Returns the ticks of a node, 0 and 0 if it was given none or is not known.
    pub fn entry(&self, node: usize) -> Entry
        ensures { result ≡ entry_at self.now.table node }
    {
        self.links.entry(node)
    }

    /// Returns a number above that of each known node.
    pub fn end(&self) -> usize
        ensures { length self.now.table.entries ≤ result }
    {
        self.links.end()
    }

    /// Returns whether a node carries ticks. A node that is in a list is known (clause `known`).
    pub fn is_in(&self, node: usize) -> bool
        ensures value { result ≡ is_some (timed_in self.now.table.entries node) }
        ensures known { IsListed self.now.table node → is_node self.now.table node ≡ true }
    {
        self.links.entry(node).tick != 0
    }

    /// Returns the ticks of a node that is in a list, and so is known (clause `known`); nothing changes. It looks the
    /// node up as for a write, so that a write directly afterwards looks up nothing.
    pub fn listed_entry(&mut self, node: usize) -> Entry
        requires { IsListed self.old.table node }
        ensures value { result ≡ entry_at self.old.table node }
        ensures known { is_node self.old.table node ≡ true }
        ensures same { self.new ≡ self.old }
    {
        self.links.listed_entry(node)
    }

    /// Gives a node these ticks.
    pub fn set_entry(&mut self, node: usize, entry: Entry)
        requires { is_node self.old.table node ≡ true }
        ensures written { self.new.table ≡ with_entry self.old.table node entry }
        ensures moves { self.new.moves ≡ self.old.moves }
    {
        self.links.set_entry(node, entry);
    }

    /// Inserts a node that is in no list before the first, and gives it these ticks.
    pub fn put_front(&mut self, list: usize, node: usize, entry: Entry)
        requires list { list < list_count }
        requires loose { IsLoose self.old.table node }
        ensures put { self.new.table ≡ with_entry (with_list self.old.table list (node ∷ list_at self.old.table list)) node entry }
        ensures moves { self.new.moves.slots ≡ self.old.moves.slots + slot_move list }
        ensures all_moves { self.new.moves.all ≡ self.old.moves.all + 1 }
    {
        self.links.put_front(list, node, entry);
        if list < SLOTS {
            self.occupied.mark(list);
        }
        self.moves = self.moves.and(&node);
        note_slot_move(&mut self.slot_moves, list, node);
    }

    /// Removes a node from its list; the order of the others stays.
    pub fn remove(&mut self, list: usize, node: usize)
        requires list { list < list_count }
        requires within { IsIn node (list_at self.old.table list) }
        ensures without { self.new.table ≡ with_list self.old.table list (without node (list_at self.old.table list)) }
        ensures gone { IsIn node (list_at self.new.table list) → ⊥ }
        ensures loose { IsLoose self.new.table node }
        ensures parts { (front back : List ℕ) → list_at self.old.table list ≡ front ++ node ∷ back → self.new.table ≡ with_list self.old.table list (front ++ back) }
        ensures moves { self.new.moves.slots ≡ self.old.moves.slots + slot_move list }
        ensures all_moves { self.new.moves.all ≡ self.old.moves.all + 1 }
    {
        self.links.remove(list, node);
        if list < SLOTS && self.links.is_empty(list) {
            self.occupied.clear(list);
        }
        self.moves = self.moves.and(&node);
        note_slot_move(&mut self.slot_moves, list, node);
    }

    /// Returns the node of the taken list if it has only one, or `None` if it has none or several.
    pub fn only_taken(&self) -> Option<usize>
        ensures { IfSome result (λ node. list_at self.now.table taken_list ≡ node ∷ []) }
    {
        self.links.only(TAKEN)
    }

    /// Returns the node of a list with only one, or `None` if the list has none or several.
    pub fn only_in(&self, list: usize) -> Option<usize>
        requires { list < list_count }
        ensures { IfSome result (λ node. list_at self.now.table list ≡ node ∷ []) }
    {
        self.links.only(list)
    }

    /// Removes the only node of a slot's list, and gives it these ticks.
    pub fn take_only(&mut self, slot: usize, node: usize, entry: Entry)
        requires slot { slot < slot_count }
        requires alone { list_at self.old.table slot ≡ node ∷ [] }
        ensures taken { self.new.table ≡ with_entry (with_list self.old.table slot []) node entry }
        ensures moves { self.new.moves.slots ≡ self.old.moves.slots + 1 }
        ensures all_moves { self.new.moves.all ≡ self.old.moves.all + 1 }
    {
        self.links.take_only(slot, node, entry);
        self.occupied.clear(slot);
        self.moves = self.moves.and(&node);
        note_slot_move(&mut self.slot_moves, slot, node);
    }

    /// Removes and returns the last node of the taken list, as one step, or returns `None` if and only if that list is
    /// empty, as no step.
    pub fn pop_taken<L: Ledger>(&mut self, steps: &mut Steps<L>) -> Option<usize>
        ensures popped { PoppedBack self.old.table self.new.table taken_list result }
        ensures loose { IfSome result (λ node. IsLoose self.new.table node) }
        ensures steps { steps.new ≡ steps.old + (if is_some result then 1 else 0) }
        ensures moves { self.new.moves.slots ≡ self.old.moves.slots + (if is_some result then 1 else 0) }
        ensures all_moves { self.new.moves.all ≡ self.old.moves.all + (if is_some result then 1 else 0) }
    {
        let node = self.links.pop_back(TAKEN, steps)?;
        self.moves = self.moves.and(&node);
        note_slot_move(&mut self.slot_moves, TAKEN, node);
        Some(node)
    }

    /// Moves the whole list of a slot to the taken list, which is empty, in constant time. No node is twice in it (clause
    /// `once`).
    pub fn take(&mut self, slot: usize)
        requires slot { slot < slot_count }
        requires empty { list_at self.old.table taken_list ≡ [] }
        ensures moved { self.new.table ≡ with_list (with_list self.old.table slot []) taken_list (list_at self.old.table slot) }
        ensures once { Distinct (list_at self.old.table slot) }
        ensures moves { self.new.moves ≡ self.old.moves }
    {
        self.links.take(slot, TAKEN);
        self.occupied.clear(slot);
    }

    /// Adds a node, in no list. It takes no memory: there is room for it.
    pub fn add_node(&mut self) -> usize
        requires { 0 < self.old.table.room }
        ensures added { Added self.old.table self.new.table result }
        ensures moves { self.new.moves ≡ self.old.moves }
    {
        self.links.add_node()
    }

    /// Frees a node that is in no list; its room can be used again.
    pub fn free_node(&mut self, node: usize)
        requires { IsLoose self.old.table node }
        ensures freed { Freed self.old.table self.new.table node }
        ensures moves { self.new.moves ≡ self.old.moves }
    {
        self.links.free_node(node);
    }

    /// Reserves memory for `more` nodes, as `Links` does.
    pub fn reserve(&mut self, alloc: Global, more: usize) -> Result<(), AllocError>
        ensures room { OnOk result (more ≤ self.new.table.room) }
        ensures kept { self.new.table ≡ record self.old.table { room = self.new.table.room } }
        ensures grown { self.old.table.room ≤ self.new.table.room }
        ensures moves { self.new.moves ≡ self.old.moves }
        ensures refused { OnErr result (self.new ≡ self.old) }
    {
        self.links.reserve(alloc, more)
    }
}
