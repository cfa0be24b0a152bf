// The acts of the turn that runs: all of them in proofs, and in memory as far as the journal reads them.
ghost use Rattle.std.specs.Prelude.{◌≡◌, ◌≤◌, [], true, false, IfOk, OnOk, vec_capacity};
ghost use Rattle.mono_rt.specs.Record.{no_acts, noted};

use mono_machine::{List, Reply, TurnStep};
use mono_model::History;
use std::alloc::{AllocError, Global};
use std::marker::Model;
use std::mem;

/// How many acts of one turn memory keeps.
const ROOM: usize = 512;

/// The acts of the running turn, with their replies. A clause sees all of them; memory keeps up to 512. After one more
/// the record is full, and memory keeps nothing more. If no journal reads the record, it is full from the start.
#[derive(Drop)]
pub struct Acts {
    steps: Vec<TurnStep>,
    replies: Vec<Reply>,
    is_full: bool,
    done: History<TurnStep>,
    replied: History<Reply>,
}

impl Model for Acts {
    ghost use Rattle.std.specs.Prelude.{vec_capacity};
    ghost use Rattle.mono_rt.specs.Record.{Record, HasRoom, KeepsActs};

    ghost Value = { Record };

    ghost view = { λ a. record { steps = a.done.entries; replies = a.replied.entries; is_full = a.is_full } };

    ghost invariant = { λ a. HasRoom a.is_full a.steps.items a.replies.items (vec_capacity a.steps) (vec_capacity a.replies) × KeepsActs a.is_full a.steps.items a.replies.items a.done.entries a.replied.entries };
}

impl Acts {
    /// Clears the record, with room for 512 acts, or for none if the record is not read.
    #[inline(always)]
    pub fn begin(&mut self, alloc: Global, is_unread: bool) -> Result<(), AllocError>
        ensures { OnOk result (self.new ≡ no_acts is_unread) }
    {
        if is_unread {
            self.is_full = true;
            self.done = History::new();
            self.replied = History::new();
        } else {
            self.begin_read(alloc)?;
        }
        Ok(())
    }

    // Clears the record, with room for 512 acts. It takes no memory if the record had that room before.
    #[inline(never)]
    fn begin_read(&mut self, alloc: Global) -> Result<(), AllocError>
        ensures { OnOk result (self.new ≡ no_acts false) }
    {
        self.is_full = true;
        self.done = History::new();
        self.replied = History::new();
        empty_room(alloc, &mut self.steps)?;
        empty_room(alloc, &mut self.replies)?;
        self.is_full = false;
        Ok(())
    }

    /// Returns whether the record is full.
    #[inline(always)]
    pub fn is_full(&self) -> bool
        ensures { result ≡ self.now.is_full }
    {
        self.is_full
    }

    /// Takes the acts and their replies, in proofs alone, out of a full record. It costs nothing at run time.
    #[inline(always)]
    pub fn take_lost(&mut self) -> (History<TurnStep>, History<Reply>)
        requires { self.old.is_full ≡ true }
        ensures steps { result.0.entries ≡ self.old.steps }
        ensures replies { result.1.entries ≡ self.old.replies }
    {
        let done = mem::replace(&mut self.done, History::new());
        let replied = mem::replace(&mut self.replied, History::new());
        (done, replied)
    }

    /// Returns a record without acts, of which memory keeps none.
    pub fn keeping_none(alloc: Global) -> Acts
        ensures { result ≡ no_acts true }
    {
        Acts {
            steps: Vec::new(alloc),
            replies: Vec::new(alloc),
            is_full: true,
            done: History::new(),
            replied: History::new(),
        }
    }

    /// Returns the acts and their replies in lists of just their length. The record keeps its room for the next turn. If
    /// an allocation fails, a list takes that room itself.
    pub fn take_apart(&mut self, alloc: Global) -> (List<TurnStep>, List<Reply>)
        requires { self.old.is_full ≡ false }
        ensures steps { result.0 ≡ self.old.steps }
        ensures replies { result.1 ≡ self.old.replies }
    {
        let steps = apart(alloc, &mut self.steps);
        let replies = apart(alloc, &mut self.replies);
        self.is_full = true;
        (steps, replies)
    }

    /// Adds one act. It takes no memory.
    pub fn note(&mut self, step: TurnStep, reply: Reply)
        ensures { self.new ≡ noted self.old step reply }
    {
        let done = self.done.and(&step);
        let replied = self.replied.and(&reply);
        if self.is_full || self.steps.len() >= ROOM {
            self.is_full = true;
        } else {
            self.steps.push_reserved(step);
            self.replies.push_reserved(reply);
        }
        self.done = done;
        self.replied = replied;
    }
}

// Returns a copy of a list in just its length, or the list itself if the allocation fails.
fn apart<T: Copy>(alloc: Global, items: &mut Vec<T>) -> List<T>
    ensures { result ≡ items.old.items }
{
    match Vec::from_slice(alloc, items) {
        Ok(copy) => List::from(copy),
        Err(_) => List::from(mem::replace(items, Vec::new(alloc))),
    }
}

// Empties a list that then has room for 512 items. It takes no memory if the list had that room before.
fn empty_room<T: Drop>(alloc: Global, items: &mut Vec<T>) -> Result<(), AllocError>
    ensures empty { OnOk result (items.new.items ≡ []) }
    ensures room { OnOk result (512 ≤ vec_capacity items.new) }
{
    if items.capacity() < ROOM {
        *items = Vec::with_capacity(alloc, ROOM)?;
        return Ok(());
    }
    items.clear();
    Ok(())
}
