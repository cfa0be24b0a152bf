// The tasks that wait for one thing, in the order of their arrival. All of them go on once it comes.
ghost use Rattle.std.specs.Prelude.{◌≡◌, ◌<◌, [], length, MatchBool};
ghost use Rattle.mono_groups.specs.Waiters.{has_place, waits_at, Joins, Leaves, Pops, Stands};

use std::alloc::Global;
use std::collections::VecDeque;

/// A waiting task, with the ticket that its future drew.
#[derive(Clone, Copy)]
pub struct Waiter {
    pub(crate) ticket: u64,
    pub(crate) task: u64,
}

/// Tasks that wait for one thing, in the order of their arrival. Each waiting future has a ticket of its own.
#[derive(Drop)]
pub struct Waiters {
    pub(crate) entries: VecDeque<Waiter>,
    // The next ticket.
    pub(crate) next: u64,
}

/// The answer to a future that asks for something.
#[derive(Drop)]
pub enum Asked<G> {
    /// The future has what it asked for.
    Got(G),
    /// The allocation of a place among those that wait failed.
    Memory,
    /// The future waits from now on, with this ticket.
    Joined(u64),
    /// The future still waits.
    Waits,
}

impl Waiters {
    // Returns a value in which no task waits.
    pub(crate) fn new(alloc: Global) -> Waiters
        ensures entries { result.entries.items ≡ [] }
        ensures next { result.next ≡ 0 }
    {
        Waiters {
            entries: VecDeque::new(alloc),
            next: 0,
        }
    }

    // Returns whether this task waits with this ticket.
    fn waits_at(&self, ticket: u64, me: u64) -> bool
        ensures { result ≡ waits_at self.now.entries.items ticket me }
    {
        self.entries
            .iter()
            .any(|w| w.ticket == ticket && w.task == me)
    }

    // Returns whether this task waits with the ticket of its future, if the future drew one.
    fn has_place(&self, ticket: Option<u64>, me: u64) -> bool
        ensures { result ≡ has_place self.now ticket me }
    {
        match ticket {
            None => false,
            Some(ticket) => self.waits_at(ticket, me),
        }
    }

    // Appends a task, and returns its ticket. Refused if out of memory, or if no ticket is left.
    fn join<G>(&mut self, me: u64) -> Asked<G>
        ensures { Joins self.old me result self.new }
    {
        let ticket = self.next;
        let Some(next) = ticket.checked_add(1) else {
            return Asked::Memory;
        };
        match self.entries.push_back(Waiter { ticket, task: me }) {
            Ok(()) => {
                self.next = next;
                Asked::Joined(ticket)
            }
            Err(_) => Asked::Memory,
        }
    }

    // Makes a future of this task wait. If it waits with its ticket, it keeps its place.
    pub(crate) fn stand<G>(&mut self, ticket: Option<u64>, me: u64) -> Asked<G>
        ensures { Stands self.old ticket me result self.new }
    {
        if self.has_place(ticket, me) {
            return Asked::Waits;
        }
        self.join(me)
    }

    // Takes a future out, in a turn of this task. If it waits for another task, that task stays and is woken in its turn.
    pub(crate) fn leave(&mut self, ticket: Option<u64>, me: u64)
        ensures { Leaves self.old ticket me self.new }
    {
        if let Some(ticket) = ticket {
            self.entries
                .retain(|w| !(w.ticket == ticket && w.task == me));
        }
    }

    // Returns whether no task waits.
    pub(crate) fn is_empty(&self) -> bool
        ensures { MatchBool result (self.now.entries.items ≡ []) (0 < length self.now.entries.items) }
    {
        self.entries.is_empty()
    }

    // Takes the first task out.
    pub(crate) fn pop(&mut self) -> Option<Waiter>
        ensures { Pops self.old result self.new }
    {
        if self.entries.is_empty() {
            return None;
        }
        let Some(first) = self.entries.pop_front() else {
            unreachable!()
        };
        Some(first)
    }
}
