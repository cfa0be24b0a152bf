// The tasks that wait, in the order of their arrival.
ghost use Rattle.std.specs.Prelude.{◌≡◌, ◌<◌, ◌≤◌, ◌+◌, [], length, MatchBool, not};
ghost use Rattle.mono_sync.specs.declared.lines.Coming.TheVariants.{Free, Full};
ghost use Rattle.mono_sync.specs.Lines.{holder_of, place_of, Comes, Leaves, Marks, Joins, Pops, Serves, Takes, TakesBelow, starts_below, is_held};
ghost use Rattle.std.specs.List.{list_any};

use std::alloc::{AllocError, Global};
use std::collections::VecDeque;
use std::marker::Model;

/// The ticket that a future drew at a line. Only a line makes one.
#[derive(Debug, Clone, Copy)]
pub struct Ticket {
    number: u64,
}

/// In clauses a ticket is its number.
impl Model for Ticket {
    ghost use Rattle.std.specs.Prelude.{ℕ};

    ghost Value = { ℕ };

    ghost view = { λ a. a.number };

    ghost inverse = { λ n. record { number = n } };
}

impl Ticket {
    /// Returns the number of the ticket. A line counts its tickets from 0.
    pub fn number(self) -> u64
        ensures { result ≡ self }
    {
        self.number
    }
}

// Returns the ticket with this number, if any. A future keeps the number alone: the prover refuses a closure that returns
// a future with a field of a `Copy` type that has a model.
pub(crate) fn ticket_of(number: Option<u64>) -> Option<Ticket>
    ensures { result ≡ number }
{
    number.map(|number| Ticket { number })
}

/// A waiting task, with the ticket that its future drew.
#[derive(Clone, Copy)]
pub struct Waiter {
    pub(crate) ticket: u64,
    pub(crate) task: u64,
    // Whether the future left in a turn of another task. The task is woken in its turn, and gets no grant.
    pub(crate) has_left: bool,
}

/// Tasks that wait, first come, first served.
///
/// Each waiting future has a ticket of its own. A future that is served leaves the line at once, and its grant stays
/// reserved until it collects it (`granted`).
#[derive(Drop)]
pub struct Line {
    pub(crate) waiters: VecDeque<Waiter>,
    // How many futures were served and have not collected their grant.
    pub(crate) granted: usize,
    // The next ticket.
    pub(crate) next: u64,
}

/// The answer of a line to a future that asks.
#[derive(Clone, Copy)]
pub enum Coming {
    /// The future waits.
    Waits,
    /// The future does not wait, and there is room for it.
    Free,
    /// The future does not wait, and there is no room for it.
    Full,
}

impl Line {
    /// Returns a line in which no task waits.
    pub fn new(alloc: Global) -> Line
        ensures waiters { result.waiters.items ≡ [] }
        ensures granted { result.granted ≡ 0 }
        ensures next { result.next ≡ 0 }
    {
        Line {
            waiters: VecDeque::new(alloc),
            granted: 0,
            next: 0,
        }
    }

    // Returns whether no task waits.
    fn is_empty(&self) -> bool
        ensures { MatchBool result (self.now.waiters.items ≡ []) (0 < length self.now.waiters.items) }
    {
        self.waiters.is_empty()
    }

    // Returns the place of the future with this ticket.
    fn place_of(&self, ticket: u64) -> Option<usize>
        ensures { result ≡ place_of self.now.waiters.items ticket }
    {
        self.waiters.iter().position(|w| w.ticket == ticket)
    }

    /// Returns the task that waits with this ticket.
    pub fn holder_of(&self, ticket: Ticket) -> Option<u64>
        ensures { result ≡ holder_of self.now.waiters.items ticket }
    {
        match self.place_of(ticket.number()) {
            None => None,
            Some(place) => Some(self.waiters[place].task),
        }
    }

    // Marks the future with this ticket, for which this task waits, as one that has left.
    fn mark(&mut self, ticket: u64, task: u64)
        ensures { Marks self.old ticket task self.new }
    {
        if let Some(place) = self.place_of(ticket) {
            self.waiters[place] = Waiter {
                ticket,
                task,
                has_left: true,
            };
        }
    }

    /// Returns whether `room` is more than the grants that are not collected and the tasks that wait.
    pub fn has_room(&self, room: usize) -> bool
        ensures { MatchBool result (self.now.granted + length self.now.waiters.items < room) (room ≤ self.now.granted + length self.now.waiters.items) }
    {
        self.waiters.len() < room.saturating_sub(self.granted)
    }

    // Answers a future that does not wait.
    fn answer(has_room: bool) -> Coming
        ensures { MatchBool has_room (result ≡ Free) (result ≡ Full) }
    {
        if has_room {
            return Coming::Free;
        }
        Coming::Full
    }

    /// Answers a future of this task that asks with the ticket that it drew, if any. A future that was served collects
    /// its grant. One that waits for another task has left its place: that task is woken in its turn. A ticket of another
    /// line is none, if this line never drew its number.
    pub fn come(&mut self, ticket: Option<Ticket>, me: u64, room: usize) -> Coming
        ensures comes { Comes self.old ticket me room result self.new }
        ensures some { result ≡ Free → 0 < room }
    {
        match ticket {
            None => Line::answer(self.has_room(room)),
            Some(ticket) => match self.holder_of(ticket) {
                None => {
                    if ticket.number() < self.next {
                        self.granted = self.granted.saturating_sub(1);
                        return Line::answer(self.granted < room);
                    }
                    Line::answer(self.has_room(room))
                }
                Some(task) => {
                    if task == me {
                        return Coming::Waits;
                    }
                    self.mark(ticket.number(), task);
                    Line::answer(self.has_room(room))
                }
            },
        }
    }

    /// Appends a task to the line, and returns its ticket. Refused if out of memory, or if no ticket is left.
    pub fn join(&mut self, task: u64) -> Result<Ticket, AllocError>
        ensures { Joins self.old task result self.new }
    {
        let ticket = self.next;
        let Some(next) = ticket.checked_add(1) else {
            return Err(AllocError);
        };
        match self.waiters.push_back(Waiter {
            ticket,
            task,
            has_left: false,
        }) {
            Ok(()) => {
                self.next = next;
                Ok(Ticket { number: ticket })
            }
            Err(_) => Err(AllocError),
        }
    }

    /// Takes a future out of the line, in a turn of this task. If it was served, its grant is free again. If it waits for
    /// another task, that task is woken in its turn. A ticket of another line changes nothing, if this line never drew its
    /// number.
    pub fn leave(&mut self, ticket: Option<Ticket>, me: u64)
        ensures { Leaves self.old ticket me self.new }
    {
        if let Some(ticket) = ticket {
            match self.holder_of(ticket) {
                None => {
                    if ticket.number() < self.next {
                        self.granted = self.granted.saturating_sub(1);
                    }
                }
                Some(task) => {
                    let number = ticket.number();
                    if task == me {
                        self.waiters
                            .retain(|w| !(w.ticket == number && w.task == me));
                        return;
                    }
                    self.mark(number, task);
                }
            }
        }
    }

    /// Removes the first task from the line, with nothing reserved for it.
    pub fn pop(&mut self) -> Option<Waiter>
        ensures { Pops self.old result self.new }
    {
        if self.waiters.is_empty() {
            return None;
        }
        let Some(first) = self.waiters.pop_front() else {
            unreachable!()
        };
        Some(first)
    }

    /// Removes the first task from the line if fewer than `room` grants are not yet collected. Reserves a grant for it,
    /// unless its future has left.
    pub fn serve(&mut self, room: usize) -> Option<Waiter>
        ensures { Serves self.old room result self.new }
    {
        if self.granted >= room || self.waiters.is_empty() {
            return None;
        }
        let Some(served) = self.waiters.pop_front() else {
            unreachable!()
        };
        if !served.has_left {
            self.granted += 1;
        }
        Some(served)
    }

    /// Removes the first task that is to be woken from the line: one for which there is room, or any once the value was
    /// closed.
    pub fn take(&mut self, is_closed: bool, room: usize) -> Option<Waiter>
        ensures { Takes is_closed room self.old result self.new }
    {
        if is_closed {
            return self.pop();
        }
        self.serve(room)
    }

    /// Returns whether the first task drew its ticket before this one was the next.
    pub fn starts_below(&self, low: u64) -> bool
        ensures { result ≡ starts_below low self.now.waiters.items }
    {
        if self.is_empty() {
            return false;
        }
        self.waiters[0].ticket < low
    }

    /// Removes the first task from the line, if it drew its ticket before this one was the next, or the value was closed.
    pub fn take_below(&mut self, is_closed: bool, low: u64) -> Option<Waiter>
        ensures { TakesBelow is_closed low self.old result self.new }
    {
        if is_closed || self.starts_below(low) {
            return self.pop();
        }
        None
    }

    // Returns whether a task waits whose future has not left.
    fn has_any(&self) -> bool
        ensures { result ≡ list_any (λ w. not w.has_left) self.now.waiters.items }
    {
        self.waiters.iter().any(|w| !w.has_left)
    }

    /// Returns whether a future waits, or was served and has not collected its grant.
    pub fn is_held(&self) -> bool
        ensures { result ≡ is_held self.now }
    {
        self.granted > 0 || self.has_any()
    }
}
