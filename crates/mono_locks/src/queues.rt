// The tasks that wait, in the order of their arrival, each with the amount that it asks for.
ghost use Rattle.std.specs.Prelude.{◌≡◌, ◌≤◌, ⊤, [], MatchBool};
ghost use Rattle.mono_locks.specs.declared.queues.Coming.TheVariants.{Free, Full};
ghost use Rattle.mono_locks.specs.Queues.{holder_of, place_of, has_room, starts_within, starts_below, Comes, Asks, IfGot, Leaves, Marks, Joins, Pops, Serves, Takes, TakesBelow};

use std::alloc::{AllocError, Global};
use std::collections::VecDeque;
use std::marker::Model;

/// The ticket that a future drew at a queue. Only a queue makes one.
#[derive(Debug, Clone, Copy)]
pub struct Ticket {
    number: u64,
}

/// In clauses a ticket is its number.
impl Model for Ticket {
    ghost use Rattle.std.specs.Prelude.{ℕ};

    ghost Value = { ℕ };

    ghost view = { λ a. a.number };

    ghost inverse = { λ n. record { number = n } };
}

impl Ticket {
    /// Returns the number of the ticket. A queue counts its tickets from 0.
    pub fn number(self) -> u64
        ensures { result ≡ self }
    {
        self.number
    }
}

// Returns the ticket with this number, if any. A future keeps the number alone: the prover refuses a closure that returns
// a future with a field of a `Copy` type that has a model.
pub(crate) fn ticket_of(number: Option<u64>) -> Option<Ticket>
    ensures { result ≡ number }
{
    number.map(|number| Ticket { number })
}

/// A waiting task, with the ticket that its future drew and the amount that it asks for.
#[derive(Clone, Copy)]
pub struct Entry {
    pub(crate) ticket: u64,
    pub(crate) task: u64,
    // Nothing, if the future left in a turn of another task. The task is woken in its turn.
    pub(crate) amount: usize,
}

/// Tasks that wait for amounts, first come, first served.
///
/// Each waiting future has a ticket of its own. A future that is served leaves the queue at once, and its amount stays
/// reserved until it collects it (`granted`). The first task is served if there is room for its amount. So one that asks
/// for much is not overtaken by those that ask later for less.
#[derive(Drop)]
pub struct Queue {
    pub(crate) waiters: VecDeque<Entry>,
    // The amount that is reserved for futures that were served and have not collected it.
    pub(crate) granted: usize,
    // The next ticket.
    pub(crate) next: u64,
}

/// The answer of a queue to a future that asks.
#[derive(Clone, Copy)]
pub enum Coming {
    /// The future waits.
    Waits,
    /// The future does not wait, and there is room for it.
    Free,
    /// The future does not wait, and there is no room for it.
    Full,
}

/// The answer to a future that asks a lock or a cell.
#[derive(Drop)]
pub enum Asked<G> {
    /// The future has what it asked for.
    Got(G),
    /// The allocation of a place in the queue failed.
    Memory,
    /// The future waits from now on, with this ticket.
    Joined(Ticket),
    /// The future still waits.
    Waits,
}

impl Queue {
    // Returns a queue in which no task waits.
    pub(crate) fn new(alloc: Global) -> Queue
        ensures waiters { result.waiters.items ≡ [] }
        ensures granted { result.granted ≡ 0 }
        ensures next { result.next ≡ 0 }
    {
        Queue {
            waiters: VecDeque::new(alloc),
            granted: 0,
            next: 0,
        }
    }

    // Returns the place of the future with this ticket.
    fn place_of(&self, ticket: u64) -> Option<usize>
        ensures { result ≡ place_of self.now.waiters.items ticket }
    {
        self.waiters.iter().position(|w| w.ticket == ticket)
    }

    // Returns the task that waits with this ticket.
    pub(crate) fn holder_of(&self, ticket: Ticket) -> Option<u64>
        ensures { result ≡ holder_of self.now.waiters.items ticket }
    {
        match self.place_of(ticket.number()) {
            None => None,
            Some(place) => Some(self.waiters[place].task),
        }
    }

    // Marks the future with this ticket, for which this task waits, as one that has left.
    fn mark(&mut self, ticket: u64, task: u64)
        ensures { Marks self.old ticket task self.new }
    {
        if let Some(place) = self.place_of(ticket) {
            self.waiters[place] = Entry {
                ticket,
                task,
                amount: 0,
            };
        }
    }

    // Returns whether no task waits and there is room for this amount.
    pub(crate) fn has_room(&self, amount: usize, room: usize) -> bool
        ensures free { result ≡ has_room self.now amount room }
        ensures fits { MatchBool result (amount ≤ room) ⊤ }
    {
        self.waiters.is_empty() && amount <= room.saturating_sub(self.granted)
    }

    // Answers a future that does not wait.
    fn answer(has_room: bool) -> Coming
        ensures { MatchBool has_room (result ≡ Free) (result ≡ Full) }
    {
        if has_room {
            return Coming::Free;
        }
        Coming::Full
    }

    // Answers a future of this task that asks with the ticket that it drew, if any. A future that was served collects
    // its amount. One that waits for another task has left its place: that task is woken in its turn.
    pub(crate) fn come(
        &mut self,
        ticket: Option<Ticket>,
        me: u64,
        amount: usize,
        room: usize,
    ) -> Coming
        ensures { Comes self.old ticket me amount room result self.new }
    {
        match ticket {
            None => Queue::answer(self.has_room(amount, room)),
            Some(ticket) => match self.holder_of(ticket) {
                None => {
                    self.granted = self.granted.saturating_sub(amount);
                    Queue::answer(amount <= room.saturating_sub(self.granted))
                }
                Some(task) => {
                    if task == me {
                        return Coming::Waits;
                    }
                    self.mark(ticket.number(), task);
                    Queue::answer(self.has_room(amount, room))
                }
            },
        }
    }

    // Appends a task to the queue, and returns its ticket. Refused if out of memory, or if no ticket is left.
    pub(crate) fn join(&mut self, task: u64, amount: usize) -> Result<Ticket, AllocError>
        ensures { Joins self.old task amount result self.new }
    {
        let ticket = self.next;
        let Some(next) = ticket.checked_add(1) else {
            return Err(AllocError);
        };
        match self.waiters.push_back(Entry {
            ticket,
            task,
            amount,
        }) {
            Ok(()) => {
                self.next = next;
                Ok(Ticket { number: ticket })
            }
            Err(_) => Err(AllocError),
        }
    }

    // Answers a future of this task that asks for an amount, or makes it wait.
    pub(crate) fn ask(
        &mut self,
        ticket: Option<Ticket>,
        me: u64,
        amount: usize,
        room: usize,
    ) -> Asked<()>
        ensures asks { Asks self.old ticket me amount room result self.new }
        ensures fits { IfGot result (λ g. amount ≤ room) ⊤ }
    {
        match self.come(ticket, me, amount, room) {
            Coming::Waits => Asked::Waits,
            Coming::Free => Asked::Got(()),
            Coming::Full => match self.join(me, amount) {
                Ok(drawn) => Asked::Joined(drawn),
                Err(_) => Asked::Memory,
            },
        }
    }

    // Takes a future out of the queue, in a turn of this task. If it was served, its amount is free again. If it waits for
    // another task, that task is woken in its turn.
    pub(crate) fn leave(&mut self, ticket: Option<Ticket>, me: u64, amount: usize)
        ensures { Leaves self.old ticket me amount self.new }
    {
        if let Some(ticket) = ticket {
            match self.holder_of(ticket) {
                None => self.granted = self.granted.saturating_sub(amount),
                Some(task) => {
                    let number = ticket.number();
                    if task == me {
                        self.waiters
                            .retain(|w| !(w.ticket == number && w.task == me));
                        return;
                    }
                    self.mark(number, task);
                }
            }
        }
    }

    // Removes the first task from the queue, with nothing reserved for it.
    pub(crate) fn pop(&mut self) -> Option<Entry>
        ensures { Pops self.old result self.new }
    {
        if self.waiters.is_empty() {
            return None;
        }
        let Some(first) = self.waiters.pop_front() else {
            unreachable!()
        };
        Some(first)
    }

    // Returns whether a task waits, and the first asks for at most this amount.
    fn starts_within(&self, free: usize) -> bool
        ensures { result ≡ starts_within free self.now.waiters.items }
    {
        if self.waiters.is_empty() {
            return false;
        }
        self.waiters[0].amount <= free
    }

    // Removes the first task from the queue if there is room for its amount, which is reserved for it.
    pub(crate) fn serve(&mut self, room: usize) -> Option<Entry>
        ensures { Serves self.old room result self.new }
    {
        if !self.starts_within(room.saturating_sub(self.granted)) {
            return None;
        }
        let Some(served) = self.waiters.pop_front() else {
            unreachable!()
        };
        self.granted += served.amount;
        Some(served)
    }

    // Removes the first task that is to be woken from the queue: one for which there is room, or any once the value was
    // closed.
    pub(crate) fn take(&mut self, is_closed: bool, room: usize) -> Option<Entry>
        ensures { Takes is_closed room self.old result self.new }
    {
        if is_closed {
            return self.pop();
        }
        self.serve(room)
    }

    // Returns whether the first task drew its ticket before this one was the next.
    fn starts_below(&self, low: u64) -> bool
        ensures { result ≡ starts_below low self.now.waiters.items }
    {
        if self.waiters.is_empty() {
            return false;
        }
        self.waiters[0].ticket < low
    }

    // Removes the first task from the queue, if it drew its ticket before this one was the next, or the value was closed.
    pub(crate) fn take_below(&mut self, is_closed: bool, low: u64) -> Option<Entry>
        ensures { TakesBelow is_closed low self.old result self.new }
    {
        if is_closed || self.starts_below(low) {
            return self.pop();
        }
        None
    }
}
