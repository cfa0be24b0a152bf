// The queue of the actors that run next.
ghost use Rattle.std.specs.Prelude.{◌≡◌, ◌<◌, ◌-◌, ◌^◌, ◌==◌, not, true, false, [], ◌∷◌, ◌++◌, List, ℕ, OnOk, MatchOption, filter, length, slice_index_or, slice_set};
ghost use Rattle.mono_wheel.specs.Lists.{IsIn};
ghost use Rattle.mono_actor.specs.Queues.{after_in, before_in, HasPlace, SetsAfter, SetsBefore, Joined};

use mono_table::ReadyTable;
use std::alloc::{AllocError, Global};
use std::marker::Model;

// The number of the end of the ring.
const END: u64 = u64::MAX;

/// The neighbours of a number in the queue. They have no meaning while the number is not in it.
#[derive(Clone, Copy, Drop)]
pub struct Seat {
    before: u64,
    after: u64,
}

// The neighbours of a number that was not in the queue, and the ends of an empty queue.
const OUT: Seat = Seat {
    before: END,
    after: END,
};

// Returns the neighbour after a number.
#[inline(always)]
fn after(seats: &ReadyTable<Seat>, ends: Seat, number: u64) -> u64
    ensures { result ≡ after_in seats.now.table ends number }
{
    if number == END {
        return ends.after;
    }
    match seats.get(number) {
        None => 0,
        Some(seat) => seat.after,
    }
}

// Returns the neighbour before a number.
#[inline(always)]
fn before(seats: &ReadyTable<Seat>, ends: Seat, number: u64) -> u64
    ensures { result ≡ before_in seats.now.table ends number }
{
    if number == END {
        return ends.before;
    }
    match seats.get(number) {
        None => 0,
        Some(seat) => seat.before,
    }
}

// Sets the neighbour after a number.
#[inline(always)]
fn set_after(seats: &mut ReadyTable<Seat>, ends: &mut Seat, number: u64, after: u64)
    requires { HasPlace seats.old.table number }
    ensures { SetsAfter seats.old.table seats.new.table ends.old ends.new number after }
{
    if number == END {
        ends.after = after;
    } else {
        let before = before(seats, *ends, number);
        seats.replace(number, Seat { before, after });
    }
}

// Sets the neighbour before a number.
#[inline(always)]
fn set_before(seats: &mut ReadyTable<Seat>, ends: &mut Seat, number: u64, before: u64)
    requires { HasPlace seats.old.table number }
    ensures { SetsBefore seats.old.table seats.new.table ends.old ends.new number before }
{
    if number == END {
        ends.before = before;
    } else {
        let after = after(seats, *ends, number);
        seats.replace(number, Seat { before, after });
    }
}

// Links `after` directly after `before`.
#[inline(always)]
fn join(seats: &mut ReadyTable<Seat>, ends: &mut Seat, before: u64, after: u64)
    requires before { HasPlace seats.old.table before }
    requires after { HasPlace seats.old.table after }
    ensures { Joined seats.old.table seats.new.table ends.old ends.new before after }
{
    set_after(seats, ends, before, after);
    set_before(seats, ends, after, before);
}

/// A queue of numbers. A number that has a seat can be in it once.
///
/// The numbers in the queue form a ring. So a number enters at the end, and leaves from anywhere, with a few look-ups.
/// Only `reserve` takes memory, which follows the number of seats.
#[derive(Drop)]
pub(crate) struct Queue {
    seats: ReadyTable<Seat>,
    // The last and the first number in the queue, or `END`.
    ends: Seat,
}

impl Model for Queue {
    ghost use Rattle.mono_actor.specs.Queues as model;

    ghost Value = { model.Queue };

    ghost use Rattle.mono_actor.specs.Queues.{seen, items_in, Ring};

    ghost view = { λ a. seen a.seats.table a.ends a.seats.room };

    ghost invariant = { λ a. Ring a.seats.table a.ends (items_in a.seats.table a.ends) };
}

impl Queue {
    /// Returns an empty queue without seats.
    pub(crate) fn new(alloc: Global) -> Queue
        ensures items { result.items ≡ [] }
        ensures seats { result.seats ≡ [] }
    {
        Queue {
            seats: ReadyTable::new(alloc),
            ends: OUT,
        }
    }

    /// Reserves memory for the seat of the next number. It is refused only if it is out of memory. The queue and the
    /// seats stay in either case.
    pub(crate) fn reserve(&mut self, alloc: Global) -> Result<(), AllocError>
        ensures items { self.new.items ≡ self.old.items }
        ensures seats { self.new.seats ≡ self.old.seats }
        ensures room { OnOk result (length self.new.seats < self.new.room) }
    {
        self.seats.reserve(alloc, OUT)
    }

    /// Adds a seat for the next number. It takes no memory: there is room for it.
    pub(crate) fn add(&mut self)
        requires room { length self.old.seats < self.old.room }
        requires few { length self.old.seats < 2 ^ 64 - 1 }
        ensures items { self.new.items ≡ self.old.items }
        ensures seats { self.new.seats ≡ self.old.seats ++ true ∷ [] }
    {
        self.seats.add(OUT);
    }

    /// Removes the seat of a number that is not in the queue.
    pub(crate) fn free(&mut self, number: u64)
        requires seat { slice_index_or self.old.seats number false ≡ true }
        requires out { IsIn number self.old.items → ⊥ }
        ensures items { self.new.items ≡ self.old.items }
        ensures seats { self.new.seats ≡ slice_set self.old.seats number false }
    {
        self.seats.remove(number);
    }

    /// Appends a number that has a seat and is not in the queue.
    pub(crate) fn push_back(&mut self, number: u64)
        requires seat { slice_index_or self.old.seats number false ≡ true }
        requires out { IsIn number self.old.items → ⊥ }
        ensures items { self.new.items ≡ self.old.items ++ number ∷ [] }
        ensures seats { self.new.seats ≡ self.old.seats }
    {
        let before = self.ends.before;
        self.seats.replace(number, Seat { before, after: END });
        set_after(&mut self.seats, &mut self.ends, before, number);
        self.ends.before = number;
    }

    /// Removes a number that is in the queue, from wherever it is.
    pub(crate) fn remove(&mut self, number: u64)
        requires { IsIn number self.old.items }
        ensures items { self.new.items ≡ filter (λ other. not (other == number)) self.old.items }
        ensures parts { (front back : List ℕ) → self.old.items ≡ front ++ number ∷ back → self.new.items ≡ front ++ back }
        ensures seats { self.new.seats ≡ self.old.seats }
    {
        let before = before(&self.seats, self.ends, number);
        let after = after(&self.seats, self.ends, number);
        join(&mut self.seats, &mut self.ends, before, after);
    }

    /// Removes and returns the front, or returns `None` if and only if the queue is empty.
    pub(crate) fn pop_front(&mut self) -> Option<u64>
        ensures items { MatchOption result ((self.old.items ≡ []) × (self.new ≡ self.old)) (λ front. self.old.items ≡ front ∷ self.new.items) }
        ensures seats { self.new.seats ≡ self.old.seats }
    {
        let front = self.ends.after;
        if front == END {
            return None;
        }
        let next = after(&self.seats, self.ends, front);
        join(&mut self.seats, &mut self.ends, END, next);
        Some(front)
    }
}
