// The line of those who wait to send.
ghost use Rattle.std.specs.Prelude.{◌≡◌, ◌+◌, ◌<◌, true, false, [], ◌∷◌, ◌++◌, Some, None, IfOk, IfErr, is_some};
ghost use Rattle.std.proofs.Props.{props};
ghost use Rattle.mono_channel.specs.Lines.{AreBelow, Enters, Calls, GivesUp, standing_at, without, spent};

use crate::waiters::Waiter;
use mono_inbox::Unpark;
use std::alloc::{AllocError, Global};
use std::collections::BTreeMap;
use std::mem;

/// Those who wait to send, each at its seat, in the order in which they began to wait. One that is called leaves the line
/// and keeps its seat: if it finds no place, it stands there again.
#[derive(Drop)]
pub(crate) struct Line<U: Unpark> {
    waiters: BTreeMap<u64, Waiter<U>>,
    // the seat of the next who begins to wait
    next: u64,
    ghost given_out: { AreBelow next waiters.entries } by { Prim.hlevel props },
}

impl<U: Unpark> Line<U> {
    /// Returns a line in which nobody waits.
    pub(crate) fn new(alloc: Global) -> Line<U>
        ensures { result.waiters.entries ≡ [] }
    {
        Line {
            waiters: BTreeMap::new(alloc),
            next: 0,
        }
    }

    /// Takes one who waits into the line. One without a seat goes to the back; one with a seat stands at it, in place of the
    /// sender's earlier waker if that still does. Returns the seat. If the allocation fails the line stays as it was.
    #[tactic(auto, using(crate::proofs::LineLemmas::below_insert))]
    pub(crate) fn enter(&mut self, waiter: Waiter<U>, seat: Option<u64>) -> Result<u64, AllocError>
        ensures entered { IfOk result (λ s. Enters self.old.waiters.entries self.old.next seat waiter s self.new.waiters.entries) }
        ensures refused { IfErr result (λ e. self.new.waiters.entries ≡ self.old.waiters.entries) }
    {
        match seat {
            Some(seat) if seat < self.next => {
                self.waiters.insert(seat, waiter)?;
                Ok(seat)
            }
            _ => self.enter_last(waiter),
        }
    }

    // Takes one who begins to wait into the line, at the back.
    #[tactic(auto, using(crate::proofs::LineLemmas::comes_last, crate::proofs::LineLemmas::below_last))]
    fn enter_last(&mut self, waiter: Waiter<U>) -> Result<u64, AllocError>
        ensures entered { IfOk result (λ s. (s ≡ self.old.next) × (self.new.waiters.entries ≡ self.old.waiters.entries ++ (self.old.next, waiter) ∷ [])) }
        ensures refused { IfErr result (λ e. self.new.waiters.entries ≡ self.old.waiters.entries) }
    {
        let seat = self.next;
        let Some(next) = seat.checked_add(1) else {
            return Err(AllocError);
        };
        self.waiters.insert(seat, waiter)?;
        self.next = next;
        Ok(seat)
    }

    /// Calls the first in line, who is to be woken, and leaves the line.
    pub(crate) fn call(&mut self) -> Option<Waiter<U>>
        ensures { Calls self.old.waiters.entries result self.new.waiters.entries }
    {
        match self.waiters.pop_first() {
            Some((_, waiter)) => Some(waiter),
            None => None,
        }
    }

    /// Takes the sender with this seat, if any, out of the line: it waits no more.
    #[tactic(auto, using(crate::proofs::LineLemmas::below_remove))]
    pub(crate) fn spend(&mut self, seat: &mut Option<u64>)
        ensures seat { seat.new ≡ None }
        ensures line { self.new.waiters.entries ≡ spent seat.old self.old.waiters.entries }
    {
        if let Some(seat) = mem::replace(seat, None) {
            self.waiters.remove(&seat);
        }
    }

    /// Takes the sender at this seat out of the line. If it had been called, calls the first in line in its place, who is to
    /// be woken.
    #[tactic(auto, using(crate::proofs::LineLemmas::below_remove))]
    pub(crate) fn give_up(&mut self, seat: u64) -> Option<Waiter<U>>
        ensures { GivesUp self.old.waiters.entries (standing_at seat self.old.waiters.entries) result (without seat self.old.waiters.entries) self.new.waiters.entries }
    {
        match self.waiters.remove(&seat) {
            Some(_) => None,
            None => self.call(),
        }
    }

    /// Empties the line. Returns those who waited, by their seats.
    pub(crate) fn empty(&mut self, alloc: Global) -> BTreeMap<u64, Waiter<U>>
        ensures woken { result.entries ≡ self.old.waiters.entries }
        ensures none { self.new.waiters.entries ≡ [] }
    {
        mem::replace(&mut self.waiters, BTreeMap::new(alloc))
    }
}
