// A queue whose changes can be taken back.
ghost use Rattle.std.specs.Prelude.{◌≡◌, [], ◌∷◌, ◌++◌, List, ℕ, OnOk, IfOk, MatchOption};
ghost use Rattle.mono_trace.specs.Versions.{kept, changed};
ghost use Rattle.mono_trace.specs.Queues.{unmoved};

use std::alloc::{AllocError, AllocFailed, Global};
use std::collections::VecDeque;
use std::marker::Model;

/// One change of a queue: a number was appended, or this one left the front.
#[derive(Clone, Copy)]
pub enum Move {
    Put,
    Took(u64),
}

/// The numbers of the tasks that are queued, in order.
///
/// Contracts see the queue as it is and as it was when its changes were last kept.
#[derive(Drop)]
pub struct Queue {
    items: VecDeque<u64>,
    moves: Vec<Move>,
}

impl Model for Queue {
    ghost use Rattle.std.specs.Prelude.{ℕ, List};
    ghost use Rattle.mono_trace.specs.Versions.{Versions};
    ghost use Rattle.mono_trace.specs.Queues.{unmoved};

    ghost Value = { Versions (List ℕ) };

    ghost view = { λ a. record { now = a.items.items; before = unmoved a.moves.items a.items.items } };
}

/// Takes back all changes, the last first.
#[tactic(auto, using(crate::proofs::UndoLemmas::unmoved_last))]
fn take_back(items: &mut VecDeque<u64>, moves: &mut Vec<Move>) -> Result<(), AllocError>
    ensures items { OnOk result (items.new.items ≡ unmoved moves.old.items items.old.items) }
    ensures moves { OnOk result (moves.new.items ≡ []) }
{
    while let Some(change) = moves.pop() {
        match change {
            Move::Put => {
                items.pop_back();
            }
            Move::Took(t) => items.push_front(t)?,
        }
    }
    Ok(())
}

impl Queue {
    /// Returns the empty queue.
    pub fn new(alloc: Global) -> Queue
        ensures { result ≡ kept [] }
    {
        Queue {
            items: VecDeque::new(alloc),
            moves: Vec::new(alloc),
        }
    }

    /// Appends a number.
    #[tactic(auto, using(crate::proofs::UndoLemmas::unmoved_put))]
    pub fn put(&mut self, t: u64) -> Result<(), AllocError>
        ensures { OnOk result (self.new ≡ changed self.old (self.old.now ++ t ∷ [])) }
    {
        self.items.push_back(t)?;
        self.moves.push(Move::Put)?;
        Ok(())
    }

    /// Removes and returns the number at the front, if there is one.
    #[tactic(auto, using(crate::proofs::UndoLemmas::unmoved_took))]
    pub fn take(&mut self) -> Result<Option<u64>, AllocError>
        ensures { IfOk result (λ r. MatchOption r ((self.old.now ≡ []) × (self.new ≡ self.old)) (λ t. (self.old.now ≡ t ∷ self.new.now) × (self.new.before ≡ self.old.before))) }
    {
        match self.items.pop_front() {
            None => Ok(None),
            Some(t) => {
                self.moves.push(Move::Took(t))?;
                Ok(Some(t))
            }
        }
    }

    /// Keeps all changes, so that they cannot be taken back any more.
    pub fn keep(&mut self)
        ensures { self.new ≡ kept self.old.now }
    {
        self.moves.clear();
    }

    /// Takes back all changes since they were last kept.
    pub fn take_back(&mut self) -> Result<(), AllocError>
        ensures { OnOk result (self.new ≡ kept self.old.before) }
    {
        take_back(&mut self.items, &mut self.moves)
    }
}
