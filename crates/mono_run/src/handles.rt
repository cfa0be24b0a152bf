// The handles that a task made, in the order of its lines.
ghost use Rattle.std.specs.Prelude.{◌≡◌, ◌≤◌, ◌<◌, ◌+◌, ◌++◌, ◌∷◌, [], None, IfOk, length, slice_index_or};

use std::alloc::{AllocError, Global};
use std::marker::Model;

/// The numbers of a task's own tasks, or of its own jobs; at most one for each line of its body. A refused handle is
/// None. The room for 127 handles is made at the start, apart from the task, so that a turn does not move it.
#[derive(Drop)]
pub(crate) struct Handles {
    numbers: Vec<Option<u64>>,
}

impl Model for Handles {
    ghost use Rattle.std.specs.Prelude.{ℕ, ◌≤◌, List, Option, vec_capacity};

    ghost Value = { List (Option ℕ) };

    ghost view = { λ h. h.numbers.items };

    ghost invariant = { λ h. 127 ≤ vec_capacity h.numbers };
}

impl Handles {
    /// Returns the list without handles, with room for 127. It fails only if out of memory.
    pub fn new(alloc: Global) -> Result<Handles, AllocError>
        ensures { IfOk result (λ handles. handles ≡ []) }
    {
        let numbers = Vec::with_capacity(alloc, 127)?;
        Ok(Handles { numbers })
    }

    /// Adds one handle, or None if it was refused. After 127 handles it adds none.
    pub fn push(&mut self, number: Option<u64>)
        ensures one_more { length self.old < 127 → self.new ≡ self.old ++ number ∷ [] }
        ensures few { length self.new ≤ length self.old + 1 }
    {
        if self.numbers.len() < 127 {
            self.numbers.push_reserved(number);
        }
    }

    /// Returns the number of handle i, if there is one.
    pub fn get(&self, i: u64) -> Option<u64>
        ensures { result ≡ slice_index_or self.now i None }
    {
        match self.numbers.get(i as usize) {
            Some(number) => *number,
            None => None,
        }
    }
}
