// The keys of the parts that were borrowed since the runtime last took what they owe.
ghost use Rattle.std.specs.Prelude.{◌≡◌, ◌≢◌, ◌<◌, ◌≤◌, ◌-◌, ◌^◌, ◌↔◌, ℕ, [], Some, MatchBool, IfSome, IfNone, IsTrue, length, slice_index_or};
ghost use Rattle.std.specs.List.{insert};
ghost use Rattle.mono_sync.specs.Touched.{Marks, IsMarked, IsAscending, Splits, first_of, left};

use std::alloc::Global;
use std::collections::VecDeque;
use std::marker::Model;

// How many places the list may keep while it is empty.
const KEPT_PLACES: usize = 64;

/// The keys of parts that may owe a wake, in ascending order.
///
/// If no memory is left to note a key, that key and all greater ones count as noted. So no key is forgotten, and no call
/// is refused.
#[derive(Drop)]
pub(crate) struct Touched {
    keys: VecDeque<u64>,
    // Each key from this one on counts as noted, too.
    from: u64,
}

impl Model for Touched {
    ghost use Rattle.mono_sync.specs.Touched.{Marks, Rises};

    ghost Value = { Marks };

    ghost view = { λ a. record { keys = a.keys.items; from = a.from } };

    ghost invariant = { λ a. Rises 0 a.keys.items a.from };
}

impl Touched {
    /// Returns a list that has noted no key.
    pub(crate) fn new(alloc: Global) -> Touched
        ensures { result ≡ record { keys = []; from = 2 ^ 64 - 1 } }
    {
        Touched {
            keys: VecDeque::new(alloc),
            from: u64::MAX,
        }
    }

    /// Notes a key. It takes memory, or else notes all greater keys, too.
    #[inline(always)]
    pub(crate) fn mark(&mut self, key: u64)
        ensures marked { IsMarked self.new key }
        ensures others { (k : ℕ) → IsMarked self.old k → IsMarked self.new k }
    {
        // A task mostly borrows the same part again.
        if !self.is_front(key) {
            self.note(key);
        }
    }

    // Notes a key. It looks for the place of the key in the list.
    fn note(&mut self, key: u64)
        ensures marked { IsMarked self.new key }
        ensures others { (k : ℕ) → IsMarked self.old k → IsMarked self.new k }
    {
        if key >= self.from {
            return;
        }
        let place = place_of(&self.keys, key);
        if place < self.keys.len() && self.keys[place] == key {
            return;
        }
        if !put(&mut self.keys, place, key) {
            self.keys.truncate(place);
            self.from = key;
        }
    }

    /// Returns the least noted key, if there is one below `count`.
    pub(crate) fn first(&self, count: u64) -> Option<u64>
        ensures first { result ≡ first_of self.now count }
        ensures below { IfSome result (λ k. k < 2 ^ 64 - 1) }
        ensures marked { IfSome result (IsMarked self.now) }
        ensures least { IfSome result (λ k. (j : ℕ) → j < k → IsMarked self.now j → ⊥) }
        ensures none { IfNone result ((j : ℕ) → j < count → IsMarked self.now j → ⊥) }
    {
        let from = self.from;
        if self.keys.len() > 0 {
            return Some(self.keys[0]);
        }
        if from < count {
            return Some(from);
        }
        None
    }

    /// Removes the note of this key, if it is the least.
    pub(crate) fn pass(&mut self, key: u64)
        requires { key < 2 ^ 64 - 1 }
        ensures others { (k : ℕ) → k ≢ key → IsMarked self.old k → IsMarked self.new k }
        ensures fewer { (count : ℕ) → first_of self.old count ≡ Some key → left count self.new < left count self.old }
    {
        if self.is_front(key) {
            self.keys.pop_front();
            return;
        }
        if self.from == key {
            self.from = key + 1;
        }
    }

    // Returns whether the key stands first in the list.
    #[inline(always)]
    fn is_front(&self, key: u64) -> bool
        ensures { IsTrue result ↔ (0 < length self.now.keys) × (slice_index_or self.now.keys 0 0 ≡ key) }
    {
        self.keys.len() > 0 && self.keys[0] == key
    }

    /// Removes all notes. It gives memory back if the list had many.
    pub(crate) fn clear(&mut self)
        ensures { self.new ≡ record { keys = []; from = 2 ^ 64 - 1 } }
    {
        if self.keys.len() > 0 {
            self.keys.clear();
        }
        if self.keys.capacity() > KEPT_PLACES {
            self.keys.shrink_to_fit();
        }
        self.from = u64::MAX;
    }
}

// Returns how many keys are less than this one.
fn place_of(keys: &VecDeque<u64>, key: u64) -> usize
    requires ascending { IsAscending keys.now.items }
    ensures { Splits keys.now.items result key }
{
    if keys.is_empty() {
        return 0;
    }
    keys.partition_point(|noted| *noted < key)
}

// Adds a key at a place of the list. Returns false and leaves the list if out of memory.
fn put(keys: &mut VecDeque<u64>, place: usize, key: u64) -> bool
    requires { place ≤ length keys.old.items }
    ensures { MatchBool result (keys.new.items ≡ insert keys.old.items place key) (keys.new.items ≡ keys.old.items) }
{
    if place == keys.len() {
        return keys.push_back(key).is_ok();
    }
    keys.insert(place, key).is_ok()
}
