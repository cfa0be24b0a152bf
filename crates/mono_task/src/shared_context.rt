// The view that a running task has of the value that its runtime's tasks share.
ghost use Rattle.std.specs.Prelude.{◌≡◌, ℕ, Result};
ghost use Rattle.mono_model.specs.declared.Woke.{Woke};
ghost use Rattle.mono_task.specs.Owed.{Keeps};
ghost use Rattle.mono_model.specs.declared.task_error.TaskError.{TaskError};
ghost use Rattle.std.specs.Borrow.{sem, Lends};

use crate::context::Context;
use crate::shared_state::SharedState;

/// A context through which a task borrows the value that the tasks of its runtime share.
pub trait SharedContext<W: SharedState>: Context {
    // The shared value.
    ghost shared: { Self → W };

    // The context with this value in its place.
    ghost with_shared: { Self → W → Self };

    /// Returns a reference to the shared value.
    fn shared(&self) -> &W
        ensures { result.now ≡ shared self.now };

    /// Returns a mutable reference to the shared value, for this turn. The last value under the reference is the shared
    /// value afterwards, and nothing else of the context changes (`writes_back`).
    fn shared_mut(&mut self) -> &mut W
        ensures* writes_back { sem 𝓛 (Lends Self.row W.row self.entry result (with_shared self.old)) }
        ensures value { result.now ≡ shared self.old };

    ghost shared_with: { (c : Self) (w : W) → shared (with_shared c w) ≡ w };

    // A context is reached if the shared value's calls lead to its new value, and keep each listed task but the running
    // one.
    ghost reaches_with: { (c : Self) (w : W) → W.leads (shared c) w → Keeps W.lists (Self.number c) (shared c) w → Self.reaches c (with_shared c w) };

    // Along reached contexts, calls lead the shared value.
    ghost led: { (a b : Self) → Self.reaches a b → W.leads (shared a) (shared b) };

    // Along reached contexts, the shared value keeps each listed task but the running one.
    ghost kept: { (a b : Self) → Self.reaches a b → Keeps W.lists (Self.number a) (shared a) (shared b) };

    // A wake keeps the shared value.
    ghost wakes_nothing_shared: { (c d : Self) (t : ℕ) (answer : Result Woke TaskError) → Self.wakes c t answer d → shared d ≡ shared c };

    ghost same_work_with: { (c : Self) (w : W) → Self.work (with_shared c w) ≡ Self.work c };
}
