// A value that the tasks of one runtime share.
ghost use Rattle.std.specs.Prelude.{◌≡◌, ⊤, ℕ, Bool, true, false, ◌==◌, List, [], Option};
ghost use Rattle.std.specs.List.{list_any};
ghost use Rattle.mono_task.specs.Owed.{Hands};

/// A value that the tasks of one runtime share: each may read and change it in its turn.
///
/// The value specifies to which values its own calls lead (`leads`). The relation is reflexive and transitive. Every
/// task promises that its value afterwards is led from the value that it found. So a property that holds along the
/// relation holds over any turns of any tasks: an invariant of the value, or a fact that only grows.
///
/// The value also specifies which tasks wait in it and where (`lists`), and which tasks are to be woken (`owes`). A call
/// on the value wakes nobody, and takes out no task but the running one. After each poll and each cancel the runtime
/// takes the owed tasks one by one (`next_owed`) and wakes them. So a task that waits in the value stays there until its
/// own turn or its wake.
pub trait SharedState {
    // Whether calls on the value lead from the first to the second.
    ghost leads: { Self → Self → Type 0 };

    // Whether the value names this task as one that waits: the tasks that change the value find it there, and wake it.
    ghost names: { Self → ℕ → Bool } = { λ a t. false };

    // Whether this task waits at this place of the value: the ticket in a line, after the numbers of the parts around it.
    ghost lists: { Self → List ℕ → ℕ → Bool } = { λ a p t. false };

    // The tasks that wait in the value.
    ghost waiting: { Self → List ℕ } = { λ a. [] };

    // The tasks that are to be woken, in order.
    ghost owes: { Self → List ℕ } = { λ a. [] };

    /// Takes the first task that is to be woken (`hands`). Only that task may be listed no longer. Returns none, and
    /// leaves the value as it is, if none is owed.
    fn next_owed(&mut self) -> Option<u64>
        ensures hands { Hands lists owes self.old result self.new }
        ensures leads { leads self.old self.new };

    ghost leads_itself: { (a : Self) → leads a a };

    ghost leads_on: { (a b c : Self) → leads a b → leads b c → leads a c };

    // Each listed task is one of finitely many.
    ghost lists_some: { (a : Self) (p : List ℕ) (t : ℕ) → lists a p t ≡ true → list_any (λ u. u == t) (waiting a) ≡ true };
}

/// The state of a runtime whose tasks share nothing.
impl SharedState for () {
    ghost leads = { λ a b. ⊤ };

    #[inline(always)]
    fn next_owed(&mut self) -> Option<u64> {
        None
    }

    ghost leads_itself = { λ a. tt };

    ghost leads_on = { λ a b c p q. tt };

    ghost lists_some = { λ a p t is. is };
}
