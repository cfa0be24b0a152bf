// The view that a running task has of its executor.
ghost use Rattle.std.specs.Prelude.{◌≡◌, ◌≤◌, ℕ, Bool, true, ⊤, Result};
ghost use Rattle.mono_model.specs.Ticks.{max_nanos};
ghost use Rattle.mono_model.specs.Tasks.{Tasks, woken};
ghost use Rattle.mono_model.specs.Joins.{wake_answer};
ghost use Rattle.mono_model.specs.declared.Woke.{Woke};
ghost use Rattle.mono_model.specs.declared.task_error.TaskError.{TaskError};

use mono_model::{TaskError, Woke};

/// The view that a running task has of its executor: its own number, the clock, and the tasks, which it may wake.
///
/// A context specifies which contexts its own calls lead to (`reaches`). The relation is reflexive and transitive, and
/// keeps the running task and the clock's reading. Each poll and each cancel of a future promises that it reaches the
/// context afterwards from the context before. So a future changes a context through its calls alone.
pub trait Context {
    // The number of the running task.
    ghost number: { Self → ℕ };

    // The clock's reading at the start of the turn, in nanoseconds.
    ghost nanos: { Self → ℕ };

    // Whether a call of this context ran out of memory.
    ghost is_out_of_memory: { Self → Bool };

    // The tasks and the queue, without the outputs.
    ghost work: { Self → Tasks ⊤ };

    // Whether calls of this context lead from the first to the second.
    ghost reaches: { Self → Self → Type 0 };

    // What a wake of a task may answer and leave, in addition to `work`.
    ghost wakes: { Self → ℕ → Result Woke TaskError → Self → Type 0 };

    /// Returns the number of the running task.
    fn me(&self) -> u64
        ensures { result ≡ number self.now };

    /// Returns the clock's reading in nanoseconds, at most `MAX_NANOS`. It stays the same during one turn.
    fn now(&self) -> u128
        ensures reading { result ≡ nanos self.now }
        ensures within { result ≤ max_nanos };

    /// Wakes a task. An idle task goes to the queue's back, a running task runs again after its turn, and any other
    /// stays as it is. Refused with `NoTask` if and only if the number was never given out (`answer`, `work`).
    fn wake(&mut self, task: u64) -> Result<Woke, TaskError>
        ensures answer { result ≡ wake_answer (work self.old) task }
        ensures work { work self.new ≡ woken (work self.old) task }
        ensures woke { wakes self.old task result self.new }
        ensures reached { reaches self.old self.new };

    /// Wakes the running task, so that it runs again after its turn (`work`).
    final fn wake_me(&mut self)
        ensures work { work self.new ≡ woken (work self.old) (number self.old) }
        ensures woke { wakes self.old (number self.old) (wake_answer (work self.old) (number self.old)) self.new }
        ensures reached { reaches self.old self.new }
    {
        let me = self.me();
        let _ = self.wake(me);
    }

    ghost reaches_itself: { (c : Self) → reaches c c };

    ghost reaches_on: { (a b c : Self) → reaches a b → reaches b c → reaches a c };

    ghost same_number: { (a b : Self) → reaches a b → number b ≡ number a };

    ghost same_nanos: { (a b : Self) → reaches a b → nanos b ≡ nanos a };

    ghost stays_out_of_memory: { (a b : Self) → reaches a b → is_out_of_memory a ≡ true → is_out_of_memory b ≡ true };
}
