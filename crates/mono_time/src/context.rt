// The view that a running task has of the timers.
ghost use Rattle.std.specs.Prelude.{◌≡◌, ℕ, true, Result};
ghost use Rattle.mono_model.specs.Tasks.{woken_if_any};
ghost use Rattle.mono_model.specs.declared.Woke.{Woke};
ghost use Rattle.mono_model.specs.declared.task_error.TaskError.{TaskError};
ghost use Rattle.mono_time.specs.Sleeps.{SleepTable, Added, sleep_poll_answer, with_polled_sleep, sleep_reset_answer, with_reset_sleep, sleep_remove_answer, with_removed_sleep, sleep_elapsed_answer};
ghost use Rattle.mono_model.specs.SleepAnswers.{without_waker, waker_in};
ghost use Rattle.mono_model.specs.declared.error.SleepError.TheVariants.{Memory};

use crate::instant::Instant;
use crate::{Error, SleepError};
use mono_task::{Context, Poll};
use std::alloc::Global;

/// A context with sleeps. It exposes them as a table, and its calls are those of [`crate::Timers`] on that table.
pub trait TimeContext: Context {
    ghost use Rattle.mono_time.specs.Instants.{nanos_of};

    // The sleeps by their numbers.
    ghost sleeps: { Self → SleepTable };

    /// Adds a fresh sleep for a deadline, with the next number. It counts as live until it is dropped.
    ///
    /// Refused as shutdown if and only if there are no timers, then as at capacity if and only if the live sleeps are
    /// at their limit or the numbers are used up. Out of memory comes last, and the context records it. A refusal does
    /// not change the sleeps (`added`).
    fn add_sleep(&mut self, alloc: Global, deadline: Instant) -> Result<u64, SleepError>
        ensures added { Added (sleeps self.old) (nanos_of deadline) result (sleeps self.new) }
        ensures memory { result ≡ Err Memory → Self.is_out_of_memory self.new ≡ true }
        ensures work { Self.work self.new ≡ Self.work self.old }
        ensures reached { Self.reaches self.old self.new };

    /// Polls a sleep for the running task. It is ready if it has elapsed; otherwise the task becomes its only waker.
    ///
    /// Refused as shutdown if and only if no live sleep has the number (`answer`).
    fn poll_sleep(&mut self, sleep: u64) -> Result<Poll<()>, Error>
        ensures answer { result ≡ sleep_poll_answer (sleeps self.old) sleep }
        ensures sleeps { sleeps self.new ≡ with_polled_sleep (sleeps self.old) sleep (Self.number self.old) }
        ensures work { Self.work self.new ≡ Self.work self.old }
        ensures reached { Self.reaches self.old self.new };

    /// Arms a sleep anew for a deadline. If it elapses at once, its waker is woken (`work`).
    ///
    /// Refused as shutdown if and only if no live sleep has the number (`answer`).
    fn reset_sleep(&mut self, sleep: u64, deadline: Instant) -> Result<(), Error>
        ensures answer { result ≡ without_waker (sleep_reset_answer (sleeps self.old) sleep (nanos_of deadline)) }
        ensures sleeps { sleeps self.new ≡ with_reset_sleep (sleeps self.old) sleep (nanos_of deadline) }
        ensures work { Self.work self.new ≡ woken_if_any (Self.work self.old) (waker_in (sleep_reset_answer (sleeps self.old) sleep (nanos_of deadline))) }
        ensures reached { Self.reaches self.old self.new };

    /// Drops a sleep. It wakes no task.
    ///
    /// Refused as shutdown if and only if no live sleep has the number (`answer`).
    fn drop_sleep(&mut self, sleep: u64) -> Result<(), Error>
        ensures answer { result ≡ sleep_remove_answer (sleeps self.old) sleep }
        ensures sleeps { sleeps self.new ≡ with_removed_sleep (sleeps self.old) sleep }
        ensures work { Self.work self.new ≡ Self.work self.old }
        ensures reached { Self.reaches self.old self.new };

    /// Returns whether a sleep has elapsed. Refused as shutdown if and only if no live sleep has the number.
    fn sleep_elapsed(&self, sleep: u64) -> Result<bool, Error>
        ensures { result ≡ sleep_elapsed_answer (sleeps self.now) sleep };

    // A wake keeps the sleeps.
    ghost wakes_no_sleep: { (c d : Self) (t : ℕ) (answer : Result Woke TaskError) → Self.wakes c t answer d → sleeps d ≡ sleeps c };
}
