// Laws on instants and sleeps, as functions with empty bodies.
ghost use Rattle.std.specs.Prelude.{◌≡◌, ◌==◌, ◌≤◌, ℕ, Option, Some};
ghost use Rattle.std.specs.Hash as fed;
ghost use Rattle.std.specs.Ordering.{nat_cmp};
ghost use Rattle.mono_model.specs.Ticks.{up, down};
ghost use Rattle.mono_model.specs.Table.{value_at};
ghost use Rattle.mono_time.specs.declared.instant.Instant.{Instant};
ghost use Rattle.mono_time.specs.Instants.{nanos_of};
ghost use Rattle.mono_time.specs.Sleeps.{SleepTable, IsNoneArmedUpTo, IsFiredFirst, armed, with_polled_sleep, with_reset_sleep, with_removed_sleep, with_added_sleep};

use crate::instant::Instant;
use std::hash::Hash;

/// Shows that instants are compared and hashed as their numbers.
pub fn instants_are_numbers()
    ensures eq { (a b : Instant) → ⟦<Instant as PartialEq>⟧.eq a b ≡ (nanos_of a == nanos_of b) }
    ensures cmp { (a b : Instant) → ⟦<Instant as Ord>⟧.cmp a b ≡ nat_cmp (nanos_of a) (nanos_of b) }
    ensures hash { (a : Instant) → ⟦<Instant as Hash>⟧.hash_input a ≡ fed.u128 (nanos_of a) }
{}

/// Shows that a sleep that is armed for a deadline fires only once the clock's greatest reading so far has reached the
/// deadline.
pub fn none_fires_early()
    ensures { (sleeps : SleepTable) (clock deadline s : ℕ) (waker task : Option ℕ) → sleeps.greatest ≡ down clock →
        value_at sleeps.table s ≡ Some (armed (up deadline) task) → IsFiredFirst sleeps s waker → deadline ≤ clock }
{}

/// Shows that additions, polls, resets and removals keep every armed sleep's tick above the greatest, as a clock step
/// leaves them.
pub fn none_is_late()
    ensures added { (sleeps : SleepTable) (tick : ℕ) → IsNoneArmedUpTo sleeps → IsNoneArmedUpTo (with_added_sleep sleeps tick) }
    ensures polled { (sleeps : SleepTable) (s by : ℕ) → IsNoneArmedUpTo sleeps → IsNoneArmedUpTo (with_polled_sleep sleeps s by) }
    ensures reset { (sleeps : SleepTable) (s nanos : ℕ) → IsNoneArmedUpTo sleeps → IsNoneArmedUpTo (with_reset_sleep sleeps s nanos) }
    ensures removed { (sleeps : SleepTable) (s : ℕ) → IsNoneArmedUpTo sleeps → IsNoneArmedUpTo (with_removed_sleep sleeps s) }
{}
