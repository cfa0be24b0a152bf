// Laws over the entries of a journal.
ghost use Rattle.std.specs.Prelude.{◌≡◌, ◌≤◌, ◌+◌, ◌-◌, ◌^◌, ℕ, min, Bool, true, false, List, [], ◌∷◌, Some, None, Result, Err};
ghost use Rattle.mono_model.specs.Ticks.{max_nanos};
ghost use Rattle.mono_machine.specs.declared.events.Event.TheVariants as event;
ghost use Rattle.mono_machine.specs.declared.events.Report.TheVariants as report;
ghost use Rattle.mono_rt.specs.declared.parts.journals.Entry.{Entry};
ghost use Rattle.mono_rt.specs.declared.parts.journals.Entry.TheVariants.{Ran, Now, Park};
ghost use Rattle.mono_rt.specs.DriverReadings.{Told, Course, going, failed, Tells, TellingSo, IsTold};
ghost use Rattle.mono_rt.specs.declared.parts.errors.RunError.{RunError};
ghost use Rattle.mono_rt.specs.declared.parts.errors.RunError.TheVariants as error;
ghost use Rattle.mono_machine.specs.Machine.{Machine};
ghost use Rattle.mono_rt.specs.Rounds.{Drained, Parks, Rounds};
ghost use Rattle.mono_rt.specs.Budgets.{parks_in, Spends};
ghost use Rattle.mono_rt.specs.DriverCounts.{ParksCounted, HandsInOnce, ParksOnce};
ghost use Rattle.mono_rt.specs.SpentFutures.{RestsIfSpent};
ghost use Rattle.mono_rt.specs.declared.parts.journals.Journal.{Journal};
ghost use Rattle.mono_rt.specs.Readings.{readings_in, hand_ins_in, AreFirst, AreSums};
ghost use Rattle.mono_rt.specs.ListedExamples.{ParkFinds};

use crate::contexts::Cx;
use mono_blocking::ThreadPool;
use mono_inbox::Unpark;
use mono_joinword::Outcome;
use mono_task::{SharedState, TaskFuture};

/// Shows that, if the driver exposes its readings to come, those in the journal are the first of these, in order, the
/// last one repeated.
pub fn readings_are_those_told()
    ensures { (old new : Told) (before after : Course) (readings : List ℕ) (part : List Entry) → old.readings ≡ Some readings → Tells old before part new after →
        AreFirst (readings_in part) readings }
{}

/// Shows that each reading in the journal is the time before and the milliseconds of the parks before it, at most the
/// greatest, if the driver exposes its time and no park failed.
pub fn readings_are_sums_of_parks()
    ensures { (old new : Told) (before : Course) (start : ℕ) (part : List Entry) → start ≤ max_nanos → old.time ≡ Some start → Tells old before part new going →
        AreSums start 0 part }
{}

/// Shows that the count of submits rises by one for each drain that follows no park, at most to 2^64 - 1, if no call of
/// the driver failed.
pub fn submits_are_counted()
    ensures { (old new : Told) (part : List Entry) → old.submits ≤ 2 ^ 64 - 1 → Tells old going part new going → new.submits ≡ min (old.submits + hand_ins_in part) (2 ^ 64 - 1) }
{}

/// Shows that the count of parks rises by the parks in the journal, at most to 2^64 - 1, also if calls of the driver failed.
/// So it does in a call with any answer (`called`).
pub fn parks_are_counted<T>()
    ensures told { (old new : Told) (before after : Course) (part : List Entry) → old.parks ≤ 2 ^ 64 - 1 → Tells old before part new after → new.parks ≡ min (old.parks + parks_in part) (2 ^ 64 - 1) }
    ensures called { (answer : Result T RunError) (old new : Told) (j k : Journal) → old.parks ≤ 2 ^ 64 - 1 → TellingSo answer old j k new → ParksCounted old new j k }
{}

/// Shows that a pause of tasks that are queued hands in once, and parks never (`queued`). A pause with an empty queue parks
/// once, and hands in never (`idle`). In either the inbox is drained once.
pub fn a_pause_hands_in_or_parks()
    ensures queued { (old new : Told) (after : Course) (m n : Machine) (part : List Entry) → Drained m part n [] → Tells old going part new after → HandsInOnce old new }
    ensures idle { (has_timers : Bool) (old new : Told) (after : Course) (m n : Machine) (part : List Entry) → Parks has_timers m part n [] → Tells old going part new after → ParksOnce old new }
{}

/// Shows that a future that is spent is not polled: its turn ends pending, with no act but the wakes that the shared value
/// owed.
pub fn a_spent_future_is_not_polled<F, O, P, U, W>()
where
    F: TaskFuture<Cx<F, O, P, U, W>, Output = O> + Drop,
    O: Outcome + Drop,
    P: ThreadPool + Drop,
    U: Unpark,
    W: SharedState + Drop,
    ensures { (f : F) → F.is_spent f ≡ true → RestsIfSpent O.output_number W.SharedState F.TaskFuture f }
{}

/// Shows that no call failed if the driver cannot fail.
pub fn a_sure_driver_does_not_fail()
    ensures { (old new : Told) (after : Course) (part : List Entry) → old.can_fail ≡ false → Tells old going part new after →
        (after ≡ failed → ⊥) × (new.faults ≡ old.faults) × (new.can_fail ≡ false) }
{}

/// Shows that the answer is not Driver if the driver cannot fail.
pub fn a_sure_driver_is_no_error()
    ensures { (answer : Result ℕ RunError) (old : Told) (part : List Entry) → old.can_fail ≡ false → IsTold answer old part → answer ≡ Err error.Driver → ⊥ }
{}

/// Shows that each unit of a budget is spent by a turn or by a park. So if nothing is left, the turns and some of the
/// parks together are the budget.
pub fn units_are_turns_and_parks()
    ensures { (has_timers : Bool) (main units left : ℕ) (old new : Machine) (part rest : List Entry) → Rounds has_timers main units left old part new rest → Spends units left part rest }
{}

/// Shows an example: of two drains, the one after a park has no submit before it.
pub fn a_drain_after_a_park_hands_in_nothing()
    ensures { hand_ins_in (Ran event.Drain (report.Drained []) ∷ Now 0 ∷ Park None ∷ Ran event.Drain (report.Drained []) ∷ []) ≡ 1 }
{}

/// Shows an example: a park for 5 ms moves the next reading by 5 ms, and a reading that stays is not a sum.
pub fn a_park_moves_the_readings()
    ensures held { AreSums 0 0 (Now 0 ∷ Park (Some 5) ∷ Now 5000000 ∷ []) }
    ensures apart { AreSums 0 0 (Now 0 ∷ Park (Some 5) ∷ Now 0 ∷ []) → ⊥ }
{}

/// Shows an example: the second of two readings is repeated, and the first is not.
pub fn the_last_reading_is_repeated()
    ensures held { AreFirst (7 ∷ 9 ∷ 9 ∷ []) (7 ∷ 9 ∷ []) }
    ensures apart { AreFirst (7 ∷ 7 ∷ []) (7 ∷ 9 ∷ []) → ⊥ }
{}

/// Shows an example: after a turn, a park finds the task that the shared value lists (`held`). It does not find another
/// task (`apart`), and a value that owes a wake is not found at a park (`owing`).
pub fn a_park_finds_whom_the_value_lists<F, O, P, U>()
where
    F: TaskFuture<Cx<F, O, P, U>, Output = O> + Drop,
    O: Outcome + Drop,
    P: ThreadPool + Drop,
    U: Unpark,
    ensures held { ParkFinds O.output_number F.TaskFuture [] 0 }
    ensures apart { ParkFinds O.output_number F.TaskFuture [] 1 → ⊥ }
    ensures owing { ParkFinds O.output_number F.TaskFuture (0 ∷ []) 0 → ⊥ }
{}
