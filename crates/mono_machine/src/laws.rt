// Laws of the machine.
ghost use Rattle.std.specs.Prelude.{◌≡◌, ◌≢◌, ◌<◌, ◌≤◌, ◌⊎◌, ℕ, true, false, List, [], ◌++◌, Option, Some, None, length, slice_get};
ghost use Rattle.std.specs.List.{AllPairs};
ghost use Rattle.mono_model.specs.Ticks.{down};
ghost use Rattle.mono_model.specs.Table.{value_at, next_number};
ghost use Rattle.mono_model.specs.Sleeps.{Arming, armed};
ghost use Rattle.mono_model.specs.Jobs.{running};
ghost use Rattle.mono_machine.specs.Machine.{Machine, start_machine, IsValid};
ghost use Rattle.mono_machine.specs.Steps.{Step, Run, has_finished};
ghost use Rattle.mono_machine.specs.Handouts.{is_on_task, is_on_job, handed_in};
ghost use Rattle.mono_model.specs.Valid.{of_task, is_queued};
ghost use Rattle.mono_machine.specs.Causes.{is_cause, RunWithoutCause};
ghost use Rattle.mono_machine.specs.Fairness.{turns_of};
ghost use Rattle.mono_machine.specs.History.{has_turn_of, is_turn_of, is_awaiting, is_wake_of, tells_wake, begun_machine};
ghost use Rattle.mono_machine.specs.Turns.{after_steps};
ghost use Rattle.mono_model.specs.declared.Ended.{Ended};
ghost use Rattle.mono_machine.specs.declared.events.TurnStep.{TurnStep};
ghost use Rattle.mono_machine.specs.declared.events.Reply.{Reply};
ghost use Rattle.mono_machine.specs.declared.events.End.TheVariants as end;
ghost use Rattle.mono_machine.specs.Remotes.{wakes_and_drain, told_and_drained, after_wakes};
ghost use Rattle.mono_machine.specs.Endings.{EndsAlone};
ghost use Rattle.mono_machine.specs.Watches.{Source, IsWatched, Hears, IsHeld, watcher, drops, drops_in, fires, is_taken, is_taken_in, is_untouched};
ghost use Rattle.mono_machine.specs.declared.events.How.{How};
ghost use Rattle.mono_machine.specs.declared.events.Act.{Act};
ghost use Rattle.mono_machine.specs.declared.events.Act.TheVariants as act;
ghost use Rattle.mono_machine.specs.declared.events.Limits.{Limits};
ghost use Rattle.mono_machine.specs.declared.events.Blocking.{Blocking};
ghost use Rattle.mono_machine.specs.declared.events.Event.{Event};
ghost use Rattle.mono_machine.specs.declared.events.Report.{Report};
ghost use Rattle.mono_machine.specs.declared.events.Event.TheVariants as event;
ghost use Rattle.mono_machine.specs.declared.events.Report.TheVariants as report;

/// Shows that an event and its report determine the machine afterwards.
pub fn one_machine()
    ensures { (old : Machine) (event : Event) (answer : Report) (new other : Machine) → Step old event answer new → Step old event answer other → new ≡ other }
{}

/// Shows that the start machine is valid.
pub fn starts_valid()
    ensures { (limits : Limits) (strategy : Blocking) → IsValid (start_machine limits strategy) }
{}

/// Shows that each step from a valid machine leads to a valid machine.
pub fn stays_valid()
    ensures { (old : Machine) (event : Event) (answer : Report) (new : Machine) → IsValid old → Step old event answer new → IsValid new }
{}

/// Shows that after a clock step each armed sleep has a tick above the tick of the clock.
pub fn none_is_late()
    ensures { (old : Machine) (n : ℕ) (fired : List ℕ) (new : Machine) → IsValid old → Step old (event.Clock n) (report.Fired fired) new →
        (s : ℕ) (a : Arming) → value_at new.sleeps.table s ≡ Some (armed a) → down n < a.tick }
{}

/// Shows that a finished task has no further turn.
pub fn finished_has_no_turn()
    ensures { (events : List Event) (answers : List Report) (old new : Machine) (t : ℕ) → IsValid old → t < next_number old.tasks.table →
        has_finished (value_at old.tasks.table t) ≡ true → Run old events answers new → has_turn_of t answers ≡ false }
{}

/// Shows that a task that is queued or in the inbox stays so along any run in which it had no turn and did not finish.
pub fn none_is_lost()
    ensures { (events : List Event) (answers : List Report) (old new : Machine) (t : ℕ) → IsValid old → Run old events answers new → is_awaiting t old ≡ true →
        has_turn_of t answers ≡ false → has_finished (value_at new.tasks.table t) ≡ false → is_awaiting t new ≡ true }
{}

/// Shows that a task stays queued or in the inbox after a wake, along any run in which it had no turn and did not
/// finish. The wake may queue or note it, list or drain it, or be that of a sleep that fired or of a task that
/// finished.
pub fn wakes_are_kept()
    ensures { (woken : Event) (told : Report) (events : List Event) (answers : List Report) (old mid new : Machine) (t : ℕ) → IsValid old →
        Step old woken told mid → tells_wake t old woken told ≡ true →
        Run mid events answers new → has_turn_of t answers ≡ false → has_finished (value_at new.tasks.table t) ≡ false → is_awaiting t new ≡ true }
{}

/// Shows that a task is queued or in the inbox after each wake that names it, whatever the wake answers, along any run in
/// which it had no turn and did not finish. The wake may come from outside, be an act, or be a step of a turn.
pub fn each_wake_reaches_its_task()
    ensures { (woken : Event) (told : Report) (events : List Event) (answers : List Report) (old mid new : Machine) (t : ℕ) → IsValid old →
        Step old woken told mid → is_wake_of t woken told ≡ true →
        Run mid events answers new → has_turn_of t answers ≡ false → has_finished (value_at new.tasks.table t) ≡ false → is_awaiting t new ≡ true }
{}

/// Shows that the output of a task is handed out at most once: by a poll of its handle, or by its drop.
pub fn task_hands_out_once()
    ensures { (events : List Event) (answers : List Report) (old new : Machine) (t : ℕ) → IsValid old → Run old events answers new → handed_in (is_on_task t) events answers ≤ 1 }
{}

/// Shows that the output of a job is handed out at most once: by a poll of its handle, or by its drop.
pub fn job_hands_out_once()
    ensures { (events : List Event) (answers : List Report) (old new : Machine) (j : ℕ) → IsValid old → Run old events answers new → handed_in (is_on_job j) events answers ≤ 1 }
{}

/// Shows that tasks have their turns in the order of the queue. The task at place p, counted from 0, has the (p + 1)th
/// turn that follows, if the run has p + 1 turns, whatever the other tasks do.
pub fn served_in_order()
    ensures { (events : List Event) (answers : List Report) (old new : Machine) (p t : ℕ) → Run old events answers new → slice_get old.tasks.queue p ≡ Some t →
        p < length (turns_of events answers) → slice_get (turns_of events answers) p ≡ Some (Some t) }
{}

/// Shows that no turn lacks a cause. A task that is not queued has no turn in a run that neither makes it, nor drains
/// it, nor wakes it so that it is queued or noted.
pub fn no_turn_without_cause()
    ensures { (events : List Event) (answers : List Report) (old new : Machine) (t : ℕ) → IsValid old → of_task is_queued (value_at old.tasks.table t) ≡ false →
        RunWithoutCause t old events answers new → has_turn_of t answers ≡ false }
{}

/// Shows that a turn uses up its cause: a task is not queued after a turn of its own in which nothing woke it.
pub fn turn_uses_its_cause_up()
    ensures { (old : Machine) (e : Event) (answer : Report) (mid : Machine) (t : ℕ) → Step old e answer mid → is_turn_of t answer ≡ true → is_cause t old e answer ≡ false →
        of_task is_queued (value_at mid.tasks.table t) ≡ false }
{}

/// Shows that wakes from outside, for the tasks of a list without doubles, and then a drain are a run from any machine
/// with an empty inbox. The run wakes each task of the list that was given out and is unfinished, in the list's order.
/// The drain lists exactly these.
pub fn wakes_and_a_drain_are_a_run()
    ensures { (old : Machine) (ts : List ℕ) → old.inbox ≡ [] → AllPairs (λ s t. s ≢ t) ts → Run old (wakes_and_drain ts) (told_and_drained old ts) (after_wakes old ts) }
{}

/// Shows that the end of a job that is kept and runs answers its waiter, and changes that job alone.
pub fn an_end_changes_its_job_alone()
    ensures { (old : Machine) (j output : ℕ) (waiter : Option ℕ) (how : How) (answer : Report) (new : Machine) → value_at old.jobs.table j ≡ Some (running output waiter) →
        Step old (event.Act (act.JobEnd j how)) answer new → EndsAlone old j output waiter how answer new }
{}

/// Shows for one step that a task that waits for a source continues to wait for it, unless the source fires or the wait
/// is taken.
///
/// A source fires if a clock step lists its sleep, if a reset of its sleep answers `Elapsed`, or if its task ends with
/// its handle kept. A wait is taken by a drop of the source, by the end of its job, or by a poll of the source in another
/// task's turn.
pub fn a_watch_stands()
    ensures { (old : Machine) (e : Event) (answer : Report) (new : Machine) (t : ℕ) (x : Source) → IsValid old → Step old e answer new → IsWatched old t x →
        fires t x e answer ≡ false → is_taken t x e answer ≡ false → IsWatched new t x }
{}

/// Shows that a task that waits for a source still waits for it after any run that leaves the source untouched, also
/// through its own turns.
pub fn watches_are_kept()
    ensures { (events : List Event) (answers : List Report) (old new : Machine) (t : ℕ) (x : Source) → IsValid old → Run old events answers new → IsWatched old t x →
        is_untouched t x events answers ≡ true → IsWatched new t x }
{}

/// Shows that a task that waits for a source is queued or in the inbox once the source has fired, along any run in
/// which it had no turn since and did not finish.
pub fn what_fires_wakes()
    ensures { (fired : Event) (told : Report) (events : List Event) (answers : List Report) (old mid new : Machine) (t : ℕ) (x : Source) →
        IsValid old → IsWatched old t x → Step old fired told mid → fires t x fired told ≡ true →
        Run mid events answers new → has_turn_of t answers ≡ false → has_finished (value_at new.tasks.table t) ≡ false → is_awaiting t new ≡ true }
{}

/// Shows that a task that waits for a source still waits for it or is awaiting, along any run in which it had no turn,
/// did not finish, and kept its wait.
pub fn watched_or_awaiting()
    ensures { (events : List Event) (answers : List Report) (old new : Machine) (t : ℕ) (x : Source) → IsValid old →
        Run old events answers new → IsWatched old t x → is_taken_in t x events answers ≡ false →
        has_turn_of t answers ≡ false → has_finished (value_at new.tasks.table t) ≡ false → IsWatched new t x ⊎ (is_awaiting t new ≡ true) }
{}

/// Shows what a pending turn leaves. If its task waited for a source at some step of the turn, or was woken in it, it
/// still waits for that source or is awaiting, unless a later step drops the source.
pub fn what_a_turn_registers_stands()
    ensures { (before after : List TurnStep) (replies : List Reply) (told : Ended) (old new : Machine) (t : ℕ) (x : Source) → IsValid old →
        Step old (event.Turn (before ++ after) end.Pending) (report.Turn t replies told) new →
        Hears (after_steps t before (begun_machine old.tasks.queue old)) t x → drops_in x after ≡ false → IsWatched new t x ⊎ (is_awaiting t new ≡ true) }
{}

/// Shows the same along a run that follows, in which the task had no turn, did not finish, and kept its wait (`lasts`).
/// At rest, when no task is queued and the inbox is empty, the task waits for the source (`at_rest`).
pub fn what_a_turn_registers_lasts()
    ensures lasts { (before after : List TurnStep) (replies : List Reply) (told : Ended) (events : List Event) (answers : List Report) (old mid new : Machine) (t : ℕ) (x : Source) → IsValid old →
        Step old (event.Turn (before ++ after) end.Pending) (report.Turn t replies told) mid → Hears (after_steps t before (begun_machine old.tasks.queue old)) t x → drops_in x after ≡ false →
        Run mid events answers new → is_taken_in t x events answers ≡ false → has_turn_of t answers ≡ false → has_finished (value_at new.tasks.table t) ≡ false → IsWatched new t x ⊎ (is_awaiting t new ≡ true) }
    ensures at_rest { (m : Machine) (t : ℕ) (x : Source) → IsValid m → m.tasks.queue ≡ [] → m.inbox ≡ [] → IsWatched m t x ⊎ (is_awaiting t m ≡ true) → IsWatched m t x }
{}

/// Shows for one step that a task stays held: it waits for a source, or is queued, noted or in the inbox, or has
/// finished. The exceptions are a turn of the task itself, and a step that takes its wait (`stays`). Between two events
/// an unfinished held task waits for the source or is awaiting (`waits`).
pub fn what_is_held_stays()
    ensures stays { (old : Machine) (e : Event) (answer : Report) (new : Machine) (t : ℕ) (x : Source) → IsValid old →
        Step old e answer new → IsHeld old t x → is_turn_of t answer ≡ false → is_taken t x e answer ≡ false → IsHeld new t x }
    ensures waits { (m : Machine) (t : ℕ) (x : Source) → IsValid m → IsHeld m t x → has_finished (value_at m.tasks.table t) ≡ false → IsWatched m t x ⊎ (is_awaiting t m ≡ true) }
{}

/// Shows that an act that drops a source, or ends its job, takes each wait: no task waits for the source afterwards.
pub fn what_is_dropped_is_not_watched()
    ensures { (old : Machine) (a : Act) (answer : Report) (new : Machine) (x : Source) → IsValid old → Step old (event.Act a) answer new → drops x a ≡ true → watcher new x ≡ None }
{}
