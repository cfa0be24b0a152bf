//! The effects of a pending poll and of a pending turn on their task in the machine, as functions that do nothing.
ghost use Rattle.std.specs.Prelude.{◌≡◌, ℕ, Bool, true, false, List, ◌++◌, Some, Result};
ghost use Rattle.mono_model.specs.declared.poll.Poll.{Poll};
ghost use Rattle.mono_machine.specs.Machine.{Machine};
ghost use Rattle.mono_machine.specs.Watches as machine;
ghost use Rattle.mono_machine.specs.declared.events.TurnStep.{TurnStep};
ghost use Rattle.mono_machine.specs.declared.events.End.TheVariants as end;
ghost use Rattle.mono_machine.specs.declared.events.Report.{Report};
ghost use Rattle.mono_rt.specs.declared.parts.journals.Entry.{Entry};
ghost use Rattle.mono_rt.specs.Stores.{Store};
ghost use Rattle.mono_rt.specs.declared.parts.errors.RunError.{RunError};
ghost use Rattle.mono_rt.specs.declared.runtimes.Runtime.{Runtime};
ghost use Rattle.mono_rt.specs.Views.{FindsTasksListedMain};
ghost use Rattle.mono_rt.specs.FuturePolls.{TellsTurn, Polled, PolledBy, PollsMain, OnMain};
ghost use Rattle.mono_rt.specs.ListedTasks.{ParksListedMain};
ghost use Rattle.mono_wait.specs.Sources.{in_machine, of_place, of_threads, of_peers, machine_needs, NeedsOne};
ghost use Rattle.mono_wait.specs.Registers.{Registers};
ghost use Rattle.mono_wait.specs.PendingTurns.{LeavesWaiting};
ghost use Rattle.mono_wait.specs.JournalWaits.{Waiting};
ghost use Rattle.mono_wait.specs.CallWaits.{WaitsInCall};
ghost use Rattle.mono_wait.specs.JournalPlaces.{StaysListed, ListedInCall};
ghost use Rattle.mono_wait.specs.RunPlaces.{ParksList};

use crate::machines::MachineContext;
use crate::placed::WaitsIn;
use crate::waits::{RemoteWaitContext, SharedWaitContext, WaitContext, Waits};
use mono_blocking::ThreadPool;
use mono_inbox::Unpark;
use mono_joinword::Outcome;
use mono_machine::laws::what_a_turn_registers_stands;
use mono_rt::{Cx, Driver};
use mono_task::SharedState;

/// Shows that a pending future needs at least one source, or its task was woken in the poll. So a future that registers
/// nowhere, or gives up in the poll the one source that it asked, has no `Waits`.
pub fn a_pending_future_needs_a_source<C: WaitContext, F: Waits<C>>()
    ensures { (f : F) (c : C) (g : F) (d : C) → F.polls f c Poll.Pending g d → NeedsOne C.number C.work C.reaches c d (F.needs g) }
{}

/// Shows that a pending poll registers its task at each source of the machine that the future needs. Once the turn has
/// ended pending, the task waits for that source or is awaiting, unless a later step of the turn drops the source.
pub fn a_pending_poll_registers<C: MachineContext, F: Waits<C>>()
    ensures { (f : F) (c : C) (g : F) (d : C) (x : machine.Source) → F.polls f c Poll.Pending g d → F.needs g (in_machine x) → Registers C.stands C.number c d x }
{
    what_a_turn_registers_stands();
}

/// Shows that a turn of a history that ended pending leaves its task waiting at each source of the machine that its
/// future needs, or awaiting, unless one of its later acts drops the source.
pub fn a_pending_turn_leaves_its_task_waiting<F, O, P, U, W>()
where
    F: Waits<Cx<F, O, P, U, W>, Output = O> + Drop,
    O: Outcome + Drop,
    P: ThreadPool + Drop,
    U: Unpark,
    W: SharedState + Drop,
    ensures { (has_timers : Bool) (m : Machine) (store left : Store F W) (reading : ℕ) (steps : List TurnStep) (answer : Report)
        → TellsTurn O.output_number W.SharedState F.TaskFuture has_timers m store reading steps end.Pending answer left
        → LeavesWaiting (λ f. F.is_spent f ≡ false) (machine_needs F.needs) m store.futures left.futures steps answer }
{
    what_a_turn_registers_stands();
}

/// Shows, for a history whose turns are polls (the clause `polled` of `block_on`), that each park finds its tasks
/// waiting. At each park, a task t waits for a source x of the machine or is awaiting under four conditions. It has not
/// finished; its future needed x after its last turn; no act of that turn dropped x; no call took its wait since. Nothing
/// is claimed for the beginning of the history.
pub fn each_park_finds_its_tasks_waiting<F, O, P, U, W>()
where
    F: Waits<Cx<F, O, P, U, W>, Output = O> + Drop,
    O: Outcome + Drop,
    P: ThreadPool + Drop,
    U: Unpark,
    W: SharedState + Drop,
    ensures { (has_timers : Bool) (part : List Entry) (m : Machine) (store : Store F W) (reading t : ℕ) (x : machine.Source)
        → Polled O.output_number W.SharedState F.TaskFuture has_timers m store reading part
        → Waiting O.output_number W.SharedState F.TaskFuture (machine_needs F.needs) has_timers t x ⊥ m store reading part }
{
    what_a_turn_registers_stands();
}

/// Shows that each park of one call of `block_on` finds its tasks waiting. The premise is the call's clause `polled`;
/// the claim is about the history, so no journal has to be kept. At each park, a task t waits for a source x or is
/// awaiting if it has not finished, its future needed x after its last turn in this call, no act of that turn dropped
/// x, and no call took its wait since.
pub fn each_park_of_a_call_finds_its_tasks_waiting<F, O, P, U, W>()
where
    F: Waits<Cx<F, O, P, U, W>, Output = O> + Drop,
    O: Outcome + Drop,
    P: ThreadPool + Drop,
    U: Unpark,
    W: SharedState + Drop,
    ensures { (has_timers : Bool) (first : F) (store left : Store F W) (old new : Machine) (part : List Entry)
        → ((rest : List Entry) → PollsMain O.output_number W.SharedState F.TaskFuture has_timers first store left old (part ++ rest) new rest)
        → WaitsInCall O.output_number W.SharedState F.TaskFuture (machine_needs F.needs) has_timers first store old part }
{
    what_a_turn_registers_stands();
}

/// Shows, for a history whose turns are polls (the clause `polled` of `block_on`), that each park finds its tasks listed.
/// At each park, the shared value lists a task t at a place p and owes no wake, under two conditions. The task has not
/// finished; its last turn ended pending, and left a future that waits at p. Nothing is claimed for the beginning of the
/// history.
pub fn each_park_finds_its_tasks_listed<F, O, P, U, W>()
where
    F: WaitsIn<W, Cx<F, O, P, U, W>, Output = O> + Drop,
    O: Outcome + Drop,
    P: ThreadPool + Drop,
    U: Unpark,
    W: SharedState + Drop,
    ensures { (has_timers lasts : Bool) (part : List Entry) (m : Machine) (store : Store F W) (reading t : ℕ) (p : List ℕ)
        → PolledBy O.output_number W.SharedState F.TaskFuture has_timers lasts m store reading part
        → StaysListed O.output_number W.SharedState F.TaskFuture F.waits_in has_timers lasts t p ⊥ m store reading part }
{}

/// Shows that each park of one call of `block_on` finds its tasks listed. The premise is the call's clause `listed`; the
/// claim is about the history, so no journal has to be kept. At each park, the shared value lists a task t at a place p
/// and owes no wake, if the task has not finished, and its last turn in this call ended pending and left a future that
/// waits at p.
pub fn each_park_of_a_call_finds_its_tasks_listed<F, O, P, U, W>()
where
    F: WaitsIn<W, Cx<F, O, P, U, W>, Output = O> + Drop,
    O: Outcome + Drop,
    P: ThreadPool + Drop,
    U: Unpark,
    W: SharedState + Drop,
    ensures { (has_timers lasts : Bool) (first : F) (store left : Store F W) (old new : Machine) (part : List Entry)
        → ((rest : List Entry) → ParksListedMain O.output_number W.SharedState F.TaskFuture has_timers lasts first store left old (part ++ rest) new rest)
        → ListedInCall O.output_number W.SharedState F.TaskFuture F.waits_in has_timers lasts first store old part }
{}

/// Shows the same from the clause `listed` of `block_on` as it stands, for each answer. So a caller of `block_on` cites this
/// law with that clause alone (`example_waits/src/gate.rt`).
pub fn each_park_of_block_on_finds_its_tasks_listed<F, O, D, P, W>()
where
    F: WaitsIn<W, Cx<F, O, P, D::Unpark, W>, Output = O> + Drop,
    O: Outcome + Drop,
    D: Driver,
    P: ThreadPool + Drop,
    W: SharedState + Drop,
    ensures { (answer : Result O RunError) (main : F) (old new : Runtime F O D P W D.Unpark P.Job P.Job.Output P.Job.Unpark)
        → OnMain answer (FindsTasksListedMain O.output_number W.SharedState F.TaskFuture main old new)
        → OnMain answer (ParksList O.output_number W.SharedState F.TaskFuture F.waits_in main old new) }
{
    each_park_of_a_call_finds_its_tasks_listed::<F, O, P, D::Unpark, W>();
}

/// Shows that a context names a task as one that waits for threads only if it is the running one, and a waker of it was
/// handed out in this turn.
pub fn threads_wake_who_handed_out<U: Unpark, C: RemoteWaitContext<U>>()
    ensures { (c : C) (t : ℕ) → C.watcher c of_threads ≡ Some t → (C.has_handed_out c ≡ true) × (t ≡ C.number c) }
{}

/// Shows that a context names a task as one that waits at a place of the shared value only if it is the running one, and
/// the value lists it there.
pub fn places_list_who_waits<W: SharedState, C: SharedWaitContext<W>>()
    ensures { (c : C) (p : List ℕ) (t : ℕ) → C.watcher c (of_place p) ≡ Some t → (W.lists (C.shared c) p (C.number c) ≡ true) × (t ≡ C.number c) }
{}

/// Shows that a context names a task as one that waits for other tasks only if it is the running one, and the shared
/// value names it.
pub fn peers_wake_who_is_named<W: SharedState, C: SharedWaitContext<W>>()
    ensures { (c : C) (t : ℕ) → C.watcher c of_peers ≡ Some t → (W.names (C.shared c) (C.number c) ≡ true) × (t ≡ C.number c) }
{}
