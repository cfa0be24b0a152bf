// The sources of a future.
ghost use Rattle.std.specs.Prelude.{◌≡◌, ℕ, true, List, Option, Result};
ghost use Rattle.mono_model.specs.Table.{value_at};
ghost use Rattle.mono_model.specs.declared.Woke.{Woke};
ghost use Rattle.mono_model.specs.declared.poll.Poll.{Poll};
ghost use Rattle.mono_model.specs.declared.task_error.TaskError.{TaskError};
ghost use Rattle.mono_machine.specs.Watches.{job_waiter, is_stirred_in};
ghost use Rattle.mono_wait.specs.Sources.{Source, of_sleep, of_task, of_job, of_place, of_threads, of_peers, Covers, waiter_in, waker_in, own_watcher};

use mono_blocking::{JobContext, RemoteContext};
use mono_inbox::Unpark;
use mono_task::{SharedContext, SharedState, TaskFuture};
use mono_time::TimeContext;

/// A context that exposes which task waits for a source: for a sleep its waker, for a task its waiter.
pub trait WaitContext: TimeContext {
    // the one task that waits for a source
    ghost watcher: { Self → Source → Option ℕ };

    ghost watches_sleeps: { (c : Self) (s : ℕ) → watcher c (of_sleep s) ≡ waker_in (value_at (Self.sleeps c).table s) };

    ghost watches_tasks: { (c : Self) (u : ℕ) → watcher c (of_task u) ≡ waiter_in (value_at (Self.work c).table u) };

    ghost wakes_stir: { (c d : Self) (t : ℕ) (answer : Result Woke TaskError) → Self.wakes c t answer d → is_stirred_in (value_at (Self.work d).table t) ≡ true };
}

/// A context with blocking jobs that exposes which task waits for a job: its waiter.
pub trait JobWaitContext: WaitContext + JobContext {
    ghost watches_jobs: { (c : Self) (j : ℕ) → Self.watcher c (of_job j) ≡ job_waiter (value_at (Self.jobs c).table j) };
}

/// A context with remote wakers that exposes which task waits for threads: the running task, once a waker of it was
/// handed out in this turn.
pub trait RemoteWaitContext<U: Unpark>: WaitContext + RemoteContext<U> {
    ghost watches_threads: { (c : Self) → Self.watcher c of_threads ≡ own_watcher (Self.has_handed_out c) (Self.number c) };
}

/// A context with a shared value that exposes where the running task waits in it: at each place at which the value lists
/// the task, and for other tasks if the value names it.
pub trait SharedWaitContext<W: SharedState>: WaitContext + SharedContext<W> {
    ghost watches_places: { (c : Self) (p : List ℕ) → Self.watcher c (of_place p) ≡ own_watcher (W.lists (Self.shared c) p (Self.number c)) (Self.number c) };

    ghost watches_peers: { (c : Self) → Self.watcher c of_peers ≡ own_watcher (W.names (Self.shared c) (Self.number c)) (Self.number c) };
}

/// A future that exposes the sources for which it waits.
///
/// If a poll is pending, the future needs at least one source, or the running task was woken in its turn. The task was
/// registered at each source that the future needs, or was woken. It was so at some moment of the poll, and since then
/// only calls of the turn came (`covers`).
/// So a later branch of a form does not change this, and owes nothing for it. A later call of the turn can undo it only
/// by a drop of the source, which is an act of the turn.
pub trait Waits<C: WaitContext>: TaskFuture<C> {
    // the sources for which the future waits after a pending poll
    ghost needs: { Self → Source → Type 0 };

    /// Does nothing. An impl with closures among its bounds has to write it out, since it needs one method of its own.
    fn tells_its_needs(&self) {}

    // a poll leads to a reached context, and so does giving the future up
    ghost polls_reach: { (f : Self) (c : C) (r : Poll Self.Output) (g : Self) (d : C) → Self.polls f c r g d → C.reaches c d };

    ghost cancels_reach: { (f : Self) (c d : C) → Self.cancels f c d → C.reaches c d };

    ghost covers: { (f : Self) (c : C) (g : Self) (d : C) → Self.polls f c Poll.Pending g d → Covers C.number C.work C.reaches C.watcher c d (needs g) };
}
