//! What a spawned task may answer, as a function that does nothing.
ghost use Rattle.mono_answers.specs.Passages.{PollsGive, DropsGive};

use mono_blocking::ThreadPool;
use mono_inbox::Unpark;
use mono_joinword::Outcome;
use mono_rt::{Cx, TaskFuture};
use mono_task::SharedState;

/// Shows that a handle answers what the spawned future gives, in any later context and to any task (`polled`). The
/// first two contexts are those of the clauses of `Cx::spawn`: `number`, `tasks` and `futures`. The last is one to which
/// any passages lead: further calls, the ends and beginnings of turns, and whole turns. So the future is tied to its
/// task's number from the spawn on. The drop of the handle returns no other output (`dropped`).
///
/// The passages name no end of a turn of the spawned task itself: its turns are whole (`Passage::Turns`).
pub fn what_a_spawned_task_answers<F, O, P, U, W>()
where
    F: TaskFuture<Cx<F, O, P, U, W>, Output = O> + Drop,
    O: Outcome + Drop,
    P: ThreadPool + Drop,
    U: Unpark,
    W: SharedState + Drop,
    ensures polled { PollsGive O.output_number W.SharedState F.TaskFuture }
    ensures dropped { DropsGive O.output_number W.SharedState F.TaskFuture }
{}
