// Join handles, and the calls of a context on them.
ghost use Rattle.std.specs.Prelude.{◌≡◌, ℕ, false, Result, Option};
ghost use Rattle.mono_model.specs.Tasks.{Tasks, woken};
ghost use Rattle.mono_model.specs.Joins.{join_answer, joined, drop_answer, join_dropped, finished_answer};
ghost use Rattle.mono_model.specs.Poll.{call_of};
ghost use Rattle.mono_model.specs.declared.Woke.{Woke};
ghost use Rattle.mono_model.specs.declared.poll.Poll.{Poll};
ghost use Rattle.mono_model.specs.declared.task_error.TaskError.{TaskError};
ghost use Rattle.mono_task.specs.Joins.{JoinGives};
ghost use Rattle.mono_task.specs.Work.{without_outputs};

use crate::context::Context;
use crate::future::TaskFuture;
use mono_model::{Host, Poll, TaskError};
use std::alloc::Global;
use std::marker::{Model, PhantomData};

/// A context whose tasks return an `O`. It exposes its tasks, and its calls are those of `Tasks` with the same names.
pub trait JoinContext<O>: Context {
    // The tasks and the queue.
    ghost tasks: { Self → Tasks O };

    /// Polls for the output of a task. If there is none yet, the running task waits for it, instead of any earlier one.
    ///
    /// Refused with `NoTask` if the number was never given out, then with `NoHandle` if the task's handle is dropped,
    /// then with `Taken` if the output was already taken (`answer`).
    fn poll_join(&mut self, task: u64) -> Result<Poll<O>, TaskError>
        ensures answer { result ≡ join_answer (tasks self.old) task }
        ensures tasks { tasks self.new ≡ joined (tasks self.old) task (Self.number self.old) }
        ensures reached { Self.reaches self.old self.new };

    /// Drops the handle of a task, and returns the output if it was not taken. The task itself runs on.
    ///
    /// Refused with `NoTask` if the number was never given out, then with `NoHandle` if the handle is already dropped
    /// (`answer`).
    fn drop_join(&mut self, task: u64) -> Result<Option<O>, TaskError>
        ensures answer { result ≡ drop_answer (tasks self.old) task }
        ensures tasks { tasks self.new ≡ join_dropped (tasks self.old) task }
        ensures reached { Self.reaches self.old self.new };

    /// Returns whether a task has finished. Refused as `drop_join` is.
    fn is_finished(&self, task: u64) -> Result<bool, TaskError>
        ensures { result ≡ finished_answer (tasks self.now) task };

    // The tasks without their outputs are what every context exposes of them.
    ghost same_work: { (c : Self) → Self.work c ≡ without_outputs (tasks c) };

    // A wake of the context wakes the task in its tasks, and keeps the outputs.
    ghost wakes_tasks: { (c d : Self) (t : ℕ) (answer : Result Woke TaskError) → Self.wakes c t answer d → tasks d ≡ woken (tasks c) t };
}

/// The right to the output of a task.
///
/// It holds the task's number, and each call goes through a context. In another executor it names that executor's task
/// of the same number. A handle that is dropped without `cancel_join` stays kept in its executor.
///
/// A handle is a future, which answers the task's output or why there is none:
///
/// ```rust
/// // from test_futures/src/tasks.rt: the task has ended with 5
/// let output = handle.poll(rt, alloc, cx);
/// let again = handle.poll(rt, alloc, cx);
/// let finished = handle.is_finished(cx);
/// let dropped = handle.cancel_join(cx);
/// (output, again) == (Poll::Ready(Ok(5)), Poll::Ready(Err(TaskError::Taken)))
///     && finished == Ok(true)
///     && dropped == Ok(None)
/// ```
#[derive(Drop)]
pub struct JoinHandle<O> {
    number: u64,
    output: PhantomData<O>,
}

impl<O> Model for JoinHandle<O> {
    ghost use Rattle.std.specs.Prelude.{ℕ};

    // The number of the task.
    ghost Value = { ℕ };

    ghost view = { λ handle. handle.number };
}

impl<O> JoinHandle<O> {
    /// Returns the handle of the task with this number.
    pub fn of_task(task: u64) -> JoinHandle<O>
        ensures { result ≡ task }
    {
        JoinHandle {
            number: task,
            output: PhantomData,
        }
    }

    /// Returns the number of the task.
    pub fn task(&self) -> u64
        ensures { result ≡ self.now }
    {
        self.number
    }

    /// Returns whether the task has finished. Refused with `NoTask` and `NoHandle` as `JoinContext::is_finished` is.
    pub fn is_finished<C: JoinContext<O>>(&self, cx: &C) -> Result<bool, TaskError>
        ensures { result ≡ finished_answer (C.tasks cx.now) self.now }
    {
        cx.is_finished(self.number)
    }

    /// Gives up the handle, and returns the output if it was not taken (`answer`). The task itself runs on (`tasks`).
    pub fn cancel_join<C: JoinContext<O>>(self, cx: &mut C) -> Result<Option<O>, TaskError>
        ensures answer { result ≡ drop_answer (C.tasks cx.old) self }
        ensures tasks { C.tasks cx.new ≡ join_dropped (C.tasks cx.old) self }
        ensures reached { C.reaches cx.old cx.new }
    {
        cx.drop_join(self.number)
    }
}

/// A handle answers the output of its task, or why it was refused. It is never spent: a poll after the output was taken
/// answers `Err(Taken)`.
impl<O: Drop, C: JoinContext<O>> TaskFuture<C> for JoinHandle<O> {
    type Output = Result<O, TaskError>;

    ghost is_spent = { λ h. false };

    // The running task polls the handle, and the handle stays.
    ghost polls = { λ h c r g d. (g ≡ h) × (call_of r ≡ join_answer (C.tasks c) h) × (C.tasks d ≡ joined (C.tasks c) h (C.number c)) × C.reaches c d };

    // What a poll of the handle may answer in some context of this type.
    ghost gives = { JoinGives C.tasks };

    // The call drops the handle.
    ghost cancels = { λ h c d. (C.tasks d ≡ join_dropped (C.tasks c) h) × C.reaches c d };

    fn spent(&self) -> bool {
        false
    }

    fn poll<R: Host>(&mut self, _rt: &R, _alloc: Global, cx: &mut C) -> Poll<Result<O, TaskError>> {
        match cx.poll_join(self.number) {
            Ok(Poll::Ready(output)) => Poll::Ready(Ok(output)),
            Ok(Poll::Pending) => Poll::Pending,
            Err(error) => Poll::Ready(Err(error)),
        }
    }

    fn cancel(self, cx: &mut C) {
        let _ = self.cancel_join(cx);
    }
}
