// The handles of tasks between two calls that run turns.
ghost use Rattle.std.specs.Prelude.{◌≡◌, false, OnOk};
ghost use Rattle.mono_model.specs.Joins.{join_answer, drop_answer, join_dropped, finished_answer};
ghost use Rattle.mono_task.specs.Work.{GivesOutput};
ghost use Rattle.mono_rt.specs.Remains.{KeepsStrategy, HasRetired};
ghost use Rattle.mono_rt.specs.Handles.{TakesOutput};
ghost use Rattle.mono_rt.specs.Rounds.{Ends};
ghost use Rattle.mono_rt.specs.Faults.{FaultsBy};
ghost use Rattle.mono_rt.specs.FuturePolls.{OnMain};
ghost use Rattle.mono_rt.specs.Views.{PollsHandleOf, DropsHandleOf, tasks_of, is_timed, Rests, RaisesTurns, Grows, ChangesTasks, HoldsSamePlaces, LeadsShared, TellsDriver, PollsItsFutures, PollsItsFuturesBy, FindsTasksListed, FillsJournal, CanRun, GivesNoMore};

use crate::contexts::Cx;
use crate::parts::RunError;
use crate::runtimes::Runtime;
use mono_blocking::ThreadPool;
use mono_driver::Driver;
use mono_joinword::Outcome;
use mono_model::{Host, Poll};
use mono_task::{JoinHandle, SharedState, TaskError, TaskFuture};
use std::alloc::Global;

impl<F: Drop, O: Outcome + Drop, D: Driver, P: ThreadPool + Drop, W: SharedState + Drop> Runtime<
    F,
    O,
    D,
    P,
    W,
> {
    /// Returns whether a task has finished. Refused with `NoTask`, then with `NoHandle`.
    pub fn is_finished(&self, handle: &JoinHandle<O>) -> Result<bool, TaskError>
        ensures { result ≡ finished_answer (tasks_of self.now) handle.now }
    {
        self.cx.parts.tasks.is_finished(handle.task())
    }

    /// Polls for the output of a task, without a waker: no task waits for it. An output is returned once.
    ///
    /// Refused with `NoTask`, then with `NoHandle`, then with `Taken` (`answer`). Only an output changes anything: the
    /// machine answers it to a poll by any task (`machine`). The journal does not record the poll (`same`).
    pub fn poll_join(&mut self, handle: &JoinHandle<O>) -> Result<Poll<O>, TaskError>
        ensures answer { result ≡ join_answer (tasks_of self.old) handle.now }
        ensures taken { TakesOutput (tasks_of self.old) handle.now result (tasks_of self.new) }
        ensures machine { PollsHandleOf O.output_number handle.now result self.old self.new }
        ensures same { ChangesTasks self.old self.new }
    {
        let task = handle.task();
        if !self.cx.parts.tasks.is_finished(task)? {
            return Ok(Poll::Pending);
        }
        self.cx.parts.tasks.poll_join(task, task)
    }

    /// Drops the handle of a task, and returns the output if it was not taken. The task itself runs on.
    ///
    /// Refused with `NoTask`, then with `NoHandle` (`answer`). The drop is the machine's, with its reply (`machine`).
    /// The journal does not record it (`same`).
    pub fn drop_join(&mut self, handle: JoinHandle<O>) -> Result<Option<O>, TaskError>
        ensures answer { result ≡ drop_answer (tasks_of self.old) handle }
        ensures dropped { tasks_of self.new ≡ join_dropped (tasks_of self.old) handle }
        ensures machine { DropsHandleOf O.output_number handle result self.old self.new }
        ensures same { ChangesTasks self.old self.new }
    {
        self.cx.parts.tasks.drop_join(handle.task())
    }
}

impl<F, O, D, P, W> Runtime<F, O, D, P, W>
where
    F: TaskFuture<Cx<F, O, P, D::Unpark, W>, Output = O> + Drop,
    O: Outcome + Drop,
    D: Driver,
    P: ThreadPool + Drop,
    W: SharedState + Drop,
{
    /// Runs turns and waits until a task has an output that was not taken, with a budget of `turns`. The output stays
    /// with the handle: `poll_join` and `drop_join` return it (`given`).
    ///
    /// All else is as in [`Runtime::block_on`], but that no task is made and no handle dropped: the history grows by
    /// the entries that `Ends` specifies (`ends`). Each turn is a poll, or none if the future is spent, and each park
    /// finds its tasks listed, whatever the answer (`still_polled`, `listed`).
    ///
    /// The answer is Turns if the budget is spent, also for a task that never has an output. No task may answer more
    /// afterwards than before (`answers`), so the output is one that the spawned future gives (`mono_answers`).
    ///
    /// ```rust
    /// // test_runtime/src/handles.rt
    /// runtime.run_until(rt, alloc, handle, 10)
    /// ```
    pub fn run_until<R: Host>(
        &mut self,
        rt: &R,
        alloc: Global,
        handle: &JoinHandle<O>,
        turns: u64,
    ) -> Result<(), RunError>
        requires callable { CanRun F.TaskFuture self.old }
        requires rests { Rests self.old }
        ensures given { OnOk result (GivesOutput (tasks_of self.new) handle.now) }
        ensures answers { GivesNoMore F.gives self.old self.new }
        ensures callable { CanRun F.TaskFuture self.new }
        ensures ends { Grows O.output_number (Ends (is_timed self.old) handle.now turns result) self.old self.new }
        ensures shared { LeadsShared W.leads self.old self.new }
        ensures rests { Rests self.new }
        ensures turns { RaisesTurns O.output_number self.old self.new }
        ensures polled { OnMain result (PollsItsFutures O.output_number W.SharedState F.TaskFuture self.old self.new) }
        ensures still_polled { PollsItsFuturesBy O.output_number W.SharedState F.TaskFuture false self.old self.new }
        ensures listed { FindsTasksListed O.output_number W.SharedState F.TaskFuture false self.old self.new }
        ensures faults { FaultsBy result (D.faults self.old.driver) (D.faults self.new.driver) }
        ensures told { TellsDriver result D.Clock self.old self.new }
        ensures full { FillsJournal O.output_number W.SharedState F.TaskFuture self.old self.new }
        ensures held { HoldsSamePlaces self.old self.new }
        ensures retired { HasRetired O.output_number self.old self.new }
        ensures strategy { KeepsStrategy O.output_number self.old self.new }
        ensures timers { is_timed self.new ≡ is_timed self.old }
    {
        let answer = self.run(rt, alloc, handle.task(), turns);
        self.cx.wakers.retire_ended(rt);
        answer
    }
}
