// The live tasks of a runtime, and the sources for which they wait.
ghost use Rattle.std.specs.Prelude.{◌≡◌, ◌==◌, ◌++◌, map, OnOk, IfOk};
ghost use Rattle.mono_model.specs.Table.{value_at, next_number};
ghost use Rattle.mono_task.specs.TaskPhases.{waiter_in, phase_in};
ghost use Rattle.mono_time.specs.Timers.{sleeps_of, wait_of};
ghost use Rattle.mono_machine.specs.Machine.{Machine};
ghost use Rattle.mono_machine.specs.Watches.{job_waiter};
ghost use Rattle.mono_rt.specs.declared.task_waits.WaitsFor.TheVariants as source;
ghost use Rattle.mono_rt.specs.Refinement.{Matches, hosting_of};
ghost use Rattle.mono_rt.specs.TaskWaits.{each_below, watch, tick_watch, watches, row_by, own_rows, or_nothing, rows_of, row_of};
ghost use Rattle.mono_rt.specs.Views.{ListsWaits};

use crate::parts::Parts;
use crate::runtimes::Runtime;
use mono_blocking::{Blockings, ThreadPool};
use mono_driver::Driver;
use mono_joinword::Outcome;
use mono_task::{SharedState, TaskPhase, Tasks};
use mono_time::Timers;
use std::alloc::{AllocError, Global};
use std::fmt;

/// The source for which a task waits.
#[derive(Clone, Copy, Debug, PartialEq, Eq)]
pub enum WaitsFor {
    /// A sleep, by its number, and the tick at which it fires.
    Sleep(u64, u64),
    /// The end of a task.
    Task(u64),
    /// The end of a job.
    Job(u64),
    /// Nothing.
    Nothing,
}

/// A live task, with one source for which it waits.
#[derive(Clone, Copy, Debug, PartialEq, Eq)]
pub struct TaskWait {
    /// The task's number.
    pub task: u64,
    /// Its phase.
    pub phase: TaskPhase,
    /// The source.
    pub waits_for: WaitsFor,
    /// Whether it handed out its remote waker, so that another thread may wake it.
    pub is_handed_out: bool,
}

// A source with the task that waits for it.
#[derive(Clone, Copy)]
pub(crate) struct Watch {
    pub by: u64,
    pub source: WaitsFor,
}

impl TaskWait {
    /// Returns whether the task is stuck: it is idle, waits for nothing, and no other thread has its waker. Only a wake
    /// by another task can help it.
    pub fn is_stuck(&self) -> bool {
        self.phase == TaskPhase::Idle && self.waits_for == WaitsFor::Nothing && !self.is_handed_out
    }
}

impl fmt::Display for TaskWait {
    fn fmt<W: fmt::Write>(&self, f: &mut fmt::Formatter<W>) -> fmt::Result {
        let task = self.task;
        if self.phase == TaskPhase::Finished {
            return write!(f, "task {task} has finished");
        }
        match self.waits_for {
            WaitsFor::Sleep(sleep, tick) => {
                write!(f, "task {task} waits for sleep {sleep} until {tick} ms")
            }
            WaitsFor::Task(other) => write!(f, "task {task} waits for task {other}"),
            WaitsFor::Job(job) => write!(f, "task {task} waits for job {job}"),
            WaitsFor::Nothing => write_phase(f, task, self.phase, self.is_handed_out),
        }
    }
}

// Writes the phase of a task that waits for no source.
fn write_phase<W: fmt::Write>(
    f: &mut fmt::Formatter<W>,
    task: u64,
    phase: TaskPhase,
    is_handed_out: bool,
) -> fmt::Result {
    match phase {
        TaskPhase::Finished => write!(f, "task {task} has finished"),
        TaskPhase::Queued => write!(f, "task {task} is queued"),
        TaskPhase::Running => write!(f, "task {task} runs"),
        TaskPhase::Idle => {
            if is_handed_out {
                write!(f, "task {task} waits for another thread")
            } else {
                write!(f, "task {task} waits for nothing: stuck")
            }
        }
    }
}

// Adds the watch of a source, if a task waits for it.
fn add_watch(list: &mut Vec<Watch>, source: WaitsFor, by: Option<u64>) -> Result<(), AllocError>
    ensures { OnOk result (list.new.items ≡ list.old.items ++ watch source by) }
{
    match by {
        None => Ok(()),
        Some(by) => {
            list.push(Watch { by, source })?;
            Ok(())
        }
    }
}

// Adds the watch of a sleep.
fn add_sleep(list: &mut Vec<Watch>, sleep: u64, wait: Option<(u64, u64)>) -> Result<(), AllocError>
    ensures { OnOk result (list.new.items ≡ list.old.items ++ tick_watch sleep wait) }
{
    match wait {
        None => Ok(()),
        Some((tick, by)) => add_watch(list, WaitsFor::Sleep(sleep, tick), Some(by)),
    }
}

// Adds the sleeps for which a task waits.
fn add_sleeps(list: &mut Vec<Watch>, timers: &Timers) -> Result<(), AllocError>
    ensures { OnOk result (list.new.items ≡ list.old.items ++ each_below (λ s. tick_watch s (wait_of (value_at (sleeps_of timers.now).table s))) (next_number (sleeps_of timers.now).table)) }
{
    'sleeps: for sleep in 0..timers.issued() {
        add_sleep(list, sleep, timers.wait_of(sleep))?;
    }
    Ok(())
}

// Adds the tasks for which a task waits.
fn add_tasks<O: Drop>(list: &mut Vec<Watch>, tasks: &Tasks<O>) -> Result<(), AllocError>
    ensures { OnOk result (list.new.items ≡ list.old.items ++ each_below (λ u. watch (source.Task u) (waiter_in (value_at tasks.now.tasks.table u))) (next_number tasks.now.tasks.table)) }
{
    'tasks: for task in 0..tasks.issued() {
        add_watch(list, WaitsFor::Task(task), tasks.waiter(task))?;
    }
    Ok(())
}

// Adds the jobs for which a task waits.
fn add_jobs<P: ThreadPool + Drop>(
    list: &mut Vec<Watch>,
    jobs: &Blockings<P>,
) -> Result<(), AllocError>
    ensures { OnOk result (list.new.items ≡ list.old.items ++ each_below (λ j. watch (source.Job j) (job_waiter (value_at jobs.now.table.jobs.table j))) (next_number jobs.now.table.jobs.table)) }
{
    'jobs: for job in 0..jobs.issued() {
        add_watch(list, WaitsFor::Job(job), jobs.waiter(job))?;
    }
    Ok(())
}

// Returns all sources for which some task waits.
fn all_watches<O: Outcome + Drop, P: ThreadPool + Drop>(
    alloc: Global,
    parts: &Parts<O, Blockings<P>>,
) -> Result<Vec<Watch>, AllocError>
    ensures { IfOk result (λ list. (m : Machine) → Matches O.output_number hosting_of parts.entry.now m → list.items ≡ watches m) }
{
    let mut list = Vec::new(alloc);
    add_sleeps(&mut list, &parts.timers)?;
    add_tasks(&mut list, &parts.tasks)?;
    add_jobs(&mut list, &parts.blocking)?;
    Ok(list)
}

// Adds a row for a source, if this task waits for it.
fn add_if_own(
    list: &mut Vec<TaskWait>,
    watch: Watch,
    task: u64,
    phase: TaskPhase,
    is_handed_out: bool,
) -> Result<(), AllocError>
    ensures { OnOk result (map row_of list.new.items ≡ map row_of list.old.items ++ row_by (watch.by == task) task phase watch.source) }
{
    if watch.by == task {
        list.push(TaskWait {
            task,
            phase,
            waits_for: watch.source,
            is_handed_out,
        })?;
    }
    Ok(())
}

// Adds a row for each source for which the task waits.
fn add_own(
    list: &mut Vec<TaskWait>,
    watches: &[Watch],
    task: u64,
    phase: TaskPhase,
    is_handed_out: bool,
) -> Result<(), AllocError>
    ensures { OnOk result (map row_of list.new.items ≡ map row_of list.old.items ++ own_rows watches.now task phase) }
{
    'watches: for watch in watches {
        add_if_own(list, *watch, task, phase, is_handed_out)?;
    }
    Ok(())
}

// Adds the rows of a live task.
fn add_task(
    list: &mut Vec<TaskWait>,
    watches: &[Watch],
    task: u64,
    phase: TaskPhase,
    is_handed_out: bool,
) -> Result<(), AllocError>
    ensures { OnOk result (map row_of list.new.items ≡ map row_of list.old.items ++ or_nothing task phase (own_rows watches.now task phase)) }
{
    let before = list.len();
    add_own(list, watches, task, phase, is_handed_out)?;
    if list.len() == before {
        list.push(TaskWait {
            task,
            phase,
            waits_for: WaitsFor::Nothing,
            is_handed_out,
        })?;
    }
    Ok(())
}

// Adds the rows of a number. There are none unless it is that of a live task.
fn add_rows(
    list: &mut Vec<TaskWait>,
    watches: &[Watch],
    task: u64,
    phase: Option<TaskPhase>,
    is_handed_out: bool,
) -> Result<(), AllocError>
    ensures { OnOk result (map row_of list.new.items ≡ map row_of list.old.items ++ rows_of watches.now task phase) }
{
    match phase {
        None => Ok(()),
        Some(phase) => add_task(list, watches, task, phase, is_handed_out),
    }
}

impl<F: Drop, O: Outcome + Drop, D: Driver, P: ThreadPool + Drop, W: SharedState + Drop> Runtime<
    F,
    O,
    D,
    P,
    W,
> {
    // Returns whether a task handed out its remote waker.
    fn is_handed_out(&self, task: u64) -> bool {
        match self.cx.futures.note(task) {
            Some(waker) => waker.is_handed_out(),
            None => false,
        }
    }

    // Adds the rows of all live tasks.
    fn add_all(&self, list: &mut Vec<TaskWait>, watches: &[Watch]) -> Result<(), AllocError>
        ensures { OnOk result (map row_of list.new.items ≡ map row_of list.old.items ++ each_below (λ t. rows_of watches.now t (phase_in (value_at self.now.cx.parts.tasks.tasks.table t))) (next_number self.now.cx.parts.tasks.tasks.table)) }
    {
        'tasks: for task in 0..self.cx.parts.tasks.issued() {
            let phase = self.cx.parts.tasks.phase(task);
            add_rows(list, watches, task, phase, self.is_handed_out(task))?;
        }
        Ok(())
    }

    /// Lists the live tasks by their numbers, each with its phase and each source for which it waits. A task that waits
    /// for no source has one row, with `WaitsFor::Nothing`.
    ///
    /// For each machine that the runtime refines, the list is a function of that machine, apart from the mark
    /// `is_handed_out`. The time of the call follows the numbers given out so far, and live tasks times watched sources.
    /// Fails only if out of memory.
    ///
    /// ```rust
    /// // test_runtime/src/waits.rt
    /// let list = runtime.tasks(alloc).expect(&rt, "memory");
    /// ```
    pub fn tasks(&self, alloc: Global) -> Result<Vec<TaskWait>, AllocError>
        ensures { IfOk result (λ list. ListsWaits O.output_number list.items self.now) }
    {
        let watches = all_watches(alloc, &self.cx.parts)?;
        let mut list = Vec::new(alloc);
        self.add_all(&mut list, &watches)?;
        Ok(list)
    }
}
