// The table of tasks, and their run queue.
ghost use Rattle.std.specs.Prelude.{◌≡◌, ◌<◌, ◌≤◌, ◌↔◌, true, length, IfOk, OnOk, OnErr, None, Err, is_some, ◌-◌, ◌^◌};
ghost use Rattle.std.specs.VecDeque.{deque_len, deque_capacity};
ghost use Rattle.mono_model.specs.Table.{value_at, next_number, with_next, is_full};
ghost use Rattle.mono_model.specs.Tasks.{spawned, woken};
ghost use Rattle.mono_model.specs.Joins.{wake_answer, join_answer, joined, drop_answer, join_dropped, finished_answer};
ghost use Rattle.mono_task.specs.Schedule.{no_schedule, with_tasks, begin_answer, after_begin, end_answer, after_end};
ghost use Rattle.mono_task.specs.Work.{has_output, GivesOutput, over_answer};
ghost use Rattle.mono_task.specs.TaskPhases.{phase_in, waiter_in};
ghost use Rattle.mono_task.specs.TaskEnds.{Finishes};
ghost use Rattle.mono_model.specs.declared.poll.Poll.TheVariants.{Ready, Pending};
ghost use Rattle.mono_task.specs.declared.error.SpawnTask.TheVariants.{AtCapacity};
ghost use Rattle.mono_task.specs.Places.{Queued};
ghost use Rattle.mono_task.specs.declared.entries.Handle.TheVariants.{Kept};

use crate::entries::{Handle, Place, Waking};
use crate::error::SpawnTask;
use crate::phases::TaskPhase;
use mono_model::{Ended, Poll, TaskError, Woke};
use mono_table::Table;
use std::alloc::{AllocError, Global};
use std::collections::VecDeque;
use std::marker::Model;

/// The room that the queue gets with the first task.
const LEAST_ROOM: usize = 4;

/// The tasks of an executor, by their numbers, and their run queue.
///
/// Numbers count from 0 and are never given twice. A task is live while it has not finished or its handle is kept. The
/// table removes the entry of a task that is not live; 40 bytes stay for each 65,536 numbers.
#[derive(Drop)]
pub struct Tasks<O> {
    // The numbers of the queued tasks, the front first, with room for each task that has not finished.
    queue: VecDeque<u64>,
    // The task at each number that was given out, or nothing once it was removed.
    entries: Table<Place<O>>,
    // The number of tasks that have not finished.
    unfinished: usize,
    limit: u64,
    turns: u64,
    running: Option<u64>,
}

impl<O> Model for Tasks<O> {
    ghost use Rattle.std.specs.VecDeque.{deque_capacity};
    ghost use Rattle.mono_model.specs.Table.{count_of};
    ghost use Rattle.mono_task.specs.Schedule.{Schedule};

    ghost Value = { Schedule O };

    ghost use Rattle.mono_task.specs.Invariants.{entries_of, tasks_of, Keeps};

    ghost view = { λ a. record { tasks = tasks_of a.queue.items (entries_of a.entries) a.limit; turns = a.turns; turn = a.running } };

    ghost invariant = { λ a. Keeps a.queue.items (deque_capacity a.queue) (entries_of a.entries) a.unfinished (count_of a.entries) a.running };
}

impl<O> Tasks<O> {
    /// Creates a table without tasks, for at most `limit` live ones.
    pub fn new(alloc: Global, limit: u64) -> Result<Tasks<O>, AllocError>
        ensures { IfOk result (λ tasks. tasks ≡ no_schedule limit) }
    {
        Ok(Tasks {
            queue: VecDeque::new(alloc),
            entries: Table::new(alloc),
            unfinished: 0,
            limit,
            turns: 0,
            running: None,
        })
    }

    /// Returns how many tasks are queued.
    pub fn queue_len(&self) -> usize
        ensures { result ≡ length self.now.tasks.queue }
    {
        self.queue.len()
    }

    /// Returns how many turns have begun. The count stays at 2^64 - 1 once it is reached.
    pub fn turns(&self) -> u64
        ensures { result ≡ self.now.turns }
    {
        self.turns
    }
}

// Grows the queue's room above the count `tasks`, which includes the queued ones. If it is too small, it at least
// doubles, so that the cost of a task does not depend on their number.
#[inline(always)]
fn make_room(queue: &mut VecDeque<u64>, tasks: usize) -> Result<(), AllocError>
    requires { deque_len queue.old ≤ tasks }
    ensures items { queue.new.items ≡ queue.old.items }
    ensures capacity { deque_capacity queue.old ≤ deque_capacity queue.new }
    ensures room { OnOk result (tasks < deque_capacity queue.new) }
{
    if tasks < queue.capacity() {
        return Ok(());
    }
    let Some(more) = (tasks - queue.len()).checked_add(tasks.max(LEAST_ROOM)) else {
        return Err(AllocError);
    };
    queue.reserve(more)
}

// Makes room in the queue for one more than `tasks` tasks, and gives out the next number, whose task is queued.
#[inline(always)]
fn enter<O: Drop>(
    alloc: Global,
    queue: &mut VecDeque<u64>,
    entries: &mut Table<Place<O>>,
    tasks: usize,
) -> Result<(), AllocError>
    requires few { deque_len queue.old ≤ tasks }
    requires next { next_number entries.old < 2 ^ 64 - 1 }
    ensures queued { queue.new.items ≡ queue.old.items }
    ensures capacity { deque_capacity queue.old ≤ deque_capacity queue.new }
    ensures room { OnOk result (tasks < deque_capacity queue.new) }
    ensures entered { OnOk result (entries.new ≡ with_next entries.old (Queued Kept)) }
    ensures refused { OnErr result (entries.new ≡ entries.old) }
{
    make_room(queue, tasks)?;
    entries.push(alloc, Place::new())
}

impl<O: Drop> Tasks<O> {
    /// Adds a task with the next number. The task goes to the queue's back, and its handle is kept.
    ///
    /// Refused with `AtCapacity` if and only if the number of live tasks is at the limit or the next number is 2^64 - 1
    /// (`full`); otherwise with `Memory` if an allocation failed. A refusal changes nothing (`refused`).
    #[inline(always)]
    pub fn spawn(&mut self, alloc: Global) -> Result<u64, SpawnTask>
        ensures full { (result ≡ Err AtCapacity) ↔ (is_full self.old.tasks.table self.old.tasks.limit ≡ true) }
        ensures number { IfOk result (λ number. number ≡ next_number self.old.tasks.table) }
        ensures after { OnOk result (self.new ≡ with_tasks self.old (spawned self.old.tasks)) }
        ensures refused { OnErr result (self.new ≡ self.old) }
    {
        let number = self.entries.len();
        if self.entries.count() >= self.limit || number == u64::MAX {
            return Err(SpawnTask::AtCapacity);
        }
        match enter(alloc, &mut self.queue, &mut self.entries, self.unfinished) {
            Ok(()) => {
                self.queue.push_back_reserved(number);
                self.unfinished += 1;
                Ok(number)
            }
            Err(_) => Err(SpawnTask::Memory),
        }
    }

    /// Returns whether a spawn is refused with `AtCapacity`: the number of live tasks is at the limit, or the next
    /// number is 2^64 - 1.
    pub fn has_no_place(&self) -> bool
        ensures { result ≡ is_full self.now.tasks.table self.now.tasks.limit }
    {
        self.entries.count() >= self.limit || self.entries.len() == u64::MAX
    }

    /// Wakes a task. An idle task goes to the queue's back (`Queued`), a running task runs again after its turn
    /// (`Noted`), and any other stays as it is (`Nothing`).
    ///
    /// Refused with `NoTask` if and only if the number was never given out.
    pub fn wake(&mut self, task: u64) -> Result<Woke, TaskError>
        ensures answer { result ≡ wake_answer self.old.tasks task }
        ensures after { self.new ≡ with_tasks self.old (woken self.old.tasks task) }
    {
        if task >= self.entries.len() {
            return Err(TaskError::NoTask);
        }
        if self.entries.get(task).is_none() {
            return Ok(Woke::Nothing);
        }
        let entry = self.entries.value_mut(task);
        match entry.wake() {
            Waking::Queues => {
                self.queue.push_back_reserved(task);
                Ok(Woke::Queued)
            }
            Waking::Notes => Ok(Woke::Noted),
            Waking::Nothing => Ok(Woke::Nothing),
        }
    }

    /// Begins the turn of the task at the queue's front, which is running from then on. No turn may be running.
    ///
    /// Refused with `Idle` if and only if the queue is empty. `turns` counts the turns that begin.
    #[inline(always)]
    pub fn begin_turn(&mut self) -> Result<u64, TaskError>
        requires { self.old.turn ≡ None }
        ensures answer { result ≡ begin_answer self.old }
        ensures after { self.new ≡ after_begin self.old }
    {
        let task = match self.queue.pop_front() {
            None => return Err(TaskError::Idle),
            Some(task) => task,
        };
        self.entries.value_mut(task).begin();
        self.turns = self.turns.saturating_add(1);
        self.running = Some(task);
        Ok(task)
    }

    /// Ends the running turn. A turn must be running.
    ///
    /// If it ends pending, a task that was woken during its turn goes to the queue's back (`Again`), and any other is
    /// idle (`Idle`). If it ends ready and the handle is kept, keeps the output, then wakes the task that waits for it
    /// (`Done`). If it ends ready without a handle, removes the task (`Gone`).
    #[inline(always)]
    pub fn end_turn(&mut self, end: Poll<O>) -> Ended
        requires { is_some self.old.turn ≡ true }
        ensures answer { result ≡ end_answer self.old end }
        ensures after { self.new ≡ after_end self.old end }
    {
        match end {
            Poll::Pending => self.pause(),
            Poll::Ready(output) => self.complete(output),
        }
    }

    // Ends the running turn as pending.
    fn pause(&mut self) -> Ended
        requires { is_some self.old.turn ≡ true }
        ensures answer { result ≡ end_answer self.old Pending }
        ensures after { self.new ≡ after_end self.old Pending }
    {
        let task = match self.running {
            Some(task) => task,
            None => unreachable!(),
        };
        self.running = None;
        if self.entries.value_mut(task).pause() {
            self.queue.push_back_reserved(task);
            return Ended::Again;
        }
        Ended::Idle
    }

    // Ends the running turn with an output.
    fn complete(&mut self, output: O) -> Ended
        requires { is_some self.old.turn ≡ true }
        ensures answer { result ≡ end_answer self.old (Ready output) }
        ensures after { self.new ≡ after_end self.old (Ready output) }
    {
        match self.finish(output) {
            Handle::Dropped => Ended::Gone,
            Handle::Kept => Ended::Done,
            Handle::Awaited(waiter) => {
                let _ = self.wake(waiter);
                Ended::Done
            }
        }
    }

    // Finishes the task whose turn runs, or removes it if its handle is dropped. Returns its handle.
    fn finish(&mut self, output: O) -> Handle
        requires { is_some self.old.turn ≡ true }
        ensures { Finishes self.old self.new output result }
    {
        let task = match self.running {
            Some(task) => task,
            None => unreachable!(),
        };
        self.running = None;
        let handle = match self.entries.value_mut(task).complete(output) {
            Some(handle) => handle,
            None => unreachable!(),
        };
        self.unfinished -= 1;
        match handle {
            Handle::Dropped => {
                self.entries.remove(task);
                Handle::Dropped
            }
            Handle::Kept => Handle::Kept,
            Handle::Awaited(waiter) => Handle::Awaited(waiter),
        }
    }

    /// Polls for the output of a task on behalf of the task `by`, which waits for it if there is none yet.
    ///
    /// Refused with `NoTask` if the number was never given out, then with `NoHandle` if the task's handle is dropped,
    /// then with `Taken` if the output was already taken.
    pub fn poll_join(&mut self, task: u64, by: u64) -> Result<Poll<O>, TaskError>
        ensures answer { result ≡ join_answer self.old.tasks task }
        ensures after { self.new ≡ with_tasks self.old (joined self.old.tasks task by) }
    {
        if task >= self.entries.len() {
            return Err(TaskError::NoTask);
        }
        if self.entries.get(task).is_none() {
            return Err(TaskError::NoHandle);
        }
        let entry = self.entries.value_mut(task);
        entry.join(by)
    }

    /// Drops the handle of a task, and returns the output if it was not taken. A task that has not finished runs on.
    ///
    /// Refused with `NoTask` if the number was never given out, then with `NoHandle` if the handle is already dropped.
    #[inline(always)]
    pub fn drop_join(&mut self, task: u64) -> Result<Option<O>, TaskError>
        ensures answer { result ≡ drop_answer self.old.tasks task }
        ensures after { self.new ≡ with_tasks self.old (join_dropped self.old.tasks task) }
    {
        if task >= self.entries.len() {
            return Err(TaskError::NoTask);
        }
        if self.entries.get(task).is_none() {
            return Err(TaskError::NoHandle);
        }
        let entry = self.entries.value_mut(task);
        if entry.is_over() {
            let output = entry.drop_join();
            self.entries.remove(task);
            return output;
        }
        entry.drop_join()
    }

    /// Returns how many numbers were given to tasks.
    pub fn issued(&self) -> u64
        ensures { result ≡ next_number self.now.tasks.table }
    {
        self.entries.len()
    }

    /// Returns the phase of a live task, or `None` if and only if no live task has the number.
    pub fn phase(&self, task: u64) -> Option<TaskPhase>
        ensures { result ≡ phase_in (value_at self.now.tasks.table task) }
    {
        match self.entries.get(task) {
            None => None,
            Some(entry) => entry.phase(),
        }
    }

    /// Returns the task that waits for the output of a task, if one does.
    pub fn waiter(&self, task: u64) -> Option<u64>
        ensures { result ≡ waiter_in (value_at self.now.tasks.table task) }
    {
        match self.entries.get(task) {
            None => None,
            Some(entry) => entry.waiter(),
        }
    }

    /// Returns whether a task has finished and its output was not taken. If so, its handle is kept, and `drop_join`
    /// returns the output (`given`).
    pub fn has_output(&self, task: u64) -> bool
        ensures answer { result ≡ has_output (value_at self.now.tasks.table task) }
        ensures given { result ≡ true → GivesOutput self.now.tasks task }
    {
        match self.entries.get(task) {
            None => false,
            Some(entry) => entry.has_output(),
        }
    }

    /// Returns whether a task has finished, whatever its handle. Refused with `NoTask` if and only if the number was
    /// never given out.
    pub fn has_finished(&self, task: u64) -> Result<bool, TaskError>
        ensures { result ≡ over_answer self.now.tasks task }
    {
        if task >= self.entries.len() {
            return Err(TaskError::NoTask);
        }
        match self.entries.get(task) {
            None => Ok(true),
            Some(entry) => Ok(entry.has_finished()),
        }
    }

    /// Returns whether a task has finished. Refused as `drop_join` is.
    pub fn is_finished(&self, task: u64) -> Result<bool, TaskError>
        ensures { result ≡ finished_answer self.now.tasks task }
    {
        if task >= self.entries.len() {
            return Err(TaskError::NoTask);
        }
        match self.entries.get(task) {
            None => Err(TaskError::NoHandle),
            Some(entry) => entry.is_finished(),
        }
    }
}
