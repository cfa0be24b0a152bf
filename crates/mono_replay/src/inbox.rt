// The tasks that other threads woke, and a row of numbers that are ready for the next tasks.
ghost use Rattle.std.specs.Prelude.{◌≡◌, ◌+◌, ◌≤◌, ◌++◌, IfOk, OnOk, length, vec_len, vec_capacity, []};
ghost use Rattle.mono_replay.specs.TaskInbox.{no_tasks, put_answer, after_put, with_list, AlsoKnows, Forgets};

use mono_inbox::InboxState;
use std::alloc::{AllocError, Global};
use std::marker::Model;

/// How many numbers are made ready at once.
const ROW: u64 = 64;

/// The inbox of an executor. It makes a row of numbers ready at a time, and a task becomes known as the row's next.
#[derive(Drop)]
pub struct TaskInbox {
    state: InboxState,
    // the number of the next task
    next: u64,
    // the state knows each number from `next` to before this one, and none after them
    until: u64,
}

impl Model for TaskInbox {
    ghost use Rattle.mono_replay.specs.TaskInbox.{TaskList, seen_below, IsReadyUntil};

    ghost Value = { TaskList };

    ghost view = { λ a. seen_below a.next a.state };

    ghost invariant = { λ a. IsReadyUntil a.next a.until a.state };
}

impl TaskInbox {
    /// Returns an inbox in which no task waits and no task is known.
    pub fn new(alloc: Global) -> Result<TaskInbox, AllocError>
        ensures { IfOk result (λ inbox. inbox ≡ no_tasks) }
    {
        Ok(TaskInbox {
            state: InboxState::new(alloc, 0)?,
            next: 0,
            until: 0,
        })
    }

    /// Makes the next task known and reserves its place in the list, so that no later `put` of it takes memory.
    ///
    /// Refused if out of memory, or if the number is not the one after the last task's.
    #[inline(always)]
    pub fn know(&mut self, alloc: Global, task: u64) -> Result<(), AllocError>
        ensures known { OnOk result (AlsoKnows self.old self.new task) }
    {
        if task == self.next && task < self.until {
            self.next += 1;
            return Ok(());
        }
        self.open_row(alloc, task)
    }

    // Makes a row of numbers ready, and the first of them known.
    #[inline(never)]
    fn open_row(&mut self, alloc: Global, task: u64) -> Result<(), AllocError>
        ensures known { OnOk result (AlsoKnows self.old self.new task) }
    {
        if task != self.next || task != self.until {
            return Err(AllocError);
        }
        let until = self.state.know_row(alloc, task, task.saturating_add(ROW));
        if until == task {
            return Err(AllocError);
        }
        self.until = until;
        self.next = task + 1;
        Ok(())
    }

    /// Appends the task to the list and returns true. Returns false, and keeps the list, if and only if the task waits
    /// already or is not known.
    pub fn put(&mut self, task: u64) -> bool
        ensures answer { result ≡ put_answer self.old task }
        ensures state { self.new ≡ after_put self.old task }
    {
        if task >= self.next {
            return false;
        }
        self.state.put(task)
    }

    /// Makes the task unknown. The entry of a waiting task stays until the drain.
    #[inline(always)]
    pub fn retire(&mut self, task: u64)
        ensures { Forgets self.old self.new task }
    {
        if task < self.next {
            self.state.retire(task);
        }
    }

    /// Returns how many tasks wait.
    pub fn waiting(&self) -> usize
        ensures count { result ≡ length self.now.waiting }
    {
        self.state.waiting()
    }

    /// Appends all waiting tasks to `into` in order, and leaves the list empty.
    pub fn drain(&mut self, into: &mut Vec<u64>)
        requires { vec_len into.old + length self.old.waiting ≤ vec_capacity into.old }
        ensures items { into.new.items ≡ into.old.items ++ self.old.waiting }
        ensures capacity { vec_capacity into.new ≡ vec_capacity into.old }
        ensures state { self.new ≡ with_list self.old [] }
    {
        self.state.drain(into);
    }
}
