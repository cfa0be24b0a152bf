// One place of the table of tasks, and what each call makes of it.
ghost use Rattle.std.specs.Prelude.{◌≡◌, true, Ok};
ghost use Rattle.mono_model.specs.Joins.{kept_value, join_value, drop_value, finished_value};
ghost use Rattle.mono_task.specs.Work.{has_output, has_finished};
ghost use Rattle.mono_task.specs.TaskPhases.{phase_in, waiter_in};
ghost use Rattle.mono_task.specs.Entries.{task_of, handle_of, is_over, is_noted, woken_entry, waking_of, begun_entry, paused_entry, completed_entry, joined_entry, dropped_entry};
ghost use Rattle.mono_task.specs.Places.{Gone, Taken, Queued};
ghost use Rattle.mono_task.specs.declared.entries.Handle.TheVariants.{Kept};

use crate::phases::TaskPhase;
use mono_model::{Poll, TaskError};
use std::marker::Model;
use std::mem;

/// The state of a task's handle: dropped, kept, or awaited by a task that waits for the output.
#[derive(Clone, Copy, Drop)]
pub enum Handle {
    Dropped,
    Kept,
    Awaited(u64),
}

// The states of a place. An unfinished task has a state for each state of its handle, so that a place is one word and a
// tag.
#[derive(Drop)]
enum State<O> {
    Gone,
    Taken,
    Done(O),
    IdleDropped,
    IdleKept,
    IdleAwaited(u64),
    QueuedDropped,
    QueuedKept,
    QueuedAwaited(u64),
    RunningDropped,
    RunningKept,
    RunningAwaited(u64),
    NotedDropped,
    NotedKept,
    NotedAwaited(u64),
}

/// The place of a number that was given out. It holds a finished task only while its handle is kept.
#[derive(Drop)]
pub struct Place<O> {
    state: State<O>,
}

impl<O> Model for Place<O> {
    ghost use Rattle.mono_task.specs.Places.{Entry, entry_in};

    ghost Value = { Entry O };

    ghost view = { λ a. entry_in a.state };
}

/// The answer to a wake of a task: whether it joins the queue, is noted, or stays as it is.
#[derive(Clone, Copy, Drop)]
pub enum Waking {
    Queues,
    Notes,
    Nothing,
}

impl<O: Drop> Place<O> {
    /// Creates the place of a queued task with a kept handle.
    pub fn new() -> Place<O>
        ensures { result ≡ Queued Kept }
    {
        Place {
            state: State::QueuedKept,
        }
    }

    /// Wakes the task.
    pub fn wake(&mut self) -> Waking
        ensures entry { self.new ≡ woken_entry self.old }
        ensures waking { result ≡ waking_of self.old }
    {
        match self.state {
            State::IdleDropped => {
                self.state = State::QueuedDropped;
                Waking::Queues
            }
            State::IdleKept => {
                self.state = State::QueuedKept;
                Waking::Queues
            }
            State::IdleAwaited(by) => {
                self.state = State::QueuedAwaited(by);
                Waking::Queues
            }
            State::RunningDropped => {
                self.state = State::NotedDropped;
                Waking::Notes
            }
            State::RunningKept => {
                self.state = State::NotedKept;
                Waking::Notes
            }
            State::RunningAwaited(by) => {
                self.state = State::NotedAwaited(by);
                Waking::Notes
            }
            State::NotedDropped | State::NotedKept | State::NotedAwaited(_) => Waking::Notes,
            _ => Waking::Nothing,
        }
    }

    /// Begins a turn of the task.
    pub fn begin(&mut self)
        ensures { self.new ≡ begun_entry self.old }
    {
        match self.state {
            State::QueuedDropped => self.state = State::RunningDropped,
            State::QueuedKept => self.state = State::RunningKept,
            State::QueuedAwaited(by) => self.state = State::RunningAwaited(by),
            _ => {},
        }
    }

    /// Ends the task's turn as pending. Returns true if the task was woken meanwhile and so goes into the queue again.
    pub fn pause(&mut self) -> bool
        ensures entry { self.new ≡ paused_entry self.old }
        ensures noted { result ≡ is_noted self.old }
    {
        match self.state {
            State::RunningDropped => {
                self.state = State::IdleDropped;
                false
            }
            State::RunningKept => {
                self.state = State::IdleKept;
                false
            }
            State::RunningAwaited(by) => {
                self.state = State::IdleAwaited(by);
                false
            }
            State::NotedDropped => {
                self.state = State::QueuedDropped;
                true
            }
            State::NotedKept => {
                self.state = State::QueuedKept;
                true
            }
            State::NotedAwaited(by) => {
                self.state = State::QueuedAwaited(by);
                true
            }
            _ => false,
        }
    }

    /// Finishes the task with this output, which is kept if the handle is kept. Returns the handle.
    pub fn complete(&mut self, output: O) -> Option<Handle>
        ensures entry { self.new ≡ completed_entry self.old output }
        ensures handle { result ≡ handle_of self.old }
    {
        match self.state {
            State::Gone | State::Taken | State::Done(_) => None,
            State::IdleDropped
            | State::QueuedDropped
            | State::RunningDropped
            | State::NotedDropped => {
                self.state = State::Gone;
                Some(Handle::Dropped)
            }
            State::IdleKept | State::QueuedKept | State::RunningKept | State::NotedKept => {
                self.state = State::Done(output);
                Some(Handle::Kept)
            }
            State::IdleAwaited(by)
            | State::QueuedAwaited(by)
            | State::RunningAwaited(by)
            | State::NotedAwaited(by) => {
                self.state = State::Done(output);
                Some(Handle::Awaited(by))
            }
        }
    }

    /// Returns whether the task has finished and its handle is kept.
    pub fn is_over(&self) -> bool
        ensures { result ≡ is_over self.now }
    {
        match self.state {
            State::Done(_) | State::Taken => true,
            _ => false,
        }
    }

    /// Returns whether the task has finished and its output was not taken.
    pub fn has_output(&self) -> bool
        ensures { result ≡ has_output (task_of self.now) }
    {
        match self.state {
            State::Done(_) => true,
            _ => false,
        }
    }

    /// Returns whether the task has finished, whatever its handle.
    pub fn has_finished(&self) -> bool
        ensures { result ≡ has_finished (task_of self.now) }
    {
        match self.state {
            State::Gone | State::Taken | State::Done(_) => true,
            _ => false,
        }
    }

    /// Returns the task's phase, if a task is there.
    pub fn phase(&self) -> Option<TaskPhase>
        ensures { result ≡ phase_in (task_of self.now) }
    {
        match self.state {
            State::Gone => None,
            State::Taken | State::Done(_) => Some(TaskPhase::Finished),
            State::IdleDropped | State::IdleKept | State::IdleAwaited(_) => Some(TaskPhase::Idle),
            State::QueuedDropped | State::QueuedKept | State::QueuedAwaited(_) => {
                Some(TaskPhase::Queued)
            }
            _ => Some(TaskPhase::Running),
        }
    }

    /// Returns the task that waits for the output.
    pub fn waiter(&self) -> Option<u64>
        ensures { result ≡ waiter_in (task_of self.now) }
    {
        match self.state {
            State::IdleAwaited(by)
            | State::QueuedAwaited(by)
            | State::RunningAwaited(by)
            | State::NotedAwaited(by) => Some(by),
            _ => None,
        }
    }

    /// Polls the handle for another task, which then waits for the output instead of any earlier one.
    pub fn join(&mut self, by: u64) -> Result<Poll<O>, TaskError>
        ensures entry { self.new ≡ joined_entry self.old by }
        ensures answer { result ≡ join_value (kept_value (task_of self.old)) }
    {
        match self.state {
            State::Taken => Err(TaskError::Taken),
            State::Done(_) => self.take(),
            State::IdleKept | State::IdleAwaited(_) => {
                self.state = State::IdleAwaited(by);
                Ok(Poll::Pending)
            }
            State::QueuedKept | State::QueuedAwaited(_) => {
                self.state = State::QueuedAwaited(by);
                Ok(Poll::Pending)
            }
            State::RunningKept | State::RunningAwaited(_) => {
                self.state = State::RunningAwaited(by);
                Ok(Poll::Pending)
            }
            State::NotedKept | State::NotedAwaited(_) => {
                self.state = State::NotedAwaited(by);
                Ok(Poll::Pending)
            }
            _ => Err(TaskError::NoHandle),
        }
    }

    // Takes the output.
    fn take(&mut self) -> Result<Poll<O>, TaskError>
        requires { is_over self.old ≡ true }
        ensures entry { self.new ≡ Taken }
        ensures answer { result ≡ join_value (kept_value (task_of self.old)) }
    {
        match mem::replace(&mut self.state, State::Taken) {
            State::Done(output) => Ok(Poll::Ready(output)),
            _ => Err(TaskError::Taken),
        }
    }

    /// Drops the handle, and returns the output if it was not taken.
    pub fn drop_join(&mut self) -> Result<Option<O>, TaskError>
        ensures entry { self.new ≡ dropped_entry self.old }
        ensures answer { result ≡ drop_value (kept_value (task_of self.old)) }
    {
        match self.state {
            State::Taken | State::Done(_) => Ok(self.end()),
            State::IdleKept | State::IdleAwaited(_) => {
                self.state = State::IdleDropped;
                Ok(None)
            }
            State::QueuedKept | State::QueuedAwaited(_) => {
                self.state = State::QueuedDropped;
                Ok(None)
            }
            State::RunningKept | State::RunningAwaited(_) => {
                self.state = State::RunningDropped;
                Ok(None)
            }
            State::NotedKept | State::NotedAwaited(_) => {
                self.state = State::NotedDropped;
                Ok(None)
            }
            _ => Err(TaskError::NoHandle),
        }
    }

    // Removes a finished task.
    fn end(&mut self) -> Option<O>
        requires { is_over self.old ≡ true }
        ensures entry { self.new ≡ Gone }
        ensures answer { Ok result ≡ drop_value (kept_value (task_of self.old)) }
    {
        match mem::replace(&mut self.state, State::Gone) {
            State::Done(output) => Some(output),
            _ => None,
        }
    }

    /// Returns whether the task has finished, for its handle.
    pub fn is_finished(&self) -> Result<bool, TaskError>
        ensures { result ≡ finished_value (kept_value (task_of self.now)) }
    {
        match self.state {
            State::Taken | State::Done(_) => Ok(true),
            State::Gone
            | State::IdleDropped
            | State::QueuedDropped
            | State::RunningDropped
            | State::NotedDropped => Err(TaskError::NoHandle),
            _ => Ok(false),
        }
    }
}
