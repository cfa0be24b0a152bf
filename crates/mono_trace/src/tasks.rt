// Tasks and the queue of those that run next, with changes that can be taken back.
ghost use Rattle.std.specs.Prelude.{◌≡◌, [], ◌∷◌, List, ℕ, OnOk, IfOk, MatchOption, is_some, true};
ghost use Rattle.mono_model.specs.Table.{value_at, next_number, is_issued, is_full};
ghost use Rattle.mono_model.specs.Tasks as model;
ghost use Rattle.mono_model.specs.Joins as join;
ghost use Rattle.mono_machine.specs.Steps.{has_finished};
ghost use Rattle.mono_machine.specs.JoinCalls.{refusal_of, wake_reply, drop_reply, finished_reply, join_reply};
ghost use Rattle.mono_trace.specs.Versions.{kept, changed};
ghost use Rattle.mono_trace.specs.Tables.{task_of, task_place, with_queue, found_task};

use crate::places::Places;
use crate::queues::Queue;
use mono_machine::{Ended, Refusal, Reply, Woke};
use mono_model::TaskError;
use std::alloc::{AllocError, Global};
use std::marker::Model;

/// The state of a task. A running task is noted once it was woken in its turn.
#[derive(Clone, Copy)]
pub enum Phase {
    Idle,
    Queued,
    Running(bool),
    Done(u64),
    Taken,
}

/// A task: whether its handle is kept, and the task that waits for its output.
#[derive(Clone, Copy)]
pub struct Task {
    pub phase: Phase,
    pub is_kept: bool,
    pub waiter: Option<u64>,
}

/// The tasks by number, the queue, and the greatest number of tasks.
///
/// Contracts see the tasks of the machine, as they are and as they were when their changes were last kept.
#[derive(Drop)]
pub struct Tasks {
    places: Places<Task>,
    queue: Queue,
    limit: u64,
}

impl Model for Tasks {
    ghost use Rattle.std.specs.Prelude.{ℕ};
    ghost use Rattle.mono_model.specs.Tasks as model;
    ghost use Rattle.mono_trace.specs.Versions.{Versions};
    ghost use Rattle.mono_trace.specs.Tables.{tasks_of};

    ghost Value = { Versions (model.Tasks ℕ) };

    ghost view = { λ a. record { now = tasks_of a.places.now a.queue.now a.limit; before = tasks_of a.places.before a.queue.before a.limit } };
}

/// Returns the refusal of a call on a task.
pub fn refusal_of(error: TaskError) -> Refusal
    ensures { result ≡ refusal_of error }
{
    match error {
        TaskError::Idle => Refusal::Idle,
        TaskError::NoTask => Refusal::NoTask,
        TaskError::NoHandle => Refusal::NoHandle,
        TaskError::Taken => Refusal::Taken,
    }
}

impl Tasks {
    /// Returns a table without tasks.
    pub fn new(alloc: Global, limit: u64) -> Tasks
        ensures { result ≡ kept (model.no_tasks limit) }
    {
        Tasks {
            places: Places::new(alloc),
            queue: Queue::new(alloc),
            limit,
        }
    }

    /// Returns whether no further task may be made.
    pub fn is_full(&self) -> bool
        ensures { result ≡ is_full self.now.now.table self.now.now.limit }
    {
        self.places.live() >= self.limit || self.places.next_number() == u64::MAX
    }

    /// Returns whether a task ever got this number.
    pub fn is_issued(&self, t: u64) -> bool
        ensures { result ≡ is_issued self.now.now.table t }
    {
        self.places.is_issued(t)
    }

    /// Returns whether no task got this number, or it has finished.
    pub fn has_finished(&self, t: u64) -> bool
        ensures { result ≡ has_finished (value_at self.now.now.table t) }
    {
        match self.places.get(t) {
            None => true,
            Some(task) => match task.phase {
                Phase::Idle | Phase::Queued | Phase::Running(_) => false,
                Phase::Done(_) | Phase::Taken => true,
            },
        }
    }

    /// Adds a task with the next number, and queues it last.
    pub fn spawn(&mut self) -> Result<u64, AllocError>
        ensures number { IfOk result (λ t. t ≡ next_number self.old.now.table) }
        ensures tasks { OnOk result (self.new ≡ changed self.old (model.spawned self.old.now)) }
    {
        let t = self.places.next_number();
        self.places.push(Task {
            phase: Phase::Queued,
            is_kept: true,
            waiter: None,
        })?;
        self.queue.put(t)?;
        Ok(t)
    }

    /// Stores the new state of a task.
    fn set(&mut self, t: u64, task: Task) -> Result<(), AllocError>
        requires { is_some (value_at self.old.now.table t) ≡ true }
        ensures { OnOk result (self.new ≡ changed self.old (model.with_task self.old.now t (task_of task))) }
    {
        self.places.set(t, task)
    }

    /// Removes a task.
    fn remove(&mut self, t: u64) -> Result<(), AllocError>
        requires { is_some (value_at self.old.now.table t) ≡ true }
        ensures { OnOk result (self.new ≡ changed self.old (model.without_task self.old.now t)) }
    {
        self.places.remove(t)
    }

    /// Queues a task as the last.
    fn queue_last(&mut self, t: u64, task: Task) -> Result<(), AllocError>
        requires { is_some (value_at self.old.now.table t) ≡ true }
        ensures { OnOk result (self.new ≡ changed self.old (model.queued_last self.old.now t (task_of task))) }
    {
        self.set(
            t,
            Task {
                phase: Phase::Queued,
                ..task
            },
        )?;
        self.queue.put(t)
    }

    /// Returns the task with this number.
    fn get(&self, t: u64) -> Option<Task>
        ensures { task_place result ≡ value_at self.now.now.table t }
    {
        self.places.get(t)
    }

    /// Wakes a task.
    pub fn wake(&mut self, t: u64) -> Result<Woke, AllocError>
        ensures woke { IfOk result (λ w. w ≡ model.woke self.old.now t) }
        ensures tasks { OnOk result (self.new ≡ changed self.old (model.woken self.old.now t)) }
    {
        match self.get(t) {
            None => Ok(Woke::Nothing),
            Some(task) => match task.phase {
                Phase::Idle => {
                    self.queue_last(t, task)?;
                    Ok(Woke::Queued)
                }
                Phase::Running(_) => {
                    self.set(
                        t,
                        Task {
                            phase: Phase::Running(true),
                            ..task
                        },
                    )?;
                    Ok(Woke::Noted)
                }
                Phase::Queued | Phase::Done(_) | Phase::Taken => Ok(Woke::Nothing),
            },
        }
    }

    /// Wakes a waker or a waiter, if there is one.
    pub fn wake_if_any(&mut self, waker: Option<u64>) -> Result<(), AllocError>
        ensures { OnOk result (self.new ≡ changed self.old (model.woken_if_any self.old.now waker)) }
    {
        if let Some(t) = waker {
            self.wake(t)?;
        }
        Ok(())
    }

    /// Wakes the task with this number, if there is one.
    pub fn wake_by_number(&mut self, t: u64) -> Result<Reply, AllocError>
        ensures reply { IfOk result (λ r. r ≡ wake_reply (join.wake_answer self.old.now t)) }
        ensures tasks { OnOk result (self.new ≡ changed self.old (model.woken self.old.now t)) }
    {
        if !self.is_issued(t) {
            return Ok(Reply::Refused(Refusal::NoTask));
        }
        let woke = self.wake(t)?;
        Ok(Reply::Woke(woke))
    }

    /// Removes the front of the queue.
    fn take(&mut self) -> Result<Option<u64>, AllocError>
        ensures { IfOk result (λ r. MatchOption r ((self.old.now.queue ≡ []) × (self.new ≡ self.old)) (λ t. (rest : List ℕ) × (self.old.now.queue ≡ t ∷ rest) × (self.new ≡ changed self.old (with_queue self.old.now rest)))) }
    {
        self.queue.take()
    }

    /// Starts a task: it runs, and is not noted yet.
    fn start(&mut self, t: u64) -> Result<(), AllocError>
        ensures { OnOk result (self.new ≡ changed self.old (model.begun_value (value_at self.old.now.table t) self.old.now t)) }
    {
        match self.get(t) {
            None => Ok(()),
            Some(task) => self.set(
                t,
                Task {
                    phase: Phase::Running(false),
                    ..task
                },
            ),
        }
    }

    /// Begins a turn: the front of the queue runs.
    pub fn begin(&mut self) -> Result<Option<u64>, AllocError>
        ensures { IfOk result (λ r. MatchOption r ((self.old.now.queue ≡ []) × (self.new ≡ self.old))
            (λ t. (rest : List ℕ) × (self.old.now.queue ≡ t ∷ rest) × (self.new ≡ changed self.old (model.begun self.old.now t rest)))) }
    {
        match self.take()? {
            None => Ok(None),
            Some(t) => {
                self.start(t)?;
                Ok(Some(t))
            }
        }
    }

    /// Ends the turn of a task as pending.
    pub fn pause(&mut self, me: u64) -> Result<Ended, AllocError>
        ensures ended { IfOk result (λ e. e ≡ model.pause_answer (value_at self.old.now.table me)) }
        ensures tasks { OnOk result (self.new ≡ changed self.old (model.paused_value (value_at self.old.now.table me) self.old.now me)) }
    {
        match self.get(me) {
            None => Ok(Ended::Idle),
            Some(task) => match task.phase {
                Phase::Running(true) => {
                    self.queue_last(me, task)?;
                    Ok(Ended::Again)
                }
                _ => {
                    self.set(
                        me,
                        Task {
                            phase: Phase::Idle,
                            ..task
                        },
                    )?;
                    Ok(Ended::Idle)
                }
            },
        }
    }

    /// Ends the turn of a task as ready.
    pub fn complete(&mut self, me: u64, output: u64) -> Result<Ended, AllocError>
        ensures ended { IfOk result (λ e. e ≡ model.complete_answer (value_at self.old.now.table me)) }
        ensures tasks { OnOk result (self.new ≡ changed self.old (model.completed_value (value_at self.old.now.table me) self.old.now me output)) }
    {
        match self.get(me) {
            None => Ok(Ended::Gone),
            Some(task) => {
                if task.is_kept {
                    self.set(
                        me,
                        Task {
                            phase: Phase::Done(output),
                            is_kept: true,
                            waiter: None,
                        },
                    )?;
                    self.wake_if_any(task.waiter)?;
                    Ok(Ended::Done)
                } else {
                    self.remove(me)?;
                    Ok(Ended::Gone)
                }
            }
        }
    }

    /// Keeps all changes, so that they cannot be taken back any more.
    pub fn keep(&mut self)
        ensures { self.new ≡ kept self.old.now }
    {
        self.places.keep();
        self.queue.keep();
    }

    /// Takes back all changes since they were last kept.
    pub fn take_back(&mut self) -> Result<(), AllocError>
        ensures { OnOk result (self.new ≡ kept self.old.before) }
    {
        self.places.take_back();
        self.queue.take_back()
    }
}

// The handles of tasks.
impl Tasks {
    /// Returns the task, if its handle is kept.
    fn kept(&self, t: u64) -> Result<Task, TaskError>
        ensures { found_task result ≡ join.kept_task self.now.now t }
    {
        if !self.places.is_issued(t) {
            return Err(TaskError::NoTask);
        }
        match self.places.get(t) {
            None => Err(TaskError::NoHandle),
            Some(task) => {
                if task.is_kept {
                    Ok(task)
                } else {
                    Err(TaskError::NoHandle)
                }
            }
        }
    }

    /// Returns whether a task has finished, for its handle.
    pub fn finished(&self, t: u64) -> Reply
        ensures { result ≡ finished_reply (join.finished_answer self.now.now t) }
    {
        match self.kept(t) {
            Err(error) => Reply::Refused(refusal_of(error)),
            Ok(task) => match task.phase {
                Phase::Done(_) | Phase::Taken => Reply::Yes,
                Phase::Idle | Phase::Queued | Phase::Running(_) => Reply::No,
            },
        }
    }

    /// Drops the handle of a task.
    pub fn drop_join(&mut self, t: u64) -> Result<Reply, AllocError>
        ensures reply { IfOk result (λ r. r ≡ drop_reply (join.drop_answer self.old.now t)) }
        ensures tasks { OnOk result (self.new ≡ changed self.old (join.join_dropped self.old.now t)) }
    {
        match self.kept(t) {
            Err(error) => Ok(Reply::Refused(refusal_of(error))),
            Ok(task) => match task.phase {
                Phase::Done(output) => {
                    self.remove(t)?;
                    Ok(Reply::Dropped(Some(output)))
                }
                Phase::Taken => {
                    self.remove(t)?;
                    Ok(Reply::Dropped(None))
                }
                Phase::Idle | Phase::Queued | Phase::Running(_) => {
                    self.set(
                        t,
                        Task {
                            phase: task.phase,
                            is_kept: false,
                            waiter: None,
                        },
                    )?;
                    Ok(Reply::Dropped(None))
                }
            },
        }
    }

    /// Polls the handle of a task for another task.
    pub fn join(&mut self, t: u64, by: u64) -> Result<Reply, AllocError>
        ensures reply { IfOk result (λ r. r ≡ join_reply (join.join_answer self.old.now t)) }
        ensures tasks { OnOk result (self.new ≡ changed self.old (join.joined self.old.now t by)) }
    {
        match self.kept(t) {
            Err(error) => Ok(Reply::Refused(refusal_of(error))),
            Ok(task) => match task.phase {
                Phase::Taken => Ok(Reply::Refused(Refusal::Taken)),
                Phase::Done(output) => {
                    self.set(
                        t,
                        Task {
                            phase: Phase::Taken,
                            is_kept: true,
                            waiter: None,
                        },
                    )?;
                    Ok(Reply::Output(output))
                }
                Phase::Idle | Phase::Queued | Phase::Running(_) => {
                    self.set(
                        t,
                        Task {
                            phase: task.phase,
                            is_kept: true,
                            waiter: Some(by),
                        },
                    )?;
                    Ok(Reply::Pending)
                }
            },
        }
    }
}
