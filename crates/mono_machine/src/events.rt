// The inputs of the machine, and its answers.
use crate::{Ended, List, Woke};

/// A call by itself or in a turn.
///
/// Tasks, jobs and sleeps have numbers, which count from 0 and are never given twice. A task or a job has a handle,
/// which is kept until it is dropped. If several refusals are named, the first that holds is the answer.
#[derive(Clone, Copy, Debug, PartialEq, Eq)]
pub enum Act {
    /// Makes a task at the queue's back. Refused as `AtCapacity`.
    Spawn,
    /// Wakes a task. Refused as `NoTask`.
    Wake(u64),
    /// Makes a sleep until a deadline, in nanoseconds from the clock's zero. It is not armed yet. Refused as
    /// `AtCapacity`, then as `Invalid`.
    NewSleep(u128),
    /// Arms a sleep at another deadline, in nanoseconds from the clock's zero. If the tick of that deadline has come,
    /// the sleep has elapsed and its waker is woken; otherwise it keeps its waker. Refused as `NoTimer`, then as
    /// `Invalid`.
    Reset(u64, u128),
    /// Drops a sleep, which wakes no task. Refused as `NoTimer`.
    DropSleep(u64),
    /// Asks whether a sleep has elapsed. Refused as `NoTimer`.
    SleepElapsed(u64),
    /// Drops the handle of a task. A finished task is removed, and an output that was not taken comes back. Any other
    /// task runs on, and no task waits for it. Refused as `NoTask`, then as `NoHandle`.
    DropJoin(u64),
    /// Makes a blocking job whose output will have this number. Refused as `AtCapacity`, then as `NoPool`.
    Block(u64),
    /// Drops the handle of a job, which is removed. An output that was not taken comes back. Refused as `NoTask`, then
    /// as `NoHandle`.
    DropJob(u64),
    /// Asks whether a task has finished. Refused as `NoTask`, then as `NoHandle`.
    Finished(u64),
    /// Asks whether a job has ended. Refused as `NoTask`, then as `NoHandle`.
    JobFinished(u64),
    /// Ends a job. The answer names its waiter, which waits no longer and is not woken. Refused as `NoTask`, then as
    /// `Ended`. The end of a job whose handle was dropped changes nothing.
    JobEnd(u64, How),
}

/// How a job ended.
#[derive(Clone, Copy, Debug, PartialEq, Eq)]
pub enum How {
    /// It ran, and its output is there.
    Ran,
    /// It was canceled, and has no output.
    Canceled,
}

/// A poll, by the task whose turn it is.
#[derive(Clone, Copy, Debug, PartialEq, Eq)]
pub enum Query {
    /// Polls a sleep. A poll arms a sleep that was never polled. Refused as `NoTimer`.
    Sleep(u64),
    /// Polls for the output of a task. Refused as `NoTask`, then as `NoHandle`, then as `Taken`.
    Join(u64),
    /// Polls for the output of a job. Refused as `NoTask`, then as `NoHandle`, then as `Taken`.
    Job(u64),
}

/// One step of a turn.
#[derive(Clone, Copy, Debug, PartialEq, Eq)]
pub enum TurnStep {
    /// A call.
    Act(Act),
    /// A poll.
    Query(Query),
}

/// The answer of the task at the end of its turn.
#[derive(Clone, Copy, Debug, PartialEq, Eq)]
pub enum End {
    /// It waits for a wake.
    Pending,
    /// It has finished with this output.
    Ready(u64),
}

/// One event, which the machine answers by one report.
#[derive(Drop)]
pub enum Event {
    /// A call by itself.
    Act(Act),
    /// A turn of the task at the queue's front: its steps in order, and its end. Refused as `Idle`.
    Turn(List<TurnStep>, End),
    /// The clock shows this number of nanoseconds from its zero. Refused as `Invalid`.
    Clock(u128),
    /// Another thread wakes a task, which then waits in the inbox. Refused as `NoTask`.
    Remote(u64),
    /// Wakes each task in the inbox, in order.
    Drain,
}

/// The reason why an act, a poll or an event was refused. A refusal changes nothing.
#[derive(Clone, Copy, Debug, PartialEq, Eq)]
pub enum Refusal {
    /// No task is queued.
    Idle,
    /// No task or job was ever given this number.
    NoTask,
    /// No sleep was ever given this number, or the sleep was dropped.
    NoTimer,
    /// The handle of the task or the job was dropped.
    NoHandle,
    /// The output of the task or the job was taken, or a poll has already reported that the job has none.
    Taken,
    /// The tasks, jobs or sleeps are at their limit, or their numbers are used up: the next is 2^64 - 1.
    AtCapacity,
    /// A deadline or a clock value is above `MAX_NANOS`.
    Invalid,
    /// No blocking job may be made here.
    NoPool,
    /// The job has already ended.
    Ended,
}

/// The answer to an act or a poll.
#[derive(Clone, Copy, Debug, PartialEq, Eq)]
pub enum Reply {
    /// The task with this number was made.
    Task(u64),
    /// The task was woken.
    Woke(Woke),
    /// The sleep with this number was made.
    Sleep(u64),
    /// The sleep that was reset is armed.
    Armed,
    /// The sleep that was reset has elapsed at once.
    Elapsed,
    /// The handle or the sleep was dropped. An output that was not taken comes back.
    Dropped(Option<u64>),
    /// The job with this number was made.
    Job(u64),
    /// The task has finished, the job has ended, or the sleep has elapsed.
    Yes,
    /// It has not.
    No,
    /// The job has ended, and this task waited for it.
    Ended(Option<u64>),
    /// The sleep is armed, or the output is to come. The task that polled is the one to be woken.
    Pending,
    /// The sleep has elapsed.
    Ready,
    /// The output of the task or the job.
    Output(u64),
    /// The job was canceled.
    Canceled,
    /// The act or the poll was refused.
    Refused(Refusal),
}

/// The answer to an event.
#[derive(Drop)]
pub enum Report {
    /// The answer to an act, or the refusal of an event.
    Reply(Reply),
    /// The task with this number had its turn: the answers to its steps in order, and how the turn ended.
    Turn(u64, List<Reply>, Ended),
    /// The sleeps that were due at this clock step, in the order in which they fired.
    Fired(List<u64>),
    /// The task that another thread woke waits in the inbox, last.
    Listed,
    /// The task that another thread woke has finished or already waits in the inbox.
    Unlisted,
    /// The tasks that waited in the inbox, in order. Each was woken.
    Drained(List<u64>),
}

/// How many tasks, jobs and sleeps may exist at a time.
#[derive(Clone, Copy, Debug, PartialEq, Eq)]
pub struct Limits {
    /// Tasks that are unfinished or whose handle is kept.
    pub tasks: u64,
    /// Jobs whose handle is kept.
    pub jobs: u64,
    /// Sleeps that were not dropped.
    pub sleeps: u64,
}

/// The place where a blocking job runs.
#[derive(Clone, Copy, Debug, PartialEq, Eq)]
pub enum Blocking {
    /// On a thread of the pool.
    Attached,
    /// On the caller, in the call that makes it.
    ExecuteLocal,
    /// Nowhere: it is refused.
    Panic,
}
