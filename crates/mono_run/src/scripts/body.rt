// The lines of a script.

/// A line of a kind's body. Tasks and jobs are numbered by their place among those that the kind made, from 0.
#[derive(Clone, Copy, Debug, PartialEq, Eq)]
pub enum BodyLine {
    /// Makes a task of this kind.
    Spawn(u64),
    /// Waits for the output of an own task, and drops its handle.
    Join(u64),
    /// Drops the handle of an own task.
    Detach(u64),
    /// Makes a sleep of this many nanoseconds, waits for it, and drops it.
    AwaitSleep(u64),
    /// Makes a blocking job with this output.
    Block(u64),
    /// Waits for an own job, and drops its handle.
    AwaitJob(u64),
    /// Drops the handle of an own job.
    DropJob(u64),
    /// Wakes the task itself and ends the turn.
    Yield,
}
