//! Definitions and types of ticks, tasks, sleeps, jobs and the inbox, which the crates of the executor share.
#![tactic(auto)]

mod error;
mod histories;
mod host;
pub mod laws;
mod poll;
mod random;
mod task_error;

pub use error::{Error, SleepError};
pub use histories::{History, Tells};
pub use host::Host;
pub use poll::Poll;
pub use random::FastRand;
pub use task_error::TaskError;

/// The effect of a wake.
#[derive(Clone, Copy, Debug, PartialEq, Eq)]
pub enum Woke {
    /// The task was idle, and now is at the queue's back.
    Queued,
    /// The task is running, and runs again after its turn.
    Noted,
    /// The task was already queued, or has finished.
    Nothing,
}

/// How a turn ended.
#[derive(Clone, Copy, Debug, PartialEq, Eq)]
pub enum Ended {
    /// The task waits for a wake.
    Idle,
    /// The task was woken during its turn, and is queued again.
    Again,
    /// The task has finished, and its output is kept for its handle.
    Done,
    /// The task has finished without a handle, and its output was dropped.
    Gone,
}

/// The greatest number of nanoseconds that a clock or a deadline may have: the tick 2^63 - 1, in nanoseconds.
pub const MAX_NANOS: u128 = 9223372036854775807000000;
