// Why a call on a task was refused.
use thiserror::Error;

/// The reason why a call on a task was refused.
///
/// If several causes hold, the first in this order counts.
#[derive(Clone, Copy, Debug, PartialEq, Eq, Error)]
pub enum TaskError {
    /// No task is queued.
    #[error("no task is queued")]
    Idle,
    /// The task's number was never given out.
    #[error("there is no task of this number")]
    NoTask,
    /// The task's handle was dropped.
    #[error("the handle of the task was dropped")]
    NoHandle,
    /// The task's output was already taken.
    #[error("the output of the task was taken already")]
    Taken,
}
