// Why a call on sessions is refused.
ghost use Rattle.std.specs.Prelude.{◌≡◌};

use std::alloc::AllocError;
use thiserror::Error;

/// Why a call on the sessions was refused. A refused call changed nothing.
///
/// If several causes hold, the first in this order counts, except that `Memory` comes last.
#[derive(Clone, Copy, Debug, PartialEq, Eq, Error)]
pub enum SessionError {
    /// An allocation failed.
    #[error("out of memory")]
    Memory,
    /// There is no place for a further session, or for a further entry in a queue.
    #[error("no place for another session or entry")]
    AtCapacity,
    /// The session would be closed at a tick above 2^63 - 1.
    #[error("the session would be closed past the last tick")]
    Invalid,
    /// No open session has the number.
    #[error("there is no open session of this number")]
    NoSession,
    /// The limit of a new session is zero.
    #[error("a session cannot be open for no time")]
    ZeroLimit,
    /// The session is in the key's queue already.
    #[error("the session stands in the queue already")]
    Doubled,
    /// The session is not in the key's queue.
    #[error("the session does not stand in the queue")]
    NotIn,
}

impl From<AllocError> for SessionError {
    ghost from_gives = { λ _ e. e ≡ Why.Memory };

    ghost use Rattle.mono_session.specs.declared.error.SessionError.TheVariants as Why;

    fn from(_: AllocError) -> Self {
        SessionError::Memory
    }
}
