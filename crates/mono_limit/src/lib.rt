//! Buckets that fill with tokens tick by tick, and retries with exponential backoff.
#![tactic(auto)]

mod advances;
mod attempts;
mod buckets;
pub mod laws;
mod limiter;
mod retries;
mod rounds;
mod rows;
mod schedules;

pub use attempts::{Retry, RetryRefused};
pub use limiter::Limiter;
use mono_model::Error;
pub use rows::{either_order, fills, gives_up, one_order};

/// Why a call on the limiter was refused. A refused call changed nothing.
///
/// If several causes hold, the first in this order counts, except that `Memory` comes last.
#[derive(Clone, Copy, Debug, PartialEq, Eq)]
pub enum LimitError {
    /// An allocation failed.
    Memory,
    /// There is no place for a further bucket or retry.
    AtCapacity,
    /// The retry would wait for a tick above 2^63 - 1.
    Invalid,
    /// The burst or the period is 0, or 2^32 or more.
    BadBucket,
    /// The bucket never has this number of tokens.
    TooMany,
    /// The retry waits.
    Waiting,
    /// The base is 0, the cap is below it, or the number of attempts is 0, or 2^32 or more.
    BadRetry,
    /// No bucket has this number.
    NoBucket,
    /// No retry has this number.
    NoRetry,
}

/// A bucket's answer to a take.
#[derive(Clone, Copy, Debug, PartialEq, Eq)]
pub enum Take {
    /// The tokens were taken.
    Granted,
    /// The bucket has too few tokens. It has them at this tick, if no call takes any until then.
    Short(u128),
}

/// The result of a failure.
#[derive(Clone, Copy, Debug, PartialEq, Eq)]
pub enum Next {
    /// A further attempt, at this tick.
    Again(u64),
    /// No further attempt. The retry was removed.
    GaveUp,
}

/// Why a retry gave no value.
#[derive(Clone, Copy, Debug, PartialEq, Eq)]
pub enum RetryError<E> {
    /// The last attempt failed.
    Last(E),
    /// An attempt failed, and the next one would be past the last instant.
    Far(E),
    /// The sleep between two attempts was refused.
    Timer(Error),
}
