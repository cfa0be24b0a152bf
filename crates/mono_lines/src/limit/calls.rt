// The calls that lines make on a limiter.

/// A call on a limiter, written as a line.
#[derive(Clone, Copy, Debug, PartialEq, Eq)]
pub enum LimiterCall {
    /// `bucket B P`: adds a bucket of this burst and period.
    Bucket(u64, u64),
    /// `take I K`: takes K tokens from this bucket.
    Take(u64, u64),
    /// `retry B C M`: adds a retry of this base and cap, and at most M attempts.
    Retry(u64, u64, u64),
    /// `fail I`: an attempt of this retry has failed.
    Fail(u64),
    /// `done I`: this retry has ended.
    Done(u64),
    /// `clock N`: the clock shows N nanoseconds.
    Clock(u128),
}
