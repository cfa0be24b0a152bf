// The acquires that wait for their locks, and the ends of their waits.
ghost use Rattle.std.specs.Prelude.{◌≡◌, ◌≤◌, ◌+◌, ◌++◌, vec_len, vec_capacity};
ghost use Rattle.lease_core.specs.Waits.{input_end, end_reply};

use crate::requests::{Outcome, Reply};

/// An acquire that waits until its session holds the lock of its key.
#[derive(Clone, Copy, Debug, PartialEq, Eq, Drop)]
pub struct Waiter {
    /// The request's number.
    pub number: u64,
    /// The session.
    pub session: u64,
    /// The key.
    pub key: u64,
    /// The core's tick when the request came.
    pub arrived: u64,
}

/// Returns the end of a wait when the input ends.
pub fn input_end(_waiter: &Waiter) -> Option<Outcome>
    ensures { result ≡ input_end _waiter.now }
{
    Some(Outcome::Ended)
}

/// Appends the reply of a wait that has ended. There is room for it.
pub fn put_end(waiter: &Waiter, end: Option<Outcome>, tick: u64, replies: &mut Vec<Reply>)
    requires { vec_len replies.old + 1 ≤ vec_capacity replies.old }
    ensures items { replies.new.items ≡ replies.old.items ++ end_reply tick waiter.now end }
    ensures len { vec_len replies.new ≤ vec_len replies.old + 1 }
    ensures capacity { vec_capacity replies.new ≡ vec_capacity replies.old }
{
    if let Some(outcome) = end {
        replies.push_reserved(Reply {
            number: waiter.number,
            arrived: waiter.arrived,
            tick,
            outcome,
        });
    }
}
