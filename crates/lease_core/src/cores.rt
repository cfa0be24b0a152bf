// One core: its services, and the replies of its last step.
ghost use Rattle.std.specs.Prelude.{◌≡◌, ◌<◌, None, length, vec_capacity};
ghost use Rattle.mono_actor.specs.Callers.{actors_of};
ghost use Rattle.lease_core.specs.Waiting.{waits_of};

use crate::requests::{Outcome, Reply};
use crate::waits::Waits;
use mono_actor::Actors;
use mono_limit::Limiter;
use mono_session::Sessions;

/// The leases, the buckets and the mailboxes of one core, and the acquires that wait for their locks.
///
/// Each call performs one step and replaces the list of replies. There is always room for a reply to each waiter and to
/// one more request. So no reply is lost if it is out of memory, and a close, a release, a clock step and the end of the
/// input need no memory for replies.
#[derive(Drop)]
pub struct Core {
    pub(crate) sessions: Sessions,
    pub(crate) limiter: Limiter,
    pub(crate) actors: Actors<u64>,
    // The acquires that wait, in the order in which they came.
    pub(crate) waiting: Waits,
    // The replies of the last step.
    pub(crate) replies: Vec<Reply>,
    // The sessions that the last clock step closed.
    pub(crate) closed: Vec<u64>,
    // Each of them with each key whose queue it left.
    pub(crate) left: Vec<(u64, u64)>,
    // The retries that are due in a clock step: none, since a core makes none.
    pub(crate) due: Vec<u64>,
    // The greatest tick of the clock so far.
    pub(crate) tick: u64,
    pub ghost room: { length (waits_of waiting) < vec_capacity replies },
    // No turn runs between calls.
    pub ghost rests: { (actors_of actors).turn ≡ None },
}

impl Core {
    /// Returns the replies of the last step, in the order in which they were made.
    pub fn replies(&self) -> &[Reply]
        ensures { result.now ≡ self.now.replies.items }
    {
        self.replies.as_slice()
    }

    /// Returns the greatest tick of the clock so far, in milliseconds.
    pub fn tick(&self) -> u64
        ensures { result ≡ self.now.tick }
    {
        self.tick
    }

    /// Returns how many acquires wait for their locks.
    pub fn waiting(&self) -> usize
        ensures { result ≡ length (waits_of self.now.waiting) }
    {
        self.waiting.len()
    }

    // Returns the reply to a request that is answered as it comes.
    pub(crate) fn at_once(&self, number: u64, outcome: Outcome) -> Reply
        ensures { result ≡ record { number = number; arrived = self.now.tick; tick = self.now.tick; outcome = outcome } }
    {
        Reply {
            number,
            arrived: self.tick,
            tick: self.tick,
            outcome,
        }
    }
}
