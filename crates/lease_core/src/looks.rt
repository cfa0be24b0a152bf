// The requests on the leases that leave no wait: a try, and questions.
ghost use Rattle.std.specs.Prelude.{◌≡◌, ℕ, [], IfSome};
ghost use Rattle.lease_core.specs.Cores.{CoreState};
ghost use Rattle.mono_session.specs.Expirations.{IsInTime, IsAhead};
ghost use Rattle.lease_core.specs.Refinement.{Refines, Performs};
ghost use Rattle.lease_core.specs.declared.requests.Call.TheVariants as call;

use crate::cores::Core;
use crate::requests::{Counts, Outcome};
use crate::tells::of_owner;
use std::alloc::Global;

impl Core {
    // Appends a session to the queue of a key, if it then holds the lock.
    pub(crate) fn attempt(&mut self, alloc: Global, number: u64, key: u64, session: u64)
        requires { self.old.replies.items ≡ [] }
        ensures { Performs self.old number key (call.Try session) self.new }
    {
        match self.sessions.acquire(alloc, session, key) {
            Err(error) => {
                let reply = self.at_once(number, Outcome::LeaseRefused(error));
                self.replies.push_reserved(reply);
            }
            Ok(true) => {
                let reply = self.at_once(number, Outcome::Held);
                self.replies.push_reserved(reply);
            }
            Ok(false) => {
                let _ = self.sessions.release(session, key);
                let reply = self.at_once(number, Outcome::Busy);
                self.replies.push_reserved(reply);
            }
        }
    }

    // Says which session holds the lock of a key.
    pub(crate) fn owner(&mut self, number: u64, key: u64)
        requires { self.old.replies.items ≡ [] }
        ensures { Performs self.old number key call.Owner self.new }
    {
        let told = self.sessions.owner(key);
        let reply = self.at_once(number, of_owner(told));
        self.replies.push_reserved(reply);
    }

    // Says how much there is.
    pub(crate) fn count(&mut self, number: u64)
        requires { self.old.replies.items ≡ [] }
        ensures { (key : ℕ) → Performs self.old number key call.Count self.new }
    {
        let counts = Counts {
            sessions: self.sessions.open_len() as u64,
            entries: self.sessions.entries_len() as u64,
            actors: self.actors.live() as u64,
            waiting: self.waiting.len() as u64,
        };
        let reply = self.at_once(number, Outcome::Counted(counts));
        self.replies.push_reserved(reply);
    }

    /// Returns the next tick at which the clock may close a session, in milliseconds. It is above the core's tick, and at
    /// most the tick at which the first open session closes. It is `None` if and only if no session is open.
    ///
    /// Before this tick a clock step closes no session, so it ends no wait. A core can sleep until then.
    pub fn next_close(&self) -> Option<u64>
        ensures in_time { (s : CoreState) → Refines self.now s → IsInTime s.keeper result }
        ensures ahead { (s : CoreState) → Refines self.now s → IfSome result (IsAhead s.keeper) }
    {
        self.sessions.next_expiration()
    }
}
