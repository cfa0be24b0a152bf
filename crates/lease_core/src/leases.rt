// The requests on the leases.
ghost use Rattle.std.specs.Prelude.{◌≡◌, ◌≤◌, ◌<◌, ◌+◌, ℕ, [], OnOk, length, vec_len, vec_capacity};
ghost use Rattle.mono_session.specs.Keeper.{Keeper};
ghost use Rattle.mono_session.specs.Refinement.{StandsFor};
ghost use Rattle.lease_core.specs.Waiting.{waits_of};
ghost use Rattle.lease_core.specs.Refinement.{LeavesQueues, Performs};
ghost use Rattle.lease_core.specs.declared.requests.Call.TheVariants as call;

use crate::cores::Core;
use crate::ends::Waiter;
use crate::requests::Outcome;
use crate::tells::{of_beat, of_open};
use mono_session::SessionError;
use std::alloc::{AllocError, Global};

impl Core {
    // Opens a session.
    pub(crate) fn open(&mut self, alloc: Global, number: u64, limit: u64)
        requires { self.old.replies.items ≡ [] }
        ensures { (key : ℕ) → Performs self.old number key (call.Open limit) self.new }
    {
        let told = self.sessions.open(alloc, limit);
        let reply = self.at_once(number, of_open(told));
        self.replies.push_reserved(reply);
    }

    // Renews a session.
    pub(crate) fn beat(&mut self, number: u64, session: u64)
        requires { self.old.replies.items ≡ [] }
        ensures { (key : ℕ) → Performs self.old number key (call.Beat session) self.new }
    {
        let told = self.sessions.beat(session);
        let reply = self.at_once(number, of_beat(told));
        self.replies.push_reserved(reply);
    }

    // Closes a session, and replies to those whose waits end. It looks at the session's own keys alone.
    pub(crate) fn close(&mut self, number: u64, session: u64)
        requires { self.old.replies.items ≡ [] }
        ensures { (key : ℕ) → Performs self.old number key (call.Close session) self.new }
    {
        if !self.sessions.is_open(session) {
            let reply = self.at_once(number, Outcome::LeaseRefused(SessionError::NoSession));
            self.replies.push_reserved(reply);
            return;
        }
        let reply = self.at_once(number, Outcome::Done);
        self.replies.push_reserved(reply);
        self.leave_queues(session);
        let _ = self.sessions.close(session);
    }

    // Removes a session from all queues, the one that it entered first before the others, and replies to those whose
    // waits end. There is room for a reply to each wait.
    fn leave_queues(&mut self, session: u64)
        requires { vec_len self.old.replies + length (waits_of self.old.waiting) ≤ vec_capacity self.old.replies }
        ensures frees { (k : Keeper) → StandsFor self.old.sessions k → LeavesQueues self.old k session self.new }
        ensures same { (self.new.limiter ≡ self.old.limiter) × (self.new.actors ≡ self.old.actors) × (self.new.tick ≡ self.old.tick) }
    {
        while let Some(key) = self.sessions.release_first(session) {
            let holder = self.sessions.owner(key);
            self.waiting.end_left(
                session,
                key,
                holder,
                Outcome::Closed,
                self.tick,
                &mut self.replies,
            );
        }
    }

    // Reserves room for the reply of one more waiter.
    fn make_room(&mut self) -> Result<(), AllocError>
        requires { self.old.replies.items ≡ [] }
        ensures room { OnOk result (length (waits_of self.new.waiting) + 1 < vec_capacity self.new.replies) }
        ensures same { (self.new.sessions ≡ self.old.sessions) × (self.new.limiter ≡ self.old.limiter) × (self.new.actors ≡ self.old.actors) × (self.new.tick ≡ self.old.tick) }
        ensures items { (waits_of self.new.waiting ≡ waits_of self.old.waiting) × (self.new.replies.items ≡ []) }
    {
        self.replies.reserve(self.waiting.len() + 2)
    }

    // Appends a session to the queue of a key. If it does not hold the lock at once, the request waits.
    pub(crate) fn acquire(&mut self, alloc: Global, number: u64, key: u64, session: u64)
        requires { self.old.replies.items ≡ [] }
        ensures { Performs self.old number key (call.Acquire session) self.new }
    {
        match self.make_room() {
            Ok(()) => self.enter(alloc, number, key, session),
            Err(_) => {
                let reply = self.at_once(number, Outcome::LeaseRefused(SessionError::Memory));
                self.replies.push_reserved(reply);
            }
        }
    }

    // Appends a session to the queue of a key. There is room for the reply of one more waiter.
    fn enter(&mut self, alloc: Global, number: u64, key: u64, session: u64)
        requires none { self.old.replies.items ≡ [] }
        requires room { length (waits_of self.old.waiting) + 1 < vec_capacity self.old.replies }
        ensures { Performs self.old number key (call.Acquire session) self.new }
    {
        match self.sessions.acquire(alloc, session, key) {
            Err(error) => {
                let reply = self.at_once(number, Outcome::LeaseRefused(error));
                self.replies.push_reserved(reply);
            }
            Ok(true) => {
                let reply = self.at_once(number, Outcome::Held);
                self.replies.push_reserved(reply);
            }
            Ok(false) => {
                let waiter = Waiter {
                    number,
                    session,
                    key,
                    arrived: self.tick,
                };
                if self.waiting.push(waiter).is_err() {
                    let _ = self.sessions.release(session, key);
                    let reply = self.at_once(number, Outcome::LeaseRefused(SessionError::Memory));
                    self.replies.push_reserved(reply);
                }
            }
        }
    }

    // Removes a session from the queue of a key, and replies to those whose waits end.
    pub(crate) fn release(&mut self, number: u64, key: u64, session: u64)
        requires { self.old.replies.items ≡ [] }
        ensures { Performs self.old number key (call.Release session) self.new }
    {
        match self.sessions.release(session, key) {
            Err(error) => {
                let reply = self.at_once(number, Outcome::LeaseRefused(error));
                self.replies.push_reserved(reply);
            }
            Ok(()) => {
                let reply = self.at_once(number, Outcome::Done);
                self.replies.push_reserved(reply);
                let holder = self.sessions.owner(key);
                self.waiting.end_left(
                    session,
                    key,
                    holder,
                    Outcome::Left,
                    self.tick,
                    &mut self.replies,
                );
            }
        }
    }
}
