// The making of a core, and each of its requests as one step.
ghost use Rattle.std.specs.Prelude.{◌≡◌, [], IfOk};
ghost use Rattle.lease_core.specs.Cores.{new_core};
ghost use Rattle.lease_core.specs.Refinement.{Refines, Performs};

use crate::cores::Core;
use crate::requests::{Call, Request};
use crate::sizes::Sizes;
use crate::waits::Waits;
use mono_actor::Actors;
use mono_limit::Limiter;
use mono_session::Sessions;
use std::alloc::{AllocError, Global};

impl Core {
    /// Returns a core without sessions, buckets and actors, for at most these numbers of each. Its clock shows 0.
    pub fn new(alloc: Global, sizes: &Sizes) -> Result<Core, AllocError>
        ensures { IfOk result (λ core. Refines core (new_core sizes.now)) }
    {
        let sessions = Sessions::new(alloc, sizes.sessions, sizes.entries)?;
        let limiter = Limiter::new(alloc, sizes.buckets, 0)?;
        let actors = Actors::new(alloc, sizes.actors, sizes.messages)?;
        let waiting = Waits::new(alloc)?;
        let replies = Vec::with_capacity(alloc, 16)?;
        Ok(Core {
            sessions,
            limiter,
            actors,
            waiting,
            replies,
            closed: Vec::new(alloc),
            left: Vec::new(alloc),
            due: Vec::new(alloc),
            tick: 0,
        })
    }

    /// Performs a request at the greatest tick of the clock so far. The replies are the answer to the request, unless it
    /// is an acquire that waits, and the answers to the acquires whose waits it ended.
    ///
    /// A request that is out of memory is answered so, and changes nothing. Only `Open`, `Acquire`, `Try`, `Bucket`,
    /// `Spawn` and `Send` take memory.
    pub fn handle(&mut self, alloc: Global, request: &Request)
        ensures { Performs self.old request.now.number request.now.key request.now.call self.new }
    {
        self.replies.clear();
        self.perform(alloc, request.number, request.key, request.call);
    }

    // Performs a call of a request. There are no replies yet.
    fn perform(&mut self, alloc: Global, number: u64, key: u64, call: Call)
        requires { self.old.replies.items ≡ [] }
        ensures { Performs self.old number key call self.new }
    {
        match call {
            Call::Open(limit) => self.open(alloc, number, limit),
            Call::Beat(session) => self.beat(number, session),
            Call::Close(session) => self.close(number, session),
            Call::Acquire(session) => self.acquire(alloc, number, key, session),
            Call::Release(session) => self.release(number, key, session),
            Call::Try(session) => self.attempt(alloc, number, key, session),
            Call::Owner => self.owner(number, key),
            Call::Count => self.count(number),
            Call::Bucket(burst, period) => self.bucket(alloc, number, burst, period),
            Call::Take(bucket, n) => self.take(number, bucket, n),
            Call::Spawn => self.spawn(alloc, number),
            Call::Send(from, to, message) => self.send(number, from, to, message),
            Call::Receive => self.receive(number),
        }
    }
}
