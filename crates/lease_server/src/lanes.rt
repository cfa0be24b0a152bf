// The way of requests to a core.
ghost use Rattle.std.specs.Prelude.{◌≡◌, ◌++◌, ◌∷◌, [], true, IfOk, OnOk, OnErr, None};
ghost use Rattle.mono_channel.specs.Ends.{sent_by, closed};
ghost use Rattle.lease_server.specs.Lanes.{given, sent_over};
ghost use Rattle.lease_server.specs.Outlets.{Stays};

use crate::outlets::Outlet;
use lease_core::Request;
use mono_channel::Sender;
use mono_rt::{Host, RemoteWaker, UnparkHandle};
use std::alloc::{AllocError, Global};
use std::mem;

/// The way to a core: the requests that were collected for it, and the channel to it.
#[derive(Drop)]
pub struct Lane {
    requests: Vec<Request>,
    outlet: Outlet<Vec<Request>>,
}

impl Lane {
    /// Returns a lane over this channel, with no request.
    pub fn new(alloc: Global, sender: Sender<Vec<Request>, UnparkHandle>) -> Lane
        ensures sender { result.outlet.sender ≡ closed sender }
        ensures given { sent_by sender ≡ [] → given result ≡ [] }
    {
        Lane {
            requests: Vec::new(alloc),
            outlet: Outlet::new(sender),
        }
    }

    /// Closes the channel.
    pub fn close<R: Host>(&mut self, rt: &R)
        ensures { self.new ≡ self.old }
    {
        self.outlet.close(rt);
    }

    /// Returns whether all requests that the lane was given were sent.
    pub fn has_sent_all(&self) -> bool
        ensures { result ≡ true → sent_over self.now ≡ given self.now }
    {
        self.requests.is_empty() && self.outlet.is_empty()
    }

    /// Returns the sender.
    pub fn into_sender(self) -> Sender<Vec<Request>, UnparkHandle>
        ensures { closed result ≡ self.outlet.sender }
    {
        let Lane {
            requests: _,
            outlet,
        } = self;
        outlet.into_sender()
    }

    /// Collects a request. If out of memory, the lane stays.
    #[inline(always)]
    pub fn take(&mut self, request: Request) -> Result<(), AllocError>
        ensures same { Stays self.old.outlet.sender self.new.outlet.sender }
        ensures ok { OnOk result (given self.new ≡ given self.old ++ request ∷ []) }
        ensures err { OnErr result (given self.new ≡ given self.old) }
    {
        self.requests.push(request)?;
        Ok(())
    }

    // Makes one message of the requests that were collected, if any.
    fn wrap(&mut self, alloc: Global)
        requires { self.old.outlet.message ≡ None }
        ensures same { Stays self.old.outlet.sender self.new.outlet.sender }
        ensures given { given self.new ≡ given self.old }
        ensures wrapped { self.new.requests.items ≡ [] }
    {
        if self.requests.len() > 0 {
            self.outlet
                .put(mem::replace(&mut self.requests, Vec::new(alloc)));
        }
    }

    /// Sends all requests that the lane was given. Returns whether all were sent: if not, the core wakes this waker's
    /// task when it takes a message. What the lane was given stays in each case (`given`).
    pub fn flush<R: Host>(
        &mut self,
        rt: &R,
        alloc: Global,
        waker: &RemoteWaker<UnparkHandle>,
    ) -> Result<bool, AllocError>
        ensures same { Stays self.old.outlet.sender self.new.outlet.sender }
        ensures given { given self.new ≡ given self.old }
        ensures sent { IfOk result (λ is_sent. is_sent ≡ true → sent_over self.new ≡ given self.new) }
    {
        if !self.outlet.flush(rt, waker)? {
            return Ok(false);
        }
        self.wrap(alloc);
        self.outlet.flush(rt, waker)
    }
}
