// The numbers of the lines, and the ways of their requests and refusals.
ghost use Rattle.std.specs.Prelude.{◌≡◌, ◌+◌, ◌++◌, ◌∷◌, [], true, List, map, Option, None, Some, IfErr, IfOk, OnOk, OnErr};
ghost use Rattle.mono_channel.specs.Delivery.{shares_kept, shares_given};
ghost use Rattle.mono_channel.specs.Ends.{sent_by, shares_of, closed, IsPair};
ghost use Rattle.lease_core.specs.declared.requests.Request.{Request};
ghost use Rattle.lease_server.specs.declared.lanes.Lane.{Lane};
ghost use Rattle.lease_server.specs.Lanes.{given, sent_over};
ghost use Rattle.lease_server.specs.Dispatch.{AreRouted, HaveSameWays, HasRoom, Holds, HasSentAll, KeepsWays};

use crate::lanes::Lane;
use crate::refusals::Refusals;
use crate::texts::Text;
use lease_core::{Request, core_of};
use mono_channel::Sender;
use mono_rt::{Host, RemoteWaker, UnparkHandle};
use std::alloc::{AllocError, Global};

/// The lanes to the cores, the refusals, and the number of the last line.
#[derive(Drop)]
pub struct Dispatcher {
    lanes: Vec<Lane>,
    refusals: Refusals,
    last: u64,
}

// Sends all requests that the lanes were given. Returns whether all were sent.
fn flush_all<R: Host>(
    lanes: &mut [Lane],
    rt: &R,
    alloc: Global,
    waker: &RemoteWaker<UnparkHandle>,
) -> Result<bool, AllocError>
    ensures ways { HaveSameWays lanes.old lanes.new }
    ensures given { map given lanes.new ≡ map given lanes.old }
    ensures sent { IfOk result (λ is_sent. is_sent ≡ true → map sent_over lanes.new ≡ map given lanes.new) }
{
    for lane in lanes.iter_mut() {
        if !lane.flush(rt, alloc, waker)? {
            return Ok(false);
        }
    }
    Ok(true)
}

// Closes the channels of the lanes.
fn close_all<R: Host>(lanes: &mut [Lane], rt: &R)
    ensures { lanes.new ≡ lanes.old }
{
    for lane in lanes.iter_mut() {
        lane.close(rt);
    }
}

// Returns whether each lane has sent all requests that it was given.
fn have_sent_all(lanes: &[Lane]) -> bool
    ensures { result ≡ true → map sent_over lanes.now ≡ map given lanes.now }
{
    for lane in lanes {
        if !lane.has_sent_all() {
            return false;
        }
    }
    true
}

// Gives the lane of its core a request. It fails if out of memory, or without a lane: then each lane was given the same.
#[inline(always)]
fn route(lanes: &mut [Lane], request: Request) -> Result<(), AllocError>
    ensures ways { HaveSameWays lanes.old lanes.new }
    ensures ok { OnOk result ((asked : List (Option Request)) → AreRouted asked lanes.old → AreRouted (asked ++ Some request ∷ []) lanes.new) }
    ensures err { OnErr result (map given lanes.new ≡ map given lanes.old) }
{
    if lanes.len() == 0 {
        return Err(AllocError);
    }
    let core = core_of(request.key, lanes.len() as u64) as usize;
    lanes[core].take(request)
}

impl Dispatcher {
    /// Returns a dispatcher that refuses over this channel, without a core.
    pub fn new(alloc: Global, texts: Sender<Text, UnparkHandle>) -> Dispatcher
        ensures holds { sent_by texts ≡ [] → Holds [] result }
        ensures lanes { result.lanes.items ≡ [] }
        ensures texts { result.refusals.outlet.sender ≡ closed texts }
    {
        Dispatcher {
            lanes: Vec::new(alloc),
            refusals: Refusals::new(alloc, texts),
            last: 0,
        }
    }

    /// Makes room for one more lane. It fails if out of memory.
    pub fn reserve(&mut self) -> Result<(), AllocError>
        ensures room { OnOk result (HasRoom self.new) }
        ensures holds { (asked : List (Option Request)) → Holds asked self.old → Holds asked self.new }
        ensures lanes { self.new.lanes.items ≡ self.old.lanes.items }
        ensures refusals { self.new.refusals ≡ self.old.refusals }
    {
        self.lanes.reserve(1)
    }

    /// Returns a further sender of the channel of the texts. Fails only if the count of owners cannot grow.
    pub fn texts<R: Host>(&mut self, rt: &R) -> Result<Sender<Text, UnparkHandle>, AllocError>
        ensures room { HasRoom self.old → HasRoom self.new }
        ensures holds { (asked : List (Option Request)) → Holds asked self.old → Holds asked self.new }
        ensures lanes { self.new.lanes.items ≡ self.old.lanes.items }
        ensures same { IsPair self.new.refusals.outlet.sender self.old.refusals.outlet.sender }
        ensures further { IfOk result (λ sender. IsPair sender self.old.refusals.outlet.sender × (sent_by sender ≡ [])) }
        ensures shares { IfOk result (λ sender. (shares_of self.new.refusals.outlet.sender
            ≡ shares_kept (shares_of self.old.refusals.outlet.sender))
            × (shares_of sender ≡ shares_given (shares_of self.old.refusals.outlet.sender))) }
        ensures none { IfErr result (λ e. shares_of self.new.refusals.outlet.sender ≡ shares_of self.old.refusals.outlet.sender) }
    {
        self.refusals.try_clone(rt)
    }

    /// Adds the lane of the next core, over this channel.
    pub fn add(&mut self, alloc: Global, sender: Sender<Vec<Request>, UnparkHandle>)
        requires { HasRoom self.old }
        ensures holds { sent_by sender ≡ [] → Holds [] self.old → Holds [] self.new }
        ensures lane { (lane : Lane) × (lane.outlet.sender ≡ closed sender) × (self.new.lanes.items ≡ self.old.lanes.items ++ lane ∷ []) }
        ensures refusals { self.new.refusals ≡ self.old.refusals }
    {
        self.lanes.push_reserved(Lane::new(alloc, sender));
    }

    /// Closes all channels. The cores and the writer learn it.
    pub fn close<R: Host>(&mut self, rt: &R)
        ensures lanes { self.new.lanes.items ≡ self.old.lanes.items }
        ensures refusals { self.new.refusals ≡ self.old.refusals }
        ensures last { self.new.last ≡ self.old.last }
    {
        close_all(&mut self.lanes, rt);
        self.refusals.close(rt);
    }

    /// Returns whether all that was given was sent.
    pub fn has_sent_all(&self) -> bool
        ensures { result ≡ true → HasSentAll self.now }
    {
        have_sent_all(&self.lanes) && self.refusals.has_sent_all()
    }

    /// Returns the lanes and the refusals.
    pub fn into_parts(self) -> (Vec<Lane>, Refusals)
        ensures { (result.0 ≡ self.lanes) × (result.1 ≡ self.refusals) }
    {
        let Dispatcher {
            lanes,
            refusals,
            last: _,
        } = self;
        (lanes, refusals)
    }

    /// Returns the number of the next line. It fails if no number is left.
    #[inline(always)]
    pub fn next(&self) -> Result<u64, AllocError>
        ensures { IfOk result (λ number. number ≡ self.now.last + 1) }
    {
        self.last.checked_add(1).ok_or(AllocError)
    }

    /// Takes the next line: gives its request to the lane of its core, or refuses it if it asks nothing.
    ///
    /// If out of memory, or without a core, nothing was given.
    #[inline(always)]
    pub fn take(&mut self, number: u64, found: Option<Request>) -> Result<(), AllocError>
        requires { number ≡ self.old.last + 1 }
        ensures ways { KeepsWays self.old self.new }
        ensures ok { OnOk result ((asked : List (Option Request)) → Holds asked self.old → Holds (asked ++ found ∷ []) self.new) }
        ensures err { OnErr result ((asked : List (Option Request)) → Holds asked self.old → Holds asked self.new) }
    {
        match found {
            None => self.refuse(number),
            Some(request) => self.give(number, request),
        }
    }

    // Refuses the next line.
    fn refuse(&mut self, number: u64) -> Result<(), AllocError>
        requires { number ≡ self.old.last + 1 }
        ensures ways { KeepsWays self.old self.new }
        ensures ok { OnOk result ((asked : List (Option Request)) → Holds asked self.old → Holds (asked ++ None ∷ []) self.new) }
        ensures err { OnErr result ((asked : List (Option Request)) → Holds asked self.old → Holds asked self.new) }
    {
        self.refusals.take(number)?;
        self.last = number;
        Ok(())
    }

    // Gives the request of the next line to the lane of its core.
    #[inline(always)]
    fn give(&mut self, number: u64, request: Request) -> Result<(), AllocError>
        requires { number ≡ self.old.last + 1 }
        ensures ways { KeepsWays self.old self.new }
        ensures ok { OnOk result ((asked : List (Option Request)) → Holds asked self.old → Holds (asked ++ Some request ∷ []) self.new) }
        ensures err { OnErr result ((asked : List (Option Request)) → Holds asked self.old → Holds asked self.new) }
    {
        route(&mut self.lanes, request)?;
        self.last = number;
        Ok(())
    }

    /// Sends all that was given. Returns whether all was sent: if not, this waker's task is woken when a channel has
    /// room. What was given stays in each case (`holds`).
    pub fn flush<R: Host>(
        &mut self,
        rt: &R,
        alloc: Global,
        waker: &RemoteWaker<UnparkHandle>,
    ) -> Result<bool, AllocError>
        ensures ways { KeepsWays self.old self.new }
        ensures holds { (asked : List (Option Request)) → Holds asked self.old → Holds asked self.new }
        ensures sent { IfOk result (λ is_sent. is_sent ≡ true → HasSentAll self.new) }
    {
        if !flush_all(&mut self.lanes, rt, alloc, waker)? {
            return Ok(false);
        }
        self.refusals.flush(rt, alloc, waker)
    }
}
