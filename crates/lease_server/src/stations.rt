// The shared value of a core's tasks: the desk, the ends of its channels, and the text that was not sent yet.
ghost use Rattle.std.specs.Prelude.{◌≡◌, ◌++◌, true, false, length, None, IfOk};
ghost use Rattle.mono_time.specs.Instants.{nanos_of};
ghost use Rattle.mono_channel.specs.Ends.{closed, sent_by, received_by};
ghost use Rattle.lease_core.specs.Cores.{CoreState};
ghost use Rattle.lease_core.specs.Refinement.{Refines};
ghost use Rattle.lease_core.specs.Waiting.{waits_of};
ghost use Rattle.mono_session.specs.Expirations.{IsInTime};
ghost use Rattle.lease_server.specs.declared.stations.Stage.TheVariants.{Open};
ghost use Rattle.lease_server.specs.Outlets.{Stays, passed};
ghost use Rattle.lease_server.specs.Stations.{Leads, leads_itself, leads_on, Works, Turns, IsDone, stage_of};
ghost use Rattle.lease_server.specs.Texts.{said_by, said_by_all};

use crate::batches::{Came, serve_at};
use crate::desks::Desk;
use crate::outlets::Outlet;
use crate::texts::Text;
use lease_core::Request;
use mono_channel::{Receiver, Sender};
use mono_rt::{Host, Instant, RemoteWaker, SharedState, UnparkHandle};
use std::alloc::{AllocError, Global};

/// What a core is to do.
#[derive(Clone, Copy, Drop)]
pub enum Stage {
    /// It performs what comes.
    Open,
    /// It performed the end of its input.
    Ended,
    /// Memory ran out in a step. The replies of that step are in no text.
    Lost,
}

/// The desk of a core, the end from which it takes requests, and the way of its texts.
#[derive(Drop)]
pub struct Station {
    pub(crate) desk: Desk,
    pub(crate) requests: Receiver<Vec<Request>, UnparkHandle>,
    pub(crate) texts: Outlet<Text>,
    pub(crate) stage: Stage,
}

/// The core did a run of its model, and the ends are those of the same channels. If the core had performed all that it
/// received, and its texts said all of its replies, the same holds afterwards, unless memory ran out.
impl SharedState for Station {
    ghost leads = { Leads };

    #[inline(always)]
    fn next_owed(&mut self) -> Option<u64> {
        None
    }

    ghost leads_itself = { leads_itself };

    ghost leads_on = { leads_on };

    ghost lists_some = { λ a p t is. is };
}

// Returns what a core is to do after this came.
fn stage_after(came: Came) -> Stage
    ensures { result ≡ stage_of came }
{
    match came {
        Came::Nothing => Stage::Open,
        Came::Requests => Stage::Open,
        Came::End => Stage::Ended,
    }
}

impl Station {
    /// Returns the station of this desk over these channels.
    pub fn new(
        desk: Desk,
        requests: Receiver<Vec<Request>, UnparkHandle>,
        texts: Sender<Text, UnparkHandle>,
    ) -> Station
        ensures desk { result.desk ≡ desk }
        ensures requests { result.requests ≡ requests }
        ensures texts { (result.texts.sender ≡ closed texts) × (passed result.texts ≡ sent_by texts) }
        ensures stage { result.stage ≡ Open }
    {
        Station {
            desk,
            requests,
            texts: Outlet::new(texts),
            stage: Stage::Open,
        }
    }

    /// Returns how many acquires wait for their locks.
    pub fn waiting(&self) -> usize
        ensures { result ≡ length (waits_of self.now.desk.core.waiting) }
    {
        self.desk.waiting()
    }

    /// Returns whether a text waits for a place in its channel.
    pub fn has_unsent(&self) -> bool
        ensures { result ≡ false → self.now.texts.message ≡ None }
    {
        !self.texts.is_empty()
    }

    /// Returns the next tick at which the clock may close a session, and so end a wait, as [`Desk::next_close`] does.
    pub fn next_close(&self) -> Option<u64>
        ensures { (s : CoreState) → Refines self.now.desk.core s → IsInTime s.keeper result }
    {
        self.desk.next_close()
    }

    // Returns whether the core performs what comes.
    fn is_open(&self) -> bool
        ensures { result ≡ true → self.now.stage ≡ Open }
    {
        match self.stage {
            Stage::Open => true,
            Stage::Ended => false,
            Stage::Lost => false,
        }
    }

    /// Returns whether the core performed the end of its input, and sent all of its texts.
    pub fn is_done(&self) -> bool
        ensures { result ≡ true → IsDone self.now }
    {
        match self.stage {
            Stage::Open => false,
            Stage::Ended => self.texts.is_empty(),
            Stage::Lost => false,
        }
    }

    // Sends the text that was not sent yet, if any. Returns whether none is left.
    fn flush<R: Host>(
        &mut self,
        rt: &R,
        waker: &RemoteWaker<UnparkHandle>,
    ) -> Result<bool, AllocError>
        ensures led { Leads self.old self.new }
        ensures same { (self.new.desk ≡ self.old.desk) × (self.new.requests ≡ self.old.requests) × (self.new.stage ≡ self.old.stage) }
        ensures sent { IfOk result (λ is_sent. is_sent ≡ true → self.new.texts.message ≡ None) }
    {
        self.texts.flush(rt, waker)
    }

    // Keeps the text of what came, to be sent.
    fn keep(&mut self, came: Came, text: Text)
        requires { self.old.texts.message ≡ None }
        ensures same { (self.new.desk ≡ self.old.desk) × (self.new.requests ≡ self.old.requests) × Stays self.old.texts.sender self.new.texts.sender }
        ensures said { said_by_all (passed self.new.texts) ≡ said_by_all (passed self.old.texts) ++ said_by text }
        ensures stage { self.new.stage ≡ stage_of came }
    {
        self.stage = stage_after(came);
        if !text.is_empty() {
            self.texts.put(text);
        }
    }

    // Shows the core's clock this instant, performs the next requests, and keeps the text of the replies. Returns whether
    // there were any requests.
    fn step<R: Host>(
        &mut self,
        rt: &R,
        alloc: Global,
        waker: &RemoteWaker<UnparkHandle>,
        now: Instant,
    ) -> Result<bool, AllocError>
        requires open { self.old.stage ≡ Open }
        requires sent { self.old.texts.message ≡ None }
        ensures led { Leads self.old self.new }
        ensures worked { IfOk result (λ more. Works (nanos_of now) self.old self.new) }
    {
        match serve_at(&mut self.desk, &mut self.requests, rt, alloc, waker, now) {
            Ok((came, text)) => {
                self.keep(came, text);
                Ok(came == Came::Requests)
            }
            Err(error) => {
                self.stage = Stage::Lost;
                Err(error)
            }
        }
    }

    /// Sends what was not sent yet. Then shows the core's clock this instant, performs the next requests and sends the
    /// text of their replies. Returns whether there is more to do at once.
    ///
    /// The replies are those of one run of the core's model (`turned`): the clock step, and then what came. If each place
    /// of the channel is taken, or the input has ended, nothing is performed. It fails if out of memory, and if the
    /// writer has closed the channel.
    pub fn turn<R: Host>(
        &mut self,
        rt: &R,
        alloc: Global,
        waker: &RemoteWaker<UnparkHandle>,
        now: Instant,
    ) -> Result<bool, AllocError>
        ensures led { Leads self.old self.new }
        ensures turned { IfOk result (λ more. Turns (nanos_of now) self.old self.new) }
    {
        if !self.flush(rt, waker)? {
            return Ok(false);
        }
        if !self.is_open() {
            return Ok(false);
        }
        let came = self.step(rt, alloc, waker, now)?;
        let is_sent = self.flush(rt, waker)?;
        Ok(is_sent && came)
    }
}
