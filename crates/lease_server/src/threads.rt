// The cores that were started: each in a thread, or at once if no thread could be made.
ghost use Rattle.std.specs.Prelude.{◌≡◌};
ghost use Rattle.lease_server.specs.CoreEnds.{HasEnded};
ghost use Rattle.lease_server.specs.Places.{IsPromised};

use crate::core_threads::CoreEnd;
use crate::texts::Text;
use lease_core::{Request, Sizes};
use mono_channel::{Receiver, Sender};
use mono_rt::{Host, UnparkHandle};
use std::snapshot::Snapshot;
use std::thread::{Promise, PromisedHandle};

/// The promise of a core's thread: a core of this number and these sizes answers what it receives from this end over that
/// one.
#[derive(Drop)]
pub struct Serves {
    pub number: u64,
    pub sizes: Sizes,
    pub requests: Snapshot<Receiver<Vec<Request>, UnparkHandle>>,
    pub texts: Snapshot<Sender<Text, UnparkHandle>>,
}

impl Promise<CoreEnd> for Serves {
    ghost kept_by = { λ p end. HasEnded p.number p.sizes p.requests.value p.texts.value end };
}

/// Where a core runs.
#[derive(Drop)]
pub enum Place {
    /// In a thread.
    Thread(PromisedHandle<CoreEnd, Serves>),
    /// Nowhere: it has ended.
    Ended(CoreEnd),
}

/// A core that was started, and its promise.
#[derive(Drop)]
pub struct CoreThread {
    pub(crate) promise: Snapshot<Serves>,
    pub(crate) place: Place,
}

impl CoreThread {
    /// Returns whether the core runs in a thread.
    pub fn has_thread(&self) -> bool {
        match self.place {
            Place::Thread(_) => true,
            Place::Ended(_) => false,
        }
    }

    /// Waits for the end of the thread, if there is one, and returns what the core left.
    pub fn join<R: Host>(self, rt: &R) -> CoreEnd
        requires { IsPromised self.promise.value self.place }
        ensures { HasEnded self.promise.value.number self.promise.value.sizes self.promise.value.requests.value self.promise.value.texts.value result }
    {
        let CoreThread { promise: _, place } = self;
        match place {
            Place::Thread(thread) => thread.join(rt),
            Place::Ended(end) => end,
        }
    }
}
