// What a core was asked, and what it replied. Only proofs read it.
ghost use Rattle.std.specs.Prelude.{◌≡◌, ◌++◌, ◌∷◌, []};
ghost use Rattle.lease_server.specs.Pasts.{event_of, events_of, replies_of};

use lease_core::{Core, Reply, Request};
use mono_model::{History, Tells};
use mono_rt::{Instant, List};

/// An event of a core.
#[derive(Clone, Copy, Drop)]
pub enum Asked {
    /// The clock showed this many nanoseconds.
    Time(u128),
    /// A request came.
    Call(Request),
    /// The input ended.
    End,
}

/// A reading of the clock, as an event.
pub struct ByTime;

impl Tells<Instant, Asked> for ByTime {
    ghost use Rattle.mono_time.specs.Instants.{nanos_of};
    ghost use Rattle.lease_server.specs.declared.pasts.Asked.TheVariants.{Time};

    ghost entry = { λ now. Time (nanos_of now) };
}

/// A request, as an event.
pub struct ByCall;

impl Tells<Request, Asked> for ByCall {
    ghost use Rattle.lease_server.specs.declared.pasts.Asked.TheVariants.{Call};

    ghost entry = { λ request. Call request };
}

/// The end of the input, as an event.
pub struct ByEnd;

impl Tells<(), Asked> for ByEnd {
    ghost use Rattle.lease_server.specs.declared.pasts.Asked.TheVariants.{End};

    ghost entry = { λ none. End };
}

// The replies of a core's last step.
struct LastReplies;

impl Tells<Core, List<Reply>> for LastReplies {
    ghost entry = { λ core. core.replies.items };
}

/// All events of a core, and all of its replies, in order. It takes no memory: only proofs read it.
#[derive(Drop)]
pub struct Past {
    asked: History<Asked>,
    replied: History<List<Reply>>,
}

impl Past {
    /// Returns the past of a core that did nothing yet.
    pub fn new() -> Past
        ensures events { events_of result ≡ [] }
        ensures replies { replies_of result ≡ [] }
    {
        Past {
            asked: History::new(),
            replied: History::new(),
        }
    }

    /// Notes the event that this value specifies, and the core's last replies.
    pub fn note<X, M: Tells<X, Asked>>(&mut self, about: &X, core: &Core)
        ensures events { events_of self.new ≡ events_of self.old ++ event_of (M.entry about.now) ∷ [] }
        ensures replies { replies_of self.new ≡ replies_of self.old ++ core.now.replies.items }
    {
        self.asked = self.asked.told::<X, M>(about);
        self.replied = self.replied.told::<Core, LastReplies>(core);
    }
}
