// A core, and what it did.
ghost use Rattle.std.specs.Prelude.{◌≡◌, ◌∷◌, [], length, IfOk, OnOk};
ghost use Rattle.mono_time.specs.Instants.{nanos_of};
ghost use Rattle.lease_core.specs.Steps.{Advance, Handle, Finish};
ghost use Rattle.lease_core.specs.Cores.{CoreState};
ghost use Rattle.lease_core.specs.Refinement.{Refines};
ghost use Rattle.lease_core.specs.Waiting.{waits_of};
ghost use Rattle.mono_session.specs.Expirations.{IsInTime};
ghost use Rattle.lease_server.specs.Pasts.{events_of, replies_of};
ghost use Rattle.lease_server.specs.Served.{Performs, Serves};
ghost use Rattle.lease_server.specs.Texts.{said_by};

use crate::pasts::{ByCall, ByEnd, ByTime, Past};
use crate::texts::Text;
use lease_core::{Core, Request};
use lease_lines::Stamp;
use mono_rt::Instant;
use std::alloc::{AllocError, Global};

/// A core, its number, and its past.
#[derive(Drop)]
pub struct Desk {
    pub(crate) core: Core,
    pub(crate) number: u64,
    pub(crate) past: Past,
}

impl Desk {
    /// Returns the desk of a core that did nothing yet, with its number.
    pub fn new(core: Core, number: u64) -> Desk
        ensures core { result.core ≡ core }
        ensures number { result.number ≡ number }
        ensures events { events_of result.past ≡ [] }
        ensures replies { replies_of result.past ≡ [] }
    {
        Desk {
            core,
            number,
            past: Past::new(),
        }
    }

    /// Returns how many acquires wait for their locks.
    pub fn waiting(&self) -> usize
        ensures { result ≡ length (waits_of self.now.core.waiting) }
    {
        self.core.waiting()
    }

    /// Returns the next tick at which the clock may close a session, as [`Core::next_close`] does.
    pub fn next_close(&self) -> Option<u64>
        ensures { (s : CoreState) → Refines self.now.core s → IsInTime s.keeper result }
    {
        self.core.next_close()
    }

    /// Shows the core's clock an instant, and appends the lines of the replies. Returns the stamp of the replies that
    /// follow.
    pub fn show(&mut self, alloc: Global, now: Instant, out: &mut Text) -> Result<Stamp, AllocError>
        ensures stamp { IfOk result (λ stamp. stamp.core ≡ self.old.number) }
        ensures performed { Performs self.old [] self.new }
        ensures served { OnOk result (Serves self.old self.old.number (Advance (nanos_of now) ∷ []) (said_by out.old) self.new (said_by out.new)) }
    {
        self.core.advance(now)?;
        self.past.note::<Instant, ByTime>(&now, &self.core);
        let stamp = Stamp::new(alloc, self.number, self.core.tick())?;
        out.put_replies(&stamp, self.core.replies())?;
        Ok(stamp)
    }

    /// Performs a request, and appends the lines of the replies, by the core of the stamp.
    pub fn handle(
        &mut self,
        alloc: Global,
        stamp: &Stamp,
        request: &Request,
        out: &mut Text,
    ) -> Result<(), AllocError>
        ensures performed { Performs self.old (request.now ∷ []) self.new }
        ensures served { OnOk result (Serves self.old stamp.now.core (Handle request.now ∷ []) (said_by out.old) self.new (said_by out.new)) }
    {
        self.core.handle(alloc, request);
        self.past.note::<Request, ByCall>(request, &self.core);
        out.put_replies(stamp, self.core.replies())
    }

    /// Ends the core's input, and appends the lines of the replies, by the core of the stamp.
    pub fn finish(&mut self, stamp: &Stamp, out: &mut Text) -> Result<(), AllocError>
        ensures performed { Performs self.old [] self.new }
        ensures served { OnOk result (Serves self.old stamp.now.core (Finish ∷ []) (said_by out.old) self.new (said_by out.new)) }
    {
        self.core.finish();
        self.past.note::<(), ByEnd>(&(), &self.core);
        out.put_replies(stamp, self.core.replies())
    }
}
