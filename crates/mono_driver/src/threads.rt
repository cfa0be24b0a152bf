// A driver that parks its thread.
ghost use Rattle.std.specs.Prelude.{◌≡◌, IfOk};

use crate::clock::Clock;
use crate::driver::{Driver, DriverFault};
use mono_inbox::{Parker, UnparkHandle};
use mono_model::Host;
use mono_time::Instant;
use std::alloc::{AllocError, Global};
use std::time::Duration;

/// A driver that parks its thread, with a clock of the caller's. It exposes the readings of its clock. It cannot fail,
/// and its count of faults is 0.
///
/// Tests show that a park waits, and that an unpark ends it.
#[derive(Drop)]
pub struct ThreadDriver<C> {
    clock: C,
    parker: Parker,
    parks: u64,
    submits: u64,
}

impl<C: Clock + Drop> ThreadDriver<C> {
    /// Returns a driver over this clock, without a park or a submit so far.
    pub fn new(alloc: Global, clock: C) -> Result<ThreadDriver<C>, AllocError>
        ensures clock { IfOk result (λ driver. driver.clock ≡ clock) }
        ensures parks { IfOk result (λ driver. driver.parks ≡ 0) }
        ensures submits { IfOk result (λ driver. driver.submits ≡ 0) }
    {
        Ok(ThreadDriver {
            clock,
            parker: Parker::new(alloc)?,
            parks: 0,
            submits: 0,
        })
    }
}

impl<C: Clock + Drop> Clock for ThreadDriver<C> {
    ghost use Rattle.std.specs.Prelude.{false};

    ghost readings = { λ driver. C.readings driver.clock };

    ghost parks = { λ driver. driver.parks };

    ghost submits = { λ driver. driver.submits };

    ghost can_fail = { λ _. false };

    fn now(&mut self) -> Instant {
        self.clock.now()
    }
}

impl<C: Clock + Drop> Driver for ThreadDriver<C> {
    type Unpark = UnparkHandle;

    /// Returns at once.
    fn submit<R: Host>(&mut self, _rt: &R) -> Result<(), DriverFault> {
        self.submits = self.submits.saturating_add(1);
        Ok(())
    }

    fn park<R: Host>(&mut self, rt: &R) -> Result<(), DriverFault> {
        self.parks = self.parks.saturating_add(1);
        self.parker.park(rt);
        Ok(())
    }

    fn park_timeout<R: Host>(&mut self, rt: &R, longest: Duration) -> Result<(), DriverFault> {
        self.parks = self.parks.saturating_add(1);
        self.parker.park_timeout(rt, longest);
        Ok(())
    }

    fn unpark(&self) -> Result<UnparkHandle, AllocError> {
        self.parker.handle()
    }
}
