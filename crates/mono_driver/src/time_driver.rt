// The mark of a runtime with timers.
ghost use Rattle.std.specs.Prelude.{◌≡◌};

use crate::clock::Clock;
use crate::driver::{Driver, DriverFault};
use mono_model::Host;
use mono_time::Instant;
use std::alloc::AllocError;
use std::time::Duration;

/// A driver that passes all calls on to its inner driver, and exposes the same values. It marks a runtime with timers.
#[derive(Drop)]
pub struct TimeDriver<D> {
    driver: D,
}

impl<D: Drop> TimeDriver<D> {
    /// Returns the same driver, with timers.
    pub fn new(driver: D) -> TimeDriver<D>
        ensures { result.driver ≡ driver }
    {
        TimeDriver { driver }
    }

    /// Returns the driver without the mark.
    pub fn into_inner(self) -> D
        ensures { result ≡ self.driver }
    {
        self.driver
    }
}

impl<D: Driver> Clock for TimeDriver<D> {
    ghost readings = { λ marked. D.readings marked.driver };

    ghost time = { λ marked. D.time marked.driver };

    ghost faults = { λ marked. D.faults marked.driver };

    ghost parks = { λ marked. D.parks marked.driver };

    ghost submits = { λ marked. D.submits marked.driver };

    ghost can_fail = { λ marked. D.can_fail marked.driver };

    fn now(&mut self) -> Instant {
        self.driver.now()
    }
}

impl<D: Driver> Driver for TimeDriver<D> {
    type Unpark = D::Unpark;

    fn submit<R: Host>(&mut self, rt: &R) -> Result<(), DriverFault> {
        self.driver.submit(rt)
    }

    fn park<R: Host>(&mut self, rt: &R) -> Result<(), DriverFault> {
        self.driver.park(rt)
    }

    fn park_timeout<R: Host>(&mut self, rt: &R, longest: Duration) -> Result<(), DriverFault> {
        self.driver.park_timeout(rt, longest)
    }

    fn unpark(&self) -> Result<D::Unpark, AllocError> {
        self.driver.unpark()
    }
}
