// A driver that parks a given number of times.
ghost use Rattle.std.specs.Prelude.{◌≡◌, ◌+◌, true};
ghost use Rattle.mono_driver.specs.Drivers.{one_more};

use mono_rt::{Buildable, Clock, Driver, DriverFault, Host, Instant};
use std::alloc::AllocError;
use std::time::Duration;

/// A driver that passes all calls on to its driver, except the parks after the last that is left: these fail at once.
///
/// So a runtime whose tasks wait for ever returns the answer `Driver`. Its count of faults is the sum of its driver's
/// and its own; a park that failed here moves no time.
#[derive(Drop)]
pub struct Bounded<D> {
    driver: D,
    left: u64,
    parks: u64,
    refused: u64,
}

impl<D: Drop> Bounded<D> {
    /// Returns the driver with `parks` parks left.
    pub fn new(driver: D, parks: u64) -> Bounded<D>
        ensures { result ≡ record { driver = driver; left = parks; parks = 0; refused = 0 } }
    {
        Bounded {
            driver,
            left: parks,
            parks: 0,
            refused: 0,
        }
    }

    // Counts one more park, and returns whether one was left for it.
    fn may_park(&mut self) -> bool
        ensures parks { self.new.parks ≡ one_more self.old.parks }
        ensures driver { self.new.driver ≡ self.old.driver }
        ensures refused { self.new.refused ≡ self.old.refused }
    {
        self.parks = self.parks.saturating_add(1);
        if self.left == 0 {
            return false;
        }
        self.left -= 1;
        true
    }
}

impl<D: Driver> Clock for Bounded<D> {
    ghost readings = { λ b. D.readings b.driver };

    ghost time = { λ b. D.time b.driver };

    ghost faults = { λ b. D.faults b.driver + b.refused };

    ghost parks = { λ b. b.parks };

    ghost submits = { λ b. D.submits b.driver };

    ghost can_fail = { λ b. true };

    fn now(&mut self) -> Instant {
        self.driver.now()
    }
}

impl<D: Driver> Driver for Bounded<D> {
    type Unpark = D::Unpark;

    fn submit<R: Host>(&mut self, rt: &R) -> Result<(), DriverFault> {
        self.driver.submit(rt)
    }

    fn park<R: Host>(&mut self, rt: &R) -> Result<(), DriverFault> {
        if self.may_park() {
            return self.driver.park(rt);
        }
        self.refused = self.refused.saturating_add(1);
        Err(DriverFault)
    }

    fn park_timeout<R: Host>(&mut self, rt: &R, longest: Duration) -> Result<(), DriverFault> {
        if self.may_park() {
            return self.driver.park_timeout(rt, longest);
        }
        self.refused = self.refused.saturating_add(1);
        Err(DriverFault)
    }

    fn unpark(&self) -> Result<D::Unpark, AllocError> {
        self.driver.unpark()
    }
}

impl<D: Driver> Buildable for Bounded<D> {
    fn has_timers() -> bool {
        false
    }
}
