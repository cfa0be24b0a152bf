// A driver that fails at the calls that a test lists.
ghost use Rattle.std.specs.Prelude.{◌≡◌, ◌+◌, true};
ghost use Rattle.std.specs.Duration.{as_nanos};
ghost use Rattle.mono_driver.specs.Drivers.{Faults, IsSure, one_more, moved};
ghost use Rattle.mono_driver.specs.StepDrivers.{is_listed, FailsAt};

use crate::clock::Clock;
use crate::driver::{Driver, DriverFault};
use mono_model::Host;
use mono_time::Instant;
use std::alloc::AllocError;
use std::time::Duration;

/// Passes all calls on to its driver, except those that a test lists.
///
/// The k-th call of `submit`, `park` and `park_timeout`, counted from 0, fails at once if k is listed, and the driver is not
/// called. So a test sees what a runtime does after a failed park on a driver that really waits.
#[derive(Drop)]
pub struct FailingDriver<D> {
    driver: D,
    calls: u64,
    parks: u64,
    submits: u64,
    refused: u64,
    failing: Vec<u64>,
}

impl<D: Drop> FailingDriver<D> {
    /// Returns the driver under a list of the calls that fail.
    pub fn new(driver: D, failing: Vec<u64>) -> FailingDriver<D>
        ensures { result ≡ record { driver = driver; calls = 0; parks = 0; submits = 0; refused = 0; failing = failing } }
    {
        FailingDriver {
            driver,
            calls: 0,
            parks: 0,
            submits: 0,
            refused: 0,
            failing,
        }
    }

    /// Returns the driver without the list.
    pub fn into_inner(self) -> D
        ensures { result ≡ self.driver }
    {
        self.driver
    }

    // Counts one more call, and returns whether it fails.
    fn fails(&mut self) -> bool
        ensures fails { result ≡ is_listed self.old.failing.items self.old.calls }
        ensures driver { self.new.driver ≡ self.old.driver }
        ensures parks { self.new.parks ≡ self.old.parks }
        ensures submits { self.new.submits ≡ self.old.submits }
        ensures failing { self.new.failing ≡ self.old.failing }
        ensures calls { self.new.calls ≡ one_more self.old.calls }
        ensures refused { self.new.refused ≡ self.old.refused }
    {
        let call = self.calls;
        self.calls = call.saturating_add(1);
        self.failing.iter().any(|k| *k == call)
    }
}

impl<D: Driver> Clock for FailingDriver<D> {
    ghost readings = { λ b. D.readings b.driver };

    ghost time = { λ b. D.time b.driver };

    ghost faults = { λ b. D.faults b.driver + b.refused };

    ghost parks = { λ b. b.parks };

    ghost submits = { λ b. b.submits };

    ghost can_fail = { λ b. true };

    fn now(&mut self) -> Instant {
        self.driver.now()
    }
}

impl<D: Driver> Driver for FailingDriver<D> {
    type Unpark = D::Unpark;

    fn submit<R: Host>(&mut self, rt: &R) -> Result<(), DriverFault>
        ensures faults { Faults result (D.faults self.old.driver + self.old.refused) (D.faults self.new.driver + self.new.refused) }
        ensures sure { IsSure true result (D.faults self.old.driver + self.old.refused) (D.faults self.new.driver + self.new.refused) true }
        ensures parks { self.new.parks ≡ self.old.parks }
        ensures submits { self.new.submits ≡ one_more self.old.submits }
        ensures time { D.time self.new.driver ≡ D.time self.old.driver }
        ensures readings { D.readings self.new.driver ≡ D.readings self.old.driver }
        ensures listed { FailsAt (is_listed self.old.failing.items self.old.calls) result (self.new.driver ≡ self.old.driver) }
        ensures called { (self.new.calls ≡ one_more self.old.calls) × (self.new.failing ≡ self.old.failing) }
    {
        self.submits = self.submits.saturating_add(1);
        if self.fails() {
            self.refused = self.refused.saturating_add(1);
            return Err(DriverFault);
        }
        self.driver.submit(rt)
    }

    fn park<R: Host>(&mut self, rt: &R) -> Result<(), DriverFault>
        ensures faults { Faults result (D.faults self.old.driver + self.old.refused) (D.faults self.new.driver + self.new.refused) }
        ensures sure { IsSure true result (D.faults self.old.driver + self.old.refused) (D.faults self.new.driver + self.new.refused) true }
        ensures parks { self.new.parks ≡ one_more self.old.parks }
        ensures submits { self.new.submits ≡ self.old.submits }
        ensures time { D.time self.new.driver ≡ D.time self.old.driver }
        ensures readings { D.readings self.new.driver ≡ D.readings self.old.driver }
        ensures listed { FailsAt (is_listed self.old.failing.items self.old.calls) result (self.new.driver ≡ self.old.driver) }
        ensures called { (self.new.calls ≡ one_more self.old.calls) × (self.new.failing ≡ self.old.failing) }
    {
        self.parks = self.parks.saturating_add(1);
        if self.fails() {
            self.refused = self.refused.saturating_add(1);
            return Err(DriverFault);
        }
        self.driver.park(rt)
    }

    fn park_timeout<R: Host>(&mut self, rt: &R, longest: Duration) -> Result<(), DriverFault>
        ensures faults { Faults result (D.faults self.old.driver + self.old.refused) (D.faults self.new.driver + self.new.refused) }
        ensures sure { IsSure true result (D.faults self.old.driver + self.old.refused) (D.faults self.new.driver + self.new.refused) true }
        ensures parks { self.new.parks ≡ one_more self.old.parks }
        ensures submits { self.new.submits ≡ self.old.submits }
        ensures time { D.time self.new.driver ≡ moved (D.time self.old.driver) (as_nanos longest) result }
        ensures readings { D.readings self.new.driver ≡ D.readings self.old.driver }
        ensures listed { FailsAt (is_listed self.old.failing.items self.old.calls) result (self.new.driver ≡ self.old.driver) }
        ensures called { (self.new.calls ≡ one_more self.old.calls) × (self.new.failing ≡ self.old.failing) }
    {
        self.parks = self.parks.saturating_add(1);
        if self.fails() {
            self.refused = self.refused.saturating_add(1);
            return Err(DriverFault);
        }
        self.driver.park_timeout(rt, longest)
    }

    fn unpark(&self) -> Result<D::Unpark, AllocError> {
        self.driver.unpark()
    }
}
