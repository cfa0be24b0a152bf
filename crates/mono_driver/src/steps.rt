// A driver that never waits.
ghost use Rattle.std.specs.Prelude.{◌≡◌, Some};
ghost use Rattle.std.specs.Duration.{as_nanos};
ghost use Rattle.mono_time.specs.Instants.{nanos_of};
ghost use Rattle.mono_driver.specs.Drivers.{Faults, IsSure, one_more, moved};
ghost use Rattle.mono_driver.specs.StepDrivers.{start_with, next_fails, FailsIf, called, handed_in, parked, slept, has_any};

use crate::clock::Clock;
use crate::driver::{Driver, DriverFault};
use crate::moments::{first, later};
use mono_inbox::NoUnpark;
use mono_model::Host;
use mono_time::Instant;
use std::alloc::AllocError;
use std::marker::Model;
use std::time::Duration;

/// A driver that never waits. Its time starts at 0, and a park moves it by the park's duration. Its calls of `submit`,
/// `park` and `park_timeout` count from 0. The k-th fails if and only if k is listed, and then the time stays. It
/// exposes that it cannot fail if and only if the list is empty.
#[derive(Drop)]
pub struct StepDriver {
    time: Instant,
    calls: u128,
    faults: u64,
    parks: u64,
    submits: u64,
    failing: Vec<u64>,
}

impl Model for StepDriver {
    ghost use Rattle.mono_time.specs.Instants.{nanos_of};
    ghost use Rattle.mono_driver.specs.StepDrivers.{Stepped};

    ghost Value = { Stepped };

    ghost view = { λ a. record { time = nanos_of a.time; calls = a.calls; faults = a.faults; parks = a.parks; submits = a.submits; failing = a.failing.items } };
}

impl StepDriver {
    /// Returns a driver at time 0 that was not called yet, and whose listed calls fail.
    pub fn new(failing: Vec<u64>) -> StepDriver
        ensures { result ≡ start_with failing.items }
    {
        StepDriver {
            time: first(),
            calls: 0,
            faults: 0,
            parks: 0,
            submits: 0,
            failing,
        }
    }

    // Returns whether the next call fails.
    fn fails(&self) -> bool
        ensures { result ≡ next_fails self.now }
    {
        let call = self.calls;
        self.failing.iter().any(|k| *k as u128 == call)
    }

    // Counts one more call, which fails if it is listed.
    fn call(&mut self) -> Result<(), DriverFault>
        ensures answer { FailsIf (next_fails self.old) result }
        ensures called { self.new ≡ called self.old }
        ensures faults { Faults result self.old.faults self.new.faults }
        ensures sure { IsSure (has_any self.old.failing) result self.old.faults self.new.faults (has_any self.new.failing) }
    {
        let fails = self.fails();
        self.calls = self.calls.saturating_add(1);
        if fails {
            self.faults = self.faults.saturating_add(1);
            return Err(DriverFault);
        }
        Ok(())
    }
}

impl Clock for StepDriver {
    ghost time = { λ driver. Some driver.time };

    ghost faults = { λ driver. driver.faults };

    ghost parks = { λ driver. driver.parks };

    ghost submits = { λ driver. driver.submits };

    ghost can_fail = { λ driver. has_any driver.failing };

    fn now(&mut self) -> Instant
        ensures same { self.new ≡ self.old }
        ensures reads_time { nanos_of result ≡ self.old.time }
        ensures time { Some self.new.time ≡ Some self.old.time }
        ensures faults { self.new.faults ≡ self.old.faults }
        ensures parks { self.new.parks ≡ self.old.parks }
        ensures submits { self.new.submits ≡ self.old.submits }
        ensures can_fail { has_any self.new.failing ≡ has_any self.old.failing }
    {
        self.time
    }
}

impl Driver for StepDriver {
    type Unpark = NoUnpark;

    /// Returns at once.
    fn submit<R: Host>(&mut self, _rt: &R) -> Result<(), DriverFault>
        ensures faults { Faults result self.old.faults self.new.faults }
        ensures sure { IsSure (has_any self.old.failing) result self.old.faults self.new.faults (has_any self.new.failing) }
        ensures parks { self.new.parks ≡ self.old.parks }
        ensures submits { self.new.submits ≡ one_more self.old.submits }
        ensures time { Some self.new.time ≡ Some self.old.time }
        ensures answer { FailsIf (next_fails self.old) result }
        ensures called { self.new ≡ handed_in self.old }
    {
        self.submits = self.submits.saturating_add(1);
        self.call()
    }

    /// Returns at once, without a wait.
    fn park<R: Host>(&mut self, _rt: &R) -> Result<(), DriverFault>
        ensures faults { Faults result self.old.faults self.new.faults }
        ensures sure { IsSure (has_any self.old.failing) result self.old.faults self.new.faults (has_any self.new.failing) }
        ensures parks { self.new.parks ≡ one_more self.old.parks }
        ensures submits { self.new.submits ≡ self.old.submits }
        ensures time { Some self.new.time ≡ Some self.old.time }
        ensures answer { FailsIf (next_fails self.old) result }
        ensures called { self.new ≡ parked self.old }
    {
        self.parks = self.parks.saturating_add(1);
        self.call()
    }

    /// Moves the time by `longest`, and returns at once.
    fn park_timeout<R: Host>(&mut self, _rt: &R, longest: Duration) -> Result<(), DriverFault>
        ensures faults { Faults result self.old.faults self.new.faults }
        ensures sure { IsSure (has_any self.old.failing) result self.old.faults self.new.faults (has_any self.new.failing) }
        ensures parks { self.new.parks ≡ one_more self.old.parks }
        ensures submits { self.new.submits ≡ self.old.submits }
        ensures time { Some self.new.time ≡ moved (Some self.old.time) (as_nanos longest) result }
        ensures answer { FailsIf (next_fails self.old) result }
        ensures called { self.new ≡ slept self.old (as_nanos longest) }
    {
        self.parks = self.parks.saturating_add(1);
        self.call()?;
        self.time = later(self.time, longest);
        Ok(())
    }

    fn unpark(&self) -> Result<NoUnpark, AllocError> {
        Ok(NoUnpark)
    }
}
