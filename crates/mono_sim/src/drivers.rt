// The driver of a runtime in a world.
ghost use Rattle.std.specs.Prelude.{◌≡◌, ◌≤◌, IfOk};
ghost use Rattle.mono_time.specs.Instants.{nanos_of};
ghost use Rattle.mono_driver.specs.Drivers.{Faults, IsSure, one_more};
ghost use Rattle.mono_driver.specs.StepDrivers.{FailsIf};
ghost use Rattle.mono_sim.specs.Draws.{hit, after_hit, may_hit};

use crate::draws::hits;
use crate::seats::Seat;
use mono_driver::{Clock, Driver, DriverFault, Instant};
use mono_inbox::{Parker, UnparkHandle};
use mono_model::{FastRand, Host};
use std::alloc::{AllocError, Global};
use std::time::Duration;

/// A driver whose clock a world sets. A park returns at once: the world lets a runtime go on when there may be something
/// to do. So parks end without a cause, as those of a thread may.
///
/// One call of `submit`, `park` and `park_timeout` in `fails` fails, as the driver's generator draws; none if `fails` is 0.
/// A reading is never below the one before (`goes_on`).
#[derive(Drop)]
pub struct SimDriver {
    seat: Seat,
    parker: Parker,
    rand: FastRand,
    fails: u32,
    // the last reading, in nanoseconds
    last: u64,
    faults: u64,
    parks: u64,
    submits: u64,
}

impl SimDriver {
    /// Returns a driver at this seat, without a call so far.
    pub(crate) fn new(
        alloc: Global,
        seat: Seat,
        rand: FastRand,
        fails: u32,
    ) -> Result<SimDriver, AllocError>
        ensures rand { IfOk result (λ driver. driver.rand ≡ rand) }
        ensures fails { IfOk result (λ driver. driver.fails ≡ fails) }
        ensures faults { IfOk result (λ driver. driver.faults ≡ 0) }
        ensures parks { IfOk result (λ driver. driver.parks ≡ 0) }
        ensures submits { IfOk result (λ driver. driver.submits ≡ 0) }
    {
        Ok(SimDriver {
            seat,
            parker: Parker::new(alloc)?,
            rand,
            fails,
            last: 0,
            faults: 0,
            parks: 0,
            submits: 0,
        })
    }

    // Answers a call, which fails as the generator draws.
    fn call(&mut self) -> Result<(), DriverFault>
        ensures answer { FailsIf (hit self.old.rand self.old.fails) result }
        ensures next { self.new.rand ≡ after_hit self.old.rand self.old.fails }
        ensures faults { Faults result self.old.faults self.new.faults }
        ensures sure { IsSure (may_hit self.old.fails) result self.old.faults self.new.faults (may_hit self.new.fails) }
        ensures fails { self.new.fails ≡ self.old.fails }
        ensures parks { self.new.parks ≡ self.old.parks }
        ensures submits { self.new.submits ≡ self.old.submits }
        ensures last { self.new.last ≡ self.old.last }
    {
        if hits(&mut self.rand, self.fails) {
            self.faults = self.faults.saturating_add(1);
            return Err(DriverFault);
        }
        Ok(())
    }
}

impl Clock for SimDriver {
    ghost faults = { λ driver. driver.faults };

    ghost parks = { λ driver. driver.parks };

    ghost submits = { λ driver. driver.submits };

    ghost can_fail = { λ driver. may_hit driver.fails };

    /// Returns the world's time, or the last reading if that is later.
    fn now(&mut self) -> Instant
        ensures goes_on { self.old.last ≤ self.new.last }
        ensures last { nanos_of result ≡ self.new.last }
        ensures faults { self.new.faults ≡ self.old.faults }
        ensures parks { self.new.parks ≡ self.old.parks }
        ensures submits { self.new.submits ≡ self.old.submits }
        ensures can_fail { may_hit self.new.fails ≡ may_hit self.old.fails }
        ensures rand { self.new.rand ≡ self.old.rand }
    {
        self.last = self.last.max(self.seat.time());
        match Instant::from_nanos(self.last as u128) {
            Some(now) => now,
            None => unreachable!(),
        }
    }
}

impl Driver for SimDriver {
    type Unpark = UnparkHandle;

    /// Returns at once.
    fn submit<R: Host>(&mut self, _rt: &R) -> Result<(), DriverFault>
        ensures faults { Faults result self.old.faults self.new.faults }
        ensures sure { IsSure (may_hit self.old.fails) result self.old.faults self.new.faults (may_hit self.new.fails) }
        ensures parks { self.new.parks ≡ self.old.parks }
        ensures submits { self.new.submits ≡ one_more self.old.submits }
        ensures answer { FailsIf (hit self.old.rand self.old.fails) result }
        ensures next { self.new.rand ≡ after_hit self.old.rand self.old.fails }
    {
        self.submits = self.submits.saturating_add(1);
        self.call()
    }

    /// Returns at once.
    fn park<R: Host>(&mut self, _rt: &R) -> Result<(), DriverFault>
        ensures faults { Faults result self.old.faults self.new.faults }
        ensures sure { IsSure (may_hit self.old.fails) result self.old.faults self.new.faults (may_hit self.new.fails) }
        ensures parks { self.new.parks ≡ one_more self.old.parks }
        ensures submits { self.new.submits ≡ self.old.submits }
        ensures answer { FailsIf (hit self.old.rand self.old.fails) result }
        ensures next { self.new.rand ≡ after_hit self.old.rand self.old.fails }
    {
        self.parks = self.parks.saturating_add(1);
        self.call()
    }

    /// Returns at once.
    fn park_timeout<R: Host>(&mut self, _rt: &R, _longest: Duration) -> Result<(), DriverFault>
        ensures faults { Faults result self.old.faults self.new.faults }
        ensures sure { IsSure (may_hit self.old.fails) result self.old.faults self.new.faults (may_hit self.new.fails) }
        ensures parks { self.new.parks ≡ one_more self.old.parks }
        ensures submits { self.new.submits ≡ self.old.submits }
        ensures answer { FailsIf (hit self.old.rand self.old.fails) result }
        ensures next { self.new.rand ≡ after_hit self.old.rand self.old.fails }
    {
        self.parks = self.parks.saturating_add(1);
        self.call()
    }

    fn unpark(&self) -> Result<UnparkHandle, AllocError> {
        self.parker.handle()
    }
}
