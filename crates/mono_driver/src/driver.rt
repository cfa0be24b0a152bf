// The trait of a driver, on which a runtime waits.
ghost use Rattle.std.specs.Prelude.{◌≡◌};
ghost use Rattle.std.specs.Duration.{as_nanos};
ghost use Rattle.mono_driver.specs.Drivers.{Faults, IsSure, one_more, moved};

use crate::clock::Clock;
use mono_inbox::Unpark;
use mono_model::Host;
use std::alloc::AllocError;
use std::time::Duration;

/// A call of a driver that failed. The driver's count of faults rose in it.
#[derive(Clone, Copy, Debug, PartialEq, Eq)]
pub struct DriverFault;

/// A value on which a runtime waits.
///
/// A driver's counts are the clock's members `faults`, `parks`, `submits` and `can_fail`. A call answers Err if and only
/// if the count of faults rose in it (`faults`), and that count never falls. If `can_fail` is false, each call answers Ok
/// and changes neither the count of faults nor `can_fail` (`sure`). Each `park` and `park_timeout` raises the count of
/// parks by one, at most to 2^64 - 1, and no other call changes it (`parks`). Each `submit` raises the count of submits so,
/// and no other call changes that (`submits`).
///
/// A `park_timeout` that answers Ok moves an exposed time by its duration, at most to `MAX_NANOS`; no other call here
/// moves it (`time`). None changes the readings to come (`readings`).
pub trait Driver: Clock + Drop {
    /// The handle that ends its waits.
    type Unpark: Unpark;

    /// Submits the pending work, without waiting.
    fn submit<R: Host>(&mut self, rt: &R) -> Result<(), DriverFault>
        ensures faults { Faults result (Self.faults self.old) (Self.faults self.new) }
        ensures sure { IsSure (Self.can_fail self.old) result (Self.faults self.old) (Self.faults self.new) (Self.can_fail self.new) }
        ensures parks { Self.parks self.new ≡ Self.parks self.old }
        ensures submits { Self.submits self.new ≡ one_more (Self.submits self.old) }
        ensures time { Self.time self.new ≡ Self.time self.old }
        ensures readings { Self.readings self.new ≡ Self.readings self.old };

    /// Parks until an unpark.
    fn park<R: Host>(&mut self, rt: &R) -> Result<(), DriverFault>
        ensures faults { Faults result (Self.faults self.old) (Self.faults self.new) }
        ensures sure { IsSure (Self.can_fail self.old) result (Self.faults self.old) (Self.faults self.new) (Self.can_fail self.new) }
        ensures parks { Self.parks self.new ≡ one_more (Self.parks self.old) }
        ensures submits { Self.submits self.new ≡ Self.submits self.old }
        ensures time { Self.time self.new ≡ Self.time self.old }
        ensures readings { Self.readings self.new ≡ Self.readings self.old };

    /// Parks until an unpark, or until `longest` has passed.
    fn park_timeout<R: Host>(&mut self, rt: &R, longest: Duration) -> Result<(), DriverFault>
        ensures faults { Faults result (Self.faults self.old) (Self.faults self.new) }
        ensures sure { IsSure (Self.can_fail self.old) result (Self.faults self.old) (Self.faults self.new) (Self.can_fail self.new) }
        ensures parks { Self.parks self.new ≡ one_more (Self.parks self.old) }
        ensures submits { Self.submits self.new ≡ Self.submits self.old }
        ensures time { Self.time self.new ≡ moved (Self.time self.old) (as_nanos longest) result }
        ensures readings { Self.readings self.new ≡ Self.readings self.old };

    /// Returns a handle that ends this driver's waits, from any thread. It is refused only if it is out of memory.
    fn unpark(&self) -> Result<Self::Unpark, AllocError>;
}
