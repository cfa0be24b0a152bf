// The trait of a clock.
ghost use Rattle.std.specs.Prelude.{◌≡◌, ℕ, Bool, true, List, Option, None};
ghost use Rattle.mono_time.specs.Instants.{nanos_of};
ghost use Rattle.mono_driver.specs.Drivers.{Reads, ReadsTime};

use mono_time::Instant;

/// A source of the time.
///
/// A clock exposes its readings to come, its time, both or nothing, and `now` reads the exposed value. The counts are
/// those of a driver, which is a clock, too. They are members here since `now` keeps them; a clock that is no driver
/// keeps the defaults.
pub trait Clock {
    /// The readings to come, in nanoseconds, if the clock exposes them. The list is not empty.
    ghost readings: { Self → Option (List ℕ) } = { λ _. None };

    /// The time in nanoseconds, if the clock exposes it.
    ghost time: { Self → Option ℕ } = { λ _. None };

    /// How often a call of a driver failed. A count of 2^64 - 1 counts as risen.
    ghost faults: { Self → ℕ } = { λ _. 0 };

    /// How often a driver was parked, at most 2^64 - 1.
    ghost parks: { Self → ℕ } = { λ _. 0 };

    /// How often `submit` of a driver was called, at most 2^64 - 1.
    ghost submits: { Self → ℕ } = { λ _. 0 };

    /// Whether a call of a driver may fail, from now on.
    ghost can_fail: { Self → Bool } = { λ _. true };

    /// Returns the reading of the clock. If readings are exposed, it is the first of them, which is then removed unless
    /// it is the last one (`reads`). If the time is exposed, it is that time, and the time stays (`reads_time`,
    /// `time`).
    fn now(&mut self) -> Instant
        ensures reads { Reads (readings self.old) (nanos_of result) (readings self.new) }
        ensures reads_time { ReadsTime (time self.old) (nanos_of result) }
        ensures time { time self.new ≡ time self.old }
        ensures faults { faults self.new ≡ faults self.old }
        ensures parks { parks self.new ≡ parks self.old }
        ensures submits { submits self.new ≡ submits self.old }
        ensures can_fail { can_fail self.new ≡ can_fail self.old };
}
