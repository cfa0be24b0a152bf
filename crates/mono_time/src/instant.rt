// A moment of the clock, in nanoseconds.
ghost use Rattle.std.specs.Prelude.{◌≡◌, ◌≤◌, ◌<◌, ◌+◌, ◌-◌, ◌/◌, ◌^◌, ◌↔◌, min, IsSome, IfSome};
ghost use Rattle.std.specs.Duration.{as_nanos};
ghost use Rattle.mono_model.specs.Ticks.{max_nanos, up, down};

use mono_model::MAX_NANOS;
use mono_task::Context;
use std::ops::{Add, AddAssign, Sub, SubAssign};
use std::time::Duration;

/// A moment, in nanoseconds since the clock's zero: from 0 to `MAX_NANOS`.
///
/// Instants are compared and hashed as their numbers are.
#[derive(Clone, Copy, Debug, PartialEq, Eq, PartialOrd, Ord, Hash)]
pub struct Instant {
    nanos: u128,
    pub ghost in_range: { nanos ≤ max_nanos },
}

impl Instant {
    ghost use Rattle.mono_time.specs.Instants.{nanos_of};

    /// The clock's zero, which is the first instant.
    pub const ZERO: Instant = Instant { nanos: 0 };

    /// Returns the instant of a number of nanoseconds, or `None` if and only if it is above `MAX_NANOS`.
    pub fn from_nanos(nanos: u128) -> Option<Instant>
        ensures variant { IsSome result ↔ (nanos ≤ max_nanos) }
        ensures some { IfSome result (λ t. nanos_of t ≡ nanos) }
    {
        if nanos <= MAX_NANOS {
            Some(Instant { nanos })
        } else {
            None
        }
    }

    /// Returns the number of nanoseconds since the clock's zero.
    pub fn as_nanos(&self) -> u128
        ensures { result ≡ nanos_of self.now }
    {
        self.nanos
    }

    /// Returns the tick of a deadline: milliseconds, rounded up.
    pub(crate) fn tick(&self) -> u64
        ensures tick { result ≡ up (nanos_of self.now) }
        ensures range { result < 2 ^ 63 }
    {
        millis_of(self.nanos + 999999)
    }

    /// Returns the tick of a clock's reading: milliseconds, rounded down.
    pub fn clock_tick(&self) -> u64
        ensures tick { result ≡ down (nanos_of self.now) }
        ensures range { result < 2 ^ 63 }
    {
        millis_of(self.nanos)
    }

    /// Returns the clock's reading at the start of the running turn.
    pub fn now<C: Context>(cx: &C) -> Instant
        ensures { nanos_of result ≡ C.nanos cx.now }
    {
        Instant { nanos: cx.now() }
    }

    /// Returns the time from `earlier` to this instant. `earlier` is not later.
    pub fn duration_since(&self, earlier: Instant) -> Duration
        requires { nanos_of earlier ≤ nanos_of self.now }
        ensures { as_nanos result ≡ nanos_of self.now - nanos_of earlier }
    {
        Duration::from_nanos_u128(self.nanos - earlier.nanos)
    }

    /// Returns the time from `earlier` to this instant, or `None` if and only if `earlier` is later.
    pub fn checked_duration_since(&self, earlier: Instant) -> Option<Duration>
        ensures variant { IsSome result ↔ (nanos_of earlier ≤ nanos_of self.now) }
        ensures some { IfSome result (λ d. as_nanos d + nanos_of earlier ≡ nanos_of self.now) }
    {
        if earlier.nanos <= self.nanos {
            Some(Duration::from_nanos_u128(self.nanos - earlier.nanos))
        } else {
            None
        }
    }

    /// Returns the time from `earlier` to this instant, or zero if `earlier` is later.
    pub fn saturating_duration_since(&self, earlier: Instant) -> Duration
        ensures { as_nanos result ≡ nanos_of self.now - nanos_of earlier }
    {
        if earlier.nanos <= self.nanos {
            Duration::from_nanos_u128(self.nanos - earlier.nanos)
        } else {
            Duration::from_nanos(0)
        }
    }

    /// Returns the time from this instant to `now`. `now` is not earlier.
    pub fn elapsed(&self, now: Instant) -> Duration
        requires { nanos_of self.now ≤ nanos_of now }
        ensures { as_nanos result ≡ nanos_of now - nanos_of self.now }
    {
        now.duration_since(*self)
    }

    /// Returns the instant a duration later, or `None` if and only if it is past `MAX_NANOS`.
    pub fn checked_add(&self, duration: Duration) -> Option<Instant>
        ensures variant { IsSome result ↔ (nanos_of self.now + as_nanos duration ≤ max_nanos) }
        ensures some { IfSome result (λ t. nanos_of t ≡ nanos_of self.now + as_nanos duration) }
    {
        Instant::from_nanos(self.nanos + duration.as_nanos())
    }

    /// Returns the instant a duration later, or the last instant if that is past `MAX_NANOS`.
    pub fn saturating_add(&self, duration: Duration) -> Instant
        ensures { nanos_of result ≡ min (nanos_of self.now + as_nanos duration) max_nanos }
    {
        Instant {
            nanos: (self.nanos + duration.as_nanos()).min(MAX_NANOS),
        }
    }

    /// Returns the instant a duration earlier, or the clock's zero if that is before it.
    pub fn saturating_sub(&self, duration: Duration) -> Instant
        ensures { nanos_of result ≡ nanos_of self.now - as_nanos duration }
    {
        Instant {
            nanos: self.nanos.saturating_sub(duration.as_nanos()),
        }
    }

    /// Returns the instant a duration earlier, or `None` if and only if it is before the clock's zero.
    pub fn checked_sub(&self, duration: Duration) -> Option<Instant>
        ensures variant { IsSome result ↔ (as_nanos duration ≤ nanos_of self.now) }
        ensures some { IfSome result (λ t. nanos_of t + as_nanos duration ≡ nanos_of self.now) }
    {
        let nanos = duration.as_nanos();
        if nanos <= self.nanos {
            Some(Instant {
                nanos: self.nanos - nanos,
            })
        } else {
            None
        }
    }
}

/// The sum is the instant a duration later. It is at most `MAX_NANOS`.
impl Add<Duration> for Instant {
    ghost use Rattle.mono_time.specs.Instants.{nanos_of};

    type Output = Instant;

    ghost can_add = { λ t d. nanos_of t + as_nanos d ≤ max_nanos };

    ghost add_gives = { λ t d r. nanos_of r ≡ nanos_of t + as_nanos d };

    fn add(self, duration: Duration) -> Instant {
        Instant {
            nanos: self.nanos + duration.as_nanos(),
        }
    }
}

/// The instant moves a duration later. The sum is at most `MAX_NANOS`.
impl AddAssign<Duration> for Instant {
    ghost use Rattle.mono_time.specs.Instants.{nanos_of};

    ghost can_add_assign = { λ t d. nanos_of t + as_nanos d ≤ max_nanos };

    ghost add_assign_gives = { λ t d r. nanos_of r ≡ nanos_of t + as_nanos d };

    fn add_assign(&mut self, duration: Duration) {
        *self = *self + duration;
    }
}

/// The difference is the instant a duration earlier. The duration is not longer than the time since the clock's zero.
impl Sub<Duration> for Instant {
    ghost use Rattle.mono_time.specs.Instants.{nanos_of};

    type Output = Instant;

    ghost can_sub = { λ t d. as_nanos d ≤ nanos_of t };

    ghost sub_gives = { λ t d r. nanos_of r + as_nanos d ≡ nanos_of t };

    fn sub(self, duration: Duration) -> Instant {
        Instant {
            nanos: self.nanos - duration.as_nanos(),
        }
    }
}

/// The instant moves a duration earlier. The duration is not longer than the time since the clock's zero.
impl SubAssign<Duration> for Instant {
    ghost use Rattle.mono_time.specs.Instants.{nanos_of};

    ghost can_sub_assign = { λ t d. as_nanos d ≤ nanos_of t };

    ghost sub_assign_gives = { λ t d r. nanos_of r + as_nanos d ≡ nanos_of t };

    fn sub_assign(&mut self, duration: Duration) {
        *self = *self - duration;
    }
}

/// The difference is the time from the second instant to the first. The second is not later.
impl Sub<Instant> for Instant {
    ghost use Rattle.mono_time.specs.Instants.{nanos_of};

    type Output = Duration;

    ghost can_sub = { λ t earlier. nanos_of earlier ≤ nanos_of t };

    ghost sub_gives = { λ t earlier d. as_nanos d ≡ nanos_of t - nanos_of earlier };

    fn sub(self, earlier: Instant) -> Duration {
        self.duration_since(earlier)
    }
}

// Returns the whole milliseconds of a number of nanoseconds, by a division of 64 bits if the number fits.
#[inline(always)]
fn millis_of(nanos: u128) -> u64
    requires { nanos ≤ max_nanos + 999999 }
    ensures { result ≡ nanos / 1000000 }
{
    if nanos <= u64::MAX as u128 {
        return nanos as u64 / 1000000;
    }
    (nanos / 1000000) as u64
}
