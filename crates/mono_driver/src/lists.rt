// A clock with a list of readings.
ghost use Rattle.std.specs.Prelude.{◌≡◌, ◌<◌, Some, map, length};
ghost use Rattle.mono_time.specs.Instants.{nanos_of};

use crate::clock::Clock;
use mono_time::Instant;
use std::marker::Model;

/// A clock that returns the given readings in order, and then the last of them again and again. Contracts see it as the
/// list of the remaining readings, in nanoseconds.
#[derive(Drop)]
pub struct ListClock {
    readings: Vec<Instant>,
    next: usize,
}

impl Model for ListClock {
    ghost use Rattle.std.specs.Prelude.{◌<◌, List, ℕ, map, drop, length};
    ghost use Rattle.mono_time.specs.Instants.{nanos_of};

    ghost Value = { List ℕ };

    ghost view = { λ a. drop a.next (map nanos_of a.readings.items) };

    ghost invariant = { λ a. a.next < length a.readings.items };
}

impl ListClock {
    /// Returns a clock with these readings, at least one.
    pub fn new(readings: Vec<Instant>) -> ListClock
        requires { 0 < length readings.items }
        ensures { result ≡ map nanos_of readings.items }
    {
        ListClock { readings, next: 0 }
    }
}

impl Clock for ListClock {
    ghost readings = { λ clock. Some clock };

    fn now(&mut self) -> Instant {
        let reading = self.readings[self.next];
        if self.next + 1 < self.readings.len() {
            self.next += 1;
        }
        reading
    }
}
