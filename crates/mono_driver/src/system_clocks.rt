// The system's clock.
ghost use Rattle.std.specs.Prelude.{◌≡◌, min, IfSome, IfNone};
ghost use Rattle.std.specs.Duration.{as_nanos};
ghost use Rattle.mono_model.specs.Ticks.{max_nanos};
ghost use Rattle.mono_time.specs.Instants.{nanos_of};

use crate::clock::Clock;
use mono_model::{Host, MAX_NANOS};
use mono_time::Instant;
use std::time::{self, Duration};

/// The system's clock, in nanoseconds from its making. It ends at `MAX_NANOS`, and a reading that the system refuses
/// repeats the last one. It exposes no readings.
#[derive(Drop)]
pub struct SystemClock<R> {
    rt: R,
    begin: Option<time::Instant>,
    last: Instant,
}

// Returns the instant this long after the clock's beginning, at most `MAX_NANOS`; the last instant if the system
// refused.
fn reading(gone: Option<Duration>, last: Instant) -> Instant
    ensures told { IfSome gone (λ gone. nanos_of result ≡ min (as_nanos gone) max_nanos) }
    ensures repeated { IfNone gone (result ≡ last) }
{
    match gone {
        Some(gone) => match Instant::from_nanos(gone.as_nanos().min(MAX_NANOS)) {
            Some(now) => now,
            None => unreachable!(),
        },
        None => last,
    }
}

impl<R: Host + Drop> SystemClock<R> {
    /// Returns a clock that begins now.
    pub fn new(rt: R) -> SystemClock<R> {
        let begin = match time::Instant::now(&rt) {
            Ok(begin) => Some(begin),
            Err(_) => None,
        };
        SystemClock {
            rt,
            begin,
            last: Instant::ZERO,
        }
    }

    // Returns the time since its making, unless the system refuses.
    fn gone(&self) -> Option<Duration> {
        match &self.begin {
            None => None,
            Some(begin) => match begin.elapsed(&self.rt) {
                Ok(gone) => Some(gone),
                Err(_) => None,
            },
        }
    }
}

impl<R: Host + Drop> Clock for SystemClock<R> {
    fn now(&mut self) -> Instant {
        self.last = reading(self.gone(), self.last);
        self.last
    }
}
