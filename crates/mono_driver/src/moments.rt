// The first and the last moment of a clock.
ghost use Rattle.std.specs.Prelude.{◌≡◌, ◌+◌, min};
ghost use Rattle.std.specs.Duration.{as_nanos};
ghost use Rattle.mono_model.specs.Ticks.{max_nanos};
ghost use Rattle.mono_time.specs.Instants.{nanos_of};

use mono_model::MAX_NANOS;
use mono_time::Instant;
use std::time::Duration;

/// Returns the first instant.
pub(crate) fn first() -> Instant
    ensures { nanos_of result ≡ 0 }
{
    match Instant::from_nanos(0) {
        Some(first) => first,
        None => unreachable!(),
    }
}

/// Returns the last instant.
fn last() -> Instant
    ensures { nanos_of result ≡ max_nanos }
{
    match Instant::from_nanos(MAX_NANOS) {
        Some(last) => last,
        None => unreachable!(),
    }
}

/// Returns the instant that is `by` later, at most the last one.
pub(crate) fn later(time: Instant, by: Duration) -> Instant
    ensures { nanos_of result ≡ min (nanos_of time + as_nanos by) max_nanos }
{
    match time.checked_add(by) {
        Some(later) => later,
        None => last(),
    }
}
