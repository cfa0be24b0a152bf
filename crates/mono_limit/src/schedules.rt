// The schedule of a retry: its failures, and the tick of its next attempt.
ghost use Rattle.std.specs.Prelude.{◌≡◌, ◌<◌};
ghost use Rattle.mono_limit.specs.Delays.{delay};
ghost use Rattle.mono_limit.specs.Schedules.{IsSound};
ghost use Rattle.mono_limit.specs.Limiter.{next_of};

use crate::{LimitError, Next};

/// No retry waits for a later tick.
const LAST_TICK: u128 = (1 << 63) - 1;

/// How often a retry failed, how often it may, and the tick for which it waits. Its delays are between the base and the
/// cap.
#[derive(Clone, Copy)]
pub(crate) struct Schedule {
    pub(crate) base: u64,
    pub(crate) cap: u64,
    pub(crate) most: u32,
    pub(crate) failures: u32,
    pub(crate) waits_for: Option<u64>,
}

/// Returns the number of ticks from failure k, counted from 1, to the next attempt: it doubles each time, up to the
/// cap.
pub(crate) fn delay(base: u64, cap: u64, k: u32) -> u64
    requires { 0 < base }
    ensures { result ≡ delay base cap k }
{
    let doublings = k.saturating_sub(1);
    if doublings >= 64 {
        return cap;
    }
    let doubled = u128::from(base) << doublings;
    doubled.min(u128::from(cap)) as u64
}

impl Schedule {
    /// Returns the result of a failure at the greatest tick.
    pub(crate) fn next(&self, greatest: u64) -> Result<Next, LimitError>
        requires { IsSound self.now }
        ensures { result ≡ next_of self.now greatest }
    {
        if self.waits_for.is_some() {
            return Err(LimitError::Waiting);
        }
        let k = self.failures + 1;
        if k == self.most {
            return Ok(Next::GaveUp);
        }
        let tick = u128::from(greatest) + u128::from(delay(self.base, self.cap, k));
        if tick > LAST_TICK {
            return Err(LimitError::Invalid);
        }
        Ok(Next::Again(tick as u64))
    }
}
