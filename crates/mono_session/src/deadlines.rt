// Sleeps for the ticks at which the clock closes sessions.
ghost use Rattle.std.specs.Prelude.{◌≡◌, ◌≤◌, ◌+◌, ◌-◌, IfSome, is_some, not, nat_lt};
ghost use Rattle.mono_model.specs.Ticks.{up};
ghost use Rattle.mono_time.specs.Instants.{nanos_of};
ghost use Rattle.mono_time.specs.Timers.{sleeps_of, elapsed_tick, credit_left};
ghost use Rattle.mono_wheel.specs.Credit.{most_takes};
ghost use Rattle.mono_session.specs.Keeper.{last_tick};
ghost use Rattle.mono_session.specs.SessionSleeps.{Arms};

use mono_time::{Instant, SleepError, Timers};
use std::alloc::Global;

// The greatest tick.
const LAST_TICK: u64 = 9223372036854775807;

/// Returns the deadline `limit` ticks after `tick`, or `None` if and only if its tick would be above 2^63 - 1.
pub fn deadline_after(tick: u64, limit: u64) -> Option<Instant>
    ensures variant { is_some result ≡ not (nat_lt last_tick (tick + limit)) }
    ensures some { IfSome result (λ deadline. up (nanos_of deadline) ≡ tick + limit) }
{
    let sum = tick.saturating_add(limit);
    if sum > LAST_TICK {
        return None;
    }
    Instant::from_nanos(sum as u128 * 1000000)
}

/// Adds a sleep that is armed for a deadline and wakes no task. Returns its number, or the timers' refusal.
pub fn add_armed(timers: &mut Timers, alloc: Global, deadline: Instant) -> Result<u64, SleepError>
    ensures armed { Arms (sleeps_of timers.old) (up (nanos_of deadline)) result (sleeps_of timers.new) }
    ensures elapsed { elapsed_tick timers.new ≡ elapsed_tick timers.old }
    ensures raise { credit_left timers.new ≤ credit_left timers.old + most_takes (up (nanos_of deadline) - elapsed_tick timers.old) }
{
    let sleep = timers.add(alloc, deadline)?;
    let _ = timers.reset(sleep, deadline);
    Ok(sleep)
}
