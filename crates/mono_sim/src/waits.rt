// What the tasks of a world wait for.
ghost use Rattle.std.specs.Prelude.{◌≡◌};
ghost use Rattle.std.specs.List.{list_any};
ghost use Rattle.mono_sim.specs.Waits.{tick_of, earlier, least_tick, is_queued};

use mono_rt::{TaskWait, WaitsFor};
use mono_task::TaskPhase;

/// Returns the tick of the sleep for which a task waits, if it waits for one.
fn tick_of(wait: &TaskWait) -> Option<u64>
    ensures { result ≡ tick_of wait.now }
{
    match wait.waits_for {
        WaitsFor::Sleep(_, tick) => Some(tick),
        _ => None,
    }
}

/// Returns the earlier one of two ticks.
fn earlier(one: Option<u64>, two: Option<u64>) -> Option<u64>
    ensures { result ≡ earlier one two }
{
    match (one, two) {
        (Some(one), Some(two)) => Some(one.min(two)),
        (Some(one), None) => Some(one),
        (None, two) => two,
    }
}

/// Returns the least tick of a sleep for which one of these tasks waits, if there is one.
pub(crate) fn least_tick(waits: &[TaskWait]) -> Option<u64>
    ensures { result ≡ least_tick waits.now }
{
    let mut least = None;
    for wait in waits {
        least = earlier(least, tick_of(wait));
    }
    least
}

/// Returns whether a task is queued.
fn is_queued(wait: &TaskWait) -> bool
    ensures { result ≡ is_queued wait.now }
{
    matches!(wait.phase, TaskPhase::Queued)
}

/// Returns whether one of these tasks is queued.
pub(crate) fn is_any_queued(waits: &[TaskWait]) -> bool
    ensures { result ≡ list_any is_queued waits.now }
{
    waits.iter().any(|wait| is_queued(wait))
}
