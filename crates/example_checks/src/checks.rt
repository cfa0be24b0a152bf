//! The checker accepts the executor's reports, and the journals of a runtime.

pub mod calls;
pub mod laws;

ghost use Rattle.std.specs.Prelude.{◌≡◌, IfOk};

use mono_machine::{Blocking, Event, Limits};
use mono_trace::{Verdict, check};
use std::alloc::{AllocError, Global};

/// Applies all events to a new executor, and checks its reports with the same limits and strategy: the verdict is yes.
/// The only error is out of memory.
pub fn checked_replay(
    alloc: Global,
    limits: Limits,
    blocking: Blocking,
    events: &Vec<Event>,
) -> Result<Verdict, AllocError>
    ensures { IfOk result (λ verdict. verdict ≡ Verdict.Yes) }
{
    let reports = mono_replay::replay(alloc, limits, blocking, events)?;
    let verdict = check(alloc, limits, blocking, events, &reports)?;
    Ok(verdict)
}
