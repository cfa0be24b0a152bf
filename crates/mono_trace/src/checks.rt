// The check of a whole list of events with their reports.
ghost use Rattle.std.specs.Prelude.{◌≡◌, ◌<◌, ◌^◌, length, IfOk};
ghost use Rattle.mono_trace.specs.Refinement.{machine_of};
ghost use Rattle.mono_trace.specs.Verdicts.{Checked, IsVerdict};

use crate::{Trace, Verdict};
use mono_machine::{Blocking, Event, Limits, Report};
use std::alloc::{AllocError, Global};

/// Returns whether the reports are those of a run of the events, from the start machine with these limits and this
/// strategy.
///
/// Returns Yes if and only if they are. Returns No with a place if and only if the pairs before that place are those of
/// a run and that run allows no step with the pair at the place (`Checked`). By the law `one_verdict` no other verdict
/// is right. The lists have the same length, below 2^63. The only error is out of memory.
pub fn check(
    alloc: Global,
    limits: Limits,
    blocking: Blocking,
    events: &Vec<Event>,
    reports: &Vec<Report>,
) -> Result<Verdict, AllocError>
    requires same_length { length events.now.items ≡ length reports.now.items }
    requires not_too_long { length events.now.items < 2 ^ 63 }
    ensures { IfOk result (λ verdict. Checked limits blocking events.now.items reports.now.items verdict) }
{
    let mut trace = Trace::new(alloc, limits, blocking);
    verdict_on(alloc, &mut trace, events, reports)
}

/// Returns the verdict on all pairs, from the machine of a trace that has seen no arming yet.
fn verdict_on(
    alloc: Global,
    trace: &mut Trace,
    events: &Vec<Event>,
    reports: &Vec<Report>,
) -> Result<Verdict, AllocError>
    requires same_length { length events.now.items ≡ length reports.now.items }
    requires not_too_long { length events.now.items < 2 ^ 63 }
    requires fresh { (machine_of trace.old).sleeps.arm_count ≡ 0 }
    ensures { IfOk result (λ verdict. IsVerdict (machine_of trace.old) events.now.items reports.now.items verdict) }
{
    for i in 0..events.len() {
        if !trace.step(alloc, &events[i], &reports[i])? {
            return Ok(Verdict::No(i as u64));
        }
    }
    Ok(Verdict::Yes)
}
