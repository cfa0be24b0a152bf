// All events of a list, in order.
ghost use Rattle.std.specs.Prelude.{IfOk};
ghost use Rattle.mono_machine.specs.Machine.{Machine, start_machine};
ghost use Rattle.mono_machine.specs.Steps.{Run};
ghost use Rattle.mono_replay.specs.Refinement.{Stands};

use crate::{Blocking, Event, Exec, Report};
use mono_machine::Limits;
use std::alloc::{AllocError, Global};

/// Applies all events in order, from a new executor, and returns one report for each.
///
/// Returns the reports of a run of the reference machine from its start (`Run`). The only error is out of memory.
pub fn replay(
    alloc: Global,
    limits: Limits,
    blocking: Blocking,
    events: &Vec<Event>,
) -> Result<Vec<Report>, AllocError>
    ensures { IfOk result (λ reports. (new : Machine) × Run (start_machine limits blocking) events.now.items reports.items new) }
{
    let mut exec = Exec::new(alloc, limits, blocking)?;
    report_all(alloc, &mut exec, events)
}

/// Returns the reports of all events, in order: those of a run from each machine that the executor refines.
fn report_all(
    alloc: Global,
    exec: &mut Exec,
    events: &Vec<Event>,
) -> Result<Vec<Report>, AllocError>
    ensures { (m : Machine) → Stands exec.old m → IfOk result (λ reports. (new : Machine) × Run m events.now.items reports.items new) }
{
    let mut reports = Vec::new(alloc);
    for event in events {
        let report = exec.apply(alloc, event)?;
        reports.push(report)?;
    }
    Ok(reports)
}
