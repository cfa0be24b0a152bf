// The load itself.
ghost use Rattle.std.specs.Prelude.{◌≡◌, ◌-◌, ◌≤◌, ◌*◌, ◌<◌, IfOk, OnOk};
ghost use Rattle.mono_machine.specs.Machine.{start_machine};
ghost use Rattle.mono_machine.specs.declared.events.Blocking.TheVariants.{Panic};
ghost use Rattle.mono_replay.specs.Refinement.{Stands};
ghost use Rattle.mono_replay.specs.Load.{Goes, GoesOn, IsSummary, load_limits, sleep_turn, sleepers, clocks, endings};

use crate::tallies::{Tally, added};
use crate::{Act, Blocking, End, Event, Exec, List, Query, Reply, Report, TurnStep};
use mono_machine::Limits;
use mono_model::FastRand;
use std::alloc::{AllocError, Global};
use std::mem;

/// The summary of a load's reports.
#[derive(Clone, Copy, Drop)]
pub struct Summary {
    /// How many events there were.
    pub events: u64,
    /// How many sleeps fired.
    pub fired: u64,
    /// How many events and steps were refused.
    pub refused: u64,
    /// A number that depends on the order in which the sleeps fired.
    pub order: u64,
}

fn one(alloc: Global, exec: &mut Exec, sum: &mut Tally, event: &Event) -> Result<(), AllocError>
    ensures { OnOk result (GoesOn exec.old sum.old event.now exec.new sum.new) }
{
    let report = exec.apply(alloc, event)?;
    *sum = added(*sum, &report)?;
    Ok(())
}

// The lists of a turn, which the next turn uses again.
#[derive(Drop)]
struct Spare {
    steps: List<TurnStep>,
    replies: List<Reply>,
}

// Keeps the list of a turn's replies.
fn keep_replies(report: Report, spare: &mut List<Reply>) {
    if let Report::Turn(_, replies, _) = report {
        *spare = replies;
    }
}

// Keeps the list of a turn's steps.
fn keep_steps(event: Event, spare: &mut List<TurnStep>) {
    if let Event::Turn(steps, _) = event {
        *spare = steps;
    }
}

// Applies an event, adds its report to the sum, and keeps the list of a turn's replies.
fn one_turn(
    alloc: Global,
    exec: &mut Exec,
    sum: &mut Tally,
    event: &Event,
    spare: &mut List<Reply>,
) -> Result<(), AllocError>
    ensures { OnOk result (GoesOn exec.old sum.old event.now exec.new sum.new) }
{
    let report = exec.apply_reusing(alloc, event, spare)?;
    *sum = added(*sum, &report)?;
    keep_replies(report, spare);
    Ok(())
}

// Returns the turn that makes and polls sleep k, in the memory of a list.
fn turn_of_sleep(steps: List<TurnStep>, k: u64, millis: u32) -> Result<Event, AllocError>
    ensures { IfOk result (λ e. e ≡ sleep_turn k millis) }
{
    let mut steps = steps;
    steps.clear();
    steps.push(TurnStep::Act(Act::NewSleep(u128::from(millis) * 1000000)))?;
    steps.push(TurnStep::Query(Query::Sleep(k)))?;
    Ok(Event::Turn(steps, End::Pending))
}

// Applies the turn of sleep k, in the memory of an earlier turn.
fn one_sleep(
    alloc: Global,
    exec: &mut Exec,
    sum: &mut Tally,
    k: u64,
    millis: u32,
    spare: &mut Spare,
) -> Result<(), AllocError>
    ensures { OnOk result (GoesOn exec.old sum.old (sleep_turn k millis) exec.new sum.new) }
{
    let steps = mem::replace(&mut spare.steps, List::new(alloc));
    let turn = turn_of_sleep(steps, k, millis)?;
    one_turn(alloc, exec, sum, &turn, &mut spare.replies)?;
    keep_steps(turn, &mut spare.steps);
    Ok(())
}

fn all_sleepers(
    alloc: Global,
    exec: &mut Exec,
    sum: &mut Tally,
    random: FastRand,
    count: u64,
) -> Result<(), AllocError>
    ensures { OnOk result (Goes exec.old sum.old (sleepers 0 count random) exec.new sum.new) }
{
    let mut spare = Spare {
        steps: List::new(alloc),
        replies: List::new(alloc),
    };
    let mut draws = random;
    let mut k = 0u64;
    'sleepers: while k < count {
        one(alloc, exec, sum, &Event::Act(Act::Spawn))?;
        let millis = draws.fastrand();
        one_sleep(alloc, exec, sum, k, millis, &mut spare)?;
        k += 1;
    }
    Ok(())
}

fn all_clocks(alloc: Global, exec: &mut Exec, sum: &mut Tally) -> Result<(), AllocError>
    ensures { OnOk result (Goes exec.old sum.old (clocks 1 16) exec.new sum.new) }
{
    let mut j = 1u64;
    'clocks: while j < 17 {
        one(
            alloc,
            exec,
            sum,
            &Event::Clock(u128::from(j) * 268435456000000),
        )?;
        j += 1;
    }
    Ok(())
}

fn all_endings(
    alloc: Global,
    exec: &mut Exec,
    sum: &mut Tally,
    count: u64,
) -> Result<(), AllocError>
    ensures { OnOk result (Goes exec.old sum.old (endings count) exec.new sum.new) }
{
    let mut left = count;
    'endings: while left > 0 {
        let turn = Event::Turn(List::new(alloc), End::Ready(0));
        one(alloc, exec, sum, &turn)?;
        left -= 1;
    }
    Ok(())
}

/// Replays the load of this seed and count, event by event, and sums up its reports one by one.
fn summary_of(alloc: Global, exec: &mut Exec, seed: u64, count: u64) -> Result<Summary, AllocError>
    requires count { count ≤ 100000 }
    requires start { Stands exec.old (start_machine (load_limits count) Panic) }
    ensures { IfOk result (IsSummary seed count) }
{
    let mut sum = Tally {
        fired: 0,
        refused: 0,
        order: 0,
    };
    all_sleepers(alloc, exec, &mut sum, FastRand::new(seed), count)?;
    all_clocks(alloc, exec, &mut sum)?;
    all_endings(alloc, exec, &mut sum, count)?;
    Ok(Summary {
        events: 3 * count + 16,
        fired: sum.fired,
        refused: sum.refused,
        order: sum.order,
    })
}

/// Replays the load of this seed and count, and sums up its reports one by one.
pub fn load(alloc: Global, seed: u64, count: u64) -> Result<Summary, AllocError>
    requires { count ≤ 100000 }
    ensures { IfOk result (IsSummary seed count) }
{
    let limits = Limits {
        tasks: count,
        jobs: 0,
        sleeps: count,
    };
    let mut exec = Exec::new(alloc, limits, Blocking::Panic)?;
    summary_of(alloc, &mut exec, seed, count)
}
