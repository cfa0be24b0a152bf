// Forms as main tasks of built runtimes, on a driver that never waits.
use mono_model::Host;
use mono_rt::{
    Cx, Entry, Event, Journal, NoPool, NoUnpark, Outcome, RunError, RuntimeBuilder, StepDriver,
    TimeDriver,
};
use mono_task::TaskFuture;
use mono_time::SleepError;
use std::alloc::Global;
use std::process::Abort;

/// How a main task ends, and the turns, the parks and the milliseconds of its parks.
pub(crate) type Ended<O> = (Result<O, RunError>, (u64, u64, u64));

/// Returns 1 for an entry of a turn, and 0 for any other.
fn turns_of(entry: Option<&Entry>) -> u64 {
    match entry {
        Some(Entry::Ran(Event::Turn(_, _), _)) => 1,
        _ => 0,
    }
}

/// Returns the milliseconds of an entry of a park.
fn park_of(entry: Option<&Entry>) -> Option<u64> {
    match entry {
        Some(Entry::Park(wait)) => Some(wait.unwrap_or(0)),
        _ => None,
    }
}

/// Returns how many turns, parks and milliseconds of parks a journal has.
pub(crate) fn told_in(journal: &Journal) -> (u64, u64, u64) {
    let mut turns = 0u64;
    let mut parks = 0u64;
    let mut milliseconds = 0u64;
    for place in 0..journal.len() {
        turns = turns.saturating_add(turns_of(journal.get(place)));
        if let Some(wait) = park_of(journal.get(place)) {
            parks = parks.saturating_add(1);
            milliseconds = milliseconds.saturating_add(wait);
        }
    }
    (turns, parks, milliseconds)
}

/// Runs a main task on a built runtime.
pub(crate) fn run<F, O, R: Host + Abort>(rt: &R, alloc: Global, future: F) -> Ended<O>
where
    F: TaskFuture<Cx<F, O, NoPool, NoUnpark>, Output = O> + Drop,
    O: Outcome + Drop,
    requires { (f : F) → F.can_poll f }
{
    let driver = TimeDriver::new(StepDriver::new(Vec::new(alloc)));
    let builder: RuntimeBuilder<_, NoPool> = RuntimeBuilder::new(driver);
    let mut runtime = builder.with_journal().build(alloc).expect(rt, "memory");
    let answer = runtime.block_on(rt, alloc, future, 1000);
    (answer, told_in(runtime.journal()))
}

/// Answers 1 after a sleep.
pub(crate) fn one(_: Result<(), SleepError>) -> u64 {
    1
}
