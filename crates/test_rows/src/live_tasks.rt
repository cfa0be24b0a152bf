// The live tasks of a run that spent its budget, with the sources for which they wait.
use crate::runs::{ROOM, clock_at, split};
use mono_model::Host;
use mono_script::{Ended, MemSink, MemSource, NoSpawner, explained};
use std::alloc::Global;
use std::format;

/// The main task waits for another, which sleeps.
const KINDS: &str = "task\nspawn 1\njoin 0\ndone 1\ntask\nawait-sleep 100000000\ndone 2\n";

// Returns the end of a run of the script with this limit of tasks.
fn end_of<R: Host + Send + 'static>(
    rt: &R,
    alloc: Global,
    words: &str,
    tasks: u64,
) -> Option<Ended> {
    let words = split(alloc, words).ok()?;
    let input = format!(in alloc; "limits {tasks} 16 16\n{KINDS}").ok()?;
    let mut source = MemSource::new(input.into_bytes(), Vec::new(alloc));
    let mut sink = MemSink::new(alloc, ROOM, Vec::new(alloc)).ok()?;
    let clock = clock_at(alloc, 0)?;
    let mut spawner = NoSpawner::new();
    explained(
        rt,
        alloc,
        &words,
        &mut source,
        &mut sink,
        clock,
        &mut spawner,
    )
}

// Returns the lines of the live tasks after a run of the script with this limit of tasks.
fn lines_after<R: Host + Send + 'static>(
    rt: &R,
    alloc: Global,
    words: &str,
    tasks: u64,
) -> Option<Vec<String>> {
    let ended = end_of(rt, alloc, words, tasks)?;
    let mut lines = Vec::new(alloc);
    for wait in ended.waits() {
        lines.push(format!(in alloc; "{wait}").ok()?).ok()?;
    }
    Some(lines)
}

#[test]
fn a_spent_budget_lists_the_live_tasks(rt: HostRuntime) {
    let lines = lines_after(&rt, rt.alloc(), "run 0 2", 4096).expect(&rt, "memory");
    assert_eq!(&rt; lines.len(), 2);
    assert_eq!(&rt; lines[0].as_str(), "task 0 waits for task 1");
    assert_eq!(&rt; lines[1].as_str(), "task 1 waits for sleep 0 until 100 ms");
}

#[test]
fn a_run_that_ends_lists_none(rt: HostRuntime) {
    let lines = lines_after(&rt, rt.alloc(), "run 0 100", 16).expect(&rt, "memory");
    assert!(&rt; lines.is_empty());
}

#[test]
fn a_greater_limit_lists_none(rt: HostRuntime) {
    let lines = lines_after(&rt, rt.alloc(), "run 0 2", 4097).expect(&rt, "memory");
    assert!(&rt; lines.is_empty());
}
