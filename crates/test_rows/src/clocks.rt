// The system's clock, and a run that sleeps by it.
use crate::runs::{ROOM, split};
use mono_blocking::ThreadSpawner;
use mono_model::Host;
use mono_script::{Clock, Instant, MemSink, MemSource, SystemClock, program};
use std::alloc::Global;
use std::time;

/// How often a clock is read until it reads more.
const READINGS: u64 = 1000000;

// Returns whether a later reading of the clock is greater than the first.
fn moves_on<C: Clock>(clock: &mut C) -> bool {
    let first = clock.now();
    for _ in 0..READINGS {
        if clock.now() > first {
            return true;
        }
    }
    false
}

#[test]
fn the_clock_of_the_system_moves_on(rt: HostRuntime) {
    let mut clock = SystemClock::new(rt);
    assert!(&rt; moves_on(&mut clock));
}

/// How often a clock is read for a reading that is not near 0.
const MORE_READINGS: u64 = 100000;

// Returns the last of many readings.
fn last_reading<C: Clock>(clock: &mut C) -> Instant {
    let mut last = clock.now();
    for _ in 0..MORE_READINGS {
        last = clock.now();
    }
    last
}

// The clock begins after the other one and is read before it, so it reads less if both count nanoseconds.
#[test]
fn the_clock_of_the_system_counts_no_faster_than_another(rt: HostRuntime) {
    let begin = time::Instant::now(&rt).expect(&rt, "a clock");
    let mut clock = SystemClock::new(rt);
    let last = last_reading(&mut clock);
    let gone = begin.elapsed(&rt).expect(&rt, "a clock");
    assert!(&rt; last.as_nanos() <= gone.as_nanos());
}

/// A main task that sleeps for 20 ms. Each park lasts so long at most, so that a clock which stands still or counts
/// thousandths has the budget of turns and parks spent before the sleep ends.
const SLEEPS: &[u8] = b"limits 1 1 1\ntask\nawait-sleep 20000000\ndone 5\n";

// Returns the status of the run with one worker by the system's clock, and whether it wrote the task's output.
fn slept<R: Host + Copy + Send + 'static>(rt: &R, alloc: Global) -> Option<(u8, bool)> {
    let words = split(alloc, "run 1 30").ok()?;
    let mut source = MemSource::new(Vec::from_slice(alloc, SLEEPS).ok()?, Vec::new(alloc));
    let mut sink = MemSink::new(alloc, ROOM, Vec::new(alloc)).ok()?;
    let clock = SystemClock::new(*rt);
    let mut spawner = ThreadSpawner::new(alloc);
    let status = program(
        rt,
        alloc,
        &words,
        &mut source,
        &mut sink,
        clock,
        &mut spawner,
    );
    spawner.join(rt);
    Some((status, sink.bytes().ends_with(b"\nmain 5\n")))
}

#[test]
fn a_sleep_by_the_clock_of_the_system_ends_in_time(rt: HostRuntime) {
    let begin = time::Instant::now(&rt).expect(&rt, "a clock");
    assert!(&rt; slept(&rt, rt.alloc()) == Some((0, true)));
    let gone = begin.elapsed(&rt).expect(&rt, "a clock");
    assert!(&rt; gone.as_millis() >= 20);
}
