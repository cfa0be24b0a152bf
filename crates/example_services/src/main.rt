//! Programs of tasks that share a value in virtual time: a channel with permits, a lock in its queue, and tokens of buckets.
#![tactic(auto)]

mod channels;
mod locks;
mod takes;

use channels::sum_of;
use locks::released_at;
use std::io;
use takes::shelves::Note;
use takes::takers::word;

// Prints when three tasks released the lock that they share.
fn print_releases(rt: &impl Print, releases: Option<(u64, u64, u64)>) -> io::Result<()> {
    match releases {
        Some((first, second, third)) => println!(rt;
            "released at {first}, {second} and {third} ms"
        ),
        None => println!(rt; "gave up"),
    }
}

// Prints the answer of each taker, and when it came.
fn print_notes(rt: &impl Print, notes: &[Note]) -> io::Result<()> {
    for note in notes {
        let Note {
            at_ms,
            name,
            answer,
        } = *note;
        println!(rt; "{at_ms} ms: task {name} {}", word(answer))?;
    }
    Ok(())
}

// Prints the sum that a consumer received over a channel, and how many messages are left in it.
fn print_sum(
    rt: &impl Print,
    most: usize,
    permits: usize,
    received: Option<(u64, usize)>,
) -> io::Result<()> {
    match received {
        Some((sum, left)) => println!(rt; "{most} places, {permits} permits: {sum}, {left} left"),
        None => println!(rt; "{most} places, {permits} permits: gave up"),
    }
}

fn main(rt: HostRuntime) -> io::Result<()> {
    let alloc = rt.alloc();
    print_releases(&rt, released_at(&rt, alloc, (10, 20, 30)))?;
    print_releases(&rt, released_at(&rt, alloc, (30, 20, 10)))?;
    print_releases(&rt, released_at(&rt, alloc, (500, 400, 200)))?;
    for (most, permits) in [(0, 1), (1, 1), (1, 4), (2, 4), (3, 4), (3, 1)] {
        print_sum(&rt, most, permits, sum_of(&rt, alloc, most, permits, 5))?;
    }
    match takes::run_all(&rt, alloc) {
        Some(runtime) => print_notes(&rt, runtime.shared().notes.as_slice()),
        None => println!(rt; "out of memory"),
    }
}
