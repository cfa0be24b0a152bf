//! The cookbook's programs of tasks that share nothing, on runtimes that never wait.
#![tactic(auto)]

mod chains;
mod first_of_two;
mod retry;
mod sleep_twice;
mod supervisor;
mod three_sleeps;

use first_of_two::first_of_two;
use retry::retry;
use sleep_twice::sleep_twice;
use std::io;
use supervisor::supervisor;
use three_sleeps::three_sleeps;

// Returns the answer, or 999 if there was no memory for the runtime.
fn or_none(answer: Option<u64>) -> u64 {
    answer.unwrap_or(999)
}

fn main(rt: HostRuntime) -> io::Result<()> {
    let alloc = rt.alloc();
    if let Ok(Ok(times)) = sleep_twice(&rt, alloc) {
        println!(rt; "slept {times} times")?;
    }
    println!(rt; "three_sleeps: {}", or_none(three_sleeps(&rt, alloc)))?;
    println!(rt;
        "first_of_two: {}",
        or_none(first_of_two(&rt, alloc, 9, 7, 20))
    )?;
    println!(rt;
        "first_of_two: {}",
        or_none(first_of_two(&rt, alloc, 9, 7, 5))
    )?;
    println!(rt; "retry: {}", or_none(retry(&rt, alloc, 2, 5)))?;
    println!(rt; "retry: {}", or_none(retry(&rt, alloc, 9, 5)))?;
    println!(rt; "supervisor: {}", or_none(supervisor(&rt, alloc, 42)))
}
