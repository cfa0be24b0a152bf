//! Programs over journals, scripts, drivers and simulations.
#![tactic(auto)]

mod checks;
mod drivers;
mod outputs;
mod simulations;

use drivers::{Napped, nap_and_parks};
use mono_script::{MemSink, StdoutSink, write_all};
use outputs::{ROOM, statuses_of};
use simulations::losses;
use std::io;

// Prints the answer of a nap, and the parks of its journal.
fn print_nap(rt: &impl Print, napped: Option<Napped>) -> io::Result<()> {
    match napped {
        Some((Ok(number), parks, ms)) => println!(rt; "nap: {number}; {parks} parks of {ms} ms"),
        Some((Err(error), parks, ms)) => println!(rt; "nap: {error}; {parks} parks of {ms} ms"),
        None => println!(rt; "nap: out of memory"),
    }
}

// Prints under how many of a hundred seeds a hasty receiver loses a message.
fn print_losses(rt: &impl Print, lost: u64, first: Option<u64>) -> io::Result<()> {
    match first {
        Some(first) => println!(rt; "hasty: {lost} of 100 seeds lose one, first {first}"),
        None => println!(rt; "hasty: no seed loses one"),
    }
}

// Prints a status a line.
fn print_statuses(rt: &impl Print, statuses: [u8; 13]) -> io::Result<()> {
    for status in statuses {
        println!(rt; "{status}")?;
    }
    Ok(())
}

fn main(rt: HostRuntime) -> io::Result<()> {
    let alloc = rt.alloc();
    print_nap(&rt, nap_and_parks(&rt, alloc, 1, 5))?;
    print_nap(&rt, nap_and_parks(&rt, alloc, 2, 100))?;
    print_nap(&rt, nap_and_parks(&rt, alloc, 0, 5))?;
    let (lost, _first) = losses(&rt, alloc, false);
    println!(rt; "{lost} of 100 seeds lose a message")?;
    let (lost, first) = losses(&rt, alloc, true);
    print_losses(&rt, lost, first)?;
    let Ok(made) = MemSink::new(alloc, ROOM, Vec::new(alloc)) else {
        return println!(rt; "out of memory");
    };
    let mut sink = made;
    let Some(statuses) = statuses_of(&rt, alloc, &mut sink) else {
        return println!(rt; "out of memory");
    };
    print_statuses(&rt, statuses)?;
    let mut out = StdoutSink::new(rt.stdout());
    let _ = write_all(&mut out, sink.bytes());
    Ok(())
}
