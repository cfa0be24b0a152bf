//! A server of leases, locks, token buckets and mailboxes, with one runtime and one thread for each core.
#![tactic(auto)]

mod answers;
mod arguments;
mod batches;
mod blocks;
mod calls;
mod causes;
mod clocks;
mod complaints;
mod core_threads;
mod cores;
mod desks;
mod dispatchers;
mod errors;
mod intakes;
mod lanes;
mod laws;
mod outlets;
mod pages;
mod pasts;
mod refusals;
mod router;
mod rows;
mod servers;
mod splitters;
mod starts;
mod stations;
mod status;
mod texts;
mod threads;
mod words;
mod writer;

use calls::exits;
use mono_text::{StdinSource, StdoutSink, WriteSink};
use std::env;
use std::io::{self, IsTerminal};
use std::process::ExitCode;

// Returns the words of the call, with the program's name first.
fn words_of(rt: &HostRuntime) -> io::Result<Vec<String>> {
    let words: Vec<String> = env::args(rt)?.collect(rt.alloc())?;
    Ok(words)
}

fn main(rt: HostRuntime) -> ExitCode {
    let stdin = rt.stdin();
    let waits = stdin.is_terminal();
    exits(
        rt,
        rt.alloc(),
        words_of(&rt),
        waits,
        StdinSource::new(stdin),
        StdoutSink::new(rt.stdout()),
        &mut WriteSink::new(rt.stderr()),
    )
    .code
}
