//! The program: its words and streams to its exit code.
#![tactic(auto)]

use mono_main::{JoinSpawner, exits};
use mono_script::{StdinSource, StdoutSink, SystemClock};
use mono_text::WriteSink;
use std::env;
use std::io::{self, IsTerminal};
use std::process::ExitCode;

// Returns the words of the call, with the program's name first.
fn words(rt: &HostRuntime) -> io::Result<Vec<String>> {
    let words: Vec<String> = env::args(rt)?.collect(rt.alloc())?;
    Ok(words)
}

fn main(rt: HostRuntime) -> ExitCode {
    let stdin = rt.stdin();
    exits(
        &rt,
        rt.alloc(),
        words(&rt),
        stdin.is_terminal(),
        &mut StdinSource::new(stdin),
        &mut StdoutSink::new(rt.stdout()),
        &mut WriteSink::new(rt.stderr()),
        SystemClock::new(rt),
        &mut JoinSpawner::new(rt.alloc()),
    )
}
