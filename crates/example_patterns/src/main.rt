//! The cookbook's program of a task that waits for whichever comes first.
#![tactic(auto)]

mod select_loop;

use select_loop::select_loop;
use std::io;

fn main(rt: HostRuntime) -> io::Result<()> {
    let alloc = rt.alloc();
    if let Some(ticks) = select_loop(&rt, alloc) {
        println!(rt; "select_loop: {ticks} ticks came")?;
    }
    Ok(())
}
