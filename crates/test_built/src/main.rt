//! Each join, try, select and race as the main task of a built runtime, over sleeps, the ends of a channel and the
//! handles of tasks. A line has a digit for each output of a part, and what the run took.
#![tactic(auto)]

mod channels;
mod handles;
mod joins;
mod outputs;
mod races;
mod runs;
mod selects;
mod tries;

use runs::Ended;
use std::io;

fn print_all(rt: &HostRuntime, rows: &[(&str, Ended)]) -> io::Result<()> {
    for (form, ended) in rows {
        println!(rt;
            "{form}: {}, {} turns, {} parks, {} ms",
            ended.answer, ended.turns, ended.parks, ended.millis
        )?;
    }
    Ok(())
}

fn main(rt: HostRuntime) -> io::Result<()> {
    let alloc = rt.alloc();
    print_all(&rt, &joins::all(&rt, alloc))?;
    print_all(&rt, &tries::all(&rt, alloc))?;
    print_all(&rt, &selects::all(&rt, alloc))?;
    print_all(&rt, &races::all(&rt, alloc))?;
    print_all(&rt, &channels::all(&rt, alloc))?;
    print_all(&rt, &handles::all(&rt, alloc))
}
