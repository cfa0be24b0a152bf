//! The cookbook's program whose tasks wait in a shared value, and what each park finds there.
#![tactic(auto)]

mod gate;

use gate::wait_at_gate;
use std::io;

fn main(rt: HostRuntime) -> io::Result<()> {
    for permits in [1, 2] {
        match wait_at_gate(&rt, rt.alloc(), permits) {
            Some(passed) => println!(rt; "a gate of {permits}: {passed} passed")?,
            None => println!(rt; "a gate of {permits}: still waits")?,
        }
    }
    Ok(())
}
