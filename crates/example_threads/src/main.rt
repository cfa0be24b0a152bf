//! The cookbook's programs over threads: runtimes that talk, and jobs on a pool.
#![tactic(auto)]

mod job_timeout;
mod naps;
mod pool;
mod two_runtimes;

use job_timeout::job_timeout;
use naps::Nap;
use pool::pool;
use std::io;
use two_runtimes::two_runtimes;

fn main(rt: HostRuntime) -> io::Result<()> {
    let alloc = rt.alloc();
    if let Some(done) = two_runtimes(rt, alloc, 1000) {
        println!(rt; "two_runtimes: the sum is {}", done.value)?;
    }
    for (millis, limit) in [(5, 2000), (400, 20)] {
        if let Some(left) = job_timeout(rt, Nap { rt, millis }, limit) {
            println!(rt; "job_timeout: {left} ms are left")?;
        }
    }
    let naps = (
        Nap { rt, millis: 9 },
        Nap { rt, millis: 3 },
        Nap { rt, millis: 6 },
    );
    if let Some(jobs) = pool(rt, naps) {
        println!(rt; "pool: {jobs} jobs are done")?;
    }
    Ok(())
}
