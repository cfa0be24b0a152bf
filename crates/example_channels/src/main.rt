//! The cookbook's programs of tasks that share channels and locks.
#![tactic(auto)]

mod lock;
mod two_sums;
mod two_tasks;

use lock::transfer;
use std::io;
use two_sums::two_sums;
use two_tasks::two_tasks;

fn main(rt: HostRuntime) -> io::Result<()> {
    let alloc = rt.alloc();
    if let Some((sum, left)) = two_tasks(&rt, alloc, 2, 10) {
        println!(rt; "two_tasks: the sum is {sum}, and {left} are left")?;
    }
    if let Some((sent, received)) = two_sums(&rt, alloc, 2, 10) {
        println!(rt; "two_sums: {sent} sent and {received} received")?;
    }
    for limit in [20, 40] {
        if let Some((here, there)) = transfer(&rt, alloc, limit) {
            println!(rt; "lock: {here} here and {there} there")?;
        }
    }
    Ok(())
}
