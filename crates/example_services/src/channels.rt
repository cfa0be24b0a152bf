//! Tasks of one runtime that send and receive over a shared channel, with a permit for each message.
ghost use Rattle.std.specs.Prelude.{◌≤◌, IfSome};

mod boards;
mod parties;

use boards::Board;
use mono_rt::{Host, NoPool, Runtime, RuntimeBuilder, StepDriver, TimeDriver};
use mono_sync::Semaphore;
use mono_sync::laws::stays_bounded;
use mono_sync::mpsc::Channel;
use parties::Party;
use std::alloc::Global;

type Running = Runtime<Party, u64, TimeDriver<StepDriver>, NoPool, Board>;

/// Runs a consumer of all that two producers send, over a channel of `most` places. Returns the sum of its messages,
/// each times its place, and how many messages are left: at most the number of places, for each order of the tasks.
pub fn sum_of<R: Host>(
    rt: &R,
    alloc: Global,
    most: usize,
    permits: usize,
    each: u64,
) -> Option<(u64, usize)>
    ensures { IfSome result (λ r. r.1 ≤ most) }
{
    let driver = TimeDriver::new(StepDriver::new(Vec::new(alloc)));
    let builder: RuntimeBuilder<TimeDriver<StepDriver>, NoPool> = RuntimeBuilder::new(driver);
    let board = Board {
        numbers: Channel::new(alloc, most),
        permits: Semaphore::new(alloc, permits),
    };
    let made: Running = match builder.build_sharing(alloc, board) {
        Ok(made) => made,
        Err(_) => return None,
    };
    let mut runtime = made;
    if runtime.spawn(alloc, Party::producer(1, each)).is_err() {
        return None;
    }
    if runtime.spawn(alloc, Party::producer(1001, each)).is_err() {
        return None;
    }
    let total = each.saturating_mul(2);
    stays_bounded::<u64>();
    match runtime.block_on(rt, alloc, Party::consumer(total), 1000) {
        Ok(sum) => Some((sum, runtime.shared().numbers.len())),
        Err(_) => None,
    }
}
