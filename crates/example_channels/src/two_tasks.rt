//! Two tasks and a channel: one sends numbers and closes the channel, and the other adds them up.
ghost use Rattle.std.specs.Prelude.{◌≤◌, IfSome};

use mono_forms::{FutureExt, Loop, repeat};
use mono_rt::{Host, NoPool, RuntimeBuilder, StepDriver};
use mono_sync::laws::stays_bounded;
use mono_sync::mpsc::{Channel, Recv, Send, SendError};
use mono_sync::{Only, acts};
use std::alloc::{AllocError, Global};

/// The value that the tasks share.
type Shared = Only<Channel<u64>>;

/// Sends the numbers from 1 to `count` over a channel of `bound` places. Returns the sum of the received numbers, and how
/// many are left in the channel: at most `bound`, for each order of the tasks.
pub fn two_tasks<R: Host>(rt: &R, alloc: Global, bound: usize, count: u64) -> Option<(u64, usize)>
    ensures { IfSome result (λ r. r.1 ≤ bound) }
{
    let producer = repeat(1, move |number: u64| {
        Send::<Shared, u64>::new(number).map(move |sent: Result<(), SendError<u64>>| {
            if sent.is_err() || number >= count {
                Loop::Break(number)
            } else {
                Loop::Continue(number.saturating_add(1))
            }
        })
    })
    .then(|last: u64| acts::close_channel::<Shared, u64>().map(move |_: ()| last));
    let consumer = repeat(0, |sum: u64| {
        Recv::<Shared, u64>::new().map(move |came: Result<Option<u64>, AllocError>| match came {
            Ok(Some(number)) => Loop::Continue(sum.saturating_add(number)),
            _ => Loop::Break(sum),
        })
    });
    let [producer, consumer] = [producer.left_future(), consumer.right_future()];
    let builder: RuntimeBuilder<_, NoPool> = RuntimeBuilder::new(StepDriver::new(Vec::new(alloc)));
    let part = Channel::new(alloc, bound);
    let Ok(mut runtime) = builder.build_sharing(alloc, Only { part }) else {
        return None;
    };
    runtime.spawn(alloc, producer).ok()?;
    stays_bounded::<u64>();
    let sum = runtime.block_on(rt, alloc, consumer, 1000).ok()?;
    Some((sum, runtime.shared().part.len()))
}
