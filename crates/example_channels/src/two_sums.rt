//! Two tasks, a channel and two sums: received messages and queued ones sum to the sent ones.
ghost use Rattle.std.specs.Prelude.{◌≡◌, ◌<◌, ◌+◌, ◌-◌, ◌^◌, IfSome, sum};

use mono_forms::{FutureExt, Loop, repeat};
use mono_rt::{Host, NoPool, RuntimeBuilder, StepDriver};
use mono_sync::mpsc::SendError;
use mono_sync::tallies::{Recv, Send, Tallied, Tally};
use mono_sync::{Only, acts};
use std::alloc::{AllocError, Global};

/// The sums of the sent and of the received messages. They stay at the greatest number.
#[derive(Default, Drop)]
pub struct Sums {
    sent: u64,
    received: u64,
}

impl Tally<u64> for Sums {
    ghost rule = { λ s queue. s.sent < 2 ^ 64 - 1 → s.received + sum queue ≡ s.sent };

    fn sent(&mut self, message: &u64) {
        self.sent = self.sent.saturating_add(*message);
    }

    fn received(&mut self, message: &u64) {
        self.received = self.received.saturating_add(*message);
    }
}

type Shared = Only<Tallied<u64, Sums>>;

/// Sends the numbers from 1 to `count`. Returns both sums once all messages were received: they are the same.
pub fn two_sums<R: Host>(rt: &R, alloc: Global, bound: usize, count: u64) -> Option<(u64, u64)>
    ensures { IfSome result (λ r. r.0 < 2 ^ 64 - 1 → r.1 ≡ r.0) }
{
    let producer = repeat(1, move |number: u64| {
        let sending = Send::<Shared, u64, Sums>::new(number);
        sending.map(move |sent: Result<(), SendError<u64>>| match sent {
            Ok(()) if number < count => Loop::Continue(number.saturating_add(1)),
            _ => Loop::Break(()),
        })
    })
    .then(|_: ()| acts::close_tallied::<Shared, u64, Sums>());
    let consumer = repeat((), |_: ()| {
        Recv::<Shared, u64, Sums>::new().map(|came: Result<Option<u64>, AllocError>| match came {
            Ok(Some(_)) => Loop::Continue(()),
            _ => Loop::Break(()),
        })
    });
    let [producer, consumer] = [producer.left_future(), consumer.right_future()];
    let builder: RuntimeBuilder<_, NoPool> = RuntimeBuilder::new(StepDriver::new(Vec::new(alloc)));
    let part = Tallied::new(alloc, bound, Sums::default());
    let Ok(mut runtime) = builder.build_sharing(alloc, Only { part }) else {
        return None;
    };
    runtime.spawn(alloc, producer).ok()?;
    runtime.block_on(rt, alloc, consumer, 1000).ok()?;
    let Only { part } = runtime.shared();
    (part.channel.len() == 0).then_some((part.tally.sent, part.tally.received))
}
