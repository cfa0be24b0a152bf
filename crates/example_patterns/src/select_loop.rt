//! A loop that waits for a message, for a tick and for the end of the channel, whichever comes first.
ghost use Rattle.std.specs.Prelude.{◌≤◌, IfSome};

use mono_forms::{Either, FutureExt, Loop, race_either, repeat};
use mono_rt::{Host, NoPool, Outcome, RuntimeBuilder, StepDriver, TimeDriver, sleep_for};
use mono_sync::mpsc::{Channel, Recv, Send};
use mono_sync::{Only, acts};
use std::alloc::{AllocError, Global};
use std::time::Duration;

type Shared = Only<Channel<u64>>;

type Came = Either<Result<Option<u64>, AllocError>, Result<(), mono_rt::SleepError>>;

/// The ticks that came: the type promises that there are at most 9.
#[derive(Drop)]
pub struct Ticks {
    seen: u64,
    ghost few: { seen ≤ 9 },
}

impl Outcome for Ticks {
    ghost output_number = { λ ticks. ticks.seen };

    fn number(&self) -> u64 {
        self.seen
    }
}

fn next(ticks: Ticks, came: Came) -> Loop<Ticks, Ticks> {
    let seen = ticks.seen;
    match came {
        Either::Left(Ok(Some(_))) => Loop::Continue(ticks),
        Either::Right(Ok(())) if seen < 9 => Loop::Continue(Ticks { seen: seen + 1 }),
        _ => Loop::Break(ticks),
    }
}

/// Waits for a message, which is sent after 55 ms, while a tick comes after each 10 ms without one. Ends with the channel,
/// which is then closed, or with a tick after the ninth. Returns how many ticks came.
pub fn select_loop<R: Host>(rt: &R, alloc: Global) -> Option<u64>
    ensures { IfSome result (λ ticks. ticks ≤ 9) }
{
    let source = sleep_for(Duration::from_millis(55))
        .then(|_| Send::<Shared, u64>::new(1))
        .then(|_| acts::close_channel::<Shared, u64>())
        .map(|_: ()| Ticks { seen: 0 });
    let sink = repeat(Ticks { seen: 0 }, |ticks: Ticks| {
        let tick = sleep_for(Duration::from_millis(10));
        race_either(Recv::<Shared, u64>::new(), tick).map(move |came: Came| next(ticks, came))
    });
    let [source, sink] = [source.left_future(), sink.right_future()];
    let driver = TimeDriver::new(StepDriver::new(Vec::new(alloc)));
    let builder: RuntimeBuilder<_, NoPool> = RuntimeBuilder::new(driver);
    let part = Channel::new(alloc, 1);
    let mut runtime = builder.build_sharing(alloc, Only { part }).ok()?;
    runtime.spawn(alloc, source).ok()?;
    Some(runtime.block_on(rt, alloc, sink, 1000).ok()?.seen)
}
