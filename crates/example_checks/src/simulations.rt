//! Two runtimes that talk over a channel, simulated under a hundred seeds. A hasty receiver loses messages under some.

ghost use Rattle.std.specs.Prelude.{◌<◌, IfSome};
ghost use Rattle.mono_rt.specs.Views.{Rests};

mod talks;

use mono_channel::channel;
use mono_rt::{Host, JoinHandle, NoPool, Runtime, RuntimeBuilder};
use mono_sim::{End, Odds, SimDriver, World};
use std::alloc::Global;
use talks::Talk;

type Talking = Runtime<Talk, u64, SimDriver, NoPool>;

type Talks = World<Talk, u64, SimDriver, NoPool>;

// How many messages are sent.
const MESSAGES: u64 = 10;

const ODDS: Odds = Odds {
    turns: 3,
    fails: 50,
    stands: 5,
    jumps: 20,
    longest: 3,
};

// Returns a runtime on this driver, with this main task.
fn running(alloc: Global, driver: SimDriver, task: Talk) -> Option<(Talking, JoinHandle<u64>)>
    ensures { IfSome result (λ made. Rests made.0) }
{
    let builder: RuntimeBuilder<SimDriver, NoPool> = RuntimeBuilder::new(driver);
    let mut runtime: Talking = builder.build(alloc).ok()?;
    let main = runtime.spawn(alloc, task).ok()?;
    Some((runtime, main))
}

// Returns the output of the main task of a runtime.
fn output(world: &mut Talks, number: usize) -> Option<u64> {
    if number < world.len() {
        world.output(number)
    } else {
        None
    }
}

// Returns how the world of this seed ends, how many messages were sent, and how many came.
fn talk<R: Host>(rt: &R, alloc: Global, seed: u64, is_hasty: bool) -> Option<(End, u64, u64)> {
    let (sender, receiver) = channel(alloc, 2).ok()?;
    let mut world: Talks = World::new(alloc, seed, ODDS);
    let (seat, driver) = world.driver(alloc).ok()?;
    let (runtime, main) = running(alloc, driver, Talk::sender(sender, MESSAGES))?;
    world.add(seat, runtime, main).ok()?;
    let (seat, driver) = world.driver(alloc).ok()?;
    let (runtime, main) = running(alloc, driver, Talk::receiver(receiver, is_hasty))?;
    world.add(seat, runtime, main).ok()?;
    let end = world.run(rt, alloc, 1000).ok()?;
    Some((end, output(&mut world, 0)?, output(&mut world, 1)?))
}

/// Returns under how many of a hundred seeds messages are lost, and the first of them.
pub fn losses<R: Host>(rt: &R, alloc: Global, is_hasty: bool) -> (u64, Option<u64>) {
    let mut lost = 0u64;
    let mut first = None;
    for seed in 0..100u64 {
        let ended = talk(rt, alloc, seed, is_hasty);
        if ended != Some((End::Over, MESSAGES, MESSAGES)) {
            lost = lost.saturating_add(1);
            first = first.or(Some(seed));
        }
    }
    (lost, first)
}
