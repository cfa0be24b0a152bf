// Runtimes with the defaults, in a world.
ghost use Rattle.std.specs.Prelude.{◌≡◌, length, IfSome, OnSome};
ghost use Rattle.mono_rt.specs.Views.{Rests};
ghost use Rattle.mono_sim.specs.Launches.{IsStarted, Launches};
ghost use Rattle.mono_sim.specs.Worlds.{IsSound};

use crate::draws::Odds;
use crate::drivers::SimDriver;
use crate::worlds::World;
use mono_blocking::ThreadPool;
use mono_inbox::UnparkHandle;
use mono_joinword::Outcome;
use mono_rt::{Cx, Runtime, RuntimeBuilder};
use mono_task::{JoinHandle, TaskFuture};
use std::alloc::Global;

// Returns a runtime with the defaults and a journal on this driver, and its main task, which runs this future. Returns None
// if out of memory.
fn started<F, O, P>(
    alloc: Global,
    driver: SimDriver,
    future: F,
) -> Option<(Runtime<F, O, SimDriver, P>, JoinHandle<O>)>
where
    F: TaskFuture<Cx<F, O, P, UnparkHandle>, Output = O> + Drop,
    O: Outcome + Drop,
    P: ThreadPool + Drop,
    ensures started { IfSome result (λ made. IsStarted future made.0) }
    ensures rests { IfSome result (λ made. Rests made.0) }
{
    let builder: RuntimeBuilder<SimDriver, P> = RuntimeBuilder::new(driver);
    let mut runtime: Runtime<F, O, SimDriver, P> = builder.with_journal().build(alloc).ok()?;
    let main = runtime.spawn(alloc, future).ok()?;
    Some((runtime, main))
}

impl<F, O, P> World<F, O, SimDriver, P>
where
    F: TaskFuture<Cx<F, O, P, UnparkHandle>, Output = O> + Drop,
    O: Outcome + Drop,
    P: ThreadPool + Drop,
{
    /// Adds a runtime with the defaults and a journal, on a driver of this world. Its main task runs this future
    /// (`launched`). Returns the runtime's number, counted from 0 (`number`), or None if out of memory.
    pub fn launch(&mut self, alloc: Global, future: F) -> Option<usize>
        requires callable { (f : F) → F.can_poll f }
        ensures number { IfSome result (λ number. number ≡ length self.old.nodes.items) }
        ensures launched { OnSome result (Launches future self.old self.new) }
        ensures sound { IsSound F.TaskFuture self.old → IsSound F.TaskFuture self.new }
    {
        let (seat, driver) = self.driver(alloc).ok()?;
        let (runtime, main) = started(alloc, driver, future)?;
        let number = self.add(seat, runtime, main).ok()?;
        Some(number)
    }

    /// Returns the world of a seed in which each of these futures runs on a runtime of its own, with the defaults and a
    /// journal, in their order (`count`). Returns None if out of memory.
    pub fn launched(
        alloc: Global,
        seed: u64,
        odds: Odds,
        futures: Vec<F>,
    ) -> Option<World<F, O, SimDriver, P>>
        requires callable { (f : F) → F.can_poll f }
        ensures sound { IfSome result (IsSound F.TaskFuture) }
        ensures count { IfSome result (λ world. length world.nodes.items ≡ length futures.items) }
    {
        let mut world = World::new(alloc, seed, odds);
        for future in futures {
            world.launch(alloc, future)?;
        }
        Some(world)
    }
}
