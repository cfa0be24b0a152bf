//! Tasks of one runtime that wait for tokens of buckets which they share.

ghost use Rattle.std.specs.Prelude.{◌≡◌, IfSome};
ghost use Rattle.mono_rt.specs.Views.{Rests, shared_of, turn_of};
ghost use Rattle.example_services.specs.Rates.{KeepsRates};

pub mod shelves;
pub mod takers;

use mono_rt::{Host, NoPool, Runtime, RuntimeBuilder, StepDriver, TimeDriver};
use mono_serve::Buckets;
use mono_serve::laws::rate_is_kept;
use shelves::Shelf;
use std::alloc::Global;
use takers::Party;

/// A runtime of tasks that share two buckets.
pub type Running = Runtime<Party, u64, TimeDriver<StepDriver>, NoPool, Shelf>;

// Adds a bucket of 3 tokens, which gains one each 100 ms, and a bucket of one token, which gains one each 10 ms.
fn add_two(alloc: Global, buckets: &mut Buckets) -> bool {
    buckets.add(alloc, 3, 100).is_ok() && buckets.add(alloc, 1, 10).is_ok()
}

// Makes two buckets, and no notes.
fn shelf(alloc: Global) -> Option<Shelf> {
    let mut buckets = Buckets::new(alloc, 2).ok()?;
    if !add_two(alloc, &mut buckets) {
        return None;
    }
    Some(Shelf {
        buckets,
        notes: Vec::new(alloc),
    })
}

// Returns a runtime whose tasks share two buckets.
fn takers_runtime(alloc: Global) -> Option<Running>
    ensures { IfSome result (λ made. Rests made) }
{
    let shelf = shelf(alloc)?;
    let driver = TimeDriver::new(StepDriver::new(Vec::new(alloc)));
    let builder: RuntimeBuilder<TimeDriver<StepDriver>, NoPool> = RuntimeBuilder::new(driver);
    match builder.build_sharing(alloc, shelf) {
        Ok(made) => Some(made),
        Err(_) => None,
    }
}

// Spawns a task, unless out of memory.
fn spawn(alloc: Global, runtime: &mut Running, party: Party) -> bool
    ensures { turn_of runtime.new ≡ turn_of runtime.old }
{
    runtime.spawn(alloc, party).is_ok()
}

// Spawns the takers: the bucket, the tokens, and for how long each waits. Returns whether there was memory for all.
fn spawn_all(alloc: Global, runtime: &mut Running) -> bool
    requires { Rests runtime.old }
    ensures { Rests runtime.new }
{
    let takers = [
        (0, 2, 9000),
        (0, 3, 9000),
        (0, 1, 9000),
        (1, 1, 9000),
        (1, 1, 9000),
        (0, 2, 350),
        (0, 3, 450),
        (0, 1, 9000),
        (0, 4, 9000),
        (2, 1, 9000),
    ];
    let mut name = 0u64;
    let mut all = true;
    for (bucket, n, patience_ms) in takers {
        let taker = Party::taker(name, bucket, n, patience_ms);
        let is_spawned = spawn(alloc, runtime, taker);
        all = all & is_spawned;
        name = name.saturating_add(1);
    }
    all
}

// Runs the takers. In each order of their calls, a bucket gives at most the tokens that it had before, and one for each
// period that has ended.
fn run<R: Host>(rt: &R, alloc: Global, runtime: &mut Running)
    requires { Rests runtime.old }
    ensures rates { KeepsRates (shared_of runtime.old).buckets (shared_of runtime.new).buckets }
    ensures rests { Rests runtime.new }
{
    rate_is_kept();
    let _ = runtime.block_on(rt, alloc, Party::nap(5000), 100000);
}

/// Runs the takers on a runtime of their own, and returns it. Returns None if out of memory.
pub fn run_all<R: Host>(rt: &R, alloc: Global) -> Option<Running> {
    let mut runtime = takers_runtime(alloc)?;
    if !spawn_all(alloc, &mut runtime) {
        return None;
    }
    run(rt, alloc, &mut runtime);
    Some(runtime)
}
