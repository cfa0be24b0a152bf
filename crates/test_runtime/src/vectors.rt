// Small cases with their answers: the entries of a builder, a strategy after a pool, and a spawned task. `builders` and
// `waits` have those of a start and of a driver that fails.
ghost use Rattle.mono_rt.specs.Views.{Rests};

use crate::builders::builder;
use crate::runs::{Sleeping, answer_of, main_task, parking};
use crate::turns::{Call, Gives, IDLE, NO_POOL, Task};
use crate::waits::{Quiet, outcome_of, ready};
use mono_blocking::{BlockingStrategy, DefaultThreadPool, NoSpawner};
use mono_model::Host;
use mono_rt::{RunError, RuntimeBuilder};
use std::alloc::Global;
use std::process::Abort;

#[test]
fn entries_are_at_least_256(rt: HostRuntime) {
    assert!(rt; builder(rt.alloc()).with_entries(100).entries() == 256);
    assert!(rt; builder(rt.alloc()).with_entries(300).entries() == 300);
    assert!(rt; builder(rt.alloc()).entries() == 1024);
}

/// A runtime that may have a pool.
type Pooled = Sleeping<DefaultThreadPool<Gives>>;

/// Builds a runtime that got a pool, and then a strategy in its place.
fn without_its_pool<R: Host + Abort + Send + 'static>(rt: &R, alloc: Global) -> Pooled
    ensures { Rests result }
{
    let pool = DefaultThreadPool::new(rt, alloc, 0, &mut NoSpawner::new()).expect(rt, "memory");
    RuntimeBuilder::new(parking(rt, alloc))
        .attach_thread_pool(pool)
        .with_blocking_strategy(BlockingStrategy::Panic)
        .build(alloc)
        .expect(rt, "memory")
}

/// Makes a job, which is refused, and asks for a waker, which is that of task 0.
const ASKS: Task = Task {
    calls: &[Call::Block(4), Call::Waker],
    answers: &[NO_POOL, 0],
    ..IDLE
};

/// Returns whether a main task finds no pool.
fn finds_no_pool<R: Host + Abort + Send + 'static>(rt: &R, alloc: Global) -> bool {
    let main = main_task(rt, alloc, ASKS);
    let mut runtime = without_its_pool(rt, alloc);
    let answer = answer_of(rt, alloc, &mut runtime, main, 10);
    answer == Ok(1) && runtime.into_pool().is_none()
}

#[test]
fn a_strategy_takes_the_place_of_a_pool(rt: HostRuntime) {
    assert!(rt; finds_no_pool(&rt, rt.alloc()));
}

/// Builds a runtime without a journal, and spawns a task that is ready with 2.
fn with_two<R: Abort>(rt: &R, alloc: Global) -> Quiet
    ensures { Rests result }
{
    let two = ready(rt, alloc, 2);
    let mut runtime: Quiet = builder(alloc).build(alloc).expect(rt, "memory");
    assert!(rt; runtime.spawn(alloc, two).is_ok());
    runtime
}

/// Returns how a main task that is ready with 1 ends behind the spawned one.
fn runs_both<R: Host + Abort>(rt: &R, alloc: Global) -> Result<u64, RunError> {
    let one = ready(rt, alloc, 1);
    let mut runtime = with_two(rt, alloc);
    let answer = outcome_of(rt, alloc, &mut runtime, one, 10);
    assert!(rt; runtime.into_pool().is_none());
    answer
}

#[test]
fn a_main_task_ends_behind_a_spawned_one(rt: HostRuntime) {
    assert!(rt; runs_both(&rt, rt.alloc()) == Ok(1));
}
