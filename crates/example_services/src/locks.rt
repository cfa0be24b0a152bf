//! Tasks of one runtime that wait for a lock in its queue.

ghost use Rattle.std.specs.Prelude.{◌≡◌, IfSome};
ghost use Rattle.mono_rt.specs.Views.{Rests, turn_of};

mod clients;

use clients::{Client, Shared};
use mono_rt::{Host, JoinHandle, NoPool, Runtime, RuntimeBuilder, StepDriver, TimeDriver};
use mono_serve::{Keeper, Leases};
use mono_sync::Only;
use std::alloc::Global;

type Running = Runtime<Client, u64, TimeDriver<StepDriver>, NoPool, Shared>;

type Handle = JoinHandle<u64>;

// Returns a runtime whose tasks share a lock.
fn lock_runtime(alloc: Global) -> Option<Running>
    ensures { IfSome result (λ made. Rests made) }
{
    let part = Leases::new(alloc, 3, 3).ok()?;
    let driver = TimeDriver::new(StepDriver::new(Vec::new(alloc)));
    let builder: RuntimeBuilder<TimeDriver<StepDriver>, NoPool> = RuntimeBuilder::new(driver);
    match builder.build_sharing(alloc, Only { part }) {
        Ok(made) => Some(made),
        Err(_) => None,
    }
}

// Spawns a task.
fn spawn(alloc: Global, runtime: &mut Running, client: Client) -> Option<Handle>
    ensures { turn_of runtime.new ≡ turn_of runtime.old }
{
    runtime.spawn(alloc, client).ok()
}

// Runs the tasks until this one has ended. Drops its handle, and returns its output.
fn output_of<R: Host>(rt: &R, alloc: Global, runtime: &mut Running, handle: Handle) -> Option<u64>
    requires { Rests runtime.old }
    ensures { Rests runtime.new }
{
    let ended = runtime.run_until(rt, alloc, &handle, 1000);
    let output = runtime.drop_join(handle);
    if ended.is_err() {
        return None;
    }
    output.unwrap_or(None)
}

// Spawns three tasks that hold the lock for these times, and the one that closes their sessions in time. The first has
// a session of 400 ms, so the second gets the lock then at the latest.
fn spawn_all(
    alloc: Global,
    runtime: &mut Running,
    times: (u64, u64, u64),
) -> Option<(Handle, Handle, Handle)>
    ensures { turn_of runtime.new ≡ turn_of runtime.old }
{
    spawn(alloc, runtime, Client::Keeps(Keeper::new()))?;
    let first = spawn(alloc, runtime, Client::new(400, times.0))?;
    let second = spawn(alloc, runtime, Client::new(2000, times.1))?;
    let third = spawn(alloc, runtime, Client::new(2000, times.2))?;
    Some((first, second, third))
}

// Runs three tasks that hold one lock for these times. Returns at which millisecond each one released it.
fn run_all<R: Host>(
    rt: &R,
    alloc: Global,
    runtime: &mut Running,
    times: (u64, u64, u64),
) -> Option<(u64, u64, u64)>
    requires { Rests runtime.old }
{
    let (first, second, third) = spawn_all(alloc, runtime, times)?;
    let first = output_of(rt, alloc, runtime, first);
    let second = output_of(rt, alloc, runtime, second);
    let third = output_of(rt, alloc, runtime, third);
    Some((first?, second?, third?))
}

/// Runs three tasks that hold one lock for these times on a runtime of their own. Returns at which millisecond each one
/// released it, or None if one failed.
pub fn released_at<R: Host>(
    rt: &R,
    alloc: Global,
    times: (u64, u64, u64),
) -> Option<(u64, u64, u64)> {
    let mut runtime = lock_runtime(alloc)?;
    run_all(rt, alloc, &mut runtime, times)
}
