//! A lock with a deadline: one task holds it over a sleep, and another waits for it no longer than it wants.
ghost use Rattle.std.specs.Prelude.{◌≡◌, ◌+◌, IfSome};

use mono_forms::{FutureExt, ready};
use mono_locks::acts;
use mono_locks::mutex::{Mutex, MutexGuard, lock};
use mono_rt::{
    Host, LateError, NoPool, RuntimeBuilder, SleepError, StepDriver, TimeDriver, sleep_for,
    timeout_for,
};
use mono_sync::Only;
use std::alloc::{AllocError, Global};
use std::time::Duration;

/// Two accounts. The type promises that together they have 100.
#[derive(Drop)]
pub struct Pair {
    here: u64,
    there: u64,
    ghost is_whole: { here + there ≡ 100 },
}

type Shared = Only<Mutex<Pair>>;

/// Transfers 30 in a task that holds the lock for 30 ms, and in one that waits for it for at most `limit` ms. Returns both
/// accounts once the lock was given back.
pub fn transfer<R: Host>(rt: &R, alloc: Global, limit: u64) -> Option<(u64, u64)>
    ensures { IfSome result (λ r. r.0 + r.1 ≡ 100) }
{
    let clerk = |limit: u64, millis: u64| {
        let locked = timeout_for(Duration::from_millis(limit), lock::<Shared, Pair>());
        locked.then(move |got: Result<Result<MutexGuard<Pair>, AllocError>, LateError>| match got {
            Ok(Ok(mut guard)) => sleep_for(Duration::from_millis(millis))
                .then(move |_: Result<(), SleepError>| {
                    let pair = guard.get_mut();
                    let amount = pair.here.min(30);
                    pair.here -= amount;
                    pair.there += amount;
                    acts::unlock::<Shared, Pair>(guard)
                })
                .map(|put: Result<(), MutexGuard<Pair>>| put.is_ok())
                .left_future(),
            _ => ready(false).right_future(),
        })
    };
    let driver = TimeDriver::new(StepDriver::new(Vec::new(alloc)));
    let builder: RuntimeBuilder<_, NoPool> = RuntimeBuilder::new(driver);
    let pair = Pair {
        here: 100,
        there: 0,
    };
    let part = Mutex::new(alloc, pair);
    let mut runtime = builder.build_sharing(alloc, Only { part }).ok()?;
    let holder = runtime.spawn(alloc, clerk(1000, 30)).ok()?;
    runtime.block_on(rt, alloc, clerk(limit, 0), 1000).ok()?;
    runtime.run_until(rt, alloc, &holder, 1000).ok()?;
    let pair = runtime.shared().part.get()?;
    Some((pair.here, pair.there))
}
