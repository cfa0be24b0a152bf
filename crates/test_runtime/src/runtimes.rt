// Another thread that wakes a sleeping runtime.
use crate::runs::{answer_of, main_task, sleeping};
use crate::turns::{Call, Gives, IDLE, Shared, Task};
use mono_blocking::{BlockingHandle, BlockingStrategy, NoPool};
use mono_inbox::{RemoteWaker, UnparkHandle};
use mono_model::Host;
use std::alloc::Global;
use std::process::Abort;
use std::sync::Arc;
use std::sync::atomic::Ordering;
use std::time::Duration;
use std::{thread, time};

const WAKES: u64 = 10000;

/// Returns a task that hands its waker out in its first turn, and is ready in the turn after the last wake.
fn woken_task() -> Task {
    Task {
        calls: &[Call::Waker],
        turns: WAKES,
        answers: &[0],
        ..IDLE
    }
}

/// Returns whether the task has had more turns than this, within some seconds.
fn has_had<R: Host>(rt: &R, shared: &Shared, turns: u64) -> bool {
    for look in 0..200000 {
        if shared.turns.load(Ordering::SeqCst) > turns {
            return true;
        }
        if look > 100000 {
            thread::sleep(rt, Duration::from_micros(100));
        }
    }
    false
}

/// Returns whether this has lasted longer than a busy machine may take.
fn is_late<R: Host>(rt: &R, begin: &time::Instant) -> bool {
    match begin.elapsed(rt) {
        Ok(gone) => gone > Duration::from_secs(20),
        Err(_) => false,
    }
}

/// Wakes the task, again and again, each time after its turn, and stops early on a machine that is too busy. Returns
/// how often a woken task had no turn in time.
fn lost_of<R: Host>(
    rt: &R,
    shared: &Shared,
    waker: &RemoteWaker<UnparkHandle>,
    begin: &time::Instant,
) -> u64 {
    let mut lost = 0u64;
    for turns in 1..WAKES + 1 {
        if is_late(rt, begin) {
            shared.turns.store(WAKES, Ordering::SeqCst);
            waker.wake(rt);
            return lost;
        }
        waker.wake(rt);
        if !has_had(rt, shared, turns) {
            lost = lost.saturating_add(1);
            waker.wake(rt);
        }
    }
    lost
}

/// Wakes the task from another thread, by the waker that it hands out in its first turn.
fn wakes<R: Host + Abort>(rt: &R, shared: &Shared) -> u64 {
    assert!(rt; has_had(rt, shared, 0));
    let waker = shared.waker.lock(rt).take().expect(rt, "a waker");
    let begin = time::Instant::now(rt).expect(rt, "a clock");
    lost_of(rt, shared, &waker, &begin)
}

/// Returns whether a main task that another thread wakes is ready with 1, how many turns it had, and how often it had
/// none in time.
fn woken<R: Host + Abort + Copy + Send + 'static>(rt: R, alloc: Global) -> (bool, u64, u64) {
    let main = main_task(&rt, alloc, woken_task());
    let ours = Arc::try_clone(&main.shared).expect(&rt, "memory");
    let theirs = Arc::try_clone(&main.shared).expect(&rt, "memory");
    let pool = BlockingHandle::<NoPool<Gives>>::Empty(BlockingStrategy::Panic);
    let mut runtime = sleeping(&rt, alloc, pool, 4);
    let other = thread::spawn(&rt, move || wakes(&rt, &theirs)).expect(&rt, "a thread");
    let is_ready = matches!(answer_of(&rt, alloc, &mut runtime, main, 1000000), Ok(1));
    let lost = other.join(&rt);
    let has_no_pool = runtime.into_pool().is_none();
    let turns = ours.turns.load(Ordering::SeqCst);
    (is_ready && has_no_pool, turns, lost)
}

#[test]
fn no_wake_of_a_sleeping_runtime_is_lost(rt: HostRuntime) {
    assert_eq!(rt; woken(rt, rt.alloc()), (true, WAKES + 1, 0));
}

/// Hands its waker out in its one turn.
const HANDS_OUT: Task = Task {
    calls: &[Call::Waker],
    answers: &[0],
    ..IDLE
};

/// Returns whether the main task's waker lists nothing once its output was returned.
fn is_unlisted_after<R: Host + Abort>(rt: &R, alloc: Global) -> bool {
    let main = main_task(rt, alloc, HANDS_OUT);
    let shared = Arc::try_clone(&main.shared).expect(rt, "memory");
    let pool = BlockingHandle::<NoPool<Gives>>::Empty(BlockingStrategy::Panic);
    let mut runtime = sleeping(rt, alloc, pool, 4);
    let is_ready = matches!(answer_of(rt, alloc, &mut runtime, main, 10), Ok(1));
    let waker = shared.waker.lock(rt).take().expect(rt, "a waker");
    let is_listed = waker.wake(rt);
    let has_no_pool = runtime.into_pool().is_none();
    is_ready && has_no_pool && !is_listed
}

#[test]
fn a_waker_of_the_main_task_lists_nothing_after_the_answer(rt: HostRuntime) {
    assert!(rt; is_unlisted_after(&rt, rt.alloc()));
}
