// Parkers, and parks that another thread ends.
use mono_inbox::{Parker, Unpark, UnparkHandle};
use mono_model::Host;
use std::alloc::Global;
use std::process::Abort;
use std::sync::Arc;
use std::sync::atomic::{AtomicU64, Ordering};
use std::thread::JoinHandle;
use std::time::Duration;
use std::{thread, time};

/// Returns a handle that ends a park of this parker.
pub(crate) fn handle_of<R: Abort>(rt: &R, parker: &Parker) -> UnparkHandle {
    parker.handle().expect(rt, "memory")
}

#[test]
fn a_park_takes_the_token(rt: HostRuntime) {
    let parker = Parker::new(rt.alloc()).expect(&rt, "memory");
    let handle = handle_of(&rt, &parker);
    handle.unpark(&rt);
    parker.park(&rt);
    handle.clone().expect(&rt, "memory").unpark(&rt);
    parker.park_timeout(&rt, Duration::from_secs(3600));
    parker.park_timeout(&rt, Duration::from_millis(1));
}

/// Starts a thread that sets a flag after a while and then unparks, and returns the flag, too.
pub(crate) fn start_setting<R: Host + Abort + Copy + Send + 'static>(
    rt: R,
    alloc: Global,
    handle: UnparkHandle,
    after: Duration,
) -> (Arc<AtomicU64, Global>, JoinHandle<()>) {
    let flag = Arc::new(alloc, AtomicU64::new(0)).expect(&rt, "memory");
    let theirs = Arc::try_clone(&flag).expect(&rt, "memory");
    let thread = thread::spawn(&rt, move || {
        thread::sleep(&rt, after);
        theirs.store(1, Ordering::SeqCst);
        handle.unpark(&rt);
    });
    (flag, thread.ok().expect(&rt, "a thread"))
}

/// Returns whether a park sees the flag that another thread sets before it unparks.
fn parks_for_the_flag<R: Host + Abort + Copy + Send + 'static>(
    rt: R,
    alloc: Global,
    parker: &Parker,
    is_limited: bool,
) -> bool {
    let handle = handle_of(&rt, parker);
    let (flag, other) = start_setting(rt, alloc, handle, Duration::from_millis(30));
    if is_limited {
        parker.park_timeout(&rt, Duration::from_secs(3600));
    } else {
        parker.park(&rt);
    }
    let was_set = flag.load(Ordering::SeqCst) == 1;
    other.join(&rt);
    was_set
}

#[test]
fn a_park_that_returns_took_the_token(rt: HostRuntime) {
    let parker = Parker::new(rt.alloc()).expect(&rt, "memory");
    handle_of(&rt, &parker).unpark(&rt);
    parker.park(&rt);
    for is_limited in [false, true, false] {
        assert!(rt; parks_for_the_flag(rt, rt.alloc(), &parker, is_limited));
    }
}

/// How often a token is handed to and fro: often enough to catch a wake that is lost now and then.
const TURNS: u64 = 100_000;

/// The longest that a park may wait for a token that is on its way, in seconds.
const LATE: u64 = 10;

/// Waits for the token, counts it and hands it back, `TURNS` times.
fn hands_back<R: Host>(rt: &R, mine: &Parker, other: &UnparkHandle, count: &AtomicU64) {
    for turn in 0..TURNS {
        mine.park_timeout(rt, Duration::from_secs(LATE));
        count.store(turn.wrapping_add(1), Ordering::SeqCst);
        other.unpark(rt);
    }
}

/// Hands the token over and waits until it is back. Returns whether it was counted each time before it was back.
fn hands_over<R: Host>(rt: &R, mine: &Parker, other: &UnparkHandle, count: &AtomicU64) -> bool {
    for turn in 0..TURNS {
        other.unpark(rt);
        mine.park_timeout(rt, Duration::from_secs(LATE));
        if count.load(Ordering::SeqCst) != turn.wrapping_add(1) {
            return false;
        }
    }
    true
}

/// Returns whether each token that is handed to another thread was counted there before it was back.
fn goes_to_and_fro<R: Host + Abort + Copy + Send + 'static>(
    rt: R,
    alloc: Global,
    mine: &Parker,
    theirs: Parker,
) -> bool {
    let handle = handle_of(&rt, mine);
    let other = handle_of(&rt, &theirs);
    let count = Arc::new(alloc, AtomicU64::new(0)).expect(&rt, "memory");
    let their_count = Arc::try_clone(&count).expect(&rt, "memory");
    let thread = thread::spawn(&rt, move || hands_back(&rt, &theirs, &handle, &their_count))
        .ok()
        .expect(&rt, "a thread");
    let is_counted = hands_over(&rt, mine, &other, &count);
    thread.join(&rt);
    is_counted
}

#[test]
fn a_token_goes_to_and_fro(rt: HostRuntime) {
    let mine = Parker::new(rt.alloc()).expect(&rt, "memory");
    let theirs = Parker::new(rt.alloc()).expect(&rt, "memory");
    assert!(rt; goes_to_and_fro(rt, rt.alloc(), &mine, theirs));
}

/// Returns how long a park of at most `milliseconds` takes that no call ends.
fn gone_of<R: Host + Abort>(rt: &R, parker: &Parker, milliseconds: u64) -> Duration {
    let begin = time::Instant::now(rt).expect(rt, "a clock");
    parker.park_timeout(rt, Duration::from_millis(milliseconds));
    begin.elapsed(rt).expect(rt, "a clock")
}

#[test]
fn a_timed_park_ends_near_its_time(rt: HostRuntime) {
    let parker = Parker::new(rt.alloc()).expect(&rt, "memory");
    let gone = gone_of(&rt, &parker, 300);
    assert!(rt; gone >= Duration::from_millis(300) && gone < Duration::from_secs(30));
}

#[test]
fn a_park_does_not_end_by_itself(rt: HostRuntime) {
    let parker = Parker::new(rt.alloc()).expect(&rt, "memory");
    let handle = handle_of(&rt, &parker);
    let (flag, other) = start_setting(rt, rt.alloc(), handle, Duration::from_secs(4));
    parker.park(&rt);
    assert!(rt; flag.load(Ordering::SeqCst) == 1);
    other.join(&rt);
}
