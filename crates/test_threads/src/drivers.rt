// Clocks and drivers: each call on its happy path, through the trait, and a park that another thread ends.
use crate::parkers::start_setting;
use mono_driver::*;
use mono_inbox::Unpark;
use mono_model::Host;
use std::alloc::Global;
use std::process::Abort;
use std::sync::atomic::Ordering;
use std::time;
use std::time::Duration;

/// Returns a clock with these readings.
fn clock_of<R: Abort>(rt: &R, alloc: Global, readings: &[u128]) -> ListClock {
    let mut instants = Vec::new(alloc);
    for nanos in readings {
        let instant = Instant::from_nanos(*nanos).expect(rt, "in range");
        instants.push(instant).expect(rt, "memory");
    }
    assert!(rt; !instants.is_empty());
    ListClock::new(instants)
}

/// Makes each call of a driver once, and returns its reading then. The park was unparked before.
fn calls_all<R: Host + Abort, D: Driver>(rt: &R, driver: &mut D) -> u128 {
    driver.unpark().expect(rt, "memory").unpark(rt);
    let are_ok = driver.submit(rt).is_ok() & driver.park(rt).is_ok();
    assert!(rt; are_ok & driver.park_timeout(rt, Duration::from_millis(3)).is_ok());
    driver.now().as_nanos()
}

#[test]
fn each_call_of_each_driver(rt: HostRuntime) {
    let alloc = rt.alloc();
    let mut steps = StepDriver::new(Vec::new(alloc));
    let of_steps = calls_all(&rt, &mut steps);
    let mut timed = TimeDriver::new(steps);
    let of_timed = calls_all(&rt, &mut timed);
    let of_inner = timed.into_inner().now().as_nanos();
    let clock = clock_of(&rt, alloc, &[7, 9]);
    let mut threads = ThreadDriver::new(alloc, clock).expect(&rt, "memory");
    let of_threads = calls_all(&rt, &mut threads);
    let mut timed = TimeDriver::new(threads);
    let told = [
        of_steps,
        of_timed,
        of_inner,
        of_threads,
        calls_all(&rt, &mut timed),
    ];
    assert!(rt; told == [3000000, 6000000, 6000000, 7, 9]);
}

/// Returns whether a park sees the flag that another thread sets before it unparks.
fn parks_for_the_flag<R: Host + Abort + Copy + Send + 'static>(
    rt: R,
    alloc: Global,
    driver: &mut ThreadDriver<ListClock>,
    is_limited: bool,
) -> bool {
    let handle = driver.unpark().expect(&rt, "memory");
    let (flag, other) = start_setting(rt, alloc, handle, Duration::from_millis(30));
    let parked = if is_limited {
        driver.park_timeout(&rt, Duration::from_secs(3600))
    } else {
        driver.park(&rt)
    };
    let was_set = flag.load(Ordering::SeqCst) == 1;
    other.join(&rt);
    was_set && parked.is_ok()
}

#[test]
fn a_park_ends_by_another_thread(rt: HostRuntime) {
    let clock = clock_of(&rt, rt.alloc(), &[0]);
    let mut driver = ThreadDriver::new(rt.alloc(), clock).expect(&rt, "memory");
    for is_limited in [false, true, false] {
        assert!(rt; parks_for_the_flag(rt, rt.alloc(), &mut driver, is_limited));
    }
}

/// Returns a driver that parks its thread. Its clock always reads 0.
fn parking<R: Abort>(rt: &R, alloc: Global) -> ThreadDriver<ListClock> {
    ThreadDriver::new(alloc, clock_of(rt, alloc, &[0])).expect(rt, "memory")
}

/// Returns how long a park of at most this long takes that no call ends.
fn gone_of<R: Host + Abort>(
    rt: &R,
    driver: &mut ThreadDriver<ListClock>,
    longest: Duration,
) -> Duration {
    let begin = time::Instant::now(rt).expect(rt, "a clock");
    assert!(rt; driver.park_timeout(rt, longest).is_ok());
    begin.elapsed(rt).expect(rt, "a clock")
}

/// A park that is a millisecond too short takes no time at all here, and a true one takes its time on a busy machine, too.
#[test]
fn no_timed_park_is_a_millisecond_too_short(rt: HostRuntime) {
    let mut driver = parking(&rt, rt.alloc());
    for _ in 0..50 {
        let gone = gone_of(&rt, &mut driver, Duration::from_millis(1));
        assert!(rt; gone >= Duration::from_micros(900));
    }
}

/// Waits until a park of a millisecond takes less than eight. A busy machine may need several; no park does if each is
/// ten milliseconds too long.
#[test]
fn some_timed_park_is_not_ten_milliseconds_too_long(rt: HostRuntime) {
    let mut driver = parking(&rt, rt.alloc());
    for _ in rt.forever() {
        let gone = gone_of(&rt, &mut driver, Duration::from_millis(1));
        if gone < Duration::from_millis(8) {
            return;
        }
    }
}

/// A park of no time takes the token, too, so the next park takes its time.
#[test]
fn a_park_of_no_time_takes_the_token(rt: HostRuntime) {
    let mut driver = parking(&rt, rt.alloc());
    let handle = driver.unpark().expect(&rt, "memory");
    for _ in 0..5 {
        handle.unpark(&rt);
        assert!(rt; driver.park_timeout(&rt, Duration::ZERO).is_ok());
        let gone = gone_of(&rt, &mut driver, Duration::from_millis(50));
        assert!(rt; gone >= Duration::from_millis(45));
    }
}

/// A long park lasts until another thread ends it, and not for a second or two.
#[test]
fn a_long_park_of_a_driver_does_not_end_by_itself(rt: HostRuntime) {
    let mut driver = parking(&rt, rt.alloc());
    let handle = driver.unpark().expect(&rt, "memory");
    let (flag, other) = start_setting(rt, rt.alloc(), handle, Duration::from_millis(2500));
    assert!(rt; driver.park_timeout(&rt, Duration::from_secs(3600)).is_ok());
    assert!(rt; flag.load(Ordering::SeqCst) == 1);
    other.join(&rt);
}
