//! Keys of a wheel that are given again.
use mono_wheel::Wheel;
use std::alloc::Global;
use std::process::Abort;

// Inserts a new key that is due at a tick.
pub(crate) fn put<R: Abort>(rt: &R, alloc: Global, wheel: &mut Wheel, tick: u64) -> usize {
    let key = wheel.reserve_entry(alloc).expect(rt, "memory");
    if tick < 1 << 63 {
        let _ = wheel.insert(key, tick);
    }
    key
}

// Removes a key and gives it back.
fn give_back(wheel: &mut Wheel, key: usize) {
    if wheel.is_in(key) {
        wheel.remove(key);
        wheel.free_entry(key);
    }
}

// Inserts a key and gives it back, a thousand times. Returns whether it has the same number each time.
fn is_given_again<R: Abort>(rt: &R, alloc: Global, wheel: &mut Wheel) -> bool {
    let first = put(rt, alloc, wheel, 5);
    give_back(wheel, first);
    for _ in 0..1000 {
        let key = put(rt, alloc, wheel, 5);
        give_back(wheel, key);
        if key != first {
            return false;
        }
    }
    true
}

// A key that was given back takes no new memory.
#[test]
fn keys_are_given_again(rt: HostRuntime) {
    let mut wheel = Wheel::new(rt.alloc()).expect(&rt, "memory");
    assert!(rt; is_given_again(&rt, rt.alloc(), &mut wheel));
}
