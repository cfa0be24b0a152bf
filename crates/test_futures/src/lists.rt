// Levels, and lists and a wheel whose memory grows.
use mono_wheel::{Links, Wheel, level_for};
use std::alloc::Global;
use std::process::Abort;

// The ticks of the clock and of a key, and the key's level.
const LEVELS: [(u64, u64, usize); 10] = [
    (0, 63, 0),
    (0, 64, 1),
    (0, 4095, 1),
    (0, 4096, 2),
    (0, 1 << 18, 3),
    (0, 1 << 24, 4),
    (0, 1 << 30, 5),
    (0, (1 << 36) - 1, 5),
    (0, 1 << 36, 6),
    (0, 1 << 42, 6),
];

#[test]
fn levels(rt: HostRuntime) {
    for (elapsed, when, level) in LEVELS {
        assert!(rt; level_for(elapsed, when) == level);
    }
}

fn many_keys<R: Abort>(rt: &R, alloc: Global, wheel: &mut Wheel) {
    for _ in 0..1000 {
        wheel.reserve_entry(alloc).expect(rt, "memory");
    }
}

// There is room for more nodes, and more keys, than the memory of the lists' ends holds.
#[test]
fn memory_grows(rt: HostRuntime) {
    let mut links = Links::new(rt.alloc(), 1).expect(&rt, "memory");
    links.reserve(rt.alloc(), 1000).expect(&rt, "memory");
    let mut wheel = Wheel::new(rt.alloc()).expect(&rt, "memory");
    many_keys(&rt, rt.alloc(), &mut wheel);
}
