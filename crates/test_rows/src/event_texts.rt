// A long turn as text.
use mono_machine::{Act, End, Event, List, TurnStep};
use mono_text::put_event;
use std::alloc::Global;

// Returns a turn of 500 steps, or of fewer if memory runs out.
fn long_turn(alloc: Global) -> Event {
    let mut steps = List::new(alloc);
    for _ in 0..500 {
        let _ = steps.push(TurnStep::Act(Act::Spawn));
    }
    Event::Turn(steps, End::Pending)
}

#[test]
fn a_long_turn_has_its_text(rt: HostRuntime) {
    let mut out = Vec::new(rt.alloc());
    assert!(&rt; put_event(&mut out, &long_turn(rt.alloc())).is_ok());
    assert!(&rt; out.len() == 4 + 500 * 7 + 9);
}
