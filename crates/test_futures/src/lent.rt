// Values that are taken out by their numbers, over several pages.
use mono_table::Slots;
use std::alloc::Global;

/// Adds `numbers` numbers, each with itself as its value. All but every thousandth are taken out at once, and are not
/// put back.
fn fill(alloc: Global, slots: &mut Slots<u64, u64>, numbers: u64) -> bool {
    for number in 0..numbers {
        if slots.reserve_value(alloc, number).is_err() {
            return false;
        }
        slots.commit();
        if number % 1000 != 0 && slots.take(number).0.is_some() {
            slots.remove(number);
        }
    }
    true
}

/// Takes a value out, and puts it back one greater, with the side value. Returns the value and the side value from
/// before.
fn raise(slots: &mut Slots<u64, u64>, number: u64) -> Option<(u64, Option<u64>)> {
    let (value, beside) = slots.take(number);
    let was = value?;
    slots.put(number, was.saturating_add(1), Some(was));
    Some((was, beside))
}

#[test]
fn values_come_back_from_several_pages(rt: HostRuntime) {
    let mut slots = Slots::new(rt.alloc());
    assert!(rt; fill(rt.alloc(), &mut slots, 70_000));
    assert!(rt; raise(&mut slots, 66_000) == Some((66_000, None)));
    assert!(rt; raise(&mut slots, 66_000) == Some((66_001, Some(66_000))));
}
