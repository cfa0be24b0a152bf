// A watched value.
use crate::tickets::number_of;
use mono_sync::Ticket;
use mono_sync::watch::{Changing, Watch};
use mono_task::SharedState;

// Returns the ticket of a future of this task that has seen this version and waits from now on.
fn drawn(watch: &mut Watch<u64>, seen: u64, by: u64) -> Option<Ticket> {
    match watch.changed(seen, None, by) {
        Changing::Joined(ticket) => Some(ticket),
        _ => None,
    }
}

// The last value alone is seen, and all that wait are woken.
#[test]
fn the_last_value(rt: HostRuntime) {
    let mut watch = Watch::new(rt.alloc(), 10u64);
    let one = drawn(&mut watch, 0, 1);
    assert_eq!(rt; number_of(one), Some(0));
    assert!(rt; matches!(watch.changed(0, one, 1), Changing::Waits));
    assert_eq!(rt; number_of(drawn(&mut watch, 0, 2)), Some(1));
    assert_eq!(rt; watch.next_owed(), None);
    assert_eq!(rt; watch.send(11), Ok(10));
    assert_eq!(rt; (watch.next_owed(), watch.next_owed()), (Some(1), Some(2)));
    assert_eq!(rt; watch.next_owed(), None);
    assert_eq!(rt; watch.send(12), Ok(11));
    assert_eq!(rt; watch.next_owed(), None);
    assert_eq!(rt; (*watch.borrow(), watch.version()), (12, 2));
    assert!(rt; matches!(watch.changed(0, one, 1), Changing::Changed(2)));
    assert_eq!(rt; number_of(drawn(&mut watch, 2, 1)), Some(2));
}
