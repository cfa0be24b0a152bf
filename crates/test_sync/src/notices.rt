// A notice.
use crate::tickets::number_of;
use mono_sync::{Notify, Notifying, Ticket};
use mono_task::SharedState;

// Returns the ticket of a future of this task that waits from now on.
fn drawn(notify: &mut Notify, by: u64) -> Option<Ticket> {
    match notify.notified(None, by) {
        Notifying::Joined(ticket) => Some(ticket),
        _ => None,
    }
}

fn has(notify: &mut Notify, ticket: Option<Ticket>, by: u64) -> bool {
    matches!(notify.notified(ticket, by), Notifying::Notified)
}

// One notice is kept while no task waits, and no more than one.
#[test]
fn one_is_kept(rt: HostRuntime) {
    let mut notify = Notify::new(rt.alloc());
    notify.notify_one();
    notify.notify_one();
    assert_eq!(rt; notify.next_owed(), None);
    assert!(rt; has(&mut notify, None, 1));
    assert_eq!(rt; number_of(drawn(&mut notify, 1)), Some(0));
}

// Each notice to one in the same turn goes to another task. One more is kept.
#[test]
fn two_at_once(rt: HostRuntime) {
    let mut notify = Notify::new(rt.alloc());
    let one = drawn(&mut notify, 1);
    let two = drawn(&mut notify, 2);
    notify.notify_one();
    notify.notify_one();
    notify.notify_one();
    assert_eq!(rt;
        (notify.next_owed(), notify.next_owed()),
        (Some(1), Some(2))
    );
    assert_eq!(rt; notify.next_owed(), None);
    assert!(rt; has(&mut notify, one, 1) && has(&mut notify, two, 2));
    assert!(rt; has(&mut notify, None, 3));
    assert_eq!(rt; number_of(drawn(&mut notify, 3)), Some(2));
}

// A notice that drew no ticket takes one of another notice for none: nothing is passed on with it, and its future waits.
#[test]
fn a_ticket_of_another_notice(rt: HostRuntime) {
    let mut other = Notify::new(rt.alloc());
    let mut notify = Notify::new(rt.alloc());
    let given_up = drawn(&mut other, 1);
    let asks = drawn(&mut other, 1);
    notify.give_up(given_up, 1);
    assert!(rt; !has(&mut notify, asks, 1));
}
