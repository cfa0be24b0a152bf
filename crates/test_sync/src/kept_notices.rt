// A notice to one that stays with its future, whether its task was woken or not.
use crate::tickets::number_of;
use mono_sync::{Notify, Notifying, Ticket};
use mono_task::SharedState;

// Returns the ticket of a future of this task that waits from now on.
fn drawn(notify: &mut Notify, by: u64) -> Option<Ticket> {
    match notify.notified(None, by) {
        Notifying::Joined(ticket) => Some(ticket),
        _ => None,
    }
}

fn has(notify: &mut Notify, ticket: Option<Ticket>, by: u64) -> bool {
    matches!(notify.notified(ticket, by), Notifying::Notified)
}

// A notice to one and a notice to all come in one turn. The first future keeps its own notice after the wake, and passes it
// on to the third, which came later. The second was notified with all, and passes nothing on.
#[test]
fn a_notice_outlives_a_notice_to_all_of_its_turn(rt: HostRuntime) {
    let mut notify = Notify::new(rt.alloc());
    let one = drawn(&mut notify, 1);
    let two = drawn(&mut notify, 2);
    notify.notify_one();
    notify.notify_waiters();
    assert_eq!(rt;
        (notify.next_owed(), notify.next_owed()),
        (Some(1), Some(2))
    );
    let three = drawn(&mut notify, 3);
    notify.give_up(two, 2);
    assert_eq!(rt; notify.next_owed(), None);
    notify.give_up(one, 1);
    assert_eq!(rt; notify.next_owed(), Some(3));
    assert!(rt; has(&mut notify, three, 3));
    assert_eq!(rt; number_of(drawn(&mut notify, 4)), Some(3));
}

// The first future is given up before its task is woken. The notice is kept, since the second task is woken by the notice to
// all.
#[test]
fn a_notice_is_passed_on_before_the_wake(rt: HostRuntime) {
    let mut notify = Notify::new(rt.alloc());
    let one = drawn(&mut notify, 1);
    let two = drawn(&mut notify, 2);
    notify.notify_one();
    notify.notify_waiters();
    notify.give_up(one, 1);
    assert_eq!(rt; notify.next_owed(), Some(2));
    assert_eq!(rt; notify.next_owed(), None);
    assert!(rt; has(&mut notify, two, 2));
    assert!(rt; has(&mut notify, None, 3));
    assert_eq!(rt; number_of(drawn(&mut notify, 4)), Some(2));
}

// Two futures have a notice each, and the third has none. A notice to all changes nothing about whose notice is passed on.
#[test]
fn each_keeps_its_own(rt: HostRuntime) {
    let mut notify = Notify::new(rt.alloc());
    let one = drawn(&mut notify, 1);
    let two = drawn(&mut notify, 2);
    let three = drawn(&mut notify, 3);
    notify.notify_one();
    assert_eq!(rt; notify.next_owed(), Some(1));
    notify.notify_one();
    notify.notify_waiters();
    notify.give_up(three, 3);
    assert_eq!(rt; notify.next_owed(), Some(2));
    assert_eq!(rt; notify.next_owed(), None);
    let four = drawn(&mut notify, 4);
    assert!(rt; !has(&mut notify, four, 4));
    notify.give_up(two, 2);
    assert_eq!(rt; notify.next_owed(), Some(4));
    let five = drawn(&mut notify, 5);
    notify.give_up(one, 1);
    assert_eq!(rt; notify.next_owed(), Some(5));
    assert!(rt; has(&mut notify, four, 4) && has(&mut notify, five, 5));
}

// Each task that waits has a notice, so one more is kept, and a third is not.
#[test]
fn one_is_kept_beside_a_notice(rt: HostRuntime) {
    let mut notify = Notify::new(rt.alloc());
    let one = drawn(&mut notify, 1);
    notify.notify_one();
    notify.notify_one();
    notify.notify_one();
    assert_eq!(rt; (notify.next_owed(), notify.next_owed()), (Some(1), None));
    assert!(rt; has(&mut notify, one, 1) && has(&mut notify, None, 2));
    assert_eq!(rt; number_of(drawn(&mut notify, 3)), Some(1));
}

// A kept notice stays when a notice to all comes in the turn of the one before it.
#[test]
fn a_kept_notice_stays(rt: HostRuntime) {
    let mut notify = Notify::new(rt.alloc());
    let one = drawn(&mut notify, 1);
    notify.notify_waiters();
    notify.notify_one();
    notify.notify_waiters();
    assert_eq!(rt; (notify.next_owed(), notify.next_owed()), (Some(1), None));
    assert!(rt; has(&mut notify, one, 1) && has(&mut notify, None, 2));
    assert_eq!(rt; number_of(drawn(&mut notify, 3)), Some(1));
}
