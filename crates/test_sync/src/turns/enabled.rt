// Futures that stand in the line of a notice before their first poll.
use crate::turns::Turn;
use mono_model::Poll;
use mono_sync::{
    Many, Notified, NotifiedAt, NotifiedAtError, Notify, Only, make, notify_one, notify_waiters_at,
};
use mono_task::SharedState;

/// A shared value: notices under keys.
type Parts = Only<Many<Notify>>;

/// A notice to all serves a future that was enabled, and not one that was only made. Without such a notice it is refused.
///
/// It catches an `enable` that leaves the future out of the line, and one that forgets its ticket.
#[test]
fn enabled_by_key(rt: HostRuntime) {
    let alloc = rt.alloc();
    let mut turn: Turn<Parts> = Turn {
        task: 7,
        shared: Only {
            part: Many::new(alloc),
        },
    };
    let mut enabled: NotifiedAt<Parts> = NotifiedAt::new(0);
    let mut made: NotifiedAt<Parts> = NotifiedAt::new(0);
    let mut missing: NotifiedAt<Parts> = NotifiedAt::new(9);
    assert!(rt;
        matches!(
            make::<Parts, Notify, Turn<Parts>>(&mut turn, alloc, Notify::new(alloc)),
            Ok(0)
        )
    );
    assert!(rt; enabled.enable(&mut turn).is_pending());
    assert!(rt;
        matches!(
            missing.enable(&mut turn),
            Poll::Ready(Err(NotifiedAtError::Missing))
        )
    );
    notify_waiters_at::<Parts, Turn<Parts>>(&mut turn, 0);
    assert_eq!(rt; turn.shared.next_owed(), Some(7));
    assert!(rt; turn.answer(&rt, alloc, &mut made).is_none());
    assert!(rt; matches!(turn.answer(&rt, alloc, &mut enabled), Some(Ok(()))));
}

/// A notice to one serves the future that was enabled, before one that was polled later.
///
/// It catches an `enable` that leaves the future out of the line.
#[test]
fn enabled_first(rt: HostRuntime) {
    let alloc = rt.alloc();
    let mut turn: Turn<Only<Notify>> = Turn {
        task: 7,
        shared: Only {
            part: Notify::new(alloc),
        },
    };
    let mut enabled: Notified<Only<Notify>> = Notified::new();
    let mut polled: Notified<Only<Notify>> = Notified::new();
    assert!(rt; enabled.enable(&mut turn).is_pending());
    assert!(rt; turn.waits(&rt, alloc, 8, &mut polled));
    notify_one::<Only<Notify>, Turn<Only<Notify>>>(&mut turn);
    assert_eq!(rt;
        (turn.shared.next_owed(), turn.shared.next_owed()),
        (Some(7), None)
    );
    assert!(rt; turn.waits(&rt, alloc, 8, &mut polled));
    turn.task = 7;
    assert!(rt; matches!(turn.answer(&rt, alloc, &mut enabled), Some(Ok(()))));
}
