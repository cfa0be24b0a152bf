// Calls that take several permits or messages at once, and calls that change a watched value in place.
use crate::tickets::number_of;
use crate::turns::Turn;
use mono_sync::mpsc::{Channel, Receiving};
use mono_sync::watch::{self, Changing, WaitFor, Watch};
use mono_sync::{Acquiring, MAX_PERMITS, Many, Only, Semaphore, Ticket, TryAcquireError, acts};
use mono_task::SharedState;

// Returns the ticket of a future of this task that waits from now on.
fn drawn(semaphore: &mut Semaphore, by: u64) -> Option<Ticket> {
    match semaphore.acquire(None, by) {
        Acquiring::Joined(ticket) => Some(ticket),
        _ => None,
    }
}

/// Permits that are added at once are owed to the tasks that have waited longest, one each.
///
/// It catches a call that adds one permit, and one that lets a permit that is owed be taken or forgotten.
#[test]
fn permits(rt: HostRuntime) {
    let mut semaphore = Semaphore::new(rt.alloc(), 0);
    let one = drawn(&mut semaphore, 1);
    let two = drawn(&mut semaphore, 2);
    let three = drawn(&mut semaphore, 3);
    assert_eq!(rt;
        (number_of(one), number_of(two), number_of(three)),
        (Some(0), Some(1), Some(2))
    );
    assert!(rt; semaphore.add_permits(2).is_ok());
    assert_eq!(rt;
        (semaphore.next_owed(), semaphore.next_owed()),
        (Some(1), Some(2))
    );
    assert_eq!(rt;
        (semaphore.next_owed(), semaphore.available_permits()),
        (None, 0)
    );
    assert!(rt; semaphore.add_permits(MAX_PERMITS - 1).is_err());
    assert!(rt; semaphore.add_permits(6).is_ok());
    assert_eq!(rt; semaphore.available_permits(), 5);
    assert!(rt;
        matches!(
            semaphore.try_acquire_many(6),
            Err(TryAcquireError::NoPermits)
        )
    );
    assert!(rt; semaphore.try_acquire_many(2).is_ok());
    assert_eq!(rt;
        (semaphore.forget_permits(2), semaphore.available_permits()),
        (2, 1)
    );
    assert_eq!(rt;
        (semaphore.forget_permits(9), semaphore.available_permits()),
        (1, 0)
    );
    assert!(rt; semaphore.try_acquire_many(0).is_ok());
    assert!(rt; matches!(semaphore.acquire(one, 1), Acquiring::Acquired));
    assert_eq!(rt; semaphore.next_owed(), Some(3));
    assert!(rt; semaphore.add_permits(1).is_ok());
    semaphore.close();
    assert!(rt; matches!(semaphore.try_acquire_many(1), Err(TryAcquireError::Closed)));
    assert_eq!(rt; semaphore.forget_permits(1), 0);
}

/// Several messages come in their order, and none that is promised to a task that waits.
#[test]
fn messages(rt: HostRuntime) {
    let alloc = rt.alloc();
    let mut channel: Channel<u64> = Channel::new(alloc, 5);
    assert_eq!(rt;
        (
            channel.is_empty(),
            channel.capacity(),
            channel.max_capacity()
        ),
        (true, 5, 5)
    );
    assert!(rt; matches!(channel.recv(None, 1), Receiving::Joined(ticket) if ticket.number() == 0));
    for number in 10..14u64 {
        assert!(rt; channel.try_send(number).is_ok());
    }
    assert_eq!(rt;
        (
            channel.is_empty(),
            channel.capacity(),
            channel.max_capacity()
        ),
        (false, 1, 5)
    );
    let mut buffer = Vec::new(alloc);
    assert!(rt; matches!(channel.try_recv_many(2, &mut buffer), Ok(2)));
    assert!(rt; buffer.as_slice() == [10u64, 11].as_slice());
    assert!(rt; matches!(channel.try_recv_many(9, &mut buffer), Ok(1)));
    assert!(rt; buffer.as_slice() == [10u64, 11, 12].as_slice());
    assert!(rt; matches!(channel.try_recv_many(9, &mut buffer), Ok(0)));
    assert_eq!(rt; (channel.next_owed(), channel.len()), (Some(1), 1));
    channel.close();
    assert!(rt; matches!(channel.try_recv_many(9, &mut buffer), Ok(1)));
    assert!(rt; buffer.as_slice() == [10u64, 11, 12, 13].as_slice());
}

/// An unbounded channel takes each message at once.
#[test]
fn unbounded(rt: HostRuntime) {
    let mut channel: Channel<u64> = Channel::unbounded(rt.alloc());
    for number in 0..2000u64 {
        assert!(rt; channel.try_send(number).is_ok());
    }
    assert_eq!(rt; (channel.len(), channel.max_capacity()), (2000, usize::MAX));
}

/// A value that is changed in place has the next version, and all that wait are woken. A change that is not announced wakes
/// nobody.
#[test]
fn changes_in_place(rt: HostRuntime) {
    let mut watch = Watch::new(rt.alloc(), 10u64);
    let mut seen = 0;
    assert!(rt;
        matches!(watch.changed(seen, None, 1), Changing::Joined(ticket) if ticket.number() == 0)
    );
    assert!(rt;
        matches!(
            watch.send_if_modified(|value: &mut u64| {
                *value = 11;
                false
            }),
            Ok(false)
        )
    );
    assert_eq!(rt;
        (watch.next_owed(), watch.has_changed(seen), *watch.borrow()),
        (None, false, 11)
    );
    assert!(rt;
        matches!(
            watch.send_if_modified(|value: &mut u64| {
                *value = 12;
                true
            }),
            Ok(true)
        )
    );
    assert_eq!(rt;
        (watch.next_owed(), watch.has_changed(seen)),
        (Some(1), true)
    );
    assert_eq!(rt; *watch.borrow_and_update(&mut seen), 12);
    assert_eq!(rt; (seen, watch.has_changed(seen)), (1, false));
    assert!(rt;
        matches!(watch.changed(seen, None, 2), Changing::Joined(ticket) if ticket.number() == 1)
    );
    assert!(rt;
        matches!(
            watch.send_modify(|value: &mut u64| {
                *value = 13;
                5u64
            }),
            Ok(5)
        )
    );
    assert_eq!(rt;
        (watch.next_owed(), watch.version(), *watch.borrow()),
        (Some(2), 2, 13)
    );
    watch.close();
    assert!(rt; watch.is_closed());
    assert!(rt;
        watch
            .send_modify(|value: &mut u64| {
                *value = 14;
            })
            .is_err()
    );
    assert_eq!(rt; *watch.borrow(), 13);
}

/// A future waits until the value meets its condition, also over values that do not.
///
/// It catches a future that answers at the next value, and one that asks for a value after its own.
#[test]
fn waits_for_a_value(rt: HostRuntime) {
    let alloc = rt.alloc();
    let part = Watch::new(alloc, 5u64);
    let mut turn = Turn {
        task: 7,
        shared: Only { part },
    };
    let future: WaitFor<Only<Watch<u64>>, u64, _> = watch::wait_for(|value: &u64| *value > 20);
    let answer = turn.served(&rt, alloc, future, acts::send_value(21u64));
    assert!(rt; matches!(answer, Some(Ok(1))));
    let future: WaitFor<Only<Watch<u64>>, u64, _> = watch::wait_for(|value: &u64| *value == 30);
    let call = acts::modify_value::<_, u64, (), _>(|value: &mut u64| *value = 30);
    let answer = turn.served(&rt, alloc, future, call);
    assert!(rt; matches!(answer, Some(Ok(2))));
}

/// The same calls by key reach the part with that key alone.
#[test]
fn by_key(rt: HostRuntime) {
    let alloc = rt.alloc();
    let mut part: Many<Semaphore> = Many::new(alloc);
    assert!(rt; part.make(alloc, Semaphore::new(alloc, 1)).is_ok());
    assert!(rt; part.make(alloc, Semaphore::new(alloc, 1)).is_ok());
    let mut turn = Turn {
        task: 7,
        shared: Only { part },
    };
    assert!(rt;
        matches!(
            turn.answer(&rt, alloc, &mut acts::add_permits_at(1, 4)),
            Some(Ok(()))
        )
    );
    assert!(rt;
        matches!(
            turn.answer(&rt, alloc, &mut acts::try_acquire_many_at(1, 3)),
            Some(Ok(()))
        )
    );
    assert!(rt;
        matches!(
            turn.answer(&rt, alloc, &mut acts::try_acquire_many_at(0, 2)),
            Some(Err(TryAcquireError::NoPermits))
        )
    );
    assert!(rt;
        matches!(
            turn.answer(&rt, alloc, &mut acts::try_acquire_many_at(2, 1)),
            Some(Err(TryAcquireError::Closed))
        )
    );
    assert_eq!(rt;
        turn.answer(&rt, alloc, &mut acts::forget_permits_at(1, 9)),
        Some(2)
    );
    assert_eq!(rt;
        turn.answer(&rt, alloc, &mut acts::forget_permits_at(2, 9)),
        Some(0)
    );
}
