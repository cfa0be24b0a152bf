// Futures and calls by key, but those of channels. Each table has parts with the keys 0 and 1. A call at the key 1 serves the future that waits
// there, and the one before it, at the key 0, does not.
//
// The tests catch a future or a call that answers `Memory` at once, and a table that owes no wake.
use crate::turns::Turn;
use mono_sync::oneshot::{self, Oneshot};
use mono_sync::watch::{ChangedAt, Watch};
use mono_sync::{AcquireAt, Many, NotifiedAt, Notify, Only, Semaphore, acts, make};
use mono_task::SharedState;
use std::alloc::Global;
use std::process::Abort;

/// A shared value: parts of one kind under keys.
pub(crate) type Parts<X> = Only<Many<X>>;

/// A turn of a task that shares parts of one kind.
pub(crate) type On<X> = Turn<Parts<X>>;

// A turn on a table with these parts, which have the keys 0 and 1.
pub(crate) fn turn_on<R: Abort, X: SharedState + Drop>(
    rt: &R,
    alloc: Global,
    first: X,
    second: X,
) -> On<X> {
    let mut turn = Turn {
        task: 7,
        shared: Only {
            part: Many::new(alloc),
        },
    };
    let has_first = matches!(make::<Parts<X>, X, On<X>>(&mut turn, alloc, first), Ok(0));
    let has_second = matches!(make::<Parts<X>, X, On<X>>(&mut turn, alloc, second), Ok(1));
    assert!(rt; has_first & has_second);
    turn
}

#[test]
fn oneshots(rt: HostRuntime) {
    let alloc = rt.alloc();
    let mut turn = turn_on(&rt, alloc, Oneshot::new(alloc), Oneshot::new(alloc));
    assert!(rt; turn.makes(&rt, alloc, acts::send_once_at(0, 10)));
    let recv: oneshot::RecvAt<Parts<Oneshot<u64>>, u64> = oneshot::RecvAt::new(1);
    let answer = turn.served(&rt, alloc, recv, acts::send_once_at(1, 20));
    assert!(rt; matches!(answer, Some(Ok(20))));
}

#[test]
fn semaphores(rt: HostRuntime) {
    let alloc = rt.alloc();
    let first = Semaphore::new(alloc, 0);
    let mut turn = turn_on(&rt, alloc, first, Semaphore::new(alloc, 0));
    assert!(rt; turn.makes(&rt, alloc, acts::release_at(0)));
    let answer = turn.served(&rt, alloc, AcquireAt::new(1), acts::release_at(1));
    assert!(rt; matches!(answer, Some(Ok(()))));
}

#[test]
fn notices(rt: HostRuntime) {
    let alloc = rt.alloc();
    let mut turn = turn_on(&rt, alloc, Notify::new(alloc), Notify::new(alloc));
    assert!(rt; turn.makes(&rt, alloc, acts::notify_one_at(0)));
    let answer = turn.served(&rt, alloc, NotifiedAt::new(1), acts::notify_one_at(1));
    assert!(rt; matches!(answer, Some(Ok(()))));
}

#[test]
fn watches(rt: HostRuntime) {
    let alloc = rt.alloc();
    let mut turn = turn_on(&rt, alloc, Watch::new(alloc, 10), Watch::new(alloc, 20));
    assert!(rt; turn.makes(&rt, alloc, acts::send_value_at(0, 11)));
    let change: ChangedAt<Parts<Watch<u64>>, u64> = ChangedAt::new(1, 0);
    let answer = turn.served(&rt, alloc, change, acts::send_value_at(1, 21));
    assert!(rt; matches!(answer, Some(Ok(1))));
}
