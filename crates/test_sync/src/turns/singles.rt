// Futures and calls on a shared value that is one channel, semaphore or the like. Each call serves the future that waits.
//
// The tests catch a future or a call that answers `Memory` at once.
use crate::turns::Turn;
use mono_sync::mpsc::{self, Channel};
use mono_sync::oneshot::{self, Oneshot};
use mono_sync::watch::{Changed, Watch};
use mono_sync::{Acquire, Notified, Notify, Only, Semaphore, acts};
use mono_task::SharedState;

// A turn on a shared value with this part.
fn turn_on<X: SharedState + Drop>(part: X) -> Turn<Only<X>> {
    Turn {
        task: 7,
        shared: Only { part },
    }
}

#[test]
fn channel(rt: HostRuntime) {
    let alloc = rt.alloc();
    let mut turn = turn_on(Channel::new(alloc, 1));
    let recv: mpsc::Recv<Only<Channel<u64>>, u64> = mpsc::Recv::new();
    let answer = turn.served(&rt, alloc, recv, acts::try_send(20));
    assert!(rt; matches!(answer, Some(Ok(Some(20)))));
    assert!(rt; turn.makes(&rt, alloc, acts::try_send(21)));
    let send: mpsc::Send<Only<Channel<u64>>, u64> = mpsc::Send::new(22);
    let answer = turn.served(&rt, alloc, send, acts::try_recv());
    assert!(rt; matches!(answer, Some(Ok(()))));
}

#[test]
fn oneshot(rt: HostRuntime) {
    let alloc = rt.alloc();
    let mut turn = turn_on(Oneshot::new(alloc));
    let recv: oneshot::Recv<Only<Oneshot<u64>>, u64> = oneshot::Recv::new();
    let answer = turn.served(&rt, alloc, recv, acts::send_once(20));
    assert!(rt; matches!(answer, Some(Ok(20))));
}

#[test]
fn semaphore(rt: HostRuntime) {
    let alloc = rt.alloc();
    let mut turn = turn_on(Semaphore::new(alloc, 0));
    let answer = turn.served(&rt, alloc, Acquire::new(), acts::release());
    assert!(rt; matches!(answer, Some(Ok(()))));
}

#[test]
fn notice(rt: HostRuntime) {
    let alloc = rt.alloc();
    let mut turn = turn_on(Notify::new(alloc));
    let answer = turn.served(&rt, alloc, Notified::new(), acts::notify_one());
    assert!(rt; matches!(answer, Some(Ok(()))));
}

#[test]
fn watch(rt: HostRuntime) {
    let alloc = rt.alloc();
    let mut turn = turn_on(Watch::new(alloc, 5));
    let seen: Changed<Only<Watch<u64>>, u64> = Changed::new(0);
    let answer = turn.served(&rt, alloc, seen, acts::send_value(20));
    assert!(rt; matches!(answer, Some(Ok(1))));
}
