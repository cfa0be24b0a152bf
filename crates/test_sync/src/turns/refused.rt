// Each call by key that takes memory, repeated after a refusal: the refused call changed nothing. The tests hold with and
// without a refusal; run them with each allocation refused in turn. They catch a call that goes on to answer `Memory`.
use crate::turns::Turn;
use crate::turns::by_key::{On, Parts};
use mono_sync::mpsc::{self, Channel, SendAt, SendError};
use mono_sync::oneshot::{self, Oneshot, RecvError};
use mono_sync::permits::release_at;
use mono_sync::watch::{self, ChangedAt, ChangedError, Watch};
use mono_sync::{
    AcquireAt, AcquireError, Many, NotifiedAt, NotifiedAtError, Notify, Only, Semaphore, make,
    notify_one_at,
};
use mono_task::SharedState;
use std::alloc::Global;

// A turn on a table without parts.
fn turn_on<X: SharedState + Drop>(alloc: Global) -> On<X> {
    Turn {
        task: 7,
        shared: Only {
            part: Many::new(alloc),
        },
    }
}

// Makes a part, once more if the first call was refused.
fn made<X: SharedState + Drop>(turn: &mut On<X>, alloc: Global, part: X) -> bool {
    match make::<Parts<X>, X, On<X>>(turn, alloc, part) {
        Ok(key) => key == 0,
        Err(part) => {
            let is_empty = turn.shared.part.len() == 0;
            let again = make::<Parts<X>, X, On<X>>(turn, alloc, part);
            is_empty && matches!(again, Ok(0))
        }
    }
}

// A permit's wait is refused, and the next one waits.
#[test]
fn refused_permit(rt: HostRuntime) {
    let alloc = rt.alloc();
    let mut turn: On<Semaphore> = turn_on(alloc);
    assert!(rt; made(&mut turn, alloc, Semaphore::new(alloc, 0)));
    let mut first: AcquireAt<Parts<Semaphore>> = AcquireAt::new(0);
    let mut second: AcquireAt<Parts<Semaphore>> = AcquireAt::new(0);
    if let Some(answer) = turn.answer(&rt, alloc, &mut first) {
        assert!(rt; matches!(answer, Err(AcquireError::Memory)));
        assert!(rt; turn.waits(&rt, alloc, 7, &mut second));
    }
    let _ = release_at::<Parts<Semaphore>, On<Semaphore>>(&mut turn, 0);
    assert!(rt; turn.wakes(Some(7)));
}

#[test]
fn refused_notice(rt: HostRuntime) {
    let alloc = rt.alloc();
    let mut turn: On<Notify> = turn_on(alloc);
    assert!(rt; made(&mut turn, alloc, Notify::new(alloc)));
    let mut first: NotifiedAt<Parts<Notify>> = NotifiedAt::new(0);
    let mut second: NotifiedAt<Parts<Notify>> = NotifiedAt::new(0);
    if let Some(answer) = turn.answer(&rt, alloc, &mut first) {
        assert!(rt; matches!(answer, Err(NotifiedAtError::Memory)));
        assert!(rt; turn.waits(&rt, alloc, 7, &mut second));
    }
    notify_one_at::<Parts<Notify>, On<Notify>>(&mut turn, 0);
    assert!(rt; turn.wakes(Some(7)));
}

#[test]
fn refused_value(rt: HostRuntime) {
    let alloc = rt.alloc();
    let mut turn: On<Watch<u64>> = turn_on(alloc);
    assert!(rt; made(&mut turn, alloc, Watch::new(alloc, 10)));
    let mut first: ChangedAt<Parts<Watch<u64>>, u64> = ChangedAt::new(0, 0);
    let mut second: ChangedAt<Parts<Watch<u64>>, u64> = ChangedAt::new(0, 0);
    if let Some(answer) = turn.answer(&rt, alloc, &mut first) {
        assert!(rt; matches!(answer, Err(ChangedError::Memory)));
        assert!(rt; turn.waits(&rt, alloc, 7, &mut second));
    }
    let _ = watch::send_at::<Parts<Watch<u64>>, u64, On<Watch<u64>>>(&mut turn, 0, 11);
    assert!(rt; turn.wakes(Some(7)));
}

#[test]
fn refused_reply(rt: HostRuntime) {
    let alloc = rt.alloc();
    let mut turn: On<Oneshot<u64>> = turn_on(alloc);
    assert!(rt; made(&mut turn, alloc, Oneshot::new(alloc)));
    let mut recv: oneshot::RecvAt<Parts<Oneshot<u64>>, u64> = oneshot::RecvAt::new(0);
    if let Some(answer) = turn.answer(&rt, alloc, &mut recv) {
        assert!(rt; matches!(answer, Err(RecvError::Memory)));
    } else {
        let sent = oneshot::send_at::<Parts<Oneshot<u64>>, u64, On<Oneshot<u64>>>(&mut turn, 0, 11);
        assert!(rt; sent.is_ok() && turn.wakes(Some(7)));
    }
}

#[test]
fn refused_receiver(rt: HostRuntime) {
    let alloc = rt.alloc();
    let mut turn: On<Channel<u64>> = turn_on(alloc);
    assert!(rt; made(&mut turn, alloc, Channel::new(alloc, 1)));
    let mut first: mpsc::RecvAt<Parts<Channel<u64>>, u64> = mpsc::RecvAt::new(0);
    let mut second: mpsc::RecvAt<Parts<Channel<u64>>, u64> = mpsc::RecvAt::new(0);
    if let Some(answer) = turn.answer(&rt, alloc, &mut first) {
        assert!(rt; answer.is_err());
        assert!(rt; turn.waits(&rt, alloc, 7, &mut second));
    }
    mpsc::close_at::<Parts<Channel<u64>>, u64, On<Channel<u64>>>(&mut turn, 0);
    assert!(rt; turn.wakes(Some(7)));
}

#[test]
fn refused_sender(rt: HostRuntime) {
    let alloc = rt.alloc();
    let mut turn: On<Channel<u64>> = turn_on(alloc);
    assert!(rt; made(&mut turn, alloc, Channel::new(alloc, 0)));
    let mut first: SendAt<Parts<Channel<u64>>, u64> = SendAt::new(0, 20);
    let mut second: SendAt<Parts<Channel<u64>>, u64> = SendAt::new(0, 21);
    if let Some(answer) = turn.answer(&rt, alloc, &mut first) {
        assert!(rt; matches!(answer, Err(SendError::Memory(20))));
        assert!(rt; turn.waits(&rt, alloc, 7, &mut second));
    }
    mpsc::close_at::<Parts<Channel<u64>>, u64, On<Channel<u64>>>(&mut turn, 0);
    assert!(rt; turn.wakes(Some(7)));
}
