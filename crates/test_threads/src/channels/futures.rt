// Futures that are given up: the end was never theirs, so it stays whole.
use crate::channels::calls::a_channel;
use crate::channels::gaps::{Gap, nothing, polled};
use mono_channel::{Receiver, Sender};
use mono_inbox::{Inbox, NoUnpark};
use mono_model::{Host, Poll};
use mono_task::TaskFuture;
use std::alloc::{AllocError, Global};
use std::process::Abort;

// Polls a receive of the next message, which waits, and gives it up as a timeout, a race or a select does.
fn give_up_receive<R: Host + Abort + Copy + Drop>(
    rt: R,
    alloc: Global,
    receiver: &mut Receiver<u64, NoUnpark>,
) -> bool {
    let inbox = Inbox::new(alloc, 8, NoUnpark).expect(&rt, "memory");
    let mut cx = nothing(rt, alloc, &inbox);
    let mut recv = receiver.recv();
    let waits = matches!(polled(&rt, alloc, &mut cx, &mut recv), Poll::Pending);
    recv.cancel(&mut cx);
    waits
}

// Polls a future of the next message once, and lets it go.
fn answer<R: Host + Abort + Drop>(
    rt: &R,
    alloc: Global,
    cx: &mut Gap<R>,
    receiver: &mut Receiver<u64, NoUnpark>,
) -> Poll<Result<Option<u64>, AllocError>> {
    receiver.recv().poll(rt, alloc, cx)
}

// Receives the next message by a future.
fn received<R: Host + Abort + Copy + Drop>(
    rt: R,
    alloc: Global,
    receiver: &mut Receiver<u64, NoUnpark>,
) -> Option<u64> {
    let inbox = Inbox::new(alloc, 8, NoUnpark).expect(&rt, "memory");
    let mut cx = nothing(rt, alloc, &inbox);
    match answer(&rt, alloc, &mut cx, receiver) {
        Poll::Ready(Ok(came)) => came,
        Poll::Ready(Err(_)) => None,
        Poll::Pending => Some(9000),
    }
}

#[test]
fn a_receive_that_is_given_up_loses_nothing(rt: HostRuntime) {
    let alloc = rt.alloc();
    let (mut sender, mut receiver) = a_channel(alloc).expect(&rt, "memory");
    assert!(rt; give_up_receive(rt, alloc, &mut receiver));
    assert!(rt; sender.try_send(&rt, 10).is_ok());
    assert_eq!(rt; received(rt, alloc, &mut receiver), Some(10));
    assert!(rt; give_up_receive(rt, alloc, &mut receiver));
    assert!(rt; sender.try_send(&rt, 11).is_ok());
    sender.close(&rt);
    assert_eq!(rt; received(rt, alloc, &mut receiver), Some(11));
    assert_eq!(rt; received(rt, alloc, &mut receiver), None);
}

#[test]
fn one_future_receives_several_messages(rt: HostRuntime) {
    let alloc = rt.alloc();
    let (mut sender, mut receiver) = a_channel(alloc).expect(&rt, "memory");
    let inbox = Inbox::new(alloc, 8, NoUnpark).expect(&rt, "memory");
    let mut cx = nothing(rt, alloc, &inbox);
    let mut recv = receiver.recv();
    for number in 0..3u64 {
        assert!(rt; sender.try_send(&rt, number).is_ok());
        let answer = polled(&rt, alloc, &mut cx, &mut recv);
        assert!(rt; matches!(answer, Poll::Ready(Ok(Some(came))) if came == number));
    }
}

// Polls a send of 12, which waits, and gives it up. Returns its message.
fn give_up_send<R: Host + Abort + Copy + Drop>(
    rt: R,
    alloc: Global,
    sender: &mut Sender<u64, NoUnpark>,
) -> Option<u64> {
    let inbox = Inbox::new(alloc, 8, NoUnpark).expect(&rt, "memory");
    let mut cx: Gap<R> = nothing(rt, alloc, &inbox);
    let mut send = sender.send(rt, 12);
    match polled(&rt, alloc, &mut cx, &mut send) {
        Poll::Pending => send.into_message(),
        Poll::Ready(_) => None,
    }
}

#[test]
fn a_send_that_is_given_up_sends_nothing(rt: HostRuntime) {
    let alloc = rt.alloc();
    let (mut sender, mut receiver) = a_channel(alloc).expect(&rt, "memory");
    let is_full = sender.try_send(&rt, 10).is_ok() && sender.try_send(&rt, 11).is_ok();
    assert!(rt; is_full);
    assert_eq!(rt; give_up_send(rt, alloc, &mut sender), Some(12));
    assert_eq!(rt; received(rt, alloc, &mut receiver), Some(10));
    assert!(rt; sender.try_send(&rt, 13).is_ok());
    sender.close(&rt);
    assert_eq!(rt; received(rt, alloc, &mut receiver), Some(11));
    assert_eq!(rt; received(rt, alloc, &mut receiver), Some(13));
    assert_eq!(rt; received(rt, alloc, &mut receiver), None);
}
