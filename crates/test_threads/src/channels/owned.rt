// Futures that own their end, and answer it with what became of the message.
use crate::channels::calls::a_channel;
use crate::channels::gaps::{Gap, nothing, polled};
use mono_channel::{Receiver, Sender};
use mono_inbox::{Inbox, NoUnpark};
use mono_model::{Host, Poll};
use mono_task::TaskFuture;
use std::alloc::Global;
use std::process::Abort;

// Sends a number by a future that owns the sender. Returns the sender if the number was queued.
fn sent<R: Host + Abort + Copy + Drop>(
    rt: R,
    alloc: Global,
    sender: Sender<u64, NoUnpark>,
    number: u64,
) -> Option<Sender<u64, NoUnpark>> {
    let inbox = Inbox::new(alloc, 8, NoUnpark).expect(&rt, "memory");
    let mut cx = nothing(rt, alloc, &inbox);
    let mut send = sender.into_send(rt, number);
    match polled(&rt, alloc, &mut cx, &mut send) {
        Poll::Ready(answer) => {
            let (sender, sent) = answer;
            if sent.is_ok() { Some(sender) } else { None }
        }
        Poll::Pending => None,
    }
}

// Receives a number by a future that owns the receiver. Returns the receiver if it is this number.
fn received<R: Host + Abort + Copy + Drop>(
    rt: R,
    alloc: Global,
    receiver: Receiver<u64, NoUnpark>,
    number: Option<u64>,
) -> Option<Receiver<u64, NoUnpark>> {
    let inbox = Inbox::new(alloc, 8, NoUnpark).expect(&rt, "memory");
    let mut cx = nothing(rt, alloc, &inbox);
    let mut recv = receiver.into_recv();
    match polled(&rt, alloc, &mut cx, &mut recv) {
        Poll::Ready(answer) => {
            let (receiver, came) = answer;
            if came.ok() == Some(number) {
                Some(receiver)
            } else {
                None
            }
        }
        Poll::Pending => None,
    }
}

// Polls a future once more. Returns nothing if it waits or has answered.
fn answer<F: TaskFuture<Gap<R>>, R: Host + Abort + Drop>(
    rt: &R,
    alloc: Global,
    cx: &mut Gap<R>,
    future: &mut F,
) -> Option<F::Output>
    requires { F.can_poll future.old }
{
    if future.spent() {
        return None;
    }
    match polled(rt, alloc, cx, future) {
        Poll::Ready(answer) => Some(answer),
        Poll::Pending => None,
    }
}

// Whether the task 7 was woken since the last drain, and no other.
fn is_woken<R: Host + Abort>(rt: &R, alloc: Global, inbox: &Inbox<NoUnpark>) -> bool {
    let mut list = Vec::new(alloc);
    inbox.drain(rt, alloc, &mut list).expect(rt, "memory");
    list.len() == 1 && list.first() == Some(&7)
}

/// Two numbers go over the ends that the futures before answered, and none comes after the close.
///
/// It catches a future that answers `Memory` or no message without a look at the channel.
#[test]
fn answered_ends_serve_the_next_futures(rt: HostRuntime) {
    let alloc = rt.alloc();
    let (sender, receiver) = a_channel(alloc).expect(&rt, "memory");
    let sender = sent(rt, alloc, sender, 10).expect(&rt, "sent");
    let mut sender = sent(rt, alloc, sender, 11).expect(&rt, "sent");
    sender.close(&rt);
    let receiver = received(rt, alloc, receiver, Some(10)).expect(&rt, "received");
    let receiver = received(rt, alloc, receiver, Some(11)).expect(&rt, "received");
    assert!(rt; received(rt, alloc, receiver, None).is_some());
}

/// A receive waits, a message wakes its task, and the same future answers it.
///
/// It catches a future that waits without a waker, and one that stays pending once it has waited.
#[test]
fn a_receive_that_waits_is_woken(rt: HostRuntime) {
    let alloc = rt.alloc();
    let (mut sender, receiver) = a_channel(alloc).expect(&rt, "memory");
    let inbox = Inbox::new(alloc, 8, NoUnpark).expect(&rt, "memory");
    let mut cx = nothing(rt, alloc, &inbox);
    let mut recv = receiver.into_recv();
    assert!(rt; answer(&rt, alloc, &mut cx, &mut recv).is_none());
    assert!(rt; sender.try_send(&rt, 10).is_ok());
    assert!(rt; is_woken(&rt, alloc, &inbox));
    let answered = answer(&rt, alloc, &mut cx, &mut recv);
    assert!(rt; matches!(answered, Some((_, Ok(Some(10))))));
}

/// A send waits while both places are taken, a receive wakes its task, and the same future sends the message.
///
/// It catches a future that waits without a waker, and one that loses its message while it waits.
#[test]
fn a_send_that_waits_is_woken(rt: HostRuntime) {
    let alloc = rt.alloc();
    let (mut sender, mut receiver) = a_channel(alloc).expect(&rt, "memory");
    let is_full = sender.try_send(&rt, 10).is_ok() && sender.try_send(&rt, 11).is_ok();
    assert!(rt; is_full);
    let inbox = Inbox::new(alloc, 8, NoUnpark).expect(&rt, "memory");
    let mut cx = nothing(rt, alloc, &inbox);
    let mut send = sender.into_send(rt, 12);
    assert!(rt; answer(&rt, alloc, &mut cx, &mut send).is_none());
    assert_eq!(rt; receiver.try_recv(&rt).ok(), Some(10));
    assert!(rt; is_woken(&rt, alloc, &inbox));
    let answered = answer(&rt, alloc, &mut cx, &mut send);
    assert!(rt; matches!(answered, Some((_, Ok(())))));
    assert_eq!(rt; receiver.try_recv(&rt).ok(), Some(11));
    assert_eq!(rt; receiver.try_recv(&rt).ok(), Some(12));
}
