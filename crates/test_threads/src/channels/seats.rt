// How many wakers a channel keeps: one for each end that waits, however often it polls.
//
// Each wake unparks once, so a handle that counts its unparks shows how many wakers were kept.
use crate::wakes::{CountsUnparks, counts_unparks};
use mono_channel::{Receiver, Sender, channel};
use mono_inbox::{Inbox, RemoteWaker};
use mono_model::{Host, Poll};
use std::alloc::Global;
use std::process::Abort;
use std::sync::Arc;
use std::sync::atomic::{AtomicU64, Ordering};

// A waker of a task, and the count of its wakes.
fn counted_waker<R: Host + Abort>(
    rt: &R,
    alloc: Global,
) -> (RemoteWaker<CountsUnparks>, Arc<AtomicU64, Global>) {
    let (handle, count) = counts_unparks(rt, alloc);
    let inbox = Inbox::new(alloc, 8, handle).expect(rt, "memory");
    (inbox.waker(rt, alloc, 7).expect(rt, "memory"), count)
}

// How often an end polls while it waits.
const POLLS: u64 = 100;

// Returns whether the sender waits at each of many polls.
fn waits_to_send<R: Host>(
    rt: &R,
    sender: &mut Sender<u64, CountsUnparks>,
    waker: &RemoteWaker<CountsUnparks>,
) -> bool {
    let mut waits = true;
    for _ in 0..POLLS {
        let mut message = Some(12);
        waits = waits & matches!(sender.poll_send(rt, waker, &mut message), Poll::Pending);
    }
    waits
}

// Returns whether the receiver waits at each of many polls.
fn waits_to_receive<R: Host>(
    rt: &R,
    receiver: &mut Receiver<u64, CountsUnparks>,
    waker: &RemoteWaker<CountsUnparks>,
) -> bool {
    let mut waits = true;
    for _ in 0..POLLS {
        waits = waits & matches!(receiver.poll_recv(rt, waker), Poll::Pending);
    }
    waits
}

#[test]
fn a_sender_that_polls_often_is_woken_once(rt: HostRuntime) {
    let alloc = rt.alloc();
    let (waker, count) = counted_waker(&rt, alloc);
    let (mut sender, mut receiver) = channel(alloc, 1).expect(&rt, "memory");
    assert!(rt; sender.try_send(&rt, 10).is_ok());
    for round in 1..4 {
        assert!(rt; waits_to_send(&rt, &mut sender, &waker));
        assert!(rt; receiver.try_recv(&rt).is_ok());
        assert_eq!(rt; count.load(Ordering::SeqCst), round);
        assert!(rt; sender.try_send(&rt, 11).is_ok());
    }
    assert!(rt; waits_to_send(&rt, &mut sender, &waker));
    receiver.close(&rt);
    assert_eq!(rt; count.load(Ordering::SeqCst), 4);
}

#[test]
fn a_receiver_that_polls_often_is_woken_once(rt: HostRuntime) {
    let alloc = rt.alloc();
    let (waker, count) = counted_waker(&rt, alloc);
    let (mut sender, mut receiver) = channel(alloc, 1).expect(&rt, "memory");
    assert!(rt; waits_to_receive(&rt, &mut receiver, &waker));
    assert!(rt; sender.try_send(&rt, 10).is_ok());
    assert_eq!(rt; count.load(Ordering::SeqCst), 1);
    assert!(rt; receiver.try_recv(&rt).is_ok());
    assert!(rt; waits_to_receive(&rt, &mut receiver, &waker));
    sender.close(&rt);
    assert_eq!(rt; count.load(Ordering::SeqCst), 2);
}
