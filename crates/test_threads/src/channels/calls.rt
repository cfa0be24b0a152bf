// Calls of both ends in one thread.
use mono_channel::{Receiver, Sender, TryRecvError, TrySendError, channel};
use mono_inbox::NoUnpark;
use mono_model::Host;
use std::alloc::Global;

// The two ends of a channel for two numbers. One that found no memory is made once more.
pub(crate) fn a_channel(alloc: Global) -> Option<(Sender<u64, NoUnpark>, Receiver<u64, NoUnpark>)> {
    match channel(alloc, 2) {
        Ok(ends) => Some(ends),
        Err(_) => channel(alloc, 2).ok(),
    }
}

// What comes next, or none.
fn next<R: Host>(rt: &R, receiver: &mut Receiver<u64, NoUnpark>) -> Option<u64> {
    receiver.try_recv(rt).ok()
}

#[test]
fn a_full_channel_gives_the_message_back(rt: HostRuntime) {
    let (mut sender, mut receiver) = a_channel(rt.alloc()).expect(&rt, "memory");
    assert!(rt; sender.try_send(&rt, 10).is_ok());
    assert!(rt; sender.try_send(&rt, 11).is_ok());
    assert!(rt; matches!(sender.try_send(&rt, 12), Err(TrySendError::Full(12))));
    assert_eq!(rt; next(&rt, &mut receiver), Some(10));
    assert!(rt; sender.try_send(&rt, 12).is_ok());
}

#[test]
fn a_closed_channel_takes_no_message(rt: HostRuntime) {
    let (mut sender, mut receiver) = a_channel(rt.alloc()).expect(&rt, "memory");
    assert!(rt; sender.try_send(&rt, 10).is_ok());
    receiver.close(&rt);
    assert!(rt; matches!(sender.try_send(&rt, 11), Err(TrySendError::Closed(11))));
    assert_eq!(rt; next(&rt, &mut receiver), Some(10));
    assert!(rt; matches!(receiver.try_recv(&rt), Err(TryRecvError::Disconnected)));
}

#[test]
fn the_last_sender_closes_the_channel(rt: HostRuntime) {
    let (mut sender, mut receiver) = a_channel(rt.alloc()).expect(&rt, "memory");
    let mut second = sender.try_clone(&rt).expect(&rt, "a count");
    assert!(rt; second.try_send(&rt, 10).is_ok());
    sender.close(&rt);
    sender.close(&rt);
    assert!(rt; matches!(sender.try_send(&rt, 11), Err(TrySendError::Closed(11))));
    let mut third = sender.try_clone(&rt).expect(&rt, "a count");
    third.close(&rt);
    assert_eq!(rt; next(&rt, &mut receiver), Some(10));
    assert!(rt; matches!(receiver.try_recv(&rt), Err(TryRecvError::Empty)));
    second.close(&rt);
    assert!(rt; matches!(receiver.try_recv(&rt), Err(TryRecvError::Disconnected)));
}

#[test]
fn a_channel_is_closed_once_each_sender_is(rt: HostRuntime) {
    let (mut sender, receiver) = a_channel(rt.alloc()).expect(&rt, "memory");
    let mut second = sender.try_clone(&rt).expect(&rt, "a count");
    sender.close(&rt);
    assert!(rt; sender.is_closed(&rt));
    assert!(rt; !second.is_closed(&rt) && !receiver.is_closed(&rt));
    second.close(&rt);
    assert!(rt; second.is_closed(&rt) && receiver.is_closed(&rt));
}

#[test]
fn a_channel_is_closed_once_its_receiver_is(rt: HostRuntime) {
    let (sender, mut receiver) = a_channel(rt.alloc()).expect(&rt, "memory");
    assert!(rt; !sender.is_closed(&rt) && !receiver.is_closed(&rt));
    receiver.close(&rt);
    assert!(rt; sender.is_closed(&rt) && receiver.is_closed(&rt));
}
