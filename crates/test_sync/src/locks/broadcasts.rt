// A broadcast.
use crate::locks::tickets::{drawn, number_of};
use mono_locks::Asked;
use mono_locks::broadcast::{Broadcast, Received, Receiver, RecvError};
use mono_task::SharedState;

/// Returns the message that was received, or 0, and keeps the receiver for the next one.
fn message_of(came: Option<Received<u64>>, receiver: &mut Receiver) -> u64 {
    match came {
        None => 0,
        Some(received) => {
            *receiver = received.receiver;
            received.message.unwrap_or(0)
        }
    }
}

/// Returns how many messages a receiver is told that it missed, or 0.
fn lag_of(came: Option<Received<u64>>, receiver: &mut Receiver) -> u64 {
    match came {
        None => 0,
        Some(received) => {
            *receiver = received.receiver;
            match received.message {
                Err(RecvError::Lagged(missed)) => missed,
                _ => 0,
            }
        }
    }
}

/// Each receiver gets each message that was sent after it subscribed, in order.
///
/// It catches a send that answers `Memory` at once, and a definition by which a late receiver gets an earlier message.
#[test]
fn each_gets_each(rt: HostRuntime) {
    let mut channel: Broadcast<u64> = Broadcast::new(rt.alloc(), 4);
    let mut early = channel.subscribe();
    assert!(rt; channel.send(1).is_ok());
    let mut late = channel.subscribe();
    assert!(rt; channel.send(2).is_ok());
    assert!(rt; channel.send(3).is_ok());
    assert_eq!(rt; message_of(channel.try_recv(early), &mut early), 1);
    assert_eq!(rt; message_of(channel.try_recv(late), &mut late), 2);
    assert_eq!(rt; message_of(channel.try_recv(early), &mut early), 2);
    assert_eq!(rt; message_of(channel.try_recv(early), &mut early), 3);
    assert!(rt; channel.try_recv(early).is_none());
    assert_eq!(rt; message_of(channel.try_recv(late), &mut late), 3);
}

/// A receiver that lags is told how many messages it missed, once, and goes on with the oldest that is kept.
///
/// It catches a definition by which it is told one too few, or loses the oldest.
#[test]
fn lags(rt: HostRuntime) {
    let mut channel: Broadcast<u64> = Broadcast::new(rt.alloc(), 2);
    let mut receiver = channel.subscribe();
    for message in [1, 2, 3, 4, 5] {
        assert!(rt; channel.send(message).is_ok());
    }
    assert_eq!(rt; lag_of(channel.try_recv(receiver), &mut receiver), 3);
    assert_eq!(rt; message_of(channel.try_recv(receiver), &mut receiver), 4);
    assert_eq!(rt; message_of(channel.try_recv(receiver), &mut receiver), 5);
    assert!(rt; channel.try_recv(receiver).is_none());
}

/// A send wakes all that wait, and a close does. The message before a close is still received.
///
/// It catches a definition by which the first alone is woken, or messages are lost at the close.
#[test]
fn all_are_woken(rt: HostRuntime) {
    let mut channel: Broadcast<u64> = Broadcast::new(rt.alloc(), 2);
    let receiver = channel.subscribe();
    let one = drawn(channel.recv(receiver, None, 1));
    let two = drawn(channel.recv(receiver, None, 2));
    assert_eq!(rt; (number_of(one), number_of(two)), (Some(0), Some(1)));
    assert!(rt; channel.next_owed().is_none());
    assert!(rt; channel.send(7).is_ok());
    assert!(rt; channel.next_owed() == Some(1));
    assert!(rt; channel.next_owed() == Some(2));
    let mut next = receiver;
    let came = match channel.recv(receiver, one, 1) {
        Asked::Got(received) => Some(received),
        _ => None,
    };
    assert_eq!(rt; message_of(came, &mut next), 7);
    let one = drawn(channel.recv(next, None, 1));
    assert_eq!(rt; number_of(one), Some(2));
    channel.close();
    assert!(rt; channel.next_owed() == Some(1));
    assert!(rt; channel.send(8).is_err());
    match channel.recv(next, one, 1) {
        Asked::Got(received) => assert!(rt; matches!(received.message, Err(RecvError::Closed))),
        _ => assert!(rt; false),
    }
    assert_eq!(rt; message_of(channel.try_recv(receiver), &mut next), 7);
}
