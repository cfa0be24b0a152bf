// A channel for one message.
use crate::tickets::number_of;
use mono_sync::Ticket;
use mono_sync::oneshot::{Oneshot, Receiving, TryRecvError};
use mono_task::SharedState;

// Returns the ticket of a future of this task that waits from now on.
fn drawn(channel: &mut Oneshot<u64>, by: u64) -> Option<Ticket> {
    match channel.recv(None, by) {
        Receiving::Joined(ticket) => Some(ticket),
        _ => None,
    }
}

// One future waits. Another is refused, and does not take the message from it.
#[test]
fn one_message_once(rt: HostRuntime) {
    let mut channel: Oneshot<u64> = Oneshot::new(rt.alloc());
    assert!(rt; matches!(channel.try_recv(), Err(TryRecvError::Empty)));
    let one = drawn(&mut channel, 1);
    assert_eq!(rt; number_of(one), Some(0));
    assert!(rt; matches!(channel.recv(one, 1), Receiving::Waits));
    assert!(rt; matches!(channel.recv(None, 2), Receiving::Taken));
    assert!(rt; channel.send(10).is_ok());
    assert_eq!(rt; channel.send(11), Err(11));
    assert_eq!(rt; (channel.next_owed(), channel.next_owed()), (Some(1), None));
    assert!(rt; matches!(channel.try_recv(), Err(TryRecvError::Empty)));
    assert!(rt; matches!(channel.recv(None, 2), Receiving::Taken));
    channel.close();
    assert_eq!(rt; channel.next_owed(), None);
    assert!(rt; matches!(channel.recv(one, 1), Receiving::Received(10)));
    assert!(rt; matches!(channel.recv(None, 2), Receiving::Closed));
    assert!(rt; matches!(channel.try_recv(), Err(TryRecvError::Closed)));
}
