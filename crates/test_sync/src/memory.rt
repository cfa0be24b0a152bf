// Each call that takes memory, repeated after a refusal: the refused call changed nothing. The tests hold with and
// without a refusal; run them with each allocation refused in turn.
use crate::tickets::number_of;
use mono_sync::mpsc::{Channel, Receiving, Sending, TrySendError};
use mono_sync::oneshot::Oneshot;
use mono_sync::watch::{Changing, Watch};
use mono_sync::{Acquiring, Many, Notify, Notifying, Semaphore, Ticket};

#[test]
fn refused_message(rt: HostRuntime) {
    let mut channel: Channel<u64> = Channel::new(rt.alloc(), 4);
    if let Err(refused) = channel.try_send(10) {
        assert!(rt; matches!(refused, TrySendError::Memory(10)));
        assert_eq!(rt; channel.len(), 0);
        assert!(rt; channel.try_send(10).is_ok());
    }
    assert_eq!(rt; channel.len(), 1);
}

// Returns the ticket of a receiver that waits. It asks again if out of memory.
fn receiver(channel: &mut Channel<u64>) -> Option<Ticket> {
    let mut answer = channel.recv(None, 1);
    if matches!(answer, Receiving::Memory) {
        answer = channel.recv(None, 1);
    }
    match answer {
        Receiving::Joined(ticket) => Some(ticket),
        _ => None,
    }
}

#[test]
fn refused_receiver(rt: HostRuntime) {
    let mut channel: Channel<u64> = Channel::new(rt.alloc(), 4);
    let ticket = receiver(&mut channel);
    assert_eq!(rt; number_of(ticket), Some(0));
    assert!(rt; matches!(channel.recv(ticket, 1), Receiving::Waits));
}

// Returns the ticket of a sender that waits, and gets its message back. It asks again if out of memory.
fn sender(channel: &mut Channel<u64>) -> Option<Ticket> {
    let mut answer = channel.send(None, 10, 1);
    if matches!(answer, Sending::Memory(10)) {
        answer = channel.send(None, 10, 1);
    }
    match answer {
        Sending::Joined(ticket, back) if back == 10 => Some(ticket),
        _ => None,
    }
}

#[test]
fn refused_sender(rt: HostRuntime) {
    let mut channel: Channel<u64> = Channel::new(rt.alloc(), 0);
    let ticket = sender(&mut channel);
    assert_eq!(rt; number_of(ticket), Some(0));
    assert!(rt; matches!(channel.send(ticket, 10, 1), Sending::Waits(10)));
}

// Returns the ticket of a future that waits for a permit. It asks again if out of memory.
fn acquirer(semaphore: &mut Semaphore) -> Option<Ticket> {
    let mut answer = semaphore.acquire(None, 1);
    if matches!(answer, Acquiring::Memory) {
        answer = semaphore.acquire(None, 1);
    }
    match answer {
        Acquiring::Joined(ticket) => Some(ticket),
        _ => None,
    }
}

#[test]
fn refused_permit(rt: HostRuntime) {
    let mut semaphore = Semaphore::new(rt.alloc(), 0);
    let ticket = acquirer(&mut semaphore);
    assert_eq!(rt; number_of(ticket), Some(0));
    assert!(rt; matches!(semaphore.acquire(ticket, 1), Acquiring::Waits));
}

// Returns the ticket of a future that waits for a notice. It asks again if out of memory.
fn notified(notify: &mut Notify) -> Option<Ticket> {
    let mut answer = notify.notified(None, 1);
    if matches!(answer, Notifying::Memory) {
        answer = notify.notified(None, 1);
    }
    match answer {
        Notifying::Joined(ticket) => Some(ticket),
        _ => None,
    }
}

#[test]
fn refused_notice(rt: HostRuntime) {
    let mut notify = Notify::new(rt.alloc());
    let ticket = notified(&mut notify);
    assert_eq!(rt; number_of(ticket), Some(0));
    assert!(rt; matches!(notify.notified(ticket, 1), Notifying::Waits));
}

// Returns the ticket of a future that waits for another value. It asks again if out of memory.
fn watcher(watch: &mut Watch<u64>) -> Option<Ticket> {
    let mut answer = watch.changed(0, None, 1);
    if matches!(answer, Changing::Memory) {
        answer = watch.changed(0, None, 1);
    }
    match answer {
        Changing::Joined(ticket) => Some(ticket),
        _ => None,
    }
}

#[test]
fn refused_watcher(rt: HostRuntime) {
    let mut watch = Watch::new(rt.alloc(), 10u64);
    let ticket = watcher(&mut watch);
    assert_eq!(rt; number_of(ticket), Some(0));
    assert!(rt; matches!(watch.changed(0, ticket, 1), Changing::Waits));
}

#[test]
fn refused_part(rt: HostRuntime) {
    let mut channels: Many<Oneshot<u64>> = Many::new(rt.alloc());
    if channels.make(rt.alloc(), Oneshot::new(rt.alloc())).is_err() {
        assert_eq!(rt; channels.len(), 0);
        assert!(rt; matches!(channels.make(rt.alloc(), Oneshot::new(rt.alloc())), Ok(0)));
    }
    assert_eq!(rt; channels.len(), 1);
    assert!(rt; channels.remove(0).is_ok());
    assert_eq!(rt; channels.len(), 0);
}
