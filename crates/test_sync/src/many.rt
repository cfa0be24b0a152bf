// Far more waits and messages than a list has room for at first: a value that gives up at some length answers Memory here.
use mono_sync::mpsc::{Channel, Receiving, Sending};
use mono_sync::watch::{Changing, Watch};
use mono_sync::{Acquiring, Many, Notify, Notifying, Semaphore};
use mono_task::SharedState;

/// How many tasks wait, or how many messages are queued, at one value.
const MANY: u64 = 200_000;

// Returns how many tasks are to be woken, at most one more than there are.
fn owed<W: SharedState>(value: &mut W) -> u64 {
    let mut count: u64 = 0;
    for _ in 0..MANY + 1 {
        if value.next_owed().is_some() {
            count = count.saturating_add(1);
        }
    }
    count
}

#[test]
fn many_tasks_wait_for_a_permit(rt: HostRuntime) {
    let mut semaphore = Semaphore::new(rt.alloc(), 0);
    let mut waits = true;
    for task in 0..MANY {
        waits = waits
            & matches!(semaphore.acquire(None, task), Acquiring::Joined(had) if had.number() == task);
    }
    assert!(rt; waits);
    semaphore.close();
    assert_eq!(rt; owed(&mut semaphore), MANY);
}

#[test]
fn many_tasks_wait_for_a_notice(rt: HostRuntime) {
    let mut notify = Notify::new(rt.alloc());
    let mut waits = true;
    for task in 0..MANY {
        waits = waits
            & matches!(notify.notified(None, task), Notifying::Joined(had) if had.number() == task);
    }
    assert!(rt; waits);
    notify.notify_waiters();
    assert_eq!(rt; owed(&mut notify), MANY);
}

#[test]
fn many_tasks_wait_for_a_value(rt: HostRuntime) {
    let mut watch = Watch::new(rt.alloc(), 10u64);
    let mut waits = true;
    for task in 0..MANY {
        waits = waits
            & matches!(watch.changed(0, None, task), Changing::Joined(had) if had.number() == task);
    }
    assert!(rt; waits);
    watch.close();
    assert_eq!(rt; owed(&mut watch), MANY);
}

#[test]
fn many_tasks_wait_for_a_message(rt: HostRuntime) {
    let mut channel: Channel<u64> = Channel::new(rt.alloc(), 4);
    let mut waits = true;
    for task in 0..MANY {
        waits = waits
            & matches!(channel.recv(None, task), Receiving::Joined(had) if had.number() == task);
    }
    assert!(rt; waits);
    channel.close();
    assert_eq!(rt; owed(&mut channel), MANY);
}

#[test]
fn many_tasks_wait_to_send(rt: HostRuntime) {
    let mut channel: Channel<u64> = Channel::new(rt.alloc(), 0);
    let mut waits = true;
    for task in 0..MANY {
        let answer = channel.send(None, 10, task);
        waits = waits
            & matches!(answer, Sending::Joined(had, back) if back == 10 && had.number() == task);
    }
    assert!(rt; waits);
    channel.close();
    assert_eq!(rt; owed(&mut channel), MANY);
}

#[test]
fn many_messages_are_queued(rt: HostRuntime) {
    let mut channel: Channel<u64> = Channel::new(rt.alloc(), MANY as usize);
    let mut come = true;
    for number in 0..MANY {
        come = come & channel.try_send(number).is_ok();
    }
    assert!(rt; come && channel.try_send(0).is_err());
    for number in 0..MANY {
        come = come & matches!(channel.try_recv(), Ok(message) if message == number);
    }
    assert!(rt; come);
}

/// How many parts one table has.
const PARTS: u64 = 1000;

#[test]
fn many_parts_come_and_go(rt: HostRuntime) {
    let alloc = rt.alloc();
    let mut parts: Many<Semaphore> = Many::new(alloc);
    let mut come = true;
    for key in 0..PARTS {
        let made = parts.make(alloc, Semaphore::new(alloc, 1));
        come = come & matches!(made, Ok(had) if had == key);
    }
    for key in 0..PARTS {
        come = come & parts.remove(key).is_ok();
    }
    assert!(rt; come & (parts.len() == 0));
}
