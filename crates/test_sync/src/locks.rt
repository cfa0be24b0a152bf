// Locks, barriers, cells that are set once, and broadcasts: tables of calls, and far more waits than a lock has room for at
// first. A lock that gives up at some length answers Memory here.
mod barriers;
mod broadcasts;
mod cells;
mod memory;
mod mutexes;
mod rw_locks;
mod tickets;

use mono_locks::Asked;
use mono_locks::barrier::Barrier;
use mono_locks::broadcast::Broadcast;
use mono_locks::mutex::Mutex;
use mono_locks::once_cell::OnceCell;
use mono_locks::rwlock::RwLock;

/// How many tasks wait at one lock.
const MANY: u64 = 2000;

#[test]
fn many_tasks_wait_for_a_mutex(rt: HostRuntime) {
    let mut mutex: Mutex<u64> = Mutex::new(rt.alloc(), 10);
    let mut waits = mutex.try_lock().is_ok();
    for task in 0..MANY {
        waits = waits
            & matches!(mutex.lock(None, task), Asked::Joined(had) if had.number() == task);
    }
    assert!(rt; waits);
}

#[test]
fn many_tasks_wait_to_read_and_write(rt: HostRuntime) {
    let mut lock: RwLock<u64> = RwLock::new(rt.alloc(), 10);
    let mut waits = lock.try_write().is_ok();
    for task in 0..MANY {
        waits = waits
            & matches!(lock.read(None, task), Asked::Joined(_))
            & matches!(lock.write(None, task), Asked::Joined(_));
    }
    assert!(rt; waits);
}

#[test]
fn many_tasks_wait_for_a_cell(rt: HostRuntime) {
    let mut cell: OnceCell<u64> = OnceCell::new(rt.alloc());
    let mut waits = matches!(cell.get_or_init(None, 0), Asked::Got(_));
    for task in 0..MANY {
        waits = waits
            & matches!(cell.get_or_init(None, task), Asked::Joined(had) if had.number() == task);
    }
    assert!(rt; waits);
}

#[test]
fn many_tasks_wait_at_a_barrier(rt: HostRuntime) {
    let mut barrier = Barrier::new(rt.alloc(), MANY as usize);
    let mut waits = true;
    for task in 1..MANY {
        waits = waits & matches!(barrier.wait(None, task), Asked::Joined(_));
    }
    assert!(rt; waits & matches!(barrier.wait(None, MANY), Asked::Got(_)));
}

#[test]
fn many_tasks_wait_for_a_broadcast(rt: HostRuntime) {
    let mut channel: Broadcast<u64> = Broadcast::new(rt.alloc(), 2);
    let receiver = channel.subscribe();
    let mut waits = true;
    for task in 0..MANY {
        waits = waits
            & matches!(channel.recv(receiver, None, task), Asked::Joined(had) if had.number() == task);
    }
    assert!(rt; waits & channel.send(7).is_ok());
}

#[test]
fn many_messages_are_broadcast(rt: HostRuntime) {
    let mut channel: Broadcast<u64> = Broadcast::new(rt.alloc(), MANY as usize);
    let receiver = channel.subscribe();
    let mut come = true;
    for number in 0..MANY {
        come = come & channel.send(number).is_ok();
    }
    assert!(rt; come & channel.try_recv(receiver).is_some());
}
