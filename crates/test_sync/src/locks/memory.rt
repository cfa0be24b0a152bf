// Each call that takes memory, repeated after a refusal: the refused call changed nothing. The tests hold with and
// without a refusal; run them with each allocation refused in turn. They catch a call that goes on to answer `Memory`.
use crate::locks::tickets::{drawn, number_of};
use mono_locks::Asked;
use mono_locks::barrier::Barrier;
use mono_locks::mutex::Mutex;
use mono_locks::once_cell::OnceCell;
use mono_locks::rwlock::RwLock;

#[test]
fn refused_lock(rt: HostRuntime) {
    let mut mutex: Mutex<u64> = Mutex::new(rt.alloc(), 10);
    let _guard = mutex.try_lock();
    let mut answer = mutex.lock(None, 1);
    if matches!(answer, Asked::Memory) {
        assert_eq!(rt; mutex.waiting(), 0);
        answer = mutex.lock(None, 1);
    }
    let ticket = drawn(answer);
    assert_eq!(rt; number_of(ticket), Some(0));
    assert!(rt; matches!(mutex.lock(ticket, 1), Asked::Waits));
}

#[test]
fn refused_write(rt: HostRuntime) {
    let mut lock: RwLock<u64> = RwLock::new(rt.alloc(), 10);
    let _guard = lock.try_read();
    let mut answer = lock.write(None, 1);
    if matches!(answer, Asked::Memory) {
        assert_eq!(rt; lock.waiting(), 0);
        answer = lock.write(None, 1);
    }
    let ticket = drawn(answer);
    assert_eq!(rt; number_of(ticket), Some(0));
    assert!(rt; matches!(lock.write(ticket, 1), Asked::Waits));
}

#[test]
fn refused_init(rt: HostRuntime) {
    let mut cell: OnceCell<u64> = OnceCell::new(rt.alloc());
    let _turn = cell.get_or_init(None, 1);
    let mut answer = cell.get_or_init(None, 2);
    if matches!(answer, Asked::Memory) {
        assert_eq!(rt; cell.waiting(), 0);
        answer = cell.get_or_init(None, 2);
    }
    let ticket = drawn(answer);
    assert_eq!(rt; number_of(ticket), Some(0));
    assert!(rt; matches!(cell.get_or_init(ticket, 2), Asked::Waits));
}

#[test]
fn refused_wait(rt: HostRuntime) {
    let mut barrier = Barrier::new(rt.alloc(), 2);
    let mut answer = barrier.wait(None, 1);
    if matches!(answer, Asked::Memory) {
        assert_eq!(rt; barrier.arrived(), 0);
        answer = barrier.wait(None, 1);
    }
    let ticket = drawn(answer);
    assert_eq!(rt; (number_of(ticket), barrier.arrived()), (Some(0), 1));
    assert!(rt; matches!(barrier.wait(ticket, 1), Asked::Waits));
}
