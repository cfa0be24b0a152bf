// A lock for readers and writers.
use crate::locks::tickets::{drawn, number_of};
use mono_locks::Asked;
use mono_locks::rwlock::{RwLock, RwLockReadGuard, RwLockWriteGuard};
use mono_task::SharedState;
use std::process::Abort;

// The guard of a future that asked.
fn got<R: Abort, G: Drop>(rt: &R, answer: Asked<G>) -> G {
    match answer {
        Asked::Got(guard) => guard,
        _ => panic!(rt; "no guard"),
    }
}

/// Many read at once. A writer waits for all of them, and no later reader overtakes it.
///
/// It catches a definition by which a writer has room beside a reader, or a reader overtakes a writer.
#[test]
fn a_writer_is_not_overtaken(rt: HostRuntime) {
    let mut lock = RwLock::new(rt.alloc(), 10u64);
    let one = lock.try_read().ok().expect(&rt, "one reads");
    let other = got(&rt, lock.read(None, 1));
    assert_eq!(rt; (lock.readers(), lock.is_written()), (2, false));
    assert!(rt; lock.try_write().is_err());
    let writer = drawn(lock.write(None, 2));
    assert!(rt; lock.try_read().is_err());
    let reader = drawn(lock.read(None, 3));
    assert_eq!(rt; (number_of(writer), number_of(reader)), (Some(0), Some(1)));
    assert!(rt; lock.end_read(one).is_ok() && lock.next_owed().is_none());
    assert!(rt; lock.end_read(other).is_ok() && lock.next_owed() == Some(2));
    assert!(rt; lock.try_read().is_err() && lock.next_owed().is_none());
    let mut written = got(&rt, lock.write(writer, 2));
    assert!(rt; lock.is_written() && lock.get().is_none());
    *written.get_mut() = 11;
    assert!(rt; lock.end_write(written).is_ok() && lock.next_owed() == Some(3));
    let last = got(&rt, lock.read(reader, 3));
    assert!(rt; matches!(lock.get(), Some(11)));
    assert!(rt; lock.end_read(last).is_ok() && lock.waiting() == 0);
    assert!(rt; matches!(lock.into_inner(), Some(11)));
}

/// A writer that is given up, while it waits or after it was woken, lets the readers behind it go on.
///
/// It catches a definition by which a writer that was given up keeps room for itself.
#[test]
fn a_writer_is_given_up(rt: HostRuntime) {
    let mut lock = RwLock::new(rt.alloc(), 10u64);
    let one = got(&rt, lock.read(None, 0));
    let writer = drawn(lock.write(None, 1));
    let reader = drawn(lock.read(None, 2));
    assert_eq!(rt; (number_of(writer), number_of(reader)), (Some(0), Some(1)));
    lock.give_up_write(writer, 1);
    assert!(rt; lock.next_owed() == Some(2));
    let two = got(&rt, lock.read(reader, 2));
    let writer = drawn(lock.write(None, 3));
    let reader = drawn(lock.read(None, 4));
    assert_eq!(rt; (number_of(writer), number_of(reader)), (Some(2), Some(3)));
    assert!(rt; lock.end_read(one).is_ok() && lock.end_read(two).is_ok());
    assert!(rt; lock.next_owed() == Some(3));
    lock.give_up_write(writer, 3);
    assert!(rt; lock.next_owed() == Some(4));
    lock.give_up_read(reader, 4);
    assert!(rt; lock.next_owed().is_none() && lock.try_write().is_ok());
}

/// A guard that no lock gave out is refused.
///
/// It catches a lock that counts a reader too few, or loses its value.
#[test]
fn a_foreign_guard(rt: HostRuntime) {
    let mut one = RwLock::new(rt.alloc(), 1u64);
    let mut other = RwLock::new(rt.alloc(), 2u64);
    let read: RwLockReadGuard<u64> = got(&rt, one.read(None, 0));
    assert!(rt; other.end_read(read).is_err() && other.readers() == 0);
    let written: RwLockWriteGuard<u64> = got(&rt, other.write(None, 0));
    assert_eq!(rt; *written.get(), 2);
    assert!(rt; one.end_write(written).is_err() && matches!(one.get(), Some(1)));
}
