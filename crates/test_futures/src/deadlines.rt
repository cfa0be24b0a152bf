//! A user's deadlines over the timers.
use crate::desks::at_millis;
use example_parts::deadlines::Sessions;

// Returns whether these sessions have expired at a time, after the earlier ones of the list.
fn expires(sessions: &mut Sessions, millis: u32, gone: &mut Vec<u64>, told: &[u64]) -> bool {
    sessions.expire_all(at_millis(millis), gone).is_ok() && gone.as_slice() == told
}

// Returns whether two sessions, the first until 20 ms and the second until 10, expire in order, while the first is
// moved.
fn expire_in_order(sessions: &mut Sessions, gone: &mut Vec<u64>) -> bool {
    // none has expired before the first deadline, and the second session at the deadline that the first one had
    let none = expires(sessions, 9, gone, &[]);
    let is_moved = sessions.touch(0, at_millis(30)).is_ok();
    let second = expires(sessions, 20, gone, &[1]);
    // a session that has expired cannot be moved, and the other one expires at its new deadline
    let is_refused = sessions.touch(1, at_millis(40)).is_err();
    none && is_moved && second && is_refused && expires(sessions, 30, gone, &[1, 0])
}

#[test]
fn sessions_expire_in_order(rt: HostRuntime) {
    let mut sessions = Sessions::new(rt.alloc(), 8).expect(&rt, "memory");
    let mut gone = Vec::new(rt.alloc());
    let first = sessions.open(rt.alloc(), at_millis(20));
    let second = sessions.open(rt.alloc(), at_millis(10));
    let are_open = (first, second) == (Ok(0), Ok(1));
    assert!(rt; are_open && expire_in_order(&mut sessions, &mut gone));
}
