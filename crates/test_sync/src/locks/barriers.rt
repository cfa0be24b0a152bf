// A barrier.
use crate::locks::tickets::{drawn, has_number, number_of};
use mono_locks::Asked;
use mono_locks::barrier::{Barrier, BarrierWaitResult};
use mono_task::SharedState;

/// Returns whether the future goes on, as the leader or not.
fn goes_on(answer: Asked<BarrierWaitResult>, is_leader: bool) -> bool {
    match answer {
        Asked::Got(result) => result.is_leader() == is_leader,
        _ => false,
    }
}

/// The third of three opens the barrier, as its leader, for the two that wait. A later one waits for the next round.
///
/// It catches a definition by which a barrier opens one task too early, or for the next round, too.
#[test]
fn opens_for_all(rt: HostRuntime) {
    let mut barrier = Barrier::new(rt.alloc(), 3);
    let one = drawn(barrier.wait(None, 1));
    let two = drawn(barrier.wait(None, 2));
    assert_eq!(rt; (number_of(one), number_of(two)), (Some(0), Some(1)));
    assert!(rt; matches!(barrier.wait(one, 1), Asked::Waits));
    assert!(rt; barrier.next_owed().is_none());
    assert!(rt; goes_on(barrier.wait(None, 3), true));
    let later = drawn(barrier.wait(None, 4));
    assert_eq!(rt; number_of(later), Some(2));
    assert!(rt; barrier.next_owed() == Some(1));
    assert!(rt; barrier.next_owed() == Some(2));
    assert!(rt; barrier.next_owed().is_none());
    assert!(rt; goes_on(barrier.wait(one, 1), false));
    assert!(rt; goes_on(barrier.wait(two, 2), false));
    assert!(rt; matches!(barrier.wait(later, 4), Asked::Waits));
    assert_eq!(rt; barrier.arrived(), 1);
}

/// A future that is given up before the barrier opens does not count. One that is moved to another task counts once.
///
/// It catches a definition by which the first still counts, or the second counts twice.
#[test]
fn given_up_and_moved(rt: HostRuntime) {
    let mut barrier = Barrier::new(rt.alloc(), 2);
    let given_up = drawn(barrier.wait(None, 1));
    barrier.give_up(given_up, 1);
    assert_eq!(rt; barrier.arrived(), 0);
    let first = drawn(barrier.wait(None, 2));
    assert!(rt; has_number(&first, 1));
    let moved = drawn(barrier.wait(first, 3));
    assert!(rt; has_number(&moved, 2));
    assert_eq!(rt; barrier.arrived(), 1);
    assert!(rt; goes_on(barrier.wait(None, 4), true));
    assert!(rt; goes_on(barrier.wait(moved, 3), false));
}

/// A barrier for nobody lets each one through.
///
/// It catches a definition by which a task waits for nobody.
#[test]
fn single_party(rt: HostRuntime) {
    let mut barrier = Barrier::new(rt.alloc(), 0);
    assert!(rt; goes_on(barrier.wait(None, 1), true));
    assert!(rt; goes_on(barrier.wait(None, 1), true));
}
