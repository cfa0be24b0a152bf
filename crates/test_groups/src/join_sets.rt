// Sets of tasks that are joined as they end.
use mono_groups::join_set::{Ended, JoinSet};
use mono_groups::{Aborted, Asked};
use mono_task::SharedState;

/// How many members a set has, and how many tasks wait for it.
const MANY: u64 = 2000;

// Returns the key and the output of the member that ended first, if its future was not given up.
fn joined(set: &mut JoinSet<u64>) -> Option<(u64, u64)> {
    match set.try_join_next() {
        Some(
            Ended {
                key,
                answer: Ok(output),
            },
        ) => Some((key, output)),
        _ => None,
    }
}

// Members are joined in the order in which they end, each once. The set counts those that were not joined.
#[test]
fn members_are_joined_as_they_end(rt: HostRuntime) {
    let alloc = rt.alloc();
    let mut set: JoinSet<u64> = JoinSet::new(alloc);
    let (Ok(first), Ok(second)) = (set.enter(alloc), set.enter(alloc)) else {
        assert!(rt; false);
        return;
    };
    assert_eq!(rt; (first.key(), second.key(), set.len()), (0, 1, 2));
    assert!(rt; matches!(set.join_next(None, 7), Asked::Joined(0)));
    set.finish(second, Ok(20));
    assert_eq!(rt;
        (set.next_owed(), set.next_owed(), set.len()),
        (Some(7), None, 2)
    );
    set.finish(first, Ok(10));
    assert_eq!(rt; (joined(&mut set), set.len()), (Some((1, 20)), 1));
    assert_eq!(rt; (joined(&mut set), set.len()), (Some((0, 10)), 0));
    assert!(rt; set.is_empty() && matches!(set.join_next(Some(0), 7), Asked::Got(None)));
}

// A shutdown waits until each member has ended. A member that enters later is aborted from the start.
#[test]
fn a_shutdown_waits_for_each_member(rt: HostRuntime) {
    let alloc = rt.alloc();
    let mut set: JoinSet<u64> = JoinSet::new(alloc);
    let (Ok(first), Ok(second)) = (set.enter(alloc), set.enter(alloc)) else {
        assert!(rt; false);
        return;
    };
    set.finish(first, Ok(10));
    assert!(rt; matches!(set.shutdown(None, 7), Asked::Joined(0)));
    assert_eq!(rt;
        (set.is_aborted(), set.len(), set.next_owed()),
        (true, 1, None)
    );
    let late = set.enter(alloc).ok();
    set.finish(second, Err(Aborted::Cancelled));
    assert_eq!(rt; set.next_owed(), Some(7));
    assert!(rt; matches!(set.shutdown(Some(0), 7), Asked::Joined(1)));
    if let Some(late) = late {
        set.finish(late, Err(Aborted::Cancelled));
    }
    assert!(rt; matches!(set.shutdown(Some(1), 7), Asked::Got(())) && set.is_empty());
}

// Far more members and tasks than there is room for at first. A set that gives up at some length answers Memory here.
#[test]
fn many_members_and_tasks(rt: HostRuntime) {
    let alloc = rt.alloc();
    let mut set: JoinSet<u64> = JoinSet::new(alloc);
    let mut holds = true;
    for number in 0..MANY {
        match set.enter(alloc) {
            Ok(member) if number > 0 => set.finish(member, Ok(number)),
            Ok(_) => holds = holds & (number == 0),
            Err(_) => holds = false,
        }
    }
    for number in 1..MANY {
        holds = holds & (joined(&mut set) == Some((number, number)));
    }
    for task in 0..MANY {
        holds = holds & matches!(set.join_next(None, task), Asked::Joined(had) if had == task);
    }
    assert!(rt; holds && set.len() == 1);
}
