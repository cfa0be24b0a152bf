// A cell that is set once.
use crate::locks::tickets::{drawn, number_of};
use mono_locks::once_cell::{Init, InitTurn, OnceCell, SetError};
use mono_locks::{Asked, Ticket};
use mono_task::SharedState;
use std::process::Abort;

/// Asks for a task's future, and returns the turn that it has.
fn turn_of<R: Abort>(
    rt: &R,
    cell: &mut OnceCell<u64>,
    ticket: Option<Ticket>,
    by: u64,
) -> InitTurn<u64> {
    match cell.get_or_init(ticket, by) {
        Asked::Got(Init::Turn(turn)) => turn,
        _ => panic!(rt; "no turn"),
    }
}

/// One task has the turn. If it gives it back, the next takes over, and once the value is there all are woken.
///
/// It catches a definition by which two tasks have the turn, or a cell is set past one that has it.
#[test]
fn next_takes_over(rt: HostRuntime) {
    let mut cell: OnceCell<u64> = OnceCell::new(rt.alloc());
    let first = turn_of(&rt, &mut cell, None, 1);
    assert!(rt; cell.is_initializing());
    let two = drawn(cell.get_or_init(None, 2));
    let three = drawn(cell.get_or_init(None, 3));
    assert_eq!(rt; (number_of(two), number_of(three)), (Some(0), Some(1)));
    assert!(rt; cell.next_owed().is_none());
    assert!(rt; matches!(cell.set(5), Err(SetError::Initializing(5))));
    cell.give_back(first);
    assert!(rt; cell.next_owed() == Some(2));
    assert!(rt; matches!(cell.set(5), Err(SetError::Initializing(5))));
    let second = turn_of(&rt, &mut cell, two, 2);
    assert!(rt; cell.finish(second, 7).is_ok());
    assert!(rt; cell.next_owed() == Some(3));
    assert!(rt; matches!(cell.get_or_init(three, 3), Asked::Got(Init::Set)));
    assert!(rt; matches!(cell.get_or_init(None, 4), Asked::Got(Init::Set)));
    assert!(rt; matches!(cell.set(8), Err(SetError::AlreadyInitialized(8))));
    assert!(rt; matches!(cell.get(), Some(7)));
}

/// A cell is set at once if nobody makes its value.
///
/// It catches a definition by which a new cell counts as set, or its turn as taken.
#[test]
fn set_at_once(rt: HostRuntime) {
    let mut cell: OnceCell<u64> = OnceCell::new(rt.alloc());
    assert!(rt; !cell.initialized());
    assert!(rt; cell.set(5).is_ok());
    assert!(rt; cell.initialized());
    assert!(rt; matches!(cell.into_inner(), Some(5)));
}
