// A semaphore: each test is a table of calls with the answers that they must have.
use crate::tickets::{comes_at, drawn_at};
use mono_sync::{Acquiring, MAX_PERMITS, Semaphore, Ticket, TryAcquireError};
use mono_task::SharedState;
use std::alloc::Global;
use std::process::Abort;

/// One call, with its answer. A ticket stands for its place among those that were drawn.
#[derive(Clone, Copy)]
enum Call {
    /// A permit is taken at once.
    Takes,
    /// No permit is free.
    HasNone,
    /// It was closed.
    IsShut,
    /// A task's future with this ticket asks: it has a permit.
    Acquires(Option<usize>, u64),
    /// It waits from now on, with the second ticket.
    Joins(Option<usize>, u64, usize),
    /// It still waits.
    Waits(Option<usize>, u64),
    /// It finds the semaphore closed.
    Finds(Option<usize>, u64),
    /// A permit is released, and this task is the first to be woken, if any.
    Releases(Option<u64>),
    /// A task's future leaves the line, and the last task is the first to be woken, if any.
    Leaves(Option<usize>, u64, Option<u64>),
    /// It is closed, and these two tasks are woken.
    Closes(u64, u64),
    /// This task is woken next, if any.
    Wakes(Option<u64>),
    /// This many permits are free.
    Has(usize),
}

/// Makes one call of a task's future, and returns whether it has this answer.
fn answers(semaphore: &mut Semaphore, tickets: &mut Vec<Ticket>, call: Call) -> bool {
    match call {
        Call::Acquires(ticket, by) => {
            let ticket = drawn_at(tickets, ticket);
            matches!(semaphore.acquire(ticket, by), Acquiring::Acquired)
        }
        Call::Joins(ticket, by, place) => {
            let ticket = drawn_at(tickets, ticket);
            match semaphore.acquire(ticket, by) {
                Acquiring::Joined(had) => comes_at(tickets, had, place),
                _ => false,
            }
        }
        Call::Waits(ticket, by) => {
            let ticket = drawn_at(tickets, ticket);
            matches!(semaphore.acquire(ticket, by), Acquiring::Waits)
        }
        Call::Finds(ticket, by) => {
            let ticket = drawn_at(tickets, ticket);
            matches!(semaphore.acquire(ticket, by), Acquiring::Closed)
        }
        Call::Leaves(ticket, by, woken) => {
            semaphore.give_up(drawn_at(tickets, ticket), by);
            semaphore.next_owed() == woken
        }
        other => answers_at_once(semaphore, other),
    }
}

/// Makes one call that does not wait, and returns whether it has this answer.
fn answers_at_once(semaphore: &mut Semaphore, call: Call) -> bool {
    match call {
        Call::Takes => semaphore.try_acquire().is_ok(),
        Call::HasNone => matches!(semaphore.try_acquire(), Err(TryAcquireError::NoPermits)),
        Call::IsShut => matches!(semaphore.try_acquire(), Err(TryAcquireError::Closed)),
        Call::Releases(woken) => semaphore.release().is_ok() && semaphore.next_owed() == woken,
        Call::Closes(one, other) => {
            semaphore.close();
            let first = semaphore.next_owed();
            let second = semaphore.next_owed();
            first == Some(one) && second == Some(other) && semaphore.next_owed().is_none()
        }
        Call::Wakes(woken) => semaphore.next_owed() == woken,
        Call::Has(permits) => semaphore.available_permits() == permits,
        _ => false,
    }
}

/// Makes the calls in turn on a semaphore with this many permits, and asserts their answers.
fn all_answer<R: Abort>(rt: &R, alloc: Global, permits: usize, calls: &[Call]) {
    let mut semaphore = Semaphore::new(alloc, permits);
    let mut tickets = Vec::new(alloc);
    for call in calls {
        assert!(rt; answers(&mut semaphore, &mut tickets, *call));
    }
}

// Permits are given in the order in which they were asked for, and none is taken past those who wait.
#[test]
fn first_come_first_served(rt: HostRuntime) {
    all_answer(
        &rt,
        rt.alloc(),
        1,
        &[
            Call::Acquires(None, 7),
            Call::Has(0),
            Call::HasNone,
            Call::Joins(None, 8, 0),
            Call::Joins(None, 9, 1),
            Call::Waits(Some(0), 8),
            Call::Releases(Some(8)),
            Call::Has(0),
            Call::HasNone,
            Call::Waits(Some(1), 9),
            Call::Acquires(Some(0), 8),
            Call::Releases(Some(9)),
            Call::Acquires(Some(1), 9),
            Call::Releases(None),
            Call::Has(1),
            Call::Takes,
        ],
    );
}

// A future that is given up leaves the line; one that was served hands its permit on.
#[test]
fn given_up(rt: HostRuntime) {
    all_answer(
        &rt,
        rt.alloc(),
        0,
        &[
            Call::Joins(None, 1, 0),
            Call::Joins(None, 2, 1),
            Call::Joins(None, 3, 2),
            Call::Leaves(Some(1), 2, None),
            Call::Releases(Some(1)),
            Call::Leaves(Some(0), 1, Some(3)),
            Call::Acquires(Some(2), 3),
            Call::Joins(None, 4, 3),
            Call::Releases(Some(4)),
            Call::Leaves(Some(3), 4, None),
            Call::Has(1),
        ],
    );
}

// All who wait when a semaphore is closed are woken, and find it closed.
#[test]
fn closed(rt: HostRuntime) {
    all_answer(
        &rt,
        rt.alloc(),
        0,
        &[
            Call::Joins(None, 1, 0),
            Call::Joins(None, 2, 1),
            Call::Closes(1, 2),
            Call::Finds(Some(0), 1),
            Call::Finds(Some(1), 2),
            Call::Finds(None, 3),
            Call::IsShut,
        ],
    );
}

#[test]
fn no_permit_too_many(rt: HostRuntime) {
    let mut semaphore = Semaphore::new(rt.alloc(), MAX_PERMITS - 1);
    assert!(rt; semaphore.release().is_ok());
    assert!(rt; semaphore.release().is_err());
    assert_eq!(rt; semaphore.available_permits(), MAX_PERMITS);
}

// A future that another task polls waits anew at the end. The first task is woken in its turn, and takes no permit.
#[test]
fn latest_task(rt: HostRuntime) {
    all_answer(
        &rt,
        rt.alloc(),
        0,
        &[
            Call::Joins(None, 1, 0),
            Call::Joins(None, 2, 1),
            Call::Joins(Some(0), 3, 2),
            Call::Releases(Some(1)),
            Call::Wakes(Some(2)),
            Call::Wakes(None),
            Call::Acquires(Some(1), 2),
            Call::Releases(Some(3)),
            Call::Acquires(Some(2), 3),
        ],
    );
}

// A permit is owed to the first that waits from its release on: no task takes it before the wake.
#[test]
fn owed_before_the_wake(rt: HostRuntime) {
    let mut semaphore = Semaphore::new(rt.alloc(), 0);
    let mut tickets = Vec::new(rt.alloc());
    assert!(rt; answers(&mut semaphore, &mut tickets, Call::Joins(None, 1, 0)));
    assert!(rt; semaphore.release().is_ok());
    assert!(rt; answers(&mut semaphore, &mut tickets, Call::HasNone));
    assert!(rt; answers(&mut semaphore, &mut tickets, Call::Has(0)));
    assert!(rt; answers(&mut semaphore, &mut tickets, Call::Joins(None, 2, 1)));
    assert!(rt; answers(&mut semaphore, &mut tickets, Call::Wakes(Some(1))));
    assert!(rt; answers(&mut semaphore, &mut tickets, Call::Wakes(None)));
    assert!(rt; answers(&mut semaphore, &mut tickets, Call::Acquires(Some(0), 1)));
}
