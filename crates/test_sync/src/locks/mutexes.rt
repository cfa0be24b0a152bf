// A mutex: each test is a table of calls with the answers that they must have.
use mono_locks::mutex::{Mutex, MutexGuard};
use mono_locks::{Asked, Ticket};
use mono_task::SharedState;
use std::alloc::Global;
use std::process::Abort;

/// One call, with its answer. A ticket stands for its place among those that were drawn.
#[derive(Clone, Copy)]
enum Call {
    /// The mutex is locked at once, and its value was this.
    Takes(u64),
    /// It can't be locked at once.
    IsTaken,
    /// A task's future with this ticket asks: it has the value, which was the last number.
    Gets(Option<usize>, u64, u64),
    /// It waits from now on, with the second ticket.
    Joins(Option<usize>, u64, usize),
    /// It still waits.
    Waits(Option<usize>, u64),
    /// The guard is put back with one more, and this task is the first to be woken, if any.
    Unlocks(Option<u64>),
    /// A task's future leaves the queue, and the last task is the first to be woken, if any.
    Leaves(Option<usize>, u64, Option<u64>),
    /// This task is woken next, if any.
    Wakes(Option<u64>),
}

/// A mutex, the guard that is out, and the tickets that were drawn.
#[derive(Drop)]
struct Bench {
    mutex: Mutex<u64>,
    guard: Option<MutexGuard<u64>>,
    tickets: Vec<Ticket>,
}

/// Keeps a guard, and returns whether its value is this and none was out.
fn holds(bench: &mut Bench, guard: MutexGuard<u64>, value: u64) -> bool {
    let is_right = *guard.get() == value && bench.guard.is_none();
    bench.guard = Some(guard);
    is_right
}

/// Puts the guard back with one more, and returns whether one was out.
fn unlocks(bench: &mut Bench) -> bool {
    match bench.guard.take() {
        None => false,
        Some(mut guard) => {
            let value = guard.get_mut();
            *value = value.saturating_add(1);
            bench.mutex.unlock(guard).is_ok()
        }
    }
}

/// Returns the ticket at this place, if any.
fn drawn_at(bench: &Bench, place: Option<usize>) -> Option<Ticket> {
    match place {
        None => None,
        Some(place) => bench.tickets.get(place).copied(),
    }
}

/// Appends a ticket. Returns whether its number is its place, and the place is this one.
fn comes_at(bench: &mut Bench, ticket: Ticket, place: usize) -> bool {
    let is_next = bench.tickets.len() == place && ticket.number() == place as u64;
    is_next && bench.tickets.push(ticket).is_ok()
}

/// Makes one call, and returns whether it has this answer.
fn answers(bench: &mut Bench, call: Call) -> bool {
    match call {
        Call::Takes(value) => match bench.mutex.try_lock() {
            Ok(guard) => holds(bench, guard, value),
            Err(_) => false,
        },
        Call::IsTaken => bench.mutex.try_lock().is_err(),
        Call::Gets(ticket, by, value) => {
            let ticket = drawn_at(bench, ticket);
            match bench.mutex.lock(ticket, by) {
                Asked::Got(guard) => holds(bench, guard, value),
                _ => false,
            }
        }
        Call::Joins(ticket, by, place) => {
            let ticket = drawn_at(bench, ticket);
            match bench.mutex.lock(ticket, by) {
                Asked::Joined(had) => comes_at(bench, had, place),
                _ => false,
            }
        }
        Call::Waits(ticket, by) => {
            let ticket = drawn_at(bench, ticket);
            matches!(bench.mutex.lock(ticket, by), Asked::Waits)
        }
        Call::Unlocks(woken) => unlocks(bench) && bench.mutex.next_owed() == woken,
        Call::Leaves(ticket, by, woken) => {
            let ticket = drawn_at(bench, ticket);
            bench.mutex.give_up(ticket, by);
            bench.mutex.next_owed() == woken
        }
        Call::Wakes(woken) => bench.mutex.next_owed() == woken,
    }
}

/// Makes the calls in turn on a mutex of 10, and asserts their answers.
fn all_answer<R: Abort>(rt: &R, alloc: Global, calls: &[Call]) {
    let mut bench = Bench {
        mutex: Mutex::new(alloc, 10),
        guard: None,
        tickets: Vec::new(alloc),
    };
    for call in calls {
        assert!(rt; answers(&mut bench, *call));
    }
}

/// The mutex is given in the order in which it was asked for, and is not taken past those that wait or were woken.
///
/// It catches a definition by which a later task overtakes, or a task that was woken is woken again.
#[test]
fn first_come_first_served(rt: HostRuntime) {
    all_answer(
        &rt,
        rt.alloc(),
        &[
            Call::Takes(10),
            Call::IsTaken,
            Call::Joins(None, 1, 0),
            Call::Joins(None, 2, 1),
            Call::Unlocks(Some(1)),
            Call::IsTaken,
            Call::Joins(None, 3, 2),
            Call::Wakes(None),
            Call::Waits(Some(1), 2),
            Call::Gets(Some(0), 1, 11),
            Call::Unlocks(Some(2)),
            Call::Gets(Some(1), 2, 12),
            Call::Unlocks(Some(3)),
            Call::Gets(Some(2), 3, 13),
            Call::Unlocks(None),
            Call::Takes(14),
        ],
    );
}

/// A future that was woken and is given up passes the mutex on. One that waits leaves its place.
///
/// It catches a definition by which the mutex stays reserved for a future that was given up.
#[test]
fn given_up(rt: HostRuntime) {
    all_answer(
        &rt,
        rt.alloc(),
        &[
            Call::Gets(None, 0, 10),
            Call::Joins(None, 1, 0),
            Call::Joins(None, 2, 1),
            Call::Joins(None, 3, 2),
            Call::Leaves(Some(1), 2, None),
            Call::Unlocks(Some(1)),
            Call::Leaves(Some(0), 1, Some(3)),
            Call::Gets(Some(2), 3, 11),
            Call::Unlocks(None),
            Call::Takes(12),
        ],
    );
}

/// A future that another task polls waits anew at the end, and the task that waited for it is woken.
///
/// It catches a definition by which the mutex goes to the task that let the future go.
#[test]
fn moved(rt: HostRuntime) {
    all_answer(
        &rt,
        rt.alloc(),
        &[
            Call::Takes(10),
            Call::Joins(None, 1, 0),
            Call::Joins(Some(0), 2, 1),
            Call::Wakes(Some(1)),
            Call::Unlocks(Some(2)),
            Call::Gets(Some(1), 2, 11),
        ],
    );
}

/// A guard that another mutex made is refused while the mutex is unlocked.
///
/// It catches a definition by which a foreign guard replaces the value.
#[test]
fn foreign_guard(rt: HostRuntime) {
    let mut one: Mutex<u64> = Mutex::new(rt.alloc(), 1);
    let mut other: Mutex<u64> = Mutex::new(rt.alloc(), 2);
    match one.try_lock() {
        Err(_) => assert!(rt; false),
        Ok(guard) => {
            assert!(rt; one.is_locked());
            assert!(rt; one.get().is_none());
            match other.unlock(guard) {
                Ok(()) => assert!(rt; false),
                Err(guard) => assert!(rt; one.unlock(guard).is_ok()),
            }
        }
    }
    assert!(rt; matches!(one.get(), Some(1)));
    assert!(rt; matches!(other.into_inner(), Some(2)));
}
