// Small cases with their answers: the state of an inbox, inboxes, registries and join words. `parkers`, `joinwords`,
// `pools` and `recorded_inboxes` have the rest.
use crate::joinwords::{Named, woken};
use mono_inbox::{Inbox, InboxState, NoUnpark, Registry};
use mono_joinword::{JoinError, pair};
use mono_model::Host;
use std::alloc::Global;
use std::process::Abort;
use std::sync::Arc;

/// Returns whether a known task is listed once, and an unknown and a retired one are not.
fn lists_once<R: Abort>(rt: &R, alloc: Global, state: &mut InboxState) -> bool {
    let known = state.know(alloc, 3).is_ok();
    let listed = state.put(3);
    let again = state.put(3);
    let unknown = state.put(9);
    let mut tasks = Vec::new(alloc);
    tasks.reserve(state.waiting()).expect(rt, "memory");
    state.drain(&mut tasks);
    state.retire(3);
    let is_one = known && listed && !again && !unknown;
    is_one && tasks.as_slice() == [3].as_slice() && !state.put(3)
}

#[test]
fn a_state_lists_a_known_task_once(rt: HostRuntime) {
    let mut state = InboxState::new(rt.alloc(), 0).expect(&rt, "memory");
    assert!(rt; lists_once(&rt, rt.alloc(), &mut state));
}

/// Wakes task 5, and task 3 twice by one waker. Returns whether they are drained in this order.
fn drains_in_order<R: Host + Abort>(rt: &R, alloc: Global, inbox: &Inbox<NoUnpark>) -> bool {
    let third = inbox.waker(rt, alloc, 3).expect(rt, "memory");
    let fifth = inbox.waker(rt, alloc, 5).expect(rt, "memory");
    let are_listed = fifth.wake(rt) & third.wake(rt) & !third.wake(rt);
    let mut tasks = Vec::new(alloc);
    inbox.drain(rt, alloc, &mut tasks).expect(rt, "memory");
    are_listed & (tasks.as_slice() == [5, 3].as_slice())
}

#[test]
fn an_inbox_drains_in_the_order_of_the_wakes(rt: HostRuntime) {
    let inbox = Inbox::new(rt.alloc(), 16, NoUnpark).expect(&rt, "memory");
    assert!(rt; drains_in_order(&rt, rt.alloc(), &inbox));
}

/// Returns the number that a registry gives a new inbox.
fn registered<R: Host + Abort>(rt: &R, alloc: Global, registry: &Registry<NoUnpark>) -> u64 {
    let inbox = Inbox::new(alloc, 0, NoUnpark).expect(rt, "memory");
    let inbox = Arc::new(alloc, inbox).expect(rt, "memory");
    registry
        .register(rt, alloc, inbox)
        .ok()
        .expect(rt, "memory")
}

/// Returns whether the registry has an inbox of this number.
fn has<R: Host + Abort>(rt: &R, registry: &Registry<NoUnpark>, number: u64) -> bool {
    registry.get(rt, number).expect(rt, "memory").is_some()
}

#[test]
fn a_registry_counts_from_sixteen(rt: HostRuntime) {
    let registry = Registry::new(rt.alloc());
    assert!(rt; registered(&rt, rt.alloc(), &registry) == 16);
    assert!(rt; registered(&rt, rt.alloc(), &registry) == 17);
    assert!(rt; has(&rt, &registry, 16) && registry.unregister(&rt, 16));
    assert!(rt; !has(&rt, &registry, 16) && !registry.unregister(&rt, 16));
}

#[test]
fn a_cancelled_word_drops_the_output(rt: HostRuntime) {
    let (runner, joiner) = pair::<u64, Named>(rt.alloc(), 4).expect(&rt, "memory");
    let is_canceled = joiner.cancel().is_none();
    let done = runner.complete(Ok(4));
    assert!(rt; is_canceled & done.dropped & (woken(done.woke) == 0));
}

#[test]
fn a_canceled_job_is_told(rt: HostRuntime) {
    let (runner, mut joiner) = pair::<u64, Named>(rt.alloc(), 4).expect(&rt, "memory");
    let done = runner.complete(Err(JoinError::Canceled));
    assert!(rt; woken(done.woke) == 0 && joiner.is_finished());
    assert!(rt; joiner.cancel() == Some(Err(JoinError::Canceled)));
}
