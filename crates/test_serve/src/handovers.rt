// A future that a second task polls waits for that task from then on, at the line's end. The first task is woken.
use mono_rt::SharedState;
use mono_serve::{Buckets, Claimed, Leases, Looked, Mailboxes, Received};
use mono_time::Instant;
use std::alloc::Global;

// Opens a session.
fn opened(leases: &mut Leases, alloc: Global) -> Option<u64> {
    leases.open(alloc, Instant::ZERO, 1000).ok()
}

// Asks for key 7, for a task, and returns the ticket of the wait.
fn waits_for_key(leases: &mut Leases, alloc: Global, session: u64, task: u64) -> Option<u64> {
    match leases.acquire(alloc, Instant::ZERO, session, 7, task) {
        Claimed::Waits(ticket) => Some(ticket),
        Claimed::Held | Claimed::Refused(_) => None,
    }
}

// Takes the next three tasks that are owed a wake.
fn handed<S: SharedState>(shared: &mut S) -> [Option<u64>; 3] {
    let first = shared.next_owed();
    let second = shared.next_owed();
    [first, second, shared.next_owed()]
}

// Lets tasks 1 and 2 wait for a key, and lets task 3 poll the future of the first. Returns the tasks that are woken once
// the holder releases the key, and those once the first session does.
fn woken_for_key(leases: &mut Leases, alloc: Global) -> Option<[[Option<u64>; 3]; 2]> {
    let holder = opened(leases, alloc)?;
    let first = opened(leases, alloc)?;
    let second = opened(leases, alloc)?;
    if leases.acquire(alloc, Instant::ZERO, holder, 7, 0) != Claimed::Held {
        return None;
    }
    let ticket = waits_for_key(leases, alloc, first, 1)?;
    waits_for_key(leases, alloc, second, 2)?;
    if leases.look(alloc, Instant::ZERO, ticket, first, 7, 3) != Looked::Waits(2) {
        return None;
    }
    leases.release(alloc, Instant::ZERO, holder, 7).ok()?;
    let next = handed(leases);
    leases.release(alloc, Instant::ZERO, first, 7).ok()?;
    Some([next, handed(leases)])
}

// Asks for a message, for a task, and returns the ticket of the wait.
fn waits_for_message(
    mail: &mut Mailboxes<u64>,
    ticket: Option<u64>,
    actor: u64,
    task: u64,
) -> Option<u64> {
    match mail.receive(ticket, actor, task) {
        Received::Waits(ticket) => Some(ticket),
        Received::Got(_, _) | Received::Refused(_) => None,
    }
}

// Lets tasks 1 and 2 wait for a message, and lets task 3 poll the future of the first. Returns the tasks that are woken
// once a message comes, and the answers to tasks 3 and 2.
fn woken_for_message(
    mail: &mut Mailboxes<u64>,
    alloc: Global,
) -> Option<([Option<u64>; 3], Received<u64>, Received<u64>)> {
    let actor = mail.spawn(alloc).ok()?;
    let first = waits_for_message(mail, None, actor, 1)?;
    let second = waits_for_message(mail, None, actor, 2)?;
    let third = waits_for_message(mail, Some(first), actor, 3)?;
    mail.send(actor, actor, 5).ok()?;
    let next = handed(mail);
    let waits = mail.receive(Some(third), actor, 3);
    Some((next, waits, mail.receive(Some(second), actor, 2)))
}

#[test]
fn key_goes_to_the_task_that_polled_last(rt: HostRuntime) {
    let mut leases = Leases::new(rt.alloc(), 3, 3).expect(&rt, "memory");
    assert!(rt;
        woken_for_key(&mut leases, rt.alloc())
            == Some([[Some(1), Some(3), None], [Some(2), None, None]])
    );
}

// The message goes to the task that came first and waits on. No later one overtakes it.
#[test]
fn message_goes_to_the_task_that_came_first(rt: HostRuntime) {
    let mut mail: Mailboxes<u64> = Mailboxes::new(rt.alloc(), 1, 1).expect(&rt, "memory");
    assert!(rt;
        woken_for_message(&mut mail, rt.alloc())
            == Some((
                [Some(1), Some(2), None],
                Received::Waits(2),
                Received::Got(0, 5)
            ))
    );
}

#[test]
fn tokens_go_to_the_task_that_polled_last(rt: HostRuntime) {
    let mut buckets = Buckets::new(rt.alloc(), 1).expect(&rt, "memory");
    assert!(rt; matches!(buckets.enter(None, 0, 1), Ok(0)));
    assert!(rt; matches!(buckets.enter(None, 0, 2), Ok(1)));
    assert!(rt; matches!(buckets.enter(Some(1), 0, 3), Ok(2)));
    assert_eq!(rt; handed(&mut buckets), [Some(2), None, None]);
}
