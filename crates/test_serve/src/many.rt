// Far more messages and waits than a list has room for at first: a service that gives up at some length answers Memory
// here.
use mono_serve::{Buckets, Claimed, Leases, Mailboxes, Received};
use mono_time::Instant;

/// How many messages are queued, or how many tasks wait, at one service.
const MANY: u64 = 200_000;

/// How many sessions are open at once, each in the queue of one key.
const SESSIONS: u64 = 6_000;

#[test]
fn many_messages_wait_for_an_actor(rt: HostRuntime) {
    let alloc = rt.alloc();
    let mut mail: Mailboxes<u64> = Mailboxes::new(alloc, 2, MANY).expect(&rt, "memory");
    let actor = mail.spawn(alloc).expect(&rt, "an actor");
    let mut come = true;
    for message in 0..MANY {
        come = come & mail.send(actor, actor, message).is_ok();
    }
    assert!(rt; come && mail.send(actor, actor, 0).is_err());
    for number in 0..MANY {
        let answer = mail.receive(None, actor, 1);
        come = come & matches!(answer, Received::Got(_, message) if message == number);
    }
    assert!(rt; come);
}

#[test]
fn many_tasks_wait_for_a_message(rt: HostRuntime) {
    let alloc = rt.alloc();
    let mut mail: Mailboxes<u64> = Mailboxes::new(alloc, 2, 4).expect(&rt, "memory");
    let actor = mail.spawn(alloc).expect(&rt, "an actor");
    let mut waits = true;
    for task in 0..MANY {
        let answer = mail.receive(None, actor, task);
        waits = waits & matches!(answer, Received::Waits(ticket) if ticket == task);
    }
    assert!(rt; waits);
}

#[test]
fn many_tasks_wait_for_tokens(rt: HostRuntime) {
    let alloc = rt.alloc();
    let mut buckets = Buckets::new(alloc, 2).expect(&rt, "memory");
    let bucket = buckets.add(alloc, 1, 1000).expect(&rt, "a bucket");
    let mut waits = true;
    for task in 0..MANY {
        waits = waits & matches!(buckets.enter(None, bucket, task), Ok(ticket) if ticket == task);
    }
    assert!(rt; waits);
    assert_eq!(rt; buckets.first_task(bucket), Some(0));
}

#[test]
fn many_sessions_wait_for_a_key(rt: HostRuntime) {
    let alloc = rt.alloc();
    let now = Instant::ZERO;
    let mut leases = Leases::new(alloc, SESSIONS, SESSIONS).expect(&rt, "memory");
    let first = leases.open(alloc, now, 60_000).expect(&rt, "a session");
    assert!(rt; matches!(leases.acquire(alloc, now, first, 5, 0), Claimed::Held));
    let mut waits = true;
    for task in 1..SESSIONS {
        let session = leases.open(alloc, now, 60_000).expect(&rt, "a session");
        let answer = leases.acquire(alloc, now, session, 5, task);
        waits = waits & matches!(answer, Claimed::Waits(_));
    }
    assert!(rt; waits);
    assert_eq!(rt; leases.owner(5), Some(first));
}
