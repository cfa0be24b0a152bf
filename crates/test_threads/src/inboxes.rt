// An inbox of more tasks than it made room for.
use mono_inbox::{Inbox, NoUnpark};
use mono_model::Host;
use std::alloc::Global;
use std::process::Abort;

/// An inbox without a thread to unpark.
type Plain = Inbox<NoUnpark>;

/// More tasks than an inbox makes room for at once.
const MANY: u64 = 300;

/// Makes a waker of each task, which then wakes it, and returns whether a drain takes all.
fn drains_all<R: Host + Abort>(rt: &R, alloc: Global, inbox: &Plain, tasks: &mut Vec<u64>) -> bool {
    let mut are_listed = true;
    for task in 0..MANY {
        let waker = inbox.waker(rt, alloc, task).expect(rt, "memory");
        are_listed = waker.wake(rt) & are_listed;
    }
    inbox.drain(rt, alloc, tasks).expect(rt, "memory");
    are_listed & (tasks.len() as u64 == MANY)
}

#[test]
fn an_inbox_drains_all(rt: HostRuntime) {
    let mut tasks = Vec::new(rt.alloc());
    let inbox = Inbox::new(rt.alloc(), 0, NoUnpark).expect(&rt, "memory");
    assert!(rt; drains_all(&rt, rt.alloc(), &inbox, &mut tasks));
}
