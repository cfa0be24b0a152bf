// Who waits at a channel.
use mono_inbox::{RemoteWaker, Unpark, UnparkHandle};
use mono_model::Host;
use std::collections::BTreeMap;

/// A task of a runtime, or a thread that has none.
#[derive(Drop)]
pub(crate) enum Waiter<U: Unpark> {
    Task(RemoteWaker<U>),
    Thread(UnparkHandle),
}

impl<U: Unpark> Waiter<U> {
    /// Wakes the task, or ends the thread's wait.
    pub(crate) fn wake<R: Host>(&self, rt: &R) {
        match self {
            Waiter::Task(waker) => {
                waker.wake(rt);
            }
            Waiter::Thread(handle) => handle.unpark(rt),
        }
    }
}

/// Wakes this one, if there is one.
pub(crate) fn wake_first<U: Unpark, R: Host>(rt: &R, first: Option<Waiter<U>>) {
    if let Some(waiter) = first {
        waiter.wake(rt);
    }
}

/// Wakes those who waited to send, in the order in which they began to.
pub(crate) fn wake_all<U: Unpark, R: Host>(rt: &R, waiting: BTreeMap<u64, Waiter<U>>) {
    for (_, waiter) in waiting {
        waiter.wake(rt);
    }
}
