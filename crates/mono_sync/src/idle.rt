// Whether a semaphore, a notice, a channel or a watched value is idle: no task waits in it.
use crate::mpsc::Channel;
use crate::notices::Notify;
use crate::oneshot::Oneshot;
use crate::semaphores::Semaphore;
use crate::tables::Idle;
use crate::watch::Watch;

impl Idle for Semaphore {
    fn is_idle(&self) -> bool {
        self.line.waiters.is_empty()
    }
}

impl<T> Idle for Oneshot<T> {
    fn is_idle(&self) -> bool {
        self.line.waiters.is_empty()
    }
}

impl<T> Idle for Channel<T> {
    fn is_idle(&self) -> bool {
        if self.senders.waiters.is_empty() {
            return self.receivers.waiters.is_empty();
        }
        false
    }
}

impl Idle for Notify {
    fn is_idle(&self) -> bool {
        self.line.waiters.is_empty()
    }
}

impl<T> Idle for Watch<T> {
    fn is_idle(&self) -> bool {
        self.line.waiters.is_empty()
    }
}
