// What ends the waits of a pool's workers.
use mono_model::Host;
use std::sync::atomic::{AtomicU64, Ordering};

/// Counts the changes of a queue. A worker reads the count, looks at the queue, and then waits unless the count has changed,
/// so it misses no change. Another thread notifies without a lock.
#[derive(Drop)]
pub(crate) struct Signal {
    changes: AtomicU64,
    sleepers: AtomicU64,
}

impl Signal {
    /// Returns a signal of no changes, on which no thread waits.
    pub(crate) fn new() -> Signal {
        Signal {
            changes: AtomicU64::new(0),
            sleepers: AtomicU64::new(0),
        }
    }

    /// Returns how many changes there were, wrapping.
    pub(crate) fn count(&self) -> u64 {
        self.changes.load(Ordering::SeqCst)
    }

    /// Waits until a change is notified, unless there were more changes than `seen`. It may return without a change.
    pub(crate) fn wait<R: Host>(&self, rt: &R, seen: u64) {
        self.sleepers.fetch_add(1, Ordering::SeqCst);
        self.changes.park(rt, (seen & 0xffff_ffff) as u32);
        self.sleepers.fetch_sub(1, Ordering::SeqCst);
    }

    /// Counts a change, and wakes one thread that waits.
    pub(crate) fn notify_one(&self) {
        self.changes.fetch_add(1, Ordering::SeqCst);
        if self.sleepers.load(Ordering::SeqCst) != 0 {
            self.changes.wake_one();
        }
    }

    /// Counts a change, and wakes all threads that wait.
    pub(crate) fn notify_all(&self) {
        self.changes.fetch_add(1, Ordering::SeqCst);
        if self.sleepers.load(Ordering::SeqCst) != 0 {
            self.changes.wake_all();
        }
    }
}
