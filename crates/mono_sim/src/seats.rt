// The place of a driver in a world.
use std::alloc::{AllocError, Global};
use std::sync::Arc;
use std::sync::atomic::{AtomicU64, Ordering};

/// The place of one driver in a world. The world sets the driver's time through it.
#[derive(Drop)]
pub struct Seat {
    // the time, in nanoseconds
    time: Arc<AtomicU64, Global>,
}

impl Seat {
    /// Returns a new place, at time 0.
    pub(crate) fn new(alloc: Global) -> Result<Seat, AllocError> {
        Ok(Seat {
            time: Arc::new(alloc, AtomicU64::new(0))?,
        })
    }

    /// Returns the same place once more. It fails only if the count of owners cannot grow.
    pub(crate) fn same(&self) -> Result<Seat, AllocError> {
        Ok(Seat {
            time: Arc::try_clone(&self.time)?,
        })
    }

    /// Sets the driver's time, in nanoseconds.
    pub(crate) fn set_time(&self, time: u64) {
        self.time.store(time, Ordering::SeqCst);
    }

    /// Returns the driver's time, in nanoseconds.
    pub(crate) fn time(&self) -> u64 {
        self.time.load(Ordering::SeqCst)
    }
}
