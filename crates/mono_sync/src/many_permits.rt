// Several permits of a semaphore in one call.
ghost use Rattle.std.specs.Prelude.{◌≡◌, ℕ};
ghost use Rattle.mono_sync.specs.SemaphoreRuns.{Leads};
ghost use Rattle.mono_sync.specs.Semaphores.{listed_by};
ghost use Rattle.mono_sync.specs.ManyPermits.{lesser_of, AddsPermits, TriesToAcquireMany, ForgetsPermits};
ghost use Rattle.mono_task.specs.Owed.{Keeps};

use crate::semaphores::{MAX_PERMITS, Semaphore, TooManyPermits, TryAcquireError};

// Returns the lesser of two numbers.
pub(crate) fn lesser(first: usize, second: usize) -> usize
    ensures { result ≡ lesser_of first second }
{
    if second < first { second } else { first }
}

impl Semaphore {
    /// Adds `count` permits. If tasks wait, one each is owed to the first `count` of them.
    ///
    /// Refused, with no permit added, if there were more than [`MAX_PERMITS`].
    pub fn add_permits(&mut self, count: usize) -> Result<(), TooManyPermits>
        ensures answer { AddsPermits self.old count result self.new }
        ensures leads { Leads self.old self.new }
        ensures keeps { (me : ℕ) → Keeps listed_by me self.old self.new }
    {
        if MAX_PERMITS.saturating_sub(self.available) < count {
            return Err(TooManyPermits);
        }
        self.available += count;
        Ok(())
    }

    /// Takes `count` permits at once, or none.
    ///
    /// Refused with `Closed` if the semaphore was closed, and with `NoPermits` if fewer are free.
    pub fn try_acquire_many(&mut self, count: usize) -> Result<(), TryAcquireError>
        ensures answer { TriesToAcquireMany self.old count result self.new }
        ensures leads { Leads self.old self.new }
        ensures keeps { (me : ℕ) → Keeps listed_by me self.old self.new }
    {
        if self.is_closed {
            return Err(TryAcquireError::Closed);
        }
        if self.available_permits() < count {
            return Err(TryAcquireError::NoPermits);
        }
        self.available -= count;
        Ok(())
    }

    /// Removes `count` permits, or as many as are free, and returns how many. They are those that `available_permits` counts:
    /// no permit that is held, reserved or owed is removed.
    ///
    /// Returns 0 if the semaphore was closed.
    pub fn forget_permits(&mut self, count: usize) -> usize
        ensures answer { ForgetsPermits self.old count result self.new }
        ensures leads { Leads self.old self.new }
        ensures keeps { (me : ℕ) → Keeps listed_by me self.old self.new }
    {
        if self.is_closed {
            return 0;
        }
        let free = self.available_permits();
        let forgotten = lesser(count, free);
        self.available -= forgotten;
        forgotten
    }
}
