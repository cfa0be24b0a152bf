//! A job of your own: a nap, which blocks the thread that runs it.
use mono_rt::{Job, Outcome, UnparkHandle};
use std::thread;
use std::time::Duration;

/// Sleeps on the thread that runs it, and returns for how many milliseconds.
#[derive(Drop)]
pub struct Nap {
    /// The handle by which it sleeps.
    pub rt: HostRuntime,
    /// For how many milliseconds it sleeps.
    pub millis: u64,
}

impl Outcome for Nap {
    ghost output_number = { λ nap. nap.millis };

    fn number(&self) -> u64 {
        self.millis
    }
}

impl Job for Nap {
    type Output = u64;

    type Unpark = UnparkHandle;

    fn run(self) -> u64 {
        thread::sleep(&self.rt, Duration::from_millis(self.millis));
        self.millis
    }
}
