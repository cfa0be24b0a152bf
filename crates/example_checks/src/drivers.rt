//! A runtime on a driver of one's own, which parks a given number of times, and then fails.

mod bounds;
mod naps;

use mono_rt::{Entry, Host, Journal, NoPool, RunError, StepDriver};
use naps::nap_within;
use std::alloc::Global;
use std::time::Duration;

// Returns how many parks the journal has, and for how many milliseconds they were at most.
fn parks_in(journal: &Journal) -> (u64, u64) {
    let mut parks = 0u64;
    let mut milliseconds = 0u64;
    for place in 0..journal.len() {
        if let Some(Entry::Park(wait)) = journal.get(place) {
            parks = parks.saturating_add(1);
            milliseconds = milliseconds.saturating_add(wait.unwrap_or(0));
        }
    }
    (parks, milliseconds)
}

/// The answer of a nap, how many parks its journal has, and for how many milliseconds they were at most.
pub type Napped = (Result<u64, RunError>, u64, u64);

/// Runs a nap of some milliseconds in virtual time, on a driver that parks at most `parks` times. Returns None
/// if out of memory.
pub fn nap_and_parks<R: Host>(
    rt: &R,
    alloc: Global,
    parks: u64,
    milliseconds: u64,
) -> Option<Napped> {
    let driver = StepDriver::new(Vec::new(alloc));
    let length = Duration::from_millis(milliseconds);
    let (answer, journal) = nap_within::<_, NoPool, _>(rt, alloc, driver, parks, length).ok()?;
    let (parked, waited) = parks_in(&journal);
    Some((answer, parked, waited))
}
