//! A supervisor that starts a worker anew after each failure.
ghost use Rattle.std.specs.Prelude.{◌≡◌, ◌⊎◌, IfSome};

use mono_forms::{FutureExt, Loop, repeat};
use mono_rt::{
    Host, LateError, NoPool, SleepError, StepDriver, TimeDriver, sleep_for, start, timeout_for,
};
use std::alloc::Global;
use std::time::Duration;

/// How a worker ended: with its work done, or late, or with a refused sleep.
type Worked = Result<Result<(), SleepError>, LateError>;

// Returns what the supervisor does next: it ends with the answer, starts the worker anew, or gives up.
fn next(restarts: u32, worked: Worked) -> Loop<bool, u32> {
    match worked {
        Ok(Ok(())) => Loop::Break(true),
        _ if restarts < 3 => Loop::Continue(restarts + 1),
        _ => Loop::Break(false),
    }
}

/// Runs a worker that takes 40 ms, half of it after one restart, and so on. A worker that takes more than 15 ms is given
/// up and started anew. Returns the worker's answer, which is `question`, or 0 if the supervisor gave up.
pub fn supervisor<R: Host>(rt: &R, alloc: Global, question: u64) -> Option<u64>
    ensures { IfSome result (λ answer. (answer ≡ question) ⊎ (answer ≡ 0)) }
{
    let task = repeat(0, |restarts: u32| {
        let work = 40u64.checked_shr(restarts).unwrap_or(0);
        let worker = sleep_for(Duration::from_millis(work));
        timeout_for(Duration::from_millis(15), worker).map(move |worked: Worked| next(
            restarts, worked,
        ))
    })
    .map(move |is_done: bool| if is_done { question } else { 0 });
    let driver = TimeDriver::new(StepDriver::new(Vec::new(alloc)));
    start::<_, _, _, NoPool, R>(rt, alloc, driver, task, 1000).ok()
}
