// A future that sleeps once, and a run of it.
ghost use Rattle.std.specs.Prelude.{◌≡◌, false, IfOk};
ghost use Rattle.mono_machine.specs.Machine.{Machine, start_machine};
ghost use Rattle.mono_machine.specs.Steps.{Run};
ghost use Rattle.mono_machine.specs.declared.events.Blocking.TheVariants.{Panic};
ghost use Rattle.mono_rt.specs.Journals.{events_in, reports_in};

use crate::drivers::bounds::Bounded;
use mono_rt::{
    BlockingHandle, BlockingStrategy, Driver, Host, Journal, Limits, Poll, RunError, Sleep,
    TaskFuture, ThreadPool, TimeContext, run_alone, sleep,
};
use std::alloc::{AllocError, Global};
use std::time::Duration;

/// A future that sleeps for a while, and is ready with 1, or with 0 if it could not sleep.
#[derive(Drop)]
pub struct Nap {
    length: Duration,
    delay: Option<Sleep>,
    has_answered: bool,
}

impl Nap {
    /// Returns a nap of this length, which begins at the first poll.
    pub fn new(length: Duration) -> Nap
        ensures { result.has_answered ≡ false }
    {
        Nap {
            length,
            delay: None,
            has_answered: false,
        }
    }
}

impl<C: TimeContext> TaskFuture<C> for Nap {
    type Output = u64;

    ghost is_spent = { λ f. f.has_answered };

    fn spent(&self) -> bool {
        self.has_answered
    }

    fn poll<R: Host>(&mut self, rt: &R, alloc: Global, cx: &mut C) -> Poll<u64> {
        let made = match self.delay.take() {
            Some(delay) => Ok(delay),
            None => sleep(alloc, cx, self.length),
        };
        let Ok(mut delay) = made else {
            self.has_answered = true;
            return Poll::Ready(0);
        };
        match delay.poll(rt, alloc, cx) {
            Poll::Pending => {
                self.delay = Some(delay);
                Poll::Pending
            }
            Poll::Ready(answer) => {
                delay.cancel(cx);
                self.has_answered = true;
                Poll::Ready(if answer.is_ok() { 1 } else { 0 })
            }
        }
    }

    fn cancel(self, cx: &mut C) {
        if let Some(delay) = self.delay {
            delay.cancel(cx);
        }
    }
}

/// Runs one nap on a runtime of its own, whose driver parks at most `parks` times. Returns the answer, and the journal,
/// whose history is a run of the reference machine (`run`).
pub fn nap_within<D: Driver, P: ThreadPool + Drop, R: Host>(
    rt: &R,
    alloc: Global,
    driver: D,
    parks: u64,
    length: Duration,
) -> Result<(Result<u64, RunError>, Journal), AllocError>
    ensures run { IfOk result (λ r. (new : Machine) × Run (start_machine (record { tasks = 1; jobs = 0; sleeps = 1 }) Panic) (events_in r.1.history.entries) (reports_in r.1.history.entries) new) }
{
    let limits = Limits {
        tasks: 1,
        jobs: 0,
        sleeps: 1,
    };
    let pool: BlockingHandle<P> = BlockingHandle::Empty(BlockingStrategy::Panic);
    let driver = Bounded::new(driver, parks);
    run_alone(rt, alloc, driver, pool, limits, Nap::new(length), 100)
}
