// The next tick of an interval as a future.
ghost use Rattle.std.specs.Prelude.{◌≡◌, false};
ghost use Rattle.mono_model.specs.Poll.{call_of};
ghost use Rattle.mono_time.specs.IntervalTicks.{TickGives, TickPolls};

use crate::Error;
use crate::context::TimeContext;
use crate::instant::Instant;
use crate::intervals::Interval;
use mono_model::{Host, Poll};
use mono_task::TaskFuture;
use std::alloc::Global;

/// The next tick of an interval, as a future: each poll is a [`Interval::poll_tick`] of the interval.
///
/// It is never spent: a poll after a tick waits for the tick after it. A tick is the interval's deadline (`gives`).
/// Giving it up leaves the interval as it is.
#[derive(Drop)]
pub struct Tick<'a> {
    pub(crate) interval: &'a mut Interval,
}

impl Interval {
    /// Returns the future of the next tick, on the interval itself (`interval`, `same_reference`).
    ///
    /// ```rust
    /// // test_futures/src/interval_ticks.rt
    /// interval.tick().poll(rt, alloc, cx) == Poll::Ready(Ok(at_millis(millis)))
    /// ```
    pub fn tick(&mut self) -> Tick<'_>
        ensures same_reference { result.interval.ghost_name ≡ self.entry.ghost_name }
        ensures interval { result.interval.now ≡ self.old }
    {
        Tick { interval: self }
    }
}

impl<C: TimeContext> TaskFuture<C> for Tick<'_> {
    type Output = Result<Instant, Error>;

    ghost is_spent = { λ f. false };

    // The poll is the interval's.
    ghost polls = { λ f c r g d. TickPolls C.number C.nanos C.sleeps C.work f.interval.now c (call_of r) g.interval.now d };

    ghost gives = { λ f. TickGives f.interval.now };

    ghost cancels = { λ f c d. d ≡ c };

    fn spent(&self) -> bool {
        false
    }

    fn poll<R: Host>(
        &mut self,
        _rt: &R,
        _alloc: Global,
        cx: &mut C,
    ) -> Poll<Result<Instant, Error>> {
        match self.interval.poll_tick(cx) {
            Ok(Poll::Ready(tick)) => Poll::Ready(Ok(tick)),
            Ok(Poll::Pending) => Poll::Pending,
            Err(error) => Poll::Ready(Err(error)),
        }
    }

    fn cancel(self, _cx: &mut C) {}
}
