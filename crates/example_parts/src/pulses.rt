//! A future that waits for a number of elapses of a sleep, and its poll under a timeout.

ghost use Rattle.std.specs.Prelude.{◌≡◌, ◌≢◌, true, false, Ok};
ghost use Rattle.mono_model.specs.declared.poll.Poll.TheVariants.{Ready, Pending};
ghost use Rattle.mono_time.specs.Futures.{SleepCancels};
ghost use Rattle.mono_time.specs.Sleeps.{sleep_poll_answer};
ghost use Rattle.example_parts.specs.Pulses.{PulsePolls};

use mono_model::{Host, Poll};
use mono_task::TaskFuture;
use mono_time::{Error, Sleep, TimeContext, Timeout, TimeoutError};
use std::alloc::Global;
use std::time::Duration;

/// A future that waits until its sleep has elapsed a number of times, a period apart.
#[derive(Drop)]
pub struct Pulse {
    delay: Sleep,
    period: Duration,
    left: u64,
    has_answered: bool,
}

impl Pulse {
    /// Returns a pulse that waits for this sleep, and then for `left` more periods.
    pub fn new(delay: Sleep, period: Duration, left: u64) -> Pulse
        ensures { result ≡ record { delay = delay; period = period; left = left; has_answered = false } }
    {
        Pulse {
            delay,
            period,
            left,
            has_answered: false,
        }
    }
}

impl<C: TimeContext> TaskFuture<C> for Pulse {
    type Output = Result<(), Error>;

    ghost is_spent = { λ f. f.has_answered };

    ghost polls = { PulsePolls C.number C.sleeps C.work C.reaches };

    ghost cancels = { λ f c d. SleepCancels C.sleeps C.work C.reaches f.delay c d };

    fn spent(&self) -> bool {
        self.has_answered
    }

    fn poll<R: Host>(&mut self, rt: &R, alloc: Global, cx: &mut C) -> Poll<Result<(), Error>> {
        match self.delay.poll(rt, alloc, cx) {
            Poll::Pending => Poll::Pending,
            Poll::Ready(Err(error)) => {
                self.has_answered = true;
                Poll::Ready(Err(error))
            }
            Poll::Ready(Ok(())) => {
                if self.left == 0 {
                    self.has_answered = true;
                    return Poll::Ready(Ok(()));
                }
                let Some(next) = self.delay.deadline().checked_add(self.period) else {
                    self.has_answered = true;
                    return Poll::Ready(Err(Error::invalid()));
                };
                match self.delay.reset(cx, next) {
                    Ok(()) => {
                        self.left -= 1;
                        cx.wake_me();
                        Poll::Pending
                    }
                    Err(error) => {
                        self.has_answered = true;
                        Poll::Ready(Err(error))
                    }
                }
            }
        }
    }

    fn cancel(self, cx: &mut C) {
        self.delay.cancel(cx);
    }
}

/// Polls a pulse with a deadline, and returns whether its time has elapsed. It has if the pulse waits and the deadline
/// has come.
pub fn is_late<C: TimeContext, R: Host>(
    rt: &R,
    alloc: Global,
    cx: &mut C,
    limited: &mut Timeout<Pulse>,
) -> bool
    requires fresh { limited.old.value.has_answered ≡ false }
    requires waits { sleep_poll_answer (C.sleeps cx.old) limited.old.value.delay.number ≡ Ok Pending }
    requires due { sleep_poll_answer (C.sleeps cx.old) limited.old.delay.number ≡ Ok (Ready tt) }
    requires apart { limited.old.delay.number ≢ limited.old.value.delay.number }
    ensures late { result ≡ true }
    ensures reached { C.reaches cx.old cx.new }
{
    match limited.poll(rt, alloc, cx) {
        Poll::Ready(Err(TimeoutError::Elapsed(_))) => true,
        _ => false,
    }
}
