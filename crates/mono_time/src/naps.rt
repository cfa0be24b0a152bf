// A sleep that is made at its first poll.
ghost use Rattle.std.specs.Prelude.{◌≡◌, false};
ghost use Rattle.mono_model.specs.Poll.{OnPending};
ghost use Rattle.mono_time.specs.Naps.{nap_spent, Naps, NapPolls, NapCancels};

use crate::SleepError;
use crate::constructors::sleep;
use crate::context::TimeContext;
use crate::sleeps::Sleep;
use mono_model::{Host, Poll};
use mono_task::TaskFuture;
use std::alloc::Global;
use std::mem;
use std::time::Duration;

/// A sleep for a duration from its first poll on. So it can follow another future: it needs no context before.
#[derive(Drop)]
pub enum SleepFor {
    /// It was not polled.
    Fresh(Duration),
    /// Its sleep was made.
    Asleep(Sleep),
    /// It has answered.
    Over,
}

/// Makes a sleep for a duration from its first poll on.
pub fn sleep_for(duration: Duration) -> SleepFor
    ensures { result ≡ SleepFor.Fresh duration }
{
    SleepFor::Fresh(duration)
}

impl SleepFor {
    // Returns whether it has answered.
    pub(crate) fn is_over(&self) -> bool
        ensures { result ≡ nap_spent self.now }
    {
        match self {
            SleepFor::Fresh(_) => false,
            SleepFor::Asleep(_) => false,
            SleepFor::Over => true,
        }
    }

    // Polls the sleep, and gives it up if it answered.
    fn go_on<C: TimeContext, R: Host>(
        &mut self,
        rt: &R,
        alloc: Global,
        cx: &mut C,
        sleep: Sleep,
    ) -> Poll<Result<(), SleepError>>
        ensures naps { Naps C.nanos C.number C.sleeps C.work C.reaches sleep cx.old result self.new cx.new }
        ensures again { OnPending result (nap_spent self.new ≡ false) }
        ensures reached { C.reaches cx.old cx.new }
    {
        let mut sleep = sleep;
        match sleep.poll(rt, alloc, cx) {
            Poll::Pending => {
                *self = SleepFor::Asleep(sleep);
                Poll::Pending
            }
            Poll::Ready(answer) => {
                sleep.cancel(cx);
                *self = SleepFor::Over;
                match answer {
                    Ok(()) => Poll::Ready(Ok(())),
                    Err(error) => Poll::Ready(Err(SleepError::Timer(error))),
                }
            }
        }
    }
}

impl<C: TimeContext> TaskFuture<C> for SleepFor {
    type Output = Result<(), SleepError>;

    ghost is_spent = { nap_spent };

    ghost polls = { NapPolls C.nanos C.number C.sleeps C.work C.reaches };

    ghost cancels = { NapCancels C.sleeps C.work C.reaches };

    fn spent(&self) -> bool {
        self.is_over()
    }

    fn poll<R: Host>(&mut self, rt: &R, alloc: Global, cx: &mut C) -> Poll<Result<(), SleepError>> {
        match mem::replace(self, SleepFor::Over) {
            SleepFor::Fresh(duration) => match sleep(alloc, cx, duration) {
                Ok(sleep) => self.go_on(rt, alloc, cx, sleep),
                Err(error) => Poll::Ready(Err(error)),
            },
            SleepFor::Asleep(sleep) => self.go_on(rt, alloc, cx, sleep),
            SleepFor::Over => unreachable!(),
        }
    }

    fn cancel(self, cx: &mut C) {
        if let SleepFor::Asleep(sleep) = self {
            sleep.cancel(cx);
        }
    }
}
