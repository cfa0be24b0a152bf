// A sleep as a future.
ghost use Rattle.std.specs.Prelude.{◌≡◌, false, OnOk, OnErr};
ghost use Rattle.mono_model.specs.Tasks.{woken_if_any};
ghost use Rattle.mono_time.specs.Instants.{nanos_of};
ghost use Rattle.mono_time.specs.Sleeps.{sleep_reset_answer, with_reset_sleep, sleep_elapsed_answer};
ghost use Rattle.mono_model.specs.SleepAnswers.{without_waker, waker_in};
ghost use Rattle.mono_time.specs.Futures.{SleepPolls, SleepCancels};

use crate::Error;
use crate::context::TimeContext;
use crate::instant::Instant;
use mono_model::{Host, Poll};
use mono_task::TaskFuture;
use std::alloc::Global;

/// A sleep of a context: its number there, and its deadline. It answers once the deadline has come.
///
/// A sleep that is dropped without [`TaskFuture::cancel`] stays in the context. In another context, it names that
/// context's sleep of the same number.
#[derive(Debug, PartialEq, Eq, Drop)]
pub struct Sleep {
    pub(crate) number: u64,
    pub(crate) deadline: Instant,
}

impl Sleep {
    /// Returns the instant at which the sleep ends.
    pub fn deadline(&self) -> Instant
        ensures { result ≡ self.now.deadline }
    {
        self.deadline
    }

    /// Returns the sleep's number in its context.
    pub fn number(&self) -> u64
        ensures { result ≡ self.now.number }
    {
        self.number
    }

    /// Returns whether the sleep has elapsed in the context. It is false for a sleep that was never polled or reset.
    ///
    /// Refused as shutdown if and only if the context has no such live sleep.
    pub fn is_elapsed<C: TimeContext>(&self, cx: &C) -> Result<bool, Error>
        ensures { result ≡ sleep_elapsed_answer (C.sleeps cx.now) self.now.number }
    {
        cx.sleep_elapsed(self.number)
    }

    /// Arms the sleep anew for a deadline. If it elapses at once, its waker is woken (`work`).
    ///
    /// Refused as shutdown if and only if the context has no such live sleep; then the deadline stays (`refused`).
    pub fn reset<C: TimeContext>(&mut self, cx: &mut C, deadline: Instant) -> Result<(), Error>
        ensures answer { result ≡ without_waker (sleep_reset_answer (C.sleeps cx.old) self.old.number (nanos_of deadline)) }
        ensures sleeps { C.sleeps cx.new ≡ with_reset_sleep (C.sleeps cx.old) self.old.number (nanos_of deadline) }
        ensures work { C.work cx.new ≡ woken_if_any (C.work cx.old) (waker_in (sleep_reset_answer (C.sleeps cx.old) self.old.number (nanos_of deadline))) }
        ensures number { self.new.number ≡ self.old.number }
        ensures deadline { OnOk result (self.new.deadline ≡ deadline) }
        ensures refused { OnErr result (self.new ≡ self.old) }
        ensures reached { C.reaches cx.old cx.new }
    {
        cx.reset_sleep(self.number, deadline)?;
        self.deadline = deadline;
        Ok(())
    }
}

impl<C: TimeContext> TaskFuture<C> for Sleep {
    type Output = Result<(), Error>;

    // A sleep may always be polled again, and then answers the same until it is reset.
    ghost is_spent = { λ s. false };

    ghost polls = { SleepPolls C.number C.sleeps C.work C.reaches };

    ghost cancels = { SleepCancels C.sleeps C.work C.reaches };

    fn spent(&self) -> bool {
        false
    }

    fn poll<R: Host>(&mut self, _rt: &R, _alloc: Global, cx: &mut C) -> Poll<Result<(), Error>> {
        match cx.poll_sleep(self.number) {
            Ok(Poll::Ready(())) => Poll::Ready(Ok(())),
            Ok(Poll::Pending) => Poll::Pending,
            Err(error) => Poll::Ready(Err(error)),
        }
    }

    fn cancel(self, cx: &mut C) {
        let _ = cx.drop_sleep(self.number);
    }
}
