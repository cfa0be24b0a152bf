// A future that has to be ready before a deadline.
ghost use Rattle.std.specs.Prelude.{◌≡◌};
ghost use Rattle.mono_time.specs.Futures.{SleepCancels};
ghost use Rattle.std.specs.Borrow.{sem};
ghost use Rattle.mono_time.specs.Loans.{LendsValue};
ghost use Rattle.mono_time.specs.Timeouts.{TimeoutPolls, TimeoutGives, TimeoutCancels};

use crate::SleepError;
use crate::context::TimeContext;
use crate::error::{Elapsed, TimeoutError};
use crate::sleeps::Sleep;
use mono_model::{Host, Poll};
use mono_task::TaskFuture;
use std::alloc::Global;

/// A future with a deadline. Each poll polls its value first, so an output wins. A timeout is spent if its value is.
///
/// After an `Ok` answer the delay has been dropped; after an `Err` it stays until `cancel` or [`Timeout::into_inner`].
#[derive(Drop)]
pub struct Timeout<T> {
    pub(crate) value: T,
    pub(crate) delay: Sleep,
}

/// The future of a refused timeout, and the cause.
#[derive(Drop)]
pub struct TimeoutRefused<T> {
    /// The reason why no delay was made.
    pub cause: SleepError,
    /// The future that was handed in.
    pub future: T,
}

impl<T> Timeout<T> {
    /// Returns a reference to the future.
    pub fn get_ref(&self) -> &T
        ensures { result.now ≡ self.now.value }
    {
        &self.value
    }

    /// Returns a mutable reference to the future. The delay stays.
    pub fn get_mut(&mut self) -> &mut T
        ensures* writes_back { sem 𝓛 (LendsValue T.row self.entry result) }
        ensures value { result.now ≡ self.old.value }
    {
        &mut self.value
    }

    /// Returns the future and gives up the delay.
    pub fn into_inner<C: TimeContext>(self, cx: &mut C) -> T
        ensures value { result ≡ self.value }
        ensures delay { SleepCancels C.sleeps C.work C.reaches self.delay cx.old cx.new }
        ensures reached { C.reaches cx.old cx.new }
    {
        let Timeout { value, delay } = self;
        delay.cancel(cx);
        value
    }
}

impl<C: TimeContext, T: TaskFuture<C>> TaskFuture<C> for Timeout<T> {
    type Output = Result<T::Output, TimeoutError>;

    ghost is_spent = { λ f. T.is_spent f.value };

    ghost can_poll = { λ f. T.can_poll f.value };

    ghost polls = { TimeoutPolls T.TaskFuture C.number C.sleeps C.work C.reaches };

    ghost gives = { λ f. TimeoutGives T.gives f.value };

    ghost cancels = { TimeoutCancels T.TaskFuture C.sleeps C.work C.reaches };

    fn spent(&self) -> bool {
        self.value.spent()
    }

    fn poll<R: Host>(
        &mut self,
        rt: &R,
        alloc: Global,
        cx: &mut C,
    ) -> Poll<Result<T::Output, TimeoutError>> {
        match self.value.poll(rt, alloc, cx) {
            Poll::Ready(value) => {
                let _ = cx.drop_sleep(self.delay.number);
                Poll::Ready(Ok(value))
            }
            Poll::Pending => match self.delay.poll(rt, alloc, cx) {
                Poll::Ready(Ok(())) => Poll::Ready(Err(TimeoutError::Elapsed(Elapsed))),
                Poll::Ready(Err(error)) => Poll::Ready(Err(TimeoutError::Timer(error))),
                Poll::Pending => Poll::Pending,
            },
        }
    }

    fn cancel(self, cx: &mut C) {
        let Timeout { value, delay } = self;
        value.cancel(cx);
        delay.cancel(cx);
    }
}
