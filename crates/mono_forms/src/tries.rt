// One future after another, if the first succeeds.
ghost use Rattle.std.specs.Prelude.{◌≡◌, false};
ghost use Rattle.mono_model.specs.Poll.{OnPending, IfReady};
ghost use Rattle.mono_forms.specs.Tries.{try_spent, TryCanPoll, TryPolls, TryGives, TryCancels, NextMayPoll, NextPolls};

use crate::maps::MapOk;
use mono_model::{Host, Poll};
use mono_task::{Context, TaskFuture};
use std::alloc::Global;
use std::mem;

/// A future whose value is a future, followed by that future; an error of the first is the answer at once.
///
/// The first is given up once it has answered, and that same poll polls the second for the first time. The second is
/// given up once it has answered. Then the form is spent.
#[derive(Drop)]
pub enum TryFlatten<A, B> {
    /// The first has not answered.
    First(A),
    /// The second has not answered.
    Second(B),
    /// It has answered.
    Over,
}

/// A future followed, if it succeeds, by the future that a closure makes of its value.
pub type AndThen<A, B, F> = TryFlatten<MapOk<A, F>, B>;

impl<A, B> TryFlatten<A, B> {
    // Polls the second.
    fn poll_second<C, U, E, R: Host>(
        &mut self,
        rt: &R,
        alloc: Global,
        cx: &mut C,
    ) -> Poll<Result<U, E>>
    where
        C: Context,
        A: TaskFuture<C, Output = Result<B, E>>,
        B: TaskFuture<C, Output = Result<U, E>>,
        requires may { NextMayPoll B.TaskFuture self.old }
        ensures polled { NextPolls B.TaskFuture self.old cx.old result self.new cx.new }
        ensures again { OnPending result (try_spent A.is_spent B.is_spent self.new ≡ false) }
        ensures callable { TryCanPoll A.TaskFuture B.TaskFuture self.new }
        ensures given { IfReady result (TryGives A.gives B.gives self.old) }
        ensures same { OnPending result ((x : _) → TryGives A.gives B.gives self.new x → TryGives A.gives B.gives self.old x) }
        ensures reached { C.reaches cx.old cx.new }
    {
        let TryFlatten::Second(b) = self else {
            unreachable!()
        };
        match b.poll(rt, alloc, cx) {
            Poll::Ready(y) => {
                if let TryFlatten::Second(b) = mem::replace(self, TryFlatten::Over) {
                    b.cancel(cx);
                }
                Poll::Ready(y)
            }
            Poll::Pending => Poll::Pending,
        }
    }

    // Gives up the running future, and puts this in its place.
    fn go_on<C>(&mut self, next: TryFlatten<A, B>, cx: &mut C)
    where
        C: Context,
        A: TaskFuture<C>,
        B: TaskFuture<C>,
        ensures next { self.new ≡ next }
        ensures cancelled { TryCancels A.cancels B.cancels self.old cx.old cx.new }
        ensures reached { C.reaches cx.old cx.new }
    {
        match mem::replace(self, next) {
            TryFlatten::First(a) => a.cancel(cx),
            TryFlatten::Second(b) => b.cancel(cx),
            TryFlatten::Over => {}
        }
    }
}

impl<C, A, B, U, E> TaskFuture<C> for TryFlatten<A, B>
where
    C: Context,
    A: TaskFuture<C, Output = Result<B, E>>,
    B: TaskFuture<C, Output = Result<U, E>>,
{
    type Output = Result<U, E>;

    ghost is_spent = { try_spent A.is_spent B.is_spent };

    ghost can_poll = { TryCanPoll A.TaskFuture B.TaskFuture };

    ghost polls = { TryPolls A.TaskFuture B.TaskFuture };

    ghost gives = { TryGives A.gives B.gives };

    ghost cancels = { TryCancels A.cancels B.cancels };

    fn spent(&self) -> bool {
        match self {
            TryFlatten::First(a) => a.spent(),
            TryFlatten::Second(b) => b.spent(),
            TryFlatten::Over => true,
        }
    }

    fn poll<R: Host>(&mut self, rt: &R, alloc: Global, cx: &mut C) -> Poll<Result<U, E>> {
        match self {
            TryFlatten::First(a) => match a.poll(rt, alloc, cx) {
                Poll::Ready(Ok(b)) => {
                    self.go_on(TryFlatten::Second(b), cx);
                    self.poll_second(rt, alloc, cx)
                }
                Poll::Ready(Err(error)) => {
                    self.go_on(TryFlatten::Over, cx);
                    Poll::Ready(Err(error))
                }
                Poll::Pending => Poll::Pending,
            },
            TryFlatten::Second(_) => self.poll_second(rt, alloc, cx),
            TryFlatten::Over => unreachable!(),
        }
    }

    fn cancel(self, cx: &mut C) {
        match self {
            TryFlatten::First(a) => a.cancel(cx),
            TryFlatten::Second(b) => b.cancel(cx),
            TryFlatten::Over => {}
        }
    }
}
