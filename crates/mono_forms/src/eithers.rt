// Either of two futures.
ghost use Rattle.mono_forms.specs.Eithers.{either_spent, EitherIs, EitherPolls, EitherGives, EitherCancels};

use mono_model::{Host, Poll};
use mono_task::{Context, TaskFuture};
use std::alloc::Global;

/// One of two futures with the same output. A runtime's tasks have one type: this makes one type of two.
#[derive(Drop)]
pub enum Either<A, B> {
    /// The first.
    Left(A),
    /// The second.
    Right(B),
}

impl<C, A, B> TaskFuture<C> for Either<A, B>
where
    C: Context,
    A: TaskFuture<C>,
    B: TaskFuture<C, Output = A::Output>,
{
    type Output = A::Output;

    ghost is_spent = { either_spent A.is_spent B.is_spent };

    ghost can_poll = { EitherIs A.can_poll B.can_poll };

    ghost polls = { EitherPolls A.polls B.polls };

    ghost gives = { EitherGives A.gives B.gives };

    ghost cancels = { EitherCancels A.cancels B.cancels };

    fn spent(&self) -> bool {
        match self {
            Either::Left(a) => a.spent(),
            Either::Right(b) => b.spent(),
        }
    }

    fn poll<R: Host>(&mut self, rt: &R, alloc: Global, cx: &mut C) -> Poll<A::Output> {
        match self {
            Either::Left(a) => match a.poll(rt, alloc, cx) {
                Poll::Ready(x) => Poll::Ready(x),
                Poll::Pending => Poll::Pending,
            },
            Either::Right(b) => match b.poll(rt, alloc, cx) {
                Poll::Ready(x) => Poll::Ready(x),
                Poll::Pending => Poll::Pending,
            },
        }
    }

    fn cancel(self, cx: &mut C) {
        match self {
            Either::Left(a) => a.cancel(cx),
            Either::Right(b) => b.cancel(cx),
        }
    }
}
