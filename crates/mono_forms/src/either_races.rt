// The first answer of two unlike futures.
ghost use Rattle.std.specs.Prelude.{◌≡◌, None};
ghost use Rattle.mono_forms.specs.Races.{race_spent, RaceCanPoll, RaceCancels};
ghost use Rattle.mono_forms.specs.EitherRaces.{EitherRacePolls, EitherRaceGives};

use crate::eithers::Either;
use mono_model::{Host, Poll};
use mono_task::{Context, TaskFuture};
use std::alloc::Global;

/// Two unlike futures; the answer is that of the first to answer, on its side of an [`Either`].
///
/// Each poll polls them in the written order. Once one has answered, both are given up in the written order, and the
/// form is spent.
#[derive(Drop)]
pub struct RaceEither<A, B> {
    pub(crate) both: Option<(A, B)>,
}

impl<A, B> RaceEither<A, B> {
    // Gives up both.
    fn end<C>(&mut self, cx: &mut C)
    where
        C: Context,
        A: TaskFuture<C>,
        B: TaskFuture<C>,
        ensures over { self.new.both ≡ None }
        ensures cancelled { RaceCancels A.cancels B.cancels self.old.both cx.old cx.new }
        ensures reached { C.reaches cx.old cx.new }
    {
        if let Some((a, b)) = self.both.take() {
            a.cancel(cx);
            b.cancel(cx);
        }
    }
}

impl<C, A, B> TaskFuture<C> for RaceEither<A, B>
where
    C: Context,
    A: TaskFuture<C>,
    B: TaskFuture<C>,
{
    type Output = Either<A::Output, B::Output>;

    ghost is_spent = { λ f. race_spent A.is_spent B.is_spent f.both };

    ghost can_poll = { λ f. RaceCanPoll A.can_poll B.can_poll f.both };

    ghost polls = { λ f c r g d. EitherRacePolls A.TaskFuture B.TaskFuture f.both c r g.both d };

    ghost gives = { λ f. EitherRaceGives A.gives B.gives f.both };

    ghost cancels = { λ f c d. RaceCancels A.cancels B.cancels f.both c d };

    fn spent(&self) -> bool {
        match &self.both {
            Some((a, b)) => a.spent() || b.spent(),
            None => true,
        }
    }

    fn poll<R: Host>(&mut self, rt: &R, alloc: Global, cx: &mut C) -> Poll<Self::Output> {
        let Some((a, b)) = &mut self.both else {
            unreachable!()
        };
        match a.poll(rt, alloc, cx) {
            Poll::Ready(x) => {
                self.end(cx);
                Poll::Ready(Either::Left(x))
            }
            Poll::Pending => match b.poll(rt, alloc, cx) {
                Poll::Ready(y) => {
                    self.end(cx);
                    Poll::Ready(Either::Right(y))
                }
                Poll::Pending => Poll::Pending,
            },
        }
    }

    fn cancel(self, cx: &mut C) {
        if let Some((a, b)) = self.both {
            a.cancel(cx);
            b.cancel(cx);
        }
    }
}
