// Two branches that are polled until both outputs are there.
ghost use Rattle.std.specs.Prelude.{◌≡◌, ◌||◌};
ghost use Rattle.mono_combine.specs.Branches.{maybe_spent, MaybeCanPoll, MaybeGives};
ghost use Rattle.mono_combine.specs.Joins.{JoinPolls, JoinCancels};

use crate::maybe::{MaybeDone, maybe_done};
use mono_model::{Host, Poll};
use mono_task::{Context, TaskFuture};
use std::alloc::Global;

/// Two futures. Each poll polls every unfinished one once, in the written order.
///
/// It returns both outputs once both have been given (`join_rule`), and is spent from then on.
#[derive(Drop)]
pub struct Join2<A, B, X, Y> {
    a: MaybeDone<A, X>,
    b: MaybeDone<B, Y>,
}

impl<A, B, X, Y> Join2<A, B, X, Y> {
    /// Returns the join of two futures that are not spent.
    pub fn new(a: A, b: B) -> Join2<A, B, X, Y>
        ensures a { result.a ≡ MaybeDone.Future a }
        ensures b { result.b ≡ MaybeDone.Future b }
    {
        Join2 {
            a: maybe_done(a),
            b: maybe_done(b),
        }
    }
}

impl<C, A, B, X, Y> TaskFuture<C> for Join2<A, B, X, Y>
where
    C: Context,
    A: TaskFuture<C, Output = X>,
    B: TaskFuture<C, Output = Y>,
    X: Drop,
    Y: Drop,
{
    type Output = (X, Y);

    ghost is_spent = { λ f. maybe_spent A.TaskFuture f.a || maybe_spent B.TaskFuture f.b };

    ghost can_poll = { λ f. MaybeCanPoll A.TaskFuture f.a × MaybeCanPoll B.TaskFuture f.b };

    ghost polls = { JoinPolls A.TaskFuture B.TaskFuture };

    ghost gives = { λ f p. MaybeGives A.gives f.a p.0 × MaybeGives B.gives f.b p.1 };

    ghost cancels = { JoinCancels A.TaskFuture B.TaskFuture };

    fn spent(&self) -> bool {
        self.a.spent() || self.b.spent()
    }

    fn poll<R: Host>(&mut self, rt: &R, alloc: Global, cx: &mut C) -> Poll<(X, Y)> {
        let first = self.a.poll(rt, alloc, cx);
        let second = self.b.poll(rt, alloc, cx);
        if first.is_pending() || second.is_pending() {
            return Poll::Pending;
        }
        let x = self.a.take_done();
        let y = self.b.take_done();
        Poll::Ready((x, y))
    }

    fn cancel(self, cx: &mut C) {
        let Join2 { a, b } = self;
        a.cancel(cx);
        b.cancel(cx);
    }
}
