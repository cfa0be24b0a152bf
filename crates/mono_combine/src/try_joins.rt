// Two branches that are polled until one fails or both values are there.
ghost use Rattle.std.specs.Prelude.{◌≡◌, ◌||◌, false};
ghost use Rattle.mono_combine.specs.Branches.{maybe_spent, MaybeCanPoll, is_waiting};
ghost use Rattle.mono_combine.specs.TryJoins.{failure_of, without_failure, TryJoinPolls, TryJoinGives, TryJoinCancels};

use crate::maybe::{MaybeDone, maybe_done};
use mono_model::{Host, Poll};
use mono_task::{Context, TaskFuture};
use std::alloc::Global;

/// Two futures. Each poll polls every unfinished one once, in the written order, up to the first that fails.
///
/// It returns the first error in the written order at once, and gives up the unfinished branches in the written order.
/// Otherwise it returns both values once both have been given (`try_join_rule`). It is spent once it has answered.
#[derive(Drop)]
pub struct TryJoin2<A, B, X, Y, E> {
    a: MaybeDone<A, Result<X, E>>,
    b: MaybeDone<B, Result<Y, E>>,
}

impl<A, B, X, Y, E> TryJoin2<A, B, X, Y, E> {
    /// Returns the join of two futures that are not spent.
    pub fn new(a: A, b: B) -> TryJoin2<A, B, X, Y, E>
        ensures a { result.a ≡ MaybeDone.Future a }
        ensures b { result.b ≡ MaybeDone.Future b }
    {
        TryJoin2 {
            a: maybe_done(a),
            b: maybe_done(b),
        }
    }
}

impl<X: Drop, E: Drop, Fut: Drop> MaybeDone<Fut, Result<X, E>> {
    // Removes and returns the error, if there is one.
    fn take_failure(&mut self) -> Option<E>
        ensures error { result ≡ failure_of self.old }
        ensures left { self.new ≡ without_failure self.old }
    {
        if let MaybeDone::Done(Err(_)) = self {
            match self.take_output() {
                Some(Err(error)) => Some(error),
                _ => unreachable!(),
            }
        } else {
            None
        }
    }

    // Removes and returns the value, which has been given.
    fn take_value<C: Context>(&mut self) -> X
    where
        Fut: TaskFuture<C, Output = Result<X, E>>,
        requires unspent { maybe_spent Fut.TaskFuture self.old ≡ false }
        requires done { is_waiting self.old ≡ false }
        requires succeeded { failure_of self.old ≡ None }
        ensures output { self.old ≡ MaybeDone.Done (Ok result) }
        ensures gone { self.new ≡ MaybeDone.Gone }
    {
        match self.take_done() {
            Ok(value) => value,
            Err(_) => unreachable!(),
        }
    }
}

impl<C, A, B, X, Y, E> TaskFuture<C> for TryJoin2<A, B, X, Y, E>
where
    C: Context,
    A: TaskFuture<C, Output = Result<X, E>>,
    B: TaskFuture<C, Output = Result<Y, E>>,
    X: Drop,
    Y: Drop,
    E: Drop,
{
    type Output = Result<(X, Y), E>;

    ghost is_spent = { λ f. maybe_spent A.TaskFuture f.a || maybe_spent B.TaskFuture f.b };

    ghost can_poll = { λ f. MaybeCanPoll A.TaskFuture f.a × MaybeCanPoll B.TaskFuture f.b };

    ghost polls = { TryJoinPolls A.TaskFuture B.TaskFuture };

    ghost gives = { TryJoinGives A.gives B.gives };

    ghost cancels = { TryJoinCancels A.TaskFuture B.TaskFuture };

    fn spent(&self) -> bool {
        self.a.spent() || self.b.spent()
    }

    fn poll<R: Host>(&mut self, rt: &R, alloc: Global, cx: &mut C) -> Poll<Self::Output> {
        let _ = self.a.poll(rt, alloc, cx);
        if let Some(error) = self.a.take_failure() {
            self.b.give_up(cx);
            return Poll::Ready(Err(error));
        }
        let _ = self.b.poll(rt, alloc, cx);
        if let Some(error) = self.b.take_failure() {
            self.a.give_up(cx);
            return Poll::Ready(Err(error));
        }
        if self.a.is_waiting() || self.b.is_waiting() {
            return Poll::Pending;
        }
        let x = self.a.take_value();
        let y = self.b.take_value();
        Poll::Ready(Ok((x, y)))
    }

    fn cancel(self, cx: &mut C) {
        let TryJoin2 { a, b } = self;
        a.cancel(cx);
        b.cancel(cx);
    }
}
