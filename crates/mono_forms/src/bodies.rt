// Selects with a body for each branch, and a fallback.
ghost use Rattle.mono_forms.specs.Parts.{part_spent, PartCancels};
ghost use Rattle.mono_forms.specs.Bodies.{BodyAsks, BodyLeads, BodiesCanPoll, BodiesPoll, BodiesGive, ListBodyAsks, ListBodyLeads, ListBodiesCanPoll, ListBodiesPoll, ListBodiesGive};

use mono_combine::{Out, Out2};
use mono_model::{Host, Poll};
use mono_task::{Context, TaskFuture};
use std::alloc::Global;

/// A select of two futures with a body for each, and a fallback.
///
/// The answer is that of the picked branch's body, called with the branch's output, or that of the fallback if no branch
/// is left. The select is given up before the body is called. It is spent once it has answered.
#[derive(Drop)]
pub struct SelectBodies2<S, F, G, H> {
    pub(crate) inner: Option<(S, (F, G, H))>,
}

/// A select of a list with a body, and a fallback.
///
/// The answer is that of the body, called with the picked branch's number and output, or that of the fallback if no
/// branch is left. The select is given up before the body is called. It is spent once it has answered.
#[derive(Drop)]
pub struct SelectBodies<S, F, H> {
    pub(crate) inner: Option<(S, (F, H))>,
}

// Calls the body of the picked branch, or the fallback.
fn answer_of_two<X, Y, U, F, G, H>(bodies: (F, G, H), out: Out2<X, Y>) -> U
where
    F: FnOnce(X) -> U + Drop,
    G: FnOnce(Y) -> U + Drop,
    H: FnOnce() -> U + Drop,
    requires { BodyAsks F.FnOnce G.FnOnce H.FnOnce bodies out }
    ensures { BodyLeads F.FnOnce G.FnOnce H.FnOnce bodies out result }
{
    let (first, second, fallback) = bodies;
    match out {
        Out2::First(x) => first(x),
        Out2::Second(y) => second(y),
        Out2::Disabled => fallback(),
    }
}

// Calls the body with the picked branch's number and output, or the fallback.
fn answer_of_list<X, U, F, H>(bodies: (F, H), out: Out<X>) -> U
where
    F: FnOnce(u32, X) -> U + Drop,
    H: FnOnce() -> U + Drop,
    requires { ListBodyAsks F.FnOnce H.FnOnce bodies out }
    ensures { ListBodyLeads F.FnOnce H.FnOnce bodies out result }
{
    let (body, fallback) = bodies;
    match out {
        Out::Picked(number, x) => body(number, x),
        Out::Disabled => fallback(),
    }
}

impl<C, X, Y, U, S, F, G, H> TaskFuture<C> for SelectBodies2<S, F, G, H>
where
    C: Context,
    S: TaskFuture<C, Output = Out2<X, Y>>,
    F: FnOnce(X) -> U + Drop,
    G: FnOnce(Y) -> U + Drop,
    H: FnOnce() -> U + Drop,
{
    type Output = U;

    ghost is_spent = { λ s. part_spent S.is_spent s.inner };

    ghost can_poll = { λ s. BodiesCanPoll S.TaskFuture F.FnOnce G.FnOnce H.FnOnce s.inner };

    ghost polls = { λ s c r n d. BodiesPoll S.TaskFuture F.FnOnce G.FnOnce H.FnOnce s.inner c r n.inner d };

    ghost gives = { λ s. BodiesGive S.TaskFuture F.FnOnce G.FnOnce H.FnOnce s.inner };

    ghost cancels = { λ s c d. PartCancels S.cancels s.inner c d };

    fn spent(&self) -> bool {
        match &self.inner {
            Some((select, _)) => select.spent(),
            None => true,
        }
    }

    fn poll<R: Host>(&mut self, rt: &R, alloc: Global, cx: &mut C) -> Poll<U> {
        let Some((select, _)) = &mut self.inner else {
            unreachable!()
        };
        match select.poll(rt, alloc, cx) {
            Poll::Ready(out) => {
                let (select, bodies) = self.inner.take().unwrap();
                select.cancel(cx);
                Poll::Ready(answer_of_two(bodies, out))
            }
            Poll::Pending => Poll::Pending,
        }
    }

    fn cancel(self, cx: &mut C) {
        if let Some((select, _)) = self.inner {
            select.cancel(cx);
        }
    }
}

impl<C, X, U, S, F, H> TaskFuture<C> for SelectBodies<S, F, H>
where
    C: Context,
    S: TaskFuture<C, Output = Out<X>>,
    F: FnOnce(u32, X) -> U + Drop,
    H: FnOnce() -> U + Drop,
{
    type Output = U;

    ghost is_spent = { λ s. part_spent S.is_spent s.inner };

    ghost can_poll = { λ s. ListBodiesCanPoll S.TaskFuture F.FnOnce H.FnOnce s.inner };

    ghost polls = { λ s c r n d. ListBodiesPoll S.TaskFuture F.FnOnce H.FnOnce s.inner c r n.inner d };

    ghost gives = { λ s. ListBodiesGive S.TaskFuture F.FnOnce H.FnOnce s.inner };

    ghost cancels = { λ s c d. PartCancels S.cancels s.inner c d };

    fn spent(&self) -> bool {
        match &self.inner {
            Some((select, _)) => select.spent(),
            None => true,
        }
    }

    fn poll<R: Host>(&mut self, rt: &R, alloc: Global, cx: &mut C) -> Poll<U> {
        let Some((select, _)) = &mut self.inner else {
            unreachable!()
        };
        match select.poll(rt, alloc, cx) {
            Poll::Ready(out) => {
                let (select, bodies) = self.inner.take().unwrap();
                select.cancel(cx);
                Poll::Ready(answer_of_list(bodies, out))
            }
            Poll::Pending => Poll::Pending,
        }
    }

    fn cancel(self, cx: &mut C) {
        if let Some((select, _)) = self.inner {
            select.cancel(cx);
        }
    }
}
