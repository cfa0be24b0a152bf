// An answer that a closure changes.
ghost use Rattle.mono_forms.specs.Parts.{part_spent, PartCancels};
ghost use Rattle.mono_forms.specs.Maps.{MapCanPoll, MapPolls, MapGives, MapOkCanPoll, MapOkPolls, MapOkGives, MapErrCanPoll, MapErrPolls, MapErrGives};

use mono_model::{Host, Poll};
use mono_task::{Context, TaskFuture};
use std::alloc::Global;

/// A future whose answer is that of a closure, called with the answer of the inner future.
///
/// The inner future is given up before the closure is called. It is spent once it has answered.
#[derive(Drop)]
pub struct Map<A, F> {
    pub(crate) inner: Option<(A, F)>,
}

/// A future that maps a value by a closure; an error stays as it is.
#[derive(Drop)]
pub struct MapOk<A, F> {
    pub(crate) inner: Option<(A, F)>,
}

/// A future that maps an error by a closure; a value stays as it is.
#[derive(Drop)]
pub struct MapErr<A, F> {
    pub(crate) inner: Option<(A, F)>,
}

impl<C, U, A, F> TaskFuture<C> for Map<A, F>
where
    C: Context,
    A: TaskFuture<C>,
    F: FnOnce(A::Output) -> U + Drop,
{
    type Output = U;

    ghost is_spent = { λ m. part_spent A.is_spent m.inner };

    ghost can_poll = { λ m. MapCanPoll A.TaskFuture F.FnOnce m.inner };

    ghost polls = { λ m c r n d. MapPolls A.TaskFuture F.FnOnce m.inner c r n.inner d };

    ghost gives = { λ m. MapGives A.TaskFuture F.FnOnce m.inner };

    ghost cancels = { λ m c d. PartCancels A.cancels m.inner c d };

    fn spent(&self) -> bool {
        match &self.inner {
            Some((future, _)) => future.spent(),
            None => true,
        }
    }

    fn poll<R: Host>(&mut self, rt: &R, alloc: Global, cx: &mut C) -> Poll<U> {
        let Some((future, _)) = &mut self.inner else {
            unreachable!()
        };
        match future.poll(rt, alloc, cx) {
            Poll::Ready(x) => {
                let (future, f) = self.inner.take().unwrap();
                future.cancel(cx);
                Poll::Ready(f(x))
            }
            Poll::Pending => Poll::Pending,
        }
    }

    fn cancel(self, cx: &mut C) {
        if let Some((future, _)) = self.inner {
            future.cancel(cx);
        }
    }
}

impl<C, T, E, U, A, F> TaskFuture<C> for MapOk<A, F>
where
    C: Context,
    A: TaskFuture<C, Output = Result<T, E>>,
    F: FnOnce(T) -> U + Drop,
{
    type Output = Result<U, E>;

    ghost is_spent = { λ m. part_spent A.is_spent m.inner };

    ghost can_poll = { λ m. MapOkCanPoll A.TaskFuture F.FnOnce m.inner };

    ghost polls = { λ m c r n d. MapOkPolls A.TaskFuture F.FnOnce m.inner c r n.inner d };

    ghost gives = { λ m. MapOkGives A.TaskFuture F.FnOnce m.inner };

    ghost cancels = { λ m c d. PartCancels A.cancels m.inner c d };

    fn spent(&self) -> bool {
        match &self.inner {
            Some((future, _)) => future.spent(),
            None => true,
        }
    }

    fn poll<R: Host>(&mut self, rt: &R, alloc: Global, cx: &mut C) -> Poll<Result<U, E>> {
        let Some((future, _)) = &mut self.inner else {
            unreachable!()
        };
        match future.poll(rt, alloc, cx) {
            Poll::Ready(Ok(x)) => {
                let (future, f) = self.inner.take().unwrap();
                future.cancel(cx);
                Poll::Ready(Ok(f(x)))
            }
            Poll::Ready(Err(error)) => {
                let (future, _) = self.inner.take().unwrap();
                future.cancel(cx);
                Poll::Ready(Err(error))
            }
            Poll::Pending => Poll::Pending,
        }
    }

    fn cancel(self, cx: &mut C) {
        if let Some((future, _)) = self.inner {
            future.cancel(cx);
        }
    }
}

impl<C, T, E, U, A, F> TaskFuture<C> for MapErr<A, F>
where
    C: Context,
    A: TaskFuture<C, Output = Result<T, E>>,
    F: FnOnce(E) -> U + Drop,
{
    type Output = Result<T, U>;

    ghost is_spent = { λ m. part_spent A.is_spent m.inner };

    ghost can_poll = { λ m. MapErrCanPoll A.TaskFuture F.FnOnce m.inner };

    ghost polls = { λ m c r n d. MapErrPolls A.TaskFuture F.FnOnce m.inner c r n.inner d };

    ghost gives = { λ m. MapErrGives A.TaskFuture F.FnOnce m.inner };

    ghost cancels = { λ m c d. PartCancels A.cancels m.inner c d };

    fn spent(&self) -> bool {
        match &self.inner {
            Some((future, _)) => future.spent(),
            None => true,
        }
    }

    fn poll<R: Host>(&mut self, rt: &R, alloc: Global, cx: &mut C) -> Poll<Result<T, U>> {
        let Some((future, _)) = &mut self.inner else {
            unreachable!()
        };
        match future.poll(rt, alloc, cx) {
            Poll::Ready(Ok(x)) => {
                let (future, _) = self.inner.take().unwrap();
                future.cancel(cx);
                Poll::Ready(Ok(x))
            }
            Poll::Ready(Err(error)) => {
                let (future, f) = self.inner.take().unwrap();
                future.cancel(cx);
                Poll::Ready(Err(f(error)))
            }
            Poll::Pending => Poll::Pending,
        }
    }

    fn cancel(self, cx: &mut C) {
        if let Some((future, _)) = self.inner {
            future.cancel(cx);
        }
    }
}
