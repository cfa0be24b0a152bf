// A future that may be polled after its answer.
ghost use Rattle.std.specs.Prelude.{◌≡◌, None, is_none};
ghost use Rattle.mono_forms.specs.Fuses.{fuse_spent, FuseCanPoll, FusePolls, FuseGives, FuseCancels};

use mono_model::{Host, Poll};
use mono_task::{Context, TaskFuture};
use std::alloc::Global;

/// A future that waits forever once the inner future has answered. That is given up then.
#[derive(Drop)]
pub struct Fuse<A> {
    pub(crate) inner: Option<A>,
}

impl<A> Fuse<A> {
    /// Returns whether the inner future has answered.
    pub fn is_terminated(&self) -> bool
        ensures { result ≡ is_none self.now.inner }
    {
        self.inner.is_none()
    }

    // Gives up the inner future.
    fn end<C>(&mut self, cx: &mut C)
    where
        C: Context,
        A: TaskFuture<C>,
        ensures over { self.new.inner ≡ None }
        ensures cancelled { FuseCancels A.cancels self.old.inner cx.old cx.new }
        ensures reached { C.reaches cx.old cx.new }
    {
        if let Some(future) = self.inner.take() {
            future.cancel(cx);
        }
    }
}

impl<C: Context, A: TaskFuture<C>> TaskFuture<C> for Fuse<A> {
    type Output = A::Output;

    ghost is_spent = { λ m. fuse_spent A.is_spent m.inner };

    ghost can_poll = { λ m. FuseCanPoll A.can_poll m.inner };

    ghost polls = { λ m c r n d. FusePolls A.TaskFuture m.inner c r n.inner d };

    ghost gives = { λ m. FuseGives A.gives m.inner };

    ghost cancels = { λ m c d. FuseCancels A.cancels m.inner c d };

    fn spent(&self) -> bool {
        match &self.inner {
            Some(future) => future.spent(),
            None => false,
        }
    }

    fn poll<R: Host>(&mut self, rt: &R, alloc: Global, cx: &mut C) -> Poll<A::Output> {
        match &mut self.inner {
            Some(future) => match future.poll(rt, alloc, cx) {
                Poll::Ready(x) => {
                    self.end(cx);
                    Poll::Ready(x)
                }
                Poll::Pending => Poll::Pending,
            },
            None => Poll::Pending,
        }
    }

    fn cancel(self, cx: &mut C) {
        if let Some(future) = self.inner {
            future.cancel(cx);
        }
    }
}
