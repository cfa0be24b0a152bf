// An answer that a closure sees.
ghost use Rattle.mono_forms.specs.Parts.{part_spent, PartCancels};
ghost use Rattle.mono_forms.specs.Inspectors.{InspectCanPoll, InspectPolls, InspectGives};

use mono_model::{Host, Poll};
use mono_task::{Context, TaskFuture};
use std::alloc::Global;

/// A future whose answer a closure sees before it is returned.
///
/// The inner future is given up before the closure is called. It is spent once it has answered.
#[derive(Drop)]
pub struct Inspect<A, F> {
    pub(crate) inner: Option<(A, F)>,
}

impl<C, A, F> TaskFuture<C> for Inspect<A, F>
where
    C: Context,
    A: TaskFuture<C>,
    F: FnOnce(&A::Output) + Drop,
{
    type Output = A::Output;

    ghost is_spent = { λ m. part_spent A.is_spent m.inner };

    ghost can_poll = { λ m. InspectCanPoll A.TaskFuture F.FnOnce m.inner };

    ghost polls = { λ m c r n d. InspectPolls A.TaskFuture F.FnOnce m.inner c r n.inner d };

    ghost gives = { λ m. InspectGives A.TaskFuture F.FnOnce m.inner };

    ghost cancels = { λ m c d. PartCancels A.cancels m.inner c d };

    fn spent(&self) -> bool {
        match &self.inner {
            Some((future, _)) => future.spent(),
            None => true,
        }
    }

    fn poll<R: Host>(&mut self, rt: &R, alloc: Global, cx: &mut C) -> Poll<A::Output> {
        let Some((future, _)) = &mut self.inner else {
            unreachable!()
        };
        match future.poll(rt, alloc, cx) {
            Poll::Ready(x) => {
                let (future, f) = self.inner.take().unwrap();
                future.cancel(cx);
                f(&x);
                Poll::Ready(x)
            }
            Poll::Pending => Poll::Pending,
        }
    }

    fn cancel(self, cx: &mut C) {
        if let Some((future, _)) = self.inner {
            future.cancel(cx);
        }
    }
}
