// A stream of the outputs of a future.
ghost use Rattle.std.specs.Bool.{OnFalse};
ghost use Rattle.mono_stream.specs.FutureOutputs.{OutputsPoll, OutputsGive};

use crate::streams::Stream;
use mono_model::{Host, Poll};
use mono_task::{Context, TaskFuture};
use std::alloc::Global;

/// A stream of the outputs of a future, which is polled until it is spent.
///
/// A future that is never spent, as the tick of an interval, gives an item whenever it is ready. A future that is spent
/// once it is ready gives one.
#[derive(Drop)]
pub struct Outputs<F> {
    pub(crate) future: F,
}

impl<C: Context, F: TaskFuture<C>> Stream<C> for Outputs<F> {
    type Item = F::Output;

    ghost can_poll = { λ s. OnFalse (F.is_spent s.future) (F.can_poll s.future) };

    ghost polls = { λ s c r t d. OutputsPoll F.polls (F.is_spent s.future) s.future c r t.future d };

    ghost gives = { λ s. OutputsGive F.TaskFuture s.future };

    ghost cancels = { λ s c d. F.cancels s.future c d };

    fn poll_next<R: Host>(&mut self, rt: &R, alloc: Global, cx: &mut C) -> Poll<Option<F::Output>> {
        if self.future.spent() {
            return Poll::Ready(None);
        }
        match self.future.poll(rt, alloc, cx) {
            Poll::Ready(output) => Poll::Ready(Some(output)),
            Poll::Pending => Poll::Pending,
        }
    }

    fn cancel(self, cx: &mut C) {
        let Outputs { future } = self;
        future.cancel(cx);
    }
}
