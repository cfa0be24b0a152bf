// A stream of the outputs of the futures that a closure makes of the items.
ghost use Rattle.std.specs.Prelude.{None};
ghost use Rattle.mono_stream.specs.Chains.{ThenPolls, ThenGives, ThenCancels, HeldIsLive, IsLive, MakesLive, Finishes, FinishGives};

use crate::streams::Stream;
use mono_model::{Host, Poll};
use mono_task::{Context, TaskFuture};
use std::alloc::Global;

/// A stream of the outputs of the futures that a closure makes of the items of another, in order.
///
/// Each poll polls the future that was made. Once that is ready it is given up, and only then the next item is taken. A
/// poll requires (`can_poll`) that the closure may be called at each item that may come, once it was called at the items
/// before, and makes no future that is spent.
#[derive(Drop)]
pub struct Then<S, F, Fut> {
    pub(crate) stream: S,
    pub(crate) f: F,
    pub(crate) made: Option<Fut>,
}

// Polls a future that was made, and keeps it if it is not ready.
fn finish<R: Host, C: Context, Fut: TaskFuture<C>>(
    rt: &R,
    alloc: Global,
    cx: &mut C,
    mut future: Fut,
) -> (Poll<Option<Fut::Output>>, Option<Fut>)
    requires { IsLive Fut.TaskFuture future }
    ensures finishes { Finishes Fut.TaskFuture future cx.old result.0 result.1 cx.new }
    ensures given { FinishGives Fut.gives future result.0 result.1 }
    ensures live { HeldIsLive Fut.TaskFuture result.1 }
    ensures reached { C.reaches cx.old cx.new }
{
    match future.poll(rt, alloc, cx) {
        Poll::Ready(output) => {
            future.cancel(cx);
            (Poll::Ready(Some(output)), None)
        }
        Poll::Pending => (Poll::Pending, Some(future)),
    }
}

impl<C, S, F, Fut> Stream<C> for Then<S, F, Fut>
where
    C: Context,
    S: Stream<C>,
    Fut: TaskFuture<C>,
    F: FnMut(S::Item) -> Fut + Drop,
{
    type Item = Fut::Output;

    ghost can_poll = { λ t. S.can_poll t.stream × HeldIsLive Fut.TaskFuture t.made × MakesLive Fut.TaskFuture F.FnMut S.gives t.stream t.f };

    ghost polls = { ThenPolls S.Stream Fut.TaskFuture F.FnMut };

    ghost gives = { ThenGives S.gives Fut.gives F.FnMut };

    ghost cancels = { ThenCancels S.Stream Fut.TaskFuture F.FnMut };

    fn poll_next<R: Host>(
        &mut self,
        rt: &R,
        alloc: Global,
        cx: &mut C,
    ) -> Poll<Option<Fut::Output>> {
        if let Some(future) = self.made.take() {
            let (answer, made) = finish(rt, alloc, cx, future);
            self.made = made;
            return answer;
        }
        match self.stream.poll_next(rt, alloc, cx) {
            Poll::Ready(Some(item)) => {
                let future = (self.f)(item);
                let (first, made) = finish(rt, alloc, cx, future);
                self.made = made;
                first
            }
            Poll::Ready(None) => Poll::Ready(None),
            Poll::Pending => Poll::Pending,
        }
    }

    // Gives up the future that was made first, and then the stream.
    fn cancel(self, cx: &mut C) {
        let Then { stream, f: _, made } = self;
        if let Some(future) = made {
            future.cancel(cx);
        }
        stream.cancel(cx);
    }
}
