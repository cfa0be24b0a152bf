// A future that handles each item of a stream.
ghost use Rattle.std.specs.Bool.{OnFalse};
ghost use Rattle.mono_stream.specs.Ends.{UnlessStopped};
ghost use Rattle.mono_stream.specs.ForEaches.{Handles, AfterHandled};
ghost use Rattle.mono_stream.specs.declared.for_each.Stop.{Stop};

use crate::chains::Then;
use crate::streams::Stream;
use mono_model::{Host, Poll};
use mono_task::{Context, TaskFuture};
use std::alloc::Global;

// Why the handling of items stopped.
#[derive(Clone, Copy, Debug, PartialEq, Eq)]
pub(crate) enum Stop {
    Ended,
    Waits,
    Many,
}

// Takes items until none is ready, at most 256.
fn handle_some<R: Host, C: Context, S: Stream<C, Item = ()>>(
    rt: &R,
    alloc: Global,
    cx: &mut C,
    stream: &mut S,
) -> Stop
    requires { S.can_poll stream.old }
    ensures handles { Handles S.polls stream.old cx.old result stream.new cx.new }
    ensures callable { UnlessStopped result (S.can_poll stream.new) }
    ensures reached { C.reaches cx.old cx.new }
{
    for _i in 0..256u32 {
        match stream.poll_next(rt, alloc, cx) {
            Poll::Ready(Some(())) => {}
            Poll::Ready(None) => return Stop::Ended,
            Poll::Pending => return Stop::Waits,
        }
    }
    Stop::Many
}

/// A future that handles each item of a stream, in order, by the future that a closure makes of it.
///
/// Each of these futures is given up once it is ready. One poll handles at most 256 items; then it wakes its own task
/// and returns `Pending`. It is ready once the stream has ended and each item was handled, and is spent from then on.
#[derive(Drop)]
pub struct ForEach<S, F, Fut> {
    pub(crate) items: Then<S, F, Fut>,
    pub(crate) has_ended: bool,
}

impl<C, S, F, Fut> TaskFuture<C> for ForEach<S, F, Fut>
where
    C: Context,
    S: Stream<C>,
    Fut: TaskFuture<C, Output = ()>,
    F: FnMut(S::Item) -> Fut + Drop,
{
    type Output = ();

    ghost use Rattle.mono_stream.specs.Chains.{ThenPolls, ThenCancels, HeldIsLive, MakesLive};

    ghost is_spent = { λ f. f.has_ended };

    ghost can_poll = { λ f. OnFalse f.has_ended (S.can_poll f.items.stream × HeldIsLive Fut.TaskFuture f.items.made × MakesLive Fut.TaskFuture F.FnMut S.gives f.items.stream f.items.f) };

    ghost polls = { λ f c r g d. (stop : Stop) × (middle : _) × Handles (ThenPolls S.Stream Fut.TaskFuture F.FnMut) f.items c stop g.items middle × AfterHandled C.number C.wakes stop middle r g.has_ended d };

    ghost cancels = { λ f c d. ThenCancels S.Stream Fut.TaskFuture F.FnMut f.items c d };

    fn spent(&self) -> bool {
        self.has_ended
    }

    fn poll<R: Host>(&mut self, rt: &R, alloc: Global, cx: &mut C) -> Poll<()> {
        match handle_some(rt, alloc, cx, &mut self.items) {
            Stop::Ended => {
                self.has_ended = true;
                Poll::Ready(())
            }
            Stop::Waits => Poll::Pending,
            Stop::Many => {
                cx.wake_me();
                Poll::Pending
            }
        }
    }

    fn cancel(self, cx: &mut C) {
        let ForEach {
            items,
            has_ended: _,
        } = self;
        items.cancel(cx);
    }
}
