// A stream that is given up once it has ended.
ghost use Rattle.mono_stream.specs.Sides.{SideCanPoll, SidePolls, SideMayCome, SideFollows, SideCancels};

use crate::streams::Stream;
use mono_model::{Host, Poll};
use mono_task::Context;
use std::alloc::Global;

// Polls a stream that has not ended, and gives it up once it has.
pub(crate) fn poll_side<R: Host, C: Context, S: Stream<C>>(
    rt: &R,
    alloc: Global,
    cx: &mut C,
    side: &mut Option<S>,
) -> Poll<Option<S::Item>>
    requires { SideCanPoll S.can_poll side.old }
    ensures polled { SidePolls S.polls S.cancels side.old cx.old result side.new cx.new }
    ensures given { SideFollows (SideMayCome S.gives side.old) result (SideMayCome S.gives side.new) }
    ensures callable { SideCanPoll S.can_poll side.new }
    ensures reached { C.reaches cx.old cx.new }
{
    let Some(stream) = side else {
        return Poll::Ready(None);
    };
    match stream.poll_next(rt, alloc, cx) {
        Poll::Ready(Some(item)) => Poll::Ready(Some(item)),
        Poll::Ready(None) => {
            let stream = side.take().unwrap();
            stream.cancel(cx);
            Poll::Ready(None)
        }
        Poll::Pending => Poll::Pending,
    }
}

// Gives up a stream that has not ended.
pub(crate) fn cancel_side<C: Context, S: Stream<C>>(cx: &mut C, side: Option<S>)
    ensures cancelled { SideCancels S.cancels side cx.old cx.new }
    ensures reached { C.reaches cx.old cx.new }
{
    match side {
        Some(stream) => stream.cancel(cx),
        None => {}
    }
}

/// A stream that is given up once it has ended. From then on each poll returns `None` and polls nothing.
#[derive(Drop)]
pub struct Fuse<S> {
    pub(crate) side: Option<S>,
}

impl<C: Context, S: Stream<C>> Stream<C> for Fuse<S> {
    type Item = S::Item;

    ghost can_poll = { λ s. SideCanPoll S.can_poll s.side };

    ghost polls = { λ s c r t d. SidePolls S.polls S.cancels s.side c r t.side d };

    ghost gives = { λ s. SideMayCome S.gives s.side };

    ghost cancels = { λ s c d. SideCancels S.cancels s.side c d };

    fn poll_next<R: Host>(&mut self, rt: &R, alloc: Global, cx: &mut C) -> Poll<Option<S::Item>> {
        poll_side(rt, alloc, cx, &mut self.side)
    }

    fn cancel(self, cx: &mut C) {
        cancel_side(cx, self.side)
    }
}
