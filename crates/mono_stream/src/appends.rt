// The items of two streams, one stream after the other.
ghost use Rattle.mono_stream.specs.Sides.{SideCanPoll};
ghost use Rattle.mono_stream.specs.Appends.{ChainPolls, ChainGives, ChainCancels};

use crate::sides::{cancel_side, poll_side};
use crate::streams::Stream;
use mono_model::{Host, Poll};
use mono_task::Context;
use std::alloc::Global;

/// A stream of the items of a first stream and then of the items of a second.
///
/// Once the first has ended, it is given up, and the same poll polls the second. From then on only the second is polled.
#[derive(Drop)]
pub struct Chain<A, B> {
    pub(crate) first: Option<A>,
    pub(crate) second: B,
}

impl<X, C, A, B> Stream<C> for Chain<A, B>
where
    C: Context,
    A: Stream<C, Item = X>,
    B: Stream<C, Item = X>,
{
    type Item = X;

    ghost can_poll = { λ m. SideCanPoll A.can_poll m.first × B.can_poll m.second };

    ghost polls = { ChainPolls A.polls A.cancels B.polls };

    ghost gives = { ChainGives A.gives B.gives };

    ghost cancels = { ChainCancels A.cancels B.cancels };

    fn poll_next<R: Host>(&mut self, rt: &R, alloc: Global, cx: &mut C) -> Poll<Option<X>> {
        match poll_side(rt, alloc, cx, &mut self.first) {
            Poll::Ready(Some(item)) => Poll::Ready(Some(item)),
            Poll::Ready(None) => self.second.poll_next(rt, alloc, cx),
            Poll::Pending => Poll::Pending,
        }
    }

    // Gives up the first stream and then the second.
    fn cancel(self, cx: &mut C) {
        let Chain { first, second } = self;
        cancel_side(cx, first);
        second.cancel(cx);
    }
}
