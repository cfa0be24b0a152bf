// The items of two streams, as they come.
ghost use Rattle.mono_stream.specs.Comes.{FollowOn};
ghost use Rattle.mono_stream.specs.Sides.{SideCanPoll};
ghost use Rattle.mono_stream.specs.Merges.{BothPoll, BothGive, MergePolls, MergeGives, MergeCancels};

use crate::sides::{cancel_side, poll_side};
use crate::streams::Stream;
use mono_model::{Host, Poll};
use mono_task::Context;
use std::alloc::Global;

// Polls one stream, and the other one too if the first has no item.
fn poll_both<X, R, C, A, B>(
    rt: &R,
    alloc: Global,
    cx: &mut C,
    near: &mut Option<A>,
    far: &mut Option<B>,
) -> Poll<Option<X>>
where
    R: Host,
    C: Context,
    A: Stream<C, Item = X>,
    B: Stream<C, Item = X>,
    requires near { SideCanPoll A.can_poll near.old }
    requires far { SideCanPoll B.can_poll far.old }
    ensures polled { BothPoll A.polls A.cancels B.polls B.cancels near.old far.old cx.old result near.new far.new cx.new }
    ensures given { FollowOn (BothGive A.gives B.gives near.old far.old) result (BothGive A.gives B.gives near.new far.new) }
    ensures near { SideCanPoll A.can_poll near.new }
    ensures far { SideCanPoll B.can_poll far.new }
    ensures reached { C.reaches cx.old cx.new }
{
    match poll_side(rt, alloc, cx, near) {
        Poll::Ready(Some(item)) => Poll::Ready(Some(item)),
        Poll::Ready(None) => poll_side(rt, alloc, cx, far),
        Poll::Pending => match poll_side(rt, alloc, cx, far) {
            Poll::Ready(Some(item)) => Poll::Ready(Some(item)),
            Poll::Ready(None) => Poll::Pending,
            Poll::Pending => Poll::Pending,
        },
    }
}

/// A stream of the items of two streams, as they come.
///
/// The first poll polls the first stream before the second, the next poll the second before the first, and so on. A poll
/// takes one item: that of the stream which it polls first, if it has one. So while both have items, they alternate. A
/// stream that has ended is given up and not polled again. It ends once both have ended.
#[derive(Drop)]
pub struct Merge<A, B> {
    pub(crate) first: Option<A>,
    pub(crate) second: Option<B>,
    pub(crate) is_second_due: bool,
}

impl<X, C, A, B> Stream<C> for Merge<A, B>
where
    C: Context,
    A: Stream<C, Item = X>,
    B: Stream<C, Item = X>,
{
    type Item = X;

    ghost can_poll = { λ m. SideCanPoll A.can_poll m.first × SideCanPoll B.can_poll m.second };

    ghost polls = { MergePolls A.polls A.cancels B.polls B.cancels };

    ghost gives = { MergeGives A.gives B.gives };

    ghost cancels = { MergeCancels A.cancels B.cancels };

    fn poll_next<R: Host>(&mut self, rt: &R, alloc: Global, cx: &mut C) -> Poll<Option<X>> {
        if self.is_second_due {
            self.is_second_due = false;
            poll_both(rt, alloc, cx, &mut self.second, &mut self.first)
        } else {
            self.is_second_due = true;
            poll_both(rt, alloc, cx, &mut self.first, &mut self.second)
        }
    }

    // Gives up the first stream and then the second.
    fn cancel(self, cx: &mut C) {
        let Merge {
            first,
            second,
            is_second_due: _,
        } = self;
        cancel_side(cx, first);
        cancel_side(cx, second);
    }
}
