// The next item of a stream as a future.
ghost use Rattle.std.specs.Prelude.{◌≡◌};
ghost use Rattle.std.specs.Bool.{OnFalse};
ghost use Rattle.mono_stream.specs.Ends.{is_last};
ghost use Rattle.mono_stream.specs.Nexts.{NextGives};
ghost use Rattle.mono_stream.specs.Spent.{next_spent};

use crate::streams::Stream;
use mono_model::{Host, Poll};
use mono_task::{Context, TaskFuture};
use std::alloc::Global;

/// The next item of a stream, as a future: each poll is a poll of the stream.
///
/// It is spent once the stream has ended. A poll after an item waits for the item after it. Giving it up leaves the
/// stream as it is.
#[derive(Drop)]
pub struct Next<'a, S> {
    pub(crate) stream: &'a mut S,
    pub(crate) has_ended: bool,
}

impl<C: Context, S: Stream<C>> TaskFuture<C> for Next<'_, S> {
    type Output = Option<S::Item>;

    ghost is_spent = { next_spent };

    ghost can_poll = { λ f. OnFalse f.has_ended (S.can_poll f.stream.now) };

    // The poll is the stream's; it is the last if the stream has ended.
    ghost polls = { λ f c r g d. S.polls f.stream.now c r g.stream.now d × (g.has_ended ≡ is_last r) };

    ghost gives = { λ f. NextGives S.Stream f.stream.now };

    ghost cancels = { λ f c d. d ≡ c };

    fn spent(&self) -> bool {
        self.has_ended
    }

    fn poll<R: Host>(&mut self, rt: &R, alloc: Global, cx: &mut C) -> Poll<Option<S::Item>> {
        match self.stream.poll_next(rt, alloc, cx) {
            Poll::Ready(None) => {
                self.has_ended = true;
                Poll::Ready(None)
            }
            Poll::Ready(Some(item)) => Poll::Ready(Some(item)),
            Poll::Pending => Poll::Pending,
        }
    }

    fn cancel(self, _cx: &mut C) {}
}
