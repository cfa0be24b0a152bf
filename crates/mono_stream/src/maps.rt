// A stream of a closure's answers for the items.
ghost use Rattle.std.specs.Prelude.{None};
ghost use Rattle.mono_stream.specs.Comes.{CallableOver};
ghost use Rattle.mono_stream.specs.Maps.{MapPolls, MapGives};

use crate::streams::Stream;
use mono_model::{Host, Poll};
use mono_task::Context;
use std::alloc::Global;

/// A stream of a closure's answers for the items of another, in order.
///
/// A poll requires (`can_poll`) that the closure may be called at each item that may come, after calls at the items before.
#[derive(Drop)]
pub struct Map<S, F> {
    pub(crate) stream: S,
    pub(crate) f: F,
}

impl<T, C, S, F> Stream<C> for Map<S, F>
where
    C: Context,
    S: Stream<C>,
    F: FnMut(S::Item) -> T + Drop,
{
    type Item = T;

    ghost can_poll = { λ m. S.can_poll m.stream × CallableOver F.FnMut S.gives m.stream m.f };

    ghost polls = { MapPolls S.Stream F.FnMut };

    ghost gives = { MapGives S.gives F.FnMut };

    ghost cancels = { λ m c d. S.cancels m.stream c d };

    fn poll_next<R: Host>(&mut self, rt: &R, alloc: Global, cx: &mut C) -> Poll<Option<T>> {
        match self.stream.poll_next(rt, alloc, cx) {
            Poll::Ready(Some(item)) => Poll::Ready(Some((self.f)(item))),
            Poll::Ready(None) => Poll::Ready(None),
            Poll::Pending => Poll::Pending,
        }
    }

    fn cancel(self, cx: &mut C) {
        let Map { stream, f: _ } = self;
        stream.cancel(cx);
    }
}
