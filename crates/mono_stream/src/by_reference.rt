// A stream through a reference.
ghost use Rattle.std.specs.Prelude.{◌≡◌};

use crate::streams::Stream;
use mono_model::{Host, Poll};
use mono_task::Context;
use std::alloc::Global;

/// The stream that the reference points to. Giving the reference up does nothing.
impl<C: Context, S: Stream<C>> Stream<C> for &mut S {
    type Item = S::Item;

    ghost can_poll = { λ s. S.can_poll s.now };

    ghost polls = { λ s c r t d. S.polls s.now c r t.now d };

    ghost gives = { λ s. S.gives s.now };

    ghost cancels = { λ s c d. d ≡ c };

    fn poll_next<R: Host>(&mut self, rt: &R, alloc: Global, cx: &mut C) -> Poll<Option<S::Item>> {
        (**self).poll_next(rt, alloc, cx)
    }

    fn cancel(self, _cx: &mut C) {}
}
