// A stream of the items of an iterator.
ghost use Rattle.std.specs.Prelude.{◌≡◌, IfSome};
ghost use Rattle.std.specs.Iterator.{UpTo};
ghost use Rattle.std.specs.Iterator.SizeHint.{IsWithinCount};
ghost use Rattle.mono_stream.specs.Iterators.{IterPolls, IterGives};

use crate::streams::Stream;
use mono_model::{Host, Poll};
use mono_task::Context;
use std::alloc::Global;

/// A stream of the items of an iterator. It is always ready, and its hint is the iterator's.
#[derive(Drop)]
pub struct Iter<I> {
    pub(crate) iterator: I,
}

impl<C: Context, I: Iterator> Stream<C> for Iter<I> {
    type Item = I::Item;

    ghost can_poll = { λ s. I.can_next s.iterator };

    // The item is the iterator's, and the context stays as it is.
    ghost polls = { λ s c r t d. IterPolls I.next_gives s.iterator c r t.iterator d };

    ghost gives = { λ s. IterGives I.next_gives s.iterator };

    ghost cancels = { λ s c d. d ≡ c };

    ghost hints = { λ s hint. IsWithinCount hint.0 (I.remaining s.iterator) × IfSome hint.1 (UpTo (I.remaining s.iterator)) };

    fn poll_next<R: Host>(
        &mut self,
        _rt: &R,
        _alloc: Global,
        _cx: &mut C,
    ) -> Poll<Option<I::Item>> {
        Poll::Ready(self.iterator.next())
    }

    fn size_hint(&self) -> (usize, Option<usize>) {
        self.iterator.size_hint()
    }

    fn cancel(self, _cx: &mut C) {}
}
