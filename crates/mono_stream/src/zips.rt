// The items of two streams in pairs.
ghost use Rattle.std.specs.Prelude.{◌≡◌};
ghost use Rattle.mono_stream.specs.Comes.{MayCome, FollowOn};
ghost use Rattle.mono_stream.specs.Ends.{UnlessEnded};
ghost use Rattle.mono_stream.specs.Zips.{Fills, FillsOn, UnlessOut, Pairs, SecondFills, ZipPolls, ZipGives, ZipCancels};

use crate::streams::Stream;
use mono_model::{Host, Poll};
use mono_task::Context;
use std::alloc::Global;

// Whether an item is held, or why none is.
#[derive(Clone, Copy, Debug, PartialEq, Eq)]
pub(crate) enum Filled {
    Held,
    Ended,
    Waits,
}

// Polls a stream for an item that is to be held, unless one is held.
fn fill<R: Host, X: Drop, C: Context, S: Stream<C, Item = X>>(
    rt: &R,
    alloc: Global,
    cx: &mut C,
    stream: &mut S,
    held: &mut Option<X>,
) -> Filled
    requires { S.can_poll stream.old }
    ensures fills { Fills S.polls stream.old held.old cx.old result stream.new held.new cx.new }
    ensures given { FillsOn S.gives result stream.old held.old stream.new held.new }
    ensures callable { UnlessOut result (S.can_poll stream.new) }
    ensures reached { C.reaches cx.old cx.new }
{
    if held.is_some() {
        return Filled::Held;
    }
    match stream.poll_next(rt, alloc, cx) {
        Poll::Ready(Some(item)) => {
            *held = Some(item);
            Filled::Held
        }
        Poll::Ready(None) => Filled::Ended,
        Poll::Pending => Filled::Waits,
    }
}

// Takes out two items that are both held, as a pair.
fn pair<X: Drop, Y: Drop>(first: &mut Option<X>, second: &mut Option<Y>) -> Poll<Option<(X, Y)>>
    ensures { Pairs first.old second.old result first.new second.new }
{
    match (first.take(), second.take()) {
        (Some(x), Some(y)) => Poll::Ready(Some((x, y))),
        (x, y) => {
            *first = x;
            *second = y;
            Poll::Pending
        }
    }
}

/// A stream of pairs of the items of two streams, in order. It ends once one of them has ended.
///
/// A poll polls each stream of which no item is held, the first one first; it does not poll the second if the first has
/// ended. An item whose partner has not come is held. It stays held once the partner's stream has ended (`into_parts`).
#[derive(Drop)]
pub struct Zip<A, B, X, Y> {
    pub(crate) first: A,
    pub(crate) second: B,
    pub(crate) first_item: Option<X>,
    pub(crate) second_item: Option<Y>,
}

impl<A, B, X, Y> Zip<A, B, X, Y> {
    /// Returns both streams, each followed by its item that is held.
    pub fn into_parts(self) -> (A, Option<X>, B, Option<Y>)
        ensures { result ≡ (self.first, self.first_item, self.second, self.second_item) }
    {
        let Zip {
            first,
            second,
            first_item,
            second_item,
        } = self;
        (first, first_item, second, second_item)
    }

    // Polls the second stream unless an item of it is held, and returns the items that are then held as a pair. Once the
    // second stream has ended, an item of the first stays held.
    fn fill_second<R: Host, C: Context>(
        &mut self,
        rt: &R,
        alloc: Global,
        cx: &mut C,
    ) -> Poll<Option<(X, Y)>>
    where
        X: Drop,
        Y: Drop,
        A: Stream<C, Item = X>,
        B: Stream<C, Item = Y>,
        requires first { A.can_poll self.old.first }
        requires second { B.can_poll self.old.second }
        ensures polled { SecondFills A.polls B.polls self.old.first_item self.old cx.old result self.new cx.new }
        ensures same { self.new.first ≡ self.old.first }
        ensures given { FollowOn (MayCome (ZipGives A.gives B.gives) self.old) result (MayCome (ZipGives A.gives B.gives) self.new) }
        ensures callable { UnlessEnded result (A.can_poll self.new.first × B.can_poll self.new.second) }
        ensures reached { C.reaches cx.old cx.new }
    {
        match fill(rt, alloc, cx, &mut self.second, &mut self.second_item) {
            Filled::Held => pair(&mut self.first_item, &mut self.second_item),
            Filled::Ended => Poll::Ready(None), // The first stream's item stays held.
            Filled::Waits => Poll::Pending,
        }
    }
}

impl<X, Y, C, A, B> Stream<C> for Zip<A, B, X, Y>
where
    X: Drop,
    Y: Drop,
    C: Context,
    A: Stream<C, Item = X>,
    B: Stream<C, Item = Y>,
{
    type Item = (X, Y);

    ghost can_poll = { λ m. A.can_poll m.first × B.can_poll m.second };

    ghost polls = { ZipPolls A.polls B.polls };

    ghost gives = { ZipGives A.gives B.gives };

    ghost cancels = { ZipCancels A.cancels B.cancels };

    fn poll_next<R: Host>(&mut self, rt: &R, alloc: Global, cx: &mut C) -> Poll<Option<(X, Y)>> {
        match fill(rt, alloc, cx, &mut self.first, &mut self.first_item) {
            Filled::Ended => Poll::Ready(None),
            Filled::Held => self.fill_second(rt, alloc, cx),
            Filled::Waits => self.fill_second(rt, alloc, cx),
        }
    }

    // Gives up the first stream and then the second.
    fn cancel(self, cx: &mut C) {
        let Zip {
            first,
            second,
            first_item: _,
            second_item: _,
        } = self;
        first.cancel(cx);
        second.cancel(cx);
    }
}
