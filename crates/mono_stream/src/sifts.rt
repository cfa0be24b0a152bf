// A stream of the values that a sieve lets through.
ghost use Rattle.mono_stream.specs.Comes.{MayCome};
ghost use Rattle.mono_stream.specs.SiftedComes.{AbleOver, SiftsOn, SiftedGives};
ghost use Rattle.mono_stream.specs.Sifts.{Sifts, SiftedPolls, UnlessOver};

use crate::sieves::Sieve;
use crate::streams::Stream;
use mono_model::{Host, Poll};
use mono_task::Context;
use std::alloc::Global;

// Why the sifting of items stopped.
#[derive(Drop)]
pub(crate) enum Outcome<Y> {
    Found(Y),
    Done,
    Ended,
    Waits,
    Many,
}

// Takes items until the sieve returns a value or is done, or until no item is ready, at most 256.
pub(crate) fn sift_some<R: Host, C: Context, S: Stream<C>, V: Sieve<S::Item>>(
    rt: &R,
    alloc: Global,
    cx: &mut C,
    stream: &mut S,
    sieve: &mut V,
) -> Outcome<V::Output>
    requires callable { S.can_poll stream.old }
    requires able { AbleOver V.done V.sifts V.can_sift S.gives stream.old sieve.old }
    ensures sifts { Sifts S.polls V.done V.sifts stream.old sieve.old cx.old result stream.new sieve.new cx.new }
    ensures given { SiftsOn V.done V.sifts result (MayCome S.gives stream.old) (MayCome S.gives stream.new) sieve.old sieve.new }
    ensures callable { UnlessOver result (S.can_poll stream.new) }
    ensures able { UnlessOver result (AbleOver V.done V.sifts V.can_sift S.gives stream.new sieve.new) }
    ensures reached { C.reaches cx.old cx.new }
{
    for _i in 0..256u32 {
        if sieve.is_done() {
            return Outcome::Done;
        }
        match stream.poll_next(rt, alloc, cx) {
            Poll::Ready(Some(item)) => match sieve.sift(item) {
                Some(value) => return Outcome::Found(value),
                None => {}
            },
            Poll::Ready(None) => return Outcome::Ended,
            Poll::Pending => return Outcome::Waits,
        }
    }
    Outcome::Many
}

/// A stream of the values that a sieve returns for the items of another stream, in order.
///
/// It ends once the sieve is done, without a further poll of its stream, or once that stream has ended. One poll takes
/// at most 256 items; if the sieve returned no value for any of them, it wakes its own task and returns `Pending`.
/// Otherwise it returns `Pending` only if its stream did in the same poll.
#[derive(Drop)]
pub struct Sifted<S, V> {
    pub(crate) stream: S,
    pub(crate) sieve: V,
}

impl<C, S, V> Stream<C> for Sifted<S, V>
where
    C: Context,
    S: Stream<C>,
    V: Sieve<S::Item>,
{
    type Item = V::Output;

    ghost can_poll = { λ m. S.can_poll m.stream × AbleOver V.done V.sifts V.can_sift S.gives m.stream m.sieve };

    ghost polls = { SiftedPolls S.polls V.done V.sifts C.number C.wakes };

    ghost gives = { SiftedGives S.gives V.done V.sifts };

    ghost cancels = { λ m c d. S.cancels m.stream c d };

    fn poll_next<R: Host>(&mut self, rt: &R, alloc: Global, cx: &mut C) -> Poll<Option<V::Output>> {
        match sift_some(rt, alloc, cx, &mut self.stream, &mut self.sieve) {
            Outcome::Found(value) => Poll::Ready(Some(value)),
            Outcome::Done => Poll::Ready(None),
            Outcome::Ended => Poll::Ready(None),
            Outcome::Waits => Poll::Pending,
            Outcome::Many => {
                cx.wake_me();
                Poll::Pending
            }
        }
    }

    fn cancel(self, cx: &mut C) {
        let Sifted { stream, sieve: _ } = self;
        stream.cancel(cx);
    }
}
