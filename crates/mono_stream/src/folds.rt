// A future that combines the items of a stream.
ghost use Rattle.std.specs.Prelude.{false, IsSome};
ghost use Rattle.std.specs.Bool.{OnFalse};
ghost use Rattle.mono_stream.specs.Folds.{is_nothing, FoldSifts, FoldsAt, FoldsOver, FoldPolls, FoldGives};

use crate::sieves::Sieve;
use crate::sifts::{Outcome, sift_some};
use crate::streams::Stream;
use mono_model::{Host, Poll};
use mono_task::{Context, TaskFuture};
use std::alloc::Global;

// A sieve that lets nothing through, and combines each item with the value so far by its closure.
#[derive(Drop)]
pub(crate) struct Folding<T, F> {
    pub(crate) value: Option<T>,
    pub(crate) f: F,
}

impl<X, T: Drop, F: FnMut(T, X) -> T + Drop> Sieve<X> for Folding<T, F> {
    type Output = ();

    ghost done = { λ v. false };

    ghost can_sift = { λ v x. IsSome v.value × FoldsAt F.FnMut v.value v.f x };

    ghost sifts = { λ v x y w. FoldSifts F.FnMut v.value v.f x y w.value w.f };

    fn is_done(&self) -> bool {
        false
    }

    fn sift(&mut self, item: X) -> Option<()> {
        let value = self.value.take().unwrap();
        self.value = Some((self.f)(value, item));
        None
    }
}

/// A future that combines the items of a stream, in order, by a closure, and returns the last value.
///
/// One poll takes at most 256 items; then it wakes its own task and returns `Pending`. It is ready once the stream has
/// ended, and is spent from then on. A poll requires (`can_poll`) that the closure may be called at each item that may
/// come, and at the value that it made of the items before.
#[derive(Drop)]
pub struct Fold<S, T, F> {
    pub(crate) stream: S,
    pub(crate) folding: Folding<T, F>,
}

impl<C, S, T, F> TaskFuture<C> for Fold<S, T, F>
where
    C: Context,
    S: Stream<C>,
    T: Drop,
    F: FnMut(T, S::Item) -> T + Drop,
{
    type Output = T;

    ghost is_spent = { λ f. is_nothing f.folding.value };

    ghost can_poll = { λ f. OnFalse (is_nothing f.folding.value) (S.can_poll f.stream × FoldsOver F.FnMut S.gives f.stream f.folding.value f.folding.f) };

    ghost polls = { FoldPolls S.polls F.FnMut C.number C.wakes };

    ghost gives = { FoldGives S.gives F.FnMut };

    ghost cancels = { λ f c d. S.cancels f.stream c d };

    fn spent(&self) -> bool {
        self.folding.value.is_none()
    }

    fn poll<R: Host>(&mut self, rt: &R, alloc: Global, cx: &mut C) -> Poll<T> {
        match sift_some(rt, alloc, cx, &mut self.stream, &mut self.folding) {
            Outcome::Ended => {
                let value = self.folding.value.take().unwrap();
                Poll::Ready(value)
            }
            Outcome::Waits => Poll::Pending,
            Outcome::Many => {
                cx.wake_me();
                Poll::Pending
            }
            Outcome::Found(()) => unreachable!(),
            Outcome::Done => unreachable!(),
        }
    }

    fn cancel(self, cx: &mut C) {
        let Fold { stream, folding: _ } = self;
        stream.cancel(cx);
    }
}
