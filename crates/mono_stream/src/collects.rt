// A future that collects the items of a stream.
ghost use Rattle.std.specs.Prelude.{⊤, false};
ghost use Rattle.std.specs.Bool.{OnFalse};
ghost use Rattle.mono_stream.specs.Collects.{CollectSifts, CollectPolls, CollectGives};

use crate::sieves::Sieve;
use crate::sifts::{Outcome, sift_some};
use crate::streams::Stream;
use mono_model::{Host, Poll};
use mono_task::{Context, TaskFuture};
use std::alloc::Global;
use std::mem;

// A sieve that keeps each item, and returns the one for which there was no memory.
#[derive(Drop)]
pub(crate) struct Collecting<X> {
    pub(crate) items: Vec<X>,
}

impl<X: Drop> Sieve<X> for Collecting<X> {
    type Output = X;

    ghost done = { λ v. false };

    ghost can_sift = { λ v x. ⊤ };

    ghost sifts = { λ v x y w. CollectSifts v.items x y w.items };

    fn is_done(&self) -> bool {
        false
    }

    fn sift(&mut self, item: X) -> Option<X> {
        match self.items.push(item) {
            Ok(()) => None,
            Err(refused) => Some(refused.value),
        }
    }
}

/// The items of a stream for the last of which there was no memory.
#[derive(Drop)]
pub struct Uncollected<X> {
    /// The items before it, in order.
    pub items: Vec<X>,
    /// The item for which there was no memory.
    pub refused: X,
}

/// A future that collects the items of a stream, in order.
///
/// One poll takes at most 256 items; then it wakes its own task and returns `Pending`. It is ready once the stream has
/// ended, or once there is no memory for an item; then it returns this item and the items before it. It is spent from
/// then on.
#[derive(Drop)]
pub struct Collect<S, X> {
    pub(crate) stream: S,
    pub(crate) collecting: Collecting<X>,
    pub(crate) has_ended: bool,
}

impl<X, C, S> TaskFuture<C> for Collect<S, X>
where
    X: Drop,
    C: Context,
    S: Stream<C, Item = X>,
{
    type Output = Result<Vec<X>, Uncollected<X>>;

    ghost is_spent = { λ f. f.has_ended };

    ghost can_poll = { λ f. OnFalse f.has_ended (S.can_poll f.stream) };

    ghost polls = { CollectPolls S.polls C.number C.wakes };

    ghost gives = { CollectGives S.gives };

    ghost cancels = { λ f c d. S.cancels f.stream c d };

    fn spent(&self) -> bool {
        self.has_ended
    }

    fn poll<R: Host>(
        &mut self,
        rt: &R,
        alloc: Global,
        cx: &mut C,
    ) -> Poll<Result<Vec<X>, Uncollected<X>>> {
        match sift_some(rt, alloc, cx, &mut self.stream, &mut self.collecting) {
            Outcome::Found(refused) => {
                self.has_ended = true;
                let items = mem::replace(&mut self.collecting.items, Vec::new(alloc));
                Poll::Ready(Err(Uncollected { items, refused }))
            }
            Outcome::Ended => {
                self.has_ended = true;
                let all = mem::replace(&mut self.collecting.items, Vec::new(alloc));
                Poll::Ready(Ok(all))
            }
            Outcome::Waits => Poll::Pending,
            Outcome::Many => {
                cx.wake_me();
                Poll::Pending
            }
            Outcome::Done => unreachable!(),
        }
    }

    fn cancel(self, cx: &mut C) {
        let Collect {
            stream,
            collecting: _,
            has_ended: _,
        } = self;
        stream.cancel(cx);
    }
}
