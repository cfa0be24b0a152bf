// A future that runs as a member of a set of tasks.
ghost use Rattle.std.specs.Prelude.{◌≡◌, Some};
ghost use Rattle.mono_groups.specs.Gathered.{gathered_spent, GatheredCanPoll, GatheredCancels, GatheredPolls};

use crate::join_set::JoinSet;
use crate::join_set_calls::{AbortedFuture, all_aborted, end_in};
use crate::members::Member;
use crate::until::{Aborted, RunUntil, run_until};
use mono_forms::FutureExt;
use mono_model::{Host, Poll};
use mono_sync::Holds;
use mono_task::{SharedContext, TaskFuture};
use std::alloc::Global;
use std::marker::PhantomData;

/// A future that runs as a member of a set. It ends with `()` once its inner future has answered: that is given up, and the set
/// has its answer.
///
/// If the form is given up before, the member ends with `Err(Cancelled)`.
#[derive(Drop)]
pub struct Gathered<W, T, F> {
    // The future, until it has answered.
    pub(crate) inner: Option<F>,
    // The key of the member.
    pub(crate) key: u64,
    shared: PhantomData<W>,
    output: PhantomData<T>,
}

/// A future that runs as a member until it ends or the members are aborted.
pub type GatheredUntil<W, T, F> = Gathered<W, T, RunUntil<AbortedFuture<W, T>, F>>;

/// Returns a future that runs this one as a member of the tasks' set. The set has the output, or `Err(Cancelled)` if the members
/// were aborted before the future answered.
///
/// The future is given up in the turn after `abort_all`. It is not polled if the members were aborted before. The answer is
/// `Err(Memory)` if no memory is left to wait for `abort_all`.
pub fn gather<W, T, F>(member: Member, future: F) -> GatheredUntil<W, T, F>
    ensures key { result.key ≡ member.key }
    ensures inner { (waits : _) × (until : _) × (result.inner ≡ Some until) × (until.race.both ≡ Some (waits, future)) }
{
    Gathered {
        inner: Some(run_until(all_aborted(), future)),
        key: member.key,
        shared: PhantomData,
        output: PhantomData,
    }
}

impl<W, T, C, F> TaskFuture<C> for Gathered<W, T, F>
where
    W: Holds<JoinSet<T>>,
    T: Drop,
    C: SharedContext<W>,
    F: TaskFuture<C, Output = Result<T, Aborted>>,
{
    type Output = ();

    ghost is_spent = { λ f. gathered_spent F.is_spent f.inner };

    ghost can_poll = { λ f. GatheredCanPoll F.can_poll f.inner };

    ghost polls = { λ f c r g d. GatheredPolls (λ s. W.part (C.shared s)) C.work F.TaskFuture f.inner f.key c r g.inner d × (g.key ≡ f.key) };

    ghost cancels = { λ f c d. GatheredCancels (λ s. W.part (C.shared s)) C.work F.TaskFuture f.inner f.key c d };

    fn spent(&self) -> bool {
        match &self.inner {
            Some(future) => future.spent(),
            None => true,
        }
    }

    fn poll<R: Host>(&mut self, rt: &R, alloc: Global, cx: &mut C) -> Poll<()> {
        let Some(future) = &mut self.inner else {
            unreachable!()
        };
        match future.poll(rt, alloc, cx) {
            Poll::Ready(answer) => {
                let future = self.inner.take().unwrap();
                future.cancel(cx);
                end_in::<W, T, C>(cx, self.key, answer);
                Poll::Ready(())
            }
            Poll::Pending => Poll::Pending,
        }
    }

    fn cancel(self, cx: &mut C) {
        let Gathered { inner, key, .. } = self;
        if let Some(future) = inner {
            future.cancel(cx);
            end_in::<W, T, C>(cx, key, Err(Aborted::Cancelled));
        }
    }
}

impl<W, T, F> FutureExt for Gathered<W, T, F> {}
