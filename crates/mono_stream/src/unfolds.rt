// A stream of items that futures give, each made of a state.
ghost use Rattle.mono_stream.specs.Chains.{HeldIsLive, HeldCancels, IsLive};
ghost use Rattle.mono_stream.specs.Unfolds.{Unfolds, UnfoldGivesOne, UnfoldPolls, UnfoldGives, UnfoldsLive};

use crate::streams::Stream;
use mono_model::{Host, Poll};
use mono_task::{Context, TaskFuture};
use std::alloc::Global;

/// A stream of the items of futures, each of which a closure makes of the state that the one before left.
///
/// A poll polls the future that was made; if there is none, it makes one of the state. Once the future is ready it is
/// given up. Its output is the next item with the next state, or `None` if the stream has ended. A poll requires
/// (`can_poll`) that the closure may be called at each state that may be reached, and makes no future that is spent.
#[derive(Drop)]
pub struct Unfold<T, F, Fut> {
    pub(crate) state: Option<T>,
    pub(crate) f: F,
    pub(crate) made: Option<Fut>,
}

// Polls a future that was made, and keeps it if it is not ready.
fn unfold_one<R, X, T, C, Fut>(
    rt: &R,
    alloc: Global,
    cx: &mut C,
    mut future: Fut,
) -> (Poll<Option<X>>, Option<Fut>, Option<T>)
where
    R: Host,
    C: Context,
    Fut: TaskFuture<C, Output = Option<(X, T)>>,
    requires { IsLive Fut.TaskFuture future }
    ensures unfolds { Unfolds Fut.TaskFuture future cx.old result.0 result.1 result.2 cx.new }
    ensures given { UnfoldGivesOne Fut.gives future result.0 result.1 result.2 }
    ensures live { HeldIsLive Fut.TaskFuture result.1 }
    ensures reached { C.reaches cx.old cx.new }
{
    match future.poll(rt, alloc, cx) {
        Poll::Ready(Some((item, state))) => {
            future.cancel(cx);
            (Poll::Ready(Some(item)), None, Some(state))
        }
        Poll::Ready(None) => {
            future.cancel(cx);
            (Poll::Ready(None), None, None)
        }
        Poll::Pending => (Poll::Pending, Some(future), None),
    }
}

impl<C, X, T, F, Fut> Stream<C> for Unfold<T, F, Fut>
where
    C: Context,
    T: Drop,
    Fut: TaskFuture<C, Output = Option<(X, T)>>,
    F: FnMut(T) -> Fut + Drop,
{
    type Item = X;

    ghost can_poll = { λ u. HeldIsLive Fut.TaskFuture u.made × UnfoldsLive Fut.TaskFuture F.FnMut u };

    ghost polls = { UnfoldPolls Fut.TaskFuture F.FnMut };

    ghost gives = { UnfoldGives Fut.gives F.FnMut };

    ghost cancels = { λ u c d. HeldCancels Fut.TaskFuture u.made c d };

    fn poll_next<R: Host>(&mut self, rt: &R, alloc: Global, cx: &mut C) -> Poll<Option<X>> {
        if let Some(future) = self.made.take() {
            let (answer, made, state) = unfold_one(rt, alloc, cx, future);
            self.made = made;
            self.state = state;
            return answer;
        }
        let Some(state) = self.state.take() else {
            return Poll::Ready(None);
        };
        let future = (self.f)(state);
        let (first, made, state) = unfold_one(rt, alloc, cx, future);
        self.made = made;
        self.state = state;
        first
    }

    fn cancel(self, cx: &mut C) {
        let Unfold {
            state: _,
            f: _,
            made,
        } = self;
        if let Some(future) = made {
            future.cancel(cx);
        }
    }
}
