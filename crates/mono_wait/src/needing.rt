// A future whose maker names the sources that it needs.
ghost use Rattle.std.specs.Prelude.{◌≡◌};
ghost use Rattle.mono_model.specs.Poll.{OnPending};
ghost use Rattle.mono_wait.specs.Sources.{Source, Covers};
ghost use Rattle.mono_wait.specs.Needings.{Keeps, source_of};

use crate::waits::{WaitContext, Waits};
use mono_forms::FutureExt;
use mono_model::{Host, Poll};
use mono_task::TaskFuture;
use std::alloc::Global;

/// A value that names sources.
pub trait Names: Drop {
    // the sources that it names
    ghost names: { Self → Source → Type 0 };
}

/// One source, by its number.
#[derive(Clone, Copy, Debug, PartialEq, Eq)]
pub enum Named {
    /// A sleep.
    Sleep(u64),
    /// The end of a task.
    Task(u64),
    /// The end of a job.
    Job(u64),
}

impl Names for Named {
    ghost names = { λ n x. x ≡ source_of n };
}

/// A future with the sources that it needs, as a `PollFn`, which can't say them itself.
///
/// A poll requires (`can_poll`) that each pending poll of the future registers the running task at these sources, or
/// wakes it. So the contract of a `PollFn`'s closure has to imply that.
#[derive(Drop)]
pub struct Needing<N, A> {
    pub needs: N,
    pub future: A,
}

impl<N, A> FutureExt for Needing<N, A> {}

impl<C: WaitContext, N: Names, A: TaskFuture<C>> TaskFuture<C> for Needing<N, A> {
    type Output = A::Output;

    ghost is_spent = { λ f. A.is_spent f.future };

    ghost can_poll = { λ f. A.can_poll f.future × Keeps A.TaskFuture C.number C.work C.reaches C.watcher (N.names f.needs) f.future };

    ghost polls = { λ f c r g d. A.polls f.future c r g.future d × (g.needs ≡ f.needs) × C.reaches c d × OnPending r (Covers C.number C.work C.reaches C.watcher c d (N.names g.needs)) };

    ghost gives = { λ f. A.gives f.future };

    ghost cancels = { λ f c d. A.cancels f.future c d × C.reaches c d };

    fn spent(&self) -> bool {
        self.future.spent()
    }

    fn poll<R: Host>(&mut self, rt: &R, alloc: Global, cx: &mut C) -> Poll<A::Output> {
        self.future.poll(rt, alloc, cx)
    }

    fn cancel(self, cx: &mut C) {
        let Needing { needs: _, future } = self;
        future.cancel(cx);
    }
}

// It needs the sources that its maker names.
impl<C: WaitContext, N: Names, A: TaskFuture<C>> Waits<C> for Needing<N, A> {
    ghost needs = { λ f. N.names f.needs };

    ghost polls_reach = { λ f c r g d p. p.2 };

    ghost cancels_reach = { λ f c d p. p.1 };

    ghost covers = { λ f c g d p. p.3 };
}
