// A task that is spawned at the first poll.
ghost use Rattle.std.specs.Prelude.{◌≡◌, is_none};
ghost use Rattle.mono_forms.specs.LazySpawns.{SpawnGives, SpawnPolls};

use mono_model::{Host, Poll};
use mono_task::{JoinHandle, SpawnContext, SpawnRefused, TaskFuture};
use std::alloc::Global;
use std::marker::PhantomData;

/// A future whose first poll spawns a task, and answers the task's handle, or why it was refused. Then it is spent.
///
/// The task runs the future that `C::Future::from` makes of `future`: a context runs futures of one type, and here it is
/// not known yet.
#[derive(Drop)]
pub struct LazySpawn<G, O> {
    pub(crate) future: Option<G>,
    pub(crate) output: PhantomData<O>,
}

impl<C, G, F, O> TaskFuture<C> for LazySpawn<G, O>
where
    C: SpawnContext<O, Future = F>,
    F: From<G> + Drop,
    G: Drop,
    O: Drop,
{
    type Output = Result<JoinHandle<O>, SpawnRefused<F>>;

    ghost is_spent = { λ m. is_none m.future };

    ghost polls = { λ m c r n d. SpawnPolls F.from_gives C.tasks C.reaches m.future c r n.future d };

    // the handle, or why the spawn was refused
    ghost gives = { λ m. SpawnGives O F.from_gives m.future };

    ghost cancels = { λ m c d. d ≡ c };

    fn spent(&self) -> bool {
        self.future.is_none()
    }

    fn poll<R: Host>(
        &mut self,
        _rt: &R,
        alloc: Global,
        cx: &mut C,
    ) -> Poll<Result<JoinHandle<O>, SpawnRefused<F>>> {
        let Some(future) = self.future.take() else {
            unreachable!()
        };
        Poll::Ready(cx.spawn(alloc, F::from(future)))
    }

    fn cancel(self, _cx: &mut C) {}
}
