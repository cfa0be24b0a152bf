// A value that a closure makes at the first poll.
ghost use Rattle.std.specs.Prelude.{◌≡◌, is_none};
ghost use Rattle.mono_forms.specs.Lazies.{LazyCanPoll, LazyPolls, LazyGives};

use mono_model::{Host, Poll};
use mono_task::{Context, TaskFuture};
use std::alloc::Global;

/// A future whose first poll calls a closure and returns its result. Then it is spent.
#[derive(Drop)]
pub struct Lazy<F> {
    pub(crate) func: Option<F>,
}

impl<C, T, F> TaskFuture<C> for Lazy<F>
where
    C: Context,
    F: FnOnce() -> T + Drop,
{
    type Output = T;

    ghost is_spent = { λ m. is_none m.func };

    ghost can_poll = { λ m. LazyCanPoll F.FnOnce m.func };

    ghost polls = { λ m c r n d. LazyPolls F.FnOnce m.func c r n.func d };

    ghost gives = { λ m. LazyGives F.FnOnce m.func };

    ghost cancels = { λ m c d. d ≡ c };

    fn spent(&self) -> bool {
        self.func.is_none()
    }

    fn poll<R: Host>(&mut self, _rt: &R, _alloc: Global, _cx: &mut C) -> Poll<T> {
        let Some(f) = self.func.take() else {
            unreachable!()
        };
        Poll::Ready(f())
    }

    fn cancel(self, _cx: &mut C) {}
}
