// A future in a box.
use mono_model::{Host, Poll};
use mono_task::{Context, TaskFuture};
use std::alloc::Global;

/// A future in a box: a turn of its task moves a pointer in place of the future. A future of some hundred bytes or more
/// belongs in one, since each turn moves a task's future out of the runtime's table and back.
#[derive(Drop)]
pub struct Boxed<A> {
    pub(crate) future: Box<A>,
}

impl<C: Context, A: TaskFuture<C>> TaskFuture<C> for Boxed<A> {
    type Output = A::Output;

    ghost is_spent = { λ m. A.is_spent m.future.value };

    ghost can_poll = { λ m. A.can_poll m.future.value };

    ghost polls = { λ m c r n d. A.polls m.future.value c r n.future.value d };

    ghost gives = { λ m x. A.gives m.future.value x };

    ghost cancels = { λ m c d. A.cancels m.future.value c d };

    fn spent(&self) -> bool {
        self.future.spent()
    }

    fn poll<R: Host>(&mut self, rt: &R, alloc: Global, cx: &mut C) -> Poll<A::Output> {
        self.future.poll(rt, alloc, cx)
    }

    fn cancel(self, cx: &mut C) {
        Box::into_inner(self.future).cancel(cx);
    }
}
