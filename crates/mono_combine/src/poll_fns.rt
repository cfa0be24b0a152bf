// A closure as a future.
ghost use Rattle.std.specs.Prelude.{◌≡◌, false};
ghost use Rattle.std.specs.Fn.{CalledAtMut};
ghost use Rattle.mono_combine.specs.PollFns.{CallGives, StaysCallable};

use mono_model::{Host, Poll};
use mono_task::{Context, TaskFuture};
use std::alloc::Global;

/// A future whose polls each call a closure. It is never spent, and giving it up does nothing.
///
/// A poll requires (`can_poll`) that the closure may be called at every context, in this poll and after each further one.
/// Each of these calls leaves a context that is reached from the context before. `always_callable` shows it of a closure
/// that may be called in every state.
#[derive(Drop)]
pub struct PollFn<F> {
    f: F,
}

/// Returns the future whose polls each call `f`.
pub fn poll_fn<T, C: Context, F: FnMut(&mut C) -> Poll<T>>(f: F) -> PollFn<F>
    ensures { result.f ≡ f }
{
    PollFn { f }
}

impl<T, C: Context, F: FnMut(&mut C) -> Poll<T> + Drop> TaskFuture<C> for PollFn<F> {
    type Output = T;

    ghost is_spent = { λ p. false };

    ghost can_poll = { λ p. StaysCallable F.FnMut C.reaches p.f };

    // The answer and the context are those of one call of the closure.
    ghost polls = { λ p c r q d. CalledAtMut F.FnMut p.f c r q.f d };

    ghost gives = { λ p. CallGives F.FnMut };

    ghost cancels = { λ p c d. d ≡ c };

    fn spent(&self) -> bool {
        false
    }

    fn poll<R: Host>(&mut self, _rt: &R, _alloc: Global, cx: &mut C) -> Poll<T> {
        (self.f)(cx)
    }

    fn cancel(self, _cx: &mut C) {}
}
