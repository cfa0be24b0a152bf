// A future that answers at once, and a future that never answers.
ghost use Rattle.std.specs.Prelude.{◌≡◌, false, Some, is_none};
ghost use Rattle.mono_forms.specs.Answers.{ReadyPolls};
ghost use Rattle.mono_model.specs.declared.poll.Poll.TheVariants as poll;

use mono_model::{Host, Poll};
use mono_task::{Context, TaskFuture};
use std::alloc::Global;
use std::marker::PhantomData;

/// A future whose first poll returns its value. It is spent then.
#[derive(Drop)]
pub struct Ready<T> {
    pub(crate) value: Option<T>,
}

/// A future that never answers.
#[derive(Drop)]
pub struct Pending<T> {
    pub(crate) output: PhantomData<T>,
}

impl<T: Drop, C: Context> TaskFuture<C> for Ready<T> {
    type Output = T;

    ghost is_spent = { λ f. is_none f.value };

    ghost polls = { λ f c r g d. ReadyPolls f.value c r g.value d };

    ghost gives = { λ f x. f.value ≡ Some x };

    ghost cancels = { λ f c d. d ≡ c };

    fn spent(&self) -> bool {
        self.value.is_none()
    }

    fn poll<R: Host>(&mut self, _rt: &R, _alloc: Global, _cx: &mut C) -> Poll<T> {
        let Some(value) = self.value.take() else {
            unreachable!()
        };
        Poll::Ready(value)
    }

    fn cancel(self, _cx: &mut C) {}
}

impl<T: Drop, C: Context> TaskFuture<C> for Pending<T> {
    type Output = T;

    ghost is_spent = { λ f. false };

    ghost polls = { λ f c r g d. (r ≡ poll.Pending) × (d ≡ c) };

    ghost gives = { λ f x. ⊥ };

    ghost cancels = { λ f c d. d ≡ c };

    fn spent(&self) -> bool {
        false
    }

    fn poll<R: Host>(&mut self, _rt: &R, _alloc: Global, _cx: &mut C) -> Poll<T> {
        Poll::Pending
    }

    fn cancel(self, _cx: &mut C) {}
}
