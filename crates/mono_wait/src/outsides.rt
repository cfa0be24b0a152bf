// A future that waits for threads.
ghost use Rattle.std.specs.Prelude.{◌≡◌, ℕ, true, false};
ghost use Rattle.mono_model.specs.Poll.{OnPending, OnReady};
ghost use Rattle.mono_wait.specs.Outsides.{OutsideNeeds, outsides_cover};

use crate::waits::{RemoteWaitContext, Waits};
use mono_blocking::RemoteContext;
use mono_forms::FutureExt;
use mono_inbox::{RemoteWaker, Unpark};
use mono_model::{Host, Poll};
use mono_task::TaskFuture;
use std::alloc::{AllocError, Global};
use std::marker::PhantomData;

/// Something that happens in other threads. It is handed a waker, and wakes it once it has happened.
///
/// It specifies what a pending poll leaves if it was handed a waker of a task (`hands`). So a value that keeps the waker
/// itself says that it has it. One that passes it on to threads can say only what it did: a thread may drop the waker, and
/// then nothing wakes the task.
pub trait Outside<U: Unpark>: Drop {
    /// What it answers.
    type Output;

    // What a pending poll leaves of the value, which was handed a waker of this task.
    ghost hands: { Self → ℕ → Self → Type 0 };

    /// Returns the answer if it has happened. Otherwise it keeps the waker, in the place of any other (`handed`).
    fn poll_outside<R: Host>(&mut self, rt: &R, waker: RemoteWaker<U>) -> Poll<Self::Output>
        ensures handed { OnPending result (hands self.old waker self.new) };
}

/// A future that waits for something in other threads. Each pending poll has handed it a waker of the running task
/// (`Outside::hands`).
#[derive(Drop)]
pub struct FromOutside<X, U> {
    /// What the future waits for.
    pub outside: X,
    pub(crate) has_answered: bool,
    unpark: PhantomData<U>,
}

impl<X, U> FromOutside<X, U> {
    /// Returns a future that waits for this.
    pub fn new(outside: X) -> FromOutside<X, U>
        ensures outside { result.outside ≡ outside }
        ensures unspent { result.has_answered ≡ false }
    {
        FromOutside {
            outside,
            has_answered: false,
            unpark: PhantomData,
        }
    }
}

impl<X, U> FutureExt for FromOutside<X, U> {}

/// The future answers what it waits for answers. It fails if out of memory.
impl<U: Unpark, X: Outside<U>, C: RemoteContext<U>> TaskFuture<C> for FromOutside<X, U> {
    type Output = Result<X::Output, AllocError>;

    ghost is_spent = { λ f. f.has_answered };

    ghost polls = { λ f c r g d. C.reaches c d × OnPending r ((C.has_handed_out d ≡ true) × X.hands f.outside (C.number c) g.outside) × OnReady r (g.has_answered ≡ true) };

    ghost cancels = { λ f c d. d ≡ c };

    fn spent(&self) -> bool {
        self.has_answered
    }

    fn poll<R: Host>(
        &mut self,
        rt: &R,
        _alloc: Global,
        cx: &mut C,
    ) -> Poll<Result<X::Output, AllocError>> {
        match cx.remote_waker() {
            Ok(waker) => match self.outside.poll_outside(rt, waker) {
                Poll::Ready(answer) => {
                    self.has_answered = true;
                    Poll::Ready(Ok(answer))
                }
                Poll::Pending => Poll::Pending,
            },
            Err(failed) => {
                self.has_answered = true;
                Poll::Ready(Err(failed))
            }
        }
    }

    fn cancel(self, _cx: &mut C) {}
}

// It needs the threads that hold a waker of its task.
impl<U: Unpark, X: Outside<U>, C: RemoteWaitContext<U>> Waits<C> for FromOutside<X, U> {
    ghost needs = { λ f. OutsideNeeds };

    ghost polls_reach = { λ f c r g d p. p.0 };

    ghost cancels_reach = { λ f c d p. rw p (C.reaches_itself c) };

    ghost covers = { λ f c g d p. outsides_cover C.number C.work C.reaches C.watcher C.reaches_itself C.has_handed_out C.watches_threads c d p.0 p.1.0 };
}
