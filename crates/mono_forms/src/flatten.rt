// One future after another.
ghost use Rattle.std.specs.Prelude.{◌≡◌, false};
ghost use Rattle.mono_model.specs.Poll.{OnPending, IfReady};
ghost use Rattle.mono_forms.specs.Flattens.{flatten_spent, FlattenCanPoll, FlattenPolls, FlattenGives, FlattenCancels, SecondMayPoll, SecondPolls};

use crate::maps::Map;
use mono_model::{Host, Poll};
use mono_task::{Context, TaskFuture};
use std::alloc::Global;
use std::mem;

/// A future whose answer is a future, followed by that future.
///
/// The first is given up once it has answered, and that same poll polls the second for the first time. The second is
/// given up once it has answered, and then the form is spent.
#[derive(Drop)]
pub enum Flatten<A, B> {
    /// The first has not answered.
    First(A),
    /// The second has not answered.
    Second(B),
    /// Both have answered.
    Over,
}

/// A future followed by the future that a closure makes of its answer.
pub type Then<A, B, F> = Flatten<Map<A, F>, B>;

impl<A, B> Flatten<A, B> {
    // Polls the second.
    fn poll_second<C, R: Host>(&mut self, rt: &R, alloc: Global, cx: &mut C) -> Poll<B::Output>
    where
        C: Context,
        A: TaskFuture<C, Output = B>,
        B: TaskFuture<C>,
        requires may { SecondMayPoll B.TaskFuture self.old }
        ensures polled { SecondPolls B.TaskFuture self.old cx.old result self.new cx.new }
        ensures again { OnPending result (flatten_spent A.is_spent B.is_spent self.new ≡ false) }
        ensures callable { FlattenCanPoll A.TaskFuture B.TaskFuture self.new }
        ensures given { IfReady result (FlattenGives A.gives B.gives self.old) }
        ensures same { OnPending result ((x : _) → FlattenGives A.gives B.gives self.new x → FlattenGives A.gives B.gives self.old x) }
        ensures reached { C.reaches cx.old cx.new }
    {
        let Flatten::Second(b) = self else {
            unreachable!()
        };
        match b.poll(rt, alloc, cx) {
            Poll::Ready(y) => {
                if let Flatten::Second(b) = mem::replace(self, Flatten::Over) {
                    b.cancel(cx);
                }
                Poll::Ready(y)
            }
            Poll::Pending => Poll::Pending,
        }
    }

    // Gives up the first, and puts the second in its place.
    fn go_on<C>(&mut self, b: B, cx: &mut C)
    where
        C: Context,
        A: TaskFuture<C>,
        B: TaskFuture<C>,
        ensures second { self.new ≡ Flatten.Second b }
        ensures cancelled { FlattenCancels A.cancels B.cancels self.old cx.old cx.new }
        ensures reached { C.reaches cx.old cx.new }
    {
        match mem::replace(self, Flatten::Second(b)) {
            Flatten::First(a) => a.cancel(cx),
            Flatten::Second(b) => b.cancel(cx),
            Flatten::Over => {}
        }
    }
}

impl<C, A, B> TaskFuture<C> for Flatten<A, B>
where
    C: Context,
    A: TaskFuture<C, Output = B>,
    B: TaskFuture<C>,
{
    type Output = B::Output;

    ghost is_spent = { flatten_spent A.is_spent B.is_spent };

    ghost can_poll = { FlattenCanPoll A.TaskFuture B.TaskFuture };

    ghost polls = { FlattenPolls A.TaskFuture B.TaskFuture };

    ghost gives = { FlattenGives A.gives B.gives };

    ghost cancels = { FlattenCancels A.cancels B.cancels };

    fn spent(&self) -> bool {
        match self {
            Flatten::First(a) => a.spent(),
            Flatten::Second(b) => b.spent(),
            Flatten::Over => true,
        }
    }

    fn poll<R: Host>(&mut self, rt: &R, alloc: Global, cx: &mut C) -> Poll<B::Output> {
        match self {
            Flatten::First(a) => match a.poll(rt, alloc, cx) {
                Poll::Ready(b) => {
                    self.go_on(b, cx);
                    self.poll_second(rt, alloc, cx)
                }
                Poll::Pending => Poll::Pending,
            },
            Flatten::Second(_) => self.poll_second(rt, alloc, cx),
            Flatten::Over => unreachable!(),
        }
    }

    fn cancel(self, cx: &mut C) {
        match self {
            Flatten::First(a) => a.cancel(cx),
            Flatten::Second(b) => b.cancel(cx),
            Flatten::Over => {}
        }
    }
}
