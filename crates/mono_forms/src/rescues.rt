// One future after another, if the first fails.
ghost use Rattle.std.specs.Prelude.{◌≡◌, false};
ghost use Rattle.mono_model.specs.Poll.{OnPending, IfReady};
ghost use Rattle.mono_forms.specs.Rescues.{rescue_spent, RescueCanPoll, RescuePolls, RescueGives, RescueCancels, OtherMayPoll, OtherPolls};

use crate::maps::MapErr;
use mono_model::{Host, Poll};
use mono_task::{Context, TaskFuture};
use std::alloc::Global;
use std::mem;

/// A future whose error is a future, followed by that future; a value of the first is the answer at once.
///
/// The first is given up once it has answered, and that same poll polls the second for the first time. The second is
/// given up once it has answered. Then the form is spent.
#[derive(Drop)]
pub enum TryFlattenErr<A, B> {
    /// The first has not answered.
    First(A),
    /// The second has not answered.
    Second(B),
    /// It has answered.
    Over,
}

/// A future followed, if it fails, by the future that a closure makes of its error.
pub type OrElse<A, B, F> = TryFlattenErr<MapErr<A, F>, B>;

impl<A, B> TryFlattenErr<A, B> {
    // Polls the second.
    fn poll_second<C, T, U, R: Host>(
        &mut self,
        rt: &R,
        alloc: Global,
        cx: &mut C,
    ) -> Poll<Result<T, U>>
    where
        C: Context,
        A: TaskFuture<C, Output = Result<T, B>>,
        B: TaskFuture<C, Output = Result<T, U>>,
        requires may { OtherMayPoll B.TaskFuture self.old }
        ensures polled { OtherPolls B.TaskFuture self.old cx.old result self.new cx.new }
        ensures again { OnPending result (rescue_spent A.is_spent B.is_spent self.new ≡ false) }
        ensures callable { RescueCanPoll A.TaskFuture B.TaskFuture self.new }
        ensures given { IfReady result (RescueGives A.gives B.gives self.old) }
        ensures same { OnPending result ((x : _) → RescueGives A.gives B.gives self.new x → RescueGives A.gives B.gives self.old x) }
        ensures reached { C.reaches cx.old cx.new }
    {
        let TryFlattenErr::Second(b) = self else {
            unreachable!()
        };
        match b.poll(rt, alloc, cx) {
            Poll::Ready(y) => {
                if let TryFlattenErr::Second(b) = mem::replace(self, TryFlattenErr::Over) {
                    b.cancel(cx);
                }
                Poll::Ready(y)
            }
            Poll::Pending => Poll::Pending,
        }
    }

    // Gives up the running future, and puts this in its place.
    fn go_on<C>(&mut self, next: TryFlattenErr<A, B>, cx: &mut C)
    where
        C: Context,
        A: TaskFuture<C>,
        B: TaskFuture<C>,
        ensures next { self.new ≡ next }
        ensures cancelled { RescueCancels A.cancels B.cancels self.old cx.old cx.new }
        ensures reached { C.reaches cx.old cx.new }
    {
        match mem::replace(self, next) {
            TryFlattenErr::First(a) => a.cancel(cx),
            TryFlattenErr::Second(b) => b.cancel(cx),
            TryFlattenErr::Over => {}
        }
    }
}

impl<C, A, B, T, U> TaskFuture<C> for TryFlattenErr<A, B>
where
    C: Context,
    A: TaskFuture<C, Output = Result<T, B>>,
    B: TaskFuture<C, Output = Result<T, U>>,
{
    type Output = Result<T, U>;

    ghost is_spent = { rescue_spent A.is_spent B.is_spent };

    ghost can_poll = { RescueCanPoll A.TaskFuture B.TaskFuture };

    ghost polls = { RescuePolls A.TaskFuture B.TaskFuture };

    ghost gives = { RescueGives A.gives B.gives };

    ghost cancels = { RescueCancels A.cancels B.cancels };

    fn spent(&self) -> bool {
        match self {
            TryFlattenErr::First(a) => a.spent(),
            TryFlattenErr::Second(b) => b.spent(),
            TryFlattenErr::Over => true,
        }
    }

    fn poll<R: Host>(&mut self, rt: &R, alloc: Global, cx: &mut C) -> Poll<Result<T, U>> {
        match self {
            TryFlattenErr::First(a) => match a.poll(rt, alloc, cx) {
                Poll::Ready(Err(b)) => {
                    self.go_on(TryFlattenErr::Second(b), cx);
                    self.poll_second(rt, alloc, cx)
                }
                Poll::Ready(Ok(value)) => {
                    self.go_on(TryFlattenErr::Over, cx);
                    Poll::Ready(Ok(value))
                }
                Poll::Pending => Poll::Pending,
            },
            TryFlattenErr::Second(_) => self.poll_second(rt, alloc, cx),
            TryFlattenErr::Over => unreachable!(),
        }
    }

    fn cancel(self, cx: &mut C) {
        match self {
            TryFlattenErr::First(a) => a.cancel(cx),
            TryFlattenErr::Second(b) => b.cancel(cx),
            TryFlattenErr::Over => {}
        }
    }
}
