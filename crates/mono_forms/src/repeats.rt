// A future again and again.
ghost use Rattle.std.specs.Prelude.{◌≡◌, false};
ghost use Rattle.mono_forms.specs.Repeats.{repeat_spent, RepeatCanPoll, RepeatPolls, RepeatGives, RepeatCancels, Turns, Leaves};

use mono_model::{Host, Poll};
use mono_task::{Context, TaskFuture};
use std::alloc::Global;
use std::mem;

/// The request of a turn of a loop: its end with a value, or one more turn at a state.
#[derive(Drop)]
pub enum Loop<T, S> {
    /// The loop ends.
    Break(T),
    /// The loop continues.
    Continue(S),
}

/// The greatest number of turns in one poll; after them the form wakes its task, so the other tasks have their turns.
pub(crate) const BUDGET: u64 = 128;

/// One future after another, until one ends the loop. A closure makes each of them from the state that the future
/// before asked for.
///
/// If a future asks for one more turn, the closure makes the next before the one that answered is given up. The same poll
/// polls the next for the first time. After 128 turns in one poll the form wakes its own task and is pending.
#[derive(Drop)]
pub struct Repeat<A, F> {
    pub(crate) future: Option<A>,
    pub(crate) func: F,
}

impl<A, F> Repeat<A, F> {
    // Makes one turn. Returns the poll's answer, or `None` if the next future took this one's place.
    fn turn<C, S, T, R: Host>(&mut self, rt: &R, alloc: Global, cx: &mut C) -> Option<Poll<T>>
    where
        C: Context,
        A: TaskFuture<C, Output = Loop<T, S>>,
        F: FnMut(S) -> A,
        requires unspent { repeat_spent A.is_spent self.old.future ≡ false }
        requires callable { RepeatCanPoll A.TaskFuture F.FnMut self.old }
        ensures turned { Turns A.TaskFuture F.FnMut self.old cx.old result self.new cx.new }
        ensures leaves { Leaves A.TaskFuture F.FnMut result self.old self.new }
        ensures reached { C.reaches cx.old cx.new }
    {
        let Some(future) = &mut self.future else {
            unreachable!()
        };
        match future.poll(rt, alloc, cx) {
            Poll::Ready(Loop::Continue(s)) => {
                let next = (self.func)(s);
                self.stand(Some(next), cx);
                None
            }
            Poll::Ready(Loop::Break(x)) => {
                self.stand(None, cx);
                Some(Poll::Ready(x))
            }
            Poll::Pending => Some(Poll::Pending),
        }
    }

    // Gives up the running future, and puts this in its place.
    fn stand<C>(&mut self, next: Option<A>, cx: &mut C)
    where
        C: Context,
        A: TaskFuture<C>,
        ensures next { self.new.future ≡ next }
        ensures func { self.new.func ≡ self.old.func }
        ensures cancelled { RepeatCancels A.cancels self.old.future cx.old cx.new }
        ensures reached { C.reaches cx.old cx.new }
    {
        let before = mem::replace(&mut self.future, next);
        if let Some(future) = before {
            future.cancel(cx);
        }
    }
}

impl<C, A, F, S, T> TaskFuture<C> for Repeat<A, F>
where
    C: Context,
    A: TaskFuture<C, Output = Loop<T, S>>,
    F: FnMut(S) -> A + Drop,
{
    type Output = T;

    ghost is_spent = { λ m. repeat_spent A.is_spent m.future };

    ghost can_poll = { RepeatCanPoll A.TaskFuture F.FnMut };

    ghost polls = { RepeatPolls A.TaskFuture F.FnMut C.number C.work C.wakes C.reaches };

    ghost gives = { RepeatGives A.gives F.FnMut };

    ghost cancels = { λ m c d. RepeatCancels A.cancels m.future c d };

    fn spent(&self) -> bool {
        match &self.future {
            Some(future) => future.spent(),
            None => true,
        }
    }

    fn poll<R: Host>(&mut self, rt: &R, alloc: Global, cx: &mut C) -> Poll<T> {
        let mut left = BUDGET;
        while left > 0 {
            left -= 1;
            if let Some(answer) = self.turn(rt, alloc, cx) {
                return answer;
            }
        }
        cx.wake_me();
        Poll::Pending
    }

    fn cancel(self, cx: &mut C) {
        let Repeat { future, func: _ } = self;
        if let Some(future) = future {
            future.cancel(cx);
        }
    }
}
