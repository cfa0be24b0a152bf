// One of three to five unlike futures, for a select of a list, and its output.
ghost use Rattle.mono_combine.specs.Unlikes.{one3_spent, One3CanPoll, One3Polls, One3Gives, One3Cancels, one4_spent, One4CanPoll, One4Polls, One4Gives, One4Cancels, one5_spent, One5CanPoll, One5Polls, One5Gives, One5Cancels};

use mono_model::{Host, Poll};
use mono_task::{Context, TaskFuture};
use std::alloc::Global;

/// The output of one of three unlike futures.
#[derive(Clone, Copy, Debug, PartialEq, Eq, Drop)]
pub enum Out3<X, Y, Z> {
    /// The output of the first.
    First(X),
    /// The output of the second.
    Second(Y),
    /// The output of the third.
    Third(Z),
}

/// The output of one of four unlike futures.
#[derive(Clone, Copy, Debug, PartialEq, Eq, Drop)]
pub enum Out4<X, Y, Z, U> {
    /// The output of the first.
    First(X),
    /// The output of the second.
    Second(Y),
    /// The output of the third.
    Third(Z),
    /// The output of the fourth.
    Fourth(U),
}

/// The output of one of five unlike futures.
#[derive(Clone, Copy, Debug, PartialEq, Eq, Drop)]
pub enum Out5<X, Y, Z, U, V> {
    /// The output of the first.
    First(X),
    /// The output of the second.
    Second(Y),
    /// The output of the third.
    Third(Z),
    /// The output of the fourth.
    Fourth(U),
    /// The output of the fifth.
    Fifth(V),
}

/// One of three unlike futures. A select of a list has branches of one type: this makes one type of three.
#[derive(Drop)]
pub enum OneOf3<A, B, D> {
    /// The first.
    First(A),
    /// The second.
    Second(B),
    /// The third.
    Third(D),
}

/// One of four unlike futures. A select of a list has branches of one type: this makes one type of four.
#[derive(Drop)]
pub enum OneOf4<A, B, D, E> {
    /// The first.
    First(A),
    /// The second.
    Second(B),
    /// The third.
    Third(D),
    /// The fourth.
    Fourth(E),
}

/// One of five unlike futures. A select of a list has branches of one type: this makes one type of five.
#[derive(Drop)]
pub enum OneOf5<A, B, D, E, F> {
    /// The first.
    First(A),
    /// The second.
    Second(B),
    /// The third.
    Third(D),
    /// The fourth.
    Fourth(E),
    /// The fifth.
    Fifth(F),
}

impl<C, A, B, D> TaskFuture<C> for OneOf3<A, B, D>
where
    C: Context,
    A: TaskFuture<C>,
    B: TaskFuture<C>,
    D: TaskFuture<C>,
{
    type Output = Out3<A::Output, B::Output, D::Output>;

    ghost is_spent = { one3_spent A.is_spent B.is_spent D.is_spent };

    ghost can_poll = { One3CanPoll A.can_poll B.can_poll D.can_poll };

    ghost polls = { One3Polls A.polls B.polls D.polls };

    ghost gives = { One3Gives A.gives B.gives D.gives };

    ghost cancels = { One3Cancels A.cancels B.cancels D.cancels };

    fn spent(&self) -> bool {
        match self {
            OneOf3::First(future) => future.spent(),
            OneOf3::Second(future) => future.spent(),
            OneOf3::Third(future) => future.spent(),
        }
    }

    fn poll<R: Host>(&mut self, rt: &R, alloc: Global, cx: &mut C) -> Poll<Self::Output> {
        match self {
            OneOf3::First(future) => match future.poll(rt, alloc, cx) {
                Poll::Ready(output) => Poll::Ready(Out3::First(output)),
                Poll::Pending => Poll::Pending,
            },
            OneOf3::Second(future) => match future.poll(rt, alloc, cx) {
                Poll::Ready(output) => Poll::Ready(Out3::Second(output)),
                Poll::Pending => Poll::Pending,
            },
            OneOf3::Third(future) => match future.poll(rt, alloc, cx) {
                Poll::Ready(output) => Poll::Ready(Out3::Third(output)),
                Poll::Pending => Poll::Pending,
            },
        }
    }

    fn cancel(self, cx: &mut C) {
        match self {
            OneOf3::First(future) => future.cancel(cx),
            OneOf3::Second(future) => future.cancel(cx),
            OneOf3::Third(future) => future.cancel(cx),
        }
    }
}

impl<C, A, B, D, E> TaskFuture<C> for OneOf4<A, B, D, E>
where
    C: Context,
    A: TaskFuture<C>,
    B: TaskFuture<C>,
    D: TaskFuture<C>,
    E: TaskFuture<C>,
{
    type Output = Out4<A::Output, B::Output, D::Output, E::Output>;

    ghost is_spent = { one4_spent A.is_spent B.is_spent D.is_spent E.is_spent };

    ghost can_poll = { One4CanPoll A.can_poll B.can_poll D.can_poll E.can_poll };

    ghost polls = { One4Polls A.polls B.polls D.polls E.polls };

    ghost gives = { One4Gives A.gives B.gives D.gives E.gives };

    ghost cancels = { One4Cancels A.cancels B.cancels D.cancels E.cancels };

    fn spent(&self) -> bool {
        match self {
            OneOf4::First(future) => future.spent(),
            OneOf4::Second(future) => future.spent(),
            OneOf4::Third(future) => future.spent(),
            OneOf4::Fourth(future) => future.spent(),
        }
    }

    fn poll<R: Host>(&mut self, rt: &R, alloc: Global, cx: &mut C) -> Poll<Self::Output> {
        match self {
            OneOf4::First(future) => match future.poll(rt, alloc, cx) {
                Poll::Ready(output) => Poll::Ready(Out4::First(output)),
                Poll::Pending => Poll::Pending,
            },
            OneOf4::Second(future) => match future.poll(rt, alloc, cx) {
                Poll::Ready(output) => Poll::Ready(Out4::Second(output)),
                Poll::Pending => Poll::Pending,
            },
            OneOf4::Third(future) => match future.poll(rt, alloc, cx) {
                Poll::Ready(output) => Poll::Ready(Out4::Third(output)),
                Poll::Pending => Poll::Pending,
            },
            OneOf4::Fourth(future) => match future.poll(rt, alloc, cx) {
                Poll::Ready(output) => Poll::Ready(Out4::Fourth(output)),
                Poll::Pending => Poll::Pending,
            },
        }
    }

    fn cancel(self, cx: &mut C) {
        match self {
            OneOf4::First(future) => future.cancel(cx),
            OneOf4::Second(future) => future.cancel(cx),
            OneOf4::Third(future) => future.cancel(cx),
            OneOf4::Fourth(future) => future.cancel(cx),
        }
    }
}

impl<C, A, B, D, E, F> TaskFuture<C> for OneOf5<A, B, D, E, F>
where
    C: Context,
    A: TaskFuture<C>,
    B: TaskFuture<C>,
    D: TaskFuture<C>,
    E: TaskFuture<C>,
    F: TaskFuture<C>,
{
    type Output = Out5<A::Output, B::Output, D::Output, E::Output, F::Output>;

    ghost is_spent = { one5_spent A.is_spent B.is_spent D.is_spent E.is_spent F.is_spent };

    ghost can_poll = { One5CanPoll A.can_poll B.can_poll D.can_poll E.can_poll F.can_poll };

    ghost polls = { One5Polls A.polls B.polls D.polls E.polls F.polls };

    ghost gives = { One5Gives A.gives B.gives D.gives E.gives F.gives };

    ghost cancels = { One5Cancels A.cancels B.cancels D.cancels E.cancels F.cancels };

    fn spent(&self) -> bool {
        match self {
            OneOf5::First(future) => future.spent(),
            OneOf5::Second(future) => future.spent(),
            OneOf5::Third(future) => future.spent(),
            OneOf5::Fourth(future) => future.spent(),
            OneOf5::Fifth(future) => future.spent(),
        }
    }

    fn poll<R: Host>(&mut self, rt: &R, alloc: Global, cx: &mut C) -> Poll<Self::Output> {
        match self {
            OneOf5::First(future) => match future.poll(rt, alloc, cx) {
                Poll::Ready(output) => Poll::Ready(Out5::First(output)),
                Poll::Pending => Poll::Pending,
            },
            OneOf5::Second(future) => match future.poll(rt, alloc, cx) {
                Poll::Ready(output) => Poll::Ready(Out5::Second(output)),
                Poll::Pending => Poll::Pending,
            },
            OneOf5::Third(future) => match future.poll(rt, alloc, cx) {
                Poll::Ready(output) => Poll::Ready(Out5::Third(output)),
                Poll::Pending => Poll::Pending,
            },
            OneOf5::Fourth(future) => match future.poll(rt, alloc, cx) {
                Poll::Ready(output) => Poll::Ready(Out5::Fourth(output)),
                Poll::Pending => Poll::Pending,
            },
            OneOf5::Fifth(future) => match future.poll(rt, alloc, cx) {
                Poll::Ready(output) => Poll::Ready(Out5::Fifth(output)),
                Poll::Pending => Poll::Pending,
            },
        }
    }

    fn cancel(self, cx: &mut C) {
        match self {
            OneOf5::First(future) => future.cancel(cx),
            OneOf5::Second(future) => future.cancel(cx),
            OneOf5::Third(future) => future.cancel(cx),
            OneOf5::Fourth(future) => future.cancel(cx),
            OneOf5::Fifth(future) => future.cancel(cx),
        }
    }
}
