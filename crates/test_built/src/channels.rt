// Forms over both ends of a channel: the message that the second part sends wakes the first, which waits for it.
ghost use Rattle.test_built.specs.Predicates.{MayTest};

use crate::outputs::Digits;
use crate::runs::{Ended, Shared, poll_form, run};
use mono_combine::{Join2, Select2, Start, TryJoin2};
use mono_forms::{RaceEither, race_either};
use mono_rt::{Context, Host, Poll, SharedContext, TaskFuture};
use mono_sync::mpsc::{Recv, Send, SendError};
use std::alloc::{AllocError, Global};

/// The answer of a receive.
type Received = Result<Option<u64>, AllocError>;

/// The answer of a send.
type Sent = Result<(), SendError<u64>>;

/// An end with a number for each of its errors, so that one try can have both ends.
#[derive(Drop)]
struct Numbered<A> {
    end: A,
}

impl<C, A, X, E> TaskFuture<C> for Numbered<A>
where
    C: Context,
    A: TaskFuture<C, Output = Result<X, E>>,
    E: Digits,
{
    type Output = Result<X, u64>;

    ghost is_spent = { λ f. A.is_spent f.end };

    ghost can_poll = { λ f. A.can_poll f.end };

    fn spent(&self) -> bool {
        self.end.spent()
    }

    fn poll<R: Host>(&mut self, rt: &R, alloc: Global, cx: &mut C) -> Poll<Result<X, u64>> {
        match self.end.poll(rt, alloc, cx) {
            Poll::Ready(answer) => Poll::Ready(answer.map_err(E::digits)),
            Poll::Pending => Poll::Pending,
        }
    }

    fn cancel(self, cx: &mut C) {
        self.end.cancel(cx);
    }
}

/// A form over the two ends.
#[derive(Drop)]
enum Ends<F, G> {
    Join(Join2<Recv<Shared, u64>, Send<Shared, u64>, Received, Sent>),
    Try(TryJoin2<Numbered<Recv<Shared, u64>>, Numbered<Send<Shared, u64>>, Option<u64>, (), u64>),
    Select(Select2<Recv<Shared, u64>, Send<Shared, u64>, F, G>),
    Race(RaceEither<Recv<Shared, u64>, Send<Shared, u64>>),
}

impl<C, F, G> TaskFuture<C> for Ends<F, G>
where
    C: SharedContext<Shared>,
    F: Fn(&Received) -> bool + Drop,
    G: Fn(&Sent) -> bool + Drop,
{
    type Output = u64;

    ghost can_poll = { λ _. MayTest F.Fn × MayTest G.Fn };

    fn spent(&self) -> bool {
        false
    }

    fn poll<R: Host>(&mut self, rt: &R, alloc: Global, cx: &mut C) -> Poll<u64> {
        match self {
            Ends::Join(form) => poll_form(rt, alloc, cx, form),
            Ends::Try(form) => poll_form(rt, alloc, cx, form),
            Ends::Select(form) => poll_form(rt, alloc, cx, form),
            Ends::Race(form) => poll_form(rt, alloc, cx, form),
        }
    }

    // A form that has answered has given its parts up.
    fn cancel(self, _cx: &mut C) {}
}

fn recv() -> Recv<Shared, u64> {
    Recv::new()
}

fn send() -> Send<Shared, u64> {
    Send::new(7)
}

fn join<F, G>() -> Option<Ends<F, G>> {
    Some(Ends::Join(Join2::new(recv(), send())))
}

fn try_join<F, G>() -> Option<Ends<F, G>> {
    let (recv, send) = (Numbered { end: recv() }, Numbered { end: send() });
    Some(Ends::Try(TryJoin2::new(recv, send)))
}

fn select<F, G>(test: F, other: G) -> Option<Ends<F, G>> {
    let select = Select2::new(recv(), send(), test, other, 0, Start::Biased);
    Some(Ends::Select(select))
}

// The send answers first: the receive polled the empty channel before it.
fn first<F, G>() -> Option<Ends<F, G>> {
    Some(Ends::Race(race_either(recv(), send())))
}

// Returns the run of each form, with these predicates of a select.
fn all_with<F, G, R>(rt: &R, alloc: Global, test: F, other: G) -> [(&'static str, Ended); 4]
where
    F: Fn(&Received) -> bool + Drop,
    G: Fn(&Sent) -> bool + Drop,
    R: Host,
    requires { MayTest F.Fn × MayTest G.Fn }
{
    [
        ("join of both ends", run::<Ends<F, G>, R>(rt, alloc, join())),
        (
            "try of both ends",
            run::<Ends<F, G>, R>(rt, alloc, try_join()),
        ),
        (
            "select of both ends",
            run::<Ends<F, G>, R>(rt, alloc, select(test, other)),
        ),
        (
            "race of both ends",
            run::<Ends<F, G>, R>(rt, alloc, first()),
        ),
    ]
}

fn any_message(_: &Received) -> bool {
    true
}

fn no_answer(_: &Sent) -> bool {
    false
}

/// Returns the run of each form over both ends.
pub(crate) fn all<R: Host>(rt: &R, alloc: Global) -> [(&'static str, Ended); 4] {
    all_with(rt, alloc, any_message, no_answer)
}
