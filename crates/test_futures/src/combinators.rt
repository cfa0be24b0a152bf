// A closure as a future, and random numbers.
use crate::boards::{Board, empty_board};
use mono_combine::poll_fn;
use mono_model::{FastRand, Host, Poll};
use mono_task::TaskFuture;
use std::alloc::Global;

/// Returns whether a closure greets at its poll.
#[tactic(auto, using(mono_combine::proofs::PollFnLemmas::always_callable))]
fn greets<R: Host>(rt: &R, alloc: Global, cx: &mut Board) -> bool {
    let mut greeting = poll_fn(|_: &mut Board| Poll::Ready("Hello, World!"));
    match greeting.poll(rt, alloc, cx) {
        Poll::Ready(text) => text == "Hello, World!",
        Poll::Pending => false,
    }
}

#[test]
fn a_closure_is_polled(rt: HostRuntime) {
    let mut cx = empty_board(&rt, rt.alloc(), 2);
    assert!(rt; greets(&rt, rt.alloc(), &mut cx));
}

#[test]
fn numbers(rt: HostRuntime) {
    let mut zero = FastRand::new(0);
    let drawn = (zero.fastrand(), zero.fastrand(), zero.fastrand());
    let mut high = FastRand::new(2147483648);
    assert!(rt; drawn == (2, 132097, 132099) && high.fastrand_n(131072) == 1);
}
