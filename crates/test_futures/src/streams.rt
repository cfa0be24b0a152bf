// Streams over a small context that notes each poll and each cancel.
ghost use Rattle.std.specs.Prelude.{⊤, false};

use crate::boards::{Board, Step, empty_board, told};
use mono_model::{Host, Poll};
use mono_stream::{Stream, StreamExt, iter};
use mono_task::TaskFuture;
use std::alloc::Global;

/// A future that waits for a number of polls, in each of which it notes how often a task was woken before.
#[derive(Drop)]
struct Nothing {
    waits: u64,
}

impl TaskFuture<Board> for Nothing {
    type Output = ();

    ghost is_spent = { λ f. false };

    ghost polls = { λ f c r g d. ⊤ };

    ghost cancels = { λ f c d. ⊤ };

    fn spent(&self) -> bool {
        false
    }

    fn poll<R: Host>(&mut self, _rt: &R, _alloc: Global, cx: &mut Board) -> Poll<()> {
        if self.waits == 0 {
            return Poll::Ready(());
        }
        self.waits -= 1;
        cx.notes = cx.wakes;
        Poll::Pending
    }

    fn cancel(self, _cx: &mut Board) {}
}

fn hint<S: Stream<Board>>(stream: &S) -> (usize, Option<usize>) {
    stream.size_hint()
}

/// Returns whether three numbers come, each with one added, and whether the hints are right.
fn adds_one<R: Host>(rt: &R, alloc: Global, cx: &mut Board) -> bool {
    let numbers = iter([1u64, 2, 3]);
    let is_exact = hint(&numbers) == (3, Some(3));
    let mut mapped = StreamExt::<Board>::map(numbers, |x: u64| x.wrapping_add(1));
    let is_open = hint(&mapped) == (0, None);
    let first = mapped.poll_next(rt, alloc, cx);
    let second = mapped.poll_next(rt, alloc, cx);
    let third = mapped.poll_next(rt, alloc, cx);
    let last = mapped.poll_next(rt, alloc, cx);
    let are_three = first == Poll::Ready(Some(2))
        && second == Poll::Ready(Some(3))
        && third == Poll::Ready(Some(4));
    is_exact && is_open && are_three && last == Poll::Ready(None)
}

/// Returns whether the output of a future comes, which waits once.
fn doubles<R: Host>(rt: &R, alloc: Global, cx: &mut Board) -> bool {
    cx.notes = 0;
    let mut twice = StreamExt::<Board>::then(
        iter([1u64, 2]),
        |x: u64| Step {
            digit: x,
            waits: 1,
            value: x.wrapping_mul(2),
        },
    );
    let waits = twice.poll_next(rt, alloc, cx) == Poll::Pending;
    waits && twice.poll_next(rt, alloc, cx) == Poll::Ready(Some(2)) && cx.notes == 116
}

/// Returns whether the first item comes as the answer of a future, after one that was given up unpolled.
fn comes_first<R: Host>(rt: &R, alloc: Global, cx: &mut Board) -> bool {
    let mut numbers = iter([7u64, 8]);
    StreamExt::<Board>::next(&mut numbers).cancel(cx);
    StreamExt::<Board>::next(&mut numbers).poll(rt, alloc, cx) == Poll::Ready(Some(7))
}

/// Returns whether a future that handles 300 items, the last of which waits once, is ready at the third poll, and wakes
/// its own task once, before that wait.
fn handles<R: Host>(rt: &R, alloc: Global, cx: &mut Board) -> bool {
    cx.wakes = 0;
    let all = StreamExt::<Board>::for_each(iter(0..300u64), |x: u64| Nothing { waits: x / 299 });
    told(rt, alloc, cx, all, 3) == (Some((2, ())), 1) && cx.wakes == 1
}

#[test]
fn mapped_made_and_handled_items(rt: HostRuntime) {
    let alloc = rt.alloc();
    let mut cx = empty_board(&rt, alloc, 2);
    assert!(rt; adds_one(&rt, alloc, &mut cx) && doubles(&rt, alloc, &mut cx));
    assert!(rt; comes_first(&rt, alloc, &mut cx) && handles(&rt, alloc, &mut cx));
}
