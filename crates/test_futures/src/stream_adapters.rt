// Streams made of streams, with the polls of each part.
ghost use Rattle.std.specs.Prelude.{⊤};

use crate::boards::{Board, empty_board, told};
use mono_model::{Host, Poll};
use mono_stream::{Stream, StreamExt, iter};
use std::alloc::Global;

/// A stream of the numbers from `next` to below `end`. It notes its digit in each poll and five more in its cancel, and
/// returns `Pending` before each answer as often as `waits` says.
#[derive(Drop)]
struct Numbers {
    digit: u64,
    next: u64,
    end: u64,
    waits: u64,
    waited: u64,
}

fn numbers_of(digit: u64, end: u64, waits: u64) -> Numbers {
    Numbers {
        digit,
        next: 0,
        end,
        waits,
        waited: 0,
    }
}

impl Stream<Board> for Numbers {
    type Item = u64;

    ghost polls = { λ s c r t d. ⊤ };

    ghost cancels = { λ s c d. ⊤ };

    fn poll_next<R: Host>(&mut self, _rt: &R, _alloc: Global, cx: &mut Board) -> Poll<Option<u64>> {
        cx.notes = cx.notes.wrapping_mul(10).wrapping_add(self.digit);
        if self.waited != self.waits {
            self.waited = self.waited.wrapping_add(1);
            return Poll::Pending;
        }
        self.waited = 0;
        if self.next == self.end {
            return Poll::Ready(None);
        }
        let item = self.next;
        self.next = item.wrapping_add(1);
        Poll::Ready(Some(item))
    }

    fn cancel(self, cx: &mut Board) {
        cx.notes = cx
            .notes
            .wrapping_mul(10)
            .wrapping_add(self.digit.wrapping_add(5));
    }
}

/// Returns whether a filter passes over what it refuses: it polls the part again in the same poll, and wakes its task
/// after 256 items.
fn filters<R: Host>(rt: &R, alloc: Global, cx: &mut Board) -> bool {
    cx.notes = 0;
    let mut odd = StreamExt::<Board>::filter(numbers_of(1, 4, 0), |x: &u64| *x % 2 == 1);
    let first = odd.poll_next(rt, alloc, cx) == Poll::Ready(Some(1)) && cx.notes == 11;
    cx.wakes = 0;
    let mut far = StreamExt::<Board>::filter(iter(0..300u64), |x: &u64| *x == 299);
    let yields = far.poll_next(rt, alloc, cx) == Poll::Pending && cx.wakes == 1;
    let arrives = far.poll_next(rt, alloc, cx) == Poll::Ready(Some(299)) && cx.wakes == 1;
    first && yields && arrives
}

/// Returns whether `take` and `take_while` poll their part no more once they have ended.
fn takes<R: Host>(rt: &R, alloc: Global, cx: &mut Board) -> bool {
    cx.notes = 0;
    let mut one = StreamExt::<Board>::take(numbers_of(1, 9, 0), 1);
    let first = one.poll_next(rt, alloc, cx) == Poll::Ready(Some(0));
    let last = one.poll_next(rt, alloc, cx) == Poll::Ready(None) && cx.notes == 1;
    let mut small = StreamExt::<Board>::take_while(numbers_of(2, 9, 0), |x: &u64| *x > 0);
    let fails = small.poll_next(rt, alloc, cx) == Poll::Ready(None) && cx.notes == 12;
    first && last && fails
}

/// Returns whether `skip` passes over two items, and `skip_while` over small ones.
fn skips<R: Host>(rt: &R, alloc: Global, cx: &mut Board) -> bool {
    let mut later = StreamExt::<Board>::skip(numbers_of(1, 4, 0), 2);
    let first = later.poll_next(rt, alloc, cx) == Poll::Ready(Some(2));
    let mut from = StreamExt::<Board>::skip_while(iter([1u64, 7, 2]), |x: &u64| *x < 5);
    let seven = from.poll_next(rt, alloc, cx) == Poll::Ready(Some(7));
    first && seven
}

/// Returns whether `enumerate` counts from 0, `filter_map` gives values alone, and `scan` keeps its state.
fn counts<R: Host>(rt: &R, alloc: Global, cx: &mut Board) -> bool {
    let mut counted = StreamExt::<Board>::enumerate(iter([7u64, 8]));
    let zero = counted.poll_next(rt, alloc, cx) == Poll::Ready(Some((0, 7)));
    let mut halves = StreamExt::<Board>::filter_map(
        iter([1u64, 4]),
        |x: u64| if x % 2 == 0 { Some(x / 2) } else { None },
    );
    let half = halves.poll_next(rt, alloc, cx) == Poll::Ready(Some(2));
    let mut sums = StreamExt::<Board>::scan(iter([5u64, 2]), 1u64, |sum: &mut u64, x: u64| {
        *sum = sum.wrapping_add(x);
        Some(*sum)
    });
    zero && half && sums.poll_next(rt, alloc, cx) == Poll::Ready(Some(6))
}

/// Returns whether `chain` gives up its first part once it has ended, and polls the second in the same poll, and `fuse`
/// gives its part up.
fn chains<R: Host>(rt: &R, alloc: Global, cx: &mut Board) -> bool {
    cx.notes = 0;
    let mut both = StreamExt::<Board>::chain(numbers_of(1, 0, 0), numbers_of(2, 2, 0));
    let first = both.poll_next(rt, alloc, cx) == Poll::Ready(Some(0)) && cx.notes == 162;
    let mut fused = StreamExt::<Board>::fuse(numbers_of(3, 0, 0));
    first && fused.poll_next(rt, alloc, cx) == Poll::Ready(None) && cx.notes == 16238
}

/// Returns whether `zip` polls both parts before it waits, and no part whose item it holds.
fn zips<R: Host>(rt: &R, alloc: Global, cx: &mut Board) -> bool {
    cx.notes = 0;
    let mut pairs = StreamExt::<Board>::zip(numbers_of(1, 2, 0), numbers_of(2, 1, 1));
    let waits = pairs.poll_next(rt, alloc, cx) == Poll::Pending && cx.notes == 12;
    waits && pairs.poll_next(rt, alloc, cx) == Poll::Ready(Some((0, 0))) && cx.notes == 122
}

/// Returns whether `merge` alternates between two parts that are ready.
fn merges<R: Host>(rt: &R, alloc: Global, cx: &mut Board) -> bool {
    cx.notes = 0;
    let mut both = StreamExt::<Board>::merge(numbers_of(1, 2, 0), numbers_of(2, 9, 0));
    let first = both.poll_next(rt, alloc, cx) == Poll::Ready(Some(0)) && cx.notes == 1;
    first && both.poll_next(rt, alloc, cx) == Poll::Ready(Some(0)) && cx.notes == 12
}

/// Returns whether `fold` and `collect` are ready once their part has ended.
fn gathers<R: Host>(rt: &R, alloc: Global, cx: &mut Board) -> bool {
    let sum = StreamExt::<Board>::fold(
        numbers_of(1, 4, 1),
        10u64,
        |sum: u64, x: u64| sum.wrapping_add(x),
    );
    let is_sum = told(rt, alloc, cx, sum, 9) == (Some((5, 16)), 1111111111);
    cx.wakes = 0;
    let all = StreamExt::<Board>::collect(iter(0..300u64), alloc);
    let (answer, _) = told(rt, alloc, cx, all, 9);
    let are_all = match &answer {
        Some((1, Ok(items))) => items.len() == 300 && items[299] == 299,
        _ => false,
    };
    is_sum && are_all && cx.wakes == 1
}

#[test]
fn adapted_items(rt: HostRuntime) {
    let alloc = rt.alloc();
    let mut cx = empty_board(&rt, alloc, 2);
    assert!(rt; filters(&rt, alloc, &mut cx) && takes(&rt, alloc, &mut cx));
    assert!(rt; skips(&rt, alloc, &mut cx) && counts(&rt, alloc, &mut cx));
    assert!(rt; chains(&rt, alloc, &mut cx) && zips(&rt, alloc, &mut cx));
    assert!(rt; merges(&rt, alloc, &mut cx) && gathers(&rt, alloc, &mut cx));
}
