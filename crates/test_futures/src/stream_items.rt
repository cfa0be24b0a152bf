// Streams whose closures may be called only at the items that may come.
ghost use Rattle.std.specs.Prelude.{◌<◌, ⊤};
ghost use Rattle.mono_stream.specs.ComeRules.{EachGives};

use crate::boards::{Board, empty_board};
use mono_model::{Host, Poll};
use mono_stream::{Stream, StreamExt, iter};
use std::alloc::Global;

/// A stream of digits, as many as are left.
#[derive(Drop)]
struct Digits {
    left: u64,
}

impl Stream<Board> for Digits {
    type Item = u64;

    ghost polls = { λ s c r t d. ⊤ };

    ghost gives = { EachGives (λ x. x < 10) };

    ghost cancels = { λ s c d. ⊤ };

    fn poll_next<R: Host>(
        &mut self,
        _rt: &R,
        _alloc: Global,
        _cx: &mut Board,
    ) -> Poll<Option<u64>> {
        if self.left == 0 {
            return Poll::Ready(None);
        }
        self.left -= 1;
        Poll::Ready(Some(self.left % 10))
    }

    fn cancel(self, _cx: &mut Board) {}
}

/// Returns the first of two digits as a character. The closure takes digits alone.
fn first_character<R: Host>(rt: &R, alloc: Global, cx: &mut Board) -> Poll<Option<u8>> {
    let digits = Digits { left: 2 };
    let mut characters = StreamExt::<Board>::map(digits, |x: u64| b'0' + x as u8);
    characters.poll_next(rt, alloc, cx)
}

/// Returns the first quotient of 100 by a number that is not 0. The closure of `map` takes such numbers alone, and the
/// filter gives no other.
fn first_quotient<R: Host>(rt: &R, alloc: Global, cx: &mut Board) -> Poll<Option<u64>> {
    let numbers = StreamExt::<Board>::filter(iter([0u64, 4, 5]), |x: &u64| *x != 0);
    let mut quotients = StreamExt::<Board>::map(numbers, |x: u64| 100 / x);
    quotients.poll_next(rt, alloc, cx)
}

#[test]
fn closures_at_items_that_may_come(rt: HostRuntime) {
    let alloc = rt.alloc();
    let mut cx = empty_board(&rt, alloc, 2);
    assert!(rt; first_character(&rt, alloc, &mut cx) == Poll::Ready(Some(b'1')));
    assert!(rt; first_quotient(&rt, alloc, &mut cx) == Poll::Ready(Some(25)));
}
