// A stream of items, polled on a context.
ghost use Rattle.std.specs.Prelude.{◌≡◌, ⊤, ℕ, List, Option, None};
ghost use Rattle.mono_model.specs.declared.poll.Poll.{Poll};
ghost use Rattle.mono_stream.specs.Comes.{MayCome, FollowOn};
ghost use Rattle.mono_stream.specs.Ends.{UnlessEnded, IsHint};

use mono_model::{Host, Poll};
use mono_task::Context;
use std::alloc::Global;

/// Items that come one after the other, in turns on a context.
///
/// A stream specifies the answers of one poll and the stream after it (`polls`), the items that may come (`gives`), and
/// the context after it is given up (`cancels`). For every stream, poll and cancel promise that the new context is
/// reached from the context before (`reached`).
pub trait Stream<C: Context>: Drop {
    /// The type of its items.
    type Item;

    // The requirements of its closures, its iterator and its futures on a poll; true for a stream that has none.
    ghost can_poll: { Self → Type 0 } = { λ _. ⊤ };

    // The answers that one poll may give, and the stream and the context after it.
    ghost polls: { Self → C → Poll (Option Self.Item) → Self → C → Type 0 };

    // Whether these items may come next, in order; any items, if the stream does not say. The empty list does not count.
    ghost gives: { Self → List Self.Item → Type 0 } = { λ _ _. ⊤ };

    // The contexts after giving the stream up.
    ghost cancels: { Self → C → C → Type 0 };

    // The hints that are right for the number of remaining items.
    ghost hints: { Self → ℕ × Option ℕ → Type 0 } = { λ _ hint. hint ≡ (0, None) };

    /// Returns the next item, `None` if the stream has ended, or `Pending` if neither has come yet.
    ///
    /// A stream that has not ended may be polled again (`callable`). The item may come next, and the items that may come
    /// after this poll are those that could follow it (`given`).
    fn poll_next<R: Host>(&mut self, rt: &R, alloc: Global, cx: &mut C) -> Poll<Option<Self::Item>>
        requires { can_poll self.old }
        ensures polled { polls self.old cx.old result self.new cx.new }
        ensures given { FollowOn (MayCome gives self.old) result (MayCome gives self.new) }
        ensures callable { UnlessEnded result (can_poll self.new) }
        ensures reached { C.reaches cx.old cx.new };

    /// Returns bounds on the number of remaining items; `(0, None)` if the stream knows no more.
    fn size_hint(&self) -> (usize, Option<usize>)
        ensures { IsHint (hints self.now) result }
    {
        (0, None)
    }

    /// Gives up the stream, with its sleeps and join handles in the context.
    fn cancel(self, cx: &mut C)
        ensures cancelled { cancels self cx.old cx.new }
        ensures reached { C.reaches cx.old cx.new };
}
