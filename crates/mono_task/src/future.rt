// Futures that run on a context.
ghost use Rattle.std.specs.Prelude.{◌≡◌, Bool, false, ⊤};
ghost use Rattle.mono_model.specs.Poll.{OnPending, IfReady};
ghost use Rattle.mono_model.specs.declared.poll.Poll.{Poll};

use crate::context::Context;
use mono_model::{Host, Poll};
use std::alloc::Global;

/// A computation that runs in turns on a context and returns a value at its end.
///
/// A future specifies the answer and the effect of one poll (`polls`), the effect of `cancel` (`cancels`), and its
/// answers in the end (`gives`). For every future, poll and cancel promise that they reach the context afterwards from
/// the one before (`reached`).
pub trait TaskFuture<C: Context>: Drop {
    /// The value that the future returns at its end.
    type Output;

    // Whether the future has answered for good and may not be polled.
    ghost is_spent: { Self → Bool } = { λ _. false };

    // What the future's closures require of a poll; true if it holds none.
    ghost can_poll: { Self → Type 0 } = { λ _. ⊤ };

    // What one poll may answer, and the future and the context that it may leave.
    ghost polls: { Self → C → Poll Self.Output → Self → C → Type 0 } = { λ _ _ _ _ _. ⊤ };

    // What the future may answer in the end; anything, if the future does not say.
    ghost gives: { Self → Self.Output → Type 0 } = { λ _ _. ⊤ };

    // The context that `cancel` may leave.
    ghost cancels: { Self → C → C → Type 0 } = { λ _ _ _. ⊤ };

    /// Returns whether the future has answered for good.
    fn spent(&self) -> bool
        ensures { result ≡ is_spent self.now };

    /// Continues the computation in the running task's turn. A future that returned `Pending` may be polled again.
    ///
    /// A poll has no answer of its own for out of memory: the context records that an allocation failed.
    fn poll<R: Host>(&mut self, rt: &R, alloc: Global, cx: &mut C) -> Poll<Self::Output>
        requires unspent { is_spent self.old ≡ false }
        requires callable { can_poll self.old }
        ensures polled { polls self.old cx.old result self.new cx.new }
        ensures again { OnPending result (is_spent self.new ≡ false) }
        ensures given { IfReady result (gives self.old) }
        ensures same { OnPending result ((x : _) → gives self.new x → gives self.old x) }
        ensures callable { can_poll self.new }
        ensures reached { C.reaches cx.old cx.new };

    /// Gives up the future and its sleeps and join handles in the context.
    fn cancel(self, cx: &mut C)
        ensures cancelled { cancels self cx.old cx.new }
        ensures reached { C.reaches cx.old cx.new };
}
