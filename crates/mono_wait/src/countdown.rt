// A future by hand.
ghost use Rattle.mono_wait.specs.Countdowns.{CountdownPolls, CountdownCancels, counts};

use crate::waits::{WaitContext, Waits};
use mono_model::{Host, Poll};
use mono_task::{Context, TaskFuture};
use std::alloc::Global;

/// A future that waits for a number of polls, wakes its own task in each, and then answers its value.
#[derive(Drop)]
pub struct Countdown {
    pub left: u64,
    pub value: u64,
    pub has_answered: bool,
}

impl<C: Context> TaskFuture<C> for Countdown {
    type Output = u64;

    ghost is_spent = { λ f. f.has_answered };

    ghost polls = { CountdownPolls C.number C.work C.reaches };

    ghost cancels = { CountdownCancels C.reaches };

    fn spent(&self) -> bool {
        self.has_answered
    }

    fn poll<R: Host>(&mut self, _rt: &R, _alloc: Global, cx: &mut C) -> Poll<u64> {
        if self.left == 0 {
            self.has_answered = true;
            return Poll::Ready(self.value);
        }
        self.left -= 1;
        cx.wake_me();
        Poll::Pending
    }

    fn cancel(self, _cx: &mut C) {}
}

// It needs no source: it was woken in its turn.
impl<C: WaitContext> Waits<C> for Countdown {
    ghost needs = { λ f x. ⊥ };

    ghost polls_reach = { λ f c r g d p. p.reached };

    ghost cancels_reach = { λ f c d p. p.reached };

    ghost covers = { counts C.number C.work C.reaches C.watcher C.reaches_itself C.same_number };
}
