// A future that is written by hand.
ghost use Rattle.std.specs.Prelude.{◌≡◌, false};
ghost use Rattle.example_parts.specs.Countdowns.{CountdownPolls};

use mono_model::{Host, Poll};
use mono_task::{Context, TaskFuture};
use std::alloc::Global;

/// A future that is pending for `left` polls and then returns its value. In each of these polls it wakes its own task.
#[derive(Drop)]
pub struct Countdown {
    left: u64,
    value: u64,
    has_answered: bool,
}

impl Countdown {
    /// Returns the future that is pending for `left` polls and then returns `value`.
    pub fn new(left: u64, value: u64) -> Countdown
        ensures left { result.left ≡ left }
        ensures value { result.value ≡ value }
        ensures fresh { result.has_answered ≡ false }
    {
        Countdown {
            left,
            value,
            has_answered: false,
        }
    }
}

impl<C: Context> TaskFuture<C> for Countdown {
    type Output = u64;

    ghost is_spent = { λ f. f.has_answered };

    ghost polls = { CountdownPolls C.number C.work C.wakes C.reaches };

    ghost cancels = { λ f c d. d ≡ c };

    fn spent(&self) -> bool {
        self.has_answered
    }

    fn poll<R: Host>(&mut self, _rt: &R, _alloc: Global, cx: &mut C) -> Poll<u64> {
        if self.left == 0 {
            self.has_answered = true;
            return Poll::Ready(self.value);
        }
        self.left -= 1;
        cx.wake_me();
        Poll::Pending
    }

    fn cancel(self, _cx: &mut C) {}
}
