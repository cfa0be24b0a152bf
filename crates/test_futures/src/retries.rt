//! Retries on a small context.
ghost use Rattle.std.specs.Prelude.{◌≡◌, false};

use crate::desks::{Desk, at_millis, empty_desk};
use mono_limit::{Retry, RetryError};
use mono_model::{Error, Host, MAX_NANOS, Poll};
use mono_task::TaskFuture;
use mono_time::{Instant, TimeContext};
use std::alloc::Global;

/// An attempt that answers its number at once: as Ok if it is the good one, and else as Err.
#[derive(Drop)]
struct Attempt {
    number: u64,
    good: u64,
}

impl<C: TimeContext> TaskFuture<C> for Attempt {
    type Output = Result<u64, u64>;

    ghost is_spent = { λ f. false };

    ghost polls = { λ f c r g d. d ≡ c };

    ghost cancels = { λ f c d. d ≡ c };

    fn spent(&self) -> bool {
        false
    }

    fn poll<R: Host>(&mut self, _rt: &R, _alloc: Global, _cx: &mut C) -> Poll<Result<u64, u64>> {
        if self.number == self.good {
            Poll::Ready(Ok(self.number))
        } else {
            Poll::Ready(Err(self.number))
        }
    }

    fn cancel(self, _cx: &mut C) {}
}

// The answer of a poll of a retry; None if it was not polled.
type Answer = Option<Poll<Result<u64, RetryError<u64>>>>;

// Polls a future that has not answered for good.
fn polled<R: Host, F: TaskFuture<Desk, Output = Result<u64, RetryError<u64>>>>(
    rt: &R,
    alloc: Global,
    cx: &mut Desk,
    future: &mut F,
) -> Answer
    requires { F.can_poll future.old }
    ensures { F.can_poll future.new }
{
    if future.spent() {
        return None;
    }
    Some(future.poll(rt, alloc, cx))
}

// Moves to a time, by a clock step. If memory runs out, no sleep fires, and the next attempt that a test expects is not
// made.
fn go_to(cx: &mut Desk, alloc: Global, nanos: u128) {
    if let Some(now) = Instant::from_nanos(nanos) {
        let mut fired = Vec::new(alloc);
        cx.now = now;
        let _ = cx.timers.fire_all(alloc, now, &mut fired);
    }
}

// Returns the polls of a retry at 0, 99, 100 and 300 ms.
fn polled_in_time<R: Host, F: TaskFuture<Desk, Output = Result<u64, RetryError<u64>>>>(
    rt: &R,
    alloc: Global,
    cx: &mut Desk,
    retry: &mut F,
) -> [Answer; 4]
    requires { F.can_poll retry.old }
    ensures { F.can_poll retry.new }
{
    let first = polled(rt, alloc, cx, retry);
    go_to(cx, alloc, 99999999);
    let early = polled(rt, alloc, cx, retry);
    go_to(cx, alloc, 100000000);
    let second = polled(rt, alloc, cx, retry);
    go_to(cx, alloc, 300000000);
    [first, early, second, polled(rt, alloc, cx, retry)]
}

// Returns whether a retry of at most three attempts, with this good one, answers so at the last of these polls alone,
// and its sleep has been dropped then.
fn ends_so<R: Host>(rt: &R, alloc: Global, cx: &mut Desk, good: u64, last: Answer) -> bool {
    let make = |number| Attempt { number, good };
    let Ok(mut retry) = Retry::new(alloc, cx, make, 100, 250, 3) else {
        return false;
    };
    let answers = polled_in_time(rt, alloc, cx, &mut retry);
    let is_gone = cx.sleep_elapsed(0) == Err(Error::Shutdown);
    retry.cancel(cx);
    is_gone && answers == [WAIT, WAIT, WAIT, last]
}

const WAIT: Answer = Some(Poll::Pending);

const LAST: Answer = Some(Poll::Ready(Err(RetryError::Last(3))));

const WELL: Answer = Some(Poll::Ready(Ok(3)));

// One retry gives up, and one succeeds at its third attempt.
#[test]
fn retries_that_end(rt: HostRuntime) {
    for (good, last) in [(0, LAST), (3, WELL)] {
        let mut cx = empty_desk(&rt, rt.alloc(), at_millis(0));
        assert!(&rt; ends_so(&rt, rt.alloc(), &mut cx, good, last));
    }
}

// Returns whether the next attempt is reported as too far.
fn is_far<R: Host>(rt: &R, alloc: Global, cx: &mut Desk) -> bool {
    let make = |number| Attempt { number, good: 0 };
    let Ok(mut retry) = Retry::new(alloc, cx, make, 1, 1, 2) else {
        return false;
    };
    let answer = polled(rt, alloc, cx, &mut retry);
    retry.cancel(cx);
    answer == Some(Poll::Ready(Err(RetryError::Far(1))))
}

#[test]
fn a_retry_that_is_far(rt: HostRuntime) {
    let end = Instant::from_nanos(MAX_NANOS).expect(&rt, "an instant");
    let mut cx = empty_desk(&rt, rt.alloc(), end);
    assert!(&rt; is_far(&rt, rt.alloc(), &mut cx));
}
