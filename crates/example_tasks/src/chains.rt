//! A future that is polled by hand: in any context, and at most so often.
ghost use Rattle.std.specs.Prelude.{◌≡◌, ◌⊎◌, ◌<◌, ◌+◌, false};
ghost use Rattle.mono_model.specs.Poll.{IfReady};

use mono_forms::FutureExt;
use mono_rt::{Context, Host, Poll, SleepError, TaskFuture, TimeContext, sleep_for};
use std::alloc::Global;
use std::time::Duration;

/// Polls a future at most `polls` times, one poll after another, until it is ready, and then gives it up.
pub fn poll_up_to<C: Context, A: TaskFuture<C>, R: Host>(
    rt: &R,
    alloc: Global,
    cx: &mut C,
    future: A,
    polls: u64,
) -> Poll<A::Output>
    requires unspent { A.is_spent future ≡ false }
    requires callable { A.can_poll future }
    ensures given { IfReady result (A.gives future) }
    ensures reached { C.reaches cx.old cx.new }
{
    let mut future = future;
    let mut left = polls;
    while left > 0 {
        left -= 1;
        if let Poll::Ready(output) = future.poll(rt, alloc, cx) {
            future.cancel(cx);
            return Poll::Ready(output);
        }
    }
    future.cancel(cx);
    Poll::Pending
}

/// Polls a task that sleeps, counts and sleeps again, at most `polls` times. It answers the count, or 0 if a sleep was
/// refused.
pub fn counts_once<C: TimeContext, R: Host>(
    rt: &R,
    alloc: Global,
    cx: &mut C,
    first: Duration,
    second: Duration,
    count: u64,
    polls: u64,
) -> Poll<u64>
    requires { count < 1000 }
    ensures { IfReady result (λ n. (n ≡ count + 1) ⊎ (n ≡ 0)) }
{
    let task = sleep_for(first)
        .and_then(move |_: ()| {
            let counted = count + 1;
            sleep_for(second).map_ok(move |_: ()| counted)
        })
        .map(|answer: Result<u64, SleepError>| match answer {
            Ok(counted) => counted,
            Err(_) => 0,
        });
    poll_up_to(rt, alloc, cx, task, polls)
}
