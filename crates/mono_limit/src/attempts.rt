// A future that makes one attempt after another.
ghost use Rattle.std.specs.Prelude.{◌≡◌, ◌<◌, ◌≤◌, ◌+◌, ◌^◌, true, false, IfOk, IfErr};
ghost use Rattle.mono_time.specs.Futures.{SleepMade};
ghost use Rattle.mono_limit.specs.RetrySleeps.{sleep_in};
ghost use Rattle.mono_limit.specs.Stages.{is_over};
ghost use Rattle.mono_limit.specs.RetryGives.{RetryGives};
ghost use Rattle.mono_limit.specs.RetryPolls.{MakesLive, MayGoOn, RetryPolls, RetryCancels, AttemptCancels, new_retry_of};
ghost use Rattle.mono_model.specs.declared.error.SleepError.TheVariants.{Memory};

use crate::RetryError;
use crate::schedules::delay;
use mono_model::{Host, Poll, SleepError};
use mono_task::TaskFuture;
use mono_time::{Instant, Sleep, TimeContext, sleep_until};
use std::alloc::Global;

/// The state of a retry: it makes an attempt next, polls an attempt, or rests; or it has answered for good.
#[derive(Drop)]
pub(crate) enum Stage<F> {
    Due,
    Trying(F),
    Resting,
    Over,
}

/// A future that makes one attempt after another until one is ready with Ok. A closure makes each attempt as a future.
///
/// Attempts are counted from 1. After failure k, the retry waits for the lesser of the cap and the base times 2^(k-1),
/// in milliseconds, and then makes the next attempt. The failure of the last attempt is the answer.
#[derive(Drop)]
pub struct Retry<G, F> {
    pub(crate) make: G,
    pub(crate) stage: Stage<F>,
    // The numbers of the attempts that were made, and of those that may follow.
    pub(crate) tried: u64,
    pub(crate) left: u64,
    pub(crate) sleep: Sleep,
    pub(crate) base: u64,
    pub(crate) cap: u64,
}

/// The closure of a retry that was refused, and the cause.
#[derive(Drop)]
pub struct RetryRefused<G> {
    /// Why no sleep was made.
    pub cause: SleepError,
    /// The caller's closure.
    pub make: G,
}

impl<G, F> Retry<G, F> {
    /// Returns a retry of at most `most` attempts, whose first poll makes the first attempt. The base is at least 1 and
    /// at most the cap, in milliseconds, and `most` is from 1 to 2^32 - 1. The closure may be called for each attempt
    /// from 1 to `most`, and makes no attempt that is spent (`live`). It is called for no other number.
    ///
    /// Refuses the call if the context refuses a further sleep whose deadline is now (`made`, `memory`), and then the
    /// closure comes back (`handed_back`).
    pub fn new<C, X, E>(
        alloc: Global,
        cx: &mut C,
        make: G,
        base_ms: u64,
        cap_ms: u64,
        most: u64,
    ) -> Result<Retry<G, F>, RetryRefused<G>>
    where
        C: TimeContext,
        F: TaskFuture<C, Output = Result<X, E>>,
        G: FnMut(u64) -> F,
        requires base { 0 < base_ms }
        requires cap { base_ms ≤ cap_ms }
        requires some { 0 < most }
        requires in_range { most < 2 ^ 32 }
        requires live { MakesLive G.FnMut F.TaskFuture most }
        ensures made { SleepMade (C.sleeps cx.old) (C.nanos cx.old) (sleep_in result) (C.sleeps cx.new) }
        ensures retry { IfOk result (λ retry. retry ≡ new_retry_of make base_ms cap_ms most retry.sleep) }
        ensures callable { IfOk result (MayGoOn G.FnMut F.TaskFuture) }
        ensures handed_back { IfErr result (λ refused. refused.make ≡ make) }
        ensures memory { sleep_in result ≡ Err Memory → C.is_out_of_memory cx.new ≡ true }
        ensures work { C.work cx.new ≡ C.work cx.old }
        ensures reached { C.reaches cx.old cx.new }
    {
        let now = Instant::now(cx);
        match sleep_until(alloc, cx, now) {
            Ok(sleep) => Ok(Retry {
                make,
                stage: Stage::Due,
                tried: 0,
                left: most,
                sleep,
                base: base_ms,
                cap: cap_ms,
            }),
            Err(cause) => Err(RetryRefused { cause, make }),
        }
    }
}

// Gives up the running attempt, if there is one.
fn give_up<C: TimeContext, F: TaskFuture<C>>(stage: Stage<F>, cx: &mut C)
    ensures cancelled { AttemptCancels F.TaskFuture stage cx.old cx.new }
    ensures reached { C.reaches cx.old cx.new }
{
    if let Stage::Trying(attempt) = stage {
        attempt.cancel(cx);
    }
}

impl<F> Stage<F> {
    fn is_over(&self) -> bool
        ensures { result ≡ is_over self.now }
    {
        match self {
            Stage::Due | Stage::Trying(_) | Stage::Resting => false,
            Stage::Over => true,
        }
    }
}

impl<C, G, F, X, E> TaskFuture<C> for Retry<G, F>
where
    C: TimeContext,
    X: Drop,
    E: Drop,
    F: TaskFuture<C, Output = Result<X, E>>,
    G: FnMut(u64) -> F + Drop,
{
    type Output = Result<X, RetryError<E>>;

    ghost is_spent = { λ r. is_over r.stage };

    ghost can_poll = { MayGoOn G.FnMut F.TaskFuture };

    ghost polls = { RetryPolls G.FnMut F.TaskFuture C.number C.nanos C.sleeps C.work C.reaches };

    ghost gives = { RetryGives F.gives G.FnMut };

    ghost cancels = { RetryCancels F.TaskFuture C.sleeps C.work C.reaches };

    fn spent(&self) -> bool {
        self.stage.is_over()
    }

    fn poll<R: Host>(
        &mut self,
        rt: &R,
        alloc: Global,
        cx: &mut C,
    ) -> Poll<Result<X, RetryError<E>>> {
        loop {
            if let Some(answer) = self.step(rt, alloc, cx) {
                return answer;
            }
        }
    }

    fn cancel(self, cx: &mut C) {
        let Retry {
            make: _,
            stage,
            tried: _,
            left: _,
            sleep,
            base: _,
            cap: _,
        } = self;
        give_up(stage, cx);
        sleep.cancel(cx);
    }
}
