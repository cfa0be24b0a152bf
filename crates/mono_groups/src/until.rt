// A future that is given up once a signal came, as the cancel of a token.
ghost use Rattle.std.specs.Prelude.{◌≡◌, Some};
ghost use Rattle.mono_forms.specs.Races.{race_spent, RaceCanPoll, RaceCancels};
ghost use Rattle.mono_groups.specs.Until.{UntilPolls, UntilGives, answer_of};

use crate::token_calls::{CancelledFuture, cancelled};
use mono_forms::{Either, FutureExt, RaceEither, race_either};
use mono_model::{Host, Poll};
use mono_task::{Context, TaskFuture};
use std::alloc::{AllocError, Global};
use thiserror::Error;

/// The reason why a future was given up before its end.
#[derive(Clone, Copy, Debug, Drop, Error)]
pub enum Aborted {
    /// Its signal came: its token was cancelled.
    #[error("task was cancelled")]
    Cancelled,
    /// The allocation of a place to wait for its signal failed.
    #[error("out of memory")]
    Memory,
}

/// A future that runs until a signal comes. Each poll looks for the signal first.
///
/// Once the signal came or the future has answered, the form gives up both and is spent. So a sleep of the future is
/// disarmed.
#[derive(Drop)]
pub struct RunUntil<A, F> {
    pub(crate) race: RaceEither<A, F>,
}

/// A future that runs until the token with one key is cancelled.
pub type UntilCancelled<W, F> = RunUntil<CancelledFuture<W>, F>;

/// Returns a future that answers `Ok` with the output of this one, or `Err(Cancelled)` once the signal came.
///
/// The future is given up then. It is not polled if the signal came before. The answer is `Err(Memory)` if no memory is left
/// to wait for the signal.
pub fn run_until<A, F>(signal: A, future: F) -> RunUntil<A, F>
    ensures { result.race.both ≡ Some (signal, future) }
{
    RunUntil {
        race: race_either(signal, future),
    }
}

/// Returns a future that answers `Ok` with the output of this one, or `Err(Cancelled)` once the token with this key was
/// cancelled.
///
/// The future is given up then. It is not polled if the token was cancelled before. The answer is `Err(Memory)` if no memory
/// is left to wait for the token.
pub fn run_until_cancelled<W, F>(key: u64, future: F) -> UntilCancelled<W, F>
    ensures { (waits : _) × (result.race.both ≡ Some (waits, future)) × (waits.call.key ≡ key) }
{
    run_until(cancelled(key), future)
}

// Returns the answer of the form, by that of the race.
fn answer_of<X>(first: Either<Result<(), AllocError>, X>) -> Result<X, Aborted>
    ensures { result ≡ answer_of first }
{
    match first {
        Either::Left(Ok(())) => Err(Aborted::Cancelled),
        Either::Left(Err(_)) => Err(Aborted::Memory),
        Either::Right(x) => Ok(x),
    }
}

impl<C, A, F> TaskFuture<C> for RunUntil<A, F>
where
    C: Context,
    A: TaskFuture<C, Output = Result<(), AllocError>>,
    F: TaskFuture<C>,
{
    type Output = Result<F::Output, Aborted>;

    ghost is_spent = { λ f. race_spent A.is_spent F.is_spent f.race.both };

    ghost can_poll = { λ f. RaceCanPoll A.can_poll F.can_poll f.race.both };

    ghost polls = { λ f c r g d. UntilPolls A.TaskFuture F.TaskFuture f.race.both c r g.race.both d };

    ghost gives = { λ f. UntilGives A.gives F.gives f.race.both };

    ghost cancels = { λ f c d. RaceCancels A.cancels F.cancels f.race.both c d };

    fn spent(&self) -> bool {
        self.race.spent()
    }

    fn poll<R: Host>(
        &mut self,
        rt: &R,
        alloc: Global,
        cx: &mut C,
    ) -> Poll<Result<F::Output, Aborted>> {
        match self.race.poll(rt, alloc, cx) {
            Poll::Ready(first) => Poll::Ready(answer_of(first)),
            Poll::Pending => Poll::Pending,
        }
    }

    fn cancel(self, cx: &mut C) {
        self.race.cancel(cx)
    }
}

impl<A, F> FutureExt for RunUntil<A, F> {}
