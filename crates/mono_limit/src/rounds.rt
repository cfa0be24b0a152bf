// The steps of a retry within one poll.
ghost use Rattle.std.specs.Prelude.{◌≡◌, ◌<◌, ◌+◌, ◌^◌, false};
ghost use Rattle.mono_limit.specs.Stages.{is_over};
ghost use Rattle.mono_limit.specs.RetryPolls.{IsLive, IsLiveStage, MayGoOn, Makes, Tries, Rests, Ends, FailsWith, GoesToRest, StepOf, Leaves, due_after, IsDeadline};
ghost use Rattle.mono_limit.specs.RetryPolls.{at_stage};
ghost use Rattle.mono_limit.specs.RetryGives.{RetryGives, Narrows};
ghost use Rattle.mono_limit.specs.declared.attempts.Stage.TheVariants as stage;
ghost use Rattle.mono_time.specs.Instants.{nanos_of};

use crate::RetryError;
use crate::attempts::{Retry, Stage};
use crate::schedules::delay;
use mono_model::{Host, Poll};
use mono_task::TaskFuture;
use mono_time::{Instant, TimeContext};
use std::alloc::Global;
use std::mem;

impl<G, F: Drop> Retry<G, F> {
    /// Answers for good.
    fn end<C: TimeContext, X, E>(
        &mut self,
        cx: &mut C,
        answer: Result<X, RetryError<E>>,
    ) -> Option<Poll<Result<X, RetryError<E>>>>
        ensures ends { Ends C.sleeps C.work C.reaches answer self.old cx.old result self.new cx.new }
        ensures reached { C.reaches cx.old cx.new }
    {
        let _ = cx.drop_sleep(self.sleep.number());
        self.stage = Stage::Over;
        Some(Poll::Ready(answer))
    }

    /// Returns when the next attempt is due, if that is not past the last instant.
    fn deadline<C: TimeContext>(&self, cx: &C) -> Option<Instant>
        requires has_base { 0 < self.now.base }
        requires in_range { self.now.tried < 2 ^ 32 }
        ensures { IsDeadline (due_after self.now (C.nanos cx.now)) result }
    {
        let wait = delay(self.base, self.cap, self.tried as u32);
        Instant::from_nanos(Instant::now(cx).as_nanos() + 1000000 * u128::from(wait))
    }

    /// Resets the sleep, and rests.
    fn go_to_rest<C: TimeContext, X, E>(
        &mut self,
        cx: &mut C,
        deadline: Instant,
    ) -> Option<Poll<Result<X, RetryError<E>>>>
        ensures rests { GoesToRest C.sleeps C.work C.reaches (nanos_of deadline) self.old cx.old result self.new cx.new }
        ensures reached { C.reaches cx.old cx.new }
    {
        match self.sleep.reset(cx, deadline) {
            Ok(()) => {
                self.stage = Stage::Resting;
                None
            }
            Err(error) => self.end(cx, Err(RetryError::Timer(error))),
        }
    }

    /// Handles the failure of an attempt.
    fn fail<C: TimeContext, X, E: Drop>(
        &mut self,
        cx: &mut C,
        error: E,
    ) -> Option<Poll<Result<X, RetryError<E>>>>
        requires has_base { 0 < self.old.base }
        requires in_range { self.old.tried < 2 ^ 32 }
        ensures fails { FailsWith C.sleeps C.work C.reaches self.old.left error (due_after self.old (C.nanos cx.old)) self.old cx.old result self.new cx.new }
        ensures reached { C.reaches cx.old cx.new }
    {
        if self.left == 0 {
            return self.end(cx, Err(RetryError::Last(error)));
        }
        match self.deadline(cx) {
            None => self.end(cx, Err(RetryError::Far(error))),
            Some(deadline) => self.go_to_rest(cx, deadline),
        }
    }

    /// Polls the attempt. An attempt that answered is given up at once.
    fn go_on<R: Host, C, X, E>(
        &mut self,
        rt: &R,
        alloc: Global,
        cx: &mut C,
        mut attempt: F,
    ) -> Option<Poll<Result<X, RetryError<E>>>>
    where
        C: TimeContext,
        X: Drop,
        E: Drop,
        F: TaskFuture<C, Output = Result<X, E>>,
        G: FnMut(u64) -> F,
        requires live { IsLive F.TaskFuture attempt }
        requires has_base { 0 < self.old.base }
        requires in_range { self.old.tried < 2 ^ 32 }
        ensures tries { Tries F.TaskFuture C.nanos C.sleeps C.work C.reaches attempt self.old cx.old result self.new cx.new }
        ensures live { IsLiveStage F.TaskFuture self.new.stage }
        ensures gives { Narrows result (RetryGives F.gives G.FnMut (at_stage self.old (stage.Trying attempt))) (RetryGives F.gives G.FnMut self.new) }
        ensures reached { C.reaches cx.old cx.new }
    {
        match attempt.poll(rt, alloc, cx) {
            Poll::Pending => {
                self.stage = Stage::Trying(attempt);
                Some(Poll::Pending)
            }
            Poll::Ready(Ok(value)) => {
                attempt.cancel(cx);
                self.end(cx, Ok(value))
            }
            Poll::Ready(Err(error)) => {
                attempt.cancel(cx);
                self.fail(cx, error)
            }
        }
    }

    /// Polls the sleep.
    fn rest<R: Host, C: TimeContext, X, E>(
        &mut self,
        rt: &R,
        alloc: Global,
        cx: &mut C,
    ) -> Option<Poll<Result<X, RetryError<E>>>>
        ensures rests { Rests C.number C.sleeps C.work C.reaches self.old cx.old result self.new cx.new }
        ensures reached { C.reaches cx.old cx.new }
    {
        match self.sleep.poll(rt, alloc, cx) {
            Poll::Pending => {
                self.stage = Stage::Resting;
                Some(Poll::Pending)
            }
            Poll::Ready(Ok(())) => {
                self.stage = Stage::Due;
                None
            }
            Poll::Ready(Err(error)) => self.end(cx, Err(RetryError::Timer(error))),
        }
    }

    /// Makes the next attempt.
    fn begin(&mut self)
    where
        G: FnMut(u64) -> F,
        requires callable { G.pre self.old.make (self.old.tried + 1) }
        requires some { 0 < self.old.left }
        requires in_range { self.old.tried + self.old.left < 2 ^ 32 }
        ensures { Makes G.FnMut self.old self.new }
    {
        self.tried += 1;
        self.left -= 1;
        let attempt = (self.make)(self.tried);
        self.stage = Stage::Trying(attempt);
    }

    /// Makes one step of a poll. Returns the poll's answer, or `None` if the poll continues.
    pub(crate) fn step<R: Host, C, X, E>(
        &mut self,
        rt: &R,
        alloc: Global,
        cx: &mut C,
    ) -> Option<Poll<Result<X, RetryError<E>>>>
    where
        C: TimeContext,
        X: Drop,
        E: Drop,
        F: TaskFuture<C, Output = Result<X, E>>,
        G: FnMut(u64) -> F,
        requires may { MayGoOn G.FnMut F.TaskFuture self.old }
        requires unspent { is_over self.old.stage ≡ false }
        ensures step { StepOf G.FnMut F.TaskFuture C.number C.nanos C.sleeps C.work C.reaches self.old.stage self.old cx.old result self.new cx.new }
        ensures may { MayGoOn G.FnMut F.TaskFuture self.new }
        ensures leaves { Leaves result self.old self.new }
        ensures gives { Narrows result (RetryGives F.gives G.FnMut self.old) (RetryGives F.gives G.FnMut self.new) }
        ensures reached { C.reaches cx.old cx.new }
    {
        match mem::replace(&mut self.stage, Stage::Over) {
            Stage::Due => {
                self.begin();
                None
            }
            Stage::Trying(attempt) => self.go_on(rt, alloc, cx, attempt),
            Stage::Resting => self.rest(rt, alloc, cx),
            Stage::Over => unreachable!(),
        }
    }
}
