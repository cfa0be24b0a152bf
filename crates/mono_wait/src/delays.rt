// The sources of futures that make or keep a sleep.
ghost use Rattle.mono_wait.specs.Frames.{frame_of, part_of};
ghost use Rattle.mono_wait.specs.Naps.{NapNeeds, nap_left, nap_reached, naps_cover, LimitNeeds, limit_left, limit_reached, limits_cover};
ghost use Rattle.mono_wait.specs.Retries.{RetryNeeds, retry_left, retry_reached, retries_cover};

use crate::waits::{WaitContext, Waits};
use mono_limit::Retry;
use mono_time::{SleepFor, TimeoutFor};

// It needs its sleep, once it is made.
impl<C: WaitContext> Waits<C> for SleepFor {
    ghost needs = { NapNeeds };

    ghost polls_reach = { nap_reached (frame_of C.number C.work C.reaches C.watcher C.reaches_itself C.reaches_on) C.sleeps C.nanos };

    ghost cancels_reach = { nap_left (frame_of C.number C.work C.reaches C.watcher C.reaches_itself C.reaches_on) C.sleeps };

    ghost covers = { naps_cover (frame_of C.number C.work C.reaches C.watcher C.reaches_itself C.reaches_on) C.sleeps C.nanos C.same_number C.watches_sleeps };
}

// It needs the sources of its future, and its delay.
impl<C: WaitContext, T: Waits<C>> Waits<C> for TimeoutFor<T> {
    ghost needs = { λ f. LimitNeeds T.needs f.both };

    ghost polls_reach = { λ f c r g d. limit_reached (frame_of C.number C.work C.reaches C.watcher C.reaches_itself C.reaches_on) T.TaskFuture (part_of (frame_of C.number C.work C.reaches C.watcher C.reaches_itself C.reaches_on) T.TaskFuture T.polls_reach T.cancels_reach T.needs T.covers) C.sleeps C.nanos f.both c r g.both d };

    ghost cancels_reach = { λ f. limit_left (frame_of C.number C.work C.reaches C.watcher C.reaches_itself C.reaches_on) T.TaskFuture (part_of (frame_of C.number C.work C.reaches C.watcher C.reaches_itself C.reaches_on) T.TaskFuture T.polls_reach T.cancels_reach T.needs T.covers) C.sleeps f.both };

    ghost covers = { λ f c g d. limits_cover (frame_of C.number C.work C.reaches C.watcher C.reaches_itself C.reaches_on) T.TaskFuture (part_of (frame_of C.number C.work C.reaches C.watcher C.reaches_itself C.reaches_on) T.TaskFuture T.polls_reach T.cancels_reach T.needs T.covers) C.sleeps C.nanos C.same_number C.watches_sleeps f.both c g.both d };
}

// It needs the sources of its running attempt, or its sleep between two attempts.
impl<C, G, F, X, E> Waits<C> for Retry<G, F>
where
    C: WaitContext,
    X: Drop,
    E: Drop,
    F: Waits<C, Output = Result<X, E>>,
    G: FnMut(u64) -> F + Drop,
{
    ghost needs = { RetryNeeds F.needs };

    fn tells_its_needs(&self) {}

    ghost polls_reach = { retry_reached (frame_of C.number C.work C.reaches C.watcher C.reaches_itself C.reaches_on) F.TaskFuture (part_of (frame_of C.number C.work C.reaches C.watcher C.reaches_itself C.reaches_on) F.TaskFuture F.polls_reach F.cancels_reach F.needs F.covers) C.sleeps C.nanos G.FnMut };

    ghost cancels_reach = { retry_left (frame_of C.number C.work C.reaches C.watcher C.reaches_itself C.reaches_on) F.TaskFuture (part_of (frame_of C.number C.work C.reaches C.watcher C.reaches_itself C.reaches_on) F.TaskFuture F.polls_reach F.cancels_reach F.needs F.covers) C.sleeps };

    ghost covers = { retries_cover (frame_of C.number C.work C.reaches C.watcher C.reaches_itself C.reaches_on) F.TaskFuture (part_of (frame_of C.number C.work C.reaches C.watcher C.reaches_itself C.reaches_on) F.TaskFuture F.polls_reach F.cancels_reach F.needs F.covers) C.sleeps C.nanos G.FnMut C.same_number C.watches_sleeps };
}
