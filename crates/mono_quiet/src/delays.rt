// Sleeps, ticks, and futures with a deadline.
ghost use Rattle.mono_quiet.specs.Numbers.{none_at_all, same_tasks};
ghost use Rattle.mono_quiet.specs.Naps.{nap_left, nap_makes_none, limit_left, limit_makes_none};
ghost use Rattle.mono_quiet.specs.Timeouts.{timeout_left, timeout_makes_none};

use crate::futures::Quiet;
use mono_time::{Sleep, SleepFor, Tick, TimeContext, Timeout, TimeoutFor};

impl<C: TimeContext> Quiet<C> for Sleep {
    ghost polls_make_none = { λ s c r t d q. same_tasks C.work c d q.work_after };

    ghost cancels_make_none = { λ s c d q. same_tasks C.work c d q.work_after };
}

impl<C: TimeContext> Quiet<C> for Tick<'_> {
    ghost polls_make_none = { λ f c r g d q. same_tasks C.work c d q.1 };

    ghost cancels_make_none = { λ f. none_at_all C.work };
}

impl<C: TimeContext, T: Quiet<C>> Quiet<C> for Timeout<T> {
    ghost polls_make_none = { timeout_makes_none C.work C.sleeps C.reaches T.TaskFuture C.number T.polls_make_none };

    ghost cancels_make_none = { timeout_left C.work C.sleeps C.reaches T.TaskFuture T.cancels_make_none };
}

impl<C: TimeContext> Quiet<C> for SleepFor {
    ghost polls_make_none = { nap_makes_none C.work C.sleeps C.reaches C.nanos C.number };

    ghost cancels_make_none = { nap_left C.work C.sleeps C.reaches };
}

impl<C: TimeContext, T: Quiet<C>> Quiet<C> for TimeoutFor<T> {
    ghost polls_make_none = { λ f c r g d. limit_makes_none C.work C.sleeps C.reaches T.TaskFuture T.cancels_make_none C.nanos C.number T.polls_make_none f.both c r g.both d };

    ghost cancels_make_none = { λ f. limit_left C.work C.sleeps C.reaches T.TaskFuture T.cancels_make_none f.both };
}
