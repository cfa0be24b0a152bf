// The source of an interval's tick.
ghost use Rattle.mono_wait.specs.Frames.{frame_of};
ghost use Rattle.mono_wait.specs.Ticks.{TickNeeds, ticks_cover};

use crate::leaves::Reaching;
use crate::waits::{WaitContext, Waits};
use mono_time::Tick;

// It needs its interval's delay.
impl<C: WaitContext> Waits<C> for Reaching<Tick<'_>> {
    ghost needs = { λ f. TickNeeds f.future.interval.now };

    ghost polls_reach = { λ f c r g d p. p.1 };

    ghost cancels_reach = { λ f c d p. p.1 };

    ghost covers = { λ f c g d p. ticks_cover (frame_of C.number C.work C.reaches C.watcher C.reaches_itself C.reaches_on) C.nanos C.sleeps C.same_number C.watches_sleeps f.future.interval.now c g.future.interval.now d p.0 p.1 };
}
