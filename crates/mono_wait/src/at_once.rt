// A future that makes one call on a shared value waits for nothing.
ghost use Rattle.mono_wait.specs.Performs.{never_pending};

use crate::leaves::Reaching;
use crate::waits::{SharedWaitContext, Waits};
use mono_sync::acts::{Act, AtOnce};
use mono_task::SharedState;

// It is never pending.
impl<W: SharedState, C: SharedWaitContext<W>, A: Act<W>> Waits<C> for Reaching<AtOnce<W, A>> {
    ghost needs = { λ f x. ⊥ };

    ghost polls_reach = { λ f c r g d p. p.1 };

    ghost cancels_reach = { λ f c d p. p.1 };

    ghost covers = { λ f c g d p. absurd (never_pending A.acts C.shared C.work f.future.act c g.future.act d p.0) };
}
