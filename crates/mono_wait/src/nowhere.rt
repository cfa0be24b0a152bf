// Futures that wait at no place of the shared value.
use crate::leaves::Reaching;
use crate::placed::WaitsIn;
use crate::waits::SharedWaitContext;
use mono_forms::Ready;
use mono_sync::acts::{Act, AtOnce};
use mono_task::SharedState;
use mono_time::{Sleep, SleepFor};

// It waits for its sleep alone.
impl<W: SharedState, C: SharedWaitContext<W>> WaitsIn<W, C> for Sleep {
    ghost waits_in = { λ f p. ⊥ };

    ghost listed = { λ f c g d q p none. absurd none };
}

// It waits for its sleep alone.
impl<W: SharedState, C: SharedWaitContext<W>> WaitsIn<W, C> for SleepFor {
    ghost waits_in = { λ nap p. ⊥ };

    ghost listed = { λ f c g d q p none. absurd none };
}

// It is never pending.
impl<W: SharedState, C: SharedWaitContext<W>, A: Act<W>> WaitsIn<W, C> for Reaching<AtOnce<W, A>> {
    ghost waits_in = { λ f p. ⊥ };

    ghost listed = { λ f c g d q p none. absurd none };
}

// It is never pending.
impl<W: SharedState, C: SharedWaitContext<W>, X: Drop> WaitsIn<W, C> for Ready<X> {
    ghost waits_in = { λ f p. ⊥ };

    ghost listed = { λ f c g d q p none. absurd none };
}
