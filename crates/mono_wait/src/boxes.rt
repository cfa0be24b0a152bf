// A future in a box.

use crate::waits::{WaitContext, Waits};
use mono_forms::Boxed;

// It needs what the future in the box needs.
impl<C: WaitContext, A: Waits<C>> Waits<C> for Boxed<A> {
    ghost needs = { λ f. A.needs f.future.value };

    ghost polls_reach = { λ f c r g d p. A.polls_reach f.future.value c r g.future.value d p };

    ghost cancels_reach = { λ f c d p. A.cancels_reach f.future.value c d p };

    ghost covers = { λ f c g d p. A.covers f.future.value c g.future.value d p };
}
