// A future again and again.
ghost use Rattle.mono_quiet.specs.Repeats.{repeat_left, repeat_makes_none};

use crate::futures::Quiet;
use mono_forms::{Loop, Repeat};
use mono_task::Context;

impl<C, A, F, S, T> Quiet<C> for Repeat<A, F>
where
    C: Context,
    A: Quiet<C, Output = Loop<T, S>>,
    F: FnMut(S) -> A + Drop,
{
    fn is_quiet(&self) {}

    ghost polls_make_none = { repeat_makes_none C.work A.TaskFuture A.polls_make_none A.cancels_make_none F.FnMut C.number C.wakes C.reaches };

    ghost cancels_make_none = { λ m. repeat_left C.work A.TaskFuture A.cancels_make_none m.future };
}
