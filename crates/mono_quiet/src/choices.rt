// Either of two futures, a future in a box, and a future that may be polled after its answer.
ghost use Rattle.mono_quiet.specs.Choices.{either_left, either_makes_none, fuse_left, fuse_makes_none};

use crate::futures::Quiet;
use mono_forms::{Boxed, Either, Fuse};
use mono_task::Context;

impl<C, A, B> Quiet<C> for Either<A, B>
where
    C: Context,
    A: Quiet<C>,
    B: Quiet<C, Output = A::Output>,
{
    ghost polls_make_none = { either_makes_none C.work A.TaskFuture B.TaskFuture A.polls_make_none B.polls_make_none };

    ghost cancels_make_none = { either_left C.work A.TaskFuture B.TaskFuture A.cancels_make_none B.cancels_make_none };
}

impl<C: Context, A: Quiet<C>> Quiet<C> for Boxed<A> {
    ghost polls_make_none = { λ m c r n. A.polls_make_none m.future.value c r n.future.value };

    ghost cancels_make_none = { λ m. A.cancels_make_none m.future.value };
}

impl<C: Context, A: Quiet<C>> Quiet<C> for Fuse<A> {
    ghost polls_make_none = { λ m c r n d. fuse_makes_none C.work A.TaskFuture A.cancels_make_none A.polls_make_none m.inner c r n.inner d };

    ghost cancels_make_none = { λ m. fuse_left C.work A.TaskFuture A.cancels_make_none m.inner };
}
