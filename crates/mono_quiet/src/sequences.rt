// The forms in sequence.
ghost use Rattle.mono_quiet.specs.Leads.{lead_left, lead_makes_none};
ghost use Rattle.mono_quiet.specs.Sequences.{flatten_left, flatten_makes_none, try_left, try_makes_none, rescue_left, rescue_makes_none};
ghost use Rattle.mono_forms.specs.Maps.{MapsOk, MapsErr};
ghost use Rattle.mono_forms.specs.Inspectors.{Sees};

use crate::futures::Quiet;
use mono_forms::{Flatten, Inspect, Map, MapErr, MapOk, TryFlatten, TryFlattenErr};
use mono_task::Context;

impl<C, U, A, F> Quiet<C> for Map<A, F>
where
    C: Context,
    A: Quiet<C>,
    F: FnOnce(A::Output) -> U + Drop,
{
    fn is_quiet(&self) {}

    ghost polls_make_none = { λ m c r n d. lead_makes_none C.work A.TaskFuture A.cancels_make_none A.polls_make_none (λ f x y. F.FnOnce.post f (x, tt) y) m.inner c r n.inner d };

    ghost cancels_make_none = { λ m. lead_left C.work A.TaskFuture A.cancels_make_none m.inner };
}

impl<C, T, E, U, A, F> Quiet<C> for MapOk<A, F>
where
    C: Context,
    A: Quiet<C, Output = Result<T, E>>,
    F: FnOnce(T) -> U + Drop,
{
    fn is_quiet(&self) {}

    ghost polls_make_none = { λ m c r n d. lead_makes_none C.work A.TaskFuture A.cancels_make_none A.polls_make_none (MapsOk F.FnOnce) m.inner c r n.inner d };

    ghost cancels_make_none = { λ m. lead_left C.work A.TaskFuture A.cancels_make_none m.inner };
}

impl<C, T, E, U, A, F> Quiet<C> for MapErr<A, F>
where
    C: Context,
    A: Quiet<C, Output = Result<T, E>>,
    F: FnOnce(E) -> U + Drop,
{
    fn is_quiet(&self) {}

    ghost polls_make_none = { λ m c r n d. lead_makes_none C.work A.TaskFuture A.cancels_make_none A.polls_make_none (MapsErr F.FnOnce) m.inner c r n.inner d };

    ghost cancels_make_none = { λ m. lead_left C.work A.TaskFuture A.cancels_make_none m.inner };
}

impl<C, A, F> Quiet<C> for Inspect<A, F>
where
    C: Context,
    A: Quiet<C>,
    F: FnOnce(&A::Output) + Drop,
{
    fn is_quiet(&self) {}

    ghost polls_make_none = { λ m c r n d. lead_makes_none C.work A.TaskFuture A.cancels_make_none A.polls_make_none (Sees F.FnOnce) m.inner c r n.inner d };

    ghost cancels_make_none = { λ m. lead_left C.work A.TaskFuture A.cancels_make_none m.inner };
}

impl<C, A, B> Quiet<C> for Flatten<A, B>
where
    C: Context,
    A: Quiet<C, Output = B>,
    B: Quiet<C>,
{
    ghost polls_make_none = { flatten_makes_none C.work A.TaskFuture B.TaskFuture A.polls_make_none A.cancels_make_none B.polls_make_none B.cancels_make_none };

    ghost cancels_make_none = { flatten_left C.work A.TaskFuture B.TaskFuture A.polls_make_none A.cancels_make_none B.polls_make_none B.cancels_make_none };
}

impl<C, A, B, U, E> Quiet<C> for TryFlatten<A, B>
where
    C: Context,
    A: Quiet<C, Output = Result<B, E>>,
    B: Quiet<C, Output = Result<U, E>>,
{
    ghost polls_make_none = { try_makes_none C.work A.TaskFuture B.TaskFuture A.polls_make_none A.cancels_make_none B.polls_make_none B.cancels_make_none };

    ghost cancels_make_none = { try_left C.work A.TaskFuture B.TaskFuture A.polls_make_none A.cancels_make_none B.polls_make_none B.cancels_make_none };
}

impl<C, A, B, T, U> Quiet<C> for TryFlattenErr<A, B>
where
    C: Context,
    A: Quiet<C, Output = Result<T, B>>,
    B: Quiet<C, Output = Result<T, U>>,
{
    ghost polls_make_none = { rescue_makes_none C.work A.TaskFuture B.TaskFuture A.polls_make_none A.cancels_make_none B.polls_make_none B.cancels_make_none };

    ghost cancels_make_none = { rescue_left C.work A.TaskFuture B.TaskFuture A.polls_make_none A.cancels_make_none B.polls_make_none B.cancels_make_none };
}
