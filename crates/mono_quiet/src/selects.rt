// Selects.
ghost use Rattle.mono_quiet.specs.Selects.{select_left, select_makes_none};
ghost use Rattle.mono_quiet.specs.ListSelects.{select_list_left, select_list_makes_none};
ghost use Rattle.mono_quiet.specs.Leads.{lead_left, lead_makes_none};
ghost use Rattle.mono_forms.specs.Bodies.{BodyLeads, ListBodyLeads};

use crate::futures::Quiet;
use mono_combine::{Out, Out2, Select2, SelectList};
use mono_forms::{SelectBodies, SelectBodies2};
use mono_task::Context;

impl<C, A, B, G, H> Quiet<C> for Select2<A, B, G, H>
where
    C: Context,
    A: Quiet<C, Output: Drop>,
    B: Quiet<C, Output: Drop>,
    G: Fn(&A::Output) -> bool + Drop,
    H: Fn(&B::Output) -> bool + Drop,
{
    fn is_quiet(&self) {}

    ghost polls_make_none = { select_makes_none C.work A.TaskFuture B.TaskFuture A.cancels_make_none B.cancels_make_none A.polls_make_none B.polls_make_none G.Fn H.Fn };

    ghost cancels_make_none = { select_left C.work A.TaskFuture B.TaskFuture A.cancels_make_none B.cancels_make_none };
}

impl<C, T, G> Quiet<C> for SelectList<T, G>
where
    C: Context,
    T: Quiet<C, Output: Drop>,
    G: Fn(u32, &T::Output) -> bool + Drop,
{
    fn is_quiet(&self) {}

    ghost polls_make_none = { λ s c r t d q. select_list_makes_none C.work T.TaskFuture T.cancels_make_none T.polls_make_none G.Fn s.test s.start s.branches.items c r t.branches.items t.has_answered d q.0 };

    ghost cancels_make_none = { λ s. select_list_left C.work T.TaskFuture T.cancels_make_none s.branches.items };
}

impl<C, X, Y, U, S, F, G, H> Quiet<C> for SelectBodies2<S, F, G, H>
where
    C: Context,
    S: Quiet<C, Output = Out2<X, Y>>,
    F: FnOnce(X) -> U + Drop,
    G: FnOnce(Y) -> U + Drop,
    H: FnOnce() -> U + Drop,
{
    fn is_quiet(&self) {}

    ghost polls_make_none = { λ m c r n d. lead_makes_none C.work S.TaskFuture S.cancels_make_none S.polls_make_none (BodyLeads F.FnOnce G.FnOnce H.FnOnce) m.inner c r n.inner d };

    ghost cancels_make_none = { λ m. lead_left C.work S.TaskFuture S.cancels_make_none m.inner };
}

impl<C, X, U, S, F, H> Quiet<C> for SelectBodies<S, F, H>
where
    C: Context,
    S: Quiet<C, Output = Out<X>>,
    F: FnOnce(u32, X) -> U + Drop,
    H: FnOnce() -> U + Drop,
{
    fn is_quiet(&self) {}

    ghost polls_make_none = { λ m c r n d. lead_makes_none C.work S.TaskFuture S.cancels_make_none S.polls_make_none (ListBodyLeads F.FnOnce H.FnOnce) m.inner c r n.inner d };

    ghost cancels_make_none = { λ m. lead_left C.work S.TaskFuture S.cancels_make_none m.inner };
}
