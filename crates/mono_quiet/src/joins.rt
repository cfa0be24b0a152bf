// Joins. Those of three to five futures are nests of the join of two.
ghost use Rattle.mono_combine.specs.BranchLists.{answer_as};
ghost use Rattle.mono_combine.specs.TryLists.{tried_as};
ghost use Rattle.mono_quiet.specs.Joins.{maybe_left, advance_makes_none, join_left, join_makes_none, both_left, try_join_makes_none};
ghost use Rattle.mono_quiet.specs.JoinLists.{join_list_left, join_list_makes_none, try_list_makes_none};

use crate::futures::Quiet;
use mono_combine::{Join2, JoinList, MaybeDone, TryJoin2, TryJoinList};
use mono_task::Context;

impl<C: Context, X: Drop, Fut: Quiet<C, Output = X>> Quiet<C> for MaybeDone<Fut, X> {
    ghost polls_make_none = { λ m c r n d q. advance_makes_none C.work Fut.TaskFuture Fut.cancels_make_none Fut.polls_make_none m c n d q.0 };

    ghost cancels_make_none = { maybe_left C.work Fut.TaskFuture Fut.cancels_make_none };
}

impl<C, A, B, X, Y> Quiet<C> for Join2<A, B, X, Y>
where
    C: Context,
    A: Quiet<C, Output = X>,
    B: Quiet<C, Output = Y>,
    X: Drop,
    Y: Drop,
{
    ghost polls_make_none = { join_makes_none C.work A.TaskFuture B.TaskFuture A.cancels_make_none B.cancels_make_none A.polls_make_none B.polls_make_none };

    ghost cancels_make_none = { join_left C.work A.TaskFuture B.TaskFuture A.cancels_make_none B.cancels_make_none };
}

impl<C, A, B, X, Y, E> Quiet<C> for TryJoin2<A, B, X, Y, E>
where
    C: Context,
    A: Quiet<C, Output = Result<X, E>>,
    B: Quiet<C, Output = Result<Y, E>>,
    X: Drop,
    Y: Drop,
    E: Drop,
{
    ghost polls_make_none = { try_join_makes_none C.work A.TaskFuture B.TaskFuture A.cancels_make_none B.cancels_make_none A.polls_make_none B.polls_make_none };

    ghost cancels_make_none = { λ f. both_left C.work A.TaskFuture B.TaskFuture A.cancels_make_none B.cancels_make_none f.a f.b };
}

impl<C: Context, X: Drop, T: Quiet<C, Output = X>> Quiet<C> for JoinList<T, X> {
    ghost polls_make_none = { λ f c r g d. join_list_makes_none C.work T.TaskFuture T.cancels_make_none T.polls_make_none f.branches.items c (answer_as (λ v. v.items) r) g.branches.items g.has_answered d };

    ghost cancels_make_none = { λ f. join_list_left C.work T.TaskFuture T.cancels_make_none f.branches.items };
}

impl<C, X, E, T> Quiet<C> for TryJoinList<T, X, E>
where
    C: Context,
    X: Drop,
    E: Drop,
    T: Quiet<C, Output = Result<X, E>>,
{
    ghost polls_make_none = { λ f c r g d. try_list_makes_none C.work T.TaskFuture T.cancels_make_none T.polls_make_none f.branches.items c (tried_as (λ v. v.items) r) g.branches.items g.has_answered d };

    ghost cancels_make_none = { λ f. join_list_left C.work T.TaskFuture T.cancels_make_none f.branches.items };
}
