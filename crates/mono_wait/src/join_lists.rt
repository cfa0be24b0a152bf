// The sources of the joins of many futures, and of a try-join of two.
ghost use Rattle.mono_combine.specs.BranchLists.{answer_as};
ghost use Rattle.mono_combine.specs.TryLists.{tried_as};
ghost use Rattle.mono_wait.specs.Frames.{frame_of, part_of};
ghost use Rattle.mono_wait.specs.JoinLists.{ListNeeds, list_left, join_list_reached, join_lists_cover, try_join_list_reached, try_join_lists_cover, TryJoinNeeds, try_join_left, try_join_reached, try_joins_cover};

use crate::waits::{WaitContext, Waits};
use mono_combine::{JoinList, TryJoin2, TryJoinList};

// It needs the sources of each unfinished branch.
impl<C, A, B, X, Y, E> Waits<C> for TryJoin2<A, B, X, Y, E>
where
    C: WaitContext,
    A: Waits<C, Output = Result<X, E>>,
    B: Waits<C, Output = Result<Y, E>>,
    X: Drop,
    Y: Drop,
    E: Drop,
{
    ghost needs = { TryJoinNeeds A.needs B.needs };

    ghost polls_reach = { try_join_reached (frame_of C.number C.work C.reaches C.watcher C.reaches_itself C.reaches_on) A.TaskFuture B.TaskFuture (part_of (frame_of C.number C.work C.reaches C.watcher C.reaches_itself C.reaches_on) A.TaskFuture A.polls_reach A.cancels_reach A.needs A.covers) (part_of (frame_of C.number C.work C.reaches C.watcher C.reaches_itself C.reaches_on) B.TaskFuture B.polls_reach B.cancels_reach B.needs B.covers) };

    ghost cancels_reach = { try_join_left (frame_of C.number C.work C.reaches C.watcher C.reaches_itself C.reaches_on) A.TaskFuture B.TaskFuture (part_of (frame_of C.number C.work C.reaches C.watcher C.reaches_itself C.reaches_on) A.TaskFuture A.polls_reach A.cancels_reach A.needs A.covers) (part_of (frame_of C.number C.work C.reaches C.watcher C.reaches_itself C.reaches_on) B.TaskFuture B.polls_reach B.cancels_reach B.needs B.covers) };

    ghost covers = { try_joins_cover (frame_of C.number C.work C.reaches C.watcher C.reaches_itself C.reaches_on) A.TaskFuture B.TaskFuture (part_of (frame_of C.number C.work C.reaches C.watcher C.reaches_itself C.reaches_on) A.TaskFuture A.polls_reach A.cancels_reach A.needs A.covers) (part_of (frame_of C.number C.work C.reaches C.watcher C.reaches_itself C.reaches_on) B.TaskFuture B.polls_reach B.cancels_reach B.needs B.covers) };
}

// It needs the sources of each unfinished branch.
impl<C: WaitContext, X: Drop, T: Waits<C, Output = X>> Waits<C> for JoinList<T, X> {
    ghost needs = { λ f. ListNeeds T.needs f.branches.items };

    ghost polls_reach = { λ f c r g d. join_list_reached (frame_of C.number C.work C.reaches C.watcher C.reaches_itself C.reaches_on) T.TaskFuture (part_of (frame_of C.number C.work C.reaches C.watcher C.reaches_itself C.reaches_on) T.TaskFuture T.polls_reach T.cancels_reach T.needs T.covers) f.branches.items c (answer_as (λ v. v.items) r) g.branches.items g.has_answered d };

    ghost cancels_reach = { λ f. list_left (frame_of C.number C.work C.reaches C.watcher C.reaches_itself C.reaches_on) T.TaskFuture (part_of (frame_of C.number C.work C.reaches C.watcher C.reaches_itself C.reaches_on) T.TaskFuture T.polls_reach T.cancels_reach T.needs T.covers) f.branches.items };

    ghost covers = { λ f c g d. join_lists_cover (frame_of C.number C.work C.reaches C.watcher C.reaches_itself C.reaches_on) T.TaskFuture (part_of (frame_of C.number C.work C.reaches C.watcher C.reaches_itself C.reaches_on) T.TaskFuture T.polls_reach T.cancels_reach T.needs T.covers) f.branches.items c g.branches.items g.has_answered d };
}

// It needs the sources of each unfinished branch.
impl<C, X, E, T> Waits<C> for TryJoinList<T, X, E>
where
    C: WaitContext,
    X: Drop,
    E: Drop,
    T: Waits<C, Output = Result<X, E>>,
{
    ghost needs = { λ f. ListNeeds T.needs f.branches.items };

    ghost polls_reach = { λ f c r g d. try_join_list_reached (frame_of C.number C.work C.reaches C.watcher C.reaches_itself C.reaches_on) T.TaskFuture (part_of (frame_of C.number C.work C.reaches C.watcher C.reaches_itself C.reaches_on) T.TaskFuture T.polls_reach T.cancels_reach T.needs T.covers) f.branches.items c (tried_as (λ v. v.items) r) g.branches.items g.has_answered d };

    ghost cancels_reach = { λ f. list_left (frame_of C.number C.work C.reaches C.watcher C.reaches_itself C.reaches_on) T.TaskFuture (part_of (frame_of C.number C.work C.reaches C.watcher C.reaches_itself C.reaches_on) T.TaskFuture T.polls_reach T.cancels_reach T.needs T.covers) f.branches.items };

    ghost covers = { λ f c g d. try_join_lists_cover (frame_of C.number C.work C.reaches C.watcher C.reaches_itself C.reaches_on) T.TaskFuture (part_of (frame_of C.number C.work C.reaches C.watcher C.reaches_itself C.reaches_on) T.TaskFuture T.polls_reach T.cancels_reach T.needs T.covers) f.branches.items c g.branches.items g.has_answered d };
}
