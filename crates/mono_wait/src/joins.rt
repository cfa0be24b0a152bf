// The sources of a future that keeps its output, and of a join.
ghost use Rattle.mono_wait.specs.Joins.{MaybeNeeds, JoinNeeds, maybe_reached, maybe_left, maybe_covers, join_reached, join_left, joins_cover};

use crate::waits::{WaitContext, Waits};
use mono_combine::{Join2, MaybeDone};

// It needs the sources of its future, and none once that has answered.
impl<C: WaitContext, X: Drop, F: Waits<C, Output = X>> Waits<C> for MaybeDone<F, X> {
    ghost needs = { MaybeNeeds F.needs };

    ghost polls_reach = { maybe_reached F.TaskFuture C.reaches C.reaches_itself C.reaches_on F.polls_reach F.cancels_reach };

    ghost cancels_reach = { maybe_left F.TaskFuture C.reaches C.reaches_itself F.cancels_reach };

    ghost covers = { maybe_covers F.TaskFuture C.number C.work C.reaches C.watcher C.reaches_itself C.reaches_on F.polls_reach F.cancels_reach F.needs F.covers };
}

// It needs the sources of each unfinished branch.
impl<C, A, B, X, Y> Waits<C> for Join2<A, B, X, Y>
where
    C: WaitContext,
    A: Waits<C, Output = X>,
    B: Waits<C, Output = Y>,
    X: Drop,
    Y: Drop,
{
    ghost needs = { JoinNeeds A.needs B.needs };

    ghost polls_reach = { join_reached A.TaskFuture B.TaskFuture C.reaches C.reaches_itself C.reaches_on A.polls_reach A.cancels_reach B.polls_reach B.cancels_reach };

    ghost cancels_reach = { join_left A.TaskFuture B.TaskFuture C.reaches C.reaches_itself C.reaches_on A.cancels_reach B.cancels_reach };

    ghost covers = { joins_cover A.TaskFuture B.TaskFuture C.number C.work C.reaches C.watcher C.reaches_itself C.reaches_on A.polls_reach A.cancels_reach B.polls_reach B.cancels_reach A.needs A.covers B.needs B.covers };
}
