// Races. Those of three to five futures are nests of the race of two.
ghost use Rattle.mono_quiet.specs.Races.{race_left, race_makes_none, either_race_makes_none, race_list_left, race_list_makes_none};

use crate::futures::Quiet;
use mono_forms::{Race, RaceEither, RaceList};
use mono_task::Context;

impl<C, A, B> Quiet<C> for Race<A, B>
where
    C: Context,
    A: Quiet<C>,
    B: Quiet<C, Output = A::Output>,
{
    ghost polls_make_none = { λ f c r g d. race_makes_none C.work A.TaskFuture B.TaskFuture A.polls_make_none A.cancels_make_none B.polls_make_none B.cancels_make_none f.both c r g.both d };

    ghost cancels_make_none = { λ f. race_left C.work A.TaskFuture B.TaskFuture A.cancels_make_none B.cancels_make_none f.both };
}

impl<C: Context, A: Quiet<C>, B: Quiet<C>> Quiet<C> for RaceEither<A, B> {
    ghost polls_make_none = { λ f c r g d. either_race_makes_none C.work A.TaskFuture B.TaskFuture A.polls_make_none A.cancels_make_none B.polls_make_none B.cancels_make_none f.both c r g.both d };

    ghost cancels_make_none = { λ f. race_left C.work A.TaskFuture B.TaskFuture A.cancels_make_none B.cancels_make_none f.both };
}

impl<C: Context, T: Quiet<C>> Quiet<C> for RaceList<T> {
    ghost polls_make_none = { λ f c r g d. race_list_makes_none C.work T.TaskFuture T.cancels_make_none T.polls_make_none f.futures.items c r g.futures.items g.has_answered d };

    ghost cancels_make_none = { λ f. race_list_left C.work T.TaskFuture T.cancels_make_none f.futures.items };
}
