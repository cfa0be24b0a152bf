// The sources of either of two futures, and of races.
ghost use Rattle.mono_wait.specs.Frames.{frame_of, part_of};
ghost use Rattle.mono_wait.specs.Races.{EitherNeeds, either_left, either_reached, eithers_cover, RaceNeeds, race_left, race_reached, races_cover, either_race_reached, either_races_cover};

use crate::waits::{WaitContext, Waits};
use mono_forms::{Either, Race, RaceEither};

// It needs the sources of the future that it holds.
impl<C, A, B> Waits<C> for Either<A, B>
where
    C: WaitContext,
    A: Waits<C>,
    B: Waits<C, Output = A::Output>,
{
    ghost needs = { EitherNeeds A.needs B.needs };

    ghost polls_reach = { either_reached (frame_of C.number C.work C.reaches C.watcher C.reaches_itself C.reaches_on) A.TaskFuture B.TaskFuture (part_of (frame_of C.number C.work C.reaches C.watcher C.reaches_itself C.reaches_on) A.TaskFuture A.polls_reach A.cancels_reach A.needs A.covers) (part_of (frame_of C.number C.work C.reaches C.watcher C.reaches_itself C.reaches_on) B.TaskFuture B.polls_reach B.cancels_reach B.needs B.covers) };

    ghost cancels_reach = { either_left (frame_of C.number C.work C.reaches C.watcher C.reaches_itself C.reaches_on) A.TaskFuture B.TaskFuture (part_of (frame_of C.number C.work C.reaches C.watcher C.reaches_itself C.reaches_on) A.TaskFuture A.polls_reach A.cancels_reach A.needs A.covers) (part_of (frame_of C.number C.work C.reaches C.watcher C.reaches_itself C.reaches_on) B.TaskFuture B.polls_reach B.cancels_reach B.needs B.covers) };

    ghost covers = { eithers_cover (frame_of C.number C.work C.reaches C.watcher C.reaches_itself C.reaches_on) A.TaskFuture B.TaskFuture (part_of (frame_of C.number C.work C.reaches C.watcher C.reaches_itself C.reaches_on) A.TaskFuture A.polls_reach A.cancels_reach A.needs A.covers) (part_of (frame_of C.number C.work C.reaches C.watcher C.reaches_itself C.reaches_on) B.TaskFuture B.polls_reach B.cancels_reach B.needs B.covers) };
}

// It needs the sources of both futures.
impl<C, A, B> Waits<C> for Race<A, B>
where
    C: WaitContext,
    A: Waits<C>,
    B: Waits<C, Output = A::Output>,
{
    ghost needs = { λ m. RaceNeeds A.needs B.needs m.both };

    ghost polls_reach = { λ m c r n d. race_reached (frame_of C.number C.work C.reaches C.watcher C.reaches_itself C.reaches_on) A.TaskFuture B.TaskFuture (part_of (frame_of C.number C.work C.reaches C.watcher C.reaches_itself C.reaches_on) A.TaskFuture A.polls_reach A.cancels_reach A.needs A.covers) (part_of (frame_of C.number C.work C.reaches C.watcher C.reaches_itself C.reaches_on) B.TaskFuture B.polls_reach B.cancels_reach B.needs B.covers) m.both c r n.both d };

    ghost cancels_reach = { λ m. race_left (frame_of C.number C.work C.reaches C.watcher C.reaches_itself C.reaches_on) A.TaskFuture B.TaskFuture (part_of (frame_of C.number C.work C.reaches C.watcher C.reaches_itself C.reaches_on) A.TaskFuture A.polls_reach A.cancels_reach A.needs A.covers) (part_of (frame_of C.number C.work C.reaches C.watcher C.reaches_itself C.reaches_on) B.TaskFuture B.polls_reach B.cancels_reach B.needs B.covers) m.both };

    ghost covers = { λ m c n d. races_cover (frame_of C.number C.work C.reaches C.watcher C.reaches_itself C.reaches_on) A.TaskFuture B.TaskFuture (part_of (frame_of C.number C.work C.reaches C.watcher C.reaches_itself C.reaches_on) A.TaskFuture A.polls_reach A.cancels_reach A.needs A.covers) (part_of (frame_of C.number C.work C.reaches C.watcher C.reaches_itself C.reaches_on) B.TaskFuture B.polls_reach B.cancels_reach B.needs B.covers) m.both c n.both d };
}

// It needs the sources of both futures.
impl<C, A, B> Waits<C> for RaceEither<A, B>
where
    C: WaitContext,
    A: Waits<C>,
    B: Waits<C>,
{
    ghost needs = { λ m. RaceNeeds A.needs B.needs m.both };

    ghost polls_reach = { λ m c r n d. either_race_reached (frame_of C.number C.work C.reaches C.watcher C.reaches_itself C.reaches_on) A.TaskFuture B.TaskFuture (part_of (frame_of C.number C.work C.reaches C.watcher C.reaches_itself C.reaches_on) A.TaskFuture A.polls_reach A.cancels_reach A.needs A.covers) (part_of (frame_of C.number C.work C.reaches C.watcher C.reaches_itself C.reaches_on) B.TaskFuture B.polls_reach B.cancels_reach B.needs B.covers) m.both c r n.both d };

    ghost cancels_reach = { λ m. race_left (frame_of C.number C.work C.reaches C.watcher C.reaches_itself C.reaches_on) A.TaskFuture B.TaskFuture (part_of (frame_of C.number C.work C.reaches C.watcher C.reaches_itself C.reaches_on) A.TaskFuture A.polls_reach A.cancels_reach A.needs A.covers) (part_of (frame_of C.number C.work C.reaches C.watcher C.reaches_itself C.reaches_on) B.TaskFuture B.polls_reach B.cancels_reach B.needs B.covers) m.both };

    ghost covers = { λ m c n d. either_races_cover (frame_of C.number C.work C.reaches C.watcher C.reaches_itself C.reaches_on) A.TaskFuture B.TaskFuture (part_of (frame_of C.number C.work C.reaches C.watcher C.reaches_itself C.reaches_on) A.TaskFuture A.polls_reach A.cancels_reach A.needs A.covers) (part_of (frame_of C.number C.work C.reaches C.watcher C.reaches_itself C.reaches_on) B.TaskFuture B.polls_reach B.cancels_reach B.needs B.covers) m.both c n.both d };
}
