// The sources of one of three to five unlike futures.
ghost use Rattle.mono_wait.specs.Frames.{frame_of, part_of};
ghost use Rattle.mono_wait.specs.Unlikes.{One3Needs, one3_left, one3_reached, ones3_cover, One4Needs, one4_left, one4_reached, ones4_cover, One5Needs, one5_left, one5_reached, ones5_cover};

use crate::waits::{WaitContext, Waits};
use mono_combine::{OneOf3, OneOf4, OneOf5};

// It needs the sources of the future that it holds.
impl<C, A, B, D> Waits<C> for OneOf3<A, B, D>
where
    C: WaitContext,
    A: Waits<C>,
    B: Waits<C>,
    D: Waits<C>,
{
    ghost needs = { One3Needs A.needs B.needs D.needs };

    ghost polls_reach = { one3_reached (frame_of C.number C.work C.reaches C.watcher C.reaches_itself C.reaches_on) A.TaskFuture B.TaskFuture D.TaskFuture (part_of (frame_of C.number C.work C.reaches C.watcher C.reaches_itself C.reaches_on) A.TaskFuture A.polls_reach A.cancels_reach A.needs A.covers) (part_of (frame_of C.number C.work C.reaches C.watcher C.reaches_itself C.reaches_on) B.TaskFuture B.polls_reach B.cancels_reach B.needs B.covers) (part_of (frame_of C.number C.work C.reaches C.watcher C.reaches_itself C.reaches_on) D.TaskFuture D.polls_reach D.cancels_reach D.needs D.covers) };

    ghost cancels_reach = { one3_left (frame_of C.number C.work C.reaches C.watcher C.reaches_itself C.reaches_on) A.TaskFuture B.TaskFuture D.TaskFuture (part_of (frame_of C.number C.work C.reaches C.watcher C.reaches_itself C.reaches_on) A.TaskFuture A.polls_reach A.cancels_reach A.needs A.covers) (part_of (frame_of C.number C.work C.reaches C.watcher C.reaches_itself C.reaches_on) B.TaskFuture B.polls_reach B.cancels_reach B.needs B.covers) (part_of (frame_of C.number C.work C.reaches C.watcher C.reaches_itself C.reaches_on) D.TaskFuture D.polls_reach D.cancels_reach D.needs D.covers) };

    ghost covers = { ones3_cover (frame_of C.number C.work C.reaches C.watcher C.reaches_itself C.reaches_on) A.TaskFuture B.TaskFuture D.TaskFuture (part_of (frame_of C.number C.work C.reaches C.watcher C.reaches_itself C.reaches_on) A.TaskFuture A.polls_reach A.cancels_reach A.needs A.covers) (part_of (frame_of C.number C.work C.reaches C.watcher C.reaches_itself C.reaches_on) B.TaskFuture B.polls_reach B.cancels_reach B.needs B.covers) (part_of (frame_of C.number C.work C.reaches C.watcher C.reaches_itself C.reaches_on) D.TaskFuture D.polls_reach D.cancels_reach D.needs D.covers) };
}

// It needs the sources of the future that it holds.
impl<C, A, B, D, E> Waits<C> for OneOf4<A, B, D, E>
where
    C: WaitContext,
    A: Waits<C>,
    B: Waits<C>,
    D: Waits<C>,
    E: Waits<C>,
{
    ghost needs = { One4Needs A.needs B.needs D.needs E.needs };

    ghost polls_reach = { one4_reached (frame_of C.number C.work C.reaches C.watcher C.reaches_itself C.reaches_on) A.TaskFuture B.TaskFuture D.TaskFuture E.TaskFuture (part_of (frame_of C.number C.work C.reaches C.watcher C.reaches_itself C.reaches_on) A.TaskFuture A.polls_reach A.cancels_reach A.needs A.covers) (part_of (frame_of C.number C.work C.reaches C.watcher C.reaches_itself C.reaches_on) B.TaskFuture B.polls_reach B.cancels_reach B.needs B.covers) (part_of (frame_of C.number C.work C.reaches C.watcher C.reaches_itself C.reaches_on) D.TaskFuture D.polls_reach D.cancels_reach D.needs D.covers) (part_of (frame_of C.number C.work C.reaches C.watcher C.reaches_itself C.reaches_on) E.TaskFuture E.polls_reach E.cancels_reach E.needs E.covers) };

    ghost cancels_reach = { one4_left (frame_of C.number C.work C.reaches C.watcher C.reaches_itself C.reaches_on) A.TaskFuture B.TaskFuture D.TaskFuture E.TaskFuture (part_of (frame_of C.number C.work C.reaches C.watcher C.reaches_itself C.reaches_on) A.TaskFuture A.polls_reach A.cancels_reach A.needs A.covers) (part_of (frame_of C.number C.work C.reaches C.watcher C.reaches_itself C.reaches_on) B.TaskFuture B.polls_reach B.cancels_reach B.needs B.covers) (part_of (frame_of C.number C.work C.reaches C.watcher C.reaches_itself C.reaches_on) D.TaskFuture D.polls_reach D.cancels_reach D.needs D.covers) (part_of (frame_of C.number C.work C.reaches C.watcher C.reaches_itself C.reaches_on) E.TaskFuture E.polls_reach E.cancels_reach E.needs E.covers) };

    ghost covers = { ones4_cover (frame_of C.number C.work C.reaches C.watcher C.reaches_itself C.reaches_on) A.TaskFuture B.TaskFuture D.TaskFuture E.TaskFuture (part_of (frame_of C.number C.work C.reaches C.watcher C.reaches_itself C.reaches_on) A.TaskFuture A.polls_reach A.cancels_reach A.needs A.covers) (part_of (frame_of C.number C.work C.reaches C.watcher C.reaches_itself C.reaches_on) B.TaskFuture B.polls_reach B.cancels_reach B.needs B.covers) (part_of (frame_of C.number C.work C.reaches C.watcher C.reaches_itself C.reaches_on) D.TaskFuture D.polls_reach D.cancels_reach D.needs D.covers) (part_of (frame_of C.number C.work C.reaches C.watcher C.reaches_itself C.reaches_on) E.TaskFuture E.polls_reach E.cancels_reach E.needs E.covers) };
}

// It needs the sources of the future that it holds.
impl<C, A, B, D, E, F> Waits<C> for OneOf5<A, B, D, E, F>
where
    C: WaitContext,
    A: Waits<C>,
    B: Waits<C>,
    D: Waits<C>,
    E: Waits<C>,
    F: Waits<C>,
{
    ghost needs = { One5Needs A.needs B.needs D.needs E.needs F.needs };

    ghost polls_reach = { one5_reached (frame_of C.number C.work C.reaches C.watcher C.reaches_itself C.reaches_on) A.TaskFuture B.TaskFuture D.TaskFuture E.TaskFuture F.TaskFuture (part_of (frame_of C.number C.work C.reaches C.watcher C.reaches_itself C.reaches_on) A.TaskFuture A.polls_reach A.cancels_reach A.needs A.covers) (part_of (frame_of C.number C.work C.reaches C.watcher C.reaches_itself C.reaches_on) B.TaskFuture B.polls_reach B.cancels_reach B.needs B.covers) (part_of (frame_of C.number C.work C.reaches C.watcher C.reaches_itself C.reaches_on) D.TaskFuture D.polls_reach D.cancels_reach D.needs D.covers) (part_of (frame_of C.number C.work C.reaches C.watcher C.reaches_itself C.reaches_on) E.TaskFuture E.polls_reach E.cancels_reach E.needs E.covers) (part_of (frame_of C.number C.work C.reaches C.watcher C.reaches_itself C.reaches_on) F.TaskFuture F.polls_reach F.cancels_reach F.needs F.covers) };

    ghost cancels_reach = { one5_left (frame_of C.number C.work C.reaches C.watcher C.reaches_itself C.reaches_on) A.TaskFuture B.TaskFuture D.TaskFuture E.TaskFuture F.TaskFuture (part_of (frame_of C.number C.work C.reaches C.watcher C.reaches_itself C.reaches_on) A.TaskFuture A.polls_reach A.cancels_reach A.needs A.covers) (part_of (frame_of C.number C.work C.reaches C.watcher C.reaches_itself C.reaches_on) B.TaskFuture B.polls_reach B.cancels_reach B.needs B.covers) (part_of (frame_of C.number C.work C.reaches C.watcher C.reaches_itself C.reaches_on) D.TaskFuture D.polls_reach D.cancels_reach D.needs D.covers) (part_of (frame_of C.number C.work C.reaches C.watcher C.reaches_itself C.reaches_on) E.TaskFuture E.polls_reach E.cancels_reach E.needs E.covers) (part_of (frame_of C.number C.work C.reaches C.watcher C.reaches_itself C.reaches_on) F.TaskFuture F.polls_reach F.cancels_reach F.needs F.covers) };

    ghost covers = { ones5_cover (frame_of C.number C.work C.reaches C.watcher C.reaches_itself C.reaches_on) A.TaskFuture B.TaskFuture D.TaskFuture E.TaskFuture F.TaskFuture (part_of (frame_of C.number C.work C.reaches C.watcher C.reaches_itself C.reaches_on) A.TaskFuture A.polls_reach A.cancels_reach A.needs A.covers) (part_of (frame_of C.number C.work C.reaches C.watcher C.reaches_itself C.reaches_on) B.TaskFuture B.polls_reach B.cancels_reach B.needs B.covers) (part_of (frame_of C.number C.work C.reaches C.watcher C.reaches_itself C.reaches_on) D.TaskFuture D.polls_reach D.cancels_reach D.needs D.covers) (part_of (frame_of C.number C.work C.reaches C.watcher C.reaches_itself C.reaches_on) E.TaskFuture E.polls_reach E.cancels_reach E.needs E.covers) (part_of (frame_of C.number C.work C.reaches C.watcher C.reaches_itself C.reaches_on) F.TaskFuture F.polls_reach F.cancels_reach F.needs F.covers) };
}
