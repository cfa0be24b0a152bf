// The sources of a select of many futures.
ghost use Rattle.mono_wait.specs.Frames.{frame_of, part_of};
ghost use Rattle.mono_wait.specs.SelectLists.{RowNeeds, row_left, select_list_reached, select_lists_cover};

use crate::waits::{WaitContext, Waits};
use mono_combine::SelectList;

// It needs the sources of each branch that is left in it.
impl<C, T, G> Waits<C> for SelectList<T, G>
where
    C: WaitContext,
    T: Waits<C, Output: Drop>,
    G: Fn(u32, &T::Output) -> bool + Drop,
{
    ghost needs = { λ s. RowNeeds T.needs s.branches.items };

    fn tells_its_needs(&self) {}

    ghost polls_reach = { λ s c r t d p. select_list_reached (frame_of C.number C.work C.reaches C.watcher C.reaches_itself C.reaches_on) T.TaskFuture (part_of (frame_of C.number C.work C.reaches C.watcher C.reaches_itself C.reaches_on) T.TaskFuture T.polls_reach T.cancels_reach T.needs T.covers) G.Fn s.test s.start s.branches.items c r t.branches.items t.has_answered d p.0 };

    ghost cancels_reach = { λ s. row_left (frame_of C.number C.work C.reaches C.watcher C.reaches_itself C.reaches_on) T.TaskFuture (part_of (frame_of C.number C.work C.reaches C.watcher C.reaches_itself C.reaches_on) T.TaskFuture T.polls_reach T.cancels_reach T.needs T.covers) s.branches.items };

    ghost covers = { λ s c t d p. select_lists_cover (frame_of C.number C.work C.reaches C.watcher C.reaches_itself C.reaches_on) T.TaskFuture (part_of (frame_of C.number C.work C.reaches C.watcher C.reaches_itself C.reaches_on) T.TaskFuture T.polls_reach T.cancels_reach T.needs T.covers) G.Fn s.test s.start s.branches.items c t.branches.items t.has_answered d p.0 };
}
