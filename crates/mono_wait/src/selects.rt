// The sources of a select.
ghost use Rattle.mono_wait.specs.Frames.{frame_of, part_of};
ghost use Rattle.mono_wait.specs.Leads.{LeadNeeds, lead_left, lead_reached, leads_cover};
ghost use Rattle.mono_wait.specs.Selects.{SelectNeeds, select_left, select_reached, selects_cover};
ghost use Rattle.mono_forms.specs.Bodies.{BodyLeads, ListBodyLeads};

use crate::waits::{WaitContext, Waits};
use mono_combine::{Out, Out2, Select2};
use mono_forms::{SelectBodies, SelectBodies2};

// It needs the sources of each branch that is left in it. A branch that the mask leaves out needs none.
impl<C, A, B, G, H> Waits<C> for Select2<A, B, G, H>
where
    C: WaitContext,
    A: Waits<C, Output: Drop>,
    B: Waits<C, Output: Drop>,
    G: Fn(&A::Output) -> bool + Drop,
    H: Fn(&B::Output) -> bool + Drop,
{
    ghost needs = { SelectNeeds A.needs B.needs };

    fn tells_its_needs(&self) {}

    ghost polls_reach = { select_reached A.TaskFuture B.TaskFuture C.number C.work C.reaches C.watcher C.reaches_itself C.reaches_on A.polls_reach A.cancels_reach B.polls_reach B.cancels_reach G.Fn H.Fn };

    ghost cancels_reach = { select_left A.TaskFuture B.TaskFuture C.number C.work C.reaches C.watcher C.reaches_itself C.reaches_on A.polls_reach A.cancels_reach B.polls_reach B.cancels_reach G.Fn H.Fn };

    ghost covers = { selects_cover A.TaskFuture B.TaskFuture C.number C.work C.reaches C.watcher C.reaches_itself C.reaches_on A.polls_reach A.cancels_reach B.polls_reach B.cancels_reach G.Fn H.Fn A.needs A.covers B.needs B.covers };
}

// It needs the sources of its select, until that has answered.
impl<C, X, Y, U, S, F, G, H> Waits<C> for SelectBodies2<S, F, G, H>
where
    C: WaitContext,
    S: Waits<C, Output = Out2<X, Y>>,
    F: FnOnce(X) -> U + Drop,
    G: FnOnce(Y) -> U + Drop,
    H: FnOnce() -> U + Drop,
{
    ghost needs = { λ m. LeadNeeds S.needs m.inner };

    fn tells_its_needs(&self) {}

    ghost polls_reach = { λ m c r n d. lead_reached (frame_of C.number C.work C.reaches C.watcher C.reaches_itself C.reaches_on) S.TaskFuture (part_of (frame_of C.number C.work C.reaches C.watcher C.reaches_itself C.reaches_on) S.TaskFuture S.polls_reach S.cancels_reach S.needs S.covers) (BodyLeads F.FnOnce G.FnOnce H.FnOnce) m.inner c r n.inner d };

    ghost cancels_reach = { λ m. lead_left (frame_of C.number C.work C.reaches C.watcher C.reaches_itself C.reaches_on) S.TaskFuture (part_of (frame_of C.number C.work C.reaches C.watcher C.reaches_itself C.reaches_on) S.TaskFuture S.polls_reach S.cancels_reach S.needs S.covers) m.inner };

    ghost covers = { λ m c n d. leads_cover (frame_of C.number C.work C.reaches C.watcher C.reaches_itself C.reaches_on) S.TaskFuture (part_of (frame_of C.number C.work C.reaches C.watcher C.reaches_itself C.reaches_on) S.TaskFuture S.polls_reach S.cancels_reach S.needs S.covers) (BodyLeads F.FnOnce G.FnOnce H.FnOnce) m.inner c n.inner d };
}

// It needs the sources of its select, until that has answered.
impl<C, X, U, S, F, H> Waits<C> for SelectBodies<S, F, H>
where
    C: WaitContext,
    S: Waits<C, Output = Out<X>>,
    F: FnOnce(u32, X) -> U + Drop,
    H: FnOnce() -> U + Drop,
{
    ghost needs = { λ m. LeadNeeds S.needs m.inner };

    fn tells_its_needs(&self) {}

    ghost polls_reach = { λ m c r n d. lead_reached (frame_of C.number C.work C.reaches C.watcher C.reaches_itself C.reaches_on) S.TaskFuture (part_of (frame_of C.number C.work C.reaches C.watcher C.reaches_itself C.reaches_on) S.TaskFuture S.polls_reach S.cancels_reach S.needs S.covers) (ListBodyLeads F.FnOnce H.FnOnce) m.inner c r n.inner d };

    ghost cancels_reach = { λ m. lead_left (frame_of C.number C.work C.reaches C.watcher C.reaches_itself C.reaches_on) S.TaskFuture (part_of (frame_of C.number C.work C.reaches C.watcher C.reaches_itself C.reaches_on) S.TaskFuture S.polls_reach S.cancels_reach S.needs S.covers) m.inner };

    ghost covers = { λ m c n d. leads_cover (frame_of C.number C.work C.reaches C.watcher C.reaches_itself C.reaches_on) S.TaskFuture (part_of (frame_of C.number C.work C.reaches C.watcher C.reaches_itself C.reaches_on) S.TaskFuture S.polls_reach S.cancels_reach S.needs S.covers) (ListBodyLeads F.FnOnce H.FnOnce) m.inner c n.inner d };
}
