// The sources of the forms in sequence.
ghost use Rattle.mono_wait.specs.Frames.{frame_of, part_of, same_reached};
ghost use Rattle.mono_wait.specs.Leads.{LeadNeeds, lead_left, lead_reached, leads_cover};
ghost use Rattle.mono_wait.specs.Sequences.{FlattenNeeds, flatten_left, flatten_reached, flattens_cover, TryNeeds, try_left, try_reached, tries_cover, RescueNeeds, rescue_left, rescue_reached, rescues_cover};
ghost use Rattle.mono_wait.specs.Repeats.{RepeatNeeds, repeat_left, repeat_reached, repeats_cover};
ghost use Rattle.mono_wait.specs.Yields.{yield_reached, yields_cover, ready_reached, readies_cover, lazy_reached, lazies_cover, spawn_reached, spawns_cover};
ghost use Rattle.mono_forms.specs.Maps.{MapsOk, MapsErr};
ghost use Rattle.mono_forms.specs.Inspectors.{Sees};

use crate::waits::{WaitContext, Waits};
use mono_forms::{
    Flatten, Inspect, Lazy, LazySpawn, Loop, Map, MapErr, MapOk, Ready, Repeat, TryFlatten,
    TryFlattenErr, YieldNow,
};
use mono_task::SpawnContext;

// It needs the sources of its future.
impl<C, U, A, F> Waits<C> for Map<A, F>
where
    C: WaitContext,
    A: Waits<C>,
    F: FnOnce(A::Output) -> U + Drop,
{
    ghost needs = { λ m. LeadNeeds A.needs m.inner };

    fn tells_its_needs(&self) {}

    ghost polls_reach = { λ m c r n d. lead_reached (frame_of C.number C.work C.reaches C.watcher C.reaches_itself C.reaches_on) A.TaskFuture (part_of (frame_of C.number C.work C.reaches C.watcher C.reaches_itself C.reaches_on) A.TaskFuture A.polls_reach A.cancels_reach A.needs A.covers) (λ f x y. F.FnOnce.post f (x, tt) y) m.inner c r n.inner d };

    ghost cancels_reach = { λ m. lead_left (frame_of C.number C.work C.reaches C.watcher C.reaches_itself C.reaches_on) A.TaskFuture (part_of (frame_of C.number C.work C.reaches C.watcher C.reaches_itself C.reaches_on) A.TaskFuture A.polls_reach A.cancels_reach A.needs A.covers) m.inner };

    ghost covers = { λ m c n d. leads_cover (frame_of C.number C.work C.reaches C.watcher C.reaches_itself C.reaches_on) A.TaskFuture (part_of (frame_of C.number C.work C.reaches C.watcher C.reaches_itself C.reaches_on) A.TaskFuture A.polls_reach A.cancels_reach A.needs A.covers) (λ f x y. F.FnOnce.post f (x, tt) y) m.inner c n.inner d };
}

// It needs the sources of its future.
impl<C, T, E, U, A, F> Waits<C> for MapOk<A, F>
where
    C: WaitContext,
    A: Waits<C, Output = Result<T, E>>,
    F: FnOnce(T) -> U + Drop,
{
    ghost needs = { λ m. LeadNeeds A.needs m.inner };

    fn tells_its_needs(&self) {}

    ghost polls_reach = { λ m c r n d. lead_reached (frame_of C.number C.work C.reaches C.watcher C.reaches_itself C.reaches_on) A.TaskFuture (part_of (frame_of C.number C.work C.reaches C.watcher C.reaches_itself C.reaches_on) A.TaskFuture A.polls_reach A.cancels_reach A.needs A.covers) (MapsOk F.FnOnce) m.inner c r n.inner d };

    ghost cancels_reach = { λ m. lead_left (frame_of C.number C.work C.reaches C.watcher C.reaches_itself C.reaches_on) A.TaskFuture (part_of (frame_of C.number C.work C.reaches C.watcher C.reaches_itself C.reaches_on) A.TaskFuture A.polls_reach A.cancels_reach A.needs A.covers) m.inner };

    ghost covers = { λ m c n d. leads_cover (frame_of C.number C.work C.reaches C.watcher C.reaches_itself C.reaches_on) A.TaskFuture (part_of (frame_of C.number C.work C.reaches C.watcher C.reaches_itself C.reaches_on) A.TaskFuture A.polls_reach A.cancels_reach A.needs A.covers) (MapsOk F.FnOnce) m.inner c n.inner d };
}

// It needs the sources of its future.
impl<C, T, E, U, A, F> Waits<C> for MapErr<A, F>
where
    C: WaitContext,
    A: Waits<C, Output = Result<T, E>>,
    F: FnOnce(E) -> U + Drop,
{
    ghost needs = { λ m. LeadNeeds A.needs m.inner };

    fn tells_its_needs(&self) {}

    ghost polls_reach = { λ m c r n d. lead_reached (frame_of C.number C.work C.reaches C.watcher C.reaches_itself C.reaches_on) A.TaskFuture (part_of (frame_of C.number C.work C.reaches C.watcher C.reaches_itself C.reaches_on) A.TaskFuture A.polls_reach A.cancels_reach A.needs A.covers) (MapsErr F.FnOnce) m.inner c r n.inner d };

    ghost cancels_reach = { λ m. lead_left (frame_of C.number C.work C.reaches C.watcher C.reaches_itself C.reaches_on) A.TaskFuture (part_of (frame_of C.number C.work C.reaches C.watcher C.reaches_itself C.reaches_on) A.TaskFuture A.polls_reach A.cancels_reach A.needs A.covers) m.inner };

    ghost covers = { λ m c n d. leads_cover (frame_of C.number C.work C.reaches C.watcher C.reaches_itself C.reaches_on) A.TaskFuture (part_of (frame_of C.number C.work C.reaches C.watcher C.reaches_itself C.reaches_on) A.TaskFuture A.polls_reach A.cancels_reach A.needs A.covers) (MapsErr F.FnOnce) m.inner c n.inner d };
}

// It needs the sources of its future.
impl<C, A, F> Waits<C> for Inspect<A, F>
where
    C: WaitContext,
    A: Waits<C>,
    F: FnOnce(&A::Output) + Drop,
{
    ghost needs = { λ m. LeadNeeds A.needs m.inner };

    fn tells_its_needs(&self) {}

    ghost polls_reach = { λ m c r n d. lead_reached (frame_of C.number C.work C.reaches C.watcher C.reaches_itself C.reaches_on) A.TaskFuture (part_of (frame_of C.number C.work C.reaches C.watcher C.reaches_itself C.reaches_on) A.TaskFuture A.polls_reach A.cancels_reach A.needs A.covers) (Sees F.FnOnce) m.inner c r n.inner d };

    ghost cancels_reach = { λ m. lead_left (frame_of C.number C.work C.reaches C.watcher C.reaches_itself C.reaches_on) A.TaskFuture (part_of (frame_of C.number C.work C.reaches C.watcher C.reaches_itself C.reaches_on) A.TaskFuture A.polls_reach A.cancels_reach A.needs A.covers) m.inner };

    ghost covers = { λ m c n d. leads_cover (frame_of C.number C.work C.reaches C.watcher C.reaches_itself C.reaches_on) A.TaskFuture (part_of (frame_of C.number C.work C.reaches C.watcher C.reaches_itself C.reaches_on) A.TaskFuture A.polls_reach A.cancels_reach A.needs A.covers) (Sees F.FnOnce) m.inner c n.inner d };
}

// It needs the sources of its present step.
impl<C, A, B> Waits<C> for Flatten<A, B>
where
    C: WaitContext,
    A: Waits<C, Output = B>,
    B: Waits<C>,
{
    ghost needs = { FlattenNeeds A.needs B.needs };

    ghost polls_reach = { flatten_reached (frame_of C.number C.work C.reaches C.watcher C.reaches_itself C.reaches_on) A.TaskFuture B.TaskFuture (part_of (frame_of C.number C.work C.reaches C.watcher C.reaches_itself C.reaches_on) A.TaskFuture A.polls_reach A.cancels_reach A.needs A.covers) (part_of (frame_of C.number C.work C.reaches C.watcher C.reaches_itself C.reaches_on) B.TaskFuture B.polls_reach B.cancels_reach B.needs B.covers) };

    ghost cancels_reach = { flatten_left (frame_of C.number C.work C.reaches C.watcher C.reaches_itself C.reaches_on) A.TaskFuture B.TaskFuture (part_of (frame_of C.number C.work C.reaches C.watcher C.reaches_itself C.reaches_on) A.TaskFuture A.polls_reach A.cancels_reach A.needs A.covers) (part_of (frame_of C.number C.work C.reaches C.watcher C.reaches_itself C.reaches_on) B.TaskFuture B.polls_reach B.cancels_reach B.needs B.covers) };

    ghost covers = { flattens_cover (frame_of C.number C.work C.reaches C.watcher C.reaches_itself C.reaches_on) A.TaskFuture B.TaskFuture (part_of (frame_of C.number C.work C.reaches C.watcher C.reaches_itself C.reaches_on) A.TaskFuture A.polls_reach A.cancels_reach A.needs A.covers) (part_of (frame_of C.number C.work C.reaches C.watcher C.reaches_itself C.reaches_on) B.TaskFuture B.polls_reach B.cancels_reach B.needs B.covers) };
}

// It needs the sources of its present step.
impl<C, A, B, U, E> Waits<C> for TryFlatten<A, B>
where
    C: WaitContext,
    A: Waits<C, Output = Result<B, E>>,
    B: Waits<C, Output = Result<U, E>>,
{
    ghost needs = { TryNeeds A.needs B.needs };

    ghost polls_reach = { try_reached (frame_of C.number C.work C.reaches C.watcher C.reaches_itself C.reaches_on) A.TaskFuture B.TaskFuture (part_of (frame_of C.number C.work C.reaches C.watcher C.reaches_itself C.reaches_on) A.TaskFuture A.polls_reach A.cancels_reach A.needs A.covers) (part_of (frame_of C.number C.work C.reaches C.watcher C.reaches_itself C.reaches_on) B.TaskFuture B.polls_reach B.cancels_reach B.needs B.covers) };

    ghost cancels_reach = { try_left (frame_of C.number C.work C.reaches C.watcher C.reaches_itself C.reaches_on) A.TaskFuture B.TaskFuture (part_of (frame_of C.number C.work C.reaches C.watcher C.reaches_itself C.reaches_on) A.TaskFuture A.polls_reach A.cancels_reach A.needs A.covers) (part_of (frame_of C.number C.work C.reaches C.watcher C.reaches_itself C.reaches_on) B.TaskFuture B.polls_reach B.cancels_reach B.needs B.covers) };

    ghost covers = { tries_cover (frame_of C.number C.work C.reaches C.watcher C.reaches_itself C.reaches_on) A.TaskFuture B.TaskFuture (part_of (frame_of C.number C.work C.reaches C.watcher C.reaches_itself C.reaches_on) A.TaskFuture A.polls_reach A.cancels_reach A.needs A.covers) (part_of (frame_of C.number C.work C.reaches C.watcher C.reaches_itself C.reaches_on) B.TaskFuture B.polls_reach B.cancels_reach B.needs B.covers) };
}

// It needs the sources of its present step.
impl<C, A, B, T, U> Waits<C> for TryFlattenErr<A, B>
where
    C: WaitContext,
    A: Waits<C, Output = Result<T, B>>,
    B: Waits<C, Output = Result<T, U>>,
{
    ghost needs = { RescueNeeds A.needs B.needs };

    ghost polls_reach = { rescue_reached (frame_of C.number C.work C.reaches C.watcher C.reaches_itself C.reaches_on) A.TaskFuture B.TaskFuture (part_of (frame_of C.number C.work C.reaches C.watcher C.reaches_itself C.reaches_on) A.TaskFuture A.polls_reach A.cancels_reach A.needs A.covers) (part_of (frame_of C.number C.work C.reaches C.watcher C.reaches_itself C.reaches_on) B.TaskFuture B.polls_reach B.cancels_reach B.needs B.covers) };

    ghost cancels_reach = { rescue_left (frame_of C.number C.work C.reaches C.watcher C.reaches_itself C.reaches_on) A.TaskFuture B.TaskFuture (part_of (frame_of C.number C.work C.reaches C.watcher C.reaches_itself C.reaches_on) A.TaskFuture A.polls_reach A.cancels_reach A.needs A.covers) (part_of (frame_of C.number C.work C.reaches C.watcher C.reaches_itself C.reaches_on) B.TaskFuture B.polls_reach B.cancels_reach B.needs B.covers) };

    ghost covers = { rescues_cover (frame_of C.number C.work C.reaches C.watcher C.reaches_itself C.reaches_on) A.TaskFuture B.TaskFuture (part_of (frame_of C.number C.work C.reaches C.watcher C.reaches_itself C.reaches_on) A.TaskFuture A.polls_reach A.cancels_reach A.needs A.covers) (part_of (frame_of C.number C.work C.reaches C.watcher C.reaches_itself C.reaches_on) B.TaskFuture B.polls_reach B.cancels_reach B.needs B.covers) };
}

// It needs the sources of its running future.
impl<C, A, F, S, T> Waits<C> for Repeat<A, F>
where
    C: WaitContext,
    A: Waits<C, Output = Loop<T, S>>,
    F: FnMut(S) -> A + Drop,
{
    ghost needs = { RepeatNeeds A.needs };

    fn tells_its_needs(&self) {}

    ghost polls_reach = { repeat_reached (frame_of C.number C.work C.reaches C.watcher C.reaches_itself C.reaches_on) A.TaskFuture (part_of (frame_of C.number C.work C.reaches C.watcher C.reaches_itself C.reaches_on) A.TaskFuture A.polls_reach A.cancels_reach A.needs A.covers) F.FnMut C.wakes C.same_number };

    ghost cancels_reach = { λ m. repeat_left (frame_of C.number C.work C.reaches C.watcher C.reaches_itself C.reaches_on) A.TaskFuture (part_of (frame_of C.number C.work C.reaches C.watcher C.reaches_itself C.reaches_on) A.TaskFuture A.polls_reach A.cancels_reach A.needs A.covers) m.future };

    ghost covers = { repeats_cover (frame_of C.number C.work C.reaches C.watcher C.reaches_itself C.reaches_on) A.TaskFuture (part_of (frame_of C.number C.work C.reaches C.watcher C.reaches_itself C.reaches_on) A.TaskFuture A.polls_reach A.cancels_reach A.needs A.covers) F.FnMut C.wakes C.same_number };
}

// It needs no source: it wakes its own task.
impl<C: WaitContext> Waits<C> for YieldNow {
    ghost needs = { λ f x. ⊥ };

    ghost polls_reach = { yield_reached (frame_of C.number C.work C.reaches C.watcher C.reaches_itself C.reaches_on) C.wakes C.same_number };

    ghost cancels_reach = { λ f. same_reached (frame_of C.number C.work C.reaches C.watcher C.reaches_itself C.reaches_on) };

    ghost covers = { yields_cover (frame_of C.number C.work C.reaches C.watcher C.reaches_itself C.reaches_on) C.wakes C.same_number };
}

// It is never pending.
impl<T: Drop, C: WaitContext> Waits<C> for Ready<T> {
    ghost needs = { λ f x. ⊥ };

    ghost polls_reach = { λ f c r g d. ready_reached (frame_of C.number C.work C.reaches C.watcher C.reaches_itself C.reaches_on) f.value c r g.value d };

    ghost cancels_reach = { λ f. same_reached (frame_of C.number C.work C.reaches C.watcher C.reaches_itself C.reaches_on) };

    ghost covers = { λ f c g d. readies_cover (frame_of C.number C.work C.reaches C.watcher C.reaches_itself C.reaches_on) f.value c g.value d };
}

// It is never pending.
impl<C, T, F> Waits<C> for Lazy<F>
where
    C: WaitContext,
    F: FnOnce() -> T + Drop,
{
    ghost needs = { λ f x. ⊥ };

    fn tells_its_needs(&self) {}

    ghost polls_reach = { λ f c r g d. lazy_reached (frame_of C.number C.work C.reaches C.watcher C.reaches_itself C.reaches_on) F.FnOnce f.func c r g.func d };

    ghost cancels_reach = { λ f. same_reached (frame_of C.number C.work C.reaches C.watcher C.reaches_itself C.reaches_on) };

    ghost covers = { λ f c g d. lazies_cover (frame_of C.number C.work C.reaches C.watcher C.reaches_itself C.reaches_on) F.FnOnce f.func c g.func d };
}

// It is never pending.
impl<C, G, F, O> Waits<C> for LazySpawn<G, O>
where
    C: WaitContext + SpawnContext<O, Future = F>,
    F: From<G> + Drop,
    G: Drop,
    O: Drop,
{
    ghost needs = { λ m x. ⊥ };

    ghost polls_reach = { λ m c r n d. spawn_reached (frame_of C.number C.work C.reaches C.watcher C.reaches_itself C.reaches_on) F.from_gives C.tasks m.future c r n.future d };

    ghost cancels_reach = { λ m. same_reached (frame_of C.number C.work C.reaches C.watcher C.reaches_itself C.reaches_on) };

    ghost covers = { λ m c n d. spawns_cover (frame_of C.number C.work C.reaches C.watcher C.reaches_itself C.reaches_on) F.from_gives C.tasks m.future c n.future d };
}
