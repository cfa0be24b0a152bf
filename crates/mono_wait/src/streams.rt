// The sources of streams, and of futures made of a stream.
ghost use Rattle.std.specs.Prelude.{Option};
ghost use Rattle.mono_model.specs.declared.poll.Poll.{Poll};
ghost use Rattle.mono_stream.specs.Chains.{ThenPolls};
ghost use Rattle.mono_wait.specs.Sources.{Source, Covers};
ghost use Rattle.mono_wait.specs.Frames.{frame_of, part_of, same_reached};
ghost use Rattle.mono_wait.specs.Streams.{flow_of, iter_reached, iters_cover, map_reached, maps_cover, ThenNeeds, then_left, then_reached, thens_cover};
ghost use Rattle.mono_wait.specs.ForEaches.{for_eaches_cover};

use crate::leaves::Reaching;
use crate::waits::{WaitContext, Waits};
use mono_stream::{ForEach, Iter, Map, Next, Stream, Then};

/// A stream that exposes the sources for which it waits, as [`Waits`] does for a future.
pub trait StreamWaits<C: WaitContext>: Stream<C> {
    // the sources for which the stream waits after a pending poll
    ghost needs: { Self → Source → Type 0 };

    /// Does nothing. An impl with closures among its bounds has to write it out, since it needs one method of its own.
    fn tells_its_needs(&self) {}

    // a poll leads to a reached context, and so does giving the stream up
    ghost polls_reach: { (s : Self) (c : C) (r : Poll (Option Self.Item)) (t : Self) (d : C) → Self.polls s c r t d → C.reaches c d };

    ghost cancels_reach: { (s : Self) (c d : C) → Self.cancels s c d → C.reaches c d };

    ghost covers: { (s : Self) (c : C) (t : Self) (d : C) → Self.polls s c Poll.Pending t d → Covers C.number C.work C.reaches C.watcher c d (needs t) };
}

// It is never pending.
impl<C: WaitContext, I: Iterator> StreamWaits<C> for Iter<I> {
    ghost needs = { λ s x. ⊥ };

    ghost polls_reach = { λ s c r t d. iter_reached (frame_of C.number C.work C.reaches C.watcher C.reaches_itself C.reaches_on) I.next_gives s.iterator c r t.iterator d };

    ghost cancels_reach = { λ s. same_reached (frame_of C.number C.work C.reaches C.watcher C.reaches_itself C.reaches_on) };

    ghost covers = { λ s c t d. iters_cover (frame_of C.number C.work C.reaches C.watcher C.reaches_itself C.reaches_on) I.next_gives s.iterator c t.iterator d };
}

// It needs the sources of its stream.
impl<T, C, S, F> StreamWaits<C> for Map<S, F>
where
    C: WaitContext,
    S: StreamWaits<C>,
    F: FnMut(S::Item) -> T + Drop,
{
    ghost needs = { λ m. S.needs m.stream };

    fn tells_its_needs(&self) {}

    ghost polls_reach = { map_reached (frame_of C.number C.work C.reaches C.watcher C.reaches_itself C.reaches_on) S.Stream (flow_of (frame_of C.number C.work C.reaches C.watcher C.reaches_itself C.reaches_on) S.Stream S.polls_reach S.cancels_reach S.needs S.covers) F.FnMut };

    ghost cancels_reach = { λ m. S.cancels_reach m.stream };

    ghost covers = { maps_cover (frame_of C.number C.work C.reaches C.watcher C.reaches_itself C.reaches_on) S.Stream (flow_of (frame_of C.number C.work C.reaches C.watcher C.reaches_itself C.reaches_on) S.Stream S.polls_reach S.cancels_reach S.needs S.covers) F.FnMut };
}

// It needs the sources of the future that was made, or else of its stream.
impl<C, S, F, Fut> StreamWaits<C> for Then<S, F, Fut>
where
    C: WaitContext,
    S: StreamWaits<C>,
    Fut: Waits<C>,
    F: FnMut(S::Item) -> Fut + Drop,
{
    ghost needs = { ThenNeeds S.needs Fut.needs };

    fn tells_its_needs(&self) {}

    ghost polls_reach = { then_reached (frame_of C.number C.work C.reaches C.watcher C.reaches_itself C.reaches_on) S.Stream Fut.TaskFuture (flow_of (frame_of C.number C.work C.reaches C.watcher C.reaches_itself C.reaches_on) S.Stream S.polls_reach S.cancels_reach S.needs S.covers) (part_of (frame_of C.number C.work C.reaches C.watcher C.reaches_itself C.reaches_on) Fut.TaskFuture Fut.polls_reach Fut.cancels_reach Fut.needs Fut.covers) F.FnMut };

    ghost cancels_reach = { then_left (frame_of C.number C.work C.reaches C.watcher C.reaches_itself C.reaches_on) S.Stream Fut.TaskFuture (flow_of (frame_of C.number C.work C.reaches C.watcher C.reaches_itself C.reaches_on) S.Stream S.polls_reach S.cancels_reach S.needs S.covers) (part_of (frame_of C.number C.work C.reaches C.watcher C.reaches_itself C.reaches_on) Fut.TaskFuture Fut.polls_reach Fut.cancels_reach Fut.needs Fut.covers) F.FnMut };

    ghost covers = { thens_cover (frame_of C.number C.work C.reaches C.watcher C.reaches_itself C.reaches_on) S.Stream Fut.TaskFuture (flow_of (frame_of C.number C.work C.reaches C.watcher C.reaches_itself C.reaches_on) S.Stream S.polls_reach S.cancels_reach S.needs S.covers) (part_of (frame_of C.number C.work C.reaches C.watcher C.reaches_itself C.reaches_on) Fut.TaskFuture Fut.polls_reach Fut.cancels_reach Fut.needs Fut.covers) F.FnMut };
}

// It needs the sources of the stream to which it points.
impl<C: WaitContext, S: StreamWaits<C>> StreamWaits<C> for &mut S {
    ghost needs = { λ s. S.needs s.now };

    ghost polls_reach = { λ s c r t d. S.polls_reach s.now c r t.now d };

    ghost cancels_reach = { λ s. same_reached (frame_of C.number C.work C.reaches C.watcher C.reaches_itself C.reaches_on) };

    ghost covers = { λ s c t d. S.covers s.now c t.now d };
}

// It needs the sources of its stream.
impl<C: WaitContext, S: StreamWaits<C>> Waits<C> for Next<'_, S> {
    ghost needs = { λ f. S.needs f.stream.now };

    ghost polls_reach = { λ f c r g d p. S.polls_reach f.stream.now c r g.stream.now d p.0 };

    ghost cancels_reach = { λ f. same_reached (frame_of C.number C.work C.reaches C.watcher C.reaches_itself C.reaches_on) };

    ghost covers = { λ f c g d p. S.covers f.stream.now c g.stream.now d p.0 };
}

// It needs the sources of the future that was made, or else of its stream.
impl<C, S, F, Fut> Waits<C> for Reaching<ForEach<S, F, Fut>>
where
    C: WaitContext,
    S: StreamWaits<C>,
    Fut: Waits<C, Output = ()>,
    F: FnMut(S::Item) -> Fut + Drop,
{
    ghost needs = { λ f. ThenNeeds S.needs Fut.needs f.future.items };

    fn tells_its_needs(&self) {}

    ghost polls_reach = { λ f c r g d p. p.1 };

    ghost cancels_reach = { λ f c d p. p.1 };

    ghost covers = { λ f c g d p. for_eaches_cover (frame_of C.number C.work C.reaches C.watcher C.reaches_itself C.reaches_on) (ThenPolls S.Stream Fut.TaskFuture F.FnMut) (then_reached (frame_of C.number C.work C.reaches C.watcher C.reaches_itself C.reaches_on) S.Stream Fut.TaskFuture (flow_of (frame_of C.number C.work C.reaches C.watcher C.reaches_itself C.reaches_on) S.Stream S.polls_reach S.cancels_reach S.needs S.covers) (part_of (frame_of C.number C.work C.reaches C.watcher C.reaches_itself C.reaches_on) Fut.TaskFuture Fut.polls_reach Fut.cancels_reach Fut.needs Fut.covers) F.FnMut) C.wakes C.same_number C.wakes_stir (ThenNeeds S.needs Fut.needs) (thens_cover (frame_of C.number C.work C.reaches C.watcher C.reaches_itself C.reaches_on) S.Stream Fut.TaskFuture (flow_of (frame_of C.number C.work C.reaches C.watcher C.reaches_itself C.reaches_on) S.Stream S.polls_reach S.cancels_reach S.needs S.covers) (part_of (frame_of C.number C.work C.reaches C.watcher C.reaches_itself C.reaches_on) Fut.TaskFuture Fut.polls_reach Fut.cancels_reach Fut.needs Fut.covers) F.FnMut) p.0.0 f.future.items c g.future.items p.0.1 g.future.has_ended d p.0.2 p.0.3 p.1 };
}
