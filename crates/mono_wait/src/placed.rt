// The places of a shared value at which futures wait.
ghost use Rattle.std.specs.Prelude.{◌≡◌, ℕ, true, List, [], ◌∷◌};
ghost use Rattle.mono_model.specs.declared.poll.Poll.{Poll};
ghost use Rattle.mono_forms.specs.Inspectors.{Sees};
ghost use Rattle.mono_forms.specs.Maps.{MapsOk, MapsErr};
ghost use Rattle.mono_wait.specs.WaitPlaces.{placed_of, ListedAt};
ghost use Rattle.mono_wait.specs.FormPlaces.{LeadPlaces, FlattenPlaces, TryPlaces, RescuePlaces, EitherPlaces, RacePlaces, lead_listed, flatten_listed, try_listed, rescue_listed, either_listed, race_listed, either_race_listed};
ghost use Rattle.mono_wait.specs.JoinPlaces.{MaybePlaces, JoinPlaces, maybe_listed, join_listed};

use crate::waits::{SharedWaitContext, Waits};
use mono_combine::{Join2, MaybeDone};
use mono_forms::{
    Boxed, Either, Flatten, Inspect, Map, MapErr, MapOk, Race, RaceEither, TryFlatten,
    TryFlattenErr,
};
use mono_task::SharedState;

/// A future over a value that tasks share, which exposes the places of the value at which it waits.
///
/// After each pending poll the value lists the running task at each of these places (`listed`). From then on the value
/// keeps it there until the task is woken or has its next turn, since no call takes another task out.
pub trait WaitsIn<W: SharedState, C: SharedWaitContext<W>>: Waits<C> {
    // the places at which the future waits after a pending poll that left it so
    ghost waits_in: { Self → List ℕ → Type 0 };

    /// Does nothing. An impl with closures among its bounds has to write it out, since it needs one method of its own.
    fn tells_its_places(&self) {}

    ghost listed: { (f : Self) (c : C) (g : Self) (d : C) → Self.polls f c Poll.Pending g d → (p : List ℕ) → waits_in g p → W.lists (C.shared d) p (C.number d) ≡ true };
}

// It waits where the future in the box waits.
impl<W: SharedState, C: SharedWaitContext<W>, A: WaitsIn<W, C>> WaitsIn<W, C> for Boxed<A> {
    ghost waits_in = { λ f. A.waits_in f.future.value };

    ghost listed = { λ f c g d q. A.listed f.future.value c g.future.value d q };
}

// It waits where its future waits.
impl<W, C, U, A, F> WaitsIn<W, C> for Map<A, F>
where
    W: SharedState,
    C: SharedWaitContext<W>,
    A: WaitsIn<W, C>,
    F: FnOnce(A::Output) -> U + Drop,
{
    ghost waits_in = { λ m. LeadPlaces A.waits_in m.inner };

    fn tells_its_places(&self) {}

    ghost listed = { λ m c n d. lead_listed (ListedAt W.lists C.shared C.number) A.TaskFuture (placed_of (ListedAt W.lists C.shared C.number) A.TaskFuture A.waits_in A.listed) (λ f x y. F.FnOnce.post f (x, tt) y) m.inner c n.inner d };
}

// It waits where its future waits.
impl<W, C, T, E, U, A, F> WaitsIn<W, C> for MapOk<A, F>
where
    W: SharedState,
    C: SharedWaitContext<W>,
    A: WaitsIn<W, C, Output = Result<T, E>>,
    F: FnOnce(T) -> U + Drop,
{
    ghost waits_in = { λ m. LeadPlaces A.waits_in m.inner };

    fn tells_its_places(&self) {}

    ghost listed = { λ m c n d. lead_listed (ListedAt W.lists C.shared C.number) A.TaskFuture (placed_of (ListedAt W.lists C.shared C.number) A.TaskFuture A.waits_in A.listed) (MapsOk F.FnOnce) m.inner c n.inner d };
}

// It waits where its future waits.
impl<W, C, T, E, U, A, F> WaitsIn<W, C> for MapErr<A, F>
where
    W: SharedState,
    C: SharedWaitContext<W>,
    A: WaitsIn<W, C, Output = Result<T, E>>,
    F: FnOnce(E) -> U + Drop,
{
    ghost waits_in = { λ m. LeadPlaces A.waits_in m.inner };

    fn tells_its_places(&self) {}

    ghost listed = { λ m c n d. lead_listed (ListedAt W.lists C.shared C.number) A.TaskFuture (placed_of (ListedAt W.lists C.shared C.number) A.TaskFuture A.waits_in A.listed) (MapsErr F.FnOnce) m.inner c n.inner d };
}

// It waits where its future waits.
impl<W, C, A, F> WaitsIn<W, C> for Inspect<A, F>
where
    W: SharedState,
    C: SharedWaitContext<W>,
    A: WaitsIn<W, C>,
    F: FnOnce(&A::Output) + Drop,
{
    ghost waits_in = { λ m. LeadPlaces A.waits_in m.inner };

    fn tells_its_places(&self) {}

    ghost listed = { λ m c n d. lead_listed (ListedAt W.lists C.shared C.number) A.TaskFuture (placed_of (ListedAt W.lists C.shared C.number) A.TaskFuture A.waits_in A.listed) (Sees F.FnOnce) m.inner c n.inner d };
}

// It waits where its present step waits.
impl<W, C, A, B> WaitsIn<W, C> for Flatten<A, B>
where
    W: SharedState,
    C: SharedWaitContext<W>,
    A: WaitsIn<W, C, Output = B>,
    B: WaitsIn<W, C>,
{
    ghost waits_in = { FlattenPlaces A.waits_in B.waits_in };

    ghost listed = { flatten_listed (ListedAt W.lists C.shared C.number) A.TaskFuture B.TaskFuture (placed_of (ListedAt W.lists C.shared C.number) A.TaskFuture A.waits_in A.listed) (placed_of (ListedAt W.lists C.shared C.number) B.TaskFuture B.waits_in B.listed) };
}

// It waits where its present step waits.
impl<W, C, A, B, U, E> WaitsIn<W, C> for TryFlatten<A, B>
where
    W: SharedState,
    C: SharedWaitContext<W>,
    A: WaitsIn<W, C, Output = Result<B, E>>,
    B: WaitsIn<W, C, Output = Result<U, E>>,
{
    ghost waits_in = { TryPlaces A.waits_in B.waits_in };

    ghost listed = { try_listed (ListedAt W.lists C.shared C.number) A.TaskFuture B.TaskFuture (placed_of (ListedAt W.lists C.shared C.number) A.TaskFuture A.waits_in A.listed) (placed_of (ListedAt W.lists C.shared C.number) B.TaskFuture B.waits_in B.listed) };
}

// It waits where its present step waits.
impl<W, C, A, B, T, U> WaitsIn<W, C> for TryFlattenErr<A, B>
where
    W: SharedState,
    C: SharedWaitContext<W>,
    A: WaitsIn<W, C, Output = Result<T, B>>,
    B: WaitsIn<W, C, Output = Result<T, U>>,
{
    ghost waits_in = { RescuePlaces A.waits_in B.waits_in };

    ghost listed = { rescue_listed (ListedAt W.lists C.shared C.number) A.TaskFuture B.TaskFuture (placed_of (ListedAt W.lists C.shared C.number) A.TaskFuture A.waits_in A.listed) (placed_of (ListedAt W.lists C.shared C.number) B.TaskFuture B.waits_in B.listed) };
}

// It waits where the future that it holds waits.
impl<W, C, A, B> WaitsIn<W, C> for Either<A, B>
where
    W: SharedState,
    C: SharedWaitContext<W>,
    A: WaitsIn<W, C>,
    B: WaitsIn<W, C, Output = A::Output>,
{
    ghost waits_in = { EitherPlaces A.waits_in B.waits_in };

    ghost listed = { either_listed (ListedAt W.lists C.shared C.number) A.TaskFuture B.TaskFuture (placed_of (ListedAt W.lists C.shared C.number) A.TaskFuture A.waits_in A.listed) (placed_of (ListedAt W.lists C.shared C.number) B.TaskFuture B.waits_in B.listed) };
}

// It waits where its second future waits, which is polled last. No claim is made for the first: a poll of the second may
// take the task out of any place.
impl<W, C, A, B> WaitsIn<W, C> for Race<A, B>
where
    W: SharedState,
    C: SharedWaitContext<W>,
    A: Waits<C>,
    B: WaitsIn<W, C, Output = A::Output>,
{
    ghost waits_in = { λ m. RacePlaces B.waits_in m.both };

    ghost listed = { λ m c n d. race_listed (ListedAt W.lists C.shared C.number) A.TaskFuture B.TaskFuture (placed_of (ListedAt W.lists C.shared C.number) B.TaskFuture B.waits_in B.listed) m.both c n.both d };
}

// It waits where its second future waits, which is polled last. No claim is made for the first: a poll of the second may
// take the task out of any place.
impl<W, C, A, B> WaitsIn<W, C> for RaceEither<A, B>
where
    W: SharedState,
    C: SharedWaitContext<W>,
    A: Waits<C>,
    B: WaitsIn<W, C>,
{
    ghost waits_in = { λ m. RacePlaces B.waits_in m.both };

    ghost listed = { λ m c n d. either_race_listed (ListedAt W.lists C.shared C.number) A.TaskFuture B.TaskFuture (placed_of (ListedAt W.lists C.shared C.number) B.TaskFuture B.waits_in B.listed) m.both c n.both d };
}

// It waits where its future waits, until that has answered.
impl<W, C, X, F> WaitsIn<W, C> for MaybeDone<F, X>
where
    W: SharedState,
    C: SharedWaitContext<W>,
    X: Drop,
    F: WaitsIn<W, C, Output = X>,
{
    ghost waits_in = { MaybePlaces F.waits_in };

    ghost listed = { maybe_listed (ListedAt W.lists C.shared C.number) F.TaskFuture (placed_of (ListedAt W.lists C.shared C.number) F.TaskFuture F.waits_in F.listed) };
}

// It waits where its second branch waits, which is polled last. No claim is made for the first: a poll of the second may
// take the task out of any place.
impl<W, C, A, B, X, Y> WaitsIn<W, C> for Join2<A, B, X, Y>
where
    W: SharedState,
    C: SharedWaitContext<W>,
    A: Waits<C, Output = X>,
    B: WaitsIn<W, C, Output = Y>,
    X: Drop,
    Y: Drop,
{
    ghost waits_in = { JoinPlaces B.waits_in };

    ghost listed = { join_listed (ListedAt W.lists C.shared C.number) A.TaskFuture B.TaskFuture (placed_of (ListedAt W.lists C.shared C.number) B.TaskFuture B.waits_in B.listed) };
}
