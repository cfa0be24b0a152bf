// The forms as calls on a future.
ghost use Rattle.std.specs.Prelude.{◌≡◌, Some, IfOk, IfErr};

use crate::answers::{Pending, Ready};
use crate::bodies::{SelectBodies, SelectBodies2};
use crate::boxes::Boxed;
use crate::either_races::RaceEither;
use crate::eithers::Either;
use crate::flatten::{Flatten, Then};
use crate::fuses::Fuse;
use crate::inspectors::Inspect;
use crate::intervals::IntervalFor;
use crate::lazies::Lazy;
use crate::lazy_spawns::LazySpawn;
use crate::maps::{Map, MapErr, MapOk};
use crate::message_folds::FoldMessages;
use crate::race_lists::RaceList;
use crate::races::Race;
use crate::repeats::Repeat;
use crate::rescues::{OrElse, TryFlattenErr};
use crate::sends::SendAll;
use crate::tries::{AndThen, TryFlatten};
use crate::yields::YieldNow;
use mono_blocking::{JobHandle, RunJob};
use mono_combine::{
    Join2, JoinList, MaybeDone, PollFn, Select2, SelectList, TryJoin2, TryJoinList,
};
use mono_inbox::Unpark;
use mono_model::Host;
use mono_stream::{Collect, Fold, ForEach, Next};
use mono_sync::acts::AtOnce;
use mono_sync::{Acquire, AcquireAt, Notified, NotifiedAt, mpsc, oneshot, tallies, watch};
use mono_task::JoinHandle;
use mono_time::{Sleep, SleepFor, Tick, Timeout, TimeoutFor};
use std::alloc::{AllocFailed, Global};

/// The forms as calls on a future. An empty impl gives them to a future of your own.
///
/// The trait names no context, so you can make a chain before its context is known. A runtime's context names the type
/// of its futures, and a closure's type has no name. So a closure names the type of its argument, as in `|x: u64|`.
pub trait FutureExt: Sized {
    /// Changes its answer by a closure.
    final fn map<X, U, F: FnOnce(X) -> U>(self, f: F) -> Map<Self, F>
        ensures { result.inner ≡ Some (self, f) }
    {
        Map {
            inner: Some((self, f)),
        }
    }

    /// Changes its value by a closure; an error stays.
    final fn map_ok<T, U, F: FnOnce(T) -> U>(self, f: F) -> MapOk<Self, F>
        ensures { result.inner ≡ Some (self, f) }
    {
        MapOk {
            inner: Some((self, f)),
        }
    }

    /// Changes its error by a closure; a value stays.
    final fn map_err<E, U, F: FnOnce(E) -> U>(self, f: F) -> MapErr<Self, F>
        ensures { result.inner ≡ Some (self, f) }
    {
        MapErr {
            inner: Some((self, f)),
        }
    }

    /// Continues with the future that a closure makes of its answer.
    final fn then<X, B, F: FnOnce(X) -> B>(self, f: F) -> Then<Self, B, F>
        ensures { result ≡ Flatten.First (record { inner = Some (self, f) }) }
    {
        Flatten::First(Map {
            inner: Some((self, f)),
        })
    }

    /// Continues with the future that a closure makes of its value, if it succeeds.
    final fn and_then<T, B, F: FnOnce(T) -> B>(self, f: F) -> AndThen<Self, B, F>
        ensures { result ≡ TryFlatten.First (record { inner = Some (self, f) }) }
    {
        TryFlatten::First(MapOk {
            inner: Some((self, f)),
        })
    }

    /// Continues with the future that a closure makes of its error, if it fails.
    final fn or_else<E, B, F: FnOnce(E) -> B>(self, f: F) -> OrElse<Self, B, F>
        ensures { result ≡ TryFlattenErr.First (record { inner = Some (self, f) }) }
    {
        TryFlattenErr::First(MapErr {
            inner: Some((self, f)),
        })
    }

    /// Answers by the body of the branch that a select of two picks, called with the branch's output, or by the fallback
    /// if no branch is left.
    final fn with_bodies<X, Y, U, F: FnOnce(X) -> U, G: FnOnce(Y) -> U, H: FnOnce() -> U>(
        self,
        first: F,
        second: G,
        fallback: H,
    ) -> SelectBodies2<Self, F, G, H>
        ensures { result.inner ≡ Some (self, (first, second, fallback)) }
    {
        SelectBodies2 {
            inner: Some((self, (first, second, fallback))),
        }
    }

    /// Answers by the body, called with the number and the output of the branch that a select of a list picks, or by the
    /// fallback if no branch is left.
    final fn with_body<X, U, F: FnOnce(u32, X) -> U, H: FnOnce() -> U>(
        self,
        body: F,
        fallback: H,
    ) -> SelectBodies<Self, F, H>
        ensures { result.inner ≡ Some (self, (body, fallback)) }
    {
        SelectBodies {
            inner: Some((self, (body, fallback))),
        }
    }

    /// Shows its answer to a closure, and returns it as it is.
    final fn inspect<X, F: FnOnce(&X)>(self, f: F) -> Inspect<Self, F>
        ensures { result.inner ≡ Some (self, f) }
    {
        Inspect {
            inner: Some((self, f)),
        }
    }

    /// Makes a future that waits forever after its answer.
    final fn fuse(self) -> Fuse<Self>
        ensures { result.inner ≡ Some self }
    {
        Fuse { inner: Some(self) }
    }

    /// Continues with the future that it answers.
    final fn flatten<B>(self) -> Flatten<Self, B>
        ensures { result ≡ Flatten.First self }
    {
        Flatten::First(self)
    }

    /// Puts it into a box, so that a turn moves a pointer in its place. It fails only if out of memory, and then hands the
    /// future back.
    final fn boxed(self, alloc: Global) -> Result<Boxed<Self>, AllocFailed<Self>>
        ensures boxed { IfOk result (λ boxed. boxed.future.value ≡ self) }
        ensures back { IfErr result (λ refused. refused.value ≡ self) }
    {
        let future = Box::new(alloc, self)?;
        Ok(Boxed { future })
    }

    /// Makes it the first of two.
    final fn left_future<B>(self) -> Either<Self, B>
        ensures { result ≡ Either.Left self }
    {
        Either::Left(self)
    }

    /// Makes it the second of two.
    final fn right_future<A>(self) -> Either<A, Self>
        ensures { result ≡ Either.Right self }
    {
        Either::Right(self)
    }
}

impl<T> FutureExt for Ready<T> {}

impl<T> FutureExt for Pending<T> {}

impl FutureExt for YieldNow {}

impl<O> FutureExt for JoinHandle<O> {}

impl FutureExt for JobHandle {}

impl<J> FutureExt for RunJob<J> {}

impl<G, O> FutureExt for LazySpawn<G, O> {}

impl<A, F> FutureExt for Map<A, F> {}

impl<A, F> FutureExt for MapOk<A, F> {}

impl<A, F> FutureExt for MapErr<A, F> {}

impl<A, B> FutureExt for Flatten<A, B> {}

impl<A, B> FutureExt for TryFlatten<A, B> {}

impl<A, B> FutureExt for Either<A, B> {}

impl<A, F> FutureExt for Repeat<A, F> {}

impl<A, B> FutureExt for TryFlattenErr<A, B> {}

impl<A, B> FutureExt for Race<A, B> {}

impl<F> FutureExt for Lazy<F> {}

impl<A, F> FutureExt for Inspect<A, F> {}

impl<A> FutureExt for Fuse<A> {}

impl<A> FutureExt for Boxed<A> {}

impl<A, B> FutureExt for RaceEither<A, B> {}

impl<T> FutureExt for RaceList<T> {}

impl<S, F, G, H> FutureExt for SelectBodies2<S, F, G, H> {}

impl<S, F, H> FutureExt for SelectBodies<S, F, H> {}

impl FutureExt for Sleep {}

impl FutureExt for SleepFor {}

impl<T> FutureExt for Timeout<T> {}

impl<T> FutureExt for TimeoutFor<T> {}

impl<F> FutureExt for PollFn<F> {}

impl<A, X> FutureExt for MaybeDone<A, X> {}

impl<A, B, X, Y> FutureExt for Join2<A, B, X, Y> {}

impl<A, B, X, Y, E> FutureExt for TryJoin2<A, B, X, Y, E> {}

impl<T, X> FutureExt for JoinList<T, X> {}

impl<T, X, E> FutureExt for TryJoinList<T, X, E> {}

impl<A, B, G, H> FutureExt for Select2<A, B, G, H> {}

impl<T, G> FutureExt for SelectList<T, G> {}

impl FutureExt for Tick<'_> {}

impl FutureExt for IntervalFor {}

impl<S> FutureExt for Next<'_, S> {}

impl<S, F, Fut> FutureExt for ForEach<S, F, Fut> {}

impl<S, T, F> FutureExt for Fold<S, T, F> {}

impl<S, X> FutureExt for Collect<S, X> {}

impl<W> FutureExt for Acquire<W> {}

impl<W> FutureExt for AcquireAt<W> {}

impl<W, A> FutureExt for AtOnce<W, A> {}

impl<W> FutureExt for Notified<W> {}

impl<W> FutureExt for NotifiedAt<W> {}

impl<W, T> FutureExt for mpsc::Send<W, T> {}

impl<W, T> FutureExt for mpsc::Recv<W, T> {}

impl<W, T> FutureExt for mpsc::SendAt<W, T> {}

impl<W, T> FutureExt for mpsc::RecvAt<W, T> {}

impl<W, T, S> FutureExt for tallies::Send<W, T, S> {}

impl<W, T, S> FutureExt for tallies::Recv<W, T, S> {}

impl<W, T> FutureExt for oneshot::Recv<W, T> {}

impl<W, T> FutureExt for oneshot::RecvAt<W, T> {}

impl<W, T> FutureExt for watch::Changed<W, T> {}

impl<W, T> FutureExt for watch::ChangedAt<W, T> {}

impl<W, T, F> FutureExt for watch::WaitFor<W, T, F> {}

impl<T: Drop, U: Unpark> FutureExt for mono_channel::Recv<'_, T, U> {}

impl<T: Drop, U: Unpark, R: Host + Drop> FutureExt for mono_channel::Send<'_, T, U, R> {}

impl<T: Drop, U: Unpark> FutureExt for mono_channel::IntoRecv<T, U> {}

impl<T: Drop, U: Unpark, R: Host + Drop> FutureExt for mono_channel::IntoSend<T, U, R> {}

impl<T: Drop, U: Unpark, I, R: Host + Drop> FutureExt for SendAll<T, U, I, R> {}

impl<T: Drop, U: Unpark, S, F> FutureExt for FoldMessages<T, U, S, F> {}
