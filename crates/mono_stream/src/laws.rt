// Laws on the items that streams give over consecutive polls, as functions with empty bodies.
ghost use Rattle.std.specs.Prelude.{◌≡◌, ℕ, List, None, Bool};
ghost use Rattle.mono_stream.specs.Items.{Gives, AreImages, AreOutputs, AreNext, blank, is_end, polls_for};
ghost use Rattle.mono_stream.specs.declared.iterate.Iter.{Iter};
ghost use Rattle.mono_stream.specs.Maps.{MapPolls};
ghost use Rattle.mono_stream.specs.Chains.{ThenPolls};
ghost use Rattle.mono_stream.specs.ForEaches.{Handles};
ghost use Rattle.mono_stream.specs.declared.maps.Map.{Map};
ghost use Rattle.mono_stream.specs.declared.chains.Then.{Then};
ghost use Rattle.mono_stream.specs.declared.for_each.Stop.{Stop};

use crate::iterate::Iter;
use crate::streams::Stream;
use mono_task::{Context, TaskFuture};

/// Shows that a mapped stream gives the images of the items that its stream gives in equally many consecutive polls, in
/// order. It has ended if and only if that stream has ended.
pub fn maps_each_item<T, C, S, F>()
where
    C: Context,
    S: Stream<C>,
    F: FnMut(S::Item) -> T + Drop,
    ensures { (n : ℕ) (old : Map S F) (images : List T) (has_ended : Bool) (new : Map S F) → Gives (MapPolls S.Stream F.FnMut) n old images has_ended new →
        (items : List S.Item) × Gives S.polls n old.stream items has_ended new.stream × AreImages F.FnMut old.f items images new.f }
{}

/// Shows that a chained stream that holds no future gives, over consecutive polls, the outputs of the futures that its
/// closure makes of the items, in order. The last of these futures may still be pending.
pub fn chains_each_item<C, S, F, Fut>()
where
    C: Context,
    S: Stream<C>,
    Fut: TaskFuture<C>,
    F: FnMut(S::Item) -> Fut + Drop,
    ensures { (n : ℕ) (old : Then S F Fut) (outputs : List Fut.Output) (has_ended : Bool) (new : Then S F Fut) → old.made ≡ None →
        Gives (ThenPolls S.Stream Fut.TaskFuture F.FnMut) n old outputs has_ended new →
        (count : ℕ) × (items : List S.Item) × Gives S.polls count old.stream items has_ended new.stream × AreOutputs Fut.TaskFuture F.FnMut old.f items outputs new.made new.f }
{}

/// Shows that one poll handles items that the stream gives, one after the other. It stops as ended if and only if the
/// stream has ended.
pub fn handles_each_item<C, S>()
where
    C: Context,
    S: Stream<C, Item = ()>,
    ensures { (old : S) (c : C) (stop : Stop) (new : S) (d : C) → Handles S.polls old c stop new d → (n : ℕ) × Gives S.polls (polls_for stop n) old (blank n) (is_end stop) new }
{}

/// Shows that the stream of an iterator gives, over consecutive polls, the iterator's next items, item by item, until
/// that has ended.
pub fn gives_each_next<C, I>()
where
    C: Context,
    I: Iterator,
    ensures { (n : ℕ) (old : Iter I) (items : List I.Item) (has_ended : Bool) (new : Iter I) →
        Gives ⟦<Iter<I> as Stream<C>>⟧.polls n old items has_ended new → AreNext I.next_gives old.iterator items has_ended new.iterator }
{}
