// Laws on the items of streams that are made of the items of one other stream, as functions with empty bodies.
ghost use Rattle.std.specs.Prelude.{◌≡◌, ◌+◌, ◌<◌, ◌^◌, ◌==◌, ℕ, List, Bool, false, Option, drop, length, filter};
ghost use Rattle.std.specs.Fn.{Called, CalledAt, CalledWithState};
ghost use Rattle.std.specs.List.{filter_map, enumerate_from};
ghost use Rattle.mono_stream.specs.Items.{Gives};
ghost use Rattle.mono_stream.specs.Sieves.{FilteringSifts, FilterMappingSifts, TakingSifts, TakingWhileSifts, SkippingSifts, SkippingWhileSifts, EnumeratingSifts, ScanningSifts};
ghost use Rattle.mono_stream.specs.Sifts.{SiftedPolls};
ghost use Rattle.mono_stream.specs.SiftedItems.{SiftsItems, GivesBy, GivesIf, TakesItems, TakesWhile, ScansItems, skip_while, skip_unless};
ghost use Rattle.mono_stream.specs.declared.sifts.Sifted.{Sifted};
ghost use Rattle.mono_stream.specs.declared.filters.Filtering.{Filtering};
ghost use Rattle.mono_stream.specs.declared.filters.FilterMapping.{FilterMapping};
ghost use Rattle.mono_stream.specs.declared.takes.Taking.{Taking};
ghost use Rattle.mono_stream.specs.declared.takes.TakingWhile.{TakingWhile};
ghost use Rattle.mono_stream.specs.declared.skips.Skipping.{Skipping};
ghost use Rattle.mono_stream.specs.declared.skips.SkippingWhile.{SkippingWhile};
ghost use Rattle.mono_stream.specs.declared.counts.Enumerating.{Enumerating};
ghost use Rattle.mono_stream.specs.declared.scans.Scanning.{Scanning};

use crate::sieves::Sieve;
use crate::streams::Stream;
use mono_task::Context;

/// Shows that a sifted stream gives the values that its sieve returns for the items that its stream gives, in order. It
/// ends if that stream has ended; it ends only then, or if the sieve is done.
pub fn sifts_each_item<C, S, V>()
where
    C: Context,
    S: Stream<C>,
    V: Sieve<S::Item>,
    ensures { (n : ℕ) (old : Sifted S V) (ys : List V.Output) (has_ended : Bool) (new : Sifted S V) →
        Gives (SiftedPolls S.polls V.done V.sifts C.number C.wakes) n old ys has_ended new →
        SiftsItems S.polls V.done V.sifts old.stream old.sieve ys has_ended new }
{}

/// Shows that a filtered stream gives the items that pass the test, if its closure always returns what the test does.
pub fn filters_items<C, S, F>()
where
    C: Context,
    S: Stream<C>,
    F: FnMut(&S::Item) -> bool,
    ensures { (test : S.Item → Bool) → ((f : F) (x : S.Item) (b : Bool) (g : F) → CalledAt F.FnMut f x b g → b ≡ test x) →
        (n : ℕ) (old : Sifted S (Filtering F)) (ys : List S.Item) (has_ended : Bool) (new : Sifted S (Filtering F)) →
        Gives (SiftedPolls S.polls (λ _. false) (FilteringSifts F.FnMut) C.number C.wakes) n old ys has_ended new →
        GivesBy S.polls (filter test) old.stream ys has_ended new.stream }
{}

/// Shows that `filter_map` gives the values of the items that have one, if its closure always returns this value.
pub fn filter_maps_items<Y, C, S, F>()
where
    C: Context,
    S: Stream<C>,
    F: FnMut(S::Item) -> Option<Y>,
    ensures { (value : S.Item → Option Y) → ((f : F) (x : S.Item) (y : Option Y) (g : F) → Called F.FnMut f (x, tt) y g → y ≡ value x) →
        (n : ℕ) (old : Sifted S (FilterMapping F)) (ys : List Y) (has_ended : Bool) (new : Sifted S (FilterMapping F)) →
        Gives (SiftedPolls S.polls (λ _. false) (FilterMappingSifts F.FnMut) C.number C.wakes) n old ys has_ended new →
        GivesBy S.polls (filter_map value) old.stream ys has_ended new.stream }
{}

/// Shows that `take` gives the items of its stream, as many as remain, and that this stream gives no item beyond them.
pub fn takes_items<C, S>()
where
    C: Context,
    S: Stream<C>,
    ensures { (n : ℕ) (old : Sifted S Taking) (ys : List S.Item) (has_ended : Bool) (new : Sifted S Taking) →
        Gives (SiftedPolls S.polls (λ v. v.remaining == 0) TakingSifts C.number C.wakes) n old ys has_ended new →
        TakesItems S.polls old.stream old.sieve.remaining ys has_ended new.stream new.sieve.remaining }
{}

/// Shows that `take_while` gives the items before the first that fails the test, and that its stream gives no item beyond
/// that one, if its closure always returns what the test does.
pub fn takes_while_items<C, S, F>()
where
    C: Context,
    S: Stream<C>,
    F: FnMut(&S::Item) -> bool,
    ensures { (test : S.Item → Bool) → ((f : F) (x : S.Item) (b : Bool) (g : F) → CalledAt F.FnMut f x b g → b ≡ test x) →
        (n : ℕ) (old : Sifted S (TakingWhile F)) (ys : List S.Item) (has_ended : Bool) (new : Sifted S (TakingWhile F)) → old.sieve.has_failed ≡ false →
        Gives (SiftedPolls S.polls (λ v. v.has_failed) (TakingWhileSifts F.FnMut) C.number C.wakes) n old ys has_ended new →
        TakesWhile S.polls test old.stream ys has_ended new.stream new.sieve.has_failed }
{}

/// Shows that `skip` gives the items of its stream without the first, as many as remain to be passed over.
pub fn skips_items<C, S>()
where
    C: Context,
    S: Stream<C>,
    ensures { (n : ℕ) (old : Sifted S Skipping) (ys : List S.Item) (has_ended : Bool) (new : Sifted S Skipping) →
        Gives (SiftedPolls S.polls (λ _. false) SkippingSifts C.number C.wakes) n old ys has_ended new →
        GivesBy S.polls (drop old.sieve.remaining) old.stream ys has_ended new.stream }
{}

/// Shows that `skip_while` gives the items from the first on that fails the test, if its closure always returns what the
/// test does. Once it has given an item, it gives each further one.
pub fn skips_while_items<C, S, F>()
where
    C: Context,
    S: Stream<C>,
    F: FnMut(&S::Item) -> bool,
    ensures { (test : S.Item → Bool) → ((f : F) (x : S.Item) (b : Bool) (g : F) → CalledAt F.FnMut f x b g → b ≡ test x) →
        (n : ℕ) (old : Sifted S (SkippingWhile F)) (ys : List S.Item) (has_ended : Bool) (new : Sifted S (SkippingWhile F)) →
        Gives (SiftedPolls S.polls (λ _. false) (SkippingWhileSifts F.FnMut) C.number C.wakes) n old ys has_ended new →
        GivesBy S.polls (skip_unless old.sieve.has_begun test) old.stream ys has_ended new.stream }
{}

/// Shows that `enumerate` gives each item after its number, as long as the numbers stay below 2^64.
pub fn enumerates_items<C, S>()
where
    C: Context,
    S: Stream<C>,
    ensures { (n : ℕ) (old : Sifted S Enumerating) (ys : List (ℕ × S.Item)) (has_ended : Bool) (new : Sifted S Enumerating) →
        Gives (SiftedPolls S.polls (λ _. false) EnumeratingSifts C.number C.wakes) n old ys has_ended new →
        GivesIf S.polls (λ xs. old.sieve.count + length xs < 2 ^ 64) (enumerate_from old.sieve.count) old.stream ys has_ended new.stream }
{}

/// Shows that `scan` gives the values of the steps from its state on, up to the first `None`, if its closure always takes
/// this step.
pub fn scans_items<A, Y, C, S, F>()
where
    C: Context,
    S: Stream<C>,
    F: FnMut(&mut A, S::Item) -> Option<Y>,
    ensures { (step : A → S.Item → Option Y × A) → ((f : F) (a : A) (x : S.Item) (y : Option Y) (g : F) (b : A) → CalledWithState F.FnMut f a x y g b → (y, b) ≡ step a x) →
        (n : ℕ) (old : Sifted S (Scanning A F)) (ys : List Y) (has_ended : Bool) (new : Sifted S (Scanning A F)) →
        Gives (SiftedPolls S.polls (λ v. v.has_stopped) (ScanningSifts F.FnMut) C.number C.wakes) n old ys has_ended new →
        ScansItems S.polls step old.stream old.sieve.state ys has_ended new.stream new.sieve.has_stopped }
{}
