// Laws on the items of streams that are made of the items of two streams, as functions with empty bodies.
ghost use Rattle.std.specs.Prelude.{ℕ, List, Bool};
ghost use Rattle.mono_stream.specs.Appends.{ChainPolls};
ghost use Rattle.mono_stream.specs.Items.{Gives};
ghost use Rattle.mono_stream.specs.JoinedItems.{ZipsItems, ChainsItems, MergesItems};
ghost use Rattle.mono_stream.specs.Merges.{MergePolls};
ghost use Rattle.mono_stream.specs.Zips.{ZipPolls};
ghost use Rattle.mono_stream.specs.declared.appends.Chain.{Chain};
ghost use Rattle.mono_stream.specs.declared.merges.Merge.{Merge};
ghost use Rattle.mono_stream.specs.declared.zips.Zip.{Zip};

use crate::streams::Stream;
use mono_task::Context;

/// Shows that `zip` gives the items of two streams in pairs, in order, and loses none: an item whose partner has not come
/// is held, also after the partner's stream has ended.
pub fn zips_items<C, A, B>()
where
    C: Context,
    A: Stream<C>,
    B: Stream<C>,
    ensures { (n : ℕ) (old : Zip A B A.Item B.Item) (pairs : List (A.Item × B.Item)) (has_ended : Bool) (new : Zip A B A.Item B.Item) →
        Gives (ZipPolls A.polls B.polls) n old pairs has_ended new →
        ZipsItems A.polls B.polls old pairs has_ended new }
{}

/// Shows that `chain` gives the items of the first stream and then those of the second, which is not polled before the
/// first has ended.
pub fn chains_items<X, C, A, B>()
where
    C: Context,
    A: Stream<C, Item = X>,
    B: Stream<C, Item = X>,
    ensures { (n : ℕ) (old : Chain A B) (items : List X) (has_ended : Bool) (new : Chain A B) →
        Gives (ChainPolls A.polls A.cancels B.polls) n old items has_ended new →
        ChainsItems A.polls B.polls old.first old.second items has_ended new }
{}

/// Shows that `merge` gives each item of two streams, each stream's in order, and nothing else. It ends only if both have
/// ended.
pub fn merges_items<X, C, A, B>()
where
    C: Context,
    A: Stream<C, Item = X>,
    B: Stream<C, Item = X>,
    ensures { (n : ℕ) (old : Merge A B) (items : List X) (has_ended : Bool) (new : Merge A B) →
        Gives (MergePolls A.polls A.cancels B.polls B.cancels) n old items has_ended new →
        MergesItems A.polls B.polls old items has_ended new }
{}
