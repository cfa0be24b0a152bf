// Laws on the items that futures gather from a stream, as functions with empty bodies.
ghost use Rattle.std.specs.Prelude.{◌≡◌, ℕ, Some, Result};
ghost use Rattle.std.specs.Global.{Vec};
ghost use Rattle.mono_stream.specs.Collects.{CollectPolls};
ghost use Rattle.mono_stream.specs.Folds.{FoldPolls};
ghost use Rattle.mono_stream.specs.GatheredItems.{Outputs, FoldsItems, CollectsItems};
ghost use Rattle.mono_stream.specs.declared.collects.Collect.{Collect};
ghost use Rattle.mono_stream.specs.declared.collects.Uncollected.{Uncollected};
ghost use Rattle.mono_stream.specs.declared.folds.Fold.{Fold};

use crate::streams::Stream;
use mono_task::Context;

/// Shows that the output of `fold` is what its closure makes of its value and of the items that its stream gives until it
/// ends, in order.
pub fn folds_items<T, C, S, F>()
where
    C: Context,
    S: Stream<C>,
    F: FnMut(T, S::Item) -> T,
    ensures { (n : ℕ) (old : Fold S T F) (first last : T) → old.folding.value ≡ Some first →
        Outputs (FoldPolls S.polls F.FnMut C.number C.wakes) n old last →
        FoldsItems S.polls F.FnMut old.stream old.folding.f first last }
{}

/// Shows that the output of `collect` is the items that its stream gives until it ends, in order. If there was no memory
/// for one, this item and those before it are in the error.
pub fn collects_items<C, S>()
where
    C: Context,
    S: Stream<C>,
    ensures { (n : ℕ) (old : Collect S S.Item) (answer : Result (Vec S.Item) (Uncollected S.Item)) →
        Outputs (CollectPolls S.polls C.number C.wakes) n old answer →
        CollectsItems S.polls old.stream old.collecting.items.items answer }
{}
