// Streams and futures made of a stream.
ghost use Rattle.std.specs.Prelude.{◌≡◌, [], false, Some, None};

use crate::appends::Chain;
use crate::chains::Then;
use crate::collects::{Collect, Collecting};
use crate::counts::{Enumerate, Enumerating};
use crate::filters::{Filter, FilterMap, FilterMapping, Filtering};
use crate::folds::{Fold, Folding};
use crate::for_each::ForEach;
use crate::maps::Map;
use crate::merges::Merge;
use crate::next::Next;
use crate::scans::{Scan, Scanning};
use crate::sides::Fuse;
use crate::sifts::Sifted;
use crate::skips::{Skip, SkipWhile, Skipping, SkippingWhile};
use crate::streams::Stream;
use crate::takes::{Take, TakeWhile, Taking, TakingWhile};
use crate::zips::Zip;
use mono_task::{Context, TaskFuture};
use std::alloc::Global;

/// The streams and futures that can be made of every stream.
pub trait StreamExt<C: Context>: Stream<C> + Sized {
    /// Returns the future of the next item, on the stream itself (`stream`, `same_reference`).
    ///
    /// ```rust
    /// // test_futures/src/streams.rt
    /// StreamExt::<Board>::next(stream).poll(rt, alloc, cx)
    /// ```
    fn next(&mut self) -> Next<'_, Self>
        ensures same_reference { result.stream.ghost_name ≡ self.entry.ghost_name }
        ensures stream { result.stream.now ≡ self.old }
        ensures fresh { result.has_ended ≡ false }
    {
        Next {
            stream: self,
            has_ended: false,
        }
    }

    /// Returns the stream of the answers of `f` for the items.
    fn map<T, F: FnMut(Self::Item) -> T>(self, f: F) -> Map<Self, F>
        ensures stream { result.stream ≡ self }
        ensures f { result.f ≡ f }
    {
        Map { stream: self, f }
    }

    /// Returns the stream of the outputs of the futures that `f` makes of the items. None of these may be spent.
    fn then<F: FnMut(Self::Item) -> Fut, Fut: TaskFuture<C>>(self, f: F) -> Then<Self, F, Fut>
        ensures stream { result.stream ≡ self }
        ensures f { result.f ≡ f }
        ensures made { result.made ≡ None }
    {
        Then {
            stream: self,
            f,
            made: None,
        }
    }

    /// Returns the future that handles each item by the future that `f` makes of it. None of these may be spent.
    fn for_each<F: FnMut(Self::Item) -> Fut, Fut: TaskFuture<C, Output = ()>>(
        self,
        f: F,
    ) -> ForEach<Self, F, Fut>
        ensures stream { result.items.stream ≡ self }
        ensures f { result.items.f ≡ f }
        ensures made { result.items.made ≡ None }
        ensures fresh { result.has_ended ≡ false }
    {
        ForEach {
            items: self.then(f),
            has_ended: false,
        }
    }

    /// Returns the stream of the items for which `f` returns true.
    fn filter<F: FnMut(&Self::Item) -> bool>(self, f: F) -> Filter<Self, F>
        ensures stream { result.stream ≡ self }
        ensures f { result.sieve.f ≡ f }
    {
        Sifted {
            stream: self,
            sieve: Filtering { f },
        }
    }

    /// Returns the stream of the values that `f` returns for the items, without each `None`.
    fn filter_map<T, F: FnMut(Self::Item) -> Option<T>>(self, f: F) -> FilterMap<Self, F>
        ensures stream { result.stream ≡ self }
        ensures f { result.sieve.f ≡ f }
    {
        Sifted {
            stream: self,
            sieve: FilterMapping { f },
        }
    }

    /// Returns the stream of the first `n` items. After them it polls this stream no more.
    fn take(self, n: usize) -> Take<Self>
        ensures stream { result.stream ≡ self }
        ensures remaining { result.sieve.remaining ≡ n }
    {
        Sifted {
            stream: self,
            sieve: Taking { remaining: n },
        }
    }

    /// Returns the stream of the items before the first for which `f` returns false. After that it polls this stream no
    /// more.
    fn take_while<F: FnMut(&Self::Item) -> bool>(self, f: F) -> TakeWhile<Self, F>
        ensures stream { result.stream ≡ self }
        ensures f { result.sieve.f ≡ f }
        ensures fresh { result.sieve.has_failed ≡ false }
    {
        Sifted {
            stream: self,
            sieve: TakingWhile {
                f,
                has_failed: false,
            },
        }
    }

    /// Returns the stream of the items after the first `n`.
    fn skip(self, n: usize) -> Skip<Self>
        ensures stream { result.stream ≡ self }
        ensures remaining { result.sieve.remaining ≡ n }
    {
        Sifted {
            stream: self,
            sieve: Skipping { remaining: n },
        }
    }

    /// Returns the stream of the items from the first on for which `f` returns false.
    fn skip_while<F: FnMut(&Self::Item) -> bool>(self, f: F) -> SkipWhile<Self, F>
        ensures stream { result.stream ≡ self }
        ensures f { result.sieve.f ≡ f }
        ensures fresh { result.sieve.has_begun ≡ false }
    {
        Sifted {
            stream: self,
            sieve: SkippingWhile {
                f,
                has_begun: false,
            },
        }
    }

    /// Returns the stream of the items, each after its number. The first number is 0.
    fn enumerate(self) -> Enumerate<Self>
        ensures stream { result.stream ≡ self }
        ensures count { result.sieve.count ≡ 0 }
    {
        Sifted {
            stream: self,
            sieve: Enumerating { count: 0 },
        }
    }

    /// Returns the stream of the values that `f` returns for the state and each item. It ends once `f` returns `None`, and
    /// polls this stream no more.
    fn scan<A, T, F: FnMut(&mut A, Self::Item) -> Option<T>>(
        self,
        initial: A,
        f: F,
    ) -> Scan<Self, A, F>
        ensures stream { result.stream ≡ self }
        ensures state { result.sieve.state ≡ initial }
        ensures f { result.sieve.f ≡ f }
        ensures fresh { result.sieve.has_stopped ≡ false }
    {
        Sifted {
            stream: self,
            sieve: Scanning {
                state: initial,
                f,
                has_stopped: false,
            },
        }
    }

    /// Returns the stream of the items of this stream and then of those of `other`.
    fn chain<B: Stream<C, Item = Self::Item>>(self, other: B) -> Chain<Self, B>
        ensures first { result.first ≡ Some self }
        ensures second { result.second ≡ other }
    {
        Chain {
            first: Some(self),
            second: other,
        }
    }

    /// Returns the stream of the pairs of the items of this stream and of `other`.
    fn zip<B: Stream<C>>(self, other: B) -> Zip<Self, B, Self::Item, B::Item>
        ensures first { result.first ≡ self }
        ensures second { result.second ≡ other }
        ensures first_item { result.first_item ≡ None }
        ensures second_item { result.second_item ≡ None }
    {
        Zip {
            first: self,
            second: other,
            first_item: None,
            second_item: None,
        }
    }

    /// Returns the stream of the items of this stream and of `other`, as they come. The first poll polls this one first.
    fn merge<B: Stream<C, Item = Self::Item>>(self, other: B) -> Merge<Self, B>
        ensures first { result.first ≡ Some self }
        ensures second { result.second ≡ Some other }
        ensures due { result.is_second_due ≡ false }
    {
        Merge {
            first: Some(self),
            second: Some(other),
            is_second_due: false,
        }
    }

    /// Returns the stream that is given up once it has ended, and returns `None` from then on.
    fn fuse(self) -> Fuse<Self>
        ensures { result.side ≡ Some self }
    {
        Fuse { side: Some(self) }
    }

    /// Returns the future that combines the items by `f`, from `initial` on.
    fn fold<T, F: FnMut(T, Self::Item) -> T>(self, initial: T, f: F) -> Fold<Self, T, F>
        ensures stream { result.stream ≡ self }
        ensures value { result.folding.value ≡ Some initial }
        ensures f { result.folding.f ≡ f }
    {
        Fold {
            stream: self,
            folding: Folding {
                value: Some(initial),
                f,
            },
        }
    }

    /// Returns the future that collects the items in a `Vec`.
    fn collect(self, alloc: Global) -> Collect<Self, Self::Item>
        ensures stream { result.stream ≡ self }
        ensures nothing { result.collecting.items.items ≡ [] }
        ensures fresh { result.has_ended ≡ false }
    {
        Collect {
            stream: self,
            collecting: Collecting {
                items: Vec::new(alloc),
            },
            has_ended: false,
        }
    }
}

impl<C: Context, S: Stream<C>> StreamExt<C> for S {}
