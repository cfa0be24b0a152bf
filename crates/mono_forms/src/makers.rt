// The functions that make the forms. Two names in one module may not differ in case alone, so the functions have a
// module of their own.
ghost use Rattle.std.specs.Prelude.{◌≡◌, false, Some};

use crate::answers::{Pending, Ready};
use crate::either_races::RaceEither;
use crate::lazies::Lazy;
use crate::lazy_spawns::LazySpawn;
use crate::race_lists::RaceList;
use crate::races::Race;
use crate::repeats::Repeat;
use crate::yields::YieldNow;
use std::marker::PhantomData;

/// Returns a future whose first poll returns `value`.
pub fn ready<T>(value: T) -> Ready<T>
    ensures { result.value ≡ Some value }
{
    Ready { value: Some(value) }
}

/// Returns a future that never answers.
pub fn pending<T>() -> Pending<T> {
    Pending {
        output: PhantomData,
    }
}

/// Yields to the other queued tasks.
pub fn yield_now() -> YieldNow
    ensures { result ≡ YieldNow.Fresh }
{
    YieldNow::Fresh
}

/// Repeats futures that a closure makes, one after another, from a state on.
pub fn repeat<S, A, F: FnMut(S) -> A>(initial: S, mut func: F) -> Repeat<A, F>
    requires { F.pre func initial }
    ensures { (first : _) × (result.future ≡ Some first) × F.step func initial first result.func }
{
    let first = func(initial);
    Repeat {
        future: Some(first),
        func,
    }
}

/// Races two futures: the first answer wins, and the other is given up. It polls `a` first.
pub fn race<A, B>(a: A, b: B) -> Race<A, B>
    ensures { result.both ≡ Some (a, b) }
{
    Race { both: Some((a, b)) }
}

/// Returns a future of a closure's result; its first poll calls the closure.
pub fn lazy<T, F: FnOnce() -> T>(func: F) -> Lazy<F>
    ensures { result.func ≡ Some func }
{
    Lazy { func: Some(func) }
}

/// Races two unlike futures: the first answer wins, on its side, and the other is given up. It polls `a` first.
pub fn race_either<A, B>(a: A, b: B) -> RaceEither<A, B>
    ensures { result.both ≡ Some (a, b) }
{
    RaceEither { both: Some((a, b)) }
}

/// Races many futures: the first answer wins, and the others are given up. It polls them in the written order.
pub fn race_list<T>(futures: Vec<T>) -> RaceList<T>
    ensures futures { result.futures ≡ futures }
    ensures fresh { result.has_answered ≡ false }
{
    RaceList {
        futures,
        has_answered: false,
    }
}

/// Returns a future whose first poll spawns a task that runs `future`, and answers the task's handle.
pub fn lazy_spawn<G, O>(future: G) -> LazySpawn<G, O>
    ensures { result.future ≡ Some future }
{
    LazySpawn {
        future: Some(future),
        output: PhantomData,
    }
}
