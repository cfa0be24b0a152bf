// Many branches of one type that keep their output, until one fails.
ghost use Rattle.std.specs.Prelude.{◌≡◌, ◌≤◌, ◌+◌, ◌++◌, false, length, vec_len, vec_capacity};
ghost use Rattle.std.specs.List.{list_any, filter_map, AllZip};
ghost use Rattle.std.specs.Vec.Iter.{into_iter_items, into_iter_len};
ghost use Rattle.mono_combine.specs.Branches.{is_waiting, MaybeCancels, MaybeNarrows};
ghost use Rattle.mono_combine.specs.BranchLists.{EachInTurn, AllMayPoll, GivesUp};
ghost use Rattle.mono_combine.specs.TryJoins.{failure_of};
ghost use Rattle.mono_combine.specs.TryLists.{TriesEach, has_failed, value_in, earlier, first_failure};

use crate::maybe::MaybeDone;
use mono_model::Host;
use mono_task::{Context, TaskFuture};
use std::alloc::Global;
use std::{mem, vec};

impl<X: Drop, E: Drop, Fut: Drop> MaybeDone<Fut, Result<X, E>> {
    // Returns whether the branch has failed.
    fn has_failed(&self) -> bool
        ensures { result ≡ has_failed self.now }
    {
        matches!(self, MaybeDone::Done(Err(_)))
    }

    // Returns the value, if it has been given.
    fn into_value(self) -> Option<X>
        ensures { result ≡ value_in self }
    {
        match self {
            MaybeDone::Done(Ok(value)) => Some(value),
            _ => None,
        }
    }

    // Gives up the future that remains, and returns the error, if there is one.
    fn give_up_failing<C: Context>(&mut self, cx: &mut C) -> Option<E>
    where
        Fut: TaskFuture<C, Output = Result<X, E>>,
        ensures error { result ≡ failure_of self.old }
        ensures gone { self.new ≡ MaybeDone.Gone }
        ensures cancelled { MaybeCancels Fut.TaskFuture self.old cx.old cx.new }
        ensures reached { C.reaches cx.old cx.new }
    {
        match mem::replace(self, MaybeDone::Gone) {
            MaybeDone::Future(future) => {
                future.cancel(cx);
                None
            }
            MaybeDone::Done(Err(error)) => Some(error),
            MaybeDone::Done(Ok(_)) => None,
            MaybeDone::Gone => None,
        }
    }
}

// Returns the first of two errors.
fn earlier_of<E: Drop>(first: Option<E>, later: Option<E>) -> Option<E>
    ensures { result ≡ earlier first later }
{
    match first {
        Some(error) => Some(error),
        None => later,
    }
}

// Polls each branch in the written order, up to the first that fails. Returns true if one has failed.
pub(crate) fn poll_until_failed<R, C, X, E, T>(
    rt: &R,
    alloc: Global,
    cx: &mut C,
    branches: &mut Vec<MaybeDone<T, Result<X, E>>>,
) -> bool
where
    R: Host,
    C: Context,
    X: Drop,
    E: Drop,
    T: TaskFuture<C, Output = Result<X, E>>,
    requires { AllMayPoll T.TaskFuture branches.old.items }
    ensures polled { TriesEach T.TaskFuture branches.old.items cx.old branches.new.items result cx.new }
    ensures length { vec_len branches.new ≡ vec_len branches.old }
    ensures failed { result ≡ list_any has_failed branches.new.items }
    ensures again { AllMayPoll T.TaskFuture branches.new.items }
    ensures narrows { AllZip (MaybeNarrows T.gives) branches.new.items branches.old.items }
    ensures reached { C.reaches cx.old cx.new }
{
    for i in 0..branches.len() {
        let _ = branches[i].poll(rt, alloc, cx);
        if branches[i].has_failed() {
            return true;
        }
    }
    false
}

// Returns whether a branch waits.
pub(crate) fn any_waiting<T: Drop, X: Drop>(branches: &[MaybeDone<T, X>]) -> bool
    ensures { result ≡ list_any is_waiting branches.now }
{
    for branch in branches {
        if branch.is_waiting() {
            return true;
        }
    }
    false
}

// Gives up each branch that remains, in the written order, and returns the first error.
pub(crate) fn give_up_failing<C, X, E, T>(
    cx: &mut C,
    branches: &mut Vec<MaybeDone<T, Result<X, E>>>,
) -> Option<E>
where
    C: Context,
    X: Drop,
    E: Drop,
    T: TaskFuture<C, Output = Result<X, E>>,
    ensures error { result ≡ first_failure branches.old.items }
    ensures length { vec_len branches.new ≡ vec_len branches.old }
    ensures given_up { EachInTurn (GivesUp T.TaskFuture) branches.old.items cx.old branches.new.items cx.new }
    ensures reached { C.reaches cx.old cx.new }
{
    let mut first = None;
    for i in 0..branches.len() {
        let later = branches[i].give_up_failing(cx);
        first = earlier_of(first, later);
    }
    first
}

// Moves the values, in the written order, to a vector that has the room for them.
pub(crate) fn collect_values<T: Drop, X: Drop, E: Drop>(
    mut branches: vec::IntoIter<MaybeDone<T, Result<X, E>>>,
    values: &mut Vec<X>,
)
    requires { vec_len values.old + into_iter_len branches ≤ vec_capacity values.old }
    ensures { values.new.items ≡ values.old.items ++ filter_map value_in (into_iter_items branches) }
{
    while let Some(branch) = branches.next() {
        if let Some(value) = branch.into_value() {
            if values.push(value).is_err() {
                unreachable!();
            }
        }
    }
}
