// Many branches of one type that keep their output.
ghost use Rattle.std.specs.Prelude.{◌≡◌, ◌≤◌, ◌+◌, ◌++◌, false, length, map, vec_len, vec_capacity};
ghost use Rattle.std.specs.List.{list_any, filter_map, AllZip};
ghost use Rattle.std.specs.Vec.Iter.{into_iter_items, into_iter_len};
ghost use Rattle.mono_combine.specs.Branches.{maybe_spent, is_waiting, output_of, Advances, MaybeNarrows};
ghost use Rattle.mono_combine.specs.BranchLists.{EachInTurn, AllMayPoll, GivesUp};

use crate::maybe::{MaybeDone, maybe_done};
use mono_model::Host;
use mono_task::{Context, TaskFuture};
use std::alloc::Global;
use std::vec;

// Appends the futures to the branches, which have the room for them.
pub(crate) fn fill<T: Drop, X: Drop>(
    mut futures: vec::IntoIter<T>,
    branches: &mut Vec<MaybeDone<T, X>>,
)
    requires { vec_len branches.old + into_iter_len futures ≤ vec_capacity branches.old }
    ensures { branches.new.items ≡ branches.old.items ++ map MaybeDone.Future (into_iter_items futures) }
{
    while let Some(future) = futures.next() {
        if branches.push(maybe_done(future)).is_err() {
            unreachable!();
        }
    }
}

// Returns whether a branch is spent. It takes the vector, since a form over results cannot borrow it as a slice from a
// `&self`.
pub(crate) fn any_spent<C: Context, X: Drop, T: TaskFuture<C, Output = X>>(
    branches: &Vec<MaybeDone<T, X>>,
) -> bool
    ensures { result ≡ list_any (maybe_spent T.TaskFuture) branches.now.items }
{
    for branch in branches {
        if branch.spent() {
            return true;
        }
    }
    false
}

// Polls each branch once, in the written order. Returns true if one of them waits.
pub(crate) fn poll_each<R: Host, C: Context, X: Drop, T: TaskFuture<C, Output = X>>(
    rt: &R,
    alloc: Global,
    cx: &mut C,
    branches: &mut Vec<MaybeDone<T, X>>,
) -> bool
    requires { AllMayPoll T.TaskFuture branches.old.items }
    ensures polled { EachInTurn (Advances T.TaskFuture) branches.old.items cx.old branches.new.items cx.new }
    ensures length { vec_len branches.new ≡ vec_len branches.old }
    ensures waits { result ≡ list_any is_waiting branches.new.items }
    ensures again { AllMayPoll T.TaskFuture branches.new.items }
    ensures narrows { AllZip (MaybeNarrows T.gives) branches.new.items branches.old.items }
    ensures reached { C.reaches cx.old cx.new }
{
    let mut waits = false;
    for i in 0..branches.len() {
        if branches[i].poll(rt, alloc, cx).is_pending() {
            waits = true;
        }
    }
    waits
}

// Gives up each branch that remains, in the written order.
pub(crate) fn give_up_each<C: Context, X: Drop, T: TaskFuture<C, Output = X>>(
    cx: &mut C,
    branches: &mut Vec<MaybeDone<T, X>>,
)
    ensures given_up { EachInTurn (GivesUp T.TaskFuture) branches.old.items cx.old branches.new.items cx.new }
    ensures reached { C.reaches cx.old cx.new }
{
    for i in 0..branches.len() {
        branches[i].give_up(cx);
    }
}

// Moves the outputs, in the written order, to a vector that has the room for them.
pub(crate) fn collect<T: Drop, X: Drop>(
    mut branches: vec::IntoIter<MaybeDone<T, X>>,
    outputs: &mut Vec<X>,
)
    requires { vec_len outputs.old + into_iter_len branches ≤ vec_capacity outputs.old }
    ensures { outputs.new.items ≡ outputs.old.items ++ filter_map output_of (into_iter_items branches) }
{
    while let Some(mut branch) = branches.next() {
        if let Some(output) = branch.take_output() {
            if outputs.push(output).is_err() {
                unreachable!();
            }
        }
    }
}
