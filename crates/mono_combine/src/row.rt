// The branches of a select of a list.
ghost use Rattle.std.specs.Prelude.{◌≡◌, true, ◌≤◌, ◌+◌, ◌++◌, ◌<◌, false, length, vec_len, vec_capacity};
ghost use Rattle.std.specs.List.{list_any, All, AllZip};
ghost use Rattle.std.specs.Vec.Iter.{into_iter_items, into_iter_len};
ghost use Rattle.mono_combine.specs.Looks.{is_out, branch_spent, BranchCanPoll, BranchNarrows, LookGives, TestsGivenAt, ReturnsFor, HasTurnAt};
ghost use Rattle.mono_combine.specs.Rules.{unless_masked};
ghost use Rattle.mono_combine.specs.BranchLists.{EachInTurn};
ghost use Rattle.mono_combine.specs.ListSelects.{masked_from, TestsEach, MayLook, BranchEnds, RowSelects, PickGives};

use crate::branch::{Branch, Look, branch_of};
use mono_model::{Host, Poll};
use mono_task::{Context, TaskFuture};
use std::alloc::Global;
use std::vec;

impl<T> Branch<T> {
    // Gives the branch with this number its turn; the predicate sees the number, too.
    pub(crate) fn look_at<R: Host, C: Context, P>(
        &mut self,
        number: u32,
        test: &P,
        rt: &R,
        alloc: Global,
        cx: &mut C,
    ) -> Look<T::Output>
    where
        T: TaskFuture<C, Output: Drop>,
        P: Fn(u32, &T::Output) -> bool,
        requires unspent { branch_spent T.TaskFuture self.old ≡ false }
        requires callable { BranchCanPoll T.TaskFuture self.old }
        requires test { TestsGivenAt T.gives P.Fn test.now number self.old }
        ensures turn { HasTurnAt T.TaskFuture P.Fn test.now number self.old cx.old result self.new cx.new }
        ensures counts { unless_masked (is_out self.old) result ≡ result }
        ensures unspent { branch_spent T.TaskFuture self.new ≡ false }
        ensures given { LookGives T.gives (λ x. ReturnsFor P.Fn test.now number x true) self.old result }
        ensures narrows { BranchNarrows T.gives self.new self.old }
        ensures callable { BranchCanPoll T.TaskFuture self.new }
        ensures reached { C.reaches cx.old cx.new }
    {
        match self {
            Branch::Live(future) => match future.poll(rt, alloc, cx) {
                Poll::Ready(x) => {
                    self.give_up(cx);
                    if test(number, &x) {
                        Look::Passes(x)
                    } else {
                        Look::Rests
                    }
                }
                Poll::Pending => Look::Waits,
            },
            Branch::Out(_) => Look::Rests,
            Branch::Gone => Look::Rests,
        }
    }
}

// Puts the futures into the branches, which have the room for them, and leaves out those whose bit in the mask is set.
pub(crate) fn mask_each<T: Drop>(
    mut futures: vec::IntoIter<T>,
    mask: u64,
    branches: &mut Vec<Branch<T>>,
)
    requires room { vec_len branches.old + into_iter_len futures ≤ vec_capacity branches.old }
    requires few { vec_len branches.old + into_iter_len futures ≤ 64 }
    ensures masked { branches.new.items ≡ branches.old.items ++ masked_from mask (vec_len branches.old) (into_iter_items futures) }
    ensures length { vec_len branches.new ≡ vec_len branches.old + into_iter_len futures }
{
    while let Some(future) = futures.next() {
        let is_left_out = (mask >> branches.len()) % 2 == 1;
        if branches.push(branch_of(future, is_left_out)).is_err() {
            unreachable!();
        }
    }
}

// Returns whether a branch is spent.
pub(crate) fn any_branch_spent<C: Context, T: TaskFuture<C>>(branches: &Vec<Branch<T>>) -> bool
    ensures { result ≡ list_any (branch_spent T.TaskFuture) branches.now.items }
{
    for branch in branches {
        if branch.spent() {
            return true;
        }
    }
    false
}

// Gives the branches their turns from the start on and around the end, up to the first that passes, and returns the
// pick.
pub(crate) fn look_round<R, C, T, G>(
    rt: &R,
    alloc: Global,
    cx: &mut C,
    branches: &mut Vec<Branch<T>>,
    test: &G,
    start: usize,
) -> Poll<Option<(u32, T::Output)>>
where
    R: Host,
    C: Context,
    T: TaskFuture<C, Output: Drop>,
    G: Fn(u32, &T::Output) -> bool,
    requires below { start < vec_len branches.old }
    requires few { vec_len branches.old ≤ 64 }
    requires may { All (MayLook T.TaskFuture) branches.old.items }
    requires test { TestsEach T.gives G.Fn test.now branches.old.items }
    ensures selects { RowSelects T.TaskFuture G.Fn test.now start (record { branches = branches.old.items; cx = cx.old }) result (record { branches = branches.new.items; cx = cx.new }) }
    ensures length { vec_len branches.new ≡ vec_len branches.old }
    ensures again { All (MayLook T.TaskFuture) branches.new.items }
    ensures given { PickGives T.gives G.Fn test.now branches.old.items result }
    ensures narrows { AllZip (BranchNarrows T.gives) branches.new.items branches.old.items }
    ensures reached { C.reaches cx.old cx.new }
{
    let count = branches.len();
    let mut some_wait = false;
    for turn in 0..count {
        let place = (start + turn) % count;
        let number = place as u32;
        match branches[place].look_at(number, test, rt, alloc, cx) {
            Look::Passes(x) => return Poll::Ready(Some((number, x))),
            Look::Waits => some_wait = true,
            Look::Rests => {}
        }
    }
    if some_wait {
        Poll::Pending
    } else {
        Poll::Ready(None)
    }
}

// Gives up each branch that remains, in the written order.
pub(crate) fn end_each<C: Context, T: TaskFuture<C>>(cx: &mut C, branches: &mut Vec<Branch<T>>)
    ensures ended { EachInTurn (BranchEnds T.TaskFuture) branches.old.items cx.old branches.new.items cx.new }
    ensures length { vec_len branches.new ≡ vec_len branches.old }
    ensures reached { C.reaches cx.old cx.new }
{
    for i in 0..branches.len() {
        branches[i].give_up(cx);
    }
}
