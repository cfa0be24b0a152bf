// Many branches; the answer is the first output that is ready and passes the predicate.
ghost use Rattle.std.specs.Prelude.{◌≡◌, ◌≤◌, ◌<◌, ◌||◌, false, vec_len, IfOk, IfErr};
ghost use Rattle.std.specs.List.{list_any, All};
ghost use Rattle.mono_combine.specs.Looks.{branch_spent, BranchCanPoll};
ghost use Rattle.mono_combine.specs.Starts.{next_start};
ghost use Rattle.mono_combine.specs.ListSelects.{masked_from, TestsEach, SelectListPolls, RowCancels, SelectListGives, out_of};

use crate::branch::Branch;
use crate::pick::Out;
use crate::row::{any_branch_spent, end_each, look_round, mask_each};
use crate::start::Start;
use mono_model::{Host, Poll};
use mono_task::{Context, TaskFuture};
use std::alloc::Global;

/// From 1 to 64 futures of one type; the answer is the first output that is ready and passes the predicate
/// (`select_rule`).
///
/// Each poll draws anew which branch has its turn first; the others follow in the written order, around the end. A
/// branch that is ready is given up at once and is out from then on, even if the predicate is false for its number and
/// output. Once a branch is picked or none is left, the unfinished branches are given up in the written order,
/// including those that the mask left out. The select is spent once it has answered.
///
/// A poll requires (`can_poll`) that the predicate may be called with each output that a branch may give.
#[derive(Drop)]
pub struct SelectList<T, G> {
    pub(crate) branches: Vec<Branch<T>>,
    pub(crate) test: G,
    pub(crate) start: Start,
    pub(crate) has_answered: bool,
    ghost some: { 0 < vec_len branches },
    ghost few: { vec_len branches ≤ 64 },
}

// Returns the answer of a poll that ends.
fn answer_of<X>(pick: Option<(u32, X)>) -> Out<X>
    ensures { result ≡ out_of pick }
{
    match pick {
        Some((number, x)) => Out::Picked(number, x),
        None => Out::Disabled,
    }
}

impl<T: Drop, G> SelectList<T, G> {
    /// Returns the select of 1 to 64 futures that are not spent, with a predicate of a branch's number and its output.
    /// Bit `i` of the mask leaves out the branch with the number `i`; further bits have no effect. The futures and the
    /// predicate come back only if the call is out of memory.
    pub fn new(
        alloc: Global,
        v: Vec<T>,
        g: G,
        mask: u64,
        start: Start,
    ) -> Result<SelectList<T, G>, (Vec<T>, G)>
        requires some { 0 < vec_len v }
        requires few { vec_len v ≤ 64 }
        ensures made { IfOk result (λ form. form.branches.items ≡ masked_from mask 0 v.items) }
        ensures test { IfOk result (λ form. form.test ≡ g) }
        ensures start { IfOk result (λ form. form.start ≡ start) }
        ensures fresh { IfOk result (λ form. form.has_answered ≡ false) }
        ensures handed_back { IfErr result (λ back. back ≡ (v, g)) }
    {
        let Ok(mut branches) = Vec::with_capacity(alloc, v.len()) else {
            return Err((v, g));
        };
        mask_each(v.into_iter(), mask, &mut branches);
        Ok(SelectList {
            branches,
            test: g,
            start,
            has_answered: false,
        })
    }
}

impl<C, T, G> TaskFuture<C> for SelectList<T, G>
where
    C: Context,
    T: TaskFuture<C, Output: Drop>,
    G: Fn(u32, &T::Output) -> bool + Drop,
{
    type Output = Out<T::Output>;

    ghost is_spent = { λ s. s.has_answered || list_any (branch_spent T.TaskFuture) s.branches.items };

    ghost can_poll = { λ s. All (BranchCanPoll T.TaskFuture) s.branches.items × TestsEach T.gives G.Fn s.test s.branches.items };

    ghost polls = { λ s c r t d. SelectListPolls T.TaskFuture G.Fn s.test s.start s.branches.items c r t.branches.items t.has_answered d × (t.test ≡ s.test) × (t.start ≡ next_start s.start) };

    ghost gives = { λ s. SelectListGives T.gives G.Fn s.test s.branches.items };

    ghost cancels = { λ s c d. RowCancels T.TaskFuture s.branches.items c d };

    fn spent(&self) -> bool {
        self.has_answered || any_branch_spent(&self.branches)
    }

    fn poll<R: Host>(&mut self, rt: &R, alloc: Global, cx: &mut C) -> Poll<Out<T::Output>> {
        let count = self.branches.len();
        let start = self.start.draw(count as u32);
        match look_round(
            rt,
            alloc,
            cx,
            &mut self.branches,
            &self.test,
            start as usize,
        ) {
            Poll::Ready(pick) => {
                end_each(cx, &mut self.branches);
                self.has_answered = true;
                Poll::Ready(answer_of(pick))
            }
            Poll::Pending => Poll::Pending,
        }
    }

    fn cancel(mut self, cx: &mut C) {
        end_each(cx, &mut self.branches);
    }
}
