// Many branches that are polled until all outputs are there.
ghost use Rattle.std.specs.Prelude.{◌≡◌, ◌≤◌, ◌||◌, false, true, [], map, vec_len, vec_capacity, IfOk, IfErr};
ghost use Rattle.std.specs.List.{list_any, AllZip};
ghost use Rattle.mono_combine.specs.Branches.{maybe_spent, MaybeGives};
ghost use Rattle.mono_combine.specs.BranchLists.{AllCanPoll, JoinListPolls, AllCancel, answer_as};

use crate::list::{any_spent, collect, fill, give_up_each, poll_each};
use crate::maybe::MaybeDone;
use mono_model::{Host, Poll};
use mono_task::{Context, TaskFuture};
use std::alloc::Global;
use std::mem;

/// At most 64 futures of one type. Each poll polls every unfinished one once, in the written order.
///
/// It returns all outputs in the written order once all have been given (`join_rule`), and is spent from then on. `new`
/// reserves the room for the outputs, so no poll is out of memory.
#[derive(Drop)]
pub struct JoinList<T, X> {
    branches: Vec<MaybeDone<T, X>>,
    outputs: Vec<X>,
    has_answered: bool,
    ghost no_outputs: { outputs.items ≡ [] },
    ghost room: { vec_len branches ≤ vec_capacity outputs },
}

impl<T: Drop, X: Drop> JoinList<T, X> {
    /// Returns the join of at most 64 futures that are not spent. The futures come back only if the call is out of
    /// memory.
    pub fn new(alloc: Global, v: Vec<T>) -> Result<JoinList<T, X>, Vec<T>>
        requires few { vec_len v ≤ 64 }
        ensures made { IfOk result (λ form. form.branches.items ≡ map MaybeDone.Future v.items) }
        ensures fresh { IfOk result (λ form. form.has_answered ≡ false) }
        ensures handed_back { IfErr result (λ back. back ≡ v) }
    {
        let Ok(mut branches) = Vec::with_capacity(alloc, v.len()) else {
            return Err(v);
        };
        let Ok(outputs) = Vec::with_capacity(alloc, v.len()) else {
            return Err(v);
        };
        fill(v.into_iter(), &mut branches);
        Ok(JoinList {
            branches,
            outputs,
            has_answered: false,
        })
    }
}

impl<C: Context, X: Drop, T: TaskFuture<C, Output = X>> TaskFuture<C> for JoinList<T, X> {
    type Output = Vec<X>;

    ghost is_spent = { λ f. f.has_answered || list_any (maybe_spent T.TaskFuture) f.branches.items };

    ghost can_poll = { λ f. AllCanPoll T.TaskFuture f.branches.items };

    ghost polls = { λ f c r g d. JoinListPolls T.TaskFuture f.branches.items c (answer_as (λ v. v.items) r) g.branches.items g.has_answered d };

    ghost gives = { λ f v. AllZip (MaybeGives T.gives) f.branches.items v.items };

    ghost cancels = { λ f c d. AllCancel T.TaskFuture f.branches.items c d };

    fn spent(&self) -> bool {
        self.has_answered || any_spent(&self.branches)
    }

    fn poll<R: Host>(&mut self, rt: &R, alloc: Global, cx: &mut C) -> Poll<Vec<X>> {
        if poll_each(rt, alloc, cx, &mut self.branches) {
            return Poll::Pending;
        }
        self.has_answered = true;
        let branches = mem::replace(&mut self.branches, Vec::new(alloc));
        let mut outputs = mem::replace(&mut self.outputs, Vec::new(alloc));
        collect(branches.into_iter(), &mut outputs);
        Poll::Ready(outputs)
    }

    fn cancel(mut self, cx: &mut C) {
        give_up_each(cx, &mut self.branches);
    }
}
