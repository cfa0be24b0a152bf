// Many branches that are polled until one fails or all values are there.
ghost use Rattle.std.specs.Prelude.{◌≡◌, ◌≤◌, ◌||◌, false, true, [], map, vec_len, vec_capacity, IfOk, IfErr};
ghost use Rattle.std.specs.List.{list_any};
ghost use Rattle.mono_combine.specs.Branches.{maybe_spent};
ghost use Rattle.mono_combine.specs.BranchLists.{AllCanPoll, AllCancel};
ghost use Rattle.mono_combine.specs.TryLists.{TryJoinListPolls, TryJoinListGives, tried_as, result_as};

use crate::list::{any_spent, fill, give_up_each};
use crate::maybe::MaybeDone;
use crate::try_list::{any_waiting, collect_values, give_up_failing, poll_until_failed};
use mono_model::{Host, Poll};
use mono_task::{Context, TaskFuture};
use std::alloc::Global;
use std::mem;

/// At most 64 futures of one type. Each poll polls every unfinished one once, in the written order, up to the first
/// that fails.
///
/// It returns the first error in the written order at once, and gives up the unfinished branches in the written order.
/// Otherwise it returns all values in the written order once all have been given (`try_join_rule`). It is spent once it
/// has answered. `new` reserves the room for the values, so no poll is out of memory.
#[derive(Drop)]
pub struct TryJoinList<T, X, E> {
    branches: Vec<MaybeDone<T, Result<X, E>>>,
    values: Vec<X>,
    has_answered: bool,
    ghost no_values: { values.items ≡ [] },
    ghost room: { vec_len branches ≤ vec_capacity values },
}

impl<T: Drop, X: Drop, E: Drop> TryJoinList<T, X, E> {
    /// Returns the join of at most 64 futures that are not spent. The futures come back only if the call is out of
    /// memory.
    pub fn new(alloc: Global, v: Vec<T>) -> Result<TryJoinList<T, X, E>, Vec<T>>
        requires few { vec_len v ≤ 64 }
        ensures made { IfOk result (λ form. form.branches.items ≡ map MaybeDone.Future v.items) }
        ensures fresh { IfOk result (λ form. form.has_answered ≡ false) }
        ensures handed_back { IfErr result (λ back. back ≡ v) }
    {
        let Ok(mut branches) = Vec::with_capacity(alloc, v.len()) else {
            return Err(v);
        };
        let Ok(values) = Vec::with_capacity(alloc, v.len()) else {
            return Err(v);
        };
        fill(v.into_iter(), &mut branches);
        Ok(TryJoinList {
            branches,
            values,
            has_answered: false,
        })
    }
}

impl<C, X, E, T> TaskFuture<C> for TryJoinList<T, X, E>
where
    C: Context,
    X: Drop,
    E: Drop,
    T: TaskFuture<C, Output = Result<X, E>>,
{
    type Output = Result<Vec<X>, E>;

    ghost is_spent = { λ f. f.has_answered || list_any (maybe_spent T.TaskFuture) f.branches.items };

    ghost can_poll = { λ f. AllCanPoll T.TaskFuture f.branches.items };

    ghost polls = { λ f c r g d. TryJoinListPolls T.TaskFuture f.branches.items c (tried_as (λ v. v.items) r) g.branches.items g.has_answered d };

    ghost gives = { λ f r. TryJoinListGives T.gives f.branches.items (result_as (λ v. v.items) r) };

    ghost cancels = { λ f c d. AllCancel T.TaskFuture f.branches.items c d };

    fn spent(&self) -> bool {
        self.has_answered || any_spent(&self.branches)
    }

    fn poll<R: Host>(&mut self, rt: &R, alloc: Global, cx: &mut C) -> Poll<Result<Vec<X>, E>> {
        if poll_until_failed(rt, alloc, cx, &mut self.branches) {
            self.has_answered = true;
            return match give_up_failing(cx, &mut self.branches) {
                Some(error) => Poll::Ready(Err(error)),
                None => unreachable!(),
            };
        }
        if any_waiting(&self.branches) {
            return Poll::Pending;
        }
        self.has_answered = true;
        let branches = mem::replace(&mut self.branches, Vec::new(alloc));
        let mut values = mem::replace(&mut self.values, Vec::new(alloc));
        collect_values(branches.into_iter(), &mut values);
        Poll::Ready(Ok(values))
    }

    fn cancel(mut self, cx: &mut C) {
        give_up_each(cx, &mut self.branches);
    }
}
