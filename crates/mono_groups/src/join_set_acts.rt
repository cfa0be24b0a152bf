// Calls on a set of tasks as futures: each is made in one turn.
ghost use Rattle.std.specs.Prelude.{◌≡◌, is_some, true};
ghost use Rattle.mono_groups.specs.JoinSets.{key_of, Aborts, Enters, TriesNext};

use crate::join_set::JoinSet;
use crate::join_set_calls::abort_part;
use crate::members::{Ended, Member};
use mono_sync::Holds;
use mono_sync::acts::{Act, AtOnce, perform};
use std::alloc::{AllocError, Global};
use std::marker::PhantomData;

/// A call of [`enter`].
#[derive(Drop)]
pub struct EnterCall<T> {
    output: PhantomData<T>,
}

/// Adds a member to the tasks' set. It is aborted from the start if the members were. Refused if out of memory, or if the keys
/// are used up.
pub fn enter<W, T>() -> AtOnce<W, EnterCall<T>>
    ensures unspent { is_some result.act ≡ true }
{
    perform(EnterCall {
        output: PhantomData,
    })
}

impl<W: Holds<JoinSet<T>>, T> Act<W> for EnterCall<T> {
    type Answer = Result<Member, AllocError>;

    ghost acts = { λ a w r v. Enters (W.part w) (key_of r) (W.part v) };

    fn act(self, alloc: Global, shared: &mut W) -> Result<Member, AllocError> {
        shared.part_mut().enter(alloc)
    }
}

/// A call of [`try_join_next`].
#[derive(Drop)]
pub struct TryJoinNextCall<T> {
    output: PhantomData<T>,
}

/// Takes the answer of the member that ended first, or none if no answer is there.
pub fn try_join_next<W, T>() -> AtOnce<W, TryJoinNextCall<T>>
    ensures unspent { is_some result.act ≡ true }
{
    perform(TryJoinNextCall {
        output: PhantomData,
    })
}

impl<W: Holds<JoinSet<T>>, T> Act<W> for TryJoinNextCall<T> {
    type Answer = Option<Ended<T>>;

    ghost acts = { λ a w r v. TriesNext (W.part w) r (W.part v) };

    fn act(self, _alloc: Global, shared: &mut W) -> Option<Ended<T>> {
        shared.part_mut().try_join_next()
    }
}

/// A call of [`abort_all`].
#[derive(Drop)]
pub struct AbortAllCall<T> {
    output: PhantomData<T>,
}

/// Aborts all members, those that enter later, too. The runtime wakes those that wait after the turn, and each gives its future
/// up.
pub fn abort_all<W, T>() -> AtOnce<W, AbortAllCall<T>>
    ensures unspent { is_some result.act ≡ true }
{
    perform(AbortAllCall {
        output: PhantomData,
    })
}

impl<W: Holds<JoinSet<T>>, T> Act<W> for AbortAllCall<T> {
    type Answer = ();

    ghost acts = { λ a w r v. Aborts (W.part w) (W.part v) };

    fn act(self, _alloc: Global, shared: &mut W) {
        abort_part::<W, T>(shared)
    }
}
