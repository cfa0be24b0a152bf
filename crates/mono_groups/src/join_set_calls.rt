// The calls of a task on a set of tasks: it joins the next member, shuts the set down, and waits to be aborted.
ghost use Rattle.std.specs.Prelude.{◌≡◌, false, ℕ};
ghost use Rattle.mono_groups.specs.Gathered.{EndsIn};
ghost use Rattle.mono_groups.specs.JoinSets.{Aborts, AsksAbort, Finishes, JoinsNext, LeavesAbort, LeavesJoin, Shuts};
ghost use Rattle.mono_task.specs.Owed.{Keeps};

use crate::asks::{Ask, Asking, ask_for};
use crate::join_set::JoinSet;
use crate::members::Ended;
use crate::until::Aborted;
use crate::waiters::Asked;
use mono_sync::Holds;
use mono_task::SharedContext;
use std::marker::PhantomData;

/// A call of [`join_next`].
#[derive(Drop)]
pub struct NextCall<T> {
    output: PhantomData<T>,
}

/// A future that waits until a member of the tasks' set has ended.
pub type NextFuture<W, T> = Asking<W, NextCall<T>>;

/// Returns a future that answers with the answer of the member that ended first, or with none if there is no member. It
/// fails if out of memory.
pub fn join_next<W, T>() -> NextFuture<W, T>
    ensures unspent { result.has_answered ≡ false }
{
    ask_for(NextCall {
        output: PhantomData,
    })
}

impl<W: Holds<JoinSet<T>>, T> Ask<W> for NextCall<T> {
    type Gets = Option<Ended<T>>;

    ghost asks = { λ k ticket me w r v. JoinsNext (W.part w) ticket me r (W.part v) };

    ghost leaves = { λ k ticket me w v. LeavesJoin (W.part w) ticket me (W.part v) };

    fn ask(&self, shared: &mut W, ticket: Option<u64>, me: u64) -> Asked<Option<Ended<T>>> {
        shared.part_mut().join_next(ticket, me)
    }

    fn leave(&self, shared: &mut W, ticket: Option<u64>, me: u64) {
        shared.part_mut().give_up(ticket, me)
    }
}

/// A call of [`shutdown`].
#[derive(Drop)]
pub struct ShutdownCall<T> {
    output: PhantomData<T>,
}

/// A future that aborts the members of the tasks' set, and waits until all have ended.
pub type ShutdownFuture<W, T> = Asking<W, ShutdownCall<T>>;

/// Returns a future that aborts all members, those that enter later, too, and drops their answers. It ends once no member is
/// left. It fails if out of memory.
pub fn shutdown<W, T>() -> ShutdownFuture<W, T>
    ensures unspent { result.has_answered ≡ false }
{
    ask_for(ShutdownCall {
        output: PhantomData,
    })
}

impl<W: Holds<JoinSet<T>>, T: Drop> Ask<W> for ShutdownCall<T> {
    type Gets = ();

    ghost asks = { λ k ticket me w r v. Shuts (W.part w) ticket me r (W.part v) };

    ghost leaves = { λ k ticket me w v. LeavesJoin (W.part w) ticket me (W.part v) };

    fn ask(&self, shared: &mut W, ticket: Option<u64>, me: u64) -> Asked<()> {
        shared.part_mut().shutdown(ticket, me)
    }

    fn leave(&self, shared: &mut W, ticket: Option<u64>, me: u64) {
        shared.part_mut().give_up(ticket, me)
    }
}

/// A call of a member, which waits until the members are aborted.
#[derive(Drop)]
pub struct AbortedCall<T> {
    output: PhantomData<T>,
}

/// A future that waits until the members of the tasks' set are aborted.
pub type AbortedFuture<W, T> = Asking<W, AbortedCall<T>>;

/// Returns a future that ends once the members were aborted, at its first poll if they were before. It fails if out of memory.
pub fn all_aborted<W, T>() -> AbortedFuture<W, T>
    ensures unspent { result.has_answered ≡ false }
{
    ask_for(AbortedCall {
        output: PhantomData,
    })
}

impl<W: Holds<JoinSet<T>>, T> Ask<W> for AbortedCall<T> {
    type Gets = ();

    ghost asks = { λ k ticket me w r v. AsksAbort (W.part w) ticket me r (W.part v) };

    ghost leaves = { λ k ticket me w v. LeavesAbort (W.part w) ticket me (W.part v) };

    fn ask(&self, shared: &mut W, ticket: Option<u64>, me: u64) -> Asked<()> {
        shared.part_mut().aborted(ticket, me)
    }

    fn leave(&self, shared: &mut W, ticket: Option<u64>, me: u64) {
        shared.part_mut().run_on(ticket, me)
    }
}

// Aborts all members.
pub(crate) fn abort_part<W: Holds<JoinSet<T>>, T>(whole: &mut W)
    ensures answer { Aborts (W.part whole.old) (W.part whole.new) }
    ensures leads { W.leads whole.old whole.new }
    ensures keeps { (me : ℕ) → Keeps W.lists me whole.old whole.new }
{
    whole.part_mut().abort_all()
}

/// Aborts all members, those that enter later, too. The runtime wakes those that wait after the turn, and each gives its future
/// up.
pub fn abort_all<W: Holds<JoinSet<T>>, T, C: SharedContext<W>>(cx: &mut C)
    ensures answer { Aborts (W.part (C.shared cx.old)) (W.part (C.shared cx.new)) }
    ensures work { C.work cx.new ≡ C.work cx.old }
    ensures reached { C.reaches cx.old cx.new }
{
    abort_part::<W, T>(cx.shared_mut())
}

// Ends the member with this key.
fn end_part<W: Holds<JoinSet<T>>, T: Drop>(whole: &mut W, key: u64, answer: Result<T, Aborted>)
    ensures answer { Finishes (W.part whole.old) key answer (W.part whole.new) }
    ensures leads { W.leads whole.old whole.new }
    ensures keeps { (me : ℕ) → Keeps W.lists me whole.old whole.new }
{
    whole.part_mut().end(key, answer)
}

// Ends the member with this key, in the running task's turn.
pub(crate) fn end_in<W: Holds<JoinSet<T>>, T: Drop, C: SharedContext<W>>(
    cx: &mut C,
    key: u64,
    answer: Result<T, Aborted>,
)
    ensures ended { EndsIn (λ c. W.part (C.shared c)) C.work key answer cx.old cx.new }
    ensures reached { C.reaches cx.old cx.new }
{
    end_part::<W, T>(cx.shared_mut(), key, answer)
}
