//! Sets of tasks whose outputs are joined in the order in which the tasks end.
ghost use Rattle.std.specs.Prelude.{◌≡◌, ◌==◌, [], false, ℕ};
ghost use Rattle.mono_sync.specs.Runs.{Leads, leads_itself, leads_on};
ghost use Rattle.mono_groups.specs.Answers.{len_of};
ghost use Rattle.mono_groups.specs.JoinSetRuns.{Step};
ghost use Rattle.mono_groups.specs.JoinSets.{key_of, listed_by, owed_by, waiting_in, names, Aborts, AsksAbort, Enters, Finishes, JoinsNext, LeavesAbort, LeavesJoin, PaysJoiner, Shuts, TriesNext};
ghost use Rattle.mono_task.specs.Owed.{Keeps};

use crate::answers::Answers;
pub use crate::gathered::{Gathered, GatheredUntil, gather};
pub use crate::join_set_calls::{
    AbortedCall, AbortedFuture, NextCall, NextFuture, ShutdownCall, ShutdownFuture, abort_all,
    all_aborted, join_next, shutdown,
};
pub use crate::members::{Ended, Member};
use crate::nodes::Token;
use crate::until::Aborted;
use crate::waiters::{Asked, Waiters};
use mono_task::SharedState;
use std::alloc::{AllocError, Global};

/// A set of tasks, whose outputs of type `T` are joined in the order in which the tasks end.
///
/// A future becomes a member before its task is spawned (`enter`), and runs as one (`gather`). Each member has one answer:
/// the output of its future, or why that was given up. Each answer is taken once.
///
/// `abort_all` aborts all members, those that enter later, too. A task that is dropped without its context stays a member.
#[derive(Drop)]
pub struct JoinSet<T> {
    pub(crate) answers: Answers<T>,
    // What the members wait for, to be aborted.
    pub(crate) abort: Token,
    // The tasks that wait for an answer, or for the end of all members.
    pub(crate) joiners: Waiters,
}

/// A set owes a wake to each member that waits once all were aborted. And it owes one to each task that waits for an answer
/// once there is one, or no member is left.
impl<T> SharedState for JoinSet<T> {
    ghost use Rattle.mono_groups.specs.SetListed.{set_some};

    ghost leads = { Leads Step };

    ghost names = { names };

    ghost lists = { listed_by };

    ghost waiting = { waiting_in };

    ghost owes = { owed_by };

    fn next_owed(&mut self) -> Option<u64> {
        if let Some(task) = self.abort.pay() {
            return Some(task);
        }
        self.pay_joiner()
    }

    ghost leads_itself = { leads_itself Step };

    ghost leads_on = { leads_on Step };

    ghost lists_some = { set_some };
}

impl<T> JoinSet<T> {
    /// Returns a set without members, which has given out no key.
    pub fn new(alloc: Global) -> JoinSet<T>
        ensures live { result.answers.live ≡ [] }
        ensures ended { result.answers.ended ≡ [] }
        ensures aborted { result.abort.is_cancelled ≡ false }
        ensures waiters { owed_by result ≡ [] }
    {
        JoinSet {
            answers: Answers::new(alloc),
            abort: Token::new(alloc, None, false),
            joiners: Waiters::new(alloc),
        }
    }

    /// Returns how many members there are whose answers were not taken.
    pub fn len(&self) -> u64
        ensures { result ≡ len_of self.now.answers }
    {
        self.answers.len()
    }

    /// Returns whether the answer of each member was taken.
    pub fn is_empty(&self) -> bool
        ensures { result ≡ (len_of self.now.answers == 0) }
    {
        self.answers.len() == 0
    }

    /// Returns whether the members were aborted.
    pub fn is_aborted(&self) -> bool
        ensures { result ≡ self.now.abort.is_cancelled }
    {
        self.abort.is_cancelled
    }

    /// Adds a member. It is aborted from the start if the members were. Refused if out of memory, or if the keys are used up.
    pub fn enter(&mut self, alloc: Global) -> Result<Member, AllocError>
        ensures answer { Enters self.old (key_of result) self.new }
        ensures leads { Leads Step self.old self.new }
        ensures keeps { (me : ℕ) → Keeps listed_by me self.old self.new }
    {
        Ok(Member {
            key: self.answers.come(alloc)?,
        })
    }

    /// Takes the answer of the member that ended first, or none if no answer is there.
    pub fn try_join_next(&mut self) -> Option<Ended<T>>
        ensures answer { TriesNext self.old result self.new }
        ensures leads { Leads Step self.old self.new }
        ensures keeps { (me : ℕ) → Keeps listed_by me self.old self.new }
    {
        self.answers.take()
    }

    // Answers a future with the first answer, or makes it wait.
    fn ask_next(&mut self, ticket: Option<u64>, me: u64) -> Asked<Option<Ended<T>>>
        ensures { JoinsNext self.old ticket me result self.new }
    {
        if !self.answers.is_ready() {
            return self.joiners.stand(ticket, me);
        }
        self.joiners.leave(ticket, me);
        Asked::Got(self.answers.take())
    }

    /// Answers a future of this task with the answer of the member that ended first, or with none if there is no member.
    /// The future waits while each member has still to end. The ticket is the one that it drew before.
    pub fn join_next(&mut self, ticket: Option<u64>, me: u64) -> Asked<Option<Ended<T>>>
        ensures answer { JoinsNext self.old ticket me result self.new }
        ensures leads { Leads Step self.old self.new }
        ensures keeps { Keeps listed_by me self.old self.new }
    {
        self.ask_next(ticket, me)
    }

    /// Aborts all members, those that enter later, too. A member gives its future up in its next turn.
    pub fn abort_all(&mut self)
        ensures answer { Aborts self.old self.new }
        ensures leads { Leads Step self.old self.new }
        ensures keeps { (me : ℕ) → Keeps listed_by me self.old self.new }
    {
        self.abort.is_cancelled = true;
    }

    /// Takes a future out of those that wait for an answer, in a turn of this task.
    pub fn give_up(&mut self, ticket: Option<u64>, me: u64)
        ensures answer { LeavesJoin self.old ticket me self.new }
        ensures leads { Leads Step self.old self.new }
        ensures keeps { Keeps listed_by me self.old self.new }
    {
        self.joiners.leave(ticket, me);
    }

    // Answers a member of this task once the members were aborted, or makes it wait.
    pub(crate) fn aborted(&mut self, ticket: Option<u64>, me: u64) -> Asked<()>
        ensures answer { AsksAbort self.old ticket me result self.new }
        ensures leads { Leads Step self.old self.new }
        ensures keeps { Keeps listed_by me self.old self.new }
    {
        self.abort.ask(ticket, me)
    }

    // Takes a member out of those that wait to be aborted, in a turn of this task.
    pub(crate) fn run_on(&mut self, ticket: Option<u64>, me: u64)
        ensures answer { LeavesAbort self.old ticket me self.new }
        ensures leads { Leads Step self.old self.new }
        ensures keeps { Keeps listed_by me self.old self.new }
    {
        self.abort.leave(ticket, me);
    }

    // Takes the first task out of those that wait for an answer, if one is there or no member is left.
    fn pay_joiner(&mut self) -> Option<u64>
        ensures { PaysJoiner self.old result self.new }
    {
        if !self.answers.is_ready() {
            return None;
        }
        match self.joiners.pop() {
            None => None,
            Some(first) => Some(first.task),
        }
    }
}

impl<T: Drop> JoinSet<T> {
    /// Ends a member with this answer. A member of another set ends the one with its key, if that lives.
    pub fn finish(&mut self, member: Member, answer: Result<T, Aborted>)
        ensures answer { Finishes self.old member.key answer self.new }
        ensures leads { Leads Step self.old self.new }
        ensures keeps { (me : ℕ) → Keeps listed_by me self.old self.new }
    {
        self.end(member.key, answer)
    }

    // Ends the member with this key, unless it has ended before.
    pub(crate) fn end(&mut self, key: u64, answer: Result<T, Aborted>)
        ensures answer { Finishes self.old key answer self.new }
        ensures leads { Leads Step self.old self.new }
        ensures keeps { (me : ℕ) → Keeps listed_by me self.old self.new }
    {
        self.answers.end(key, answer);
    }

    // Aborts all members and drops their answers. Answers a future once no member is left, or makes it wait.
    fn ask_shutdown(&mut self, ticket: Option<u64>, me: u64) -> Asked<()>
        ensures { Shuts self.old ticket me result self.new }
    {
        self.abort_all();
        self.answers.clear();
        if self.answers.lives() == 0 {
            self.joiners.leave(ticket, me);
            return Asked::Got(());
        }
        self.joiners.stand(ticket, me)
    }

    /// Aborts all members, those that enter later, too, and drops their answers. Answers a future of this task once no member
    /// is left, or makes it wait. The ticket is the one that the future drew before.
    pub fn shutdown(&mut self, ticket: Option<u64>, me: u64) -> Asked<()>
        ensures answer { Shuts self.old ticket me result self.new }
        ensures leads { Leads Step self.old self.new }
        ensures keeps { Keeps listed_by me self.old self.new }
    {
        self.ask_shutdown(ticket, me)
    }
}
