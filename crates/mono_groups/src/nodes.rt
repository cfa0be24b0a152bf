// One token: its parent, whether it was cancelled, and the tasks that wait for that.
ghost use Rattle.std.specs.Prelude.{◌≡◌, []};
ghost use Rattle.mono_groups.specs.Nodes.{AsksNode, LeavesNode, PaysNode};

use crate::waiters::{Asked, Waiters};
use std::alloc::Global;

/// A token of [`Tokens`](crate::tokens::Tokens).
#[derive(Drop)]
pub struct Token {
    pub(crate) parent: Option<u64>,
    pub(crate) is_cancelled: bool,
    pub(crate) waiters: Waiters,
}

impl Token {
    // Returns a token for which no task waits.
    pub(crate) fn new(alloc: Global, parent: Option<u64>, is_cancelled: bool) -> Token
        ensures parent { result.parent ≡ parent }
        ensures cancelled { result.is_cancelled ≡ is_cancelled }
        ensures waiters { result.waiters.entries.items ≡ [] }
    {
        Token {
            parent,
            is_cancelled,
            waiters: Waiters::new(alloc),
        }
    }

    // Answers a future of this task once the token was cancelled, or makes it wait.
    pub(crate) fn ask(&mut self, ticket: Option<u64>, me: u64) -> Asked<()>
        ensures { AsksNode self.old ticket me result self.new }
    {
        if self.is_cancelled {
            self.waiters.leave(ticket, me);
            return Asked::Got(());
        }
        self.waiters.stand(ticket, me)
    }

    // Takes a future out, in a turn of this task.
    pub(crate) fn leave(&mut self, ticket: Option<u64>, me: u64)
        ensures { LeavesNode self.old ticket me self.new }
    {
        self.waiters.leave(ticket, me);
    }

    // Takes the first task out, if the token was cancelled.
    pub(crate) fn pay(&mut self) -> Option<u64>
        ensures { PaysNode self.old result self.new }
    {
        if !self.is_cancelled {
            return None;
        }
        match self.waiters.pop() {
            None => None,
            Some(first) => Some(first.task),
        }
    }
}
