// The members of a set of tasks, and their answers. A member that has not ended has room for its answer.
ghost use Rattle.std.specs.Prelude.{◌≡◌, ◌==◌, []};
ghost use Rattle.mono_groups.specs.Answers.{Comes, Ends, Takes, is_ready, len_of, lives};

use crate::members::Ended;
use crate::until::Aborted;
use mono_table::Table;
use std::alloc::{AllocError, Global};
use std::collections::VecDeque;
use std::marker::Model;

/// The members of a set of tasks: those that have not ended, by their keys, and the answers of those that have.
#[derive(Drop)]
pub(crate) struct Answers<T> {
    live: Table<()>,
    ended: VecDeque<Ended<T>>,
}

impl<T> Model for Answers<T> {
    ghost use Rattle.std.specs.Prelude.{◌+◌, ◌≤◌};
    ghost use Rattle.std.specs.VecDeque.{deque_len, deque_capacity};
    ghost use Rattle.mono_model.specs.Table.{count_of};
    ghost use Rattle.mono_groups.specs.Answers.{Held};

    ghost Value = { Held T };

    ghost view = { λ a. record { live = a.live; ended = a.ended.items } };

    // There is room for the answer of each member.
    ghost invariant = { λ a. deque_len a.ended + count_of a.live ≤ deque_capacity a.ended };
}

impl<T> Answers<T> {
    // Returns a value without members, which has given out no key.
    pub(crate) fn new(alloc: Global) -> Answers<T>
        ensures live { result.live ≡ [] }
        ensures ended { result.ended ≡ [] }
    {
        Answers {
            live: Table::new(alloc),
            ended: VecDeque::new(alloc),
        }
    }

    // Returns how many members have not ended.
    pub(crate) fn lives(&self) -> u64
        ensures { result ≡ lives self.now }
    {
        self.live.count()
    }

    // Returns how many members there are whose answers were not taken.
    pub(crate) fn len(&self) -> u64
        ensures { result ≡ len_of self.now }
    {
        self.live.count() + self.ended.len() as u64
    }

    // Returns whether an answer is there, or no member has still to end.
    pub(crate) fn is_ready(&self) -> bool
        ensures { result ≡ is_ready self.now }
    {
        self.live.count() == 0 || !self.ended.is_empty()
    }

    // Adds a member and reserves room for its answer. Returns its key.
    pub(crate) fn come(&mut self, alloc: Global) -> Result<u64, AllocError>
        ensures { Comes self.old result self.new }
    {
        let key = self.live.len();
        if key == u64::MAX {
            return Err(AllocError);
        }
        self.ended.reserve(self.live.count() as usize + 1)?;
        self.live.push(alloc, ())?;
        Ok(key)
    }

    // Takes the first answer.
    pub(crate) fn take(&mut self) -> Option<Ended<T>>
        ensures { Takes self.old result self.new }
    {
        self.ended.pop_front()
    }
}

impl<T: Drop> Answers<T> {
    // Ends the member with this key, unless it has ended before.
    pub(crate) fn end(&mut self, key: u64, answer: Result<T, Aborted>)
        ensures { Ends self.old key answer self.new }
    {
        if self.live.get(key).is_some() {
            self.live.remove(key);
            self.ended.push_back_reserved(Ended { key, answer });
        }
    }

    // Drops all answers.
    pub(crate) fn clear(&mut self)
        ensures live { self.new.live ≡ self.old.live }
        ensures ended { self.new.ended ≡ [] }
    {
        self.ended.clear();
    }
}
