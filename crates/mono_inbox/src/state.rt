// The state of an inbox: which tasks wait, and which are known.
ghost use Rattle.std.specs.Prelude.{◌≡◌, ◌+◌, ◌<◌, ◌≤◌, false, IfOk, OnOk, OnErr, MatchOption, length, vec_len, vec_capacity, [], ◌∷◌, ◌++◌};
ghost use Rattle.std.specs.VecDeque.{deque_len, deque_capacity};
ghost use Rattle.mono_model.specs.Inbox.{is_waiting};
ghost use Rattle.mono_inbox.specs.State.{no_state, is_known, put_answer, after_put, with_list, HasNoDoubles, AlsoKnows, AlsoKnowsRow, Forgets, ForgetsRow};

use crate::marks::Marks;
use crate::standings::{Standing, is_idle};
use std::alloc::{AllocError, Global};
use std::collections::VecDeque;
use std::marker::Model;

/// The number of places that the list reserves for its first task.
const LEAST_ROOM: usize = 4;

/// The tasks that other threads have woken, each once and in order, and the tasks that other threads may wake.
///
/// The memory is eight bytes for each task that is known or waits, and a byte for each of the 4,096 numbers around it.
/// Nothing remains of a task that has ended, except for 40 bytes for every 1,048,576 numbers.
#[derive(Drop)]
pub struct InboxState {
    waiting: VecDeque<u64>,
    standings: Marks,
    places: usize,
}

impl Model for InboxState {
    ghost use Rattle.std.specs.Prelude.{map};
    ghost use Rattle.std.specs.VecDeque.{deque_capacity};
    ghost use Rattle.mono_inbox.specs.State.{State};

    ghost Value = { State };

    ghost use Rattle.mono_inbox.specs.Standings.{knows};
    ghost use Rattle.mono_inbox.specs.Invariants.{IsSound};

    ghost view = { λ a. record { waiting = a.waiting.items; known = map knows a.standings } };

    ghost invariant = { λ a. IsSound a.waiting.items a.standings a.places (deque_capacity a.waiting) };
}

impl InboxState {
    /// Returns an inbox in which no task waits and no task is known, with room for `capacity` tasks.
    pub fn new(alloc: Global, capacity: usize) -> Result<InboxState, AllocError>
        ensures { IfOk result (λ state. state ≡ no_state) }
    {
        Ok(InboxState {
            waiting: VecDeque::with_capacity(alloc, capacity)?,
            standings: Marks::new(alloc),
            places: 0,
        })
    }

    /// Makes the task known and reserves its place in the list, so that no later `put` of it takes memory.
    ///
    /// Nothing changes if it is out of memory. It never is for a task that is known or waits (`wanted`).
    pub fn know(&mut self, alloc: Global, task: u64) -> Result<(), AllocError>
        ensures known { OnOk result (AlsoKnows self.old self.new task) }
        ensures refused { OnErr result (self.new ≡ self.old) }
        ensures wanted { OnErr result ((is_known self.old task ≡ false) × (is_waiting self.old.waiting task ≡ false)) }
    {
        match self.standings.standing(task) {
            Standing::Unknown => {
                make_room(&mut self.waiting, self.places, 1)?;
                self.standings.mark(alloc, task, Standing::Known)?;
                self.places += 1;
            }
            Standing::Retired => self.standings.change(task, Standing::Waiting),
            Standing::Known | Standing::Waiting => {}
        }
        Ok(())
    }

    /// Makes at most `count` tasks from `task` on known, with their places in the list, and returns how many. Returns
    /// zero if a later number was made known before, or if it is out of memory.
    pub(crate) fn know_behind(&mut self, task: u64, count: usize) -> usize
        ensures most { result ≤ count }
        ensures known { AlsoKnowsRow self.old self.new task (task + result) }
    {
        if task as usize != self.standings.len() {
            return 0;
        }
        match make_room(&mut self.waiting, self.places, count) {
            Err(_) => 0,
            Ok(()) => {
                let more = self.standings.extend(count);
                self.places += more;
                more
            }
        }
    }

    /// Appends the task to the list and returns true. Returns false, and keeps the list and the known tasks, if and
    /// only if the task waits already or is not known.
    pub fn put(&mut self, task: u64) -> bool
        ensures answer { result ≡ put_answer self.old task }
        ensures state { self.new ≡ after_put self.old task }
    {
        match self.standings.standing(task) {
            Standing::Known => {
                self.standings.change(task, Standing::Waiting);
                self.waiting.push_back_reserved(task);
                true
            }
            Standing::Unknown | Standing::Waiting | Standing::Retired => false,
        }
    }

    /// Removes and returns the first waiting task. Returns `None` if and only if the list is empty.
    pub fn drain_one(&mut self) -> Option<u64>
        ensures { MatchOption result ((self.old.waiting ≡ []) × (self.new ≡ self.old)) (λ t. (self.old.waiting ≡ t ∷ self.new.waiting) × (self.new.known ≡ self.old.known)) }
    {
        let task = self.waiting.pop_front()?;
        match self.standings.standing(task) {
            Standing::Retired => {
                self.standings.change(task, Standing::Unknown);
                self.places -= 1;
            }
            Standing::Waiting => self.standings.change(task, Standing::Known),
            Standing::Unknown | Standing::Known => unreachable!(),
        }
        Some(task)
    }

    /// Appends all waiting tasks to `into` in order, each once, and leaves the list empty.
    pub fn drain(&mut self, into: &mut Vec<u64>)
        requires { vec_len into.old + length self.old.waiting ≤ vec_capacity into.old }
        ensures items { into.new.items ≡ into.old.items ++ self.old.waiting }
        ensures capacity { vec_capacity into.new ≡ vec_capacity into.old }
        ensures state { self.new ≡ with_list self.old [] }
        ensures distinct { HasNoDoubles self.old.waiting }
    {
        let _ = &self.waiting;
        while let Some(task) = self.drain_one() {
            into.push_reserved(task);
        }
    }

    /// Returns how many tasks wait.
    pub fn waiting(&self) -> usize
        ensures count { result ≡ length self.now.waiting }
        ensures distinct { HasNoDoubles self.now.waiting }
    {
        self.waiting.len()
    }

    /// Makes the task unknown. The entry of a waiting task stays until the drain.
    #[inline(always)]
    pub fn retire(&mut self, task: u64)
        ensures { Forgets self.old self.new task }
    {
        match self.standings.standing(task) {
            Standing::Known => {
                self.standings.change(task, Standing::Unknown);
                self.places -= 1;
            }
            Standing::Waiting => self.standings.change(task, Standing::Retired),
            Standing::Unknown | Standing::Retired => {}
        }
    }

    /// Makes at most `count` tasks in a row, from `from` on, unknown, and returns how many. It stops at the page's end,
    /// and before the first task that waits or is not known.
    #[inline(always)]
    pub(crate) fn retire_row(&mut self, from: u64, count: usize) -> usize
        ensures most { result ≤ count }
        ensures known { ForgetsRow self.old self.new from (from + result) }
    {
        if !is_idle(self.standings.standing(from)) {
            return 0;
        }
        let row = self.standings.forget(from, count);
        self.places -= row;
        row
    }
}

/// Reserves `count` places in the list in addition to `places`, which include those of the waiting tasks. Room that is
/// too small at least doubles, so a task's cost does not depend on their number.
fn make_room(waiting: &mut VecDeque<u64>, places: usize, count: usize) -> Result<(), AllocError>
    requires waiting { deque_len waiting.old ≤ places }
    requires places { places ≤ deque_capacity waiting.old }
    ensures items { waiting.new.items ≡ waiting.old.items }
    ensures capacity { deque_capacity waiting.old ≤ deque_capacity waiting.new }
    ensures room { OnOk result (places + count ≤ deque_capacity waiting.new) }
{
    if count <= waiting.capacity() - places {
        return Ok(());
    }
    let least = places.max(LEAST_ROOM).max(count);
    let Some(more) = (places - waiting.len()).checked_add(least) else {
        return Err(AllocError);
    };
    waiting.reserve(more)
}
