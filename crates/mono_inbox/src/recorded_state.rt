// The state of an inbox beside the calls that were kept.
ghost use Rattle.std.specs.Prelude.{◌≡◌, ◌+◌, ◌<◌, ◌≤◌, true, false, IfOk, OnOk, OnErr, MatchOption, length, vec_len, vec_capacity, [], ◌∷◌, ◌++◌};
ghost use Rattle.mono_model.specs.Inbox.{is_waiting};
ghost use Rattle.mono_inbox.specs.declared.log.CallEntry.TheVariants.{Know, Put, DrainOne, Drain, Retire};
ghost use Rattle.mono_inbox.specs.State.{is_known, put_answer, after_put, with_list, HasNoDoubles, AlsoKnows, Forgets};
ghost use Rattle.mono_inbox.specs.History.{is_history, StandsFor, count_puts};
ghost use Rattle.mono_inbox.specs.Log.{is_full, with_entry, with_ledger_put, new_recording};

use crate::log::{CallEntry, CallLog};
use crate::state::InboxState;
use std::alloc::{AllocError, Global};
use std::marker::Model;

/// The state of an inbox, and its calls with their replies, in order, until the log is full. Each call is made on the
/// state and then kept.
#[derive(Drop)]
pub struct RecordedState {
    state: InboxState,
    log: CallLog,
}

impl Model for RecordedState {
    ghost use Rattle.mono_inbox.specs.Log.{Recording, IsFaithful};

    ghost Value = { Recording };

    ghost view = { λ a. record { state = a.state; log = a.log } };

    ghost invariant = { λ a. IsFaithful a.state a.log };
}

impl InboxState {
    /// Returns a state that also keeps its first `calls` calls, as `RecordedState::new` does.
    pub fn recorded(
        alloc: Global,
        capacity: usize,
        calls: usize,
    ) -> Result<RecordedState, AllocError>
        ensures { IfOk result (λ state. state ≡ new_recording calls) }
    {
        RecordedState::new(alloc, capacity, calls)
    }
}

impl RecordedState {
    /// Returns the state of a new inbox, with room for `capacity` tasks. It keeps `calls` calls.
    pub fn new(alloc: Global, capacity: usize, calls: usize) -> Result<RecordedState, AllocError>
        ensures { IfOk result (λ state. state ≡ new_recording calls) }
    {
        Ok(RecordedState {
            state: InboxState::new(alloc, capacity)?,
            log: CallLog::new(alloc, calls)?,
        })
    }

    /// Makes the task known and reserves its place in the list, so that no later `put` of it takes memory.
    ///
    /// Nothing changes if it is out of memory. It never is for a task that is known or waits (`wanted`).
    pub fn know(&mut self, alloc: Global, task: u64) -> Result<(), AllocError>
        ensures known { OnOk result (AlsoKnows self.old.state self.new.state task) }
        ensures kept { OnOk result (self.new.log ≡ with_entry self.old.log (Know task)) }
        ensures refused { OnErr result (self.new ≡ self.old) }
        ensures wanted { OnErr result ((is_known self.old.state task ≡ false) × (is_waiting self.old.state.waiting task ≡ false)) }
    {
        self.state.know(alloc, task)?;
        self.log.keep(CallEntry::Know(task));
        Ok(())
    }

    /// Appends the task to the list and returns true. Returns false, and keeps the list and the known tasks, if and
    /// only if the task waits already or is not known.
    pub fn put(&mut self, task: u64) -> bool
        ensures answer { result ≡ put_answer self.old.state task }
        ensures state { self.new.state ≡ after_put self.old.state task }
        ensures kept { self.new.log ≡ with_entry self.old.log (Put task result) }
    {
        let listed = self.state.put(task);
        self.log.keep(CallEntry::Put(task, listed));
        listed
    }

    /// Puts the task, and counts the call as a wake with a share.
    pub(crate) fn put_counted(&mut self, task: u64) -> bool
        ensures answer { result ≡ put_answer self.old.state task }
        ensures state { self.new.state ≡ after_put self.old.state task }
        ensures kept { self.new.log ≡ with_ledger_put self.old.log task result }
    {
        let listed = self.state.put(task);
        self.log.keep_ledger_put(task, listed);
        listed
    }

    /// Removes and returns the first waiting task. Returns `None` if and only if the list is empty.
    pub fn drain_one(&mut self) -> Option<u64>
        ensures task { MatchOption result ((self.old.state.waiting ≡ []) × (self.new.state ≡ self.old.state))
            (λ t. (self.old.state.waiting ≡ t ∷ self.new.state.waiting) × (self.new.state.known ≡ self.old.state.known)) }
        ensures kept { self.new.log ≡ with_entry self.old.log (DrainOne result) }
    {
        let task = self.state.drain_one();
        self.log.keep(CallEntry::DrainOne(task));
        task
    }

    /// Appends all waiting tasks to `into` in order, each once, and leaves the list empty.
    pub fn drain(&mut self, into: &mut Vec<u64>)
        requires { vec_len into.old + length self.old.state.waiting ≤ vec_capacity into.old }
        ensures items { into.new.items ≡ into.old.items ++ self.old.state.waiting }
        ensures capacity { vec_capacity into.new ≡ vec_capacity into.old }
        ensures state { self.new.state ≡ with_list self.old.state [] }
        ensures kept { self.new.log ≡ with_entry self.old.log (Drain (length self.old.state.waiting)) }
        ensures distinct { HasNoDoubles self.old.state.waiting }
    {
        let tasks = self.state.waiting() as u64;
        self.state.drain(into);
        self.log.keep(CallEntry::Drain(tasks));
    }

    /// Returns how many tasks wait.
    pub fn waiting(&self) -> usize
        ensures count { result ≡ length self.now.state.waiting }
        ensures distinct { HasNoDoubles self.now.state.waiting }
    {
        self.state.waiting()
    }

    /// Makes the task unknown. The entry of a waiting task stays until the drain.
    #[inline(always)]
    pub fn retire(&mut self, task: u64)
        ensures state { Forgets self.old.state self.new.state task }
        ensures kept { self.new.log ≡ with_entry self.old.log (Retire task) }
    {
        self.state.retire(task);
        self.log.keep(CallEntry::Retire(task));
    }

    /// Returns the kept calls, in order: a history of one thread, which gives the state if no call was left out.
    pub fn history(&self) -> &Vec<CallEntry>
        ensures entries { result.now.items ≡ self.now.log.entries }
        ensures replies { is_history result.now.items ≡ true }
        ensures stands { is_full self.now.log ≡ false → StandsFor result.now.items self.now.state }
    {
        self.log.entries()
    }

    /// Returns whether the state keeps no further call: the list of calls stays as it is from now on.
    pub fn is_full(&self) -> bool
        ensures { result ≡ is_full self.now.log }
    {
        self.log.is_full()
    }

    /// Returns how many kept wakes were made without a share.
    pub fn plain_puts(&self) -> u64
        ensures number { result ≡ self.now.log.plain_puts }
        ensures counted { result + self.now.log.ledger_puts ≡ count_puts self.now.log.entries }
    {
        self.log.plain_puts()
    }

    /// Returns how many kept wakes were made with a share.
    pub fn ledger_puts(&self) -> u64
        ensures number { result ≡ self.now.log.ledger_puts }
        ensures counted { self.now.log.plain_puts + result ≡ count_puts self.now.log.entries }
    {
        self.log.ledger_puts()
    }
}
