// An inbox that keeps its calls, whose callers count their wakes in shares of one ledger.
ghost use Rattle.std.specs.Prelude.{◌≡◌, ◌-◌, ◌<◌, ◌≤◌, ◌^◌, vec_len, sum_by, IfOk, IfErr, OnOk, OnErr};
ghost use Rattle.std.specs.Fn.{FnOnceReturnsAt};
ghost use Rattle.mono_inbox.specs.Log.{Recording};
ghost use Rattle.mono_inbox.specs.State.{AppendsOnce};
ghost use Rattle.mono_inbox.specs.Callers.{new_callers, CountsKept};

use crate::recorded_state::RecordedState;
use crate::shares::{CallShare, PutReply, Recorded};
use crate::waker::Unpark;
use mono_model::Host;
use std::alloc::{AllocError, Global};
use std::marker::Model;
use std::sync::ledger::{Book, Ledger, Share};
use std::sync::{Arc, Mutex};

/// The part of a recorded inbox that its wakers share. A thread that holds the lock knows the invariants of `Recorded`
/// and `RecordedState`.
#[derive(Drop)]
struct RecordedShared<U: Unpark, L: Ledger> {
    recorded: Mutex<Recorded<L>>,
    unpark: U,
}

/// An `Inbox` over a recorded state. A ledger with one part for each caller counts the wakes with shares.
#[derive(Drop)]
pub struct RecordedInbox<U: Unpark, L: Ledger> {
    shared: Arc<RecordedShared<U, L>, Global>,
    callers: u64,
}

impl<U: Unpark, L: Ledger> RecordedInbox<U, L> {
    /// Returns an inbox in which no task waits, no task is known and no call was made, and a share for each caller.
    pub fn new(
        alloc: Global,
        capacity: usize,
        calls: usize,
        callers: u64,
        unpark: U,
        book: Book<L>,
        all: Share<L>,
    ) -> Result<(RecordedInbox<U, L>, Vec<CallShare<L>>), AllocError>
        requires book { book.total ≡ 0 }
        requires all { (all.parts ≡ L.parts) × (all.amount ≡ 0) }
        requires callers { L.parts ≡ callers }
        ensures callers { IfOk result (λ made. made.0.callers ≡ callers) }
        ensures shares { IfOk result (λ made. made.1.items ≡ new_callers callers) }
    {
        let mut all = all;
        let mut shares = Vec::with_capacity(alloc, callers as usize)?;
        for number in 0..callers {
            shares.push_reserved(CallShare::over(number, all.split_off(1, 0)));
        }
        let state = RecordedState::new(alloc, capacity, calls)?;
        let recorded = Mutex::new(Recorded::over(state, book));
        let shared = Arc::new(alloc, RecordedShared { recorded, unpark })?;
        Ok((RecordedInbox { shared, callers }, shares))
    }

    /// Makes the task known and returns a waker of it. The inbox stays as it was if the call is out of memory.
    pub fn waker<R: Host>(
        &self,
        rt: &R,
        alloc: Global,
        task: u64,
    ) -> Result<RecordedWaker<U, L>, AllocError>
        ensures { IfOk result (λ waker. waker ≡ task) }
    {
        let shared = Arc::try_clone(&self.shared)?;
        self.shared.recorded.lock(rt).know(alloc, task)?;
        Ok(RecordedWaker { shared, task })
    }

    /// Adds up the calls of all shares. It gives the shares back if there are fewer of them than callers.
    pub fn gather<R: Host>(
        &self,
        rt: &R,
        shares: Vec<CallShare<L>>,
    ) -> Result<u64, Vec<CallShare<L>>>
        ensures sum { IfOk result (λ sum. sum ≡ sum_by (λ s. s.calls) shares.items) }
        ensures all { IfOk result (λ sum. self.now.callers ≤ vec_len shares) }
        ensures fewer { IfErr result (λ back. (vec_len shares < self.now.callers) × (back.items ≡ shares.items)) }
    {
        if (shares.len() as u64) < self.callers {
            return Err(shares);
        }
        Ok(self.shared.recorded.lock(rt).sum(shares))
    }

    /// Drains the inbox as `Inbox::drain` does.
    pub fn drain<R: Host>(
        &self,
        rt: &R,
        alloc: Global,
        into: &mut Vec<u64>,
    ) -> Result<(), AllocError>
        ensures drained { OnOk result (AppendsOnce into.old.items into.new.items) }
        ensures refused { OnErr result (into.new.items ≡ into.old.items) }
    {
        let answer = self.shared.recorded.lock(rt).drain(alloc, into);
        if answer.is_err() {
            self.shared.unpark.unpark(rt);
        }
        answer
    }

    /// Makes the task unknown as `Inbox::retire` does.
    pub fn retire<R: Host>(&self, rt: &R, task: u64) {
        self.shared.recorded.lock(rt).retire(task);
    }

    /// Returns the answer of `look` to the state and the calls that it kept. `look` borrows them under the lock, so no
    /// other call is made meanwhile.
    pub fn look<R: Host, T, F: FnOnce(&RecordedState) -> T>(&self, rt: &R, look: F) -> T
        requires { F.IsAlwaysCallable look }
        ensures { (state : Recording) × FnOnceReturnsAt F.FnOnce look state result }
    {
        let recorded = self.shared.recorded.lock(rt);
        look(&recorded.state)
    }
}

/// A waker of one task of one recorded inbox, for any thread. A contract sees its task's number.
#[derive(Drop)]
pub struct RecordedWaker<U: Unpark, L: Ledger> {
    shared: Arc<RecordedShared<U, L>, Global>,
    task: u64,
}

impl<U: Unpark, L: Ledger> Model for RecordedWaker<U, L> {
    ghost use Rattle.std.specs.Prelude.{ℕ};

    ghost Value = { ℕ };

    ghost view = { λ a. a.task };
}

impl<U: Unpark, L: Ledger> RecordedWaker<U, L> {
    /// Wakes the task as `RemoteWaker::wake` does. No share counts the put.
    pub fn wake<R: Host>(&self, rt: &R) -> bool {
        let listed = self.shared.recorded.lock(rt).put(self.task);
        self.shared.unpark.unpark(rt);
        listed
    }

    /// Wakes the task by `Recorded::put_with`: a wake that was kept has added one to the share's calls.
    pub fn wake_with<R: Host>(&self, rt: &R, share: &mut CallShare<L>) -> PutReply
        requires { share.old.calls < 2 ^ 64 - 1 }
        ensures calls { CountsKept result share.old share.new }
    {
        let reply = self.shared.recorded.lock(rt).put_with(self.task, share);
        self.shared.unpark.unpark(rt);
        reply
    }

    /// Returns the task's number.
    pub fn task(&self) -> u64
        ensures { result ≡ self.now }
    {
        self.task
    }
}
