// The recorded state with the book of a ledger, and the shares of its callers.
ghost use Rattle.std.specs.Prelude.{◌≡◌, ◌+◌, ◌-◌, ◌<◌, ◌^◌, ◌++◌, [], Bool, length, vec_len, sum_by, OnOk, OnErr};
ghost use Rattle.mono_inbox.specs.declared.log.CallEntry.TheVariants.{Know, Put, Drain, Retire};
ghost use Rattle.mono_inbox.specs.State.{put_answer, after_put, with_list, AlsoKnows, Forgets, HasNoDoubles};
ghost use Rattle.mono_inbox.specs.Log.{is_full, with_entry, with_ledger_put};
ghost use Rattle.mono_inbox.specs.Callers.{IsPutReply, CountsKept};
ghost use Rattle.mono_inbox.specs.declared.shares.PutReply.TheVariants.{Kept, Unkept};

use crate::recorded_state::RecordedState;
use std::alloc::{AllocError, Global};
use std::marker::Model;
use std::sync::ledger::{Book, Ledger, Share};

/// The result of a wake with a share, with the answer of the put.
#[derive(Clone, Copy, Debug, PartialEq, Eq)]
pub enum PutReply {
    /// The put was kept, and counted in the share.
    Kept(bool),
    /// The state keeps no more calls, and nothing was counted.
    Unkept(bool),
}

impl PutReply {
    /// Returns whether the put listed its task.
    pub fn is_listed(&self) -> bool
        ensures kept { (listed : Bool) → self.now ≡ Kept listed → result ≡ listed }
        ensures unkept { (listed : Bool) → self.now ≡ Unkept listed → result ≡ listed }
    {
        match self {
            PutReply::Kept(listed) | PutReply::Unkept(listed) => *listed,
        }
    }
}

/// A caller's share of the ledger: one part, and as its amount the number of calls that it made.
///
/// A contract sees the caller's number and its calls.
#[derive(Drop)]
pub struct CallShare<L: Ledger> {
    number: u64,
    calls: u64,
    share: Share<L>,
}

impl<L: Ledger> Model for CallShare<L> {
    ghost use Rattle.std.specs.Prelude.{◌≡◌};
    ghost use Rattle.mono_inbox.specs.Callers.{Caller};

    ghost Value = { Caller };

    ghost view = { λ a. record { number = a.number; calls = a.calls } };

    ghost invariant = { λ a. (a.share.parts ≡ 1) × (a.share.amount ≡ a.calls) };
}

impl<L: Ledger> CallShare<L> {
    /// Returns a share of one part, with no calls.
    pub(crate) fn over(number: u64, share: Share<L>) -> CallShare<L>
        requires { (share.parts ≡ 1) × (share.amount ≡ 0) }
        ensures { result ≡ record { number = number; calls = 0 } }
    {
        CallShare {
            number,
            calls: 0,
            share,
        }
    }

    /// Returns the caller's number.
    pub fn number(&self) -> u64
        ensures { result ≡ self.now.number }
    {
        self.number
    }

    /// Returns how many kept wakes were made with this share.
    pub fn calls(&self) -> u64
        ensures { result ≡ self.now.calls }
    {
        self.calls
    }
}

/// The value under the lock of a recorded inbox: its state, and the book of the ledger that counts its wakes.
#[derive(Drop)]
pub struct Recorded<L: Ledger> {
    pub(crate) state: RecordedState,
    book: Book<L>,
    ghost counted: { book.total ≡ state.log.ledger_puts },
}

impl<L: Ledger> Recorded<L> {
    /// Returns a state in which no wake was counted, with an empty book.
    pub(crate) fn over(state: RecordedState, book: Book<L>) -> Recorded<L>
        requires { book.total ≡ state.log.ledger_puts }
        ensures state { result.state ≡ state }
    {
        Recorded { state, book }
    }

    /// Puts the task. The share counts the call if the state keeps it.
    pub fn put_with(&mut self, task: u64, share: &mut CallShare<L>) -> PutReply
        requires { share.old.calls < 2 ^ 64 - 1 }
        ensures answer { IsPutReply result (is_full self.old.state.log) (put_answer self.old.state.state task) }
        ensures state { self.new.state.state ≡ after_put self.old.state.state task }
        ensures kept { self.new.state.log ≡ with_ledger_put self.old.state.log task (put_answer self.old.state.state task) }
        ensures calls { CountsKept result share.old share.new }
    {
        let Recorded { state, book } = self;
        if state.is_full() {
            return PutReply::Unkept(state.put_counted(task));
        }
        let CallShare {
            number: _,
            calls,
            share,
        } = share;
        book.add(share, 1);
        *calls += 1;
        PutReply::Kept(state.put_counted(task))
    }

    /// Makes the task known.
    pub(crate) fn know(&mut self, alloc: Global, task: u64) -> Result<(), AllocError>
        ensures known { OnOk result (AlsoKnows self.old.state.state self.new.state.state task) }
        ensures kept { OnOk result (self.new.state.log ≡ with_entry self.old.state.log (Know task)) }
        ensures refused { OnErr result (self.new.state ≡ self.old.state) }
    {
        self.state.know(alloc, task)
    }

    /// Puts the task without a share.
    pub(crate) fn put(&mut self, task: u64) -> bool
        ensures answer { result ≡ put_answer self.old.state.state task }
        ensures state { self.new.state.state ≡ after_put self.old.state.state task }
        ensures kept { self.new.state.log ≡ with_entry self.old.state.log (Put task result) }
    {
        self.state.put(task)
    }

    /// Reserves room in `into` and takes all waiting tasks, or takes none.
    pub(crate) fn drain(&mut self, _alloc: Global, into: &mut Vec<u64>) -> Result<(), AllocError>
        ensures items { OnOk result (into.new.items ≡ into.old.items ++ self.old.state.state.waiting) }
        ensures distinct { HasNoDoubles self.old.state.state.waiting }
        ensures state { OnOk result (self.new.state.state ≡ with_list self.old.state.state []) }
        ensures kept { OnOk result (self.new.state.log ≡ with_entry self.old.state.log (Drain (length self.old.state.state.waiting))) }
        ensures refused { OnErr result ((into.new.items ≡ into.old.items) × (self.new.state ≡ self.old.state)) }
    {
        into.reserve(self.state.waiting())?;
        self.state.drain(into);
        Ok(())
    }

    /// Makes the task unknown.
    pub(crate) fn retire(&mut self, task: u64)
        ensures state { Forgets self.old.state.state self.new.state.state task }
        ensures kept { self.new.state.log ≡ with_entry self.old.state.log (Retire task) }
    {
        self.state.retire(task);
    }

    /// Adds up the calls of all these shares. The book counts each of them, so the sum is at most the book's.
    pub(crate) fn sum(&mut self, shares: Vec<CallShare<L>>) -> u64
        ensures sum { result ≡ sum_by (λ s. s.calls) shares.items }
        ensures all { 0 < vec_len shares → vec_len shares ≡ L.parts → result ≡ self.old.state.log.ledger_puts }
        ensures state { self.new.state ≡ self.old.state }
    {
        let _ = self.state.ledger_puts();
        let mut shares = shares;
        let Some(first) = shares.pop() else {
            return 0;
        };
        let CallShare {
            number: _,
            calls: mut sum,
            share: mut all,
        } = first;
        while let Some(next) = shares.pop() {
            let CallShare {
                number: _,
                calls,
                share,
            } = next;
            all.merge(share);
            self.book.audit(&mut all);
            sum += calls;
        }
        self.book.audit(&mut all);
        sum
    }
}
