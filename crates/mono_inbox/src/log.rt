// The calls that an inbox keeps, with their replies.
ghost use Rattle.std.specs.Prelude.{◌≡◌, ◌+◌, ◌<◌, IfOk};
ghost use Rattle.mono_inbox.specs.History.{put_in, count_puts};
ghost use Rattle.mono_inbox.specs.Log.{no_entries, is_full, with_entry, with_ledger_put};

use std::alloc::{AllocError, Global};
use std::marker::Model;

/// One call on the state of an inbox, with its reply.
#[derive(Clone, Copy, Debug, PartialEq, Eq)]
pub enum CallEntry {
    /// The call made the task known.
    Know(u64),
    /// The call was a wake of the task; the flag says whether it was listed.
    Put(u64, bool),
    /// The call took the first waiting task, or found none.
    DrainOne(Option<u64>),
    /// The call took all waiting tasks, this number of them.
    Drain(u64),
    /// The call made the task unknown.
    Retire(u64),
}

/// The kept calls in order, up to a fixed number.
#[derive(Drop)]
pub(crate) struct CallLog {
    entries: Vec<CallEntry>,
    calls: usize,
    plain_puts: u64,
    ledger_puts: u64,
}

impl Model for CallLog {
    ghost use Rattle.std.specs.Prelude.{vec_capacity};
    ghost use Rattle.mono_inbox.specs.Log.{Log, IsCounted};

    ghost Value = { Log };

    ghost view = { λ a. record { entries = a.entries.items; calls = a.calls; plain_puts = a.plain_puts; ledger_puts = a.ledger_puts } };

    ghost invariant = { λ a. IsCounted a.entries.items a.calls (vec_capacity a.entries) a.plain_puts a.ledger_puts };
}

impl CallLog {
    /// Returns an empty log that will keep `calls` calls.
    pub(crate) fn new(alloc: Global, calls: usize) -> Result<CallLog, AllocError>
        ensures { IfOk result (λ log. log ≡ no_entries calls) }
    {
        Ok(CallLog {
            entries: Vec::with_capacity(alloc, calls)?,
            calls,
            plain_puts: 0,
            ledger_puts: 0,
        })
    }

    /// Returns whether the log keeps no further call.
    pub(crate) fn is_full(&self) -> bool
        ensures { result ≡ is_full self.now }
    {
        self.entries.len() == self.calls
    }

    /// Returns the kept calls in order.
    pub(crate) fn entries(&self) -> &Vec<CallEntry>
        ensures { result.now.items ≡ self.now.entries }
    {
        &self.entries
    }

    /// Returns how many kept wakes were made without a share.
    pub(crate) fn plain_puts(&self) -> u64
        ensures number { result ≡ self.now.plain_puts }
        ensures counted { result + self.now.ledger_puts ≡ count_puts self.now.entries }
    {
        self.plain_puts
    }

    /// Returns how many kept wakes were made with a share.
    pub(crate) fn ledger_puts(&self) -> u64
        ensures number { result ≡ self.now.ledger_puts }
        ensures counted { self.now.plain_puts + result ≡ count_puts self.now.entries }
    {
        self.ledger_puts
    }

    /// Keeps a call that was made without a share.
    #[inline(always)]
    pub(crate) fn keep(&mut self, entry: CallEntry)
        ensures { self.new ≡ with_entry self.old entry }
    {
        if self.entries.len() == self.calls {
            return;
        }
        self.plain_puts += puts_in(&entry);
        self.entries.push_reserved(entry);
    }

    /// Keeps a wake that was made with a share.
    pub(crate) fn keep_ledger_put(&mut self, task: u64, listed: bool)
        ensures { self.new ≡ with_ledger_put self.old task listed }
    {
        if self.entries.len() == self.calls {
            return;
        }
        self.ledger_puts += 1;
        self.entries.push_reserved(CallEntry::Put(task, listed));
    }
}

/// Returns one for a wake, and zero for another call.
fn puts_in(entry: &CallEntry) -> u64
    ensures { result ≡ put_in entry.now }
{
    match entry {
        CallEntry::Put(_, _) => 1,
        CallEntry::Know(_) | CallEntry::DrainOne(_) | CallEntry::Drain(_) | CallEntry::Retire(_) =>
            0,
    }
}
