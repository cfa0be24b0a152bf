// The sessions, over timers and queues.
ghost use Rattle.std.specs.Prelude.{◌≡◌, ◌≤◌, ◌+◌, ◌++◌, ◌∷◌, [], ℕ, List, true, Some, if◌then◌else◌, IfOk, IfSome, OnErr, is_some, vec_len, vec_capacity};
ghost use Rattle.mono_model.specs.Due.{ListsDue};
ghost use Rattle.mono_model.specs.Table.{value_at, count_of};
ghost use Rattle.mono_time.specs.Instants.{nanos_of};
ghost use Rattle.mono_time.specs.Sleeps.{with_removed_sleep};
ghost use Rattle.mono_time.specs.Timers.{sleeps_of, elapsed_tick};
ghost use Rattle.mono_wheel.specs.Credit.{most_takes};
ghost use Rattle.mono_session.specs.Expirations.{NextClose, IsInTime, IsAhead};
ghost use Rattle.mono_session.specs.Holders.{holds, waits, first_key, without_key, leaves};
ghost use Rattle.mono_session.specs.Keeper.{Keeper, Session, no_sessions, is_open, open_answer, opened, beat_answer, beaten, close_answer, closed, acquire_answer, acquired, release_answer, released, owner_answer, with_greatest, without_session};
ghost use Rattle.mono_model.specs.Memory.{OrLacksMemory};
ghost use Rattle.mono_session.specs.Steps.{closing_value, greatest_at, without_all};
ghost use Rattle.mono_session.specs.Refinement.{StandsFor, Beside, open_count, entries_len, steps_left};
ghost use Rattle.mono_session.specs.declared.error.SessionError.TheVariants as error;

use crate::SessionError;
use crate::deadlines::{add_armed, deadline_after};
use crate::entries::Entries;
use mono_table::ReadyTable;
use mono_time::{Instant, Timers};
use mono_wheel::Steps;
use std::alloc::{AllocError, Global};
use std::sync::ledger::Ledger;

/// Leases that heartbeats renew, and the queues of keys in which the sessions wait for locks.
///
/// A session stays open for its limit, in milliseconds, after its last heartbeat. Then the clock closes it, and it
/// leaves all queues. The first session in the queue of a key is the holder of the key's lock.
///
/// A session's number is that of its sleep, so it is never given twice. A heartbeat is recorded at the sleep and moves
/// nothing. No call does work that grows with the sessions, the keys or the entries that it does not touch. A table by
/// number finds a session, and maps find the queues of keys.
#[derive(Drop)]
pub struct Sessions {
    timers: Timers,
    // The number of ticks for which each open session stays open after a heartbeat.
    limits: ReadyTable<u64>,
    entries: Entries,
    most_entries: u64,
}

// Appends a number, for which there is room.
fn put(numbers: &mut Vec<u64>, number: u64)
    requires { vec_len numbers.old + 1 ≤ vec_capacity numbers.old }
    ensures items { numbers.new.items ≡ numbers.old.items ++ number ∷ [] }
    ensures len { vec_len numbers.new ≡ vec_len numbers.old + 1 }
    ensures capacity { vec_capacity numbers.old ≤ vec_capacity numbers.new }
{
    if numbers.push(number).is_err() {
        unreachable!();
    }
}

impl Sessions {
    /// Returns a table without sessions. At most `sessions` may be open, with at most `entries` entries in all queues.
    pub fn new(alloc: Global, sessions: u64, entries: u64) -> Result<Sessions, AllocError>
        ensures stands { IfOk result (λ made. StandsFor made (no_sessions sessions entries)) }
        ensures left { IfOk result (λ made. steps_left made ≡ 0) }
    {
        let timers = Timers::new(alloc, sessions, true)?;
        Ok(Sessions {
            timers,
            limits: ReadyTable::new(alloc),
            entries: Entries::new(alloc),
            most_entries: entries,
        })
    }

    /// Opens a session with the next number. It stays open for `limit_ms` milliseconds, from 1 on, after its last
    /// heartbeat, which is now: the greatest tick of the clock so far.
    ///
    /// Refuses the call as `AtCapacity` if and only if the next number is 2^64 - 1 or the open sessions are at the
    /// limit. Then it is refused as `Invalid` if and only if the closing tick would be above 2^63 - 1, then for a limit
    /// of zero. Out of memory comes last. A refusal changes nothing.
    pub fn open(&mut self, alloc: Global, limit_ms: u64) -> Result<u64, SessionError>
        ensures step { (k : Keeper) → StandsFor self.old k → OrLacksMemory error.Memory (open_answer k limit_ms) k (opened k limit_ms) (StandsFor self.new) result }
        ensures raise { (k : Keeper) → StandsFor self.old k → steps_left self.new ≤ steps_left self.old + most_takes limit_ms }
    {
        if self.timers.is_full() {
            return Err(SessionError::AtCapacity);
        }
        let Some(deadline) = deadline_after(self.timers.greatest(), limit_ms) else {
            return Err(SessionError::Invalid);
        };
        if limit_ms == 0 {
            return Err(SessionError::ZeroLimit);
        }
        self.limits.reserve(alloc, limit_ms)?;
        match add_armed(&mut self.timers, alloc, deadline) {
            Err(_) => Err(SessionError::Memory),
            Ok(session) => {
                self.limits.add(limit_ms);
                Ok(session)
            }
        }
    }

    /// Renews a session: its last heartbeat is now, the greatest tick of the clock so far.
    ///
    /// Refuses the call as `Invalid` if and only if the session is open and its closing tick would be above 2^63 - 1.
    /// It is refused as `NoSession` if and only if the session is not open. A refused heartbeat changes nothing, so the
    /// wheel takes no further step for it (`refused`).
    pub fn beat(&mut self, session: u64) -> Result<(), SessionError>
        ensures step { (k : Keeper) → StandsFor self.old k → (result ≡ beat_answer k session) × StandsFor self.new (beaten k session) }
        ensures raise { (k : Keeper) (kept : Session) → StandsFor self.old k → value_at k.sessions session ≡ Some kept → steps_left self.new ≤ steps_left self.old + most_takes kept.limit }
        ensures refused { OnErr result (self.new ≡ self.old) }
    {
        let Some(limit) = self.limits.get(session).copied() else {
            return Err(SessionError::NoSession);
        };
        let Some(deadline) = deadline_after(self.timers.greatest(), limit) else {
            return Err(SessionError::Invalid);
        };
        let _ = self.timers.reset(session, deadline);
        Ok(())
    }

    /// Closes a session, which leaves all queues. It is refused if and only if the session is not open.
    pub fn close(&mut self, session: u64) -> Result<(), SessionError>
        ensures step { (k : Keeper) → StandsFor self.old k → (result ≡ close_answer k session) × StandsFor self.new (closed k session) }
        ensures raise { steps_left self.new ≤ steps_left self.old }
    {
        if !self.limits.has(session) {
            return Err(SessionError::NoSession);
        }
        self.forget(session);
        Ok(())
    }

    // Removes a session from the table and from all queues. Returns whether it was open.
    fn forget(&mut self, session: u64) -> bool
        ensures was { (k : Keeper) → Beside self.old k → result ≡ is_open k session }
        ensures sleeps { sleeps_of self.new.timers ≡ with_removed_sleep (sleeps_of self.old.timers) session }
        ensures beside { (k : Keeper) → Beside self.old k → Beside self.new (without_session k session) }
        ensures count { open_count self.new + (if result then 1 else 0) ≡ open_count self.old }
        ensures fewer { entries_len self.new ≤ entries_len self.old }
        ensures elapsed { elapsed_tick self.new.timers ≡ elapsed_tick self.old.timers }
        ensures raise { steps_left self.new ≤ steps_left self.old }
    {
        let _ = self.timers.remove(session);
        self.entries.leave_all(session);
        let was_open = self.limits.has(session);
        if was_open {
            self.limits.remove(session);
        }
        was_open
    }

    /// Appends a session to the queue of a key. Returns whether it is the first there.
    ///
    /// Refuses the call as `AtCapacity` if and only if the entries of all queues are at the limit. Then it is refused
    /// if and only if the session is not open, then as `Doubled` if and only if it is in the queue already. Out of
    /// memory comes last. A refusal changes nothing.
    pub fn acquire(&mut self, _alloc: Global, session: u64, key: u64) -> Result<bool, SessionError>
        ensures step { (k : Keeper) → StandsFor self.old k → OrLacksMemory error.Memory (acquire_answer k session key) k (acquired k session key) (StandsFor self.new) result }
        ensures raise { steps_left self.new ≡ steps_left self.old }
    {
        if self.entries.len() as u64 >= self.most_entries {
            return Err(SessionError::AtCapacity);
        }
        if !self.limits.has(session) {
            return Err(SessionError::NoSession);
        }
        if self.entries.contains(session, key) {
            return Err(SessionError::Doubled);
        }
        self.entries.reserve()?;
        let is_first = self.entries.owner(key).is_none();
        self.entries.enter(session, key);
        Ok(is_first)
    }

    /// Removes a session from the queue of a key. It is refused if and only if the session is not open, then if and
    /// only if it is not in the queue.
    pub fn release(&mut self, session: u64, key: u64) -> Result<(), SessionError>
        ensures step { (k : Keeper) → StandsFor self.old k → (result ≡ release_answer k session key) × StandsFor self.new (released k session key) }
        ensures raise { steps_left self.new ≡ steps_left self.old }
    {
        if !self.limits.has(session) {
            return Err(SessionError::NoSession);
        }
        if !self.entries.contains(session, key) {
            return Err(SessionError::NotIn);
        }
        self.entries.leave(session, key);
        Ok(())
    }

    /// Removes a session from the queue in which it has been for the longest time, and returns the key of that queue.
    /// Returns `None` if and only if the session is in no queue.
    ///
    /// Each key leaves one entry fewer, so a loop over the keys of a session ends (`len`).
    pub fn release_first(&mut self, session: u64) -> Option<u64>
        ensures step { (k : Keeper) → StandsFor self.old k → (result ≡ first_key k session) × StandsFor self.new (without_key k session result) }
        ensures len { entries_len self.new + (if is_some result then 1 else 0) ≡ entries_len self.old }
        ensures raise { steps_left self.new ≡ steps_left self.old }
    {
        self.entries.leave_first(session)
    }

    /// Returns the holder of a key: the session that has been in its queue for the longest time. Returns `None` if and
    /// only if the queue is empty.
    pub fn owner(&self, key: u64) -> Option<u64>
        ensures { (k : Keeper) → StandsFor self.now k → result ≡ owner_answer k key }
    {
        self.entries.owner(key)
    }

    /// Returns whether a session is open.
    pub fn is_open(&self, session: u64) -> bool
        ensures { (k : Keeper) → StandsFor self.now k → result ≡ is_open k session }
    {
        self.limits.has(session)
    }

    /// Returns whether a session is the holder of a key.
    pub fn is_holder(&self, session: u64, key: u64) -> bool
        ensures { (k : Keeper) → StandsFor self.now k → result ≡ holds k session key }
    {
        match self.owner(key) {
            None => false,
            Some(holder) => holder == session,
        }
    }

    /// Returns whether a session is in the queue of a key behind another session.
    pub fn is_waiting(&self, session: u64, key: u64) -> bool
        ensures { (k : Keeper) → StandsFor self.now k → result ≡ waits k session key }
    {
        self.entries.contains(session, key) && !self.is_holder(session, key)
    }

    /// Returns the next tick at which the clock may close a session: the first start of a slot of the wheel that has
    /// one (`next`). It is `None` if and only if no session is open (`in_time`, `ahead`).
    ///
    /// It is above the greatest tick of the clock so far, and at most the closing tick of each open session.
    pub fn next_expiration(&self) -> Option<u64>
        ensures next { NextClose self.now result }
        ensures in_time { (k : Keeper) → StandsFor self.now k → IsInTime k result }
        ensures ahead { (k : Keeper) → StandsFor self.now k → IfSome result (IsAhead k) }
    {
        self.timers.next_expiration_time()
    }

    /// Returns how many sessions are open.
    pub fn open_len(&self) -> usize
        ensures open { (k : Keeper) → StandsFor self.now k → result ≡ count_of k.sessions }
        ensures count { result ≡ open_count self.now }
    {
        self.limits.count() as usize
    }

    /// Shows the clock an instant: the greatest tick becomes the greater of itself and the instant's, rounded down. The
    /// open sessions whose last heartbeat plus limit is at most that tick are closed, and leave all queues, whose order
    /// stays.
    ///
    /// Their numbers are appended to `closed`, which has room for all open sessions. They come in ascending closing
    /// ticks, and in any order within one tick (`step`).
    ///
    /// The steps of the wheel are at most the fall of its remaining steps (`steps`). These are zero at first. Only
    /// opening or renewing a session may raise them, by at most a number that its limit determines (`raise`).
    pub fn clock<L: Ledger>(&mut self, now: Instant, closed: &mut Vec<u64>, steps: &mut Steps<L>)
        requires { vec_len closed.old + open_count self.old ≤ vec_capacity closed.old }
        ensures step { (k : Keeper) → StandsFor self.old k → (due : List ℕ) × (closed.new.items ≡ closed.old.items ++ due)
            × ListsDue closing_value k.sessions (greatest_at k (nanos_of now)) due
            × StandsFor self.new (without_all (with_greatest k (greatest_at k (nanos_of now))) due) }
        ensures steps { steps.new + steps_left self.new ≤ steps.old + steps_left self.old }
    {
        while let Some((session, _)) = self.timers.clock(now, steps) {
            self.close_due(session, closed);
        }
    }

    /// Returns how many entries there are in all queues.
    pub fn entries_len(&self) -> usize
        ensures { result ≡ entries_len self.now }
    {
        self.entries.len()
    }

    /// Shows the clock an instant, as [`Sessions::clock`] does. Appends to `left` each closed session with each key whose
    /// queue it left: the sessions in the order of `closed`, and the keys in the order in which the session entered
    /// their queues. There is room for all entries (`step`).
    pub fn clock_leaving<L: Ledger>(
        &mut self,
        now: Instant,
        closed: &mut Vec<u64>,
        left: &mut Vec<(u64, u64)>,
        steps: &mut Steps<L>,
    )
        requires closed { vec_len closed.old + open_count self.old ≤ vec_capacity closed.old }
        requires left { vec_len left.old + entries_len self.old ≤ vec_capacity left.old }
        ensures step { (k : Keeper) → StandsFor self.old k → (due : List ℕ) × (closed.new.items ≡ closed.old.items ++ due)
            × (left.new.items ≡ left.old.items ++ leaves k due) × ListsDue closing_value k.sessions (greatest_at k (nanos_of now)) due
            × StandsFor self.new (without_all (with_greatest k (greatest_at k (nanos_of now))) due) }
        ensures steps { steps.new + steps_left self.new ≤ steps.old + steps_left self.old }
        ensures capacity { vec_capacity left.new ≡ vec_capacity left.old }
    {
        while let Some((session, _)) = self.timers.clock(now, steps) {
            self.entries.leave_each(session, left);
            self.close_due(session, closed);
        }
    }

    // Closes and lists a session whose time has come, if it was open.
    fn close_due(&mut self, session: u64, closed: &mut Vec<u64>)
        requires { vec_len closed.old + open_count self.old ≤ vec_capacity closed.old }
        ensures room { vec_len closed.new + open_count self.new ≤ vec_capacity closed.new }
        ensures listed { (k : Keeper) → Beside self.old k → is_open k session ≡ true → closed.new.items ≡ closed.old.items ++ session ∷ [] }
        ensures sleeps { sleeps_of self.new.timers ≡ with_removed_sleep (sleeps_of self.old.timers) session }
        ensures beside { (k : Keeper) → Beside self.old k → Beside self.new (without_session k session) }
        ensures fewer { entries_len self.new ≤ entries_len self.old }
        ensures raise { steps_left self.new ≤ steps_left self.old }
    {
        if self.forget(session) {
            put(closed, session);
        }
    }
}
