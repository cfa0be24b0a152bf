// The table of sleeps over the wheel.
ghost use Rattle.std.specs.Prelude.{◌≡◌, ◌<◌, ◌≤◌, ◌+◌, ◌-◌, ◌^◌, ℕ, max, Option, None, Some, IfOk, IfNone, IfSome, OnSome, nat_le, ◌==◌, ◌||◌};
ghost use Rattle.mono_model.specs.Ticks.{up};
ghost use Rattle.mono_model.specs.Table.{value_at, count_of, is_full, next_number};
ghost use Rattle.mono_time.specs.Representation.{Holds};
ghost use Rattle.mono_model.specs.SleepAnswers.{poll_of};

use crate::arms::{put_in, put_later};
use crate::entry::{Entry, State, make_key};
use crate::instant::Instant;
use crate::key_calls::{elapse, poll_entry, reset_entry, take_out};
use crate::{Error, SleepError};
use mono_model::Poll;
use mono_table::Table;
use mono_wheel::laws::slots_start_ahead;
use mono_wheel::{Steps, Wheel};
use std::alloc::{AllocError, Global};
use std::sync::ledger::Ledger;

/// The sleeps of an executor, by their numbers, on a [`Wheel`].
///
/// A sleep is fresh, armed at a tick, or elapsed. An armed sleep has at most one waker, the task that polled it last.
/// Ticks are milliseconds below 2^63. Only `new` and `add` take memory. A sleep's number is never given twice. The
/// table removes a removed sleep's entry, and each key of the wheel belongs to a live sleep (`holds`); 40 bytes stay for
/// each 65,536 numbers.
#[derive(Drop)]
pub struct Timers {
    wheel: Wheel,
    // The key of each live sleep in the wheel, by the sleep's number.
    keys: Table<u32>,
    // The entry of the sleep at each key.
    entries: Vec<Entry>,
    // The greatest tick of the clock so far.
    greatest: u64,
    limit: u64,
    live: u64,
    is_enabled: bool,
    pub ghost holds: { Holds wheel keys entries.items greatest live },
}

// Returns the key of a sleep in the wheel, while it is live.
fn key_at(keys: &Table<u32>, sleep: u64) -> Option<usize>
    ensures { result ≡ value_at keys.now sleep }
{
    match keys.get(sleep) {
        None => None,
        Some(key) => Some(*key as usize),
    }
}

// Returns whether no further sleep is given out, if `live` sleeps live and `next` is the next number.
fn is_at_end(live: u64, limit: u64, next: u64) -> bool
    ensures { result ≡ (nat_le limit live || (next == 2 ^ 64 - 1)) }
{
    live >= limit || next == u64::MAX
}

fn ready_if(is_ready: bool) -> Poll<()>
    ensures { result ≡ poll_of is_ready }
{
    if is_ready {
        Poll::Ready(())
    } else {
        Poll::Pending
    }
}

impl Timers {
    ghost use Rattle.mono_model.specs.Sleeps.{Sleeps};
    ghost use Rattle.mono_model.specs.Sleeps as model;
    ghost use Rattle.mono_time.specs.Instants.{nanos_of};
    ghost use Rattle.mono_time.specs.Sleeps.{empty_sleep_table, Added, sleep_poll_answer, with_polled_sleep, sleep_reset_answer, with_reset_sleep, sleep_remove_answer, with_removed_sleep, sleep_elapsed_answer, at_clock_tick, with_fired_sleep, IsOneArmed, IsNoneArmedUpTo, IsFiredFirst, armed_count, armed};
    ghost use Rattle.mono_model.specs.SleepActs as machine;
    ghost use Rattle.mono_time.specs.Timers.{sleeps_of, wait_of, elapsed_tick, registered_of, credit_left, poll_raise};
    ghost use Rattle.mono_wheel.specs.Credit.{most_takes};
    ghost use Rattle.mono_time.specs.SlotRegistration.{RegistersOnly, polled_registered, reset_registered, moved_registered, IsRegistered, NextExpiration};
    ghost use Rattle.mono_time.specs.Refinement.{StandsForSleeps};

    /// Makes timers without sleeps, for at most `limit` live ones. Without `enabled` no sleep is ever made.
    pub fn new(alloc: Global, limit: u64, enabled: bool) -> Result<Timers, AllocError>
        ensures sleeps { IfOk result (λ timers. sleeps_of timers ≡ empty_sleep_table limit enabled) }
        ensures stands { IfOk result (λ timers. StandsForSleeps timers (model.no_sleeps limit)) }
        // These clauses show the wheel under the table.
        ensures elapsed { IfOk result (λ timers. elapsed_tick timers ≡ 0) }
        ensures registered { IfOk result (λ timers. (s : ℕ) → registered_of timers s ≡ None) }
        ensures credit { IfOk result (λ timers. credit_left timers ≡ 0) }
    {
        let wheel = Wheel::new(alloc)?;
        Ok(Timers {
            wheel,
            keys: Table::new(alloc),
            entries: Vec::new(alloc),
            greatest: 0,
            limit,
            live: 0,
            is_enabled: enabled,
        })
    }

    /// Returns whether no further sleep is given out: if and only if the live sleeps are at the limit or the next
    /// number is 2^64 - 1.
    pub fn is_full(&self) -> bool
        ensures full { result ≡ is_full (sleeps_of self.now).table (sleeps_of self.now).limit }
        ensures stands { (m : Sleeps) → StandsForSleeps self.now m → result ≡ is_full m.table m.limit }
    {
        is_at_end(self.live, self.limit, self.keys.len())
    }

    /// Returns how many sleeps live (`live`). At most this number is armed (`armed`).
    pub fn live(&self) -> u64
        ensures live { result ≡ count_of (sleeps_of self.now).table }
        ensures armed { armed_count (sleeps_of self.now) ≤ result }
    {
        self.live
    }

    /// Adds a fresh sleep for a deadline, with the next number. It counts as live until it is removed.
    ///
    /// Refused as shutdown if and only if the timers are not enabled, then as at capacity if and only if the live
    /// sleeps are at the limit or the next number is 2^64 - 1. Out of memory comes last. A refusal changes nothing
    /// (`added`).
    #[inline(always)]
    pub fn add(&mut self, alloc: Global, deadline: Instant) -> Result<u64, SleepError>
        ensures added { Added (sleeps_of self.old) (nanos_of deadline) result (sleeps_of self.new) }
        ensures stands { (m : Sleeps) → StandsForSleeps self.old m → machine.Adds (sleeps_of self.old).is_enabled m (nanos_of deadline) result (StandsForSleeps self.new) }
        // These clauses show the wheel under the table.
        ensures elapsed { elapsed_tick self.new ≡ elapsed_tick self.old }
        ensures registered { (s : ℕ) → registered_of self.new s ≡ registered_of self.old s }
        ensures credit { credit_left self.new ≡ credit_left self.old }
    {
        if !self.is_enabled {
            return Err(SleepError::Timer(Error::Shutdown));
        }
        let sleep = self.keys.len();
        if is_at_end(self.live, self.limit, sleep) {
            return Err(SleepError::Timer(Error::AtCapacity));
        }
        match make_key(alloc, &mut self.wheel, &mut self.keys, &mut self.entries) {
            Err(_) => Err(SleepError::Memory),
            Ok(key) => {
                let state = State::Fresh(deadline.tick());
                self.entries[key] = Entry { sleep, state };
                self.live += 1;
                Ok(sleep)
            }
        }
    }

    /// Polls a sleep for a task, and first arms a fresh one at the tick of its deadline. It is ready if it has elapsed;
    /// otherwise the task becomes its only waker. Refused as shutdown if and only if no live sleep has the number
    /// (`answer`).
    #[inline(always)]
    pub fn poll(&mut self, sleep: u64, by: u64) -> Result<Poll<()>, Error>
        ensures answer { result ≡ sleep_poll_answer (sleeps_of self.old) sleep }
        ensures sleeps { sleeps_of self.new ≡ with_polled_sleep (sleeps_of self.old) sleep by }
        ensures stands { (m : Sleeps) → StandsForSleeps self.old m → (result ≡ machine.poll_answer m sleep) × StandsForSleeps self.new (machine.polled m sleep by) }
        // These clauses show the wheel under the table.
        ensures elapsed { elapsed_tick self.new ≡ elapsed_tick self.old }
        ensures registered { RegistersOnly (registered_of self.old) (registered_of self.new) sleep
            (polled_registered (sleeps_of self.old).greatest (value_at (sleeps_of self.old).table sleep) (registered_of self.old sleep)) }
        ensures raise { credit_left self.new ≤ credit_left self.old + poll_raise (elapsed_tick self.old) (value_at (sleeps_of self.old).table sleep) }
    {
        match key_at(&self.keys, sleep) {
            None => Err(Error::Shutdown),
            Some(key) => {
                let entry = &mut self.entries[key];
                let is_ready = poll_entry(&mut self.wheel, entry, key, self.greatest, by);
                Ok(ready_if(is_ready))
            }
        }
    }

    /// Arms a sleep at the tick of a new deadline. If it elapses at once, returns its waker, which is to be woken;
    /// otherwise the waker stays. Refused as shutdown if and only if no live sleep has the number (`answer`).
    pub fn reset(&mut self, sleep: u64, deadline: Instant) -> Result<Option<u64>, Error>
        ensures answer { result ≡ sleep_reset_answer (sleeps_of self.old) sleep (nanos_of deadline) }
        ensures sleeps { sleeps_of self.new ≡ with_reset_sleep (sleeps_of self.old) sleep (nanos_of deadline) }
        ensures stands { (m : Sleeps) → StandsForSleeps self.old m → (result ≡ machine.reset_answer m sleep (nanos_of deadline))
            × StandsForSleeps self.new (machine.reset m sleep (nanos_of deadline)) }
        // These clauses show the wheel under the table.
        ensures elapsed { elapsed_tick self.new ≡ elapsed_tick self.old }
        ensures registered { IsNoneArmedUpTo (sleeps_of self.old) →
            RegistersOnly (registered_of self.old) (registered_of self.new) sleep
            (reset_registered (sleeps_of self.old).greatest (up (nanos_of deadline)) (value_at (sleeps_of self.old).table sleep)
            (registered_of self.old sleep)) }
        ensures raise { credit_left self.new ≤ credit_left self.old + most_takes (up (nanos_of deadline) - elapsed_tick self.old) }
    {
        match key_at(&self.keys, sleep) {
            None => Err(Error::Shutdown),
            Some(key) => {
                let tick = deadline.tick();
                let entry = &mut self.entries[key];
                Ok(reset_entry(&mut self.wheel, entry, key, self.greatest, tick))
            }
        }
    }

    /// Removes a sleep, which wakes no task. Refused as shutdown if and only if no live sleep has the number
    /// (`answer`).
    pub fn remove(&mut self, sleep: u64) -> Result<(), Error>
        ensures answer { result ≡ sleep_remove_answer (sleeps_of self.old) sleep }
        ensures sleeps { sleeps_of self.new ≡ with_removed_sleep (sleeps_of self.old) sleep }
        ensures stands { (m : Sleeps) → StandsForSleeps self.old m → (result ≡ machine.remove_answer m sleep) × StandsForSleeps self.new (machine.removed m sleep) }
        // These clauses show the wheel under the table.
        ensures elapsed { elapsed_tick self.new ≡ elapsed_tick self.old }
        ensures registered { RegistersOnly (registered_of self.old) (registered_of self.new) sleep None }
        ensures raise { credit_left self.new ≤ credit_left self.old }
    {
        match key_at(&self.keys, sleep) {
            None => Err(Error::Shutdown),
            Some(key) => {
                let is_armed = self.entries[key].state.is_armed();
                take_out(&mut self.wheel, key, is_armed);
                self.wheel.free_entry(key);
                self.keys.remove(sleep);
                self.live -= 1;
                Ok(())
            }
        }
    }

    /// Returns whether a sleep has elapsed. Refused as shutdown if and only if no live sleep has the number.
    pub fn is_elapsed(&self, sleep: u64) -> Result<bool, Error>
        ensures answer { result ≡ sleep_elapsed_answer (sleeps_of self.now) sleep }
        ensures stands { (m : Sleeps) → StandsForSleeps self.now m → result ≡ machine.elapsed_answer m sleep }
    {
        match key_at(&self.keys, sleep) {
            None => Err(Error::Shutdown),
            Some(key) => Ok(self.entries[key].state.is_elapsed()),
        }
    }

    /// Returns how many numbers were given to sleeps.
    pub fn issued(&self) -> u64
        ensures { result ≡ next_number (sleeps_of self.now).table }
    {
        self.keys.len()
    }

    /// Returns the tick at which a sleep is armed, and the task that waits for it. Returns `None` if and only if no
    /// task waits for the sleep.
    pub fn wait_of(&self, sleep: u64) -> Option<(u64, u64)>
        ensures { result ≡ wait_of (value_at (sleeps_of self.now).table sleep) }
    {
        match key_at(&self.keys, sleep) {
            None => None,
            Some(key) => match self.entries[key].state.waker() {
                None => None,
                Some(task) => Some((self.wheel.tick_of(key), task)),
            },
        }
    }

    /// Returns the greatest tick of the clock so far.
    pub fn greatest(&self) -> u64
        ensures { result ≡ (sleeps_of self.now).greatest }
    {
        self.greatest
    }

    /// Fires the next sleep of the clock step to a reading, and returns it with its waker, which is to be woken. The
    /// greatest tick becomes the greater of itself and the reading's tick, rounded down (`none`, `some`).
    ///
    /// Returns `None` if and only if no armed sleep has a tick up to the greatest. Sleeps fire in ascending ticks, and
    /// unmoved sleeps of one tick fire in the order of their arming (`stands`). A clock step is a run of calls with one
    /// reading, until one returns `None`. The fall of the wheel's credit is the exact count of its steps (`steps`).
    pub fn clock<L: Ledger>(
        &mut self,
        now: Instant,
        steps: &mut Steps<L>,
    ) -> Option<(u64, Option<u64>)>
        ensures none { IfNone result (IsNoneArmedUpTo (at_clock_tick (sleeps_of self.old) (nanos_of now)) × (sleeps_of self.new ≡ at_clock_tick (sleeps_of self.old) (nanos_of now))) }
        ensures some { IfSome result (λ x. IsFiredFirst (at_clock_tick (sleeps_of self.old) (nanos_of now)) x.0 x.1
            × (sleeps_of self.new ≡ with_fired_sleep (at_clock_tick (sleeps_of self.old) (nanos_of now)) x.0)) }
        ensures fewer { OnSome result (armed_count (sleeps_of self.new) < armed_count (sleeps_of self.old)) }
        ensures stands { (m : Sleeps) → StandsForSleeps self.old m → machine.Fires (machine.at_clock m (nanos_of now)) result (StandsForSleeps self.new) }
        // These clauses show the wheel under the table.
        ensures elapsed { IfNone result (elapsed_tick self.new ≡ (sleeps_of self.new).greatest) }
        ensures later { elapsed_tick self.old ≤ elapsed_tick self.new }
        ensures reached { IfSome result (λ x. value_at (sleeps_of self.old).table x.0 ≡ Some (armed (elapsed_tick self.new) x.1)) }
        ensures registered { (s : ℕ) → value_at (sleeps_of self.new).table s ≡ value_at (sleeps_of self.old).table s →
            registered_of self.new s ≡ moved_registered (elapsed_tick self.old) (elapsed_tick self.new) (value_at (sleeps_of self.old).table s)
            (registered_of self.old s) }
        ensures steps { steps.new + credit_left self.new ≡ steps.old + credit_left self.old }
        ensures gone { IfSome result (λ x. registered_of self.new x.0 ≡ None) }
    {
        let greatest = self.greatest.max(now.clock_tick());
        self.greatest = greatest;
        match self.wheel.poll(greatest, steps) {
            None => None,
            Some(key) => {
                let entry = &mut self.entries[key];
                let waker = elapse(entry);
                Some((entry.sleep, waker))
            }
        }
    }

    /// Returns the next tick at which the wheel has something to do. It is `None` if and only if no sleep is armed,
    /// else the first start of a slot with a sleep (`next`).
    ///
    /// While no clock step is under way it is above the greatest tick and at most the least armed tick (`ahead`). It
    /// exists only if some sleep is armed (`armed`).
    ///
    /// A sleep is registered if and only if it is armed. Then it is pending, or its registered tick is above the tick
    /// that the wheel has reached and at most its own (`registered`). The wheel's tick is at most the greatest tick
    /// (`behind`). All states of the timers show both, in `holds`.
    pub fn next_expiration_time(&self) -> Option<u64>
        ensures next { NextExpiration (elapsed_tick self.now) (registered_of self.now) (sleeps_of self.now) result }
        ensures armed { IfSome result (λ next. IsOneArmed (sleeps_of self.now)) }
        ensures registered { (s : ℕ) → IsRegistered (elapsed_tick self.now) (value_at (sleeps_of self.now).table s) (registered_of self.now s) }
        ensures behind { elapsed_tick self.now ≤ (sleeps_of self.now).greatest }
        ensures ahead { IsNoneArmedUpTo (sleeps_of self.now) → elapsed_tick self.now ≡ (sleeps_of self.now).greatest →
            IfSome result (λ next. ((sleeps_of self.now).greatest < next)
            × ((s tick : ℕ) (waker : Option ℕ) → value_at (sleeps_of self.now).table s ≡ Some (armed tick waker) → next ≤ tick)) }
    {
        slots_start_ahead();
        self.wheel.next_expiration_time()
    }
}
