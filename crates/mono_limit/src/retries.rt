// The live retries, and the ends of their waits.
ghost use Rattle.std.specs.Prelude.{◌≡◌, ◌<◌, ◌≤◌, ◌+◌, ◌*◌, ◌-◌, ◌^◌, [], None, Some, IfOk, OnOk, OnErr, max, vec_len, vec_capacity};
ghost use Rattle.mono_model.specs.Table.{value_at, next_number, with_next, with_value, without, count_of, is_full};
ghost use Rattle.mono_model.specs.Ticks.{down};
ghost use Rattle.mono_time.specs.Instants.{nanos_of};
ghost use Rattle.mono_time.specs.Timers.{sleeps_of, credit_left};
ghost use Rattle.mono_limit.specs.Schedules.{IsSound, failed_until, ended_row, EndsWaits};
ghost use Rattle.mono_limit.specs.RetryTable.{Holds};

use crate::schedules::Schedule;
use mono_table::ReadyTable;
use mono_time::{Instant, Timers};
use mono_wheel::Steps;
use std::alloc::{AllocError, Global};
use std::sync::ledger::Ledger;

/// The retries by their numbers. A retry has the sleep of its number, which is armed while it waits. The memory follows
/// the number of live retries.
#[derive(Drop)]
pub(crate) struct Retries {
    pub(crate) rows: ReadyTable<Schedule>,
    pub(crate) timers: Timers,
    pub(crate) live: u64,
    pub(crate) most: u64,
    pub ghost holds: { Holds rows.table (sleeps_of timers) live },
}

/// Returns the retry of a number, while it lives.
pub(crate) fn row_at(rows: &ReadyTable<Schedule>, retry: u64) -> Option<Schedule>
    ensures { result ≡ value_at rows.now.table retry }
{
    rows.get(retry).copied()
}

/// Returns the moment at which a tick begins.
fn instant_of(tick: u64) -> Instant
    requires { tick < 2 ^ 63 }
    ensures { nanos_of result ≡ tick * 1000000 }
{
    match Instant::from_nanos(u128::from(tick) * 1000000) {
        Some(instant) => instant,
        None => unreachable!(),
    }
}

/// Ends the wait of a retry.
fn end_wait(rows: &mut ReadyTable<Schedule>, retry: u64)
    ensures { rows.new.table ≡ ended_row (value_at rows.old.table retry) rows.old.table retry }
{
    if let Some(schedule) = row_at(rows, retry) {
        rows.replace(
            retry,
            Schedule {
                waits_for: None,
                ..schedule
            },
        );
    }
}

impl Retries {
    ghost use Rattle.mono_limit.specs.Retries.{greatest_of};

    /// Returns a table without retries; at most `most` may live at a time.
    pub(crate) fn new(alloc: Global, most: u64) -> Result<Retries, AllocError>
        ensures rows { IfOk result (λ retries. retries.rows.table ≡ []) }
        ensures greatest { IfOk result (λ retries. greatest_of retries ≡ 0) }
        ensures most { IfOk result (λ retries. retries.most ≡ most) }
    {
        let timers = Timers::new(alloc, u64::MAX, true)?;
        Ok(Retries {
            rows: ReadyTable::new(alloc),
            timers,
            live: 0,
            most,
        })
    }

    /// Returns the greatest tick of the clock so far.
    pub(crate) fn greatest(&self) -> u64
        ensures { result ≡ greatest_of self.now }
    {
        self.timers.greatest()
    }

    /// Returns whether no further retry is given out.
    pub(crate) fn is_full(&self) -> bool
        ensures { result ≡ is_full self.now.rows.table self.now.most }
    {
        self.live >= self.most || self.rows.len() == u64::MAX
    }

    /// Returns how many retries live.
    pub(crate) fn live(&self) -> usize
        ensures { result ≡ count_of self.now.rows.table }
    {
        self.live as usize
    }

    /// Adds a retry, and returns its number, which is the next. Nothing changes if it is out of memory.
    pub(crate) fn add(&mut self, alloc: Global, schedule: Schedule) -> Result<u64, AllocError>
        requires sound { IsSound schedule }
        requires fresh { schedule.waits_for ≡ None }
        ensures number { IfOk result (λ r. r ≡ next_number self.old.rows.table) }
        ensures rows { OnOk result (self.new.rows.table ≡ with_next self.old.rows.table schedule) }
        ensures refused { OnErr result (self.new.rows.table ≡ self.old.rows.table) }
        ensures greatest { greatest_of self.new ≡ greatest_of self.old }
        ensures most { self.new.most ≡ self.old.most }
    {
        self.rows.reserve(alloc, schedule)?;
        match self.timers.add(alloc, instant_of(0)) {
            Ok(retry) => {
                self.rows.add(schedule);
                self.live += 1;
                Ok(retry)
            }
            Err(_) => Err(AllocError),
        }
    }

    /// Records one more failure of a live retry, which waits for a tick above the greatest.
    pub(crate) fn wait(&mut self, retry: u64, schedule: Schedule, tick: u64)
        requires lives { value_at self.old.rows.table retry ≡ Some schedule }
        requires goes_on { schedule.failures + 1 < schedule.most }
        requires later { greatest_of self.old < tick }
        requires in_range { tick < 2 ^ 63 }
        ensures rows { self.new.rows.table ≡ with_value self.old.rows.table retry (failed_until schedule (schedule.failures + 1) tick) }
        ensures greatest { greatest_of self.new ≡ greatest_of self.old }
        ensures most { self.new.most ≡ self.old.most }
    {
        let failures = schedule.failures + 1;
        let waits_for = Some(tick);
        let _ = self.timers.reset(retry, instant_of(tick));
        self.rows.replace(
            retry,
            Schedule {
                failures,
                waits_for,
                ..schedule
            },
        );
    }

    /// Removes a live retry.
    pub(crate) fn remove(&mut self, retry: u64, schedule: Schedule)
        requires lives { value_at self.old.rows.table retry ≡ Some schedule }
        ensures rows { self.new.rows.table ≡ without self.old.rows.table retry }
        ensures greatest { greatest_of self.new ≡ greatest_of self.old }
        ensures most { self.new.most ≡ self.old.most }
    {
        let _ = &schedule;
        let _ = self.timers.remove(retry);
        self.rows.remove(retry);
        self.live -= 1;
    }

    /// Shows the clock a moment, and appends the retries whose wait ends, in ascending ticks.
    pub(crate) fn clock<L: Ledger>(
        &mut self,
        now: Instant,
        due: &mut Vec<u64>,
        steps: &mut Steps<L>,
    )
        requires room { vec_len due.old + count_of self.old.rows.table ≤ vec_capacity due.old }
        ensures due { EndsWaits self.old.rows.table (max (greatest_of self.old) (down (nanos_of now))) due.old.items due.new.items self.new.rows.table }
        ensures greatest { greatest_of self.new ≡ max (greatest_of self.old) (down (nanos_of now)) }
        ensures most { self.new.most ≡ self.old.most }
        ensures steps { steps.new + credit_left self.new.timers ≡ steps.old + credit_left self.old.timers }
    {
        while let Some((retry, _)) = self.timers.clock(now, steps) {
            end_wait(&mut self.rows, retry);
            due.push_reserved(retry);
        }
    }
}
