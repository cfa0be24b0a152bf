// Sleeps, with changes that can be taken back.
ghost use Rattle.std.specs.Prelude.{◌≡◌, ◌<◌, ◌+◌, ◌-◌, ◌^◌, OnOk, IfOk, is_some, true, None, MatchBool};
ghost use Rattle.mono_model.specs.Ticks.{up};
ghost use Rattle.mono_model.specs.Table.{value_at, next_number, is_full};
ghost use Rattle.mono_model.specs.Sleeps as model;
ghost use Rattle.mono_model.specs.SleepActs as sleep;
ghost use Rattle.mono_model.specs.FireOrder.{IsNoneDue};
ghost use Rattle.mono_model.specs.SleepAnswers.{waker_in};
ghost use Rattle.mono_machine.specs.SleepCalls.{poll_reply, gone_reply, elapsed_reply, reset_reply};
ghost use Rattle.mono_trace.specs.Versions.{kept, changed};
ghost use Rattle.mono_trace.specs.Tables.{sleep_of, sleep_place};

use crate::tick_counts::SleepPlaces;
use mono_machine::{Refusal, Reply};
use std::alloc::{AllocError, Global};
use std::marker::Model;

/// The arming of a sleep: its tick, its arm number, whether it was moved to a later tick since, and the task that
/// polled it last.
#[derive(Clone, Copy)]
pub struct Arming {
    pub tick: u128,
    pub arm: u128,
    pub is_moved: bool,
    pub waker: Option<u64>,
}

/// A sleep: never polled, with its deadline; armed; or elapsed.
#[derive(Clone, Copy)]
pub enum Sleep {
    Fresh(u128),
    Armed(Arming),
    Elapsed,
}

/// The sleeps by number, the greatest tick of the clock so far, how often a sleep was armed, and the greatest number of
/// sleeps.
///
/// Contracts see the sleeps of the machine, as they are and as they were when their changes were last kept.
#[derive(Drop)]
pub struct Sleeps {
    places: SleepPlaces,
    greatest: u128,
    greatest_before: u128,
    arms: u128,
    arms_before: u128,
    limit: u64,
}

impl Model for Sleeps {
    ghost use Rattle.mono_model.specs.Sleeps as model;
    ghost use Rattle.mono_trace.specs.Versions.{Versions};
    ghost use Rattle.mono_trace.specs.Tables.{sleeps_of};

    ghost Value = { Versions model.Sleeps };

    ghost view = { λ a. record { now = sleeps_of a.places.now a.greatest a.arms a.limit; before = sleeps_of a.places.before a.greatest_before a.arms_before a.limit } };
}

/// Returns the tick of a deadline in nanoseconds, rounded up.
pub fn tick_of(nanos: u128) -> u128
    ensures { result ≡ up nanos }
{
    let tick = nanos / 1000000;
    if nanos % 1000000 == 0 { tick } else { tick + 1 }
}

impl Sleeps {
    /// Returns a table without sleeps, and a clock at 0.
    pub fn new(alloc: Global, limit: u64) -> Sleeps
        ensures { result ≡ kept (model.no_sleeps limit) }
    {
        Sleeps {
            places: SleepPlaces::new(alloc),
            greatest: 0,
            greatest_before: 0,
            arms: 0,
            arms_before: 0,
            limit,
        }
    }

    /// Returns how often a sleep was armed.
    pub fn arms(&self) -> u128
        ensures { result ≡ self.now.now.arm_count }
    {
        self.arms
    }

    /// Returns the greatest tick of the clock so far.
    pub fn greatest(&self) -> u128
        ensures { result ≡ self.now.now.greatest }
    {
        self.greatest
    }

    /// Returns whether no further sleep may be made.
    pub fn is_full(&self) -> bool
        ensures { result ≡ is_full self.now.now.table self.now.now.limit }
    {
        self.places.live() >= self.limit || self.places.next_number() == u64::MAX
    }

    /// Returns the sleeps that are due if the clock shows this tick, each after its tick and its arm number, in that order.
    pub fn due_at(&self, alloc: Global, tick: u128) -> Result<Vec<(u128, u128, u64)>, AllocError> {
        let greatest = if self.greatest < tick {
            tick
        } else {
            self.greatest
        };
        let mut due = Vec::new(alloc);
        'sleeps: for s in 0..self.places.next_number() {
            if let Some(Sleep::Armed(a)) = self.places.get(s) {
                if a.tick <= greatest {
                    due.push((a.tick, a.arm, s))?;
                }
            }
        }
        due.sort_unstable();
        Ok(due)
    }

    /// Returns the sleep with this number.
    pub fn get(&self, s: u64) -> Option<Sleep>
        ensures { sleep_place result ≡ value_at self.now.now.table s }
    {
        self.places.get(s)
    }

    /// Adds a sleep that was never polled, and returns its number, which is the next.
    pub fn add(&mut self, nanos: u128) -> Result<u64, AllocError>
        ensures number { IfOk result (λ s. s ≡ next_number self.old.now.table) }
        ensures sleeps { OnOk result (self.new ≡ changed self.old (sleep.added self.old.now nanos)) }
    {
        let s = self.places.next_number();
        self.places.push_fresh(nanos)?;
        Ok(s)
    }

    /// Stores the new state of a sleep.
    fn set(&mut self, s: u64, value: Sleep) -> Result<(), AllocError>
        requires { is_some (value_at self.old.now.table s) ≡ true }
        ensures { OnOk result (self.new ≡ changed self.old (model.with_sleep self.old.now s (sleep_of value))) }
    {
        self.places.set(s, value)
    }

    /// Removes a sleep.
    fn discard(&mut self, s: u64) -> Result<(), AllocError>
        requires { is_some (value_at self.old.now.table s) ≡ true }
        ensures { OnOk result (self.new ≡ changed self.old (model.without_sleep self.old.now s)) }
    {
        self.places.remove(s)
    }

    /// Arms a sleep, as the last so far.
    fn arm(&mut self, s: u64, tick: u128, waker: Option<u64>) -> Result<(), AllocError>
        requires is_there { is_some (value_at self.old.now.table s) ≡ true }
        requires has_number { self.old.now.arm_count < 2 ^ 128 - 1 }
        ensures { OnOk result (self.new ≡ changed self.old (model.armed_anew self.old.now s tick waker)) }
    {
        let arm = self.arms;
        self.arms = arm + 1;
        self.set(
            s,
            Sleep::Armed(Arming {
                tick,
                arm,
                is_moved: false,
                waker,
            }),
        )
    }

    /// Polls a sleep for a task.
    pub fn poll(&mut self, s: u64, by: u64) -> Result<Reply, AllocError>
        requires { self.old.now.arm_count < 2 ^ 128 - 1 }
        ensures reply { IfOk result (λ r. r ≡ poll_reply (sleep.poll_answer self.old.now s)) }
        ensures sleeps { OnOk result (self.new ≡ changed self.old (sleep.polled self.old.now s by)) }
    {
        match self.get(s) {
            None => Ok(Reply::Refused(Refusal::NoTimer)),
            Some(Sleep::Elapsed) => Ok(Reply::Ready),
            Some(Sleep::Armed(arming)) => {
                self.set(
                    s,
                    Sleep::Armed(Arming {
                        waker: Some(by),
                        ..arming
                    }),
                )?;
                Ok(Reply::Pending)
            }
            Some(Sleep::Fresh(nanos)) => {
                let tick = tick_of(nanos);
                if tick <= self.greatest {
                    self.set(s, Sleep::Elapsed)?;
                    Ok(Reply::Ready)
                } else {
                    self.arm(s, tick, Some(by))?;
                    Ok(Reply::Pending)
                }
            }
        }
    }

    /// Arms the sleep at a tick that has not come.
    fn arm_above(&mut self, s: u64, value: Sleep, tick: u128) -> Result<(), AllocError>
        requires is_there { is_some (value_at self.old.now.table s) ≡ true }
        requires has_number { self.old.now.arm_count < 2 ^ 128 - 1 }
        ensures { OnOk result (self.new ≡ changed self.old (model.armed_above (sleep_of value) self.old.now s tick)) }
    {
        match value {
            Sleep::Fresh(_) | Sleep::Elapsed => self.arm(s, tick, None),
            Sleep::Armed(arming) => {
                if arming.tick <= tick {
                    self.set(
                        s,
                        Sleep::Armed(Arming {
                            tick,
                            is_moved: arming.is_moved || arming.tick < tick,
                            ..arming
                        }),
                    )
                } else {
                    self.arm(s, tick, arming.waker)
                }
            }
        }
    }

    /// Arms a sleep at another deadline. Returns the waker to wake, if it elapses at once.
    pub fn reset(&mut self, s: u64, nanos: u128) -> Result<Option<u64>, AllocError>
        requires { self.old.now.arm_count < 2 ^ 128 - 1 }
        ensures waker { IfOk result (λ w. w ≡ waker_in (sleep.reset_answer self.old.now s nanos)) }
        ensures sleeps { OnOk result (self.new ≡ changed self.old (sleep.reset self.old.now s nanos)) }
    {
        let tick = tick_of(nanos);
        match self.get(s) {
            None => Ok(None),
            Some(value) => {
                if tick <= self.greatest {
                    self.set(s, Sleep::Elapsed)?;
                    Ok(waker_of(value))
                } else {
                    self.arm_above(s, value, tick)?;
                    Ok(None)
                }
            }
        }
    }

    /// Returns the reply to the reset of a live sleep.
    pub fn reset_reply(&self, nanos: u128) -> Reply
        ensures { result ≡ reset_reply self.now.now.greatest (up nanos) }
    {
        if tick_of(nanos) <= self.greatest {
            Reply::Elapsed
        } else {
            Reply::Armed
        }
    }

    /// Drops a sleep.
    pub fn remove(&mut self, s: u64) -> Result<Reply, AllocError>
        ensures reply { IfOk result (λ r. r ≡ gone_reply (sleep.remove_answer self.old.now s)) }
        ensures sleeps { OnOk result (self.new ≡ changed self.old (sleep.removed self.old.now s)) }
    {
        match self.get(s) {
            None => Ok(Reply::Refused(Refusal::NoTimer)),
            Some(_) => {
                self.discard(s)?;
                Ok(Reply::Dropped(None))
            }
        }
    }

    /// Returns whether a sleep has elapsed.
    pub fn elapsed(&self, s: u64) -> Reply
        ensures { result ≡ elapsed_reply (sleep.elapsed_answer self.now.now s) }
    {
        match self.get(s) {
            None => Reply::Refused(Refusal::NoTimer),
            Some(Sleep::Elapsed) => Reply::Yes,
            Some(Sleep::Fresh(_)) | Some(Sleep::Armed(_)) => Reply::No,
        }
    }

    /// Returns whether no sleep is due.
    pub fn is_none_due(&self) -> bool
        ensures { MatchBool result (IsNoneDue self.now.now.table self.now.now.greatest) (IsNoneDue self.now.now.table self.now.now.greatest → ⊥) }
    {
        self.places.is_none_due(self.greatest)
    }

    /// Sets the clock to `nanos` nanoseconds.
    pub fn at_clock(&mut self, nanos: u128)
        ensures { self.new ≡ changed self.old (sleep.at_clock self.old.now nanos) }
    {
        self.greatest = self.greatest.max(nanos / 1000000);
    }

    /// Returns the waker of a sleep, if it has one.
    pub fn waker_at(&self, s: u64) -> Option<u64>
        ensures { result ≡ sleep.waker_at self.now.now s }
    {
        match self.get(s) {
            None => None,
            Some(value) => waker_of(value),
        }
    }

    /// Fires a sleep.
    pub fn fire(&mut self, s: u64) -> Result<(), AllocError>
        requires { is_some (value_at self.old.now.table s) ≡ true }
        ensures { OnOk result (self.new ≡ changed self.old (sleep.fired self.old.now s)) }
    {
        self.set(s, Sleep::Elapsed)
    }

    /// Keeps all changes, so that they cannot be taken back any more.
    pub fn keep(&mut self)
        ensures { self.new ≡ kept self.old.now }
    {
        self.places.keep();
        self.greatest_before = self.greatest;
        self.arms_before = self.arms;
    }

    /// Takes back all changes since they were last kept.
    pub fn take_back(&mut self) -> Result<(), AllocError>
        ensures { OnOk result (self.new ≡ kept self.old.before) }
    {
        self.greatest = self.greatest_before;
        self.arms = self.arms_before;
        self.places.take_back()
    }
}

/// Returns the waker of a sleep. Only an armed sleep has one.
pub fn waker_of(value: Sleep) -> Option<u64>
    ensures { result ≡ model.waker_of (sleep_of value) }
{
    match value {
        Sleep::Armed(arming) => arming.waker,
        Sleep::Fresh(_) | Sleep::Elapsed => None,
    }
}
