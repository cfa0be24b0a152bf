//! Session deadlines over the timers of the executor.

ghost use Rattle.std.specs.Prelude.{◌≡◌, ℕ, true, Option, IfOk, IfSome, IfNone, OnErr, OnOk, ◌<◌};
ghost use Rattle.mono_model.specs.Ticks.{up};
ghost use Rattle.mono_time.specs.Instants.{nanos_of};
ghost use Rattle.mono_time.specs.Sleeps.{with_added_sleep, with_polled_sleep, with_reset_sleep, sleep_reset_answer, at_clock_tick, with_removed_sleep, with_fired_sleep, IsNoneArmedUpTo, IsFiredFirst};
ghost use Rattle.mono_model.specs.SleepAnswers.{without_waker};
ghost use Rattle.mono_time.specs.Timers.{sleeps_of};
ghost use Rattle.mono_time.specs.Sleeps as spec;

use mono_time::{Error, Instant, SleepError, Timers};
use mono_wheel::Steps;
use std::alloc::{AllocError, Global};
use std::marker::Brand;
use std::sync::ledger::{Blank, Ledger};

/// Sessions by their numbers, each with a deadline.
#[derive(Drop)]
pub struct Sessions {
    timers: Timers,
}

impl Sessions {
    /// Returns an empty set of sessions, with room for `limit`.
    pub fn new(alloc: Global, limit: u64) -> Result<Sessions, AllocError>
        ensures { IfOk result (λ s. sleeps_of s.timers ≡ spec.empty_sleep_table limit true) }
    {
        Ok(Sessions {
            timers: Timers::new(alloc, limit, true)?,
        })
    }

    /// Opens a session with a deadline, which is armed at once.
    pub fn open(&mut self, alloc: Global, deadline: Instant) -> Result<u64, SleepError>
        ensures opened { IfOk result (λ s. sleeps_of self.new.timers ≡ with_polled_sleep (with_added_sleep (sleeps_of self.old.timers) (up (nanos_of deadline))) s s) }
        ensures refused { OnErr result (sleeps_of self.new.timers ≡ sleeps_of self.old.timers) }
    {
        let session = self.timers.add(alloc, deadline)?;
        let _ = self.timers.poll(session, session);
        Ok(session)
    }

    /// Moves the session's deadline. Refused if and only if there is no such session.
    pub fn touch(&mut self, session: u64, deadline: Instant) -> Result<(), Error>
        ensures moved { sleeps_of self.new.timers ≡ with_reset_sleep (sleeps_of self.old.timers) session (nanos_of deadline) }
        ensures answer { result ≡ without_waker (sleep_reset_answer (sleeps_of self.old.timers) session (nanos_of deadline)) }
    {
        match self.timers.reset(session, deadline) {
            Ok(_) => Ok(()),
            Err(error) => Err(error),
        }
    }

    /// Returns the next session whose deadline has come at the clock's reading, and removes it. Returns None if there
    /// is none.
    pub fn expire<L: Ledger>(&mut self, now: Instant, steps: &mut Steps<L>) -> Option<u64>
        ensures due { IfSome result (λ s. (waker : Option ℕ) × IsFiredFirst (at_clock_tick (sleeps_of self.old.timers) (nanos_of now)) s waker) }
        ensures gone { IfSome result (λ s. sleeps_of self.new.timers ≡ with_removed_sleep (with_fired_sleep (at_clock_tick (sleeps_of self.old.timers) (nanos_of now)) s) s) }
        ensures none { IfNone result (IsNoneArmedUpTo (sleeps_of self.new.timers)) }
    {
        let (session, _) = self.timers.clock(now, steps)?;
        let _ = self.timers.remove(session);
        Some(session)
    }

    // Takes all sessions that are due, without giving their numbers back yet.
    fn take_due<L: Ledger>(
        &mut self,
        now: Instant,
        into: &mut Vec<u64>,
        blank: Blank,
    ) -> Result<(), AllocError>
        requires { (blank.name ≡ L.name) × (blank.parts ≡ L.parts) × (0 < L.parts) }
        ensures none { OnOk result (IsNoneArmedUpTo (sleeps_of self.new.timers)) }
    {
        let mut steps: Steps<L> = Steps::new(blank);
        while let Some((session, _)) = self.timers.clock(now, &mut steps) {
            into.push(session)?;
        }
        Ok(())
    }

    /// Removes all sessions whose deadline has come, and appends their numbers to `into`. Afterwards no session is due.
    pub fn expire_all(&mut self, now: Instant, into: &mut Vec<u64>) -> Result<(), AllocError>
        ensures none { OnOk result (IsNoneArmedUpTo (sleeps_of self.new.timers)) }
    {
        let first = into.len();
        let blank = Blank::new(1);
        self.take_due::<Brand>(now, into, blank)?;
        for session in into.iter().skip(first) {
            let _ = self.timers.remove(*session);
        }
        Ok(())
    }
}
