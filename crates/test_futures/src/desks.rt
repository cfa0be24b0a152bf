// A small context for tests: timers, and no tasks.
ghost use Rattle.std.specs.Prelude.{◌≡◌, ◌<◌, true, false, refl};
ghost use Rattle.std.proofs.Common.{◌∙◌, ap};
ghost use Rattle.mono_model.specs.Tasks.{no_tasks};
ghost use Rattle.mono_time.specs.Timers.{sleeps_of};

use mono_model::Host;
use mono_task::{Context, Poll, TaskError, TaskFuture, Woke};
use mono_time::{Error, Instant, SleepError, TimeContext, Timers};
use mono_wheel::Steps;
use std::alloc::Global;
use std::marker::Brand;
use std::process::Abort;
use std::sync::ledger::{Blank, Ledger};

/// A context of task `me` at `now`, whose sleeps are those of its timers.
#[derive(Drop)]
pub(crate) struct Desk {
    pub(crate) me: u64,
    pub(crate) now: Instant,
    pub(crate) is_out_of_memory: bool,
    pub(crate) timers: Timers,
}

impl Context for Desk {
    ghost number = { λ c. c.me };

    ghost nanos = { λ c. c.now.nanos };

    ghost is_out_of_memory = { λ c. c.is_out_of_memory };

    ghost work = { λ c. no_tasks 0 };

    ghost reaches = { λ c d. (d.me ≡ c.me) × (d.now ≡ c.now) × (c.is_out_of_memory ≡ true → d.is_out_of_memory ≡ true) };

    ghost wakes = { λ c t r d. d ≡ c };

    fn me(&self) -> u64 {
        self.me
    }

    fn now(&self) -> u128 {
        self.now.as_nanos()
    }

    fn wake(&mut self, _task: u64) -> Result<Woke, TaskError> {
        Err(TaskError::NoTask)
    }

    ghost reaches_itself = { λ c. (refl, refl, λ h. h) };

    ghost reaches_on = { λ a b c p q. (q.0 ∙ p.0, q.1 ∙ p.1, λ h. q.2 (p.2 h)) };

    ghost same_number = { λ a b r. r.0 };

    ghost same_nanos = { λ a b r. ap (λ t. t.nanos) r.1 };

    ghost stays_out_of_memory = { λ a b r. r.2 };
}

impl TimeContext for Desk {
    ghost sleeps = { λ c. sleeps_of c.timers };

    fn add_sleep(&mut self, alloc: Global, deadline: Instant) -> Result<u64, SleepError> {
        match self.timers.add(alloc, deadline) {
            Ok(sleep) => Ok(sleep),
            Err(SleepError::Memory) => {
                self.is_out_of_memory = true;
                Err(SleepError::Memory)
            }
            Err(SleepError::Timer(error)) => Err(SleepError::Timer(error)),
        }
    }

    fn poll_sleep(&mut self, sleep: u64) -> Result<Poll<()>, Error> {
        self.timers.poll(sleep, self.me)
    }

    fn reset_sleep(&mut self, sleep: u64, deadline: Instant) -> Result<(), Error> {
        match self.timers.reset(sleep, deadline) {
            Ok(_) => Ok(()),
            Err(error) => Err(error),
        }
    }

    fn drop_sleep(&mut self, sleep: u64) -> Result<(), Error> {
        self.timers.remove(sleep)
    }

    fn sleep_elapsed(&self, sleep: u64) -> Result<bool, Error> {
        self.timers.is_elapsed(sleep)
    }

    ghost wakes_no_sleep = { λ c d t r w. ap (λ x. sleeps_of x.timers) w };
}

/// Returns the desk of task 7 at a time, with room for four sleeps.
pub(crate) fn empty_desk<R: Abort>(rt: &R, alloc: Global, now: Instant) -> Desk
    ensures { (sleeps_of result.timers).greatest ≡ 0 }
{
    Desk {
        me: 7,
        now,
        is_out_of_memory: false,
        timers: Timers::new(alloc, 4, true).expect(rt, "memory"),
    }
}

/// Returns the instant `millis` milliseconds after the clock's zero.
pub(crate) fn at_millis(millis: u32) -> Instant {
    match Instant::from_nanos(u128::from(millis) * 1000000) {
        Some(instant) => instant,
        None => unreachable!(),
    }
}

/// Polls a future through its bound.
pub(crate) fn polled<F: TaskFuture<Desk>, R: Host>(
    rt: &R,
    alloc: Global,
    cx: &mut Desk,
    future: &mut F,
) -> Poll<F::Output>
    requires unspent { F.is_spent future.old ≡ false }
    requires callable { F.can_poll future.old }
{
    future.poll(rt, alloc, cx)
}

fn fired<L: Ledger>(timers: &mut Timers, now: Instant, blank: Blank) -> Option<(u64, Option<u64>)>
    requires { (blank.name ≡ L.name) × (blank.parts ≡ L.parts) × (0 < L.parts) }
{
    let mut steps: Steps<L> = Steps::new(blank);
    timers.clock(now, &mut steps)
}

/// Returns the next sleep that fires in a clock step.
pub(crate) fn fires(timers: &mut Timers, now: Instant) -> Option<(u64, Option<u64>)> {
    fired::<Brand>(timers, now, Blank::new(1))
}
