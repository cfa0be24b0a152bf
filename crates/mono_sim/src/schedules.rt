// Which runtime of a world has its step next.
ghost use Rattle.std.specs.Prelude.{◌≡◌, ◌<◌, length, IfOk, OnOk, OnErr};
ghost use Rattle.mono_model.specs.Random.{seeded, drawn};
ghost use Rattle.mono_sim.specs.Plans.{Plan, start_plan, after_driver, added, is_over, place_in, draw_of, after_drawing, after_run, next_round, disturbed};

use crate::draws::{Odds, draw_jump, hits};
use mono_model::FastRand;
use mono_rt::RunError;
use std::alloc::{AllocError, Global};
use std::marker::Model;
use std::mem;

/// A step of a runtime, as a schedule draws it.
#[derive(Clone, Copy, Debug, PartialEq, Eq)]
pub struct Draw {
    /// The runtime's number.
    pub number: usize,
    /// The budget of its step.
    pub turns: u64,
    /// Whether it stands still.
    pub stands: bool,
    /// How far the clock jumps ahead before it, in nanoseconds.
    pub jump: u64,
}

/// The order in which the runtimes of a world have their steps. In a round each unfinished one has one.
#[derive(Drop)]
pub struct Schedule {
    odds: Odds,
    rand: FastRand,
    // those that are to have a step in this round, and those that had it
    waiting: Vec<usize>,
    served: Vec<usize>,
    // whether no runtime had a turn in this round, failed or stood still
    is_quiet: bool,
}

impl Model for Schedule {
    ghost use Rattle.mono_sim.specs.Plans.{Plan};

    ghost Value = { Plan };

    ghost view = { λ a. record { odds = a.odds; rand = a.rand; waiting = a.waiting.items; served = a.served.items; is_quiet = a.is_quiet } };
}

impl Schedule {
    /// Returns the schedule of this seed, without runtimes.
    pub(crate) fn new(alloc: Global, seed: u64, odds: Odds) -> Schedule
        ensures { result ≡ start_plan seed odds }
    {
        Schedule {
            odds,
            rand: FastRand::new(seed),
            waiting: Vec::new(alloc),
            served: Vec::new(alloc),
            is_quiet: true,
        }
    }

    /// Returns the generator of a driver, which is drawn, and how often the driver fails.
    pub(crate) fn draw_driver(&mut self) -> (FastRand, u32)
        ensures rand { result.0 ≡ seeded (drawn self.old.rand) }
        ensures fails { result.1 ≡ self.old.odds.fails }
        ensures after { self.new ≡ after_driver self.old }
    {
        let rand = FastRand::new(self.rand.fastrand() as u64);
        (rand, self.odds.fails)
    }

    /// Adds a runtime, which is to have a step in this round.
    pub(crate) fn add(&mut self, number: usize) -> Result<(), AllocError>
        ensures added { OnOk result (self.new ≡ added number self.old) }
        ensures refused { OnErr result (self.new ≡ self.old) }
    {
        self.waiting.push(number)?;
        Ok(())
    }

    /// Takes back the last runtime that was added.
    pub(crate) fn take_back(&mut self, number: usize)
        ensures { (plan : Plan) → self.old ≡ added number plan → self.new ≡ plan }
    {
        let _ = self.waiting.pop();
    }

    /// Returns whether each unfinished runtime had its step in this round.
    pub(crate) fn is_round_over(&self) -> bool
        ensures { result ≡ is_over self.now }
    {
        self.waiting.is_empty()
    }

    /// Returns whether no runtime had a turn in this round, failed or stood still.
    pub(crate) fn is_quiet(&self) -> bool
        ensures { result ≡ self.now.is_quiet }
    {
        self.is_quiet
    }

    /// Draws the next step of the round. Nothing is drawn if out of memory.
    pub(crate) fn draw(&mut self) -> Result<Draw, AllocError>
        requires { 0 < length self.old.waiting }
        ensures drawn { IfOk result (λ drawn. drawn ≡ draw_of self.old) }
        ensures after { OnOk result (self.new ≡ after_drawing self.old) }
        ensures place { OnOk result (place_in self.old < length self.old.waiting) }
        ensures refused { OnErr result (self.new ≡ self.old) }
    {
        let mut rand = self.rand;
        let count = self.waiting.len().min(0xffff_ffff) as u32;
        let place = rand.fastrand_n(count) as usize;
        let number = self.waiting[place];
        self.served.push(number)?;
        let _ = self.waiting.swap_remove(place);
        let turns = rand.fastrand_n(self.odds.turns) as u64 + 1;
        let stands = hits(&mut rand, self.odds.stands);
        let jump = draw_jump(&mut rand, &self.odds);
        self.rand = rand;
        Ok(Draw {
            number,
            turns,
            stands,
            jump,
        })
    }

    /// Notes how the last step ended, and whether a turn was run. If the main task has finished, the runtime is taken out.
    /// A step in which no turn was run and no call failed is quiet.
    pub(crate) fn note(&mut self, answer: Result<(), RunError>, turned: bool)
        ensures { self.new ≡ after_run answer turned self.old }
    {
        match answer {
            Ok(()) => {
                let _ = self.served.pop();
                self.is_quiet = false;
            }
            Err(RunError::Turns) => self.is_quiet = self.is_quiet && !turned,
            Err(_) => self.is_quiet = false,
        }
    }

    /// Notes that something happened in this round.
    pub(crate) fn disturb(&mut self)
        ensures { self.new ≡ disturbed self.old }
    {
        self.is_quiet = false;
    }

    /// Begins a round of those that had a step in the last one.
    pub(crate) fn begin_round(&mut self)
        ensures { self.new ≡ next_round self.old }
    {
        mem::swap(&mut self.waiting, &mut self.served);
        self.is_quiet = true;
    }
}
