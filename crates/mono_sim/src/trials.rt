// Trials of a system under many seeds, and the least trial that fails.
ghost use Rattle.std.specs.Prelude.{◌≡◌, ◌<◌, ◌≤◌, IfOk, IfErr, IfSome, IfNone};
ghost use Rattle.mono_sim.specs.Faults.{all_faults, odds_with};
ghost use Rattle.mono_sim.specs.Trials.{MakesSound, Passes, Fails, SeedPasses, SeedFails, IsFirstOf, IsLeast, EachPasses, IsFound};

use crate::draws::Odds;
use crate::faults::{ALL, Faults, fewer_sets};
use crate::steps::Step;
use mono_model::Host;
use std::alloc::{AllocError, Global};
use std::ops::Range;

/// A system that goes on by steps, as a `World` does.
pub trait System {
    ghost use Rattle.mono_sim.specs.declared.steps.Step.{Step};

    // Whether it can make a step.
    ghost can_step: { Self → Type 0 };

    // What a step does.
    ghost steps: { Step → Self → Self → Type 0 };

    /// Does one step. Fails only if out of memory.
    fn make_step<R: Host>(&mut self, rt: &R, alloc: Global) -> Result<Step, AllocError>
        requires can { can_step self.old }
        ensures can { can_step self.new }
        ensures steps { IfOk result (λ did. steps did self.old self.new) };
}

/// A system in a simulation, and what a check sees of it from outside.
#[derive(Drop)]
pub struct Trial<T, X> {
    /// The system: its runtimes.
    pub world: T,
    /// What a check sees from outside, as a receiver to which a task sends.
    pub seen: X,
}

/// A trial that failed, as its last step left it.
#[derive(Drop)]
pub struct Failure<T, X> {
    /// The seed with which it was made.
    pub seed: u64,
    /// The kinds of faults that it had: the fewest with which this seed fails.
    pub faults: Faults,
    /// The odds with which it was made, which have these kinds of faults alone.
    pub odds: Odds,
    /// How many steps it made: the check said no after the last one, and yes after each before.
    pub steps: u64,
    /// The trial after these steps.
    pub trial: Trial<T, X>,
}

/// The trial of a seed could not be made, or it ran out of memory.
#[derive(Clone, Copy, Debug, PartialEq, Eq)]
pub struct Untried {
    /// The seed.
    pub seed: u64,
}

impl<T: System, X> Trial<T, X> {
    /// Does at most so many steps, and ends early if the world is over or stuck, or if the check says no after a step.
    /// Returns the number of the steps if it does. Fails only if out of memory.
    fn run<R: Host, K: Fn(&T, Step, &mut X) -> bool>(
        &mut self,
        rt: &R,
        alloc: Global,
        check: &K,
        steps: u64,
    ) -> Result<Option<u64>, AllocError>
        requires sound { T.can_step self.old.world }
        requires callable { K.IsAlwaysCallable check.now }
        ensures passed { IfOk result (λ r. IfNone r (Passes T.steps K.Fn check.now steps self.old self.new)) }
        ensures failed { IfOk result (λ r. IfSome r (λ n. Fails T.steps K.Fn check.now steps n self.old self.new)) }
    {
        let mut made = 0;
        while made < steps {
            let did = self.world.make_step(rt, alloc)?;
            made += 1;
            if !check(&self.world, did, &mut self.seen) {
                return Ok(Some(made));
            }
            if let Some(_how) = did.end() {
                return Ok(None);
            }
        }
        Ok(None)
    }
}

// Makes the trial of a seed with these kinds of faults alone, and runs it. Returns the failure if it failed.
fn try_seed<T, X, R, M, K>(
    rt: &R,
    alloc: Global,
    make: &M,
    check: &K,
    steps: u64,
    seed: u64,
    odds: Odds,
    faults: Faults,
) -> Result<Option<Failure<T, X>>, AllocError>
where
    T: System + Drop,
    X: Drop,
    R: Host,
    M: Fn(u64, Odds) -> Option<Trial<T, X>>,
    K: Fn(&T, Step, &mut X) -> bool,
    requires makes { M.IsAlwaysCallable make.now }
    requires checks { K.IsAlwaysCallable check.now }
    requires sound { MakesSound T.can_step M.Fn make.now }
    ensures passed { IfOk result (λ r. IfNone r (SeedPasses T.steps M.Fn make.now K.Fn check.now steps seed (odds_with faults odds))) }
    ensures failed { IfOk result (λ r. IfSome r (λ f. SeedFails T.steps M.Fn make.now K.Fn check.now steps seed odds faults f)) }
{
    let odds = odds.with(faults);
    let Some(mut trial) = make(seed, odds) else {
        return Err(AllocError);
    };
    let ran = trial.run(rt, alloc, check, steps)?;
    match ran {
        None => Ok(None),
        Some(steps) => Ok(Some(Failure {
            seed,
            faults,
            odds,
            steps,
            trial,
        })),
    }
}

// Tries the seed of a failure with each of these sets of faults in turn. Returns the first failure, or that failure if each
// passes.
fn first_of<T, X, R, M, K>(
    rt: &R,
    alloc: Global,
    make: &M,
    check: &K,
    steps: u64,
    odds: Odds,
    failure: Failure<T, X>,
    sets: &[Faults],
) -> Result<Failure<T, X>, AllocError>
where
    T: System + Drop,
    X: Drop,
    R: Host,
    M: Fn(u64, Odds) -> Option<Trial<T, X>>,
    K: Fn(&T, Step, &mut X) -> bool,
    requires makes { M.IsAlwaysCallable make.now }
    requires checks { K.IsAlwaysCallable check.now }
    requires sound { MakesSound T.can_step M.Fn make.now }
    ensures { IfOk result (IsFirstOf T.steps M.Fn make.now K.Fn check.now steps odds failure sets.now) }
{
    for faults in sets {
        let tried = try_seed(rt, alloc, make, check, steps, failure.seed, odds, *faults)?;
        if let Some(less) = tried {
            return Ok(less);
        }
    }
    Ok(failure)
}

// Returns the failure of the same seed with the fewest kinds of faults.
fn reduce<T, X, R, M, K>(
    rt: &R,
    alloc: Global,
    make: &M,
    check: &K,
    steps: u64,
    odds: Odds,
    failure: Failure<T, X>,
) -> Result<Failure<T, X>, AllocError>
where
    T: System + Drop,
    X: Drop,
    R: Host,
    M: Fn(u64, Odds) -> Option<Trial<T, X>>,
    K: Fn(&T, Step, &mut X) -> bool,
    requires makes { M.IsAlwaysCallable make.now }
    requires checks { K.IsAlwaysCallable check.now }
    requires sound { MakesSound T.can_step M.Fn make.now }
    requires fails { SeedFails T.steps M.Fn make.now K.Fn check.now steps failure.seed odds all_faults failure }
    ensures { IfOk result (IsLeast T.steps M.Fn make.now K.Fn check.now steps failure.seed odds) }
{
    let sets = fewer_sets();
    first_of(rt, alloc, make, check, steps, odds, failure, &sets)
}

/// Tries the seeds of a range in turn, until one fails. `make` makes the trial of a seed under these odds. It runs for at
/// most `steps` steps, until its world is over or stuck, or until `check` says no after a step. Returns None if each seed
/// passes (`passed`).
///
/// The seed that fails is tried again with fewer kinds of faults: with none, with each one alone, and with each two. The
/// failure returned has the fewest kinds of faults with which the seed fails: each try with fewer kinds passed. It has the
/// fewest steps: the check said yes after each shorter prefix (`failed`). Its trial has the runtimes with their journals as
/// the last step left them.
///
/// Fails if a trial of one of these seeds could not be made or ran out of memory (`within`). Each earlier seed passed
/// (`untried`).
pub fn simulate<T, X, R, M, K>(
    rt: &R,
    alloc: Global,
    make: M,
    check: K,
    seeds: Range<u64>,
    odds: Odds,
    steps: u64,
) -> Result<Option<Failure<T, X>>, Untried>
where
    T: System + Drop,
    X: Drop,
    R: Host,
    M: Fn(u64, Odds) -> Option<Trial<T, X>> + Drop,
    K: Fn(&T, Step, &mut X) -> bool + Drop,
    requires makes { M.IsAlwaysCallable make }
    requires checks { K.IsAlwaysCallable check }
    requires sound { MakesSound T.can_step M.Fn make }
    ensures passed { IfOk result (λ r. IfNone r (EachPasses T.steps M.Fn make K.Fn check steps seeds.start seeds.end odds)) }
    ensures failed { IfOk result (λ r. IfSome r (IsFound T.steps M.Fn make K.Fn check steps seeds.start seeds.end odds)) }
    ensures within { IfErr result (λ u. (seeds.start ≤ u.seed) × (u.seed < seeds.end)) }
    ensures untried { IfErr result (λ u. EachPasses T.steps M.Fn make K.Fn check steps seeds.start u.seed odds) }
{
    let mut seed = seeds.start;
    while seed < seeds.end {
        let Ok(tried) = try_seed(rt, alloc, &make, &check, steps, seed, odds, ALL) else {
            return Err(Untried { seed });
        };
        if let Some(failure) = tried {
            let Ok(least) = reduce(rt, alloc, &make, &check, steps, odds, failure) else {
                return Err(Untried { seed });
            };
            return Ok(Some(least));
        }
        seed += 1;
    }
    Ok(None)
}
