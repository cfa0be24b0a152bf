// The number of armed sleeps at each tick, with changes that can be taken back.
ghost use Rattle.std.specs.Prelude.{◌≡◌, [], OnOk, MatchBool, ℕ};
ghost use Rattle.mono_trace.specs.TickCounts.{AreAlike, AreCounts, AreCountsBut, AreTicks, AreNoneUpTo, IsOneUpTo, none_at, one_more, more_at, all_more};

use std::alloc::{AllocError, Global};
use std::collections::BTreeMap;

/// The number of armed sleeps at each tick that has any, and the ticks that sleeps left and took since the changes were
/// last kept.
#[derive(Drop)]
pub struct Ticks {
    pub counts: BTreeMap<u128, u64>,
    pub left: Vec<u128>,
    pub taken: Vec<u128>,
}

/// Counts one more sleep at a tick. No table has 2^64 sleeps, so a `u64` holds the count.
fn raise(counts: &mut BTreeMap<u128, u64>, tick: u128) -> Result<(), AllocError>
    ensures { OnOk result ((f : ℕ → ℕ) → AreCounts f counts.old → AreCounts (one_more f tick) counts.new) }
{
    let count = counts.entry(tick)?.or_insert(0);
    match count.checked_add(1) {
        None => Err(AllocError),
        Some(more) => {
            *count = more;
            Ok(())
        }
    }
}

/// Counts one sleep fewer at a tick.
fn lower(counts: &mut BTreeMap<u128, u64>, tick: u128)
    ensures { (f : ℕ → ℕ) → AreCounts (one_more f tick) counts.old → AreCounts f counts.new }
{
    if let Some(count) = counts.get_mut(&tick) {
        if *count > 1 {
            *count -= 1;
            return;
        }
    }
    counts.remove(&tick);
}

/// Counts one more sleep again at each tick that was left.
fn raise_all(counts: &mut BTreeMap<u128, u64>, left: &mut Vec<u128>) -> Result<(), AllocError>
    ensures counts { OnOk result ((f : ℕ → ℕ) → AreCountsBut f left.old.items counts.old → AreCounts f counts.new) }
    ensures left { OnOk result (left.new.items ≡ []) }
{
    while let Some(tick) = left.pop() {
        raise(counts, tick)?;
    }
    Ok(())
}

/// Counts one sleep fewer again at each tick that was taken.
fn lower_all(counts: &mut BTreeMap<u128, u64>, taken: &mut Vec<u128>)
    ensures counts { (f : ℕ → ℕ) → AreCounts (all_more f taken.old.items) counts.old → AreCounts f counts.new }
    ensures taken { taken.new.items ≡ [] }
{
    while let Some(tick) = taken.pop() {
        lower(counts, tick);
    }
}

impl Ticks {
    /// Returns counts without a sleep.
    pub fn new(alloc: Global) -> Ticks
        ensures { AreTicks none_at none_at result }
    {
        Ticks {
            counts: BTreeMap::new(alloc),
            left: Vec::new(alloc),
            taken: Vec::new(alloc),
        }
    }

    /// Counts a sleep that is armed at this tick, if at any.
    fn take(&mut self, tick: Option<u128>) -> Result<(), AllocError>
        ensures { OnOk result ((now before : ℕ → ℕ) → AreTicks now before self.old → AreTicks (more_at now tick) before self.new) }
    {
        if let Some(tick) = tick {
            self.taken.push(tick)?;
            raise(&mut self.counts, tick)?;
        }
        Ok(())
    }

    /// Counts a sleep no longer at this tick, if it was at any.
    fn leave(&mut self, tick: Option<u128>) -> Result<(), AllocError>
        ensures { OnOk result ((now before : ℕ → ℕ) → AreTicks (more_at now tick) before self.old → AreTicks now before self.new) }
    {
        if let Some(tick) = tick {
            self.left.push(tick)?;
            lower(&mut self.counts, tick);
        }
        Ok(())
    }

    /// Moves a sleep from one tick, if it was at any, to another tick, if it is at any.
    pub fn change(&mut self, from: Option<u128>, to: Option<u128>) -> Result<(), AllocError>
        ensures { OnOk result ((now after before : ℕ → ℕ) → AreAlike (more_at now to) (more_at after from) → AreTicks now before self.old → AreTicks after before self.new) }
    {
        if from == to {
            return Ok(());
        }
        self.take(to)?;
        self.leave(from)
    }

    /// Returns whether each armed sleep has a tick above this one.
    pub fn are_above(&self, tick: u128) -> bool
        ensures { (now before : ℕ → ℕ) → AreTicks now before self.now → MatchBool result (AreNoneUpTo tick now) (IsOneUpTo tick now) }
    {
        match self.counts.first_key_value() {
            None => true,
            Some((first, _)) => tick < *first,
        }
    }

    /// Keeps all changes, so that they cannot be taken back any more.
    pub fn keep(&mut self)
        ensures { (now before : ℕ → ℕ) → AreTicks now before self.old → AreTicks now now self.new }
    {
        self.left.clear();
        self.taken.clear();
    }

    /// Takes back all changes since they were last kept.
    pub fn take_back(&mut self) -> Result<(), AllocError>
        ensures { OnOk result ((now before : ℕ → ℕ) → AreTicks now before self.old → AreTicks before before self.new) }
    {
        raise_all(&mut self.counts, &mut self.left)?;
        lower_all(&mut self.counts, &mut self.taken);
        Ok(())
    }

    /// Forgets all sleeps.
    pub fn clear(&mut self)
        ensures { AreTicks none_at none_at self.new }
    {
        self.counts.clear();
        self.left.clear();
        self.taken.clear();
    }
}
