// The running receive timeouts, on a wheel.
ghost use Rattle.std.specs.Prelude.{◌≡◌, ◌<◌, ◌≤◌, ◌^◌, ℕ, ◌+◌, true, false, None, IfOk, IfSome, OnOk, OnErr, MatchOption, length};
ghost use Rattle.mono_wheel.specs.Credit.{credit};
ghost use Rattle.mono_actor.specs.Keys.{number_in, Within};

use mono_wheel::{Steps, Wheel};
use std::alloc::{AllocError, Global};
use std::sync::ledger::Ledger;

/// A wheel with a key for each live actor, and at each key the actor's number.
#[derive(Drop)]
pub(crate) struct Alarms {
    wheel: Wheel,
    numbers: Vec<u64>,
    pub ghost within: { Within wheel numbers.items },
}

// Makes a place for the number of this key.
fn grow(numbers: &mut Vec<u64>, key: usize) -> Result<(), AllocError>
    ensures longer { length numbers.old.items ≤ length numbers.new.items }
    ensures within { OnOk result (key < length numbers.new.items) }
    ensures kept { (other : ℕ) → number_in numbers.new.items other ≡ number_in numbers.old.items other }
{
    while numbers.len() <= key {
        numbers.push(0)?;
    }
    Ok(())
}

impl Alarms {
    ghost use Rattle.mono_actor.specs.Timers.{tick_at, is_known, Sets, Added, Stays, Freed, NoneRings, Rings};

    /// Returns a wheel without keys.
    pub(crate) fn new(alloc: Global) -> Result<Alarms, AllocError>
        ensures elapsed { IfOk result (λ timers. timers.wheel.elapsed ≡ 0) }
        ensures none { IfOk result (λ timers. (key : ℕ) → tick_at timers key ≡ None) }
        ensures free { IfOk result (λ timers. (key : ℕ) → is_known timers key ≡ false) }
    {
        let wheel = Wheel::new(alloc)?;
        Ok(Alarms {
            wheel,
            numbers: Vec::new(alloc),
        })
    }

    /// Adds a key for the actor with this number, which waits for no tick. Nothing changes if it is out of memory.
    pub(crate) fn add(&mut self, alloc: Global, number: u64) -> Result<usize, AllocError>
        ensures added { IfOk result (Added self.old self.new number) }
        ensures refused { OnErr result (Stays self.old self.new) }
    {
        let key = self.wheel.reserve_entry(alloc)?;
        match grow(&mut self.numbers, key) {
            Ok(()) => {
                self.numbers[key] = number;
                Ok(key)
            }
            Err(error) => {
                self.wheel.free_entry(key);
                Err(error)
            }
        }
    }

    /// Sets the tick of a key that waits for none, if any.
    pub(crate) fn set(&mut self, key: usize, tick: Option<u64>)
        requires known { is_known self.old key ≡ true }
        requires out { tick_at self.old key ≡ None }
        requires ahead { IfSome tick (λ t. (self.old.wheel.elapsed < t) × (t < 2 ^ 63)) }
        ensures { Sets self.old self.new key tick }
    {
        if let Some(tick) = tick {
            let put = self.wheel.insert(key, tick);
            prove!(put.is_ok());
        }
    }

    /// Clears the tick of a key, if it waits for any.
    pub(crate) fn clear(&mut self, key: usize, tick: Option<u64>)
        requires { tick_at self.old key ≡ tick }
        ensures { Sets self.old self.new key None }
    {
        if let Some(_) = tick {
            self.wheel.remove(key);
        }
    }

    /// Frees a key that waits for no tick.
    pub(crate) fn free(&mut self, key: usize)
        requires known { is_known self.old key ≡ true }
        requires out { tick_at self.old key ≡ None }
        ensures { Freed self.old self.new key }
    {
        self.wheel.free_entry(key);
    }

    /// Moves the clock to `now`, or to the first tick up to it for which a key waits. Returns the number of that key,
    /// which no longer waits. Returns `None` if and only if no key waits for a tick up to `now`.
    pub(crate) fn poll<L: Ledger>(&mut self, now: u64, steps: &mut Steps<L>) -> Option<u64>
        requires ahead { self.old.wheel.elapsed ≤ now }
        requires range { now < 2 ^ 63 }
        ensures polled { MatchOption result (NoneRings self.old self.new now) (Rings self.old self.new now) }
        ensures steps { steps.new + credit self.new.wheel ≡ steps.old + credit self.old.wheel }
    {
        let key = self.wheel.poll(now, steps)?;
        Some(self.numbers[key])
    }
}
