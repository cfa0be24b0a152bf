// Laws of ticks.
ghost use Rattle.std.specs.Prelude.{◌≤◌, ℕ, ◌+◌, ◌-◌, ◌^◌};
ghost use Rattle.mono_model.specs.Ticks.{up, down, max_nanos};

/// Shows that a clock that has reached a deadline's tick has reached the deadline: deadlines round up, clocks round
/// down.
pub fn never_early()
    ensures { (deadline clock : ℕ) → up deadline ≤ down clock → deadline ≤ clock }
{}

/// Shows that a clock that has reached a deadline is at most one tick short of the deadline's tick.
pub fn at_most_a_tick_late()
    ensures { (deadline clock : ℕ) → deadline ≤ clock → up deadline ≤ down clock + 1 }
{}

/// Shows that no deadline and no clock value has a tick above 2^63 - 1.
pub fn ticks_end()
    ensures { (n : ℕ) → n ≤ max_nanos → up n ≤ 2 ^ 63 - 1 }
{}
