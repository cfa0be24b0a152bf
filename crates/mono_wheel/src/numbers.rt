//! Slots by numbers: the list of a tick's slot, and the slot's start.
ghost use Rattle.std.specs.Prelude.{◌≡◌, ◌+◌, ◌<◌, ◌^◌};
ghost use Rattle.mono_wheel.specs.Start.{next_turn, slot_of, start, level_count, top_level};
ghost use Rattle.mono_wheel.specs.Holdings.{place_of, place_in};

use crate::level::{LEVELS, level_for};

/// The number of slots. Their lists come first.
pub const SLOTS: usize = LEVELS * 64;

/// The pending list, after the slots.
pub const PENDING: usize = SLOTS;

/// Returns the list of the slot of a tick ahead.
pub fn place(elapsed: u64, when: u64) -> usize
    ensures { result ≡ place_of elapsed when }
{
    let level = level_for(elapsed, when);
    level * 64 + slot_at(level, when)
}

/// Returns the list of a key that is registered at this tick.
pub fn standing(elapsed: u64, registered: u64) -> usize
    ensures { result ≡ place_in elapsed registered }
{
    if registered == elapsed {
        PENDING
    } else {
        place(elapsed, registered)
    }
}

/// Returns the slot of a tick at a level.
pub fn slot_at(level: usize, tick: u64) -> usize
    requires { level < level_count }
    ensures value { result ≡ slot_of level tick }
    ensures below { result < 64 }
{
    ((tick >> (level * 6)) % 64) as usize
}

// Returns the least number above `now` with the last digit of `goal`.
fn turn_above(now: u64, goal: u64) -> u64
    requires { now < goal }
    ensures { result ≡ next_turn now goal }
{
    let near = now / 64 * 64 + goal % 64;
    if now < near { near } else { near + 64 }
}

/// Returns how many ticks a slot of a level covers.
pub fn slot_size(level: usize) -> u64
    requires { level < level_count }
    ensures value { result ≡ 64 ^ level }
    ensures some { 0 < result }
{
    1 << (level * 6)
}

/// Returns the start of the slot of a tick ahead.
pub fn slot_start(elapsed: u64, when: u64) -> u64
    requires { elapsed < when }
    ensures { result ≡ start top_level elapsed when }
{
    let size = slot_size(level_for(elapsed, when));
    turn_above(elapsed / size, when / size) * size
}
