//! A leap of the clock over slots of the top level in which no key is due.
ghost use Rattle.std.specs.Prelude.{◌≡◌, ◌≢◌, ◌<◌, ◌≤◌, ◌⊎◌, ℕ, true, false, slice_index_or};
ghost use Rattle.mono_wheel.specs.Lists.{entry_at};
ghost use Rattle.mono_wheel.specs.Hops.{HasNoTie, HasNoTies};
ghost use Rattle.mono_wheel.specs.Start.{above, top_level};
ghost use Rattle.mono_wheel.specs.Holdings.{timed_in};
ghost use Rattle.mono_wheel.specs.Leap.{IsDueFrom, Known};

use crate::level::LEVELS;
use crate::slot_links::SlotLinks;

/// How many of the keys that are due soonest are recorded at once.
pub const NEAR: usize = 512;

// How many ticks a slot of the top level covers.
const SPAN: u64 = 1 << ((LEVELS - 1) * 6);

// The first list of the top level.
const FIRST: usize = (LEVELS - 1) * 64;

/// Returns whether some key is ahead and all keys ahead are at the top level.
pub fn is_high(elapsed: u64, links: &SlotLinks) -> bool {
    match links.first_occupied(elapsed) {
        None => false,
        Some(list) => list >= FIRST,
    }
}

// Puts a tick in place of the greatest one, which is the first. Each tick is at least as great as the two at twice its
// place and 1 or 2 more.
fn sink(ticks: &mut [u64; NEAR], tick: u64) {
    let mut at = 0;
    for _ in 0..NEAR {
        let left = 2 * at + 1;
        let mut child = left;
        if left + 1 < NEAR && ticks[left + 1] > ticks[left] {
            child = left + 1;
        }
        if child >= NEAR || ticks[child] <= tick {
            break;
        }
        ticks[at] = ticks[child];
        at = child;
    }
    ticks[at] = tick;
}

/// Returns a tick before which at most `NEAR` keys are due, or the greatest number if there are fewer keys.
pub fn limit_for(links: &SlotLinks) -> u64 {
    let mut ticks = [u64::MAX; NEAR];
    for key in 0..links.end() {
        let tick = links.entry(key).tick;
        if tick != 0 && tick < ticks[0] {
            sink(&mut ticks, tick);
        }
    }
    ticks[0]
}

/// Records the keys that are due before `limit`, as far as there is place, and returns the limit that holds for all
/// others.
///
/// It returns 0 if some key is registered before its tick.
pub fn survey(limit: u64, near: &mut [usize; NEAR], links: &SlotLinks) -> u64
    ensures { Known result near.new links.now.table.entries }
{
    let mut limit = limit;
    let mut count = 0;
    for key in 0..links.end() {
        let entry = links.entry(key);
        if entry.registered != entry.tick {
            return 0;
        }
        if entry.tick != 0 && entry.tick < limit {
            if count < NEAR {
                near[count] = key;
                count += 1;
            } else {
                limit = entry.tick;
            }
        }
    }
    limit
}

/// Returns the least tick of these keys, or the limit if that is less.
pub fn least_near(limit: u64, near: &[usize; NEAR], links: &SlotLinks) -> u64
    requires known { Known limit near.now links.now.table.entries }
    ensures least { 0 < limit → (key : ℕ) → IsDueFrom result (timed_in links.now.table.entries key) }
{
    let mut least = limit;
    for place in 0..NEAR {
        let tick = links.entry(near[place]).tick;
        if tick != 0 && tick < least {
            least = tick;
        }
    }
    least
}

/// Returns the one of these keys that is due first.
pub fn first_near(near: &[usize; NEAR], links: &SlotLinks) -> usize {
    let mut first = near[0];
    let mut least = u64::MAX;
    for place in 0..NEAR {
        let tick = links.entry(near[place]).tick;
        if tick != 0 && tick < least {
            first = near[place];
            least = tick;
        }
    }
    first
}

/// Returns the least tick of these keys but one, or the limit if that is less.
pub fn least_but(key: usize, limit: u64, near: &[usize; NEAR], links: &SlotLinks) -> u64
    requires known { Known limit near.now links.now.table.entries }
    ensures least { 0 < limit → (other : ℕ) → other ≢ key → IsDueFrom result (timed_in links.now.table.entries other) }
{
    let mut least = limit;
    for place in 0..NEAR {
        let tick = links.entry(near[place]).tick;
        if near[place] != key && tick != 0 && tick < least {
            least = tick;
        }
    }
    least
}

/// Returns whether a tick is in the slot of the top level in which `least` lies, and the limit is in a later one.
pub fn is_within(goal: u64, least: u64, limit: u64) -> bool
    ensures { result ≡ true → (above top_level least ≤ above top_level goal) × (above top_level least < above top_level limit) }
{
    high_slot(least) <= high_slot(goal) && high_slot(least) < high_slot(limit)
}

/// Returns the lesser of two ticks.
pub fn lesser(first: u64, second: u64) -> u64
    ensures first { result ≤ first }
    ensures second { result ≤ second }
{
    if first < second { first } else { second }
}

/// Returns the limit that holds once a key goes in at this tick. It may fall unless the key is at this place of `near`.
pub fn limit_with(limit: u64, near: &[usize; NEAR], place: usize, key: usize, tick: u64) -> u64
    requires { place < 512 }
    ensures less { result ≤ limit }
    ensures known { (result ≤ tick) ⊎ (slice_index_or near.now place 0 ≡ key) }
{
    if near[place] == key {
        return limit;
    }
    lesser(limit, tick)
}

// Returns whether these two places have different keys, the first of which is due at this tick.
fn is_other(other: usize, place: usize, tick: u64, near: &[usize; NEAR], links: &SlotLinks) -> bool
    requires other { other < 512 }
    requires place { place < 512 }
    ensures { result ≡ false → slice_index_or near.now other 0 ≢ slice_index_or near.now place 0 → (entry_at links.now.table (slice_index_or near.now other 0)).tick ≢ tick }
{
    if near[other] == near[place] {
        return false;
    }
    links.entry(near[other]).tick == tick
}

// Returns whether an earlier one of these keys is another key that is due at this tick.
fn is_tied(place: usize, tick: u64, near: &[usize; NEAR], links: &SlotLinks) -> bool
    requires { place < 512 }
    ensures { result ≡ false → (other : ℕ) → other < place → slice_index_or near.now other 0 ≢ slice_index_or near.now place 0 → (entry_at links.now.table (slice_index_or near.now other 0)).tick ≢ tick }
{
    for other in 0..place {
        if is_other(other, place, tick, near, links) {
            return true;
        }
    }
    false
}

// Returns whether the key at this place is due in the slot of the top level in which `goal` lies, at one tick with an
// earlier one.
fn is_tie(goal: u64, place: usize, near: &[usize; NEAR], links: &SlotLinks) -> bool
    requires { place < 512 }
    ensures { result ≡ false → HasNoTie goal near.now links.now.table place }
{
    let tick = links.entry(near[place]).tick;
    if tick == 0 || high_slot(tick) != high_slot(goal) {
        return false;
    }
    is_tied(place, tick, near, links)
}

/// Returns whether two of these keys are due at one tick of the top level's slot in which `goal` lies.
pub fn has_ties(goal: u64, near: &[usize; NEAR], links: &SlotLinks) -> bool
    ensures { result ≡ false → HasNoTies goal near.now links.now.table 512 }
{
    for place in 0..NEAR {
        if is_tie(goal, place, near, links) {
            return true;
        }
    }
    false
}

/// Returns the last tick before the slot of the top level in which `least` lies, or `now` if that is earlier.
pub fn last_before(elapsed: u64, least: u64, now: u64) -> u64
    requires ahead { elapsed ≤ now }
    requires earlier { above top_level elapsed < above top_level least }
    ensures later { elapsed ≤ result }
    ensures by { result ≤ now }
    ensures before { above top_level result < above top_level least }
{
    let end = least / SPAN * SPAN - 1;
    if now < end { now } else { end }
}

/// Returns the number of the top level's slot in which a tick lies, counted over all turns.
pub fn high_slot(tick: u64) -> u64
    ensures { result ≡ above top_level tick }
{
    tick / SPAN
}
