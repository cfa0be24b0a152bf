//! The tick that the clock reaches once it is at a slot.
ghost use Rattle.std.specs.Prelude.{◌≡◌, ◌+◌, ◌/◌, ◌<◌, ◌≤◌};
ghost use Rattle.mono_wheel.specs.Start.{slot_count};
ghost use Rattle.mono_wheel.specs.Credit.{takes};
ghost use Rattle.mono_wheel.specs.Holdings.{Cascading};
ghost use Rattle.mono_wheel.specs.Skips.{at_tick, ComesTo};

use crate::Steps;
use crate::numbers::{slot_size, slot_start};
use crate::search::NextSlot;
use crate::slot_links::SlotLinks;
use std::sync::ledger::Ledger;

/// Returns how often a key with this tick is taken from a slot while the clock moves from `start` to `goal`.
pub fn takes_between(start: u64, goal: u64, tick: u64) -> u64
    requires ahead { start ≤ goal }
    requires within { goal ≤ tick }
    ensures { result + takes goal (at_tick tick) ≡ takes start (at_tick tick) }
{
    let mut at = start;
    let mut count = 0u64;
    for _ in start..goal {
        if at == goal {
            return count;
        }
        let next = slot_start(at, tick);
        if goal < next {
            return count;
        }
        at = next;
        count += 1;
    }
    count
}

// Returns the tick of a key that is due in a slot of this start and length, but at most `now` and not past the slot's
// end.
fn within(start: u64, size: u64, tick: u64, now: u64) -> u64
    requires size { 0 < size }
    requires tick { start ≤ tick }
    requires now { start ≤ now }
    ensures later { start ≤ result }
    ensures due { result ≤ tick }
    ensures by { result ≤ now }
    ensures end { result < start + size }
{
    let end = if now < tick { now } else { tick };
    if end - start < size {
        end
    } else {
        start + (size - 1)
    }
}

/// Returns the tick to which the clock moves from the start of a slot whose list was taken.
///
/// If the slot has several keys, this is the start. If it has only one, this is the key's true tick, but at most `now`
/// and not past the slot's end: no other slot starts before that. It counts the steps that it skips.
pub fn skip_to<L: Ledger>(slot: NextSlot, now: u64, links: &SlotLinks, steps: &mut Steps<L>) -> u64
    requires cascading { Cascading slot.start links.now.table.entries links.now.table }
    requires by { slot.start ≤ now }
    requires list { slot.list < slot_count }
    ensures comes { ComesTo slot.start now (slot.list / 64) links.now.table.entries links.now.table steps.old steps.new result }
    ensures more { steps.old ≤ steps.new }
{
    match links.only_taken() {
        None => slot.start,
        Some(key) => {
            let tick = links.entry(key).tick;
            let goal = within(slot.start, slot_size(slot.list / 64), tick, now);
            steps.add(takes_between(slot.start, goal, tick));
            goal
        }
    }
}
