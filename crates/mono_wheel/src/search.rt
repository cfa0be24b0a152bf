//! The search for the key whose slot starts next.
ghost use Rattle.std.specs.Prelude.{◌≤◌, MatchOption};
ghost use Rattle.mono_wheel.specs.Holdings.{Held, IsNextSlot, NoSlots, NoSlotBy};

use crate::numbers::slot_start;
use crate::slot_links::SlotLinks;

#[derive(Clone, Copy)]
pub struct NextSlot {
    pub list: usize,
    pub start: u64,
}

/// Returns the occupied slot that starts first.
pub fn next_slot(elapsed: u64, links: &SlotLinks) -> Option<NextSlot>
    requires { Held elapsed links.now.table.entries links.now.table }
    ensures { MatchOption result (NoSlots elapsed links.now.table.entries) (λ slot. IsNextSlot elapsed links.now.table.entries slot.list slot.start) }
{
    match links.first_occupied(elapsed) {
        None => None,
        Some(list) => {
            let key = links.last(list)?;
            let start = slot_start(elapsed, links.entry(key).registered);
            Some(NextSlot { list, start })
        }
    }
}

/// Returns the occupied slot that starts first, if it starts at `now` or before.
pub fn slot_by(elapsed: u64, now: u64, links: &SlotLinks) -> Option<NextSlot>
    requires { Held elapsed links.now.table.entries links.now.table }
    ensures { MatchOption result (NoSlotBy elapsed now links.now.table.entries) (λ slot. IsNextSlot elapsed links.now.table.entries slot.list slot.start × (slot.start ≤ now)) }
{
    match next_slot(elapsed, links) {
        None => None,
        Some(slot) => { if slot.start <= now { Some(slot) } else { None } }
    }
}
