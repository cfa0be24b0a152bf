//! The cascade: registers the keys of a slot that was reached at their true ticks.
ghost use Rattle.std.specs.Prelude.{◌≡◌, ◌+◌, ◌*◌, ◌<◌, ◌≤◌, length};
ghost use Rattle.mono_wheel.specs.Lists.{IsLoose, list_at};
ghost use Rattle.mono_wheel.specs.Holdings.{Held, Registered, Cascading, Cascaded};
ghost use Rattle.mono_wheel.specs.Start.{taken_list};

use crate::Steps;
use crate::entry::Entry;
use crate::numbers::standing;
use crate::slot_links::SlotLinks;
use std::sync::ledger::Ledger;

// Registers one key that is in no list at its true tick.
fn register(elapsed: u64, links: &mut SlotLinks, key: usize)
    requires room { key < length links.old.table.entries }
    requires loose { IsLoose links.old.table key }
    ensures registered { Registered elapsed links.old.table.entries links.new.table.entries links.old.table links.new.table key }
    ensures moves { links.new.moves.slots ≤ links.old.moves.slots + 1 }
    ensures all_moves { links.new.moves.all ≡ links.old.moves.all + 1 }
{
    let tick = links.entry(key).tick;
    let list = standing(elapsed, tick);
    links.put_front(
        list,
        key,
        Entry {
            tick,
            registered: tick,
        },
    );
}

/// Registers the keys of the taken list at their true ticks, the last first.
pub fn cascade<L: Ledger>(elapsed: u64, links: &mut SlotLinks, steps: &mut Steps<L>)
    requires { Cascading elapsed links.old.table.entries links.old.table }
    ensures held { Held elapsed links.new.table.entries links.new.table }
    ensures cascaded { Cascaded links.old.table.entries links.new.table.entries links.old.table links.new.table }
    ensures steps { steps.new ≡ steps.old + length (list_at links.old.table taken_list) }
    ensures moves { links.new.moves.slots ≤ links.old.moves.slots + 2 * length (list_at links.old.table taken_list) }
    ensures all_moves { links.new.moves.all ≡ links.old.moves.all + 2 * length (list_at links.old.table taken_list) }
{
    while let Some(key) = links.pop_taken(steps) {
        register(elapsed, links, key);
    }
}
