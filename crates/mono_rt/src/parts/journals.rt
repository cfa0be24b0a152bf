// The history of a runtime's runs, in order: all of it in proofs, and in memory as far as the journal is kept.
ghost use Rattle.std.specs.Prelude.{◌≡◌, [], false};
ghost use mathlib.Core.List.{IsPrefix};

use crate::parts::held_room::RoomList;
use mono_machine::{Event, Report};
use mono_model::History;
use std::alloc::Global;

/// An entry: one step of a runtime.
#[derive(Drop)]
pub enum Entry {
    /// The machine took this event and returned this report.
    Ran(Event, Report),
    /// The clock was read.
    Now(u128),
    /// The driver was parked, for at most this number of milliseconds.
    Park(Option<u64>),
}

/// The history of a runtime, in order: all that its calls of `block_on` and `run_until` did. What `spawn`, `poll_join` and
/// `drop_join` do between two of them is no entry. Its `history` has all of it, in proofs alone. The entries are those of the
/// history while the journal is not full (`kept`), and always a beginning of it (`begins`). A full journal keeps
/// nothing more.
#[derive(Drop)]
pub struct Journal {
    pub(crate) entries: RoomList<Entry>,
    pub(crate) is_full: bool,
    pub(crate) history: History<Entry>,
    pub ghost kept: { is_full ≡ false → entries.items ≡ history.entries },
    pub ghost begins: { ∥ IsPrefix entries.items history.entries ∥₁ },
}

/// Returns a journal without entries, which keeps nothing if it is full from the start.
pub fn new_journal(alloc: Global, is_full: bool) -> Journal
    ensures entries { result.entries.items ≡ [] }
    ensures history { result.history.entries ≡ [] }
    ensures full { result.is_full ≡ is_full }
    ensures held { result.entries.held ≡ 0 }
{
    Journal {
        entries: RoomList::new(alloc),
        is_full,
        history: History::new(),
    }
}
