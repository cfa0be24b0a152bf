// Entries of journals.
use mono_rt::{Entry, Event, Journal, Reply, Report, TurnStep};

/// The steps of a turn, and the replies to them.
pub(crate) struct Turn {
    pub(crate) steps: &'static [TurnStep],
    pub(crate) replies: &'static [Reply],
}

/// Returns whether this is the turn at this place of the journal.
pub(crate) fn is_turn(journal: &Journal, place: usize, turn: &Turn) -> bool {
    match journal.get(place) {
        Some(Entry::Ran(Event::Turn(did, _), Report::Turn(_, told, _))) => {
            did.as_slice() == turn.steps && told.as_slice() == turn.replies
        }
        _ => false,
    }
}

/// Returns whether task 0 was woken from outside at this place of the journal.
pub(crate) fn is_woken(journal: &Journal, place: usize) -> bool {
    match journal.get(place) {
        Some(Entry::Ran(event, report)) => {
            matches!(event, Event::Remote(0)) && matches!(report, Report::Listed)
        }
        _ => false,
    }
}
