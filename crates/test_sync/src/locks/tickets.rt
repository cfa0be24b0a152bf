// What a queue answers to a future that waits from now on.
use mono_locks::{Asked, Ticket};

/// Returns the ticket of a future that waits from now on.
pub(crate) fn drawn<G: Drop>(answer: Asked<G>) -> Option<Ticket> {
    match answer {
        Asked::Joined(ticket) => Some(ticket),
        _ => None,
    }
}

/// Returns the number of a ticket, if there is one.
pub(crate) fn number_of(ticket: Option<Ticket>) -> Option<u64> {
    match ticket {
        None => None,
        Some(ticket) => Some(ticket.number()),
    }
}

/// Returns whether there is a ticket, and it has this number.
pub(crate) fn has_number(ticket: &Option<Ticket>, number: u64) -> bool {
    match ticket {
        None => false,
        Some(ticket) => ticket.number() == number,
    }
}
