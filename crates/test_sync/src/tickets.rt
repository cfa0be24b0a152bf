// The tickets that a line gave, in the order in which it gave them.
use mono_sync::Ticket;

/// Returns the number of a ticket, if there is one.
pub(crate) fn number_of(ticket: Option<Ticket>) -> Option<u64> {
    match ticket {
        None => None,
        Some(ticket) => Some(ticket.number()),
    }
}

/// Returns the ticket at this place, if any.
pub(crate) fn drawn_at(tickets: &Vec<Ticket>, place: Option<usize>) -> Option<Ticket> {
    match place {
        None => None,
        Some(place) => tickets.get(place).copied(),
    }
}

/// Appends a ticket. Returns whether its number is its place, and the place is this one.
pub(crate) fn comes_at(tickets: &mut Vec<Ticket>, ticket: Ticket, place: usize) -> bool {
    let is_next = tickets.len() == place && ticket.number() == place as u64;
    is_next && tickets.push(ticket).is_ok()
}
