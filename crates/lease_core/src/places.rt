// The table of the acquires that wait: by key and session, the last that came first.
ghost use Rattle.std.specs.Prelude.{◌≡◌, ◌≤◌, ◌<◌, ◌+◌, ◌++◌, vec_len, vec_capacity, length, []};
ghost use Rattle.lease_core.specs.declared.requests.Outcome.TheVariants as end;
ghost use Rattle.lease_core.specs.Waits.{ended, input_end};
ghost use Rattle.lease_core.specs.Places.{waiter_of, waiters, place_reply, came_later, in_order};

use crate::ends::{Waiter, input_end, put_end};
use crate::requests::{Outcome, Reply};
use lru::LruCache;

/// What the table has of a wait, beside its key and its session.
#[derive(Clone, Copy, Debug, PartialEq, Eq, Drop)]
pub struct Place {
    /// The request's number.
    pub number: u64,
    /// The core's tick when the request came.
    pub arrived: u64,
    /// Greater than the ticket of each wait that came before.
    pub ticket: u64,
}

/// The waits by key and session, the last that came first.
pub type Places = LruCache<(u64, u64), Place>;

// Returns the wait at a key and session.
fn waiter_of(key: (u64, u64), place: Place) -> Waiter
    ensures { result ≡ waiter_of (key, place) }
{
    Waiter {
        number: place.number,
        session: key.1,
        key: key.0,
        arrived: place.arrived,
    }
}

// Appends the reply of a wait, if there is one.
fn put_place(place: Option<Place>, outcome: Outcome, tick: u64, replies: &mut Vec<Reply>)
    requires { vec_len replies.old + length (place_reply tick outcome place) ≤ vec_capacity replies.old }
    ensures items { replies.new.items ≡ replies.old.items ++ place_reply tick outcome place }
    ensures len { vec_len replies.new ≡ vec_len replies.old + length (place_reply tick outcome place) }
    ensures capacity { vec_capacity replies.new ≡ vec_capacity replies.old }
{
    if let Some(place) = place {
        replies.push_reserved(Reply {
            number: place.number,
            arrived: place.arrived,
            tick,
            outcome,
        });
    }
}

// Returns whether both are there, and the first came later.
fn came_later(place: Option<Place>, other: Option<Place>) -> bool
    ensures { result ≡ came_later place other }
{
    match place {
        None => false,
        Some(place) => match other {
            None => false,
            Some(other) => other.ticket < place.ticket,
        },
    }
}

/// Appends the replies of the wait of a session that left a queue, with its outcome, and of the wait of the next holder,
/// in the order in which they came. There is room for them.
pub fn put_both(
    left: Option<Place>,
    own: Outcome,
    held: Option<Place>,
    tick: u64,
    replies: &mut Vec<Reply>,
)
    requires { vec_len replies.old + length (place_reply tick own left) + length (place_reply tick end.Held held) ≤ vec_capacity replies.old }
    ensures items { replies.new.items ≡ replies.old.items ++ in_order tick own left held }
    ensures len { vec_len replies.new ≡ vec_len replies.old + length (place_reply tick own left) + length (place_reply tick end.Held held) }
    ensures capacity { vec_capacity replies.new ≡ vec_capacity replies.old }
{
    if came_later(left, held) {
        put_place(held, Outcome::Held, tick, replies);
        put_place(left, own, tick, replies);
    } else {
        put_place(left, own, tick, replies);
        put_place(held, Outcome::Held, tick, replies);
    }
}

/// Ends all waits, and appends their replies in the order in which they came. There is room for them.
pub fn end_each(places: &mut Places, tick: u64, replies: &mut Vec<Reply>)
    requires { vec_len replies.old + length places.old.entries ≤ vec_capacity replies.old }
    ensures items { replies.new.items ≡ replies.old.items ++ ended input_end tick (waiters places.old.entries) }
    ensures none { places.new.entries ≡ [] }
    ensures cap { places.new.cap ≡ places.old.cap }
    ensures capacity { vec_capacity replies.new ≡ vec_capacity replies.old }
{
    while let Some((key, place)) = places.pop_lru() {
        let waiter = waiter_of(key, place);
        put_end(&waiter, input_end(&waiter), tick, replies);
    }
}
