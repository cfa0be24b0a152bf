// The acquires that wait, in the order in which they came.
ghost use Rattle.std.specs.Prelude.{◌≡◌, ◌^◌, ◌-◌, true};
ghost use Rattle.lease_core.specs.Places.{descends};

use crate::ends::Waiter;
use crate::places::{Place, Places, end_each, put_both};
use crate::requests::{Outcome, Reply};
use lru::LruCache;
use std::alloc::{AllocError, Global};

/// The acquires that wait, in the order in which they came. No session waits twice for a key.
///
/// A call takes a few look-ups for any number of waits. Only the end of the input looks at all of them.
#[derive(Drop)]
pub struct Waits {
    places: Places,
    // The ticket of the next wait.
    next: u64,
    ghost order: { descends next places.entries ≡ true },
    ghost unbounded: { places.cap ≡ 2 ^ 64 - 1 },
}

impl Waits {
    ghost use Rattle.std.specs.Prelude.{◌≤◌, ◌<◌, ◌+◌, ◌++◌, ◌∷◌, [], IfOk, OnOk, OnErr, length, vec_len, vec_capacity};
    ghost use Rattle.std.specs.Map.{lookup, remove_entry};
    ghost use Rattle.lease_core.specs.Waits.{left_end, input_end, ended, still};
    ghost use Rattle.lease_core.specs.Places.{is_of, is_held};
    ghost use Rattle.lease_core.specs.Waiting.{waits_of};

    /// Returns a table without waits.
    pub fn new(alloc: Global) -> Result<Waits, AllocError>
        ensures { IfOk result (λ waits. waits_of waits ≡ []) }
    {
        let places = LruCache::unbounded(alloc)?;
        Ok(Waits { places, next: 0 })
    }

    /// Returns how many waits there are.
    pub fn len(&self) -> usize
        ensures len { result ≡ length (waits_of self.now) }
        ensures fits { result < 2 ^ 63 }
    {
        self.places.len()
    }

    /// Appends a wait. It is refused if it is out of memory, or if the session waits for the key. Then nothing has
    /// changed.
    pub fn push(&mut self, waiter: Waiter) -> Result<(), AllocError>
        ensures pushed { OnOk result (waits_of self.new ≡ waits_of self.old ++ waiter ∷ []) }
        ensures refused { OnErr result (waits_of self.new ≡ waits_of self.old) }
    {
        let key = (waiter.key, waiter.session);
        let Some(next) = self.next.checked_add(1) else {
            return Err(AllocError);
        };
        if self.places.contains(&key) {
            return Err(AllocError);
        }
        let place = Place {
            number: waiter.number,
            arrived: waiter.arrived,
            ticket: self.next,
        };
        match self.places.put(key, place) {
            Ok(_) => {
                self.next = next;
                Ok(())
            }
            Err(_) => Err(AllocError),
        }
    }

    // Removes the wait of a session for a key, if there is one.
    fn take(&mut self, key: u64, session: u64) -> Option<Place>
        ensures value { result ≡ lookup (is_of key session) self.old.places.entries }
        ensures entries { self.new.places.entries ≡ remove_entry (is_of key session) self.old.places.entries }
    {
        self.places.pop(&(key, session))
    }

    // Removes the wait of the holder of a key, if it has a holder that waits.
    fn take_held(&mut self, key: u64, holder: Option<u64>) -> Option<Place>
        ensures value { result ≡ lookup (is_held key holder) self.old.places.entries }
        ensures entries { self.new.places.entries ≡ remove_entry (is_held key holder) self.old.places.entries }
    {
        match holder {
            None => None,
            Some(session) => self.take(key, session),
        }
    }

    /// Ends the waits that end after a session left the queue of a key, which has this holder now. The session's own wait
    /// has the outcome `own`. Appends the replies in the order in which the waits came. There is room for a reply to each
    /// wait.
    pub fn end_left(
        &mut self,
        session: u64,
        key: u64,
        holder: Option<u64>,
        own: Outcome,
        tick: u64,
        replies: &mut Vec<Reply>,
    )
        requires { vec_len replies.old + length (waits_of self.old) ≤ vec_capacity replies.old }
        ensures items { replies.new.items ≡ replies.old.items ++ ended (left_end session own key holder) tick (waits_of self.old) }
        ensures kept { waits_of self.new ≡ still (left_end session own key holder) (waits_of self.old) }
        ensures len { length (waits_of self.new) ≤ length (waits_of self.old) }
        ensures room { vec_len replies.new + length (waits_of self.new) ≡ vec_len replies.old + length (waits_of self.old) }
        ensures capacity { vec_capacity replies.new ≡ vec_capacity replies.old }
    {
        if self.places.len() == 0 {
            return;
        }
        let left = self.take(key, session);
        let held = self.take_held(key, holder);
        put_both(left, own, held, tick, replies);
    }

    /// Ends all waits, and appends their replies. There is room for them.
    pub fn end_all(&mut self, tick: u64, replies: &mut Vec<Reply>)
        requires { vec_len replies.old + length (waits_of self.old) ≤ vec_capacity replies.old }
        ensures items { replies.new.items ≡ replies.old.items ++ ended input_end tick (waits_of self.old) }
        ensures none { waits_of self.new ≡ [] }
        ensures capacity { vec_capacity replies.new ≡ vec_capacity replies.old }
    {
        end_each(&mut self.places, tick, replies);
    }
}
