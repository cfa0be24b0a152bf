// Nodes: the neighbours of each entry in the queue of its key and among the keys of its session.
ghost use Rattle.std.specs.Prelude.{◌≡◌, ◌&&◌, ℕ, cond, nat_eq, Option, None, Some};
ghost use Rattle.std.specs.HashMap.{get, hash_map_len};
ghost use Rattle.mono_session.specs.Links.{pair_eq, with_after, with_before, linked_after, linked_before};
ghost use Rattle.mono_session.specs.Nodes.{link, queue_place, key_place, place_by};

use crate::places::Place;
use std::collections::HashMap;

/// The neighbours of an entry: sessions in the queue of its key, and keys among those of its session. A number counts
/// only if its flag is set.
#[derive(Clone, Copy, Drop)]
pub struct Node {
    before: u64,
    after: u64,
    before_key: u64,
    after_key: u64,
    has_before: bool,
    has_after: bool,
    has_before_key: bool,
    has_after_key: bool,
}

/// The node of each entry, by key and session.
pub type Nodes = HashMap<(u64, u64), Node>;

// Returns the number, if its flag is set.
fn linked(is_set: bool, number: u64) -> Option<u64>
    ensures { result ≡ link is_set number }
{
    if is_set { Some(number) } else { None }
}

impl Node {
    /// Returns the node of an entry that is last in the queue of its key and among the keys of its session.
    pub fn last(before: Option<u64>, before_key: Option<u64>) -> Node
        ensures queue { queue_place result ≡ record { before = before; after = None } }
        ensures keys { key_place result ≡ record { before = before_key; after = None } }
    {
        Node {
            before: before.unwrap_or(0),
            after: 0,
            before_key: before_key.unwrap_or(0),
            after_key: 0,
            has_before: before.is_some(),
            has_after: false,
            has_before_key: before_key.is_some(),
            has_after_key: false,
        }
    }

    /// Returns the sessions before and after it in the queue of its key.
    pub fn in_queue(&self) -> Place
        ensures { result ≡ queue_place self.now }
    {
        Place {
            before: linked(self.has_before, self.before),
            after: linked(self.has_after, self.after),
        }
    }

    /// Returns the keys before and after it among those of its session.
    pub fn in_keys(&self) -> Place
        ensures { result ≡ key_place self.now }
    {
        Place {
            before: linked(self.has_before_key, self.before_key),
            after: linked(self.has_after_key, self.after_key),
        }
    }
}

// Sets the session that follows this one in the queue, if this is there.
fn set_after(nodes: &mut Nodes, key: u64, session: u64, number: Option<u64>)
    ensures changed { (q m : ℕ) → place_by queue_place (get pair_eq nodes.new (q, m)) ≡ cond (nat_eq key q && nat_eq session m) (with_after number (place_by queue_place (get pair_eq nodes.old (q, m)))) (place_by queue_place (get pair_eq nodes.old (q, m))) }
    ensures others { (q m : ℕ) → place_by key_place (get pair_eq nodes.new (q, m)) ≡ place_by key_place (get pair_eq nodes.old (q, m)) }
    ensures len { hash_map_len nodes.new ≡ hash_map_len nodes.old }
{
    if let Some(node) = nodes.get_mut(&(key, session)) {
        node.after = number.unwrap_or(0);
        node.has_after = number.is_some();
    }
}

// Sets the session that precedes this one in the queue, if this is there.
fn set_before(nodes: &mut Nodes, key: u64, session: u64, number: Option<u64>)
    ensures changed { (q m : ℕ) → place_by queue_place (get pair_eq nodes.new (q, m)) ≡ cond (nat_eq key q && nat_eq session m) (with_before number (place_by queue_place (get pair_eq nodes.old (q, m)))) (place_by queue_place (get pair_eq nodes.old (q, m))) }
    ensures others { (q m : ℕ) → place_by key_place (get pair_eq nodes.new (q, m)) ≡ place_by key_place (get pair_eq nodes.old (q, m)) }
    ensures len { hash_map_len nodes.new ≡ hash_map_len nodes.old }
{
    if let Some(node) = nodes.get_mut(&(key, session)) {
        node.before = number.unwrap_or(0);
        node.has_before = number.is_some();
    }
}

// Sets the key that follows this one among those of the session, if this is there.
fn set_after_key(nodes: &mut Nodes, key: u64, session: u64, number: Option<u64>)
    ensures changed { (q m : ℕ) → place_by key_place (get pair_eq nodes.new (m, q)) ≡ cond (nat_eq session q && nat_eq key m) (with_after number (place_by key_place (get pair_eq nodes.old (m, q)))) (place_by key_place (get pair_eq nodes.old (m, q))) }
    ensures others { (q m : ℕ) → place_by queue_place (get pair_eq nodes.new (q, m)) ≡ place_by queue_place (get pair_eq nodes.old (q, m)) }
    ensures len { hash_map_len nodes.new ≡ hash_map_len nodes.old }
{
    if let Some(node) = nodes.get_mut(&(key, session)) {
        node.after_key = number.unwrap_or(0);
        node.has_after_key = number.is_some();
    }
}

// Sets the key that precedes this one among those of the session, if this is there.
fn set_before_key(nodes: &mut Nodes, key: u64, session: u64, number: Option<u64>)
    ensures changed { (q m : ℕ) → place_by key_place (get pair_eq nodes.new (m, q)) ≡ cond (nat_eq session q && nat_eq key m) (with_before number (place_by key_place (get pair_eq nodes.old (m, q)))) (place_by key_place (get pair_eq nodes.old (m, q))) }
    ensures others { (q m : ℕ) → place_by queue_place (get pair_eq nodes.new (q, m)) ≡ place_by queue_place (get pair_eq nodes.old (q, m)) }
    ensures len { hash_map_len nodes.new ≡ hash_map_len nodes.old }
{
    if let Some(node) = nodes.get_mut(&(key, session)) {
        node.before_key = number.unwrap_or(0);
        node.has_before_key = number.is_some();
    }
}

/// Sets the session that follows this one in the queue, if there is one and it is there.
pub fn link_after(nodes: &mut Nodes, key: u64, session: Option<u64>, number: Option<u64>)
    ensures changed { (q m : ℕ) → place_by queue_place (get pair_eq nodes.new (q, m))
        ≡ cond (nat_eq key q) (linked_after session m number (place_by queue_place (get pair_eq nodes.old (q, m))))
        (place_by queue_place (get pair_eq nodes.old (q, m))) }
    ensures others { (q m : ℕ) → place_by key_place (get pair_eq nodes.new (q, m)) ≡ place_by key_place (get pair_eq nodes.old (q, m)) }
    ensures len { hash_map_len nodes.new ≡ hash_map_len nodes.old }
{
    if let Some(session) = session {
        set_after(nodes, key, session, number);
    }
}

/// Sets the session that precedes this one in the queue, if there is one and it is there.
pub fn link_before(nodes: &mut Nodes, key: u64, session: Option<u64>, number: Option<u64>)
    ensures changed { (q m : ℕ) → place_by queue_place (get pair_eq nodes.new (q, m))
        ≡ cond (nat_eq key q) (linked_before session m number (place_by queue_place (get pair_eq nodes.old (q, m))))
        (place_by queue_place (get pair_eq nodes.old (q, m))) }
    ensures others { (q m : ℕ) → place_by key_place (get pair_eq nodes.new (q, m)) ≡ place_by key_place (get pair_eq nodes.old (q, m)) }
    ensures len { hash_map_len nodes.new ≡ hash_map_len nodes.old }
{
    if let Some(session) = session {
        set_before(nodes, key, session, number);
    }
}

/// Sets the key that follows this one among those of the session, if there is one and it is there.
pub fn link_after_key(nodes: &mut Nodes, session: u64, key: Option<u64>, number: Option<u64>)
    ensures changed { (q m : ℕ) → place_by key_place (get pair_eq nodes.new (m, q))
        ≡ cond (nat_eq session q) (linked_after key m number (place_by key_place (get pair_eq nodes.old (m, q))))
        (place_by key_place (get pair_eq nodes.old (m, q))) }
    ensures others { (q m : ℕ) → place_by queue_place (get pair_eq nodes.new (q, m)) ≡ place_by queue_place (get pair_eq nodes.old (q, m)) }
    ensures len { hash_map_len nodes.new ≡ hash_map_len nodes.old }
{
    if let Some(key) = key {
        set_after_key(nodes, key, session, number);
    }
}

/// Sets the key that precedes this one among those of the session, if there is one and it is there.
pub fn link_before_key(nodes: &mut Nodes, session: u64, key: Option<u64>, number: Option<u64>)
    ensures changed { (q m : ℕ) → place_by key_place (get pair_eq nodes.new (m, q))
        ≡ cond (nat_eq session q) (linked_before key m number (place_by key_place (get pair_eq nodes.old (m, q))))
        (place_by key_place (get pair_eq nodes.old (m, q))) }
    ensures others { (q m : ℕ) → place_by queue_place (get pair_eq nodes.new (q, m)) ≡ place_by queue_place (get pair_eq nodes.old (q, m)) }
    ensures len { hash_map_len nodes.new ≡ hash_map_len nodes.old }
{
    if let Some(key) = key {
        set_before_key(nodes, key, session, number);
    }
}
