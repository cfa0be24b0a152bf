// The entries of sessions in the queues of keys.
ghost use Rattle.std.specs.Prelude.{◌≡◌, ◌≤◌, ◌+◌, ◌++◌, ◌∷◌, [], List, true, false, not, ◌==◌, filter, map, length, OnOk, if◌then◌else◌, is_some, vec_len, vec_capacity};
ghost use Rattle.mono_session.specs.Keeper.{Entry, queue_in, first_of, stands_in, is_entry};
ghost use Rattle.mono_session.specs.Queues.{Closed, Alike};
ghost use Rattle.mono_session.specs.Entries.{Entered, HasPlace, keys_in, without_first, queue_chains, key_chains, entry_count};

use crate::nodes::{Node, Nodes, link_after, link_after_key, link_before, link_before_key};
use crate::places::{Ends, Place, close_ends, put_last};
use std::alloc::{AllocError, Global};
use std::collections::HashMap;

/// The sessions in the queue of each key, and the keys in whose queues each session is.
///
/// An entry has one node, with its neighbours in both. So a session enters or leaves a queue, and a caller sees the
/// first, with a few look-ups, for any number of sessions, keys and entries.
#[derive(Drop)]
pub struct Entries {
    // The first and the last session in the queue of each key.
    ends: HashMap<u64, Ends>,
    // The first and the last key of each session.
    key_ends: HashMap<u64, Ends>,
    nodes: Nodes,
}

impl Entries {
    /// Returns a table without entries.
    pub fn new(alloc: Global) -> Entries
        ensures { Entered result [] }
    {
        Entries {
            ends: HashMap::new(alloc),
            key_ends: HashMap::new(alloc),
            nodes: HashMap::new(alloc),
        }
    }

    /// Reserves room for one more entry. It is refused only if it is out of memory; all entries stay in either case.
    pub fn reserve(&mut self) -> Result<(), AllocError>
        ensures room { OnOk result (HasPlace self.new) }
        ensures kept { (entries : List Entry) → Entered self.old entries → Entered self.new entries }
    {
        self.ends.reserve(1)?;
        self.key_ends.reserve(1)?;
        self.nodes.reserve(1)
    }

    /// Returns how many entries there are.
    pub fn len(&self) -> usize
        ensures len { (entries : List Entry) → Entered self.now entries → result ≡ length entries }
        ensures count { result ≡ entry_count self.now }
    {
        self.nodes.len()
    }

    /// Returns whether the session is in the queue of the key.
    pub fn contains(&self, session: u64, key: u64) -> bool
        ensures { (entries : List Entry) → Entered self.now entries → result ≡ stands_in entries session key }
    {
        self.nodes.contains_key(&(key, session))
    }

    /// Returns the first session in the queue of the key.
    pub fn owner(&self, key: u64) -> Option<u64>
        ensures { (entries : List Entry) → Entered self.now entries → result ≡ first_of (queue_in entries key) }
    {
        match self.ends.get(&key) {
            None => None,
            Some(ends) => Some(ends.first),
        }
    }

    /// Returns the key in whose queue the session has been for the longest time.
    pub fn first_key(&self, session: u64) -> Option<u64>
        ensures { (entries : List Entry) → Entered self.now entries → result ≡ first_of (keys_in entries session) }
    {
        match self.key_ends.get(&session) {
            None => None,
            Some(keys) => Some(keys.first),
        }
    }

    /// Appends a session that is not in the queue of the key to it. It takes no memory: there is room.
    pub fn enter(&mut self, session: u64, key: u64)
        requires { HasPlace self.old }
        ensures { (entries : List Entry) → Entered self.old entries → stands_in entries session key ≡ false → Entered self.new (entries ++ record { session = session; key = key } ∷ []) }
    {
        let before = put_last(&mut self.ends, key, session);
        let before_key = put_last(&mut self.key_ends, session, key);
        let node = Node::last(before, before_key);
        let _ = self.nodes.insert((key, session), node);
        link_after(&mut self.nodes, key, before, Some(session));
        link_after_key(&mut self.nodes, session, before_key, Some(key));
    }

    // Joins the neighbours of a session that has left the queue of a key.
    fn leave_queue(&mut self, key: u64, place: Place)
        ensures queues { Closed (queue_chains self.old) (queue_chains self.new) key place }
        ensures keys { Alike (key_chains self.old) (key_chains self.new) }
        ensures count { entry_count self.new ≡ entry_count self.old }
    {
        let Place { before, after } = place;
        link_after(&mut self.nodes, key, before, after);
        link_before(&mut self.nodes, key, after, before);
        close_ends(&mut self.ends, key, before, after);
    }

    // Joins the neighbours of a key that has left those of a session.
    fn leave_keys(&mut self, session: u64, place: Place)
        ensures queues { Alike (queue_chains self.old) (queue_chains self.new) }
        ensures keys { Closed (key_chains self.old) (key_chains self.new) session place }
        ensures count { entry_count self.new ≡ entry_count self.old }
    {
        let Place { before, after } = place;
        link_after_key(&mut self.nodes, session, before, after);
        link_before_key(&mut self.nodes, session, after, before);
        close_ends(&mut self.key_ends, session, before, after);
    }

    /// Removes a session from the queue of a key, if it is there. Returns whether it was.
    pub fn leave(&mut self, session: u64, key: u64) -> bool
        ensures stood { (entries : List Entry) → Entered self.old entries → result ≡ stands_in entries session key }
        ensures kept { (entries : List Entry) → Entered self.old entries → stands_in entries session key ≡ true → Entered self.new (filter (λ entry. not (is_entry session key entry)) entries) }
        ensures count { entry_count self.new + (if result then 1 else 0) ≡ entry_count self.old }
    {
        let Some(node) = self.nodes.remove(&(key, session)) else {
            return false;
        };
        self.leave_queue(key, node.in_queue());
        self.leave_keys(session, node.in_keys());
        true
    }

    /// Removes a session from the queue in which it has been for the longest time, and returns the key of that queue.
    pub fn leave_first(&mut self, session: u64) -> Option<u64>
        ensures key { (entries : List Entry) → Entered self.old entries → result ≡ first_of (keys_in entries session) }
        ensures kept { (entries : List Entry) → Entered self.old entries → Entered self.new (without_first session result entries) }
        ensures count { entry_count self.new + (if is_some result then 1 else 0) ≡ entry_count self.old }
    {
        let key = self.first_key(session)?;
        if !self.leave(session, key) {
            return None;
        }
        Some(key)
    }

    /// Removes a session from all queues in which it is.
    pub fn leave_all(&mut self, session: u64)
        ensures kept { (entries : List Entry) → Entered self.old entries → Entered self.new (filter (λ entry. not (entry.session == session)) entries) }
        ensures fewer { entry_count self.new ≤ entry_count self.old }
    {
        while self.leave_first(session).is_some() {}
    }

    /// Removes a session from all queues in which it is. Appends it to `left` with the key of each, in the order in which
    /// it entered them. There is room for all entries.
    pub fn leave_each(&mut self, session: u64, left: &mut Vec<(u64, u64)>)
        requires { vec_len left.old + entry_count self.old ≤ vec_capacity left.old }
        ensures kept { (entries : List Entry) → Entered self.old entries → Entered self.new (filter (λ entry. not (entry.session == session)) entries) }
        ensures listed { (entries : List Entry) → Entered self.old entries → left.new.items ≡ left.old.items ++ map (λ key. (session, key)) (keys_in entries session) }
        ensures room { vec_len left.new + entry_count self.new ≤ vec_capacity left.new }
        ensures capacity { vec_capacity left.new ≡ vec_capacity left.old }
    {
        while let Some(key) = self.leave_first(session) {
            left.push_reserved((session, key));
        }
    }
}
