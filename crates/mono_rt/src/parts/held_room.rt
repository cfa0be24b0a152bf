// A list that holds room for later items.
ghost use Rattle.std.specs.Prelude.{◌≡◌, ◌≤◌, ◌<◌, ◌+◌, ◌++◌, ◌∷◌, [], OnOk, IfSome, IfNone, Some, length, slice_get};
ghost use Rattle.mono_rt.specs.HeldRoom.{HasRoomFor};

use std::alloc::{AllocError, Global};
use std::marker::Model;

/// A list, and for how many more items room is held. Held room stays free through every other push, so an item for
/// which room was held is added without an allocation.
#[derive(Drop)]
pub(crate) struct RoomList<T> {
    list: Vec<T>,
    places: usize,
}

impl<T> Model for RoomList<T> {
    ghost use Rattle.std.specs.Prelude.{◌≤◌, ◌+◌, length, vec_capacity};
    ghost use Rattle.mono_rt.specs.HeldRoom.{Roomy};

    ghost Value = { Roomy T };

    ghost view = { λ a. record { items = a.list.items; capacity = vec_capacity a.list; held = a.places } };

    ghost invariant = { λ a. length a.list.items + a.places ≤ vec_capacity a.list };
}

impl<T> RoomList<T> {
    /// Returns the empty list, which takes no memory yet.
    pub(crate) fn new(alloc: Global) -> RoomList<T>
        ensures items { result.items ≡ [] }
        ensures held { result.held ≡ 0 }
    {
        RoomList {
            list: Vec::new(alloc),
            places: 0,
        }
    }

    /// Returns how many items there are.
    pub(crate) fn len(&self) -> usize
        ensures { result ≡ length self.now.items }
    {
        self.list.len()
    }

    /// Returns the item at a place, or None from the length on.
    pub(crate) fn get(&self, place: usize) -> Option<&T>
        ensures some { IfSome result (λ item. slice_get self.now.items place ≡ Some item.now) }
        ensures none { IfNone result (length self.now.items ≤ place) }
    {
        self.list.get(place)
    }

    /// Reserves room for `more` items, in addition to the held room.
    pub(crate) fn reserve(&mut self, more: usize) -> Result<(), AllocError>
        ensures room { OnOk result (HasRoomFor self.new more) }
        ensures items { self.new.items ≡ self.old.items }
        ensures held { self.new.held ≡ self.old.held }
    {
        match more.checked_add(self.places) {
            None => Err(AllocError),
            Some(all) => self.list.reserve(all),
        }
    }

    /// Adds one item, for which there is room.
    pub(crate) fn push(&mut self, item: T)
        requires { HasRoomFor self.old 1 }
        ensures items { self.new.items ≡ self.old.items ++ item ∷ [] }
        ensures held { self.new.held ≡ self.old.held }
        ensures capacity { self.new.capacity ≡ self.old.capacity }
    {
        self.list.push_reserved(item);
    }

    /// Holds room for one more item.
    pub(crate) fn hold(&mut self)
        requires { HasRoomFor self.old 1 }
        ensures items { self.new.items ≡ self.old.items }
        ensures held { self.new.held ≡ self.old.held + 1 }
    {
        self.places += 1;
    }

    /// Releases the held room of one item, which is free now.
    pub(crate) fn release(&mut self)
        requires { 0 < self.old.held }
        ensures items { self.new.items ≡ self.old.items }
        ensures held { self.new.held + 1 ≡ self.old.held }
        ensures room { HasRoomFor self.new 1 }
    {
        self.places -= 1;
    }
}
