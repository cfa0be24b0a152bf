// A list of items, which contracts see as the list itself.
ghost use Rattle.std.specs.Prelude.{◌≡◌, [], ◌∷◌, ◌++◌, length, OnOk, OnErr, IfSome, IfNone, slice_get, ◌≤◌, Some, ◌==◌};

use std::alloc::{AllocError, Global};
use std::marker::Model;

/// A list of items. Contracts see it as the list of its items.
#[derive(Drop)]
pub struct List<T> {
    items: Vec<T>,
}

impl<T> Model for List<T> {
    ghost use Rattle.std.specs.Prelude as prelude;

    ghost Value = { prelude.List T };

    ghost view = { λ a. a.items.items };
}

impl<T> List<T> {
    /// Returns the empty list, which takes no memory yet.
    pub fn new(alloc: Global) -> List<T>
        ensures { result ≡ [] }
    {
        List {
            items: Vec::new(alloc),
        }
    }
}

impl<T> From<Vec<T>> for List<T> {
    /// Returns the list of the items of a vector.
    fn from(items: Vec<T>) -> List<T>
        ensures { result ≡ items.items }
    {
        List { items }
    }
}

impl<T: Drop> List<T> {
    /// Appends an item. If out of memory, the list stays unchanged.
    pub fn push(&mut self, item: T) -> Result<(), AllocError>
        ensures ok { OnOk result (self.new ≡ self.old ++ item ∷ []) }
        ensures err { OnErr result (self.new ≡ self.old) }
    {
        self.items.push(item)?;
        Ok(())
    }

    /// Removes all items. The list keeps its memory.
    pub fn clear(&mut self)
        ensures { self.new ≡ [] }
    {
        self.items.clear();
    }
}

impl<T> List<T> {
    /// Returns how many items there are.
    pub fn len(&self) -> usize
        ensures { result ≡ length self.now }
    {
        self.items.len()
    }

    /// Returns whether there is no item.
    pub fn is_empty(&self) -> bool
        ensures { result ≡ (length self.now == 0) }
    {
        self.items.is_empty()
    }

    /// Returns the item at a place, counted from 0, or `None` if the place is not below the length.
    pub fn get(&self, place: usize) -> Option<&T>
        ensures some { IfSome result (λ item. slice_get self.now place ≡ Some item.now) }
        ensures none { IfNone result (length self.now ≤ place) }
    {
        self.items.get(place)
    }

    /// Returns the items as a slice.
    pub fn as_slice(&self) -> &[T]
        ensures { result.now ≡ self.now }
    {
        &self.items
    }
}
