// A list of entries that only proofs read.
ghost use Rattle.std.specs.Prelude.{◌≡◌, List, [], ◌∷◌, ◌++◌};
ghost use Rattle.std.specs.Borrow.{ftrue};

use std::marker::{Model, PhantomData};

/// A value that specifies an entry. The value may hold ghost data, so the entry may be absent from memory.
pub trait Tells<X, E> {
    /// The entry of this value.
    ghost entry: { X → E };
}

/// A list of entries that only proofs read. It takes no bytes, and its methods do nothing when they run. A clause reads
/// the list as `entries`.
#[derive(Drop)]
pub struct History<E> {
    of: PhantomData<E>,
    pub ghost entries: { List E },
}

impl<E> Model for History<E> {
    ghost also_owns = { λ _. ftrue };
}

// It owns nothing.
unsafe impl<E: Send> Send for History<E> {}

impl<E> History<E> {
    /// Makes the empty history.
    pub fn new() -> History<E>
        ensures { result.entries ≡ [] }
    {
        History { of: PhantomData }
    }

    /// Returns the history with one more entry.
    pub fn and(&self, entry: &E) -> History<E>
        ensures { result.entries ≡ self.now.entries ++ entry.now ∷ [] }
    {
        History { of: PhantomData }
    }

    /// Returns the history with one more entry, which this value specifies.
    pub fn told<X, M: Tells<X, E>>(&self, about: &X) -> History<E>
        ensures { result.entries ≡ self.now.entries ++ M.entry about.now ∷ [] }
    {
        History { of: PhantomData }
    }
}
