// A rule that lets items through, one by one.
ghost use Rattle.std.specs.Prelude.{◌≡◌, ⊤, Bool, false, Option};

/// A rule that takes items one by one and returns at most one value for each.
///
/// A sieve specifies the value that it may return for an item and the sieve after it (`sifts`). Once it is done, it
/// takes no more items.
pub trait Sieve<X>: Drop {
    /// The type of the values that it returns.
    type Output;

    // Whether it takes no more items.
    ghost done: { Self → Bool } = { λ _. false };

    // What its closure requires of a call at an item; true for a sieve that has none.
    ghost can_sift: { Self → X → Type 0 } = { λ _ _. ⊤ };

    // The value that it may return for an item, and the sieve after it.
    ghost sifts: { Self → X → Option Self.Output → Self → Type 0 };

    /// Returns whether it takes no more items.
    fn is_done(&self) -> bool
        ensures { result ≡ done self.now };

    /// Takes an item and returns its value, or `None` if it lets nothing through.
    fn sift(&mut self, item: X) -> Option<Self::Output>
        requires open { done self.old ≡ false }
        requires able { can_sift self.old item }
        ensures { sifts self.old item result self.new };
}
