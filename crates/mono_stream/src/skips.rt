// Sieves that pass over the first items.
ghost use Rattle.std.specs.Prelude.{⊤, false};
ghost use Rattle.mono_stream.specs.Sieves.{TestsUnless, SkippingSifts, SkippingWhileSifts};

use crate::filters::passes;
use crate::sieves::Sieve;
use crate::sifts::Sifted;

/// A sieve that passes over a number of items and returns each later one.
#[derive(Drop)]
pub struct Skipping {
    pub(crate) remaining: usize,
}

impl<X: Drop> Sieve<X> for Skipping {
    type Output = X;

    ghost done = { λ v. false };

    ghost can_sift = { λ v x. ⊤ };

    ghost sifts = { SkippingSifts };

    fn is_done(&self) -> bool {
        false
    }

    fn sift(&mut self, item: X) -> Option<X> {
        if self.remaining == 0 {
            return Some(item);
        }
        self.remaining -= 1;
        None
    }
}

/// The stream of [`crate::StreamExt::skip`].
pub type Skip<S> = Sifted<S, Skipping>;

/// A sieve that passes over items while its closure returns true, and returns each later one without a call.
///
/// It requires (`can_sift`) that the closure may be called at the item, until it has returned one.
#[derive(Drop)]
pub struct SkippingWhile<F> {
    pub(crate) f: F,
    pub(crate) has_begun: bool,
}

impl<X: Drop, F: FnMut(&X) -> bool + Drop> Sieve<X> for SkippingWhile<F> {
    type Output = X;

    ghost done = { λ v. false };

    ghost can_sift = { λ v x. TestsUnless F.FnMut v.has_begun v.f x };

    ghost sifts = { SkippingWhileSifts F.FnMut };

    fn is_done(&self) -> bool {
        false
    }

    fn sift(&mut self, item: X) -> Option<X> {
        if self.has_begun {
            return Some(item);
        }
        if passes(&mut self.f, &item) {
            return None;
        }
        self.has_begun = true;
        Some(item)
    }
}

/// The stream of [`crate::StreamExt::skip_while`].
pub type SkipWhile<S, F> = Sifted<S, SkippingWhile<F>>;
