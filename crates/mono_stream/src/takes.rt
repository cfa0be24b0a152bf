// Sieves that are done after the first items.
ghost use Rattle.std.specs.Prelude.{◌==◌, ⊤};
ghost use Rattle.mono_stream.specs.Sieves.{TestsAt, TakingSifts, TakingWhileSifts};

use crate::filters::passes;
use crate::sieves::Sieve;
use crate::sifts::Sifted;

/// A sieve that returns each item and is done after a number of them.
#[derive(Drop)]
pub struct Taking {
    pub(crate) remaining: usize,
}

impl<X> Sieve<X> for Taking {
    type Output = X;

    ghost done = { λ v. v.remaining == 0 };

    ghost can_sift = { λ v x. ⊤ };

    ghost sifts = { TakingSifts };

    fn is_done(&self) -> bool {
        self.remaining == 0
    }

    fn sift(&mut self, item: X) -> Option<X> {
        self.remaining -= 1;
        Some(item)
    }
}

/// The stream of [`crate::StreamExt::take`].
pub type Take<S> = Sifted<S, Taking>;

/// A sieve that returns each item until its closure returns false, and is done then.
///
/// It requires (`can_sift`) that the closure may be called at the item.
#[derive(Drop)]
pub struct TakingWhile<F> {
    pub(crate) f: F,
    pub(crate) has_failed: bool,
}

impl<X: Drop, F: FnMut(&X) -> bool + Drop> Sieve<X> for TakingWhile<F> {
    type Output = X;

    ghost done = { λ v. v.has_failed };

    ghost can_sift = { λ v x. TestsAt F.FnMut v.f x };

    ghost sifts = { TakingWhileSifts F.FnMut };

    fn is_done(&self) -> bool {
        self.has_failed
    }

    fn sift(&mut self, item: X) -> Option<X> {
        if passes(&mut self.f, &item) {
            return Some(item);
        }
        self.has_failed = true;
        None
    }
}

/// The stream of [`crate::StreamExt::take_while`].
pub type TakeWhile<S, F> = Sifted<S, TakingWhile<F>>;
