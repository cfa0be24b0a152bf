// A sieve that counts items.
ghost use Rattle.std.specs.Prelude.{⊤, false};
ghost use Rattle.mono_stream.specs.Sieves.{EnumeratingSifts};

use crate::sieves::Sieve;
use crate::sifts::Sifted;

/// A sieve that returns each item beside its number. After `usize::MAX` the number is 0 again.
#[derive(Drop)]
pub struct Enumerating {
    pub(crate) count: usize,
}

impl<X> Sieve<X> for Enumerating {
    type Output = (usize, X);

    ghost done = { λ v. false };

    ghost can_sift = { λ v x. ⊤ };

    ghost sifts = { EnumeratingSifts };

    fn is_done(&self) -> bool {
        false
    }

    fn sift(&mut self, item: X) -> Option<(usize, X)> {
        let count = self.count;
        self.count = count.wrapping_add(1);
        Some((count, item))
    }
}

/// The stream of [`crate::StreamExt::enumerate`].
pub type Enumerate<S> = Sifted<S, Enumerating>;
