// Sieves that let through the items of a closure's choice.
ghost use Rattle.std.specs.Prelude.{false};
ghost use Rattle.std.specs.Fn.{CalledAt};
ghost use Rattle.mono_stream.specs.Sieves.{TestsAt, FilteringSifts, FilterMappingSifts};

use crate::sieves::Sieve;
use crate::sifts::Sifted;

// Calls the closure at an item.
pub(crate) fn passes<X, F: FnMut(&X) -> bool>(f: &mut F, item: &X) -> bool
    requires { TestsAt F.FnMut f.old item.now }
    ensures { CalledAt F.FnMut f.old item.now result f.new }
{
    f(item)
}

/// A sieve that returns each item for which its closure returns true.
///
/// It requires (`can_sift`) that the closure may be called at the item.
#[derive(Drop)]
pub struct Filtering<F> {
    pub(crate) f: F,
}

impl<X: Drop, F: FnMut(&X) -> bool + Drop> Sieve<X> for Filtering<F> {
    type Output = X;

    ghost done = { λ v. false };

    ghost can_sift = { λ v x. TestsAt F.FnMut v.f x };

    ghost sifts = { FilteringSifts F.FnMut };

    fn is_done(&self) -> bool {
        false
    }

    fn sift(&mut self, item: X) -> Option<X> {
        if passes(&mut self.f, &item) {
            Some(item)
        } else {
            None
        }
    }
}

/// The stream of [`crate::StreamExt::filter`].
pub type Filter<S, F> = Sifted<S, Filtering<F>>;

/// A sieve that returns what its closure returns for each item.
///
/// It requires (`can_sift`) that the closure may be called at the item.
#[derive(Drop)]
pub struct FilterMapping<F> {
    pub(crate) f: F,
}

impl<X, Y, F: FnMut(X) -> Option<Y> + Drop> Sieve<X> for FilterMapping<F> {
    type Output = Y;

    ghost done = { λ v. false };

    ghost can_sift = { λ v x. F.pre v.f x };

    ghost sifts = { FilterMappingSifts F.FnMut };

    fn is_done(&self) -> bool {
        false
    }

    fn sift(&mut self, item: X) -> Option<Y> {
        (self.f)(item)
    }
}

/// The stream of [`crate::StreamExt::filter_map`].
pub type FilterMap<S, F> = Sifted<S, FilterMapping<F>>;
