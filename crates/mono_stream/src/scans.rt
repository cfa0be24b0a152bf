// A sieve with a state that a closure changes.
ghost use Rattle.std.specs.Fn.{CalledWithState};
ghost use Rattle.mono_stream.specs.Sieves.{StepsAt, ScanningSifts};

use crate::sieves::Sieve;
use crate::sifts::Sifted;

/// A sieve that returns what its closure makes of a state and each item. It is done once that is `None`.
///
/// It requires (`can_sift`) that the closure may be called at the state and the item.
#[derive(Drop)]
pub struct Scanning<A, F> {
    pub(crate) state: A,
    pub(crate) f: F,
    pub(crate) has_stopped: bool,
}

// Calls the closure at the state and an item.
fn step<A, X, Y, F: FnMut(&mut A, X) -> Option<Y>>(f: &mut F, state: &mut A, item: X) -> Option<Y>
    requires { StepsAt F.FnMut f.old state.old item }
    ensures { CalledWithState F.FnMut f.old state.old item result f.new state.new }
{
    f(state, item)
}

impl<X, Y, A: Drop, F: FnMut(&mut A, X) -> Option<Y> + Drop> Sieve<X> for Scanning<A, F> {
    type Output = Y;

    ghost done = { λ v. v.has_stopped };

    ghost can_sift = { λ v x. StepsAt F.FnMut v.f v.state x };

    ghost sifts = { ScanningSifts F.FnMut };

    fn is_done(&self) -> bool {
        self.has_stopped
    }

    fn sift(&mut self, item: X) -> Option<Y> {
        let value = step(&mut self.f, &mut self.state, item);
        self.has_stopped = value.is_none();
        value
    }
}

/// The stream of [`crate::StreamExt::scan`].
pub type Scan<S, A, F> = Sifted<S, Scanning<A, F>>;
