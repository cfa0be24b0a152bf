// The branch at which a select begins.
ghost use Rattle.std.specs.Prelude.{◌≡◌, ◌<◌};
ghost use Rattle.mono_combine.specs.Starts.{start_of, next_start};

use mono_model::FastRand;

/// The branch that a select polls first, anew in each poll.
#[derive(Clone, Copy, Debug, PartialEq, Eq)]
pub enum Start {
    /// The first branch in the written order.
    Biased,
    /// A branch that the generator draws.
    Random(FastRand),
}

impl Start {
    // Returns the branch to poll first in this poll.
    pub(crate) fn draw(&mut self, branches: u32) -> u32
        requires { 0 < branches }
        ensures start { result ≡ start_of self.old branches }
        ensures below { result < branches }
        ensures next { self.new ≡ next_start self.old }
    {
        match self {
            Start::Biased => 0,
            Start::Random(numbers) => numbers.fastrand_n(branches),
        }
    }
}
