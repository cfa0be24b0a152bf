// What a world draws by its seed.
ghost use Rattle.std.specs.Prelude.{◌≡◌};
ghost use Rattle.mono_sim.specs.Draws.{hit, after_hit, jump_drawn, after_jump};

use mono_model::FastRand;

/// The nanoseconds of a millisecond.
pub(crate) const MILLI: u64 = 1000000;

/// How often a world does what, and how much.
#[derive(Clone, Copy, Debug, PartialEq, Eq)]
pub struct Odds {
    /// The greatest budget of one step of a runtime; 0 counts as 1.
    pub turns: u32,
    /// One call of a driver in so many fails; none if 0.
    pub fails: u32,
    /// One drawn runtime in so many stands still in its step; none if 0.
    pub stands: u32,
    /// The clock jumps ahead before one step of a runtime in so many; never if 0.
    pub jumps: u32,
    /// The longest jump of the clock, in milliseconds; 0 counts as 1.
    pub longest: u32,
}

/// Returns whether a draw hits that is to hit one time in `n`. Nothing is drawn, and nothing hits, if `n` is 0.
pub(crate) fn hits(rand: &mut FastRand, n: u32) -> bool
    ensures hit { result ≡ hit rand.old n }
    ensures next { rand.new ≡ after_hit rand.old n }
{
    if n == 0 {
        return false;
    }
    rand.fastrand_n(n) == 0
}

/// Draws how far the clock jumps ahead, in nanoseconds: one time in `odds.jumps` by 1 to `odds.longest` milliseconds.
pub(crate) fn draw_jump(rand: &mut FastRand, odds: &Odds) -> u64
    ensures jump { result ≡ jump_drawn rand.old odds.now }
    ensures next { rand.new ≡ after_jump rand.old odds.now }
{
    if !hits(rand, odds.jumps) {
        return 0;
    }
    (rand.fastrand_n(odds.longest) as u64 + 1) * MILLI
}
