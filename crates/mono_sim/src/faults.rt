// The kinds of faults that a world draws by its seed.
ghost use Rattle.std.specs.Prelude.{◌≡◌, if◌then◌else◌};
ghost use Rattle.mono_sim.specs.Faults.{fewer_sets, kinds, odds_with};

use crate::draws::Odds;

/// The kinds of faults that a world draws by its seed.
#[derive(Clone, Copy, Debug, PartialEq, Eq)]
pub struct Faults {
    /// Whether calls of drivers fail.
    pub fails: bool,
    /// Whether drawn runtimes stand still.
    pub stands: bool,
    /// Whether the clock jumps ahead.
    pub jumps: bool,
}

/// All kinds of faults.
pub(crate) const ALL: Faults = Faults {
    fails: true,
    stands: true,
    jumps: true,
};

// Returns the set of these kinds.
fn set_of(fails: bool, stands: bool, jumps: bool) -> Faults
    ensures { result ≡ kinds fails stands jumps }
{
    Faults {
        fails,
        stands,
        jumps,
    }
}

/// Returns the sets of fewer kinds than all, the smaller ones first.
pub(crate) fn fewer_sets() -> [Faults; 7]
    ensures { result ≡ fewer_sets }
{
    [
        set_of(false, false, false),
        set_of(true, false, false),
        set_of(false, true, false),
        set_of(false, false, true),
        set_of(true, true, false),
        set_of(true, false, true),
        set_of(false, true, true),
    ]
}

// Returns the frequency if this kind of fault is drawn, and 0 if not.
fn drawn(is_drawn: bool, frequency: u32) -> u32
    ensures { result ≡ if is_drawn then frequency else 0 }
{
    if is_drawn { frequency } else { 0 }
}

impl Odds {
    /// Returns the odds with these kinds of faults alone.
    pub fn with(&self, faults: Faults) -> Odds
        ensures { result ≡ odds_with faults self.now }
    {
        Odds {
            fails: drawn(faults.fails, self.fails),
            stands: drawn(faults.stands, self.stands),
            jumps: drawn(faults.jumps, self.jumps),
            ..*self
        }
    }
}
