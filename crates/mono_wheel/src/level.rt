//! The level of a tick.
ghost use Rattle.std.specs.Prelude.{◌≡◌};
ghost use Rattle.mono_wheel.specs.Start.{far_digit, IsLevel, top_level};

/// The number of levels.
pub const LEVELS: usize = 7;

const TOP: usize = LEVELS - 1;

// The bound from which differing bits give the top level.
const FAR: u64 = (1 << (LEVELS * 6)) - 1;

/// Returns the level, 0 to 6, at which a tick is registered while the wheel is at `elapsed`.
///
/// It is the highest digit to the base 64 in which the two ticks differ, and at most 6 (clause `digit`). In bits, it is
/// a sixth of the place of the highest bit in which they differ (clause `rule`).
pub fn level_for(elapsed: u64, when: u64) -> usize
    ensures digit { result ≡ far_digit top_level elapsed when }
    ensures rule { IsLevel elapsed when result }
{
    let differing = (elapsed ^ when) | 63;
    if differing >= FAR {
        return TOP;
    }
    (63 - differing.leading_zeros()) as usize / 6
}
