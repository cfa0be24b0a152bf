// Races of three to five unlike futures. Each is the form of two, nested to the left, so it polls and gives up its
// parts in the written order.
ghost use Rattle.std.specs.Prelude.{◌≡◌, Some};

use crate::either_races::RaceEither;
use crate::makers::{race, race_either};
use crate::races::Race;

/// Races three futures: the first answer wins, and the others are given up. It polls them in the written order.
pub fn race3<A, B, D>(a: A, b: B, d: D) -> Race<Race<A, B>, D>
    ensures { result.both ≡ Some (record { both = Some (a, b) }, d) }
{
    race(race(a, b), d)
}

/// Races three unlike futures: the first answer wins, on its side, and the others are given up. It polls them in the
/// written order.
pub fn race_either3<A, B, D>(a: A, b: B, d: D) -> RaceEither<RaceEither<A, B>, D>
    ensures { result.both ≡ Some (record { both = Some (a, b) }, d) }
{
    race_either(race_either(a, b), d)
}

/// Races four futures: the first answer wins, and the others are given up. It polls them in the written order.
pub fn race4<A, B, D, E>(a: A, b: B, d: D, e: E) -> Race<Race<Race<A, B>, D>, E>
    ensures { result.both ≡ Some (record { both = Some (record { both = Some (a, b) }, d) }, e) }
{
    race(race3(a, b, d), e)
}

/// Races four unlike futures: the first answer wins, on its side, and the others are given up. It polls them in the
/// written order.
pub fn race_either4<A, B, D, E>(
    a: A,
    b: B,
    d: D,
    e: E,
) -> RaceEither<RaceEither<RaceEither<A, B>, D>, E>
    ensures { result.both ≡ Some (record { both = Some (record { both = Some (a, b) }, d) }, e) }
{
    race_either(race_either3(a, b, d), e)
}

/// Races five futures: the first answer wins, and the others are given up. It polls them in the written order.
pub fn race5<A, B, D, E, F>(a: A, b: B, d: D, e: E, f: F) -> Race<Race<Race<Race<A, B>, D>, E>, F>
    ensures { result.both ≡ Some (record { both = Some (record { both = Some (record { both = Some (a, b) }, d) }, e) }, f) }
{
    race(race4(a, b, d, e), f)
}

/// Races five unlike futures: the first answer wins, on its side, and the others are given up. It polls them in the
/// written order.
pub fn race_either5<A, B, D, E, F>(
    a: A,
    b: B,
    d: D,
    e: E,
    f: F,
) -> RaceEither<RaceEither<RaceEither<RaceEither<A, B>, D>, E>, F>
    ensures { result.both ≡ Some (record { both = Some (record { both = Some (record { both = Some (a, b) }, d) }, e) }, f) }
{
    race_either(race_either4(a, b, d, e), f)
}
