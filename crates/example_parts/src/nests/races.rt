// The types and the construction of the nest.
ghost use Rattle.std.specs.Prelude.{◌≡◌, true, [], ◌∷◌};
ghost use Rattle.mono_model.specs.Tasks.{all_woken};
ghost use Rattle.example_parts.specs.Nests.{race_of, nest_of, MayBegin, all_polled, all_removed};

use crate::nests::by_hand::Countdown;
use crate::nests::laws::{nest_is_given_up, nest_waits};
use mono_combine::{Join2, Out2, Select2, Start};
use mono_model::Host;
use mono_task::TaskFuture;
use mono_time::{TimeContext, Timeout, TimeoutError};
use std::alloc::Global;

/// A countdown with a deadline.
pub type Limited = Timeout<Countdown>;

/// The answer of a countdown with a deadline.
pub type Answer = Result<u64, TimeoutError>;

/// Two countdowns with deadlines; the first that answers and passes its predicate counts.
pub type Race<G, H> = Select2<Limited, Limited, G, H>;

/// The answer of a race.
pub type Raced = Out2<Answer, Answer>;

/// Two races, both of which have to end.
pub type Nest<G, H, I, J> = Join2<Race<G, H>, Race<I, J>, Raced, Raced>;

/// Returns the race of two countdowns with deadlines, with a predicate for each. Both take part, and the first has its
/// turn first.
pub fn race<G, H>(a: Limited, b: Limited, g: G, h: H) -> Race<G, H>
    ensures { result ≡ race_of a b g h }
{
    Select2::new(a, b, g, h, 0, Start::Biased)
}

/// Joins two races, both of which have to end.
pub fn nest<G, H, I, J>(first: Race<G, H>, second: Race<I, J>) -> Nest<G, H, I, J>
    ensures { result ≡ nest_of first second }
{
    Join2::new(first, second)
}

/// Makes a nest of countdowns with deadlines, polls it once and gives it up. Returns whether that poll was pending: it
/// was if all four countdowns have polls left and no delay is due (`waits`). Each delay was polled and then given up
/// (`sleeps`), and each countdown woke the running task once (`work`).
pub fn polled_once<C, R, G, H, I, J>(
    rt: &R,
    alloc: Global,
    cx: &mut C,
    first: (Limited, Limited),
    second: (Limited, Limited),
    first_tests: (G, H),
    second_tests: (I, J),
) -> bool
where
    C: TimeContext,
    R: Host,
    G: Fn(&Answer) -> bool + Drop,
    H: Fn(&Answer) -> bool + Drop,
    I: Fn(&Answer) -> bool + Drop,
    J: Fn(&Answer) -> bool + Drop,
    requires first { MayBegin (C.sleeps cx.old) first.0 × MayBegin (C.sleeps cx.old) first.1 }
    requires second { MayBegin (C.sleeps cx.old) second.0 × MayBegin (C.sleeps cx.old) second.1 }
    requires first_tests { G.IsAlwaysCallable first_tests.0 × H.IsAlwaysCallable first_tests.1 }
    requires second_tests { I.IsAlwaysCallable second_tests.0 × J.IsAlwaysCallable second_tests.1 }
    ensures waits { result ≡ true }
    ensures sleeps { let delays = first.0.delay.number ∷ first.1.delay.number ∷ second.0.delay.number ∷ second.1.delay.number ∷ [] in
        C.sleeps cx.new ≡ all_removed (all_polled (C.sleeps cx.old) delays (C.number cx.old)) delays }
    ensures work { C.work cx.new ≡ all_woken (C.work cx.old) (C.number cx.old ∷ C.number cx.old ∷ C.number cx.old ∷ C.number cx.old ∷ []) }
    ensures reached { C.reaches cx.old cx.new }
{
    let (a, b) = first;
    let (e, f) = second;
    let (g, h) = first_tests;
    let (i, j) = second_tests;
    let mut both: Nest<G, H, I, J> = nest(race(a, b, g, h), race(e, f, i, j));
    nest_waits::<C, G, H, I, J>();
    let answer = both.poll(rt, alloc, cx);
    let waits = answer.is_pending();
    nest_is_given_up::<C, G, H, I, J>();
    both.cancel(cx);
    waits
}
