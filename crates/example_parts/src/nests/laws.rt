//! Laws on one poll of the nest and on giving it up, as functions with empty bodies.
ghost use Rattle.std.specs.Prelude.{◌≡◌, true, Ok, [], ◌∷◌};
ghost use Rattle.mono_model.specs.Tasks.{all_woken};
ghost use Rattle.mono_model.specs.declared.poll.Poll.{Poll};
ghost use Rattle.mono_combine.specs.declared.joins.Join2.{Join2};
ghost use Rattle.mono_combine.specs.declared.select.Out2.{Out2};
ghost use Rattle.example_parts.specs.Countdowns.{is_over};
ghost use Rattle.example_parts.specs.Nests.{Limited, race_of, nest_of, Waits, IsLate, Apart, IsGone, Passes, late, polled_once, all_polled, all_removed, after_end, delays_of};

use crate::nests::races::{Answer, Nest};
use mono_task::TaskFuture;
use mono_time::TimeContext;

/// Shows that a nest waits if all four countdowns have polls left and no delay is due. Then each countdown was polled
/// once, and each delay after it, in the written order. Each countdown woke the running task, and that task is the only
/// waker of each delay.
pub fn nest_waits<C, G, H, I, J>()
where
    C: TimeContext,
    G: Fn(&Answer) -> bool + Drop,
    H: Fn(&Answer) -> bool + Drop,
    I: Fn(&Answer) -> bool + Drop,
    J: Fn(&Answer) -> bool + Drop,
    ensures { (a b e f : Limited) (g : G) (h : H) (i : I) (j : J) (c : C) (r : _) (left : _) (d : C)
        → ⟦<Nest<G, H, I, J> as TaskFuture<C>>⟧.polls (nest_of (race_of a b g h) (race_of e f i j)) c r left d
        → Waits (C.sleeps c) a → Waits (C.sleeps c) b → Waits (C.sleeps c) e → Waits (C.sleeps c) f
        → (r ≡ Poll.Pending)
        × (left ≡ nest_of (race_of (polled_once a) (polled_once b) g h) (race_of (polled_once e) (polled_once f) i j))
        × (C.sleeps d ≡ all_polled (C.sleeps c) (a.delay.number ∷ b.delay.number ∷ e.delay.number ∷ f.delay.number ∷ []) (C.number c))
        × (C.work d ≡ all_woken (C.work c) (C.number c ∷ C.number c ∷ C.number c ∷ C.number c ∷ [])) }
{}

/// Shows that a nest answers if the first countdown has no polls left, the third waits and the fourth is out of time.
/// The first race gives the first value, and the second that the time has elapsed. No delay remains. They are given up
/// in this order: that of the first, the second, the fourth and the third.
pub fn nest_ends<C, G, H, I, J>()
where
    C: TimeContext,
    G: Fn(&Answer) -> bool + Drop,
    H: Fn(&Answer) -> bool + Drop,
    I: Fn(&Answer) -> bool + Drop,
    J: Fn(&Answer) -> bool + Drop,
    ensures { (a b e f : Limited) (g : G) (h : H) (i : I) (j : J) (c : C) (r : _) (left : _) (d : C)
        → ⟦<Nest<G, H, I, J> as TaskFuture<C>>⟧.polls (nest_of (race_of a b g h) (race_of e f i j)) c r left d
        → is_over a.value ≡ true → Waits (C.sleeps c) e → IsLate (C.sleeps c) f → Apart a b e f
        → Passes G.Fn g (Ok a.value.value) → Passes J.Fn j late
        → (r ≡ Poll.Ready (Out2.First (Ok a.value.value), Out2.Second late))
        × (C.sleeps d ≡ after_end (C.sleeps c) a.delay.number b.delay.number e.delay.number f.delay.number (C.number c))
        × IsGone (C.sleeps d) a × IsGone (C.sleeps d) b × IsGone (C.sleeps d) e × IsGone (C.sleeps d) f }
{}

/// Shows that giving up a nest gives up each remaining delay, in the written order. Nothing else of the sleeps and the
/// tasks changes.
pub fn nest_is_given_up<C, G, H, I, J>()
where
    C: TimeContext,
    G: Fn(&Answer) -> bool + Drop,
    H: Fn(&Answer) -> bool + Drop,
    I: Fn(&Answer) -> bool + Drop,
    J: Fn(&Answer) -> bool + Drop,
    ensures { (n : _) (c d : C)
        → ⟦<Nest<G, H, I, J> as TaskFuture<C>>⟧.cancels n c d
        → (C.sleeps d ≡ all_removed (C.sleeps c) (delays_of n)) × (C.work d ≡ C.work c) }
{}
