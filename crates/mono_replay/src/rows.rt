//! Examples of how the registered tick of a sleep changes.
ghost use Rattle.std.specs.Prelude.{◌≡◌, None, Some};
ghost use Rattle.mono_model.specs.Sleeps.{fresh, armed, elapsed};
ghost use Rattle.mono_time.specs.Registrations.{by_act, by_clock};
ghost use Rattle.mono_replay.specs.Examples.{arming};

/// Shows a sleep that is armed at tick 100, and is registered there; its slot starts at 64.
///
/// Shows that a reset to 130 keeps its arm number and leaves it registered at 100 (`later`); a reset to 90 registers it
/// there (`earlier`). A clock step to 63 leaves it (`before`), a step to 64 registers it at its own tick (`at_start`),
/// and a step to 130 lets it fire (`fired`). A first arming registers it at its tick (`first`). A sleep that was
/// removed or has elapsed is not registered (`gone`, `over`).
pub fn registered_ticks()
    ensures first { by_act (Some (fresh 99000001)) (Some (armed (arming 100 0))) None ≡ Some 100 }
    ensures again { by_act (Some elapsed) (Some (armed (arming 100 3))) None ≡ Some 100 }
    ensures later { by_act (Some (armed (arming 100 0))) (Some (armed (arming 130 0))) (Some 100) ≡ Some 100 }
    ensures earlier { by_act (Some (armed (arming 100 0))) (Some (armed (arming 90 1))) (Some 100) ≡ Some 90 }
    ensures gone { by_act (Some (armed (arming 100 0))) None (Some 100) ≡ None }
    ensures over { by_act (Some (armed (arming 100 0))) (Some elapsed) (Some 100) ≡ None }
    ensures before { by_clock 0 63 (Some (armed (arming 130 0))) (Some 100) ≡ Some 100 }
    ensures at_start { by_clock 0 64 (Some (armed (arming 130 0))) (Some 100) ≡ Some 130 }
    ensures fired { by_clock 0 130 (Some (armed (arming 130 0))) (Some 100) ≡ None }
{}
