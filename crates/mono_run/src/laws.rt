// Facts about the definitions alone.
ghost use Rattle.std.specs.Prelude.{◌≡◌, ◌↔◌, ℕ, List};
ghost use Rattle.mono_machine.specs.declared.events.Limits.{Limits};
ghost use Rattle.mono_run.specs.RunRecord.{Ran};
ghost use Rattle.mono_run.specs.declared.runs.RunEnd.{RunEnd};
ghost use Rattle.mono_run.specs.declared.runs.RunEnd.TheVariants as ran;

/// Shows that a run has no place for its main task if and only if the limit of tasks is 0, since nothing is made before
/// it.
pub fn only_a_limit_of_none_has_no_place()
    ensures { (limits : Limits) (turns : ℕ) (e : RunEnd) (output : List ℕ) → Ran limits turns e output → (e ≡ ran.Capacity ↔ limits.tasks ≡ 0) }
{}
