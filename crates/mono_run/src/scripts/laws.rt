// Facts about the definitions alone.
ghost use Rattle.std.specs.Prelude.{◌≡◌, ◌<◌, ◌≤◌, ◌+◌, ◌++◌, ◌∷◌, [], List, ℕ, length, map};
ghost use Rattle.mono_machine.specs.declared.events.Limits.{Limits};
ghost use Rattle.mono_text.specs.LineText.{FitLimits};
ghost use Rattle.mono_text.specs.Lines.{Line, lines};
ghost use Rattle.mono_run.specs.declared.scripts.body.BodyLine.{BodyLine};
ghost use Rattle.mono_run.specs.LineOrder.{MayFollow, front_texts};
ghost use Rattle.mono_run.specs.Script.{Kind, Script, AreSoundKinds, AllMayStand};
ghost use Rattle.mono_run.specs.ScriptText.{Spells, IsFirstBad, ended, task_lines};

/// Shows that an input that spells a script has no first bad line.
pub fn a_script_has_no_bad_line()
    ensures { (input : List ℕ) (s : Script) (n : ℕ) → Spells input s → IsFirstBad input n → ⊥ }
{}

/// Shows that at most one line is the first bad one.
pub fn one_line_is_the_first()
    ensures { (input : List ℕ) (m n : ℕ) → IsFirstBad input m → IsFirstBad input n → m ≡ n }
{}

/// Shows that, after the limits, whole kinds and the front of one more, all of them sound, a line that may not follow
/// is the first bad one, for each rest of the input.
pub fn what_may_not_follow_is_bad()
    ensures { (input : List ℕ) (x : Limits) (ks : List Kind) (bs : List BodyLine) (l : Line) (rest : List Line) → FitLimits x →
        AreSoundKinds (task_lines (lines input)) ks → AllMayStand (task_lines (lines input)) [] bs → length ks < 64 → length bs ≤ 127 →
        lines input ≡ map ended (front_texts x ks bs) ++ l ∷ rest → (MayFollow (task_lines (lines input)) bs l → ⊥) →
        IsFirstBad input (length (map ended (front_texts x ks bs)) + 1) }
{}
