// The law of a load.
ghost use Rattle.std.specs.Prelude.{◌≡◌, ℕ};
ghost use Rattle.mono_replay.specs.Load.{IsSummary};
ghost use Rattle.mono_replay.specs.declared.loads.Summary.{Summary};

/// Shows that a seed and a count have one summary: no sleep of a load is moved, so its reports are determined.
pub fn one_summary()
    ensures { (seed count : ℕ) (s t : Summary) → IsSummary seed count s → IsSummary seed count t → s ≡ t }
{}
