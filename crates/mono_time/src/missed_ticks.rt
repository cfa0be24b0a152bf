// The behavior of an interval after missed ticks.
ghost use Rattle.std.specs.Prelude.{◌≡◌};
ghost use Rattle.mono_time.specs.declared.missed_ticks.MissedTickBehavior.TheVariants.{Burst};

/// The behavior of an [`crate::Interval`] once a tick was polled more than 5 ms after its deadline.
#[derive(Clone, Copy, Debug, PartialEq, Eq)]
pub enum MissedTickBehavior {
    /// The next tick is a period after the missed one, so that ticks follow at once until none is missing.
    Burst,
    /// The next tick is a period after now.
    Delay,
    /// The next tick is the first one after now that is in step with the earlier ones.
    Skip,
}

impl Default for MissedTickBehavior {
    ghost is_default = { λ b. b ≡ Burst };

    fn default() -> MissedTickBehavior {
        MissedTickBehavior::Burst
    }
}
