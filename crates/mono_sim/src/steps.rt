// What a step of a world does, and how a run of it ends.
ghost use Rattle.std.specs.Prelude.{◌≡◌};
ghost use Rattle.mono_sim.specs.Endings.{end_of};

use mono_rt::RunError;

/// What a step of a world did.
#[derive(Clone, Copy, Debug, PartialEq, Eq)]
pub enum Step {
    /// A runtime ran: its number, and the answer of its `run_until`. `Driver` says that a call of its driver failed.
    Ran(usize, Result<(), RunError>),
    /// A runtime was drawn, and stood still.
    Stood(usize),
    /// A round of the unfinished runtimes began.
    Round,
    /// The clock moved to the next expiration, and a round began.
    Moved,
    /// Nothing: each main task has finished.
    Over,
    /// Nothing: no runtime can go on, and none waits for the clock.
    Stuck,
}

/// How a run of a world ended.
#[derive(Clone, Copy, Debug, PartialEq, Eq)]
pub enum End {
    /// Each main task has finished.
    Over,
    /// No runtime can go on, and none waits for the clock.
    Stuck,
    /// All steps were made.
    Steps,
}

impl Step {
    /// Returns how a run of the world ends with this step, if it does.
    pub fn end(&self) -> Option<End>
        ensures { result ≡ end_of self.now }
    {
        match self {
            Step::Over => Some(End::Over),
            Step::Stuck => Some(End::Stuck),
            _ => None,
        }
    }
}
