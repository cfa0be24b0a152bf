// The blocking jobs of a script.
ghost use Rattle.std.specs.Prelude.{◌≡◌};

use crate::drivers::ScriptUnpark;
use mono_blocking::Job;
use mono_joinword::Outcome;

/// A job that returns its number.
#[derive(Drop)]
pub struct ScriptJob {
    output: u64,
}

impl ScriptJob {
    /// Returns a job with this output.
    pub fn new(output: u64) -> ScriptJob
        ensures { result.output ≡ output }
    {
        ScriptJob { output }
    }
}

impl Outcome for ScriptJob {
    ghost output_number = { λ job. job.output };

    fn number(&self) -> u64 {
        self.output
    }
}

impl Job for ScriptJob {
    type Output = u64;

    type Unpark = ScriptUnpark;

    fn run(self) -> u64 {
        self.output
    }
}
