// Outputs and wakers by their numbers, and the one error of a job.
ghost use Rattle.std.specs.Prelude.{◌≡◌, ℕ};

/// A waker with a number, by which a contract identifies the waker that comes back.
pub trait Wakes {
    ghost waker_number: { Self → ℕ };

    /// Returns the waker's number, the same at each call.
    fn number(&self) -> u64
        ensures { result ≡ waker_number self.now };
}

/// An output with a number, which shows that an output is that of its pair.
pub trait Outcome {
    ghost output_number: { Self → ℕ };

    /// Returns the output's number, the same at each call.
    fn number(&self) -> u64
        ensures { result ≡ output_number self.now };
}

/// The reason why a job has no output.
#[derive(Clone, Copy, Debug, PartialEq, Eq)]
pub enum JoinError {
    /// The job was dropped before it was done.
    Canceled,
}

impl Outcome for u64 {
    ghost output_number = { λ n. n };

    fn number(&self) -> u64 {
        *self
    }
}

impl Outcome for () {
    ghost output_number = { λ _. 0 };

    fn number(&self) -> u64 {
        0
    }
}

impl Outcome for bool {
    ghost use Rattle.mono_joinword.specs.Numbers.{bool_number};

    ghost output_number = { bool_number };

    fn number(&self) -> u64 {
        if *self { 1 } else { 0 }
    }
}
