// The error of a passed deadline, and the reasons why a timeout did not answer its value.
ghost use Rattle.std.specs.Prelude.{◌≡◌, Some, codes};
ghost use Rattle.std.specs.IoError.{error_kind};
ghost use Rattle.std.specs.declared.io.ErrorKind.TheVariants.{TimedOut};

use crate::{Error, SleepError};
use std::{fmt, io};

/// The deadline came before the value was ready.
#[derive(Debug, PartialEq, Eq, Drop)]
pub struct Elapsed;

impl fmt::Display for Elapsed {
    ghost output = { λ _. Some (codes "deadline has elapsed") };

    fn fmt<W: fmt::Write>(&self, f: &mut fmt::Formatter<W>) -> fmt::Result {
        write!(f, "deadline has elapsed")
    }
}

impl From<Elapsed> for io::Error {
    ghost from_gives = { λ _ e. error_kind e ≡ TimedOut };

    fn from(elapsed: Elapsed) -> io::Error {
        let Elapsed = elapsed;
        io::Error::new(io::ErrorKind::TimedOut, "deadline has elapsed")
    }
}

/// The reason why a timeout did not answer its value.
#[derive(Debug, PartialEq, Eq, Drop)]
pub enum TimeoutError {
    /// The deadline has come.
    Elapsed(Elapsed),
    /// The delay is no live sleep of the context.
    Timer(Error),
}

/// The reason why a timeout that makes its own delay did not answer its value.
#[derive(Debug, PartialEq, Eq, Drop)]
pub enum LateError {
    /// The duration has elapsed.
    Elapsed(Elapsed),
    /// The context refused the delay, or it is no live sleep there.
    Sleep(SleepError),
}
