// The errors of a run of a main task.
ghost use Rattle.std.specs.Prelude.{Some};
ghost use Rattle.mono_rt.specs.ErrorTexts.{text_of};

use std::fmt;

/// The reasons for which a runtime returns no output of its main task.
#[derive(Clone, Copy, Debug, PartialEq, Eq)]
pub enum RunError {
    /// An allocation failed.
    Memory,
    /// The limit of live tasks is reached, or the numbers are used up.
    AtCapacity,
    /// The driver failed.
    Driver,
    /// The budget is spent.
    Turns,
}

impl fmt::Display for RunError {
    ghost output = { λ e. Some (text_of e) };

    fn fmt<W: fmt::Write>(&self, f: &mut fmt::Formatter<W>) -> fmt::Result {
        match self {
            RunError::Memory => write!(f, "out of memory"),
            RunError::AtCapacity => write!(f, "no place for the main task"),
            RunError::Driver => write!(f, "the driver failed"),
            RunError::Turns => write!(f, "the turns were spent"),
        }
    }
}
