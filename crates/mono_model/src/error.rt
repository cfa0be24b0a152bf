// Why a call on a sleep is refused.
ghost use Rattle.std.specs.Prelude.{◌≡◌, Some};
ghost use Rattle.mono_model.specs.Texts.{text_of, is_shutdown_error, is_at_capacity_error, is_invalid_error};

use std::fmt;

/// The reason why the timers refuse a call.
#[derive(Clone, Copy, Debug, PartialEq, Eq)]
pub enum Error {
    /// There are no timers, or no live sleep has the number.
    Shutdown,
    /// No further sleep is given out.
    AtCapacity,
    /// The deadline is past the last instant.
    Invalid,
}

impl Error {
    /// Returns the error for missing timers, or for a number that no live sleep has.
    pub fn shutdown() -> Error
        ensures { result ≡ Error.Shutdown }
    {
        Error::Shutdown
    }

    /// Returns the error for a sleep that is refused because no further one is given out.
    pub fn at_capacity() -> Error
        ensures { result ≡ Error.AtCapacity }
    {
        Error::AtCapacity
    }

    /// Returns the error for a deadline past the last instant.
    pub fn invalid() -> Error
        ensures { result ≡ Error.Invalid }
    {
        Error::Invalid
    }

    /// Returns whether this is [`Error::shutdown`].
    pub fn is_shutdown(&self) -> bool
        ensures { result ≡ is_shutdown_error self.now }
    {
        match self {
            Error::Shutdown => true,
            Error::AtCapacity => false,
            Error::Invalid => false,
        }
    }

    /// Returns whether this is [`Error::at_capacity`].
    pub fn is_at_capacity(&self) -> bool
        ensures { result ≡ is_at_capacity_error self.now }
    {
        match self {
            Error::Shutdown => false,
            Error::AtCapacity => true,
            Error::Invalid => false,
        }
    }

    /// Returns whether this is [`Error::invalid`].
    pub fn is_invalid(&self) -> bool
        ensures { result ≡ is_invalid_error self.now }
    {
        match self {
            Error::Shutdown => false,
            Error::AtCapacity => false,
            Error::Invalid => true,
        }
    }
}

impl fmt::Display for Error {
    ghost output = { λ e. Some (text_of e) };

    fn fmt<W: fmt::Write>(&self, f: &mut fmt::Formatter<W>) -> fmt::Result {
        match self {
            Error::Shutdown => write!(
                f,
                "the timer is shutdown, must be called from the context of Monoio runtime"
            ),
            Error::AtCapacity => { write!(f, "timer is at capacity and cannot create a new entry") }
            Error::Invalid => write!(f, "timer duration exceeds maximum duration"),
        }
    }
}

/// The reason why no sleep was made.
#[derive(Clone, Copy, Debug, PartialEq, Eq)]
pub enum SleepError {
    /// An allocation failed.
    Memory,
    /// The timers refuse.
    Timer(Error),
}
