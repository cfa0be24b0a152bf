// The outputs of forms as numbers: a digit for each output of a part, in the written order.
use mono_combine::{Out, Out2, Out3, Out4, Out5};
use mono_forms::Either;
use mono_rt::{SleepError, TaskError};
use mono_sync::mpsc::SendError;
use std::alloc::AllocError;

/// An output that is printed as a number.
pub(crate) trait Digits {
    /// Returns the number.
    fn digits(self) -> u64;
}

// Returns the digits of the first number and then those of the second, which is one digit.
fn joined(first: u64, second: u64) -> u64 {
    first.saturating_mul(10).saturating_add(second)
}

impl Digits for () {
    fn digits(self) -> u64 {
        1
    }
}

impl Digits for u64 {
    fn digits(self) -> u64 {
        self
    }
}

impl Digits for SleepError {
    fn digits(self) -> u64 {
        9
    }
}

impl Digits for AllocError {
    fn digits(self) -> u64 {
        9
    }
}

impl Digits for TaskError {
    fn digits(self) -> u64 {
        8
    }
}

impl Digits for SendError<u64> {
    fn digits(self) -> u64 {
        9
    }
}

/// A value as it is, and an error after 400.
impl<X: Digits, E: Digits> Digits for Result<X, E> {
    fn digits(self) -> u64 {
        match self {
            Ok(x) => x.digits(),
            Err(error) => error.digits().saturating_add(400),
        }
    }
}

impl<X: Digits> Digits for Option<X> {
    fn digits(self) -> u64 {
        match self {
            Some(x) => x.digits(),
            None => 0,
        }
    }
}

impl<X: Digits, Y: Digits> Digits for (X, Y) {
    fn digits(self) -> u64 {
        joined(self.0.digits(), self.1.digits())
    }
}

impl<X: Digits + Drop> Digits for Vec<X> {
    fn digits(self) -> u64 {
        let mut digits = 0;
        for x in self {
            digits = joined(digits, x.digits());
        }
        digits
    }
}

impl<X: Digits, Y: Digits> Digits for Either<X, Y> {
    fn digits(self) -> u64 {
        match self {
            Either::Left(x) => joined(1, x.digits()),
            Either::Right(y) => joined(2, y.digits()),
        }
    }
}

impl<X: Digits, Y: Digits> Digits for Out2<X, Y> {
    fn digits(self) -> u64 {
        match self {
            Out2::First(x) => joined(1, x.digits()),
            Out2::Second(y) => joined(2, y.digits()),
            Out2::Disabled => 0,
        }
    }
}

impl<X: Digits, Y: Digits, Z: Digits> Digits for Out3<X, Y, Z> {
    fn digits(self) -> u64 {
        match self {
            Out3::First(x) => joined(1, x.digits()),
            Out3::Second(y) => joined(2, y.digits()),
            Out3::Third(z) => joined(3, z.digits()),
        }
    }
}

impl<X: Digits, Y: Digits, Z: Digits, U: Digits> Digits for Out4<X, Y, Z, U> {
    fn digits(self) -> u64 {
        match self {
            Out4::First(x) => joined(1, x.digits()),
            Out4::Second(y) => joined(2, y.digits()),
            Out4::Third(z) => joined(3, z.digits()),
            Out4::Fourth(u) => joined(4, u.digits()),
        }
    }
}

impl<X: Digits, Y: Digits, Z: Digits, U: Digits, V: Digits> Digits for Out5<X, Y, Z, U, V> {
    fn digits(self) -> u64 {
        match self {
            Out5::First(x) => joined(1, x.digits()),
            Out5::Second(y) => joined(2, y.digits()),
            Out5::Third(z) => joined(3, z.digits()),
            Out5::Fourth(u) => joined(4, u.digits()),
            Out5::Fifth(v) => joined(5, v.digits()),
        }
    }
}

/// The hundreds are the branch's number, from 1.
impl<X: Digits> Digits for Out<X> {
    fn digits(self) -> u64 {
        match self {
            Out::Picked(number, x) => (number as u64)
                .saturating_add(1)
                .saturating_mul(100)
                .saturating_add(x.digits()),
            Out::Disabled => 0,
        }
    }
}
