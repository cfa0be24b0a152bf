// Why a call on a source or a sink failed.
ghost use Rattle.std.specs.Prelude.{◌≡◌, ◌↔◌, IsTrue};
ghost use Rattle.lease_server.specs.Causes.{IsBrokenPipe};

use mono_text::{ReadSource, WriteSink};
use std::io::{self, ErrorKind, Read, Write};

/// A source or a sink that keeps the system's error of its last call that failed, if there is one.
pub trait Explains {
    /// Whether the last call that failed met a closed pipe.
    ghost closed: { Self → Type 0 };

    /// Returns the system's error of the last call that failed, if the system gave one.
    fn error(&self) -> Option<&io::Error>;

    /// Returns whether the last call that failed met a closed pipe: nobody reads what would be written.
    fn is_closed(&self) -> bool
        ensures { IsTrue result ↔ closed self.now };
}

impl<R: Read + Drop> Explains for ReadSource<R> {
    ghost closed = { λ _. ⊥ };

    fn error(&self) -> Option<&io::Error> {
        ReadSource::error(self)
    }

    fn is_closed(&self) -> bool {
        false
    }
}

impl<W: Write + Drop> Explains for WriteSink<W> {
    ghost use Rattle.lease_server.specs.Causes.{IsBrokenPipe};

    ghost closed = { λ sink. IsBrokenPipe sink.failures.error };

    fn error(&self) -> Option<&io::Error> {
        WriteSink::error(self)
    }

    fn is_closed(&self) -> bool {
        match WriteSink::error(self) {
            Some(error) => error.kind() == ErrorKind::BrokenPipe,
            None => false,
        }
    }
}
