// Calls of the system that are repeated while a signal interrupts them.
ghost use Rattle.std.specs.Prelude.{◌≡◌, ◌<◌, ◌≤◌, ◌↔◌, ◌⊎◌, IfOk, OnErr, IsSome, IsTrue, take, length};
ghost use Rattle.std.specs.Io.KnownBytes.{Keeps, Appends, Consumes, IsAtEnd};
ghost use Rattle.mono_text.specs.Environment.{HasCause, HasRisen};

use crate::sink::SinkFault;
use crate::source::SourceFault;
use std::io::{self, ErrorKind, Read, Write};

/// Returns whether a call that ended with an error of this kind is repeated after `tries` tries. An interrupted call is
/// repeated up to 1,000 times.
pub fn is_tried_again(kind: ErrorKind, tries: u64) -> bool
    ensures { IsTrue result ↔ (kind ≡ ErrorKind.Interrupted) × (tries < 1000) }
{
    kind == ErrorKind::Interrupted && tries < 1000
}

/// Returns whether a write that took `n` of `len` bytes succeeded. A write that takes no byte of some has failed.
pub fn has_taken(n: usize, len: usize) -> bool
    ensures { IsTrue result ↔ (0 < n) ⊎ (len ≡ 0) }
{
    0 < n || len == 0
}

/// Reads once, and again after each interruption that `is_tried_again` allows. It returns the end of the input only if
/// the reader is there, and a read that failed has moved nothing.
pub fn read_again<R: Read>(reader: &mut R, buffer: &mut [u8]) -> io::Result<usize>
    ensures within { IfOk result (λ n. n ≤ length buffer.old) }
    ensures bytes { IfOk result (λ n. Consumes (R.remaining reader.old) (R.remaining reader.new) (take n buffer.new)) }
    ensures end { IfOk result (λ n. n ≡ 0 → 0 < length buffer.old → IsAtEnd (R.remaining reader.new)) }
    ensures failed { OnErr result (Keeps (R.remaining reader.old) (R.remaining reader.new)) }
{
    let mut tries = 0u64;
    'tries: loop {
        match reader.read(buffer) {
            Ok(n) => return Ok(n),
            Err(error) => {
                if !is_tried_again(error.kind(), tries) {
                    return Err(error);
                }
            }
        }
        tries += 1;
    }
}

/// Writes once, and again after each interruption that `is_tried_again` allows. A write that failed has taken nothing.
pub fn write_again<W: Write>(writer: &mut W, piece: &[u8]) -> io::Result<usize>
    ensures within { IfOk result (λ n. n ≤ length piece.now) }
    ensures bytes { IfOk result (λ n. Appends (W.contents writer.old) (W.contents writer.new) (take n piece.now)) }
    ensures failed { OnErr result (Keeps (W.contents writer.old) (W.contents writer.new)) }
{
    let mut tries = 0u64;
    'tries: loop {
        match writer.write(piece) {
            Ok(n) => return Ok(n),
            Err(error) => {
                if !is_tried_again(error.kind(), tries) {
                    return Err(error);
                }
            }
        }
        tries += 1;
    }
}

/// How often a reader or writer has failed, and the system's error of the last failure.
#[derive(Drop)]
pub(crate) struct Failures {
    pub(crate) count: u64,
    pub(crate) error: Option<io::Error>,
}

impl Failures {
    /// Returns no failures.
    pub(crate) fn new() -> Failures
        ensures { result.count ≡ 0 }
    {
        Failures {
            count: 0,
            error: None,
        }
    }

    // Counts one more failure, with this error.
    fn add(&mut self, error: Option<io::Error>)
        ensures count { (self.old.count ≤ self.new.count) × HasRisen self.old.count self.new.count }
        ensures error { self.new.error ≡ error }
    {
        self.count = self.count.saturating_add(1);
        self.error = error;
    }
}

/// Reads as [`read_again`] does, and counts a read that failed (`cause`), with its error (`error`). It returns 0 for a
/// buffer that is not empty only at the end of the input (`end`).
pub(crate) fn read_counted<R: Read>(
    reader: &mut R,
    failures: &mut Failures,
    buffer: &mut [u8],
) -> Result<usize, SourceFault>
    ensures within { IfOk result (λ n. n ≤ length buffer.old) }
    ensures bytes { IfOk result (λ n. Consumes (R.remaining reader.old) (R.remaining reader.new) (take n buffer.new)) }
    ensures end { IfOk result (λ n. n ≡ 0 → 0 < length buffer.old → IsAtEnd (R.remaining reader.new)) }
    ensures failed { OnErr result (Keeps (R.remaining reader.old) (R.remaining reader.new)) }
    ensures cause { HasCause failures.old.count failures.new.count result }
    ensures error { OnErr result (IsSome failures.new.error) }
{
    match read_again(reader, buffer) {
        Ok(n) => Ok(n),
        Err(error) => {
            failures.add(Some(error));
            Err(SourceFault)
        }
    }
}

/// Writes as [`write_again`] does, and counts a write that failed (`cause`), or that took no byte of some (`some`). Such a
/// write has taken nothing (`failed`).
pub(crate) fn write_counted<W: Write>(
    writer: &mut W,
    failures: &mut Failures,
    piece: &[u8],
) -> Result<usize, SinkFault>
    ensures within { IfOk result (λ n. n ≤ length piece.now) }
    ensures some { IfOk result (λ n. 0 < length piece.now → 0 < n) }
    ensures bytes { IfOk result (λ n. Appends (W.contents writer.old) (W.contents writer.new) (take n piece.now)) }
    ensures failed { OnErr result (Keeps (W.contents writer.old) (W.contents writer.new)) }
    ensures cause { HasCause failures.old.count failures.new.count result }
{
    match write_again(writer, piece) {
        Ok(n) => {
            if has_taken(n, piece.len()) {
                return Ok(n);
            }
            failures.add(None);
        }
        Err(error) => failures.add(Some(error)),
    }
    Err(SinkFault)
}
