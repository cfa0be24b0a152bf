// Readers and writers as sources and sinks: standard input and output are two of them.
ghost use Rattle.std.specs.Prelude.{◌≡◌, ◌<◌, ◌≤◌, None, Some, IfNone, IfOk, IfSome, IsSome, OnErr, length, take};
ghost use Rattle.std.specs.Io.KnownBytes.{Appends, Consumes, IsAtEnd, Keeps};
ghost use Rattle.mono_text.specs.Environment.{HasCause};

use crate::sink::{Sink, SinkFault};
use crate::source::{Source, SourceFault};
use crate::tries::{Failures, read_counted, write_counted};
use std::io::{self, Read, Write};
use std::rt::{Stdin, Stdout};

/// A reader as a source. It exposes none of its bytes, and its count of faults starts at 0. A read that a signal
/// interrupts is repeated.
#[derive(Drop)]
pub struct ReadSource<R> {
    reader: R,
    failures: Failures,
}

/// Standard input as a source.
pub type StdinSource = ReadSource<Stdin>;

impl<R: Read + Drop> ReadSource<R> {
    /// Returns the source that reads this reader, such as `rt.stdin()`.
    pub fn new(reader: R) -> ReadSource<R>
        ensures reader { result.reader ≡ reader }
        ensures count { result.failures.count ≡ 0 }
    {
        ReadSource {
            reader,
            failures: Failures::new(),
        }
    }

    /// Returns the system's error of the last read that failed.
    pub fn error(&self) -> Option<&io::Error>
        ensures some { IfSome result (λ error. self.now.failures.error ≡ Some error.now) }
        ensures none { IfNone result (self.now.failures.error ≡ None) }
    {
        self.failures.error.as_ref()
    }
}

impl<R: Read + Drop> Source for ReadSource<R> {
    ghost use Rattle.std.specs.Prelude.{None};

    ghost faults = { λ source. source.failures.count };

    ghost left = { λ source. None };

    /// Returns what the reader's own read returned: the count of bytes that the reader gave up (`bytes`), which is 0
    /// for a buffer that is not empty only if the reader has no more (`end`). A read that failed is a fault: it moved
    /// nothing (`failed`), the count of faults rose (`cause`), and its error is kept (`error`).
    fn read(&mut self, buffer: &mut [u8]) -> Result<usize, SourceFault>
        ensures within { IfOk result (λ n. n ≤ length buffer.old) }
        ensures bytes { IfOk result (λ n. Consumes (R.remaining self.old.reader) (R.remaining self.new.reader) (take n buffer.new)) }
        ensures end { IfOk result (λ n. n ≡ 0 → 0 < length buffer.old → IsAtEnd (R.remaining self.new.reader)) }
        ensures failed { OnErr result (Keeps (R.remaining self.old.reader) (R.remaining self.new.reader)) }
        ensures cause { HasCause self.old.failures.count self.new.failures.count result }
        ensures error { OnErr result (IsSome self.new.failures.error) }
    {
        read_counted(&mut self.reader, &mut self.failures, buffer)
    }
}

/// A writer as a sink. It exposes none of its bytes, and its count of faults starts at 0.
///
/// A write that a signal interrupts is repeated. A write to a closed pipe fails as any other does, and so does a write
/// that takes no byte of a piece that is not empty.
#[derive(Drop)]
pub struct WriteSink<W> {
    writer: W,
    failures: Failures,
}

/// Standard output as a sink.
pub type StdoutSink = WriteSink<Stdout>;

impl<W: Write + Drop> WriteSink<W> {
    /// Returns the sink that writes to this writer, such as `rt.stdout()`.
    pub fn new(writer: W) -> WriteSink<W>
        ensures writer { result.writer ≡ writer }
        ensures count { result.failures.count ≡ 0 }
    {
        WriteSink {
            writer,
            failures: Failures::new(),
        }
    }

    /// Returns the system's error of the last write that failed; None if that write took no byte.
    pub fn error(&self) -> Option<&io::Error>
        ensures some { IfSome result (λ error. self.now.failures.error ≡ Some error.now) }
        ensures none { IfNone result (self.now.failures.error ≡ None) }
    {
        self.failures.error.as_ref()
    }
}

impl<W: Write + Drop> Sink for WriteSink<W> {
    ghost use Rattle.std.specs.Prelude.{None};

    ghost faults = { λ sink. sink.failures.count };

    ghost written = { λ sink. None };

    /// Returns what the writer's own write returned: the count of bytes that the writer took from the front of the piece
    /// (`bytes`), at least one of a piece that is not empty (`some`). A write that failed is a fault. The writer took
    /// nothing (`failed`), and the count of faults rose (`cause`).
    fn write(&mut self, piece: &[u8]) -> Result<usize, SinkFault>
        ensures within { IfOk result (λ n. n ≤ length piece.now) }
        ensures some { IfOk result (λ n. 0 < length piece.now → 0 < n) }
        ensures bytes { IfOk result (λ n. Appends (W.contents self.old.writer) (W.contents self.new.writer) (take n piece.now)) }
        ensures failed { OnErr result (Keeps (W.contents self.old.writer) (W.contents self.new.writer)) }
        ensures cause { HasCause self.old.failures.count self.new.failures.count result }
    {
        write_counted(&mut self.writer, &mut self.failures, piece)
    }
}
