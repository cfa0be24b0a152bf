// A source and a sink in memory that never fail.
ghost use Rattle.std.specs.Prelude.{◌≡◌, ◌<◌, ◌≤◌, Some, IfOk, OnErr, length, take, drop, min};
ghost use Rattle.mono_text.specs.Environment.{HasCause, Reads};

use crate::sink::{Sink, SinkFault};
use crate::source::{Source, SourceFault};
use std::marker::Model;

/// A source of bytes in memory, which it exposes. It never fails: its count of faults is always 0.
#[derive(Drop)]
pub struct PlainSource {
    bytes: Vec<u8>,
    at: usize,
}

impl Model for PlainSource {
    ghost use Rattle.std.specs.Prelude.{List, ℕ, drop, length, ◌≤◌};

    ghost Value = { List ℕ };

    ghost view = { λ source. drop source.at source.bytes.items };

    ghost invariant = { λ source. source.at ≤ length source.bytes.items };
}

impl PlainSource {
    /// Returns a source with these bytes left.
    pub fn new(bytes: Vec<u8>) -> PlainSource
        ensures { result ≡ bytes.items }
    {
        PlainSource { bytes, at: 0 }
    }
}

// Copies the bytes that both have room for, and returns how many.
pub(crate) fn copied(from: &[u8], to: &mut [u8]) -> usize
    ensures count { result ≡ min (length from.now) (length to.old) }
    ensures bytes { take result to.new ≡ take result from.now }
{
    let n = from.len().min(to.len());
    to[..n].copy_from_slice(&from[..n]);
    n
}

impl Source for PlainSource {
    ghost use Rattle.std.specs.Prelude.{Some};

    ghost faults = { λ source. 0 };

    ghost left = { λ source. Some source };

    /// Fills the buffer as far as the bytes go (`all`).
    fn read(&mut self, buffer: &mut [u8]) -> Result<usize, SourceFault>
        ensures within { IfOk result (λ n. n ≤ length buffer.old) }
        ensures bytes { IfOk result (λ n. Reads (Some self.old) (Some self.new) buffer.new n) }
        ensures none { OnErr result (self.new ≡ self.old) }
        ensures cause { HasCause 0 0 result }
        ensures all { IfOk result (λ n. n ≡ min (length self.old) (length buffer.old)) }
    {
        let n = copied(&self.bytes[self.at..], buffer);
        self.at += n;
        Ok(n)
    }
}

/// A sink that takes every byte, keeps none and exposes none. It never fails: its count of faults is always 0.
#[derive(Drop)]
pub struct PlainSink;

impl PlainSink {
    /// Returns a sink that forgets each byte.
    pub fn new() -> PlainSink {
        PlainSink
    }
}

impl Sink for PlainSink {
    ghost use Rattle.std.specs.Prelude.{None};

    ghost faults = { λ sink. 0 };

    ghost written = { λ sink. None };

    /// Takes the whole piece (`all`).
    fn write(&mut self, piece: &[u8]) -> Result<usize, SinkFault>
        ensures within { IfOk result (λ n. n ≤ length piece.now) }
        ensures some { IfOk result (λ n. 0 < length piece.now → 0 < n) }
        ensures cause { HasCause 0 0 result }
        ensures all { IfOk result (λ n. n ≡ length piece.now) }
    {
        Ok(piece.len())
    }
}
