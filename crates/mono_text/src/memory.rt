// A source and a sink in memory, whose calls can be made to fail.
ghost use Rattle.std.specs.Prelude.{◌≡◌, ◌+◌, ◌≤◌, ◌<◌, ◌++◌, Some, length, IfOk, OnErr, vec_capacity};
ghost use Rattle.mono_text.specs.Environment.{HasCause, Reads, Writes};
ghost use Rattle.mono_text.specs.Memory.{Feed, Store, IsRead, IsWrite, counted, new_feed, new_store};

use crate::plain::copied;
use crate::sink::{Sink, SinkFault};
use crate::source::{Source, SourceFault};
use std::alloc::{AllocError, Global};
use std::marker::Model;

// Returns the count with one more call or fault; it ends at 2^64 - 1.
fn count_one(count: u64) -> u64
    ensures { result ≡ counted count }
{
    count.saturating_add(1)
}

/// A source of bytes in memory, which it exposes. The calls whose number is listed fail; they are counted from 0.
#[derive(Drop)]
pub struct MemSource {
    bytes: Vec<u8>,
    at: usize,
    failing: Vec<u64>,
    calls: u64,
    faults: u64,
}

impl Model for MemSource {
    ghost use Rattle.std.specs.Prelude.{drop, length, ◌≤◌};
    ghost use Rattle.mono_text.specs.Memory.{Feed, feed_of};

    ghost Value = { Feed };

    ghost view = { λ source. feed_of (drop source.at source.bytes.items) source.failing.items source.calls source.faults };

    ghost invariant = { λ source. source.at ≤ length source.bytes.items };
}

impl MemSource {
    /// Returns a source with these bytes left, whose calls with these numbers will fail.
    pub fn new(bytes: Vec<u8>, failing: Vec<u64>) -> MemSource
        ensures { result ≡ new_feed bytes.items failing.items }
    {
        MemSource {
            bytes,
            at: 0,
            failing,
            calls: 0,
            faults: 0,
        }
    }
}

impl Source for MemSource {
    ghost use Rattle.std.specs.Prelude.{Some};

    ghost faults = { λ source. source.faults };

    ghost left = { λ source. Some source.left };

    fn read(&mut self, buffer: &mut [u8]) -> Result<usize, SourceFault>
        ensures within { IfOk result (λ n. n ≤ length buffer.old) }
        ensures bytes { IfOk result (λ n. Reads (Some self.old.left) (Some self.new.left) buffer.new n) }
        ensures none { OnErr result (Some self.new.left ≡ Some self.old.left) }
        ensures cause { HasCause self.old.faults self.new.faults result }
        ensures exact { IsRead self.old self.new buffer.old buffer.new result }
    {
        let fails = self.failing.contains(&self.calls);
        self.calls = count_one(self.calls);
        if fails {
            self.faults = count_one(self.faults);
            return Err(SourceFault);
        }
        let n = copied(&self.bytes[self.at..], buffer);
        self.at += n;
        Ok(n)
    }
}

/// A sink that keeps and exposes the written bytes, up to a room of `room` bytes.
///
/// The calls whose number is listed fail, counted from 0, and so do those that have bytes to write and find no room. It
/// takes no memory after it was made.
#[derive(Drop)]
pub struct MemSink {
    bytes: Vec<u8>,
    room: usize,
    failing: Vec<u64>,
    calls: u64,
    faults: u64,
}

impl Model for MemSink {
    ghost use Rattle.std.specs.Prelude.{vec_capacity, length, ◌≤◌};
    ghost use Rattle.mono_text.specs.Memory.{Store, store_of};

    ghost Value = { Store };

    ghost view = { λ sink. store_of sink.bytes.items sink.room sink.failing.items sink.calls sink.faults };

    ghost invariant = { λ sink. (length sink.bytes.items ≤ sink.room) × (sink.room ≤ vec_capacity sink.bytes) };
}

impl MemSink {
    /// Returns an empty sink with this room, whose calls with these numbers will fail. Its room is all the memory that
    /// it takes.
    pub fn new(alloc: Global, room: usize, failing: Vec<u64>) -> Result<MemSink, AllocError>
        ensures { IfOk result (λ sink. sink ≡ new_store room failing.items) }
    {
        let bytes = Vec::with_capacity(alloc, room)?;
        Ok(MemSink {
            bytes,
            room,
            failing,
            calls: 0,
            faults: 0,
        })
    }

    /// Returns the bytes that were written.
    pub fn bytes(&self) -> &[u8]
        ensures { result.now ≡ self.now.written }
    {
        &self.bytes
    }
}

// Appends the bytes, for which there is room.
fn append(to: &mut Vec<u8>, piece: &[u8])
    requires { length to.old.items + length piece.now ≤ vec_capacity to.old }
    ensures items { to.new.items ≡ to.old.items ++ piece.now }
    ensures capacity { vec_capacity to.old ≤ vec_capacity to.new }
{
    let Ok(()) = to.extend_from_slice(piece) else {
        unreachable!()
    };
}

impl Sink for MemSink {
    ghost use Rattle.std.specs.Prelude.{Some};

    ghost faults = { λ sink. sink.faults };

    ghost written = { λ sink. Some sink.written };

    fn write(&mut self, piece: &[u8]) -> Result<usize, SinkFault>
        ensures within { IfOk result (λ n. n ≤ length piece.now) }
        ensures some { IfOk result (λ n. 0 < length piece.now → 0 < n) }
        ensures bytes { IfOk result (λ n. Writes (Some self.old.written) (Some self.new.written) piece.now n) }
        ensures none { OnErr result (Some self.new.written ≡ Some self.old.written) }
        ensures cause { HasCause self.old.faults self.new.faults result }
        ensures exact { IsWrite self.old self.new piece.now result }
    {
        let fails = self.failing.contains(&self.calls);
        let n = piece.len().min(self.room - self.bytes.len());
        self.calls = count_one(self.calls);
        if fails || (n == 0 && !piece.is_empty()) {
            self.faults = count_one(self.faults);
            return Err(SinkFault);
        }
        append(&mut self.bytes, &piece[..n]);
        Ok(n)
    }
}
