// A block of bytes that were read and are not taken yet.
ghost use Rattle.std.specs.Prelude.{◌≡◌, ◌+◌, ◌≤◌, length, take, drop, IfOk, OnErr};
ghost use Rattle.mono_text.specs.Environment.{HasCause, Reads};

use mono_text::{Source, SourceFault};

// Reads once to the part of the buffer from this place on.
fn read_from<S: Source>(
    source: &mut S,
    buffer: &mut [u8],
    place: usize,
) -> Result<usize, SourceFault>
    requires { place ≤ length buffer.old }
    ensures front { take place buffer.new ≡ take place buffer.old }
    ensures within { IfOk result (λ count. place + count ≤ length buffer.old) }
    ensures bytes { IfOk result (λ count. Reads (S.left source.old) (S.left source.new) (drop place buffer.new) count) }
    ensures none { OnErr result (S.left source.new ≡ S.left source.old) }
    ensures cause { HasCause (S.faults source.old) (S.faults source.new) result }
{
    source.read(&mut buffer[place..])
}

/// A buffer of a fixed length. Its bytes from `start` up to `end` were read and are not taken yet: its rest.
#[derive(Drop)]
pub struct Block {
    buffer: Vec<u8>,
    start: usize,
    end: usize,
    ghost is_within: { (start ≤ end) × (end ≤ length buffer.items) },
}

impl Block {
    ghost use Rattle.std.specs.Prelude.{◌<◌, ◌↔◌, true, false, [], IsTrue};
    ghost use Rattle.lease_server.specs.Blocks.{rest_of, size_of, HasTaken, IsAtEnd};

    /// Returns a block over this buffer, with no rest.
    pub fn new(buffer: Vec<u8>) -> Block
        ensures rest { rest_of result ≡ [] }
        ensures size { size_of result ≡ length buffer.items }
    {
        Block {
            buffer,
            start: 0,
            end: 0,
        }
    }

    /// Returns how many bytes the block can hold.
    pub fn size(&self) -> usize
        ensures { result ≡ size_of self.now }
    {
        self.buffer.len()
    }

    /// Returns whether no byte can be read after the rest.
    pub fn is_full(&self) -> bool
        ensures { IsTrue result ↔ (size_of self.now ≤ self.now.end) }
    {
        self.end >= self.buffer.len()
    }

    /// Returns the rest.
    #[inline(always)]
    pub fn rest(&self) -> &[u8]
        ensures { result.now ≡ rest_of self.now }
    {
        &self.buffer[self.start..self.end]
    }

    /// Takes this many bytes from the front of the rest.
    #[inline(always)]
    pub fn skip(&mut self, count: usize)
        requires { count ≤ length (rest_of self.old) }
        ensures rest { rest_of self.new ≡ drop count (rest_of self.old) }
        ensures size { size_of self.new ≡ size_of self.old }
    {
        self.start += count;
    }

    /// Reads once, and appends the bytes to the rest. Returns how many. 0 is the end of the input, unless the block is
    /// full. A failed read leaves the rest.
    pub fn read<S: Source>(&mut self, source: &mut S) -> Result<usize, SourceFault>
        ensures read { IfOk result (λ count. HasTaken (S.left source.old) (rest_of self.old) count (S.left source.new) (rest_of self.new)) }
        ensures end { IfOk result (λ count. self.old.end < size_of self.old → count ≡ 0 → IsAtEnd (S.left source.new)) }
        ensures fault { OnErr result ((rest_of self.new ≡ rest_of self.old) × (S.left source.new ≡ S.left source.old)) }
        ensures cause { HasCause (S.faults source.old) (S.faults source.new) result }
        ensures size { size_of self.new ≡ size_of self.old }
    {
        let count = read_from(source, &mut self.buffer, self.end)?;
        self.end += count;
        Ok(count)
    }

    // Moves the rest to the front of the buffer.
    fn move_to_front(&mut self)
        ensures rest { rest_of self.new ≡ rest_of self.old }
        ensures front { self.new.start ≡ 0 }
        ensures size { size_of self.new ≡ size_of self.old }
    {
        let count = self.end - self.start;
        if self.start > 0 {
            self.buffer.copy_within(self.start..self.end, 0);
        }
        self.start = 0;
        self.end = count;
    }

    /// Moves the rest to the front of the buffer, and drops it if it fills the buffer. Returns whether it was dropped.
    pub fn keep_rest(&mut self) -> bool
        ensures kept { result ≡ false → rest_of self.new ≡ rest_of self.old }
        ensures dropped { result ≡ true → (rest_of self.new ≡ []) × (size_of self.old ≤ length (rest_of self.old)) }
        ensures size { size_of self.new ≡ size_of self.old }
    {
        self.move_to_front();
        if !self.is_full() {
            return false;
        }
        self.end = 0;
        true
    }
}
