// The source of an input.
ghost use Rattle.std.specs.Prelude.{◌≡◌, ℕ, ◌<◌, ◌≤◌, Option, List, [], length, take, IfOk, OnErr, OnOk, IsErrOf, vec_len};
ghost use Rattle.mono_text.specs.Environment.{HasCause, HasRisen, Reads, HasReadAll, IsLongerThan};

use std::alloc::{AllocError, Global};

/// A read that failed. No byte was moved, and the source's count of faults rose.
#[derive(Clone, Copy, Debug, PartialEq, Eq)]
pub struct SourceFault;

/// A source of bytes.
///
/// A source has a count of faults, and may expose which bytes it has left.
pub trait Source {
    /// how often a read has failed; it never falls, and a count of 2^64 - 1 counts as risen
    ghost faults: { Self → ℕ };

    /// the bytes that are left, if the source exposes them
    ghost left: { Self → Option (List ℕ) };

    /// Moves the next bytes to the front of the buffer and returns how many. 0 for a buffer that is not empty is the
    /// end of the input. It fails only if the count of faults rose in this call, and without a failure the count stays
    /// (`cause`). After a failure no byte has moved (`none`).
    fn read(&mut self, buffer: &mut [u8]) -> Result<usize, SourceFault>
        ensures within { IfOk result (λ n. n ≤ length buffer.old) }
        ensures bytes { IfOk result (λ n. Reads (left self.old) (left self.new) buffer.new n) }
        ensures none { OnErr result (left self.new ≡ left self.old) }
        ensures cause { HasCause (faults self.old) (faults self.new) result };
}

/// The greatest number of bytes of an input, 2^24.
pub const MAX_INPUT: usize = 16777216;

/// How many bytes are read at a time.
pub(crate) const BLOCK: usize = 65536;

/// Why there is no input: out of memory, a read that failed, or more bytes than an input may have.
#[derive(Clone, Copy, Debug, PartialEq, Eq)]
pub enum InputError {
    Memory,
    Fault,
    TooLong,
}

impl From<AllocError> for InputError {
    ghost from_gives = { λ _ e. e ≡ InputError.Memory };

    ghost use Rattle.mono_text.specs.declared.source.InputError.TheVariants as InputError;

    fn from(_: AllocError) -> Self {
        InputError::Memory
    }
}

/// Returns a block of zeros. Its contract specifies its length alone, so that no proof computes the block.
pub(crate) fn zeros(alloc: Global, len: usize) -> Result<Vec<u8>, AllocError>
    ensures { IfOk result (λ block. length block.items ≡ len) }
{
    vec![in alloc; 0u8; len]
}

/// Returns the first bytes of a block.
#[inline(always)]
pub(crate) fn front_of(block: &[u8], n: usize) -> &[u8]
    requires { n ≤ length block.now }
    ensures { result.now ≡ take n block.now }
{
    &block[..n]
}

// Reads through the block to the end of the input, or past the greatest number of bytes.
fn fill<S: Source>(source: &mut S, block: &mut [u8], bytes: &mut Vec<u8>) -> Result<(), InputError>
    requires some { 0 < length block.old }
    requires empty { bytes.old.items ≡ [] }
    ensures ok { OnOk result (HasReadAll (S.left source.old) bytes.new.items (S.left source.new) × (vec_len bytes.new ≤ 16777216)) }
    ensures long { IsErrOf result InputError.TooLong → IsLongerThan 16777216 (S.left source.old) }
    ensures fault { IsErrOf result InputError.Fault → HasRisen (S.faults source.old) (S.faults source.new) }
    ensures later { S.faults source.old ≤ S.faults source.new }
    ensures stays { (IsErrOf result InputError.Fault → ⊥) → S.faults source.new ≡ S.faults source.old }
{
    while bytes.len() <= MAX_INPUT {
        let Ok(n) = source.read(block) else {
            return Err(InputError::Fault);
        };
        if n == 0 {
            return Ok(());
        }
        bytes.extend_from_slice(front_of(block, n))?;
    }
    Err(InputError::TooLong)
}

/// Returns all bytes that the source has left, at most 2^24, and reads them in blocks of 64 KiB.
pub fn read_all<S: Source>(alloc: Global, source: &mut S) -> Result<Vec<u8>, InputError>
    ensures ok { IfOk result (λ bytes. HasReadAll (S.left source.old) bytes.items (S.left source.new) × (vec_len bytes ≤ 16777216)) }
    ensures long { IsErrOf result InputError.TooLong → IsLongerThan 16777216 (S.left source.old) }
    ensures fault { IsErrOf result InputError.Fault → HasRisen (S.faults source.old) (S.faults source.new) }
    ensures later { S.faults source.old ≤ S.faults source.new }
    ensures stays { (IsErrOf result InputError.Fault → ⊥) → S.faults source.new ≡ S.faults source.old }
{
    let mut block = zeros(alloc, BLOCK)?;
    let mut bytes = Vec::new(alloc);
    fill(source, &mut block, &mut bytes)?;
    Ok(bytes)
}
