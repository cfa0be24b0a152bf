// The sink of an output.
ghost use Rattle.std.specs.Prelude.{◌≡◌, ℕ, ◌<◌, ◌≤◌, Option, List, length, drop, IfOk, OnErr, OnOk};
ghost use Rattle.mono_text.specs.Environment.{HasCause, Writes, HasWritten, HasWrittenPrefix};

/// A write that failed. No byte was taken, and the sink's count of faults rose.
#[derive(Clone, Copy, Debug, PartialEq, Eq)]
pub struct SinkFault;

/// A sink of bytes.
///
/// A sink has a count of faults, and may expose which bytes were written.
pub trait Sink {
    /// how often a write has failed; it never falls, and a count of 2^64 - 1 counts as risen
    ghost faults: { Self → ℕ };

    /// the bytes that were written, if the sink exposes them
    ghost written: { Self → Option (List ℕ) };

    /// Takes bytes from the front of the piece and returns how many: at least one if the piece is not empty. It fails
    /// only if the count of faults rose in this call, and without a failure the count stays (`cause`). After a failure
    /// no byte was taken (`none`).
    fn write(&mut self, piece: &[u8]) -> Result<usize, SinkFault>
        ensures within { IfOk result (λ n. n ≤ length piece.now) }
        ensures some { IfOk result (λ n. 0 < length piece.now → 0 < n) }
        ensures bytes { IfOk result (λ n. Writes (written self.old) (written self.new) piece.now n) }
        ensures none { OnErr result (written self.new ≡ written self.old) }
        ensures cause { HasCause (faults self.old) (faults self.new) result };
}

#[inline(always)]
fn rest_of(bytes: &[u8], done: usize) -> &[u8]
    requires { done ≤ length bytes.now }
    ensures { result.now ≡ drop done bytes.now }
{
    &bytes[done..]
}

/// Writes all the bytes, in the writes that the sink takes. After a fault a beginning of the bytes was written.
pub fn write_all<K: Sink>(sink: &mut K, bytes: &[u8]) -> Result<(), SinkFault>
    ensures ok { OnOk result (HasWritten (K.written sink.old) (K.written sink.new) bytes.now) }
    ensures some { OnErr result (HasWrittenPrefix (K.written sink.old) (K.written sink.new) bytes.now) }
    ensures cause { HasCause (K.faults sink.old) (K.faults sink.new) result }
{
    let mut done = 0usize;
    while done < bytes.len() {
        done += sink.write(rest_of(bytes, done))?;
    }
    Ok(())
}
