// The statuses with which the program and its threads end.
ghost use Rattle.std.specs.Prelude.{◌≡◌, ◌<◌};

/// Each line was answered.
pub const DONE: u64 = 0;
/// The words are no numbers of cores and sizes.
pub const USAGE: u8 = 2;
/// A read failed.
pub const READ: u64 = 4;
/// A write failed.
pub const WRITE: u64 = 5;
/// Out of memory.
pub const MEMORY: u64 = 6;
/// No thread could be made.
pub const THREAD: u64 = 7;

/// Returns the first of two statuses that is not `DONE`.
pub fn worse(one: u64, two: u64) -> u64
    ensures { result ≡ 0 → (one ≡ 0) × (two ≡ 0) }
{
    if one == DONE { two } else { one }
}

/// Returns the exit status of the program.
pub fn code(status: u64) -> u8
    ensures done { result ≡ 0 → status ≡ 0 }
    ensures same { status < 256 → result ≡ status }
{
    u8::try_from(status).unwrap_or(u8::MAX)
}
