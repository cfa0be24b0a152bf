// The words of a limiter.
ghost use Rattle.std.specs.Prelude.{IfSome, IfNone, map, string_bytes};
ghost use Rattle.mono_script.specs.Command.{IsCommand, IsNoLimiter};

use crate::command::Command;
use crate::words::numbers::two_numbers;

// Returns the limiter that the words spell, if they spell one.
pub(crate) fn read_limiter(words: &Vec<String>) -> Option<Command>
    ensures found { IfSome result (λ c. IsCommand (map string_bytes words.now.items) c) }
    ensures none { IfNone result (IsNoLimiter (map string_bytes words.now.items)) }
{
    let (buckets, retries) = two_numbers(words, b"limiter".as_slice())?;
    Some(Command::Limiter(buckets, retries))
}
