// The words of a load.
ghost use Rattle.std.specs.Prelude.{IfSome, IfNone, map, string_bytes};
ghost use Rattle.mono_script.specs.Command.{IsCommand, IsNoLoad};

use crate::command::Command;
use crate::words::numbers::two_numbers;

// Returns the load that the words spell, if they spell one.
pub(crate) fn read_load(words: &Vec<String>) -> Option<Command>
    ensures found { IfSome result (λ c. IsCommand (map string_bytes words.now.items) c) }
    ensures none { IfNone result (IsNoLoad (map string_bytes words.now.items)) }
{
    let (seed, count) = two_numbers(words, b"load".as_slice())?;
    if count > 100000 {
        return None;
    }
    Some(Command::Load(seed, count))
}
