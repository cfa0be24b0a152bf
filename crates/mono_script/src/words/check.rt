// The words of a check, and of a check of a whole journal.
ghost use Rattle.std.specs.Prelude.{IfSome, IfNone, map, string_bytes};
ghost use Rattle.mono_script.specs.Command.{IsCommand, IsNoCheck, IsNoWhole};

use crate::command::Command;
use crate::words::limits::{behind_flag, strategy_and_limits};

// Returns the check that the words spell, if they spell one.
pub(crate) fn read_check(words: &Vec<String>) -> Option<Command>
    ensures found { IfSome result (λ c. IsCommand (map string_bytes words.now.items) c) }
    ensures none { IfNone result (IsNoCheck (map string_bytes words.now.items)) }
{
    let (limits, blocking) = strategy_and_limits(words, b"check".as_slice())?;
    Some(Command::Check(limits, blocking))
}

// Returns the check of a whole journal that the words spell, if they spell one.
pub(crate) fn read_whole(words: &Vec<String>) -> Option<Command>
    ensures found { IfSome result (λ c. IsCommand (map string_bytes words.now.items) c) }
    ensures none { IfNone result (IsNoWhole (map string_bytes words.now.items)) }
{
    let (limits, blocking) = behind_flag(words, b"check".as_slice(), b"--whole".as_slice())?;
    Some(Command::CheckWhole(limits, blocking))
}
