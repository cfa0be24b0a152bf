// The words of a replay.
ghost use Rattle.std.specs.Prelude.{IfSome, IfNone, map, string_bytes};
ghost use Rattle.mono_script.specs.Command.{IsCommand, IsNoReplay};

use crate::command::Command;
use crate::words::limits::strategy_and_limits;

// Returns the replay that the words spell, if they spell one.
pub(crate) fn read_replay(words: &Vec<String>) -> Option<Command>
    ensures found { IfSome result (λ c. IsCommand (map string_bytes words.now.items) c) }
    ensures none { IfNone result (IsNoReplay (map string_bytes words.now.items)) }
{
    let (limits, blocking) = strategy_and_limits(words, b"replay".as_slice())?;
    Some(Command::Replay(limits, blocking))
}
