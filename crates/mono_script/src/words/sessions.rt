// The words of the sessions.
ghost use Rattle.std.specs.Prelude.{IfSome, IfNone, map, string_bytes};
ghost use Rattle.mono_script.specs.Command.{IsCommand, IsNoSessions};

use crate::command::Command;
use crate::words::numbers::two_numbers;

// Returns the sessions that the words spell, if they spell any.
pub(crate) fn read_sessions(words: &Vec<String>) -> Option<Command>
    ensures found { IfSome result (λ c. IsCommand (map string_bytes words.now.items) c) }
    ensures none { IfNone result (IsNoSessions (map string_bytes words.now.items)) }
{
    let (sessions, entries) = two_numbers(words, b"sessions".as_slice())?;
    Some(Command::Sessions(sessions, entries))
}
