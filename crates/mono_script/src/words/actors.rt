// The words of actors.
ghost use Rattle.std.specs.Prelude.{IfSome, IfNone, map, string_bytes};
ghost use Rattle.mono_script.specs.Command.{IsCommand, IsNoActors};

use crate::command::Command;
use crate::words::numbers::two_numbers;

// Returns the limits of actors and messages that the words spell, if they spell any.
pub(crate) fn read_actors(words: &Vec<String>) -> Option<Command>
    ensures found { IfSome result (λ c. IsCommand (map string_bytes words.now.items) c) }
    ensures none { IfNone result (IsNoActors (map string_bytes words.now.items)) }
{
    let (actors, messages) = two_numbers(words, b"actors".as_slice())?;
    Some(Command::Actors(actors, messages))
}
