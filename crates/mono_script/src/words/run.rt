// The words of a run.
ghost use Rattle.std.specs.Prelude.{IfSome, IfNone, map, string_bytes};
ghost use Rattle.mono_script.specs.Command.{IsCommand, IsNoRun};

use crate::command::Command;
use crate::words::numbers::two_numbers;

// Returns the run that the words spell, if they spell one.
pub(crate) fn read_run(words: &Vec<String>) -> Option<Command>
    ensures found { IfSome result (λ c. IsCommand (map string_bytes words.now.items) c) }
    ensures none { IfNone result (IsNoRun (map string_bytes words.now.items)) }
{
    let (workers, turns) = two_numbers(words, b"run".as_slice())?;
    if workers > 64 {
        return None;
    }
    if turns > 65536 {
        return None;
    }
    Some(Command::Run(workers, turns))
}
