// Which words are a command that reads its input.
ghost use Rattle.std.specs.Prelude.{◌≡◌, ℕ, List, Option, map, string_bytes, false};
ghost use Rattle.mono_script.specs.Command.{IsCommand, IsNoCommand};
ghost use Rattle.mono_script.specs.declared.command.Command.{Command};
ghost use Rattle.mono_script.specs.Meanings.{meaning};

use crate::command::read_command;
use crate::top::reads;

/// Returns whether the words are a command that reads its input.
pub fn reads_input(words: &Vec<String>) -> bool
    ensures command { (c : Command) (readings : Option (List ℕ)) → IsCommand (map string_bytes words.now.items) c → result ≡ (meaning readings c).reads }
    ensures none { IsNoCommand (map string_bytes words.now.items) → result ≡ false }
{
    match read_command(words) {
        Some(command) => reads(command),
        None => false,
    }
}
