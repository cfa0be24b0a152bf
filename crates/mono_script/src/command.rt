// The commands, and how words become one.
ghost use Rattle.std.specs.Prelude.{IfSome, IfNone, map, string_bytes};
ghost use Rattle.mono_script.specs.Command.{IsCommand, IsNoCommand};

use crate::words::actors::read_actors;
use crate::words::check::{read_check, read_whole};
use crate::words::limiter::read_limiter;
use crate::words::load::read_load;
use crate::words::replay::read_replay;
use crate::words::run::read_run;
use crate::words::sessions::read_sessions;
use mono_machine::Limits;
use mono_replay::Blocking;

/// A command.
#[derive(Clone, Copy)]
pub enum Command {
    /// A replay with these limits, and this strategy for blocking jobs.
    Replay(Limits, Blocking),
    /// A run of a script with this many workers, and a budget of this many turns.
    Run(u64, u64),
    /// The load of this seed and count.
    Load(u64, u64),
    /// Sessions: at most how many may be open, and at most how many entries all queues have.
    Sessions(u64, u64),
    /// A limiter: at most how many buckets there are, and at most how many retries live at a time.
    Limiter(u64, u64),
    /// Calls on actors: at most how many live, and at most how many messages wait.
    Actors(u64, u64),
    /// A check of a journal, with these limits and this strategy: whether it is a run.
    Check(Limits, Blocking),
    /// A check of a whole journal: whether calls of `block_on` leave it.
    CheckWhole(Limits, Blocking),
}

// Returns the command that the words spell, if they spell one.
pub(crate) fn read_command(words: &Vec<String>) -> Option<Command>
    ensures found { IfSome result (λ c. IsCommand (map string_bytes words.now.items) c) }
    ensures none { IfNone result (IsNoCommand (map string_bytes words.now.items)) }
{
    if let Some(command) = read_replay(words) {
        return Some(command);
    }
    if let Some(command) = read_run(words) {
        return Some(command);
    }
    if let Some(command) = read_load(words) {
        return Some(command);
    }
    if let Some(command) = read_sessions(words) {
        return Some(command);
    }
    if let Some(command) = read_limiter(words) {
        return Some(command);
    }
    if let Some(command) = read_actors(words) {
        return Some(command);
    }
    if let Some(command) = read_check(words) {
        return Some(command);
    }
    read_whole(words)
}
