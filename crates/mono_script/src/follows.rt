// Commands whose lines are answered as soon as they were read.
ghost use Rattle.std.specs.Prelude.{◌≡◌, IfSome, IfNone, IfOk, OnErr, map, string_bytes};
ghost use Rattle.std.specs.Option.{option_map};
ghost use Rattle.mono_text.specs.ReasonTexts.{told};
ghost use Rattle.mono_text.specs.declared.followers.FollowEnd.TheVariants as end;
ghost use Rattle.mono_script.specs.Command.{IsCommand};
ghost use Rattle.mono_script.specs.Follows.{FollowsAs, status_of_end};
ghost use Rattle.mono_script.specs.LineWords.{fault_at};

use crate::command::{Command, read_command};
use crate::ends::Status;
use crate::line_words::fault;
use crate::replay::follow_replay;
use mono_lines::actor::follow_actors;
use mono_lines::limit::follow_limiter;
use mono_lines::session::follow_sessions;
use mono_text::{Fault, FollowEnd, Followed, Sink, Source};
use std::alloc::{AllocError, Global};

/// The end of a command whose lines were answered as soon as they were read.
#[derive(Drop)]
pub struct FollowedCommand {
    pub(crate) command: Command,
    pub(crate) followed: Followed,
}

// Returns the status of an end.
fn status_of(end: FollowEnd) -> Status
    ensures { result ≡ status_of_end end }
{
    match end {
        FollowEnd::Done => Status::Done,
        FollowEnd::BadLine => Status::BadLine,
        FollowEnd::ReadFault => Status::ReadFault,
        FollowEnd::WriteFault => Status::WriteFault,
        FollowEnd::OutOfMemory => Status::OutOfMemory,
        FollowEnd::TooLong => Status::TooLong,
    }
}

impl FollowedCommand {
    /// Returns the status.
    pub fn status(&self) -> Status
        ensures { result ≡ status_of_end self.now.followed.end }
    {
        status_of(self.followed.end)
    }

    /// Returns the number of the line after those that were answered, counted from 1; it ends at 2^64 - 1.
    pub fn line(&self) -> usize {
        self.followed.lines.saturating_add(1) as usize
    }

    /// Returns the fault of the first line that was not answered, by its bytes alone.
    pub fn fault(&self) -> Option<Fault>
        ensures { option_map told result ≡ fault_at self.now.command self.now.followed.rest.items 1 }
    {
        fault(self.command, &self.followed.rest, 1)
    }
}

// Returns an end before anything was read.
fn without_memory(alloc: Global) -> Followed
    ensures { result.end ≡ end.OutOfMemory }
{
    Followed {
        end: FollowEnd::OutOfMemory,
        lines: 0,
        rest: Vec::new(alloc),
    }
}

// Returns the end of the command, or that there was no memory to begin.
fn followed_of(
    alloc: Global,
    command: Command,
    followed: Result<Followed, AllocError>,
) -> FollowedCommand
    ensures command { result.command ≡ command }
    ensures some { IfOk followed (λ f. result.followed ≡ f) }
    ensures none { OnErr followed (result.followed.end ≡ end.OutOfMemory) }
{
    match followed {
        Ok(followed) => FollowedCommand { command, followed },
        Err(_) => FollowedCommand {
            command,
            followed: without_memory(alloc),
        },
    }
}

/// Carries out the command that the words spell, and answers each line of the source as soon as it was read. The bytes
/// written are the answers to lines at the front of the input. It returns None if the words are no command, or a
/// command whose lines are answered together; then nothing is read or written.
pub fn follow_command<S: Source, K: Sink>(
    alloc: Global,
    words: &Vec<String>,
    source: &mut S,
    sink: &mut K,
) -> Option<FollowedCommand>
    ensures command { IfSome result (λ f. IsCommand (map string_bytes words.now.items) f.command) }
    ensures followed { IfSome result (λ f. FollowsAs f.command f.followed.end f.followed.rest.items (S.left source.old) (S.left source.new) (K.written sink.old) (K.written sink.new)) }
    ensures none { IfNone result ((S.left source.new ≡ S.left source.old) × (K.written sink.new ≡ K.written sink.old)) }
{
    match read_command(words)? {
        Command::Replay(limits, blocking) => Some(followed_of(
            alloc,
            Command::Replay(limits, blocking),
            follow_replay(alloc, limits, blocking, source, sink),
        )),
        Command::Sessions(sessions, entries) => Some(followed_of(
            alloc,
            Command::Sessions(sessions, entries),
            follow_sessions(alloc, sessions, entries, source, sink),
        )),
        Command::Limiter(buckets, retries) => Some(followed_of(
            alloc,
            Command::Limiter(buckets, retries),
            follow_limiter(alloc, buckets, retries, source, sink),
        )),
        Command::Actors(actors, messages) => Some(followed_of(
            alloc,
            Command::Actors(actors, messages),
            follow_actors(alloc, actors, messages, source, sink),
        )),
        Command::Run(_, _) | Command::Load(_, _) => None,
        Command::Check(_, _) | Command::CheckWhole(_, _) => None,
    }
}
