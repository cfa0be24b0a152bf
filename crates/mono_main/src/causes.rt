// What the program says on standard error, by the status with which it ends.
ghost use Rattle.std.specs.Prelude.{◌≡◌, ◌⊎◌, OnErr, OnOk};
ghost use Rattle.mono_script.specs.Follows.{status_of_end};
ghost use Rattle.mono_text.specs.Environment.{HasCause, HasWritten, HasWrittenPrefix};
ghost use Rattle.mono_script.specs.declared.ends.Status.TheVariants as status;
ghost use Rattle.mono_main.specs.Causes.{cause_line, Told, TellsCause, TellsStatus};

use crate::errors::Explains;
use mono_script::{
    Ended, FollowedCommand, Sink, SinkFault, Source, Status, complaint, failure_sentence,
    line_sentence, write_all,
};
use std::alloc::{AllocError, Global};
use std::{format, io};

/// The cause if an allocation failed.
pub(crate) const NO_MEMORY: &str = "out of memory";

/// The cause if a run has no place for its main task.
const NO_PLACE: &str = "there is no place for the main task: the script's limit of tasks is 0";

/// The cause if an input is too long.
pub(crate) const LONG_INPUT: &str = "the input has more than 16777216 bytes";

/// The cause if a line of a command that follows is too long.
pub(crate) const LONG_LINE: &str = "a line has more than 16777216 bytes";

/// The notice for a person at a terminal.
pub(crate) const WAITING: &str =
    "reading lines from standard input; end with ^D at the beginning of a line";

// Writes a line with the cause.
#[tactic(auto, using(crate::proofs::CauseLemmas::written_both))]
fn write_cause<E: Sink>(causes: &mut E, cause: &str) -> Result<(), SinkFault>
    ensures ok { OnOk result (HasWritten (E.written causes.old) (E.written causes.new) (cause_line cause.now)) }
    ensures some { OnErr result (HasWrittenPrefix (E.written causes.old) (E.written causes.new) (cause_line cause.now)) }
    ensures cause { HasCause (E.faults causes.old) (E.faults causes.new) result }
{
    write_all(causes, b"monoio: ")?;
    write_all(causes, cause.as_bytes())?;
    write_all(causes, b"\n")
}

/// Writes a line with the cause. A cause that cannot be written changes no status.
pub(crate) fn tell<E: Sink>(causes: &mut E, cause: &str)
    ensures { Told (cause_line cause.now) (E.written causes.old) (E.written causes.new) (E.faults causes.old) (E.faults causes.new) }
{
    match write_cause(causes, cause) {
        Ok(()) => {}
        Err(_) => {}
    }
}

/// Writes a line with the cause that was made, or that memory ran out.
pub(crate) fn tell_made<E: Sink>(causes: &mut E, cause: Result<String, AllocError>)
    ensures { TellsCause (E.written causes.old) (E.written causes.new) (E.faults causes.old) (E.faults causes.new) }
{
    match cause {
        Ok(cause) => tell(causes, cause.as_str()),
        Err(_) => tell(causes, NO_MEMORY),
    }
}

// Returns what failed, with the system's error if there is one.
fn system_text(alloc: Global, what: &str, error: Option<&io::Error>) -> Result<String, AllocError> {
    match error {
        Some(error) => format!(in alloc; "{what}: {error}"),
        None => String::from_str(alloc, what),
    }
}

/// Writes why standard output cannot be written. It writes nothing for a closed pipe.
pub(crate) fn tell_unwritten<K: Sink + Explains, E: Sink>(alloc: Global, causes: &mut E, sink: &K)
    ensures { TellsStatus status.WriteFault (K.closed sink.now) (E.written causes.old) (E.written causes.new) (E.faults causes.old) (E.faults causes.new) }
{
    if !sink.is_closed() {
        let what = "standard output can't be written";
        tell_made(causes, system_text(alloc, what, sink.error()));
    }
}

/// Writes the cause of a status that says it all: of each but a bad line, a journal that is no run, and a spent budget.
/// `long` is the cause of what is too long.
pub(crate) fn tell_status<S: Source + Explains, K: Sink + Explains, E: Sink>(
    alloc: Global,
    status: Status,
    long: &str,
    source: &S,
    sink: &K,
    causes: &mut E,
)
    requires { (long.now ≡ LONG_INPUT.now) ⊎ (long.now ≡ LONG_LINE.now) }
    ensures { TellsStatus status (K.closed sink.now) (E.written causes.old) (E.written causes.new) (E.faults causes.old) (E.faults causes.new) }
{
    match status {
        Status::Done => {}
        Status::ReadFault => {
            let what = "standard input can't be read";
            tell_made(causes, system_text(alloc, what, source.error()));
        }
        Status::WriteFault => tell_unwritten(alloc, causes, sink),
        Status::Capacity => tell(causes, NO_PLACE),
        Status::TooLong => tell(causes, long),
        Status::OutOfMemory => tell(causes, NO_MEMORY),
        Status::Usage => tell(causes, "the words are no command"),
        Status::BadLine => tell(causes, "a line says nothing of the command"),
        Status::Turns => tell(causes, SPENT),
        Status::NotARun => tell(causes, "the journal is no run"),
    }
}

/// The cause if a run has spent its budget.
const SPENT: &str = "the run had no turn left; the output is what it did";

// Returns the fault of the first bad line of the command.
fn bad_line_text(alloc: Global, command: &str, ended: &Ended) -> Result<String, AllocError> {
    match (ended.bad_line(), ended.fault()) {
        (Some(line), Some(fault)) => line_sentence(alloc, command, line, &fault),
        _ => String::from_str(alloc, "a line says nothing of the command"),
    }
}

// Returns where and why a journal is no run.
fn failure_text(alloc: Global, ended: &Ended) -> Result<String, AllocError> {
    match ended.failure(alloc)? {
        Some(failure) => failure_sentence(alloc, &failure),
        None => String::from_str(alloc, "the journal is no run"),
    }
}

// Returns that the budget was spent, and a line for each live task with the sources for which it waits.
fn turns_text(alloc: Global, ended: &Ended) -> Result<String, AllocError> {
    let mut text = String::from_str(alloc, SPENT)?;
    for wait in ended.waits() {
        let line = format!(in alloc; "\nmonoio: {wait}")?;
        text.push_str(line.as_str())?;
    }
    Ok(text)
}

/// Writes why a command ended.
pub(crate) fn tell_end<S: Source + Explains, K: Sink + Explains, E: Sink>(
    alloc: Global,
    command: &str,
    ended: &Ended,
    source: &S,
    sink: &K,
    causes: &mut E,
)
    ensures { TellsStatus ended.now.status (K.closed sink.now) (E.written causes.old) (E.written causes.new) (E.faults causes.old) (E.faults causes.new) }
{
    match ended.status() {
        Status::BadLine => tell_made(causes, bad_line_text(alloc, command, ended)),
        Status::NotARun => tell_made(causes, failure_text(alloc, ended)),
        Status::Turns => tell_made(causes, turns_text(alloc, ended)),
        status => tell_status(alloc, status, LONG_INPUT, source, sink, causes),
    }
}

// Returns the fault of the line at which a command that follows ended.
fn followed_text(
    alloc: Global,
    command: &str,
    ended: &FollowedCommand,
) -> Result<String, AllocError> {
    match ended.fault() {
        Some(fault) => line_sentence(alloc, command, ended.line(), &fault),
        None => String::from_str(alloc, "the input ends within a line"),
    }
}

/// Writes why a command that follows ended.
pub(crate) fn tell_followed<S: Source + Explains, K: Sink + Explains, E: Sink>(
    alloc: Global,
    command: &str,
    ended: &FollowedCommand,
    source: &S,
    sink: &K,
    causes: &mut E,
)
    ensures { TellsStatus (status_of_end ended.now.followed.end) (K.closed sink.now) (E.written causes.old) (E.written causes.new) (E.faults causes.old) (E.faults causes.new) }
{
    match ended.status() {
        Status::BadLine => tell_made(causes, followed_text(alloc, command, ended)),
        status => tell_status(alloc, status, LONG_LINE, source, sink, causes),
    }
}

/// Returns why the words of a command that follows are wrong.
pub(crate) fn follow_complaint(
    alloc: Global,
    command: &str,
    words: &Vec<String>,
) -> Result<String, AllocError> {
    match command {
        "run" | "load" | "check" => String::from_str(
            alloc,
            "--follow goes with replay, sessions, limiter and actors alone",
        ),
        _ => complaint(alloc, words),
    }
}
