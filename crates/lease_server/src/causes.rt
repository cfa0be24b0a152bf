// What the program says on standard error, by the number with which it exits.
ghost use Rattle.std.specs.Prelude.{◌≡◌, OnErr, OnOk};
ghost use Rattle.mono_text.specs.Environment.{HasCause, HasWritten, HasWrittenPrefix};
ghost use Rattle.lease_server.specs.Causes.{cause_line, Told, TellsCause, TellsUnwritten, TellsEnd};

use crate::complaints::complaint;
use crate::errors::Explains;
use mono_text::{Sink, SinkFault, Source, write_all};
use std::alloc::{AllocError, Global};
use std::{format, io};

/// The cause if memory ran out.
const NO_MEMORY: &str = "out of memory";

/// The cause if no thread could be made.
const NO_THREAD: &str = "a thread can't be made";

/// The notice for a person at a terminal.
pub const WAITING: &str =
    "reading requests from standard input; end with ^D at the beginning of a line";

// Writes a line with the cause.
#[tactic(auto, using(crate::proofs::CauseLemmas::written_both))]
fn write_cause<E: Sink>(causes: &mut E, cause: &str) -> Result<(), SinkFault>
    ensures ok { OnOk result (HasWritten (E.written causes.old) (E.written causes.new) (cause_line cause.now)) }
    ensures some { OnErr result (HasWrittenPrefix (E.written causes.old) (E.written causes.new) (cause_line cause.now)) }
    ensures cause { HasCause (E.faults causes.old) (E.faults causes.new) result }
{
    write_all(causes, b"lease_server: ")?;
    write_all(causes, cause.as_bytes())?;
    write_all(causes, b"\n")
}

/// Writes a line with the cause. A cause that cannot be written changes no status.
pub fn tell<E: Sink>(causes: &mut E, cause: &str)
    ensures { Told (cause_line cause.now) (E.written causes.old) (E.written causes.new) (E.faults causes.old) (E.faults causes.new) }
{
    match write_cause(causes, cause) {
        Ok(()) => {}
        Err(_) => {}
    }
}

/// Writes a line with the cause that was made, or that memory ran out.
pub fn tell_made<E: Sink>(causes: &mut E, cause: Result<String, AllocError>)
    ensures { TellsCause (E.written causes.old) (E.written causes.new) (E.faults causes.old) (E.faults causes.new) }
{
    match cause {
        Ok(cause) => tell(causes, cause.as_str()),
        Err(_) => tell(causes, NO_MEMORY),
    }
}

// Returns what failed, with the system's error if there is one.
fn system_text(alloc: Global, what: &str, error: Option<&io::Error>) -> Result<String, AllocError> {
    match error {
        Some(error) => format!(in alloc; "{what}: {error}"),
        None => String::from_str(alloc, what),
    }
}

// Writes why standard output cannot be written. It writes nothing for a closed pipe.
fn tell_unwritten<K: Sink + Explains, E: Sink>(alloc: Global, causes: &mut E, sink: &K)
    ensures { TellsUnwritten (K.closed sink.now) (E.written causes.old) (E.written causes.new) (E.faults causes.old) (E.faults causes.new) }
{
    if !sink.is_closed() {
        let what = "standard output can't be written";
        tell_made(causes, system_text(alloc, what, sink.error()));
    }
}

// Writes why standard input cannot be read.
fn tell_unread<S: Source + Explains, E: Sink>(alloc: Global, causes: &mut E, source: &S)
    ensures { TellsCause (E.written causes.old) (E.written causes.new) (E.faults causes.old) (E.faults causes.new) }
{
    let what = "standard input can't be read";
    tell_made(causes, system_text(alloc, what, source.error()));
}

/// Writes why the program exits with this number, called with these words. It writes nothing for 0.
pub fn tell_end<S: Source + Explains, K: Sink + Explains, E: Sink>(
    alloc: Global,
    words: &[String],
    code: u8,
    source: &S,
    sink: &K,
    causes: &mut E,
)
    ensures { TellsEnd code (K.closed sink.now) (E.written causes.old) (E.written causes.new) (E.faults causes.old) (E.faults causes.new) }
{
    if code == 0 {
        return;
    }
    if code == 2 {
        tell_made(causes, complaint(alloc, words));
        return;
    }
    if code == 4 {
        tell_unread(alloc, causes, source);
        return;
    }
    if code == 5 {
        tell_unwritten(alloc, causes, sink);
        return;
    }
    if code == 7 {
        tell(causes, NO_THREAD);
        return;
    }
    tell(causes, NO_MEMORY);
}
