// The whole program, over its streams.
ghost use Rattle.std.specs.Prelude.{◌≡◌, ◌≢◌, ◌⊎◌, ℕ, IfErr, IfNone, IfOk, IfSome, drop, false, map, remove, string_bytes};
ghost use Rattle.std.specs.IoError.{error_kind};
ghost use Rattle.std.specs.Process.{exit_status};
ghost use Rattle.std.specs.declared.io.ErrorKind.TheVariants.{OutOfMemory};
ghost use Rattle.mono_script.specs.TopCall.{CarriesOut, view_of};
ghost use Rattle.mono_main.specs.Causes.{Notices, Says, TellsCause, TellsStatus, end_status};
ghost use Rattle.mono_main.specs.Exits.{Exits, FollowsLines, FollowsNone};
ghost use Rattle.mono_main.specs.Pages.{AsksNothing, IsAnsweredBy};
ghost use Rattle.mono_script.specs.Endings.{status_code};
ghost use Rattle.mono_script.specs.declared.ends.Status.{Status};

use crate::causes::{
    LONG_INPUT, WAITING, follow_complaint, tell, tell_end, tell_followed, tell_made, tell_status,
};
use crate::errors::Explains;
use crate::help::write_page;
use crate::threads::Joins;
use mono_model::Host;
use mono_script::{
    Clock, Ended, Sink, Source, Status, call_words, complaint, exit_code, explained,
    follow_command, joins_workers, reads_input, words_behind,
};
use std::alloc::Global;
use std::process::ExitCode;
use std::{format, io};

// Returns the first of the words, or an empty one if there is none.
fn first_word(words: &Vec<String>) -> &str {
    match words.first() {
        Some(word) => word.as_str(),
        None => "",
    }
}

// Returns whether the command of this name answers lines as they come.
fn can_follow(command: &str) -> bool {
    matches!(command, "replay" | "sessions" | "limiter" | "actors")
}

// Writes that the command awaits input if a person is at the terminal, and returns whether it did.
fn notice<E: Sink>(waits: bool, words: &Vec<String>, causes: &mut E) -> bool
    ensures unasked { waits ≡ false → result ≡ false }
    ensures noticed { Notices result (E.written causes.old) (E.written causes.new) (E.faults causes.old) (E.faults causes.new) }
{
    let is_due = waits && reads_input(words);
    if is_due {
        tell(causes, WAITING);
    }
    is_due
}

// Says why a call ended.
fn tell_call<S, K, E>(
    alloc: Global,
    words: &Vec<String>,
    ended: &Option<Ended>,
    source: &S,
    sink: &K,
    causes: &mut E,
)
where
    S: Source + Explains,
    K: Sink + Explains,
    E: Sink,
    ensures { TellsStatus (end_status ended.now) (K.closed sink.now) (E.written causes.old) (E.written causes.new) (E.faults causes.old) (E.faults causes.new) }
{
    match ended {
        Some(ended) => tell_end(alloc, first_word(words), ended, source, sink, causes),
        None => tell_made(causes, complaint(alloc, words)),
    }
}

// Carries out the command, joins the workers, and says why it ended.
fn carry_out<S, K, E, C, P, R>(
    rt: &R,
    alloc: Global,
    words: &Vec<String>,
    waits: bool,
    source: &mut S,
    sink: &mut K,
    causes: &mut E,
    clock: C,
    spawner: &mut P,
) -> u8
where
    S: Source + Explains,
    K: Sink + Explains,
    E: Sink,
    C: Clock + Drop,
    P: Joins,
    R: Host + Send + 'static,
    ensures carried { CarriesOut (map string_bytes words.now.items) (C.readings clock) (view_of (S.left source.old) (S.faults source.old) (K.written sink.old) (K.faults sink.old) (P.starts spawner.old)) (view_of (S.left source.new) (S.faults source.new) (K.written sink.new) (K.faults sink.new) (P.starts spawner.new)) result }
    ensures says { Says waits result (K.closed sink.new) (E.written causes.old) (E.written causes.new) (E.faults causes.old) (E.faults causes.new) }
    ensures joined { result ≢ 6 → P.running spawner.new ≡ 0 }
{
    notice(waits, words, causes);
    let ended = explained(rt, alloc, words, source, sink, clock, spawner);
    if joins_workers(&ended) {
        spawner.join(rt);
    }
    tell_call(alloc, words, &ended, source, sink, causes);
    exit_code(&ended)
}

// Answers each line as soon as it was read, and says why the command ended.
fn follow<S, K, E>(
    alloc: Global,
    words: &Vec<String>,
    waits: bool,
    source: &mut S,
    sink: &mut K,
    causes: &mut E,
) -> u8
where
    S: Source + Explains,
    K: Sink + Explains,
    E: Sink,
    ensures followed { (starts : ℕ) → let a = view_of (S.left source.old) (S.faults source.old) (K.written sink.old) (K.faults sink.old) starts in let b = view_of (S.left source.new) (S.faults source.new) (K.written sink.new) (K.faults sink.new) starts in FollowsLines (map string_bytes words.now.items) a b result ⊎ FollowsNone a b result }
    ensures says { Says waits result (K.closed sink.new) (E.written causes.old) (E.written causes.new) (E.faults causes.old) (E.faults causes.new) }
{
    let command = first_word(words);
    notice(waits && can_follow(command), words, causes);
    match follow_command(alloc, words, source, sink) {
        Some(ended) => {
            tell_followed(alloc, command, &ended, source, sink, causes);
            ended.status().code()
        }
        None => {
            tell_made(causes, follow_complaint(alloc, command, words));
            Status::Usage.code()
        }
    }
}

// Writes the page for which the words ask, and returns the number of its status. It returns None, and does nothing, if
// they ask for none.
fn show<S, K, E>(
    alloc: Global,
    words: &Vec<String>,
    waits: bool,
    source: &S,
    sink: &mut K,
    causes: &mut E,
) -> Option<u8>
where
    S: Source + Explains,
    K: Sink + Explains,
    E: Sink,
    ensures some { IfSome result (λ code. (s : Status) × (code ≡ status_code s) × IsAnsweredBy (map string_bytes words.now.items) (K.written sink.old) (K.written sink.new) (K.faults sink.old) (K.faults sink.new) s) }
    ensures says { IfSome result (λ code. Says waits code (K.closed sink.new) (E.written causes.old) (E.written causes.new) (E.faults causes.old) (E.faults causes.new)) }
    ensures none { IfNone result (AsksNothing (map string_bytes words.now.items) × (sink.new ≡ sink.old) × (causes.new ≡ causes.old)) }
{
    let status = write_page(sink, words)?;
    tell_status(alloc, status, LONG_INPUT, source, sink, causes);
    Some(status.code())
}

// Makes the call of these words, those after the program's name.
fn exit_of<S, K, E, C, P, R>(
    rt: &R,
    alloc: Global,
    words: Vec<String>,
    waits: bool,
    source: &mut S,
    sink: &mut K,
    causes: &mut E,
    clock: C,
    spawner: &mut P,
) -> u8
where
    S: Source + Explains,
    K: Sink + Explains,
    E: Sink,
    C: Clock + Drop,
    P: Joins,
    R: Host + Send + 'static,
    ensures exits { Exits (map string_bytes words.items) (map string_bytes (remove words.items 1)) (C.readings clock) (view_of (S.left source.old) (S.faults source.old) (K.written sink.old) (K.faults sink.old) (P.starts spawner.old)) (view_of (S.left source.new) (S.faults source.new) (K.written sink.new) (K.faults sink.new) (P.starts spawner.new)) result }
    ensures says { Says waits result (K.closed sink.new) (E.written causes.old) (E.written causes.new) (E.faults causes.old) (E.faults causes.new) }
    ensures joined { P.running spawner.old ≡ 0 → result ≢ 6 → P.running spawner.new ≡ 0 }
{
    if let Some(code) = show(alloc, &words, waits, source, sink, causes) {
        return code;
    }
    let call = call_words(words);
    if call.follows {
        return follow(alloc, &call.words, waits, source, sink, causes);
    }
    carry_out(
        rt,
        alloc,
        &call.words,
        waits,
        source,
        sink,
        causes,
        clock,
        spawner,
    )
}

// Says that the words cannot be read, and returns the status: 6 if memory ran out, else 2.
fn unread<E: Sink>(alloc: Global, error: &io::Error, causes: &mut E) -> u8
    ensures memory { error_kind error.now ≡ OutOfMemory → result ≡ 6 }
    ensures other { error_kind error.now ≢ OutOfMemory → result ≡ 2 }
    ensures told { TellsCause (E.written causes.old) (E.written causes.new) (E.faults causes.old) (E.faults causes.new) }
{
    tell_made(
        causes,
        format!(in alloc; "the words can't be read: {error}"),
    );
    match error.kind() {
        io::ErrorKind::OutOfMemory => Status::OutOfMemory.code(),
        _ => Status::Usage.code(),
    }
}

/// Does all that the program does, and returns the exit code with which `main` ends. `called` are the words of its call, with
/// its name first. `waits` says whether a person is at the terminal. The answer goes to `sink`, and each cause to
/// `causes`.
///
/// It makes one of three calls (`Exits`, `specs/Exits`): it writes the page for which the words ask, or answers each
/// line as soon as it was read if the second word is `--follow`, or carries out the command. The code's number is
/// that of the call's status.
///
/// `says` ties the causes to the number: nothing is said of 0, or of a closed pipe, and each other status has a line. A
/// write of a cause that fails changes no status. Unless memory ran out, no thread of the spawner is left running
/// (`joined`). Words that the system does not give exit with 6 or 2, and nothing is read, written or started (`memory`,
/// `other`, `untouched`).
pub fn exits<S, K, E, C, P, R>(
    rt: &R,
    alloc: Global,
    called: io::Result<Vec<String>>,
    waits: bool,
    source: &mut S,
    sink: &mut K,
    causes: &mut E,
    clock: C,
    spawner: &mut P,
) -> ExitCode
where
    S: Source + Explains,
    K: Sink + Explains,
    E: Sink,
    C: Clock + Drop,
    P: Joins,
    R: Host + Send + 'static,
    ensures exits { IfOk called (λ all. Exits (map string_bytes (drop 1 all.items)) (map string_bytes (remove (drop 1 all.items) 1))
        (C.readings clock) (view_of (S.left source.old) (S.faults source.old) (K.written sink.old) (K.faults sink.old) (P.starts spawner.old))
        (view_of (S.left source.new) (S.faults source.new) (K.written sink.new) (K.faults sink.new) (P.starts spawner.new)) (exit_status result)) }
    ensures says { IfOk called (λ _. Says waits (exit_status result) (K.closed sink.new) (E.written causes.old) (E.written causes.new) (E.faults causes.old) (E.faults causes.new)) }
    ensures joined { P.running spawner.old ≡ 0 → exit_status result ≢ 6 → P.running spawner.new ≡ 0 }
    ensures memory { IfErr called (λ error. error_kind error ≡ OutOfMemory → exit_status result ≡ 6) }
    ensures other { IfErr called (λ error. error_kind error ≢ OutOfMemory → exit_status result ≡ 2) }
    ensures told { IfErr called (λ _. TellsCause (E.written causes.old) (E.written causes.new) (E.faults causes.old) (E.faults causes.new)) }
    ensures untouched { IfErr called (λ _. (source.new ≡ source.old) × (sink.new ≡ sink.old) × (spawner.new ≡ spawner.old)) }
{
    match called {
        Ok(all) => {
            let words = words_behind(all);
            ExitCode::from(exit_of(
                rt, alloc, words, waits, source, sink, causes, clock, spawner,
            ))
        }
        Err(error) => ExitCode::from(unread(alloc, &error, causes)),
    }
}
