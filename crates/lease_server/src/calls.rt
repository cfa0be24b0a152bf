// The whole program, over its streams.
ghost use Rattle.std.specs.Prelude.{◌≡◌, ◌≢◌, ◌⊎◌, IfErr, IfNone, IfOk, IfSome, drop, false, map, string_bytes};
ghost use Rattle.std.specs.IoError.{error_kind};
ghost use Rattle.std.specs.Process.{exit_status};
ghost use Rattle.std.specs.declared.io.ErrorKind.TheVariants.{OutOfMemory};
ghost use Rattle.lease_server.specs.Pages.{Shows, page_text};
ghost use Rattle.lease_server.specs.Calls.{AsksNoPage, AsksPage, ExitsWith, Refuses, ServesWords, view_of};
ghost use Rattle.lease_server.specs.Causes.{Notices, Says, TellsCause};

use crate::arguments::settings_of;
use crate::causes::{WAITING, tell, tell_end, tell_made};
use crate::errors::Explains;
use crate::pages::{Page, page_of, write_page};
use crate::servers::serve;
use crate::status::{self, code};
use mono_rt::Host;
use mono_text::{Sink, Source};
use std::alloc::Global;
use std::process::ExitCode;
use std::{format, io};

/// What the program returns: the exit code with which `main` ends, the source and the sink.
#[derive(Drop)]
pub struct Exited<S, K> {
    pub code: ExitCode,
    pub source: S,
    pub sink: K,
}

// What a call returns: the number with which the program exits, the source and the sink.
#[derive(Drop)]
struct Called<S, K> {
    code: u8,
    source: S,
    sink: K,
}

// Returns the page for which the words ask.
fn page_of_words(words: &[String]) -> Option<Page>
    ensures some { IfSome result (AsksPage (map string_bytes words.now)) }
    ensures none { IfNone result (AsksNoPage (map string_bytes words.now)) }
{
    match words {
        [word] => page_of(word.as_str()),
        _ => None,
    }
}

// Makes the call of these words, those after the program's name.
fn call<R, S, K>(rt: R, alloc: Global, words: &[String], source: S, sink: K) -> Called<S, K>
where
    R: Host + Copy + Send + 'static,
    S: Source + Drop,
    K: Sink + Drop + Send + 'static,
    ensures { ExitsWith S.left S.faults K.written K.faults (map string_bytes words.now) source sink result.source result.sink result.code }
{
    match page_of_words(words) {
        Some(page) => show(page, source, sink),
        None => serve_words(rt, alloc, words, source, sink),
    }
}

// Serves with the settings that the words say, or refuses them.
fn serve_words<R, S, K>(rt: R, alloc: Global, words: &[String], source: S, sink: K) -> Called<S, K>
where
    R: Host + Copy + Send + 'static,
    S: Source + Drop,
    K: Sink + Drop + Send + 'static,
    requires { AsksNoPage (map string_bytes words.now) }
    ensures { let a = view_of (S.left source) (S.faults source) (K.written sink) (K.faults sink) in let b = view_of (S.left result.source) (S.faults result.source) (K.written result.sink) (K.faults result.sink) in ServesWords (map string_bytes words.now) a b result.code ⊎ Refuses (map string_bytes words.now) a b result.code }
{
    match settings_of(words) {
        Some(settings) => {
            let served = serve(rt, alloc, &settings, source, sink);
            Called {
                code: code(served.status),
                source: served.source,
                sink: served.sink,
            }
        }
        None => Called {
            code: status::USAGE,
            source,
            sink,
        },
    }
}

// Shows a page.
fn show<S, K: Sink>(page: Page, source: S, sink: K) -> Called<S, K>
    ensures shows { Shows (page_text page) (K.written sink) (K.written result.sink) (K.faults sink) (K.faults result.sink) result.code }
    ensures source { result.source ≡ source }
{
    let mut sink = sink;
    let status = write_page(&mut sink, page);
    Called {
        code: code(status),
        source,
        sink,
    }
}

// Returns whether a call with these words reads its input.
fn reads_input(words: &[String]) -> bool {
    page_of_words(words).is_none() && settings_of(words).is_some()
}

// Writes that the server awaits its input if a person is at the terminal, and returns whether it did.
fn notice<E: Sink>(waits: bool, words: &[String], causes: &mut E) -> bool
    ensures unasked { waits ≡ false → result ≡ false }
    ensures noticed { Notices result (E.written causes.old) (E.written causes.new) (E.faults causes.old) (E.faults causes.new) }
{
    let is_due = waits && reads_input(words);
    if is_due {
        tell(causes, WAITING);
    }
    is_due
}

// Makes the call of these words, those after the program's name, and says why it ended.
fn carry_out<R, S, K, E>(
    rt: R,
    alloc: Global,
    words: &[String],
    waits: bool,
    source: S,
    sink: K,
    causes: &mut E,
) -> Exited<S, K>
where
    R: Host + Copy + Send + 'static,
    S: Source + Explains + Drop,
    K: Sink + Explains + Drop + Send + 'static,
    E: Sink,
    ensures exits { ExitsWith S.left S.faults K.written K.faults (map string_bytes words.now) source sink result.source result.sink (exit_status result.code) }
    ensures says { Says waits (exit_status result.code) (K.closed result.sink) (E.written causes.old) (E.written causes.new) (E.faults causes.old) (E.faults causes.new) }
{
    notice(waits, words, causes);
    let called = call(rt, alloc, words, source, sink);
    tell_end(
        alloc,
        words,
        called.code,
        &called.source,
        &called.sink,
        causes,
    );
    Exited {
        code: ExitCode::from(called.code),
        source: called.source,
        sink: called.sink,
    }
}

// Returns the number for words that the system does not give, and says so.
fn unread_code<E: Sink>(alloc: Global, error: &io::Error, causes: &mut E) -> u8
    ensures memory { error_kind error.now ≡ OutOfMemory → result ≡ 6 }
    ensures other { error_kind error.now ≢ OutOfMemory → result ≡ 2 }
    ensures told { TellsCause (E.written causes.old) (E.written causes.new) (E.faults causes.old) (E.faults causes.new) }
{
    tell_made(
        causes,
        format!(in alloc; "the words can't be read: {error}"),
    );
    match error.kind() {
        io::ErrorKind::OutOfMemory => code(status::MEMORY),
        _ => status::USAGE,
    }
}

/// Does all that the program does, and returns the exit code with which `main` ends, the source and the sink. `called` are
/// the words of its call, with its name first. `waits` says whether a person is at the terminal. Replies and pages go to
/// the sink, and each cause to `causes`.
///
/// It makes one of three calls (`Exits`, `specs/Calls`): it shows the page for which the words ask, serves with the settings
/// that they say, or refuses them with 2. Words that the system does not give exit with 6 or 2 (`memory`, `other`), and
/// nothing is read or written (`untouched`).
///
/// `says` ties the causes to the number: nothing is said of 0, or of a closed pipe, and each other number has a line. A
/// cause that cannot be written changes no number.
pub fn exits<R, S, K, E>(
    rt: R,
    alloc: Global,
    called: io::Result<Vec<String>>,
    waits: bool,
    source: S,
    sink: K,
    causes: &mut E,
) -> Exited<S, K>
where
    R: Host + Copy + Send + 'static,
    S: Source + Explains + Drop,
    K: Sink + Explains + Drop + Send + 'static,
    E: Sink,
    ensures exits { IfOk called (λ all. ExitsWith S.left S.faults K.written K.faults (map string_bytes (drop 1 all.items)) source sink result.source result.sink (exit_status result.code)) }
    ensures says { IfOk called (λ _. Says waits (exit_status result.code) (K.closed result.sink) (E.written causes.old) (E.written causes.new) (E.faults causes.old) (E.faults causes.new)) }
    ensures memory { IfErr called (λ error. error_kind error ≡ OutOfMemory → exit_status result.code ≡ 6) }
    ensures other { IfErr called (λ error. error_kind error ≢ OutOfMemory → exit_status result.code ≡ 2) }
    ensures told { IfErr called (λ _. TellsCause (E.written causes.old) (E.written causes.new) (E.faults causes.old) (E.faults causes.new)) }
    ensures untouched { IfErr called (λ _. (result.source ≡ source) × (result.sink ≡ sink)) }
{
    match called {
        Ok(all) => carry_out(rt, alloc, words_after(&all), waits, source, sink, causes),
        Err(error) => Exited {
            code: ExitCode::from(unread_code(alloc, &error, causes)),
            source,
            sink,
        },
    }
}

// Returns the words after the program's name.
fn words_after(all: &Vec<String>) -> &[String]
    ensures { result.now ≡ drop 1 all.now.items }
{
    if all.is_empty() {
        all.as_slice()
    } else {
        &all[1..]
    }
}
