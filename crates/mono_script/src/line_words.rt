// The forms of the lines of a command, and the fault of a line.
ghost use Rattle.std.specs.Prelude.{◌≡◌};
ghost use Rattle.std.specs.Option.{option_map};
ghost use Rattle.mono_text.specs.ReasonTexts.{told, told_forms};
ghost use Rattle.mono_script.specs.LineWords.{line_forms, part_forms, end_words, pair_forms, report_words, forms_of_command, line_fault_at, fault_at};

use crate::command::Command;
use mono_text::{Fault, LineForms, fault_of_line, fault_of_script};

const EVENT_FORMS: &[u8] =
    b"spawn; wake 0; sleep 0; reset 0 0; drop-sleep 0; elapsed 0; drop-join 0; finished 0; block 0; drop-job 0; job-finished 0; job-end 0 0; turn; clock 0; remote 0; drain";

const JOURNAL_FORMS: &[u8] =
    b"spawn; wake 0; sleep 0; reset 0 0; drop-sleep 0; elapsed 0; drop-join 0; finished 0; block 0; drop-job 0; job-finished 0; job-end 0 0; turn; clock 0; remote 0; drain; now 0; park; park 0; main 0";

const SCRIPT_FORMS: &[u8] =
    b"limits 0 0 0; task; spawn 0; join 0; detach 0; await-sleep 0; block 0; await-job 0; drop-job 0; yield; done 0";

const SESSION_FORMS: &[u8] = b"open 0; beat 0; close 0; acquire 0 0; release 0 0; owner 0; clock 0";

const LIMITER_FORMS: &[u8] = b"bucket 0 0; take 0 0; retry 0 0 0; fail 0; done 0; clock 0";

const ACTOR_FORMS: &[u8] = b"actor; send 0 0 0; timeout 0 0; turn; clock 0";

// Returns the forms of the lines of a command.
fn forms_of_lines(command: Command) -> &'static [u8]
    ensures { result.now ≡ line_forms command }
{
    match command {
        Command::Replay(_, _) => EVENT_FORMS,
        Command::Check(_, _) => JOURNAL_FORMS,
        Command::CheckWhole(_, _) => JOURNAL_FORMS,
        Command::Run(_, _) => SCRIPT_FORMS,
        Command::Load(_, _) => b"".as_slice(),
        Command::Sessions(_, _) => SESSION_FORMS,
        Command::Limiter(_, _) => LIMITER_FORMS,
        Command::Actors(_, _) => ACTOR_FORMS,
    }
}

const STEP_FORMS: &[u8] =
    b"spawn; wake 0; sleep 0; reset 0 0; drop-sleep 0; elapsed 0; drop-join 0; finished 0; block 0; drop-job 0; job-finished 0; job-end 0 0; poll 0; join 0; job 0; pending; ready 0";

// Returns the forms of the parts of a turn.
fn forms_of_parts(command: Command) -> &'static [u8]
    ensures { result.now ≡ part_forms command }
{
    match command {
        Command::Replay(_, _) => STEP_FORMS,
        Command::Check(_, _) => STEP_FORMS,
        Command::CheckWhole(_, _) => STEP_FORMS,
        Command::Run(_, _) => b"".as_slice(),
        Command::Load(_, _) => b"".as_slice(),
        Command::Sessions(_, _) => b"".as_slice(),
        Command::Limiter(_, _) => b"".as_slice(),
        Command::Actors(_, _) => b"send 0 0; stay; stop".as_slice(),
    }
}

const END_WORDS: &[u8] = b"pending ready";

// Returns the words with which a turn's end begins, with a blank between them.
fn words_of_ends(command: Command) -> &'static [u8]
    ensures { result.now ≡ end_words command }
{
    match command {
        Command::Replay(_, _) => END_WORDS,
        Command::Check(_, _) => END_WORDS,
        Command::CheckWhole(_, _) => END_WORDS,
        Command::Run(_, _) => b"".as_slice(),
        Command::Load(_, _) => b"".as_slice(),
        Command::Sessions(_, _) => b"".as_slice(),
        Command::Limiter(_, _) => b"".as_slice(),
        Command::Actors(_, _) => b"stay stop".as_slice(),
    }
}

// Returns the forms of the lines that have a report.
fn forms_of_pairs(command: Command) -> &'static [u8]
    ensures { result.now ≡ pair_forms command }
{
    match command {
        Command::Check(_, _) => EVENT_FORMS,
        Command::CheckWhole(_, _) => EVENT_FORMS,
        Command::Replay(_, _) => b"".as_slice(),
        Command::Run(_, _) => b"".as_slice(),
        Command::Load(_, _) => b"".as_slice(),
        Command::Sessions(_, _) => b"".as_slice(),
        Command::Limiter(_, _) => b"".as_slice(),
        Command::Actors(_, _) => b"".as_slice(),
    }
}

const REPORT_WORDS: &[u8] =
    b"task queued noted nothing sleep armed elapsed dropped job yes no ended pending ready canceled refused turn fired listed unlisted drained";

// Returns the words with which a report begins.
fn words_of_reports() -> &'static [u8]
    ensures { result.now ≡ report_words }
{
    REPORT_WORDS
}

// Returns the forms of a command's lines.
fn forms_of(command: Command) -> LineForms<'static>
    ensures { told_forms result ≡ forms_of_command command }
{
    LineForms {
        lines: forms_of_lines(command),
        parts: forms_of_parts(command),
        ends: words_of_ends(command),
        pairs: forms_of_pairs(command),
        reports: words_of_reports(),
    }
}

// Returns the fault of a line, by its bytes alone.
fn line_fault<'a>(command: Command, input: &'a [u8], n: usize) -> Option<Fault<'a>>
    ensures { option_map told result ≡ line_fault_at command input.now n }
{
    fault_of_line(&forms_of(command), input, n)
}

/// Returns the fault of line n of the input, counted from 1; for a script also that the line is missing.
pub(crate) fn fault<'a>(command: Command, input: &'a [u8], n: usize) -> Option<Fault<'a>>
    ensures { option_map told result ≡ fault_at command input.now n }
{
    match command {
        Command::Run(_, _) => Some(fault_of_script(forms_of_lines(command), input, n)),
        Command::Replay(_, _) => line_fault(command, input, n),
        Command::Load(_, _) => line_fault(command, input, n),
        Command::Sessions(_, _) => line_fault(command, input, n),
        Command::Limiter(_, _) => line_fault(command, input, n),
        Command::Actors(_, _) => line_fault(command, input, n),
        Command::Check(_, _) => line_fault(command, input, n),
        Command::CheckWhole(_, _) => line_fault(command, input, n),
    }
}
