// The fault of a line, in a sentence.
use crate::line_forms::{form_of, report_form};
use crate::word_texts::shown;
use mono_text::{Fault, Reason};
use std::alloc::{AllocError, Global};
use std::format;

// The words of a script's lines.
const SCRIPT_WORDS: &str =
    "limits, task, spawn, join, detach, await-sleep, block, await-job, drop-job, yield or done";

// Returns the expected form of the line or part that begins with this word, after a semicolon, if it has one.
fn expected(alloc: Global, command: &str, head: &[u8]) -> Result<String, AllocError> {
    match form_of(command, head) {
        Some(form) => format!(in alloc; "; expected: {form}"),
        None => Ok(String::new(alloc)),
    }
}

// Returns the word, its fault, and the expected form.
fn about_word(
    alloc: Global,
    command: &str,
    fault: &Fault,
    what: &str,
) -> Result<String, AllocError> {
    let word = shown(alloc, fault.word)?;
    let expected = expected(alloc, command, fault.head)?;
    format!(in alloc; "\"{word}\" {what}{expected}")
}

// Returns which line is missing in a script that ends before this line.
fn missing_text(alloc: Global, line: usize) -> Result<String, AllocError> {
    let text = match line {
        1 => "the script is empty: limits TASKS JOBS SLEEPS is missing",
        2 => "the script ends too early: task is missing",
        _ => "the script ends too early: done OUTPUT is missing",
    };
    String::from_str(alloc, text)
}

// Returns the fault of a number in a script.
fn script_number_text(alloc: Global, fault: &Fault) -> Result<String, AllocError> {
    let word = shown(alloc, fault.word)?;
    match fault.reason {
        Reason::NoKind => format!(in alloc;
            "there is no kind {word}: the first `task` line is kind 0"
        ),
        Reason::NoOwnTask => format!(in alloc;
            "no own task {word} was made before: the first `spawn` of a kind makes task 0"
        ),
        Reason::NoOwnJob => format!(in alloc;
            "no own job {word} was made before: the first `block` of a kind makes job 0"
        ),
        _ => format!(in alloc; "the handle {word} was used by an earlier line"),
    }
}

// Returns the fault of a whole line.
fn line_text(reason: Reason) -> &'static str {
    match reason {
        Reason::NoLineFeed => "no line feed at the end",
        Reason::CarriageReturn => "a carriage return before the line feed",
        Reason::NoReport => "an event without \" -> \" and its report",
        Reason::NoLimits => "the first line of a script is limits TASKS JOBS SLEEPS",
        Reason::LateLimits => "limits belongs in the first line alone",
        Reason::NoTask => "a kind begins with task",
        Reason::NoDone => "the kind before has no done OUTPUT",
        Reason::ManyKinds => "more than 64 kinds",
        Reason::LongBody => "more than 127 lines before done OUTPUT",
        _ => "not in the form of its first word",
    }
}

// Returns the fault of a first word that begins no line.
fn unknown_text(alloc: Global, command: &str, word: &[u8]) -> Result<String, AllocError> {
    if word.is_empty() {
        return String::from_str(alloc, "the line begins with no word");
    }
    let word = shown(alloc, word)?;
    if command == "run" {
        return format!(in alloc; "unknown word \"{word}\"; expected: {SCRIPT_WORDS}");
    }
    format!(in alloc; "unknown word \"{word}\"")
}

// Returns the fault of a word after `behind` that begins nothing there, or is missing.
fn unknown_behind(
    alloc: Global,
    word: &[u8],
    what: &str,
    behind: &str,
) -> Result<String, AllocError> {
    if word.is_empty() {
        return format!(in alloc; "no {what} behind \"{behind}\"");
    }
    let word = shown(alloc, word)?;
    format!(in alloc; "unknown word \"{word}\" behind \"{behind}\"")
}

// Returns the fault of a blank.
fn blank_text(alloc: Global, word: &[u8]) -> Result<String, AllocError> {
    if word.is_empty() {
        return String::from_str(alloc, "a blank before the first word");
    }
    let word = shown(alloc, word)?;
    format!(in alloc; "a blank too many after \"{word}\"")
}

// Returns whether the lines of the command may have parts.
fn has_turns(command: &str) -> bool {
    form_of(command, b"turn").is_some()
}

// Returns the fault of a semicolon.
fn semicolon_text(alloc: Global, command: &str, word: &[u8]) -> Result<String, AllocError> {
    let word = shown(alloc, word)?;
    if has_turns(command) {
        format!(in alloc; "a semicolon after \"{word}\", which only a turn has")
    } else {
        format!(in alloc; "a semicolon after \"{word}\", which no line has")
    }
}

// Returns the fault of a turn whose part begins without the gap before it.
fn gap_text(alloc: Global, command: &str, fault: &Fault) -> Result<String, AllocError> {
    let word = shown(alloc, fault.word)?;
    let expected = expected(alloc, command, b"turn")?;
    format!(in alloc; "no \"; \" before \"{word}\"{expected}")
}

// Returns the fault of a word that begins a part of a turn, and here a line.
fn outside_text(alloc: Global, command: &str, fault: &Fault) -> Result<String, AllocError> {
    let word = shown(alloc, fault.word)?;
    let expected = expected(alloc, command, b"turn")?;
    format!(in alloc; "\"{word}\" belongs in a turn{expected}")
}

// Returns the fault of a turn's end.
fn end_text(alloc: Global, command: &str, fault: &Fault) -> Result<String, AllocError> {
    let ends = if command == "actors" {
        "stay or stop"
    } else {
        "pending or ready OUTPUT"
    };
    match fault.reason {
        Reason::NoEnd => format!(in alloc; "the turn has no end: {ends} is missing"),
        _ => {
            if fault.word.is_empty() {
                return String::from_str(alloc, "a semicolon after the turn's end");
            }
            let word = shown(alloc, fault.word)?;
            format!(in alloc; "\"{word}\" follows the turn's end, which is {ends}")
        }
    }
}

// The fault of a report where no line has one.
const NEEDLESS: &str = "\" -> \" and a report stand in a journal alone, which check reads";

// Returns the fault of a line with a report that takes none.
fn needless_text(alloc: Global, command: &str, fault: &Fault) -> Result<String, AllocError> {
    if command == "check" {
        about_word(alloc, command, fault, "takes no report")
    } else {
        String::from_str(alloc, NEEDLESS)
    }
}

// Returns the fault of a report or of its arrow.
fn report_text(alloc: Global, command: &str, fault: &Fault) -> Result<String, AllocError> {
    match fault.reason {
        Reason::StuckArrow => {
            if command != "check" {
                return String::from_str(alloc, NEEDLESS);
            }
            let word = shown(alloc, fault.word)?;
            format!(in alloc; "a blank is missing at \"->\" in \"{word}\"")
        }
        Reason::NeedlessReport => needless_text(alloc, command, fault),
        Reason::UnknownReport => unknown_behind(alloc, fault.word, "report", " -> "),
        _ => {
            let form = report_form(fault.word).unwrap_or("a report");
            format!(in alloc; "the report is not in the form of its first word; expected: {form}")
        }
    }
}

// Returns the fault of a later word.
fn word_text(alloc: Global, command: &str, fault: &Fault) -> Result<String, AllocError> {
    match fault.reason {
        Reason::UnknownPart => unknown_behind(alloc, fault.word, "word", "; "),
        Reason::LineInTurn => about_word(alloc, command, fault, "does not belong in a turn"),
        Reason::NoGap => gap_text(alloc, command, fault),
        Reason::OtherHow => about_word(alloc, command, fault, "is neither ran nor canceled"),
        Reason::WordTooMany => about_word(alloc, command, fault, "is a word too many"),
        Reason::NoWord => {
            let expected = expected(alloc, command, fault.head)?;
            format!(in alloc; "a word is missing{expected}")
        }
        Reason::GreatNumber => {
            about_word(alloc, command, fault, "is above 18446744073709551615")
        }
        Reason::GreatNanos => about_word(
            alloc,
            command,
            fault,
            "is above 340282366920938463463374607431768211455",
        ),
        _ => about_word(alloc, command, fault, "is no plain decimal number"),
    }
}

// Returns why the line is no line of the command.
fn reason_text(
    alloc: Global,
    command: &str,
    line: usize,
    fault: &Fault,
) -> Result<String, AllocError> {
    match fault.reason {
        Reason::UnknownWord => unknown_text(alloc, command, fault.word),
        Reason::StrayBlank => blank_text(alloc, fault.word),
        Reason::StraySemicolon => semicolon_text(alloc, command, fault.word),
        Reason::PartOutside => outside_text(alloc, command, fault),
        Reason::NoEnd | Reason::BehindEnd => end_text(alloc, command, fault),
        Reason::StuckArrow | Reason::NeedlessReport | Reason::UnknownReport | Reason::OtherReport =>
            report_text(alloc, command, fault),
        Reason::UnknownPart
        | Reason::LineInTurn
        | Reason::NoGap
        | Reason::OtherHow
        | Reason::WordTooMany
        | Reason::NoWord
        | Reason::NoNumber
        | Reason::GreatNumber
        | Reason::GreatNanos => word_text(alloc, command, fault),
        Reason::EndsEarly => missing_text(alloc, line),
        Reason::NoKind | Reason::NoOwnTask | Reason::NoOwnJob | Reason::HandleGone => {
            script_number_text(alloc, fault)
        }
        Reason::OtherForm => {
            let expected = expected(alloc, command, fault.head)?;
            format!(in alloc; "not in the form of its first word{expected}")
        }
        reason => String::from_str(alloc, line_text(reason)),
    }
}

/// Returns the fault of a command's first bad line, in one sentence. For a line that a script lacks it names the
/// missing line, and no number.
pub fn line_sentence(
    alloc: Global,
    command: &str,
    line: usize,
    fault: &Fault,
) -> Result<String, AllocError> {
    let reason = reason_text(alloc, command, line, fault)?;
    match fault.reason {
        Reason::EndsEarly => Ok(reason),
        _ => format!(in alloc; "line {line}: {reason}"),
    }
}
