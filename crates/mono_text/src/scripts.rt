// Why a line may not follow in a script, or which line is missing.
ghost use Rattle.std.specs.Prelude.{◌≡◌, ◌∷◌, false};
ghost use Rattle.mono_text.specs.Lines.{lines};
ghost use Rattle.mono_text.specs.Memory.{counted};
ghost use Rattle.mono_text.specs.Words.{words, number_of};
ghost use Rattle.mono_text.specs.Scripts as spec;
ghost use Rattle.mono_text.specs.ReasonTexts.{told, told_forms};

use crate::Reader;
use crate::forms::begins_form;
use crate::gaps::{ends_in, gaps_wrong};
use crate::lines::{cut_line, line_at};
use crate::reasons::{Fault, LineForms, Reason, first_reason, lacks, whole, wrong_among};
use crate::words::{cut, is_among};

/// The effect of the lines before one: whether a kind is open, and how many kinds there are. For the last kind: how
/// many lines its body has and how many tasks and jobs it made.
#[derive(Clone, Copy)]
struct Seen {
    is_open: bool,
    kinds: u64,
    body: u64,
    tasks: u64,
    jobs: u64,
}

/// Returns the count with one more; it ends at 2^64 - 1.
pub(crate) fn count_one(count: u64) -> u64
    ensures { result ≡ counted count }
{
    count.saturating_add(1)
}

// Returns the state after a line with this first word.
fn seen_after(seen: Seen, word: &[u8]) -> Seen
    ensures { result ≡ spec.seen_after seen word.now }
{
    if word == b"task".as_slice() {
        return Seen {
            is_open: true,
            kinds: count_one(seen.kinds),
            body: 0,
            tasks: 0,
            jobs: 0,
        };
    }
    if word == b"done".as_slice() {
        return Seen {
            is_open: false,
            kinds: seen.kinds,
            body: 0,
            tasks: 0,
            jobs: 0,
        };
    }
    let body = count_one(seen.body);
    if word == b"spawn".as_slice() {
        return Seen {
            is_open: seen.is_open,
            kinds: seen.kinds,
            body,
            tasks: count_one(seen.tasks),
            jobs: seen.jobs,
        };
    }
    if word == b"block".as_slice() {
        return Seen {
            is_open: seen.is_open,
            kinds: seen.kinds,
            body,
            tasks: seen.tasks,
            jobs: count_one(seen.jobs),
        };
    }
    Seen {
        is_open: seen.is_open,
        kinds: seen.kinds,
        body,
        tasks: seen.tasks,
        jobs: seen.jobs,
    }
}

// Returns the state before line n, counted from 1.
fn seen_before(input: &[u8], n: usize) -> Seen
    ensures { result ≡ spec.seen_before n (lines input.now) (spec.seen_of false 0 0 0 0) }
{
    let mut seen = Seen {
        is_open: false,
        kinds: 0,
        body: 0,
        tasks: 0,
        jobs: 0,
    };
    let mut rest = input;
    let mut left = n;
    'lines: while !rest.is_empty() {
        let (line, behind) = cut_line(rest);
        if left <= 1 {
            return seen;
        }
        seen = seen_after(seen, cut(line).0);
        let Some(more) = behind else {
            return seen;
        };
        rest = more;
        left -= 1;
    }
    seen
}

// Returns the count of kinds with one more line.
fn kinds_with(count: u64, line: &[u8], is_ended: bool) -> u64
    ensures { result ≡ spec.kinds_with count (record { bytes = line.now; is_ended = is_ended }) }
{
    if is_ended && line == b"task".as_slice() {
        count_one(count)
    } else {
        count
    }
}

// Returns how many lines are `task`.
fn kinds_in(input: &[u8]) -> u64
    ensures { result ≡ spec.kinds_from 0 (lines input.now) }
{
    let mut count = 0u64;
    let mut rest = input;
    'lines: while !rest.is_empty() {
        let (line, behind) = cut_line(rest);
        count = kinds_with(count, line, behind.is_some());
        let Some(more) = behind else {
            return count;
        };
        rest = more;
    }
    count
}

// Returns why a line with this first word may not follow here.
fn place_wrong(n: usize, seen: Seen, word: &[u8]) -> Option<Reason>
    ensures { result ≡ spec.place_wrong n seen word.now }
{
    if n == 1 {
        if word == b"limits".as_slice() {
            return None;
        }
        return Some(Reason::NoLimits);
    }
    if word == b"limits".as_slice() {
        return Some(Reason::LateLimits);
    }
    if seen.is_open {
        if word == b"task".as_slice() {
            return Some(Reason::NoDone);
        }
        if word == b"done".as_slice() {
            return None;
        }
        if 126 < seen.body {
            return Some(Reason::LongBody);
        }
        return None;
    }
    if word == b"task".as_slice() {
        if 63 < seen.kinds {
            return Some(Reason::ManyKinds);
        }
        return None;
    }
    Some(Reason::NoTask)
}

// Returns the number below 2^64 that is the whole word.
fn number_in(word: &[u8]) -> Option<u64>
    ensures { result ≡ number_of word.now }
{
    let mut reader = Reader::new(word);
    let number = reader.number()?;
    if reader.is_empty() {
        Some(number)
    } else {
        None
    }
}

// Returns the fault of the number after a word.
fn number_wrong(kinds: u64, seen: Seen, word: &[u8], number: u64) -> Reason
    ensures { result ≡ spec.number_wrong kinds seen word.now number }
{
    if word == b"spawn".as_slice() {
        if number < kinds {
            return Reason::OtherForm;
        }
        return Reason::NoKind;
    }
    if word == b"join".as_slice() || word == b"detach".as_slice() {
        if number < seen.tasks {
            return Reason::HandleGone;
        }
        return Reason::NoOwnTask;
    }
    if word == b"await-job".as_slice() || word == b"drop-job".as_slice() {
        if number < seen.jobs {
            return Reason::HandleGone;
        }
        return Reason::NoOwnJob;
    }
    Reason::OtherForm
}

// Returns the fault of the text after a word, a number if it is one.
fn any_number_wrong(kinds: u64, seen: Seen, word: &[u8], number: Option<u64>) -> Reason
    ensures { result ≡ spec.any_number_wrong kinds seen word.now number }
{
    match number {
        Some(number) => number_wrong(kinds, seen, word, number),
        None => Reason::OtherForm,
    }
}

// Returns the fault after a line's first word. A third word is one too many.
fn second_wrong<'a>(kinds: u64, seen: Seen, first: &'a [u8], rest: &'a [u8]) -> Fault<'a>
    ensures { told result ≡ spec.own_wrong kinds seen (first.now ∷ words rest.now) }
{
    let (second, more) = cut(rest);
    match more {
        None => Fault {
            reason: any_number_wrong(kinds, seen, first, number_in(second)),
            word: second,
            head: first,
        },
        Some(more) => Fault {
            reason: Reason::OtherForm,
            word: cut(more).0,
            head: first,
        },
    }
}

// Returns the fault of a line that may follow here, and whose words are all right.
fn own_wrong<'a>(kinds: u64, seen: Seen, line: &'a [u8]) -> Fault<'a>
    ensures { told result ≡ spec.own_wrong kinds seen (words line.now) }
{
    let (first, behind) = cut(line);
    match behind {
        Some(rest) => second_wrong(kinds, seen, first, rest),
        None => Fault {
            reason: Reason::OtherForm,
            word: first,
            head: first,
        },
    }
}

// Returns the forms of a script's lines, of which none has parts or a report.
fn script_forms<'a>(lines: &'a [u8]) -> LineForms<'a>
    ensures { told_forms result ≡ spec.script_forms (words lines.now) }
{
    LineForms {
        lines,
        parts: b"",
        ends: b"",
        pairs: b"",
        reports: b"",
    }
}

// Returns the fault of a line that may follow here, and that lacks no word.
fn report_or_own<'a>(kinds: u64, seen: Seen, line: &'a [u8]) -> Fault<'a>
    ensures { told result ≡ spec.report_or_own kinds seen line.now }
{
    if is_among(b"->", line) {
        whole(Reason::NeedlessReport, line)
    } else {
        own_wrong(kinds, seen, line)
    }
}

// Returns the fault of a line that may follow here, and whose gaps are right.
fn words_or_own<'a>(names: &[u8], kinds: u64, seen: Seen, line: &'a [u8]) -> Fault<'a>
    ensures { told result ≡ spec.words_or_own (words names.now) kinds seen line.now }
{
    if let Some(fault) = wrong_among(&script_forms(names), line) {
        return fault;
    }
    match lacks(&script_forms(names), line) {
        Some(fault) => fault,
        None => report_or_own(kinds, seen, line),
    }
}

// Returns the fault of a line that may follow here.
fn words_wrong<'a>(names: &[u8], kinds: u64, seen: Seen, line: &'a [u8]) -> Fault<'a>
    ensures { told result ≡ spec.words_wrong (words names.now) kinds seen line.now }
{
    match gaps_wrong(line) {
        Some(fault) => fault,
        None => words_or_own(names, kinds, seen, line),
    }
}

// Returns the fault of a line, by the state before it.
fn script_line_wrong<'a>(
    names: &[u8],
    n: usize,
    kinds: u64,
    seen: Seen,
    line: &'a [u8],
    is_ended: bool,
) -> Fault<'a>
    ensures { told result ≡ spec.script_line_wrong (words names.now) n kinds seen (record { bytes = line.now; is_ended = is_ended }) }
{
    if !is_ended {
        return whole(Reason::NoLineFeed, line);
    }
    if ends_in(b'\r', line) {
        return whole(Reason::CarriageReturn, line);
    }
    let first = cut(line).0;
    if n != 1 && !begins_form(names, first) {
        return whole(first_reason(&script_forms(names), first, line), line);
    }
    match place_wrong(n, seen, first) {
        Some(reason) => whole(reason, line),
        None => words_wrong(names, kinds, seen, line),
    }
}

/// Returns the fault of line n of a script, counted from 1, or that the script ends before it.
///
/// Its lines are in one of these forms, as [`LineForms::lines`] has them. The answer depends on the bytes of the script
/// alone.
pub fn fault_of_script<'a>(names: &[u8], input: &'a [u8], n: usize) -> Fault<'a>
    ensures { told result ≡ spec.script_wrong_at (words names.now) input.now n }
{
    match line_at(input, n) {
        Some((line, is_ended)) => script_line_wrong(
            names,
            n,
            kinds_in(input),
            seen_before(input, n),
            line,
            is_ended,
        ),
        None => Fault {
            reason: Reason::EndsEarly,
            word: b"",
            head: b"",
        },
    }
}
