// Why a line spells no call.
ghost use Rattle.std.specs.Prelude.{◌≡◌, [], None, false};
ghost use Rattle.std.specs.Option.{option_map};
ghost use Rattle.mono_text.specs.Words.{words};
ghost use Rattle.mono_text.specs.Reasons as spec;
ghost use Rattle.mono_text.specs.Wrongs.{or_rest, whole};
ghost use Rattle.mono_text.specs.ReasonTexts.{told, told_forms};

use crate::forms::{begins_form, forms_of, has_form, most_words, words_left};
use crate::gaps::{begins_with_blank, ends_in, gaps_wrong};
use crate::lines::line_at;
use crate::scripts::count_one;
use crate::words::{cut, is_above, is_among, is_arrow, is_plain, is_stuck};

/// The reasons for which a line spells no call. If more than one holds, it is the first in the order of the definitions.
#[derive(Clone, Copy, Debug, PartialEq, Eq)]
pub enum Reason {
    /// No line feed ends it.
    NoLineFeed,
    /// A carriage return precedes its line feed.
    CarriageReturn,
    /// A blank precedes its first word, a blank, a semicolon or its end.
    StrayBlank,
    /// A semicolon is in it, and it is no turn.
    StraySemicolon,
    /// `->` sticks to other bytes of a word.
    StuckArrow,
    /// Its first word is one with which a part of a turn begins.
    PartOutside,
    /// Its first word is none of those with which a call begins.
    UnknownWord,
    /// A word that begins a part of a turn is none of the words of parts, or there is no word.
    UnknownPart,
    /// A part of a turn begins with a word with which lines begin.
    LineInTurn,
    /// A word in a turn begins a part, and no `; ` precedes it.
    NoGap,
    /// The word after a job's number is neither `ran` nor `canceled`.
    OtherHow,
    /// A word follows all words of the longest form.
    WordTooMany,
    /// A word in it is no plain decimal number, and its place requires a number.
    NoNumber,
    /// A number in it is above 18446744073709551615.
    GreatNumber,
    /// A number of nanoseconds in it is above 340282366920938463463374607431768211455.
    GreatNanos,
    /// It, or a part of a turn, has fewer words than its form.
    NoWord,
    /// It is a turn without an end.
    NoEnd,
    /// A part of a turn follows its end.
    BehindEnd,
    /// It is an event of a journal, and no report follows it.
    NoReport,
    /// The word after ` -> ` begins no report.
    UnknownReport,
    /// The text after ` -> ` is in no form of its first word.
    OtherReport,
    /// A report follows, and its first word takes none.
    NeedlessReport,
    /// The script ends before this line.
    EndsEarly,
    /// It is the first line of a script, and not `limits`.
    NoLimits,
    /// It is a line `limits` of a script, and not the first.
    LateLimits,
    /// It is outside of a script's kinds, and is not `task`.
    NoTask,
    /// It is in a kind that `done` has not ended.
    NoDone,
    /// It begins a kind after the 64th.
    ManyKinds,
    /// It comes after the 127th line of a kind's body.
    LongBody,
    /// It names a kind that the script does not have.
    NoKind,
    /// It names an own task that was not made before in its kind.
    NoOwnTask,
    /// It names an own job that was not made before in its kind.
    NoOwnJob,
    /// It names an own task or job whose handle an earlier line has used.
    HandleGone,
    /// It is in no form of its first word.
    OtherForm,
}

/// The forms of the lines of a command: texts of words, a word for each word of a form.
///
/// A number is `0`, and `; ` is between two forms, as in `spawn; wake 0; reset 0 0`.
#[derive(Clone, Copy)]
pub struct LineForms<'a> {
    /// the forms of lines; that of a turn is the word `turn`
    pub lines: &'a [u8],
    /// the forms of the parts of a turn, which are steps and ends
    pub parts: &'a [u8],
    /// the words with which an end of a turn begins, with blanks between them
    pub ends: &'a [u8],
    /// the forms of the lines that have a report
    pub pairs: &'a [u8],
    /// the words with which a report begins
    pub reports: &'a [u8],
}

/// The fault of a line: the reason, the word that shows it, and the word with which that part of the line begins.
#[derive(Clone, Copy, Debug, PartialEq, Eq)]
pub struct Fault<'a> {
    /// why the line spells no call
    pub reason: Reason,
    /// the word that shows it; the first one if the whole line is at fault
    pub word: &'a [u8],
    /// the word whose form the line breaks
    pub head: &'a [u8],
}

const GREATEST_NUMBER: &[u8] = b"18446744073709551615";

const GREATEST_NANOS: &[u8] = b"340282366920938463463374607431768211455";

/// Returns the reason of a line whose first word begins no line.
pub(crate) fn first_reason(forms: &LineForms<'_>, first: &[u8], line: &[u8]) -> Reason
    ensures { result ≡ spec.first_reason (told_forms forms.now) first.now line.now }
{
    if is_stuck(first) {
        return Reason::StuckArrow;
    }
    if begins_form(forms.parts, first) {
        return Reason::PartOutside;
    }
    if begins_with_blank(line) {
        return Reason::StrayBlank;
    }
    Reason::UnknownWord
}

// Returns whether nanoseconds follow these two words.
fn is_for_nanos(older: &[u8], previous: &[u8]) -> bool
    ensures { result ≡ spec.is_for_nanos older.now previous.now }
{
    previous == b"sleep".as_slice()
        || previous == b"clock".as_slice()
        || previous == b"now".as_slice()
        || older == b"reset".as_slice()
}

// Returns the reason if the word is a number that is too great for its place.
fn too_great(is_for_nanos: bool, word: &[u8]) -> Option<Reason>
    ensures { result ≡ spec.too_great is_for_nanos word.now }
{
    if is_for_nanos {
        if is_above(GREATEST_NANOS, word) {
            Some(Reason::GreatNanos)
        } else {
            None
        }
    } else if is_above(GREATEST_NUMBER, word) {
        Some(Reason::GreatNumber)
    } else {
        None
    }
}

// Returns the fault of a word at the place of a number.
fn number_wrong(is_for_nanos: bool, word: &[u8]) -> Option<Reason>
    ensures { result ≡ spec.number_wrong is_for_nanos word.now }
{
    if is_plain(word) {
        too_great(is_for_nanos, word)
    } else {
        Some(Reason::NoNumber)
    }
}

// Returns the fault of a word that says how a job ended.
fn how_wrong(word: &[u8]) -> Option<Reason>
    ensures { result ≡ spec.how_wrong word.now }
{
    if word == b"ran".as_slice() || word == b"canceled".as_slice() {
        None
    } else {
        Some(Reason::OtherHow)
    }
}

// Returns the fault of a word that begins a part.
fn begins_wrong(forms: &LineForms<'_>, word: &[u8]) -> Option<Reason>
    ensures { result ≡ spec.begins_wrong (told_forms forms.now) word.now }
{
    if begins_form(forms.parts, word) {
        return None;
    }
    if begins_form(forms.lines, word) {
        return Some(Reason::LineInTurn);
    }
    Some(Reason::UnknownPart)
}

// Returns whether the word begins a part, and no empty word precedes it.
fn lacks_gap(parts: &[u8], first: &[u8], previous: &[u8], word: &[u8]) -> bool
    ensures { result ≡ spec.lacks_gap (words parts.now) first.now previous.now word.now }
{
    if is_plain(word) {
        return false;
    }
    previous == b"turn".as_slice() || (first == b"turn".as_slice() && is_among(word, parts))
}

// Returns the fault of a word that follows the first one of its part.
fn stands_wrong(
    forms: &LineForms<'_>,
    first: &[u8],
    head: &[u8],
    place: u64,
    older: &[u8],
    previous: &[u8],
    word: &[u8],
) -> Option<Reason>
    ensures { result ≡ spec.stands_wrong (told_forms forms.now) first.now head.now place older.now previous.now word.now }
{
    if older == b"job-end".as_slice() {
        return how_wrong(word);
    }
    if lacks_gap(forms.parts, first, previous, word) {
        return Some(Reason::NoGap);
    }
    if most_words(forms_of(forms, first, head), head) < place {
        return Some(Reason::WordTooMany);
    }
    number_wrong(is_for_nanos(older, previous), word)
}

// Returns the fault of an empty word.
fn empty_wrong(previous: &[u8]) -> Option<Reason>
    ensures { result ≡ spec.empty_wrong previous.now }
{
    if previous == b"".as_slice() {
        Some(Reason::UnknownPart)
    } else {
        None
    }
}

// Returns the fault of a word by its place: the line's first word, the first word of its part, how far it is from that
// one, and the two words before it.
fn word_wrong(
    forms: &LineForms<'_>,
    first: &[u8],
    head: &[u8],
    place: u64,
    older: &[u8],
    previous: &[u8],
    word: &[u8],
) -> Option<Reason>
    ensures { result ≡ spec.word_wrong (told_forms forms.now) first.now head.now place older.now previous.now word.now }
{
    if word == b"".as_slice() {
        return empty_wrong(previous);
    }
    if is_stuck(word) {
        return Some(Reason::StuckArrow);
    }
    if previous == b"".as_slice() {
        return begins_wrong(forms, word);
    }
    stands_wrong(forms, first, head, place, older, previous, word)
}

// Returns the word that begins the part to which a word belongs.
fn head_of<'a>(head: &'a [u8], previous: &[u8], word: &'a [u8]) -> &'a [u8]
    ensures { result.now ≡ spec.head_of head.now previous.now word.now }
{
    if previous == b"".as_slice() {
        word
    } else {
        head
    }
}

// Returns how far the word after this one is from the first word of its part.
fn place_of(place: u64, previous: &[u8]) -> u64
    ensures { result ≡ spec.place_of place previous.now }
{
    if previous == b"".as_slice() {
        0
    } else {
        count_one(place)
    }
}

// Returns the first wrong word of these, after the first one of the line and before a report.
fn first_wrong<'a>(forms: &LineForms<'_>, first: &'a [u8], others: &'a [u8]) -> Option<Fault<'a>>
    ensures { option_map told result ≡ spec.first_wrong (told_forms forms.now) first.now first.now 0 [] first.now (words others.now) }
{
    let mut head: &[u8] = first;
    let mut place = 0u64;
    let mut older: &[u8] = b"";
    let mut previous: &[u8] = first;
    let mut rest = others;
    'words: loop {
        let (word, behind) = cut(rest);
        if is_arrow(word) {
            return None;
        }
        head = head_of(head, previous, word);
        place = place_of(place, previous);
        if let Some(reason) = word_wrong(forms, first, head, place, older, previous, word) {
            return Some(Fault { reason, word, head });
        }
        let Some(more) = behind else {
            return None;
        };
        older = previous;
        previous = word;
        rest = more;
    }
}

/// Returns the first wrong word after the line's first one.
pub(crate) fn wrong_among<'a>(forms: &LineForms<'_>, line: &'a [u8]) -> Option<Fault<'a>>
    ensures { option_map told result ≡ spec.wrong_among (told_forms forms.now) (words line.now) }
{
    let (first, behind) = cut(line);
    match behind {
        Some(rest) => first_wrong(forms, first, rest),
        None => None,
    }
}

// Returns the reason of a part, if this word begins one that lacks a word.
fn part_wrong(parts: &[u8], previous: &[u8], word: &[u8], rest: &[u8]) -> Option<Reason>
    ensures { result ≡ spec.part_wrong (words parts.now) previous.now word.now (words rest.now) }
{
    if previous == b"".as_slice() {
        if has_form(parts, word, words_left(rest)) {
            None
        } else {
            Some(Reason::NoWord)
        }
    } else {
        None
    }
}

// Returns the fault of a part, if this word begins one that lacks a word.
fn part_fault<'a>(parts: &[u8], previous: &[u8], word: &'a [u8], rest: &[u8]) -> Option<Fault<'a>>
    ensures { option_map told result ≡ or_rest (spec.part_wrong (words parts.now) previous.now word.now (words rest.now)) word.now word.now None }
{
    match part_wrong(parts, previous, word, rest) {
        Some(reason) => Some(Fault {
            reason,
            word,
            head: word,
        }),
        None => None,
    }
}

// Returns the first of these parts that lacks a word.
fn first_wrong_part<'a>(parts: &[u8], first: &[u8], others: &'a [u8]) -> Option<Fault<'a>>
    ensures { option_map told result ≡ spec.first_wrong_part (words parts.now) first.now (words others.now) }
{
    let mut previous: &[u8] = first;
    let mut rest = others;
    'words: loop {
        let (word, behind) = cut(rest);
        if is_arrow(word) {
            return None;
        }
        let Some(more) = behind else {
            return part_fault(parts, previous, word, b"");
        };
        if let Some(reason) = part_wrong(parts, previous, word, more) {
            return Some(Fault {
                reason,
                word,
                head: word,
            });
        }
        previous = word;
        rest = more;
    }
}

// Returns the fault of a turn about whose end this word says something.
fn turn_fault(reason: Reason, word: &[u8]) -> Fault
    ensures { told result ≡ spec.turn_fault reason word.now }
{
    Fault {
        reason,
        word,
        head: b"turn",
    }
}

// Returns the fault of a turn whose words are over.
fn end_wrong<'a>(has_end: bool, previous: &[u8]) -> Option<Fault<'a>>
    ensures { option_map told result ≡ spec.end_wrong has_end previous.now }
{
    if !has_end {
        return Some(turn_fault(Reason::NoEnd, b"turn"));
    }
    if previous == b"".as_slice() {
        return Some(turn_fault(Reason::BehindEnd, b""));
    }
    None
}

// Returns whether a turn has an end after this word.
fn ends_with(ends: &[u8], has_end: bool, previous: &[u8], word: &[u8]) -> bool
    ensures { result ≡ spec.ends_with (words ends.now) has_end previous.now word.now }
{
    if previous == b"".as_slice() {
        is_among(word, ends)
    } else {
        has_end
    }
}

// Returns the fault of a turn's end, by the words after the first.
fn ends_from<'a>(ends: &[u8], first: &[u8], others: &'a [u8]) -> Option<Fault<'a>>
    ensures { option_map told result ≡ spec.ends_from (words ends.now) false first.now (words others.now) }
{
    let mut has_end = false;
    let mut previous: &[u8] = first;
    let mut rest = others;
    'words: loop {
        let (word, behind) = cut(rest);
        if is_arrow(word) {
            return end_wrong(has_end, previous);
        }
        if has_end && previous == b"".as_slice() {
            return Some(turn_fault(Reason::BehindEnd, word));
        }
        has_end = ends_with(ends, has_end, previous, word);
        let Some(more) = behind else {
            return end_wrong(has_end, word);
        };
        previous = word;
        rest = more;
    }
}

// Returns what a turn lacks, by the words after the first.
fn turn_wrong<'a>(forms: &LineForms<'_>, first: &'a [u8], rest: &'a [u8]) -> Option<Fault<'a>>
    ensures { option_map told result ≡ spec.turn_wrong (told_forms forms.now) first.now (words rest.now) }
{
    if first != b"turn".as_slice() {
        return None;
    }
    match first_wrong_part(forms.parts, first, rest) {
        Some(fault) => Some(fault),
        None => ends_from(forms.ends, first, rest),
    }
}

// Returns what a line of one word lacks.
fn lacks_alone<'a>(forms: &LineForms<'_>, first: &'a [u8]) -> Option<Fault<'a>>
    ensures { option_map told result ≡ spec.lacks_from (told_forms forms.now) first.now [] }
{
    if !has_form(forms.lines, first, 0) {
        return Some(Fault {
            reason: Reason::NoWord,
            word: first,
            head: first,
        });
    }
    if first == b"turn".as_slice() {
        return Some(turn_fault(Reason::NoEnd, b"turn"));
    }
    None
}

// Returns what a line of more words lacks.
fn lacks_from<'a>(forms: &LineForms<'_>, first: &'a [u8], rest: &'a [u8]) -> Option<Fault<'a>>
    ensures { option_map told result ≡ spec.lacks_from (told_forms forms.now) first.now (words rest.now) }
{
    if has_form(forms.lines, first, words_left(rest)) {
        return turn_wrong(forms, first, rest);
    }
    Some(Fault {
        reason: Reason::NoWord,
        word: first,
        head: first,
    })
}

/// Returns what a line lacks whose words are all right.
pub(crate) fn lacks<'a>(forms: &LineForms<'_>, line: &'a [u8]) -> Option<Fault<'a>>
    ensures { option_map told result ≡ spec.lacks (told_forms forms.now) (words line.now) }
{
    let (first, behind) = cut(line);
    match behind {
        Some(rest) => lacks_from(forms, first, rest),
        None => lacks_alone(forms, first),
    }
}

/// Returns the fault of a whole line.
pub(crate) fn whole(reason: Reason, line: &[u8]) -> Fault
    ensures { told result ≡ whole reason line.now }
{
    let first = cut(line).0;
    Fault {
        reason,
        word: first,
        head: first,
    }
}

// Returns the first word of a line's report, if the line has one.
fn report_word<'a>(line: &'a [u8]) -> Option<&'a [u8]>
    ensures { option_map (λ w. w.now) result ≡ spec.report_word (words line.now) }
{
    let mut rest = line;
    'words: loop {
        let (word, behind) = cut(rest);
        let Some(more) = behind else {
            return if is_arrow(word) { Some(b"") } else { None };
        };
        if is_arrow(word) {
            return Some(cut(more).0);
        }
        rest = more;
    }
}

// Returns the fault of a report, by its first word.
fn report_wrong<'a>(reports: &[u8], word: &'a [u8]) -> Fault<'a>
    ensures { told result ≡ spec.report_wrong (words reports.now) word.now }
{
    let reason = if is_among(word, reports) {
        Reason::OtherReport
    } else {
        Reason::UnknownReport
    };
    Fault {
        reason,
        word,
        head: word,
    }
}

// Returns the fault of a line that lacks nothing before its report, by whether it takes one.
fn form_wrong<'a>(
    reports: &[u8],
    is_pair: bool,
    first: &'a [u8],
    report: Option<&'a [u8]>,
) -> Fault<'a>
    ensures { told result ≡ spec.form_wrong (words reports.now) is_pair first.now (option_map (λ w. w.now) report.entry) }
{
    let reason = match (is_pair, report) {
        (true, Some(word)) => return report_wrong(reports, word),
        (true, None) => Reason::NoReport,
        (false, Some(_)) => Reason::NeedlessReport,
        (false, None) => Reason::OtherForm,
    };
    Fault {
        reason,
        word: first,
        head: first,
    }
}

// Returns the fault of a line that lacks nothing before its report.
fn form_fault<'a>(forms: &LineForms<'_>, first: &'a [u8], report: Option<&'a [u8]>) -> Fault<'a>
    ensures { told result ≡ spec.form_fault (told_forms forms.now) first.now (option_map (λ w. w.now) report.entry) }
{
    form_wrong(forms.reports, is_among(first, forms.pairs), first, report)
}

// Returns the fault of a line whose words are all right.
fn shape_fault<'a>(forms: &LineForms<'_>, line: &'a [u8]) -> Fault<'a>
    ensures { told result ≡ spec.shape_fault (told_forms forms.now) line.now }
{
    match lacks(forms, line) {
        Some(fault) => fault,
        None => form_fault(forms, cut(line).0, report_word(line)),
    }
}

// Returns the fault of a line whose first word begins a form.
fn words_fault<'a>(forms: &LineForms<'_>, line: &'a [u8]) -> Fault<'a>
    ensures { told result ≡ spec.words_fault (told_forms forms.now) line.now }
{
    if let Some(fault) = gaps_wrong(line) {
        return fault;
    }
    match wrong_among(forms, line) {
        Some(fault) => fault,
        None => shape_fault(forms, line),
    }
}

// Returns the fault of a line.
fn wrong_line<'a>(forms: &LineForms<'_>, line: &'a [u8], is_ended: bool) -> Fault<'a>
    ensures { told result ≡ spec.wrong_line (told_forms forms.now) (record { bytes = line.now; is_ended = is_ended }) }
{
    if !is_ended {
        return whole(Reason::NoLineFeed, line);
    }
    if ends_in(b'\r', line) {
        return whole(Reason::CarriageReturn, line);
    }
    let first = cut(line).0;
    if begins_form(forms.lines, first) {
        return words_fault(forms, line);
    }
    whole(first_reason(forms, first, line), line)
}

/// Returns the fault of line n of the input, counted from 1, or None if there is no such line.
///
/// The answer depends on the forms and on the bytes of the line alone, also for a line that spells a call.
pub fn fault_of_line<'a>(forms: &LineForms<'_>, input: &'a [u8], n: usize) -> Option<Fault<'a>>
    ensures { option_map told result ≡ spec.wrong_at (told_forms forms.now) input.now n }
{
    match line_at(input, n) {
        Some((line, is_ended)) => Some(wrong_line(forms, line, is_ended)),
        None => None,
    }
}
