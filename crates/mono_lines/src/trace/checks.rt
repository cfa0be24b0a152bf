// The check of a journal.
ghost use Rattle.std.specs.Prelude.{◌≡◌, ◌-◌, ◌+◌, ◌<◌, true, false, IfOk, OnOk, List, ℕ, length, map};
ghost use Rattle.mono_machine.specs.Machine.{Machine, start_machine};
ghost use Rattle.mono_text.specs.Lines.{lines};
ghost use Rattle.mono_trace.specs.Refinement.{machine_of};
ghost use Rattle.mono_trace.specs.OrderProgress.{Follows};
ghost use Rattle.mono_lines.specs.Journal.{AreJournalLines, BeginsWith, BeginsWithNone, IsAnswer, IsWholeAnswer, mark_of};
ghost use Rattle.mono_lines.specs.declared.trace.journal.JournalLine.{JournalLine};
ghost use Rattle.mono_lines.specs.CheckProgress.{StandsAt, LeadsOn, KeepsOrder, HasFewArms, IsReading};

use crate::trace::journal::{JournalLine, read_line};
use mono_machine::{Blocking, Event, Limits, List, Report, TurnStep};
use mono_text::Reader;
use mono_trace::{Mark, Order, Stage, Trace, pair_mark};
use std::alloc::{AllocError, Global};

/// Why a journal is no run.
#[derive(Drop)]
pub enum Cause {
    /// No step allows the pair in the line. The machine could answer its event with this report, if there is one.
    Pair(Option<Report>),
    /// The line is out of order in a whole journal, or missing: the lines before it lead to this stage.
    Order(Stage),
}

/// Where and why a journal is no run.
#[derive(Drop)]
pub struct Failure {
    /// The line, counted from 1 over all lines.
    pub line: usize,
    /// Why it fails.
    pub cause: Cause,
}

/// The answer of a check of a journal.
#[derive(Drop)]
pub enum Answer {
    /// This line, counted from 1, is the first that is no line of a journal.
    BadLine(usize),
    /// The reports are those of a run of the events. If the journal is to be whole, its lines are in order, too.
    Yes,
    /// The pair in this line is the first that no step allows. Or all pairs are steps, the journal is to be whole, and this
    /// line is the first out of order.
    No(Failure),
}

// The line of the first pair that failed, and what the machine could have answered.
#[derive(Drop)]
struct Failed {
    line: usize,
    answer: Option<Report>,
}

// A trace of the lines so far, and the pair at which it failed, if it did.
#[derive(Drop)]
struct Checking {
    trace: Trace,
    failed: Option<Failed>,
}

// What all lines of a journal lead to: the pair that failed, if one did, the order of the lines, and the number that a further
// line would have.
#[derive(Drop)]
struct Checked {
    failed: Option<Failed>,
    order: Order,
    next: usize,
}

// The end of reading a journal: its first bad line, or what all its lines lead to.
#[derive(Drop)]
enum Reading {
    BadLine(usize),
    All(Checked),
}

// Returns the mark of a line, for the order of the lines.
fn mark_of(item: &JournalLine) -> Mark
    ensures { result ≡ mark_of item.now }
{
    match item {
        JournalLine::Ran(event, report) => pair_mark(event, report),
        JournalLine::Now(n) => Mark::Now(*n),
        JournalLine::Park(limit) => Mark::Park(*limit),
        JournalLine::Main(output) => Mark::Main(*output),
    }
}

// Takes the pair in a line with this number, unless an earlier pair has failed.
#[inline(always)]
fn take_pair(
    alloc: Global,
    checking: &mut Checking,
    event: &Event,
    report: &Report,
    line: usize,
) -> Result<(), AllocError>
    requires counted { 0 < line }
    requires few { HasFewArms (line - 1) (machine_of checking.old.trace) }
    ensures leads { OnOk result (LeadsOn line (JournalLine.Ran event.now report.now) checking.old.failed (machine_of checking.old.trace) checking.new.failed (machine_of checking.new.trace)) }
    ensures few { OnOk result (HasFewArms line (machine_of checking.new.trace)) }
{
    if checking.failed.is_some() {
        return Ok(());
    }
    if !checking.trace.step(alloc, event, report)? {
        let answer = checking.trace.answer(alloc, event)?;
        checking.failed = Some(Failed { line, answer });
    }
    Ok(())
}

// Takes the content of the line with this number: a pair, unless an earlier pair has failed. It skips the other lines.
#[inline(always)]
fn take_line(
    alloc: Global,
    checking: &mut Checking,
    item: &JournalLine,
    line: usize,
) -> Result<(), AllocError>
    requires counted { 0 < line }
    requires few { HasFewArms (line - 1) (machine_of checking.old.trace) }
    ensures leads { OnOk result (LeadsOn line item.now checking.old.failed (machine_of checking.old.trace) checking.new.failed (machine_of checking.new.trace)) }
    ensures few { OnOk result (HasFewArms line (machine_of checking.new.trace)) }
{
    match item {
        JournalLine::Ran(event, report) => take_pair(alloc, checking, event, report, line),
        JournalLine::Now(_) => Ok(()),
        JournalLine::Park(_) => Ok(()),
        JournalLine::Main(_) => Ok(()),
    }
}

// Keeps the list of a turn's steps for the next turn.
#[inline(always)]
fn keep_list(item: JournalLine, spare: &mut List<TurnStep>) {
    if let JournalLine::Ran(event, _) = item {
        if let Event::Turn(steps, _) = event {
            *spare = steps;
        }
    }
}

// Takes the next line, which has this number, and its place in the order if the journal is to be whole. Returns false if it
// is no line of a journal.
#[inline(always)]
fn take_next(
    alloc: Global,
    is_whole: bool,
    checking: &mut Checking,
    order: &mut Order,
    reader: &mut Reader,
    spare: &mut List<TurnStep>,
    line: usize,
) -> Result<bool, AllocError>
    requires counted { 0 < line }
    requires few { HasFewArms (line - 1) (machine_of checking.old.trace) }
    ensures taken { IfOk result (λ taken. taken ≡ true → (item : JournalLine) × BeginsWith reader.old.rest.now item reader.new.rest.now × LeadsOn line item checking.old.failed (machine_of checking.old.trace) checking.new.failed (machine_of checking.new.trace) × KeepsOrder is_whole line item order.old order.new) }
    ensures none { IfOk result (λ taken. taken ≡ false → BeginsWithNone reader.old.rest.now) }
    ensures few { OnOk result (HasFewArms line (machine_of checking.new.trace)) }
{
    let Some(item) = read_line(alloc, reader, spare)? else {
        return Ok(false);
    };
    if is_whole {
        order.take(mark_of(&item), line);
    }
    take_line(alloc, checking, &item, line)?;
    keep_list(item, spare);
    Ok(true)
}

// Reads all lines, and checks them from the start machine with these limits and this strategy.
fn read_lines(
    alloc: Global,
    is_whole: bool,
    limits: Limits,
    blocking: Blocking,
    input: &[u8],
) -> Result<Reading, AllocError>
    ensures { IfOk result (λ reading. IsReading is_whole limits blocking input.now reading) }
{
    let mut checking = Checking {
        trace: Trace::new(alloc, limits, blocking),
        failed: None,
    };
    let mut order = Order::new();
    let mut reader = Reader::new(input);
    let mut spare = List::new(alloc);
    let mut count = 0usize;
    'lines: while !reader.is_empty() {
        if !take_next(
            alloc,
            is_whole,
            &mut checking,
            &mut order,
            &mut reader,
            &mut spare,
            count + 1,
        )? {
            return Ok(Reading::BadLine(count + 1));
        }
        count += 1;
    }
    Ok(Reading::All(Checked {
        failed: checking.failed,
        order,
        next: count + 1,
    }))
}

// Returns the answer to a journal by its first pair that failed.
fn answer_of(failed: Option<Failed>) -> Answer
    ensures { (limits : Limits) (blocking : Blocking) (input : List ℕ) (said : List JournalLine) (m : Machine) → AreJournalLines said (lines input) → StandsAt (start_machine limits blocking) said failed m → IsAnswer limits blocking input result }
{
    match failed {
        Some(failed) => Answer::No(Failure {
            line: failed.line,
            cause: Cause::Pair(failed.answer),
        }),
        None => Answer::Yes,
    }
}

// Returns the answer to a journal that is to be whole. The next line would have this number.
fn whole_answer_of(failed: Option<Failed>, order: &Order, line: usize) -> Answer
    ensures { (limits : Limits) (blocking : Blocking) (input : List ℕ) (said : List JournalLine) (m : Machine) → line ≡ length said + 1 → AreJournalLines said (lines input) → StandsAt (start_machine limits blocking) said failed m → Follows (map mark_of said) order.now → IsWholeAnswer limits blocking input result }
{
    match failed {
        Some(failed) => Answer::No(Failure {
            line: failed.line,
            cause: Cause::Pair(failed.answer),
        }),
        None => match order.misplaced(line) {
            None => Answer::Yes,
            Some((line, stage)) => Answer::No(Failure {
                line,
                cause: Cause::Order(stage),
            }),
        },
    }
}

/// Returns whether a journal is a run of the machine, from the start machine with these limits and this strategy.
///
/// Names the first line that is no line of a journal, anywhere in the input. Otherwise the answer is that of
/// [`mono_trace::check`] on the pairs of events and reports, with the line of the pair in place of its index. It passes over
/// the lines `now`, `park` and `main`.
pub fn check_lines(
    alloc: Global,
    limits: Limits,
    blocking: Blocking,
    input: &[u8],
) -> Result<Answer, AllocError>
    ensures { IfOk result (λ answer. IsAnswer limits blocking input.now answer) }
{
    match read_lines(alloc, false, limits, blocking, input)? {
        Reading::BadLine(line) => Ok(Answer::BadLine(line)),
        Reading::All(checked) => Ok(answer_of(checked.failed)),
    }
}

/// Returns whether a journal is that of one or more whole calls of `block_on` on a new runtime with these limits and this
/// strategy, one call after the other.
///
/// Names the first line that is no line of a journal, and the first pair that no step allows, as [`check_lines`] does. If
/// all pairs are steps, the lines have to be in the order of such calls (`misplaced` in `mono_trace/specs/Order`); the
/// first line out of order is named, which may be missing after the last.
pub fn check_whole(
    alloc: Global,
    limits: Limits,
    blocking: Blocking,
    input: &[u8],
) -> Result<Answer, AllocError>
    ensures { IfOk result (λ answer. IsWholeAnswer limits blocking input.now answer) }
{
    match read_lines(alloc, true, limits, blocking, input)? {
        Reading::BadLine(line) => Ok(Answer::BadLine(line)),
        Reading::All(checked) => Ok(whole_answer_of(checked.failed, &checked.order, checked.next)),
    }
}
