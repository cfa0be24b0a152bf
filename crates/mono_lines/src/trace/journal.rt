// One line of a journal.
ghost use Rattle.std.specs.Prelude.{IfOk, IfSome, IfNone};
ghost use Rattle.mono_text.specs.Parser.{GivesIf};
ghost use Rattle.mono_lines.specs.ReportParser.{pair_at, journal_at, line_at};
ghost use Rattle.mono_lines.specs.Journal.{BeginsWith, BeginsWithNone};

use crate::trace::reports::{any_number, read_report};
use mono_machine::{Event, List, Report, TurnStep};
use mono_text::Reader;
use std::alloc::{AllocError, Global};

/// The content of a line of a journal.
#[derive(Drop)]
pub enum JournalLine {
    /// An event with its report.
    Ran(Event, Report),
    /// The clock's reading, in nanoseconds.
    Now(u128),
    /// The driver was parked, with a timeout of this number of milliseconds if it has one.
    Park(Option<u64>),
    /// The output of the main task.
    Main(u64),
}

// Reads an event with its report.
fn pair(
    alloc: Global,
    reader: &mut Reader,
    spare: &mut List<TurnStep>,
) -> Result<Option<JournalLine>, AllocError>
    ensures { GivesIf result reader.new.rest.now (pair_at reader.old.rest.now) }
{
    let Some(event) = reader.event(alloc, spare)? else {
        return Ok(None);
    };
    if !reader.take(b" -> ".as_slice()) {
        return Ok(None);
    }
    let Some(report) = read_report(alloc, reader)? else {
        return Ok(None);
    };
    Ok(Some(JournalLine::Ran(event, report)))
}

// Reads the content of a line, without its line feed.
#[tactic(auto, unfolding(crate::specs::ReportParser::journal_at))]
fn journal(
    alloc: Global,
    reader: &mut Reader,
    spare: &mut List<TurnStep>,
) -> Result<Option<JournalLine>, AllocError>
    ensures { GivesIf result reader.new.rest.now (journal_at reader.old.rest.now) }
{
    if reader.take(b"now ".as_slice()) {
        let Some(n) = reader.nanos() else {
            return Ok(None);
        };
        return Ok(Some(JournalLine::Now(n)));
    }
    if reader.take(b"park".as_slice()) {
        let Some(millis) = any_number(reader) else {
            return Ok(None);
        };
        return Ok(Some(JournalLine::Park(millis)));
    }
    if reader.take(b"main ".as_slice()) {
        let Some(output) = reader.number() else {
            return Ok(None);
        };
        return Ok(Some(JournalLine::Main(output)));
    }
    pair(alloc, reader, spare)
}

// Reads the next line as the definitions of `Parser` do.
#[tactic(auto, unfolding(crate::specs::ReportParser::line_at))]
fn line_read(
    alloc: Global,
    reader: &mut Reader,
    spare: &mut List<TurnStep>,
) -> Result<Option<JournalLine>, AllocError>
    ensures { GivesIf result reader.new.rest.now (line_at reader.old.rest.now) }
{
    let Some(said) = journal(alloc, reader, spare)? else {
        return Ok(None);
    };
    if reader.take(b"\n".as_slice()) {
        return Ok(Some(said));
    }
    Ok(None)
}

/// Reads the next line of a journal, and moves past it. Returns `None` if it is no line of a journal; the rest of the
/// input is then unspecified.
///
/// Stores the steps of a turn in the spare list, so one list serves for all turns. Nothing else happens to it. By the
/// law `one_line` a written line is read back as the same content.
pub fn read_line(
    alloc: Global,
    reader: &mut Reader,
    spare: &mut List<TurnStep>,
) -> Result<Option<JournalLine>, AllocError>
    ensures found { IfOk result (λ found. IfSome found (λ said. BeginsWith reader.old.rest.now said reader.new.rest.now)) }
    ensures none { IfOk result (λ found. IfNone found (BeginsWithNone reader.old.rest.now)) }
{
    line_read(alloc, reader, spare)
}
