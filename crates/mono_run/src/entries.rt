// A journal as text.
ghost use Rattle.std.specs.Prelude.{◌≡◌, ◌++◌, flat_map, map, IfOk, OnOk};
ghost use Rattle.mono_run.specs.Journal.{entry_line, journal_text};
ghost use Rattle.mono_run.specs.RunRecord.{told, main_text};

use mono_rt::{Entry, Event, Journal, Report};
use mono_text::{put_event, put_nanos, put_pair, put_word, report_line};
use std::alloc::{AllocError, Global};

// Appends an event, an arrow, and its report.
fn put_ran(out: &mut Vec<u8>, event: &Event, report: &Report) -> Result<(), AllocError>
    ensures { OnOk result (out.new.items ≡ out.old.items ++ entry_line (told (Entry.Ran event.now report.now))) }
{
    put_event(out, event)?;
    put_word(out, b" -> ".as_slice())?;
    report_line(out, report)
}

fn put_now(out: &mut Vec<u8>, nanos: u128) -> Result<(), AllocError>
    ensures { OnOk result (out.new.items ≡ out.old.items ++ entry_line (told (Entry.Now nanos))) }
{
    put_nanos(out, b"now ".as_slice(), nanos)?;
    put_word(out, b"\n".as_slice())
}

fn put_park(out: &mut Vec<u8>, millis: Option<u64>) -> Result<(), AllocError>
    ensures { OnOk result (out.new.items ≡ out.old.items ++ entry_line (told (Entry.Park millis))) }
{
    match millis {
        Some(millis) => {
            put_pair(out, b"park ".as_slice(), millis)?;
            put_word(out, b"\n".as_slice())
        }
        None => put_word(out, b"park\n".as_slice()),
    }
}

/// Appends the line of a journal's entry: its one spelling, and a line feed.
pub fn put_entry(out: &mut Vec<u8>, entry: &Entry) -> Result<(), AllocError>
    ensures { OnOk result (out.new.items ≡ out.old.items ++ entry_line (told entry.now)) }
{
    match entry {
        Entry::Ran(event, report) => put_ran(out, event, report),
        Entry::Now(nanos) => put_now(out, *nanos),
        Entry::Park(millis) => put_park(out, *millis),
    }
}

// Appends the line of the main task's output, if it gave one.
fn put_main(out: &mut Vec<u8>, output: Option<u64>) -> Result<(), AllocError>
    ensures { OnOk result (out.new.items ≡ out.old.items ++ main_text output) }
{
    match output {
        Some(output) => {
            put_pair(out, b"main ".as_slice(), output)?;
            put_word(out, b"\n".as_slice())
        }
        None => Ok(()),
    }
}

// Appends the lines of a journal's entries.
fn put_entries(out: &mut Vec<u8>, journal: &Journal) -> Result<(), AllocError>
    ensures { OnOk result (out.new.items ≡ out.old.items ++ flat_map entry_line (map told journal.now.entries.items)) }
{
    'entries: for place in 0..journal.len() {
        match journal.get(place) {
            Some(entry) => put_entry(out, entry)?,
            None => unreachable!(),
        }
    }
    Ok(())
}

/// Returns the lines of a journal, and after them the line of the main task's output, if it gave one.
pub fn journal_lines(
    alloc: Global,
    journal: &Journal,
    output: Option<u64>,
) -> Result<Vec<u8>, AllocError>
    ensures { IfOk result (λ text. text.items ≡ journal_text (map told journal.now.entries.items) output) }
{
    let mut out = Vec::new(alloc);
    put_entries(&mut out, journal)?;
    put_main(&mut out, output)?;
    Ok(out)
}
