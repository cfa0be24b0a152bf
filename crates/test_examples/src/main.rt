//! Examples through the top call. Standard input holds the title, the words and the input of each example. Standard
//! output gets for each its title, its words, the bytes that the top call writes, and its status.
#![tactic(auto)]

mod rows;

use mono_model::Host;
use mono_script::{
    Instant, ListClock, NoSpawner, PlainSource, StdinSource, StdoutSink, program, read_all,
    write_all,
};
use rows::{BETWEEN, MARK, Row, row_of};
use std::alloc::{AllocError, Global};
use std::process::ExitCode;

fn words_of(alloc: Global, text: &str) -> Result<Vec<String>, AllocError> {
    let mut words = Vec::new(alloc);
    for word in text.split(' ') {
        words.push(String::from_str(alloc, word)?)?;
    }
    Ok(words)
}

fn input_of(alloc: Global, lines: Option<&str>) -> Result<Vec<u8>, AllocError> {
    let mut input = Vec::new(alloc);
    if let Some(lines) = lines {
        input.extend_from_slice(lines.as_bytes())?;
        input.push(b'\n')?;
    }
    Ok(input)
}

// Returns a clock that always reads its beginning.
fn still_clock(alloc: Global) -> Option<ListClock> {
    let mut readings = Vec::new(alloc);
    readings.push(Instant::from_nanos(0)?).ok()?;
    Some(ListClock::new(readings))
}

fn put(sink: &mut StdoutSink, parts: &[&str]) -> Option<()> {
    for part in parts {
        write_all(sink, part.as_bytes()).ok()?;
    }
    Some(())
}

// Returns the status of the top call, which writes to the sink.
fn status_of<R: Host + Send + 'static>(
    rt: &R,
    alloc: Global,
    row: Row<'_>,
    sink: &mut StdoutSink,
) -> Option<u8> {
    let mut source = PlainSource::new(input_of(alloc, row.lines).ok()?);
    let words = words_of(alloc, row.words).ok()?;
    let clock = still_clock(alloc)?;
    let mut spawner = NoSpawner::new();
    Some(program(rt, alloc, &words, &mut source, sink, clock, &mut spawner))
}

fn answer<R: Host + Send + 'static>(
    rt: &R,
    alloc: Global,
    row: Row<'_>,
    sink: &mut StdoutSink,
) -> Option<()> {
    put(sink, &[MARK, row.title, "\n$ ", row.words, "\n"])?;
    let status = status_of(rt, alloc, row, sink)?;
    let mut buffer = itoa::Buffer::new();
    put(sink, &["= ", buffer.format(status), "\n"])
}

// Answers each row of the table, in order. Returns None if the table has another form, or if memory or the sink ends.
fn answer_all<R: Host + Send + 'static>(
    rt: &R,
    alloc: Global,
    table: &[u8],
    sink: &mut StdoutSink,
) -> Option<()> {
    let table = str::from_utf8(table).ok()?;
    let rows = table.strip_prefix(MARK)?.strip_suffix('\n')?;
    for text in rows.split(BETWEEN) {
        answer(rt, alloc, row_of(text)?, sink)?;
    }
    Some(())
}

fn main(rt: HostRuntime) -> ExitCode {
    let mut source = StdinSource::new(rt.stdin());
    let mut sink = StdoutSink::new(rt.stdout());
    let Ok(table) = read_all(rt.alloc(), &mut source) else {
        return ExitCode::FAILURE;
    };
    match answer_all(&rt, rt.alloc(), &table, &mut sink) {
        Some(()) => ExitCode::SUCCESS,
        None => ExitCode::FAILURE,
    }
}
