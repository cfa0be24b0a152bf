// The text of an event, appended to a vector of bytes.
ghost use Rattle.std.specs.Prelude.{◌≡◌, ◌++◌, codes, decimal, OnOk};
ghost use Rattle.mono_text.specs.LineText.{how_text, act_text, query_text, step_text, end_text, parts_text, event_text};

use crate::{put_pair, put_word};
use itoa::Buffer;
use mono_machine::{Act, End, Event, How, Query, TurnStep};
use std::alloc::AllocError;

/// Appends a word, and a number of up to 128 bits after it.
pub fn put_nanos(out: &mut Vec<u8>, text: &[u8], n: u128) -> Result<(), AllocError>
    ensures { OnOk result (out.new.items ≡ out.old.items ++ (text.now ++ decimal n)) }
{
    put_word(out, text)?;
    let mut buffer = Buffer::new();
    out.extend_from_slice(buffer.format(n).as_bytes())
}

fn how_word(how: How) -> &'static [u8]
    ensures { result.now ≡ codes " " ++ how_text how }
{
    match how {
        How::Ran => b" ran".as_slice(),
        How::Canceled => b" canceled".as_slice(),
    }
}

// Appends the word, a number, and a second number after it.
fn put_reset(out: &mut Vec<u8>, sleep: u64, n: u128) -> Result<(), AllocError>
    ensures { OnOk result (out.new.items ≡ out.old.items ++ act_text (Act.Reset sleep n)) }
{
    put_pair(out, b"reset ".as_slice(), sleep)?;
    put_nanos(out, b" ".as_slice(), n)
}

fn put_job_end(out: &mut Vec<u8>, job: u64, how: How) -> Result<(), AllocError>
    ensures { OnOk result (out.new.items ≡ out.old.items ++ act_text (Act.JobEnd job how)) }
{
    put_pair(out, b"job-end ".as_slice(), job)?;
    put_word(out, how_word(how))
}

fn put_act(out: &mut Vec<u8>, act: Act) -> Result<(), AllocError>
    ensures { OnOk result (out.new.items ≡ out.old.items ++ act_text act) }
{
    match act {
        Act::Spawn => put_word(out, b"spawn".as_slice()),
        Act::Wake(task) => put_pair(out, b"wake ".as_slice(), task),
        Act::NewSleep(n) => put_nanos(out, b"sleep ".as_slice(), n),
        Act::Reset(sleep, n) => put_reset(out, sleep, n),
        Act::DropSleep(sleep) => put_pair(out, b"drop-sleep ".as_slice(), sleep),
        Act::DropJoin(task) => put_pair(out, b"drop-join ".as_slice(), task),
        Act::Block(output) => put_pair(out, b"block ".as_slice(), output),
        Act::DropJob(job) => put_pair(out, b"drop-job ".as_slice(), job),
        Act::Finished(task) => put_pair(out, b"finished ".as_slice(), task),
        Act::JobFinished(job) => put_pair(out, b"job-finished ".as_slice(), job),
        Act::SleepElapsed(sleep) => put_pair(out, b"elapsed ".as_slice(), sleep),
        Act::JobEnd(job, how) => put_job_end(out, job, how),
    }
}

fn put_query(out: &mut Vec<u8>, query: Query) -> Result<(), AllocError>
    ensures { OnOk result (out.new.items ≡ out.old.items ++ query_text query) }
{
    match query {
        Query::Sleep(sleep) => put_pair(out, b"poll ".as_slice(), sleep),
        Query::Join(task) => put_pair(out, b"join ".as_slice(), task),
        Query::Job(job) => put_pair(out, b"job ".as_slice(), job),
    }
}

fn put_step(out: &mut Vec<u8>, step: TurnStep) -> Result<(), AllocError>
    ensures { OnOk result (out.new.items ≡ out.old.items ++ step_text step) }
{
    match step {
        TurnStep::Act(act) => put_act(out, act),
        TurnStep::Query(query) => put_query(out, query),
    }
}

fn put_end(out: &mut Vec<u8>, end: End) -> Result<(), AllocError>
    ensures { OnOk result (out.new.items ≡ out.old.items ++ end_text end) }
{
    match end {
        End::Pending => put_word(out, b"pending".as_slice()),
        End::Ready(output) => put_pair(out, b"ready ".as_slice(), output),
    }
}

// Appends one part of a turn.
fn put_part(out: &mut Vec<u8>, step: TurnStep) -> Result<(), AllocError>
    ensures { OnOk result (out.new.items ≡ out.old.items ++ (codes "; " ++ step_text step)) }
{
    put_word(out, b"; ".as_slice())?;
    put_step(out, step)
}

// Appends the last part of a turn.
fn put_last(out: &mut Vec<u8>, end: End) -> Result<(), AllocError>
    ensures { OnOk result (out.new.items ≡ out.old.items ++ (codes "; " ++ end_text end)) }
{
    put_word(out, b"; ".as_slice())?;
    put_end(out, end)
}

// Appends the parts of a turn.
fn put_parts(out: &mut Vec<u8>, steps: &[TurnStep], end: End) -> Result<(), AllocError>
    ensures { OnOk result (out.new.items ≡ out.old.items ++ parts_text steps.now end) }
{
    for item in steps {
        put_part(out, *item)?;
    }
    put_last(out, end)
}

fn put_turn(out: &mut Vec<u8>, steps: &[TurnStep], end: End) -> Result<(), AllocError>
    ensures { OnOk result (out.new.items ≡ out.old.items ++ (codes "turn" ++ parts_text steps.now end)) }
{
    put_word(out, b"turn".as_slice())?;
    put_parts(out, steps, end)
}

/// Appends the text of an event: its one spelling, without a line feed.
pub fn put_event(out: &mut Vec<u8>, item: &Event) -> Result<(), AllocError>
    ensures { OnOk result (out.new.items ≡ out.old.items ++ event_text item.now) }
{
    match item {
        Event::Act(act) => put_act(out, *act),
        Event::Turn(steps, end) => put_turn(out, steps.as_slice(), *end),
        Event::Clock(n) => put_nanos(out, b"clock ".as_slice(), *n),
        Event::Remote(task) => put_pair(out, b"remote ".as_slice(), *task),
        Event::Drain => put_word(out, b"drain".as_slice()),
    }
}
