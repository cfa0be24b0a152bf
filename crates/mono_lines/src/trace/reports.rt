// The reader of report lines.
ghost use Rattle.std.specs.Prelude.{◌≡◌, [], None, length};
ghost use Rattle.mono_text.specs.Parser.{Gives, GivesIf};
ghost use Rattle.mono_lines.specs.ReportParser.{any_number_at, refusal_at, n_reply_at, e_reply_at, r_reply_at, other_reply_at, reply_at, ended_at, replies_at, numbers_at, report_at};

use mono_machine::{Ended, List, Refusal, Reply, Report, Woke};
use mono_text::Reader;
use std::alloc::{AllocError, Global};

/// Reads an optional number after a space. There is no answer if a space is here and no number follows.
pub(crate) fn any_number(reader: &mut Reader) -> Option<Option<u64>>
    ensures { Gives result reader.new.rest.now (any_number_at reader.old.rest.now) }
{
    if reader.take(b" ".as_slice()) {
        let n = reader.number()?;
        return Some(Some(n));
    }
    Some(None)
}

#[tactic(auto, unfolding(crate::specs::ReportParser::refusal_at))]
fn refusal(reader: &mut Reader) -> Option<Refusal>
    ensures { Gives result reader.new.rest.now (refusal_at reader.old.rest.now) }
{
    if reader.take(b"idle".as_slice()) {
        return Some(Refusal::Idle);
    }
    if reader.take(b"no-task".as_slice()) {
        return Some(Refusal::NoTask);
    }
    if reader.take(b"no-timer".as_slice()) {
        return Some(Refusal::NoTimer);
    }
    if reader.take(b"no-handle".as_slice()) {
        return Some(Refusal::NoHandle);
    }
    if reader.take(b"taken".as_slice()) {
        return Some(Refusal::Taken);
    }
    if reader.take(b"at-capacity".as_slice()) {
        return Some(Refusal::AtCapacity);
    }
    if reader.take(b"invalid".as_slice()) {
        return Some(Refusal::Invalid);
    }
    if reader.take(b"no-pool".as_slice()) {
        return Some(Refusal::NoPool);
    }
    if reader.take(b"ended".as_slice()) {
        return Some(Refusal::Ended);
    }
    None
}

// Reads a reply whose word begins with an n.
#[tactic(auto, unfolding(crate::specs::ReportParser::n_reply_at))]
fn n_reply(reader: &mut Reader) -> Option<Reply>
    ensures { Gives result reader.new.rest.now (n_reply_at reader.old.rest.now) }
{
    if reader.take(b"noted".as_slice()) {
        return Some(Reply::Woke(Woke::Noted));
    }
    if reader.take(b"nothing".as_slice()) {
        return Some(Reply::Woke(Woke::Nothing));
    }
    if reader.take(b"no".as_slice()) {
        return Some(Reply::No);
    }
    None
}

// Reads a reply whose word begins with an e.
#[tactic(auto, unfolding(crate::specs::ReportParser::e_reply_at))]
fn e_reply(reader: &mut Reader) -> Option<Reply>
    ensures { Gives result reader.new.rest.now (e_reply_at reader.old.rest.now) }
{
    if reader.take(b"elapsed".as_slice()) {
        return Some(Reply::Elapsed);
    }
    if reader.take(b"ended".as_slice()) {
        let task = any_number(reader)?;
        return Some(Reply::Ended(task));
    }
    None
}

// Reads a reply whose word begins with an r.
#[tactic(auto, unfolding(crate::specs::ReportParser::r_reply_at))]
fn r_reply(reader: &mut Reader) -> Option<Reply>
    ensures { Gives result reader.new.rest.now (r_reply_at reader.old.rest.now) }
{
    if reader.take(b"ready".as_slice()) {
        return match any_number(reader)? {
            None => Some(Reply::Ready),
            Some(output) => Some(Reply::Output(output)),
        };
    }
    if reader.take(b"refused ".as_slice()) {
        let cause = refusal(reader)?;
        return Some(Reply::Refused(cause));
    }
    None
}

// Reads a reply whose first letter no other reply has.
#[tactic(auto, unfolding(crate::specs::ReportParser::other_reply_at))]
fn other_reply(reader: &mut Reader) -> Option<Reply>
    ensures { Gives result reader.new.rest.now (other_reply_at reader.old.rest.now) }
{
    if reader.take(b"sleep ".as_slice()) {
        let sleep = reader.number()?;
        return Some(Reply::Sleep(sleep));
    }
    if reader.take(b"pending".as_slice()) {
        return Some(Reply::Pending);
    }
    if reader.take(b"task ".as_slice()) {
        let task = reader.number()?;
        return Some(Reply::Task(task));
    }
    if reader.take(b"queued".as_slice()) {
        return Some(Reply::Woke(Woke::Queued));
    }
    if reader.take(b"armed".as_slice()) {
        return Some(Reply::Armed);
    }
    if reader.take(b"dropped".as_slice()) {
        let output = any_number(reader)?;
        return Some(Reply::Dropped(output));
    }
    if reader.take(b"job ".as_slice()) {
        let job = reader.number()?;
        return Some(Reply::Job(job));
    }
    if reader.take(b"yes".as_slice()) {
        return Some(Reply::Yes);
    }
    if reader.take(b"canceled".as_slice()) {
        return Some(Reply::Canceled);
    }
    None
}

// Reads a reply, by the next byte.
#[tactic(auto, unfolding(crate::specs::ReportParser::reply_at))]
fn reply(reader: &mut Reader) -> Option<Reply>
    ensures { Gives result reader.new.rest.now (reply_at reader.old.rest.now) }
{
    let first = reader.first();
    if first == b'n' {
        return n_reply(reader);
    }
    if first == b'e' {
        return e_reply(reader);
    }
    if first == b'r' {
        return r_reply(reader);
    }
    other_reply(reader)
}

// Reads how a turn ended, if that is here; otherwise nothing changes.
#[tactic(auto, unfolding(crate::specs::ReportParser::ended_at))]
fn turn_end(reader: &mut Reader) -> Option<Ended>
    ensures found { Gives result reader.new.rest.now (ended_at reader.old.rest.now) }
    ensures kept { result ≡ None → reader.new.rest.now ≡ reader.old.rest.now }
{
    if reader.take(b"idle".as_slice()) {
        return Some(Ended::Idle);
    }
    if reader.take(b"again".as_slice()) {
        return Some(Ended::Again);
    }
    if reader.take(b"done".as_slice()) {
        return Some(Ended::Done);
    }
    if reader.take(b"gone".as_slice()) {
        return Some(Ended::Gone);
    }
    None
}

// Reads the parts of the report of a task's turn, after the task's number.
fn replies(alloc: Global, reader: &mut Reader, task: u64) -> Result<Option<Report>, AllocError>
    ensures { GivesIf result reader.new.rest.now (replies_at (length reader.old.rest.now) task [] reader.old.rest.now) }
{
    let mut list = List::new(alloc);
    'parts: for _ in 0..reader.left() {
        if !reader.take(b"; ".as_slice()) {
            return Ok(None);
        }
        if let Some(ended) = turn_end(reader) {
            return Ok(Some(Report::Turn(task, list, ended)));
        }
        let Some(item) = reply(reader) else {
            return Ok(None);
        };
        list.push(item)?;
    }
    Ok(None)
}

// Reads numbers, each after a space.
fn numbers(alloc: Global, reader: &mut Reader) -> Result<Option<List<u64>>, AllocError>
    ensures { GivesIf result reader.new.rest.now (numbers_at (length reader.old.rest.now) [] reader.old.rest.now) }
{
    let mut list = List::new(alloc);
    'numbers: for _ in 0..reader.left() {
        if !reader.take(b" ".as_slice()) {
            return Ok(Some(list));
        }
        let Some(n) = reader.number() else {
            return Ok(None);
        };
        list.push(n)?;
    }
    Ok(Some(list))
}

/// Reads a report, without a line feed, and moves past it. Returns `None` if there is none here; the rest of the input
/// is then unspecified.
#[tactic(auto, unfolding(crate::specs::ReportParser::report_at))]
pub fn read_report(alloc: Global, reader: &mut Reader) -> Result<Option<Report>, AllocError>
    ensures { GivesIf result reader.new.rest.now (report_at reader.old.rest.now) }
{
    if reader.take(b"turn ".as_slice()) {
        let Some(task) = reader.number() else {
            return Ok(None);
        };
        return replies(alloc, reader, task);
    }
    if reader.take(b"fired".as_slice()) {
        let Some(list) = numbers(alloc, reader)? else {
            return Ok(None);
        };
        return Ok(Some(Report::Fired(list)));
    }
    if reader.take(b"drained".as_slice()) {
        let Some(list) = numbers(alloc, reader)? else {
            return Ok(None);
        };
        return Ok(Some(Report::Drained(list)));
    }
    if reader.take(b"listed".as_slice()) {
        return Ok(Some(Report::Listed));
    }
    if reader.take(b"unlisted".as_slice()) {
        return Ok(Some(Report::Unlisted));
    }
    let Some(item) = reply(reader) else {
        return Ok(None);
    };
    Ok(Some(Report::Reply(item)))
}
