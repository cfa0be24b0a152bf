// The reader of calls.
ghost use Rattle.mono_text.specs.Parser.{Gives, GivesIf, call_line_at};
ghost use Rattle.mono_lines.specs.Pairs.{pair_at};
ghost use Rattle.mono_lines.specs.SessionParser.{call_at, queue_call_at};
ghost use Rattle.mono_lines.specs.declared.session.calls.SessionCall.TheVariants as line;

use crate::session::calls::SessionCall;
use mono_text::Reader;
use std::alloc::AllocError;

fn acquire(reader: &mut Reader) -> Option<SessionCall>
    ensures { Gives result reader.new.rest.now (pair_at line.Acquire reader.old.rest.now) }
{
    let session = reader.number()?;
    let key = reader.number_behind()?;
    Some(SessionCall::Acquire(session, key))
}

fn release(reader: &mut Reader) -> Option<SessionCall>
    ensures { Gives result reader.new.rest.now (pair_at line.Release reader.old.rest.now) }
{
    let session = reader.number()?;
    let key = reader.number_behind()?;
    Some(SessionCall::Release(session, key))
}

// Reads a call on the queues of keys.
#[tactic(auto, unfolding(crate::specs::SessionParser::queue_call_at))]
fn queue_call(reader: &mut Reader) -> Option<SessionCall>
    ensures { Gives result reader.new.rest.now (queue_call_at reader.old.rest.now) }
{
    if reader.take(b"acquire ".as_slice()) {
        return acquire(reader);
    }
    if reader.take(b"release ".as_slice()) {
        return release(reader);
    }
    if reader.take(b"owner ".as_slice()) {
        let key = reader.number()?;
        return Some(SessionCall::Owner(key));
    }
    None
}

// Reads a call, without its line feed.
#[tactic(auto, unfolding(crate::specs::SessionParser::call_at))]
fn call(reader: &mut Reader) -> Option<SessionCall>
    ensures { Gives result reader.new.rest.now (call_at reader.old.rest.now) }
{
    if reader.take(b"beat ".as_slice()) {
        let session = reader.number()?;
        return Some(SessionCall::Beat(session));
    }
    if reader.take(b"clock ".as_slice()) {
        let n = reader.nanos()?;
        return Some(SessionCall::Clock(n));
    }
    if reader.take(b"open ".as_slice()) {
        let limit = reader.number()?;
        return Some(SessionCall::Open(limit));
    }
    if reader.take(b"close ".as_slice()) {
        let session = reader.number()?;
        return Some(SessionCall::Close(session));
    }
    queue_call(reader)
}

// Reads the next line's call, if it is one.
pub(crate) fn call_line(reader: &mut Reader) -> Result<Option<SessionCall>, AllocError>
    ensures { GivesIf result reader.new.rest.now (call_line_at call_at reader.old.rest.now) }
{
    let Some(found) = call(reader) else {
        return Ok(None);
    };
    if reader.take(b"\n".as_slice()) {
        return Ok(Some(found));
    }
    Ok(None)
}
