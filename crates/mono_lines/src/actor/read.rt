// The reader of calls.
ghost use Rattle.std.specs.Prelude.{◌≡◌, IfOk, IfSome, IfNone};
ghost use Rattle.mono_text.specs.Parser.{Gives, GivesIf, call_line_at};
ghost use Rattle.mono_text.specs.Services.{StartsWith, StartsWithNone};
ghost use Rattle.mono_lines.specs.ActorTexts.{line_text, FitsLine};
ghost use Rattle.mono_lines.specs.ActorParser.{handed_at, send_at, timeout_at, stop_at, part_at, turn_at, plain_at, call_at};

use crate::actor::words::{ActorLine, Handed};
use mono_machine::List;
use mono_text::Reader;
use std::alloc::{AllocError, Global};

// Reads the receiver and the content of a message.
#[tactic(auto, unfolding(crate::specs::ActorParser::handed_at))]
fn read_handed(reader: &mut Reader) -> Option<Handed>
    ensures { Gives result reader.new.rest.now (handed_at reader.old.rest.now) }
{
    let to = reader.number()?;
    let message = reader.number_behind()?;
    Some(Handed { to, message })
}

// Reads a message from an actor, after its word.
#[tactic(auto, unfolding(crate::specs::ActorParser::send_at))]
fn read_send(reader: &mut Reader) -> Option<ActorLine>
    ensures { Gives result reader.new.rest.now (send_at reader.old.rest.now) }
{
    let from = reader.number()?;
    if !reader.take(b" ".as_slice()) {
        return None;
    }
    let handed = read_handed(reader)?;
    Some(ActorLine::Send(from, handed.to, handed.message))
}

// Reads a receive timeout, after its word.
#[tactic(auto, unfolding(crate::specs::ActorParser::timeout_at))]
fn read_timeout(reader: &mut Reader) -> Option<ActorLine>
    ensures { Gives result reader.new.rest.now (timeout_at reader.old.rest.now) }
{
    let actor = reader.number()?;
    let ms = reader.number_behind()?;
    Some(ActorLine::Timeout(actor, ms))
}

// Reads how a turn ends, if its end is here: whether the actor stops. Otherwise nothing changes.
#[tactic(auto, unfolding(crate::specs::ActorParser::stop_at))]
fn read_stop(reader: &mut Reader) -> Option<bool>
    ensures stop { Gives result reader.new.rest.now (stop_at reader.old.rest.now) }
    ensures kept { IfNone result (reader.new.rest.now ≡ reader.old.rest.now) }
{
    if reader.take(b"stay".as_slice()) {
        return Some(false);
    }
    if reader.take(b"stop".as_slice()) {
        return Some(true);
    }
    None
}

// Reads a message that the running actor sends.
#[tactic(auto, unfolding(crate::specs::ActorParser::part_at))]
fn read_part(reader: &mut Reader) -> Option<Handed>
    ensures { Gives result reader.new.rest.now (part_at reader.old.rest.now) }
{
    if reader.take(b"send ".as_slice()) {
        return read_handed(reader);
    }
    None
}

// Reads the parts of a turn, after its word.
fn read_turn(alloc: Global, reader: &mut Reader) -> Result<Option<ActorLine>, AllocError>
    ensures { GivesIf result reader.new.rest.now (turn_at reader.old.rest.now) }
{
    let mut sends = List::new(alloc);
    'parts: while reader.take(b"; ".as_slice()) {
        if let Some(stop) = read_stop(reader) {
            return Ok(Some(ActorLine::Turn(sends, stop)));
        }
        let Some(handed) = read_part(reader) else {
            return Ok(None);
        };
        sends.push(handed)?;
    }
    Ok(None)
}

// Reads a call that is no turn.
#[tactic(auto, unfolding(crate::specs::ActorParser::plain_at))]
fn read_plain(reader: &mut Reader) -> Option<ActorLine>
    ensures { Gives result reader.new.rest.now (plain_at reader.old.rest.now) }
{
    if reader.take(b"actor".as_slice()) {
        return Some(ActorLine::Actor);
    }
    if reader.take(b"send ".as_slice()) {
        return read_send(reader);
    }
    if reader.take(b"timeout ".as_slice()) {
        return read_timeout(reader);
    }
    if reader.take(b"clock ".as_slice()) {
        let n = reader.nanos()?;
        return Some(ActorLine::Clock(n));
    }
    None
}

// Reads a call, without its line feed.
#[tactic(auto, unfolding(crate::specs::ActorParser::call_at))]
fn read_call(alloc: Global, reader: &mut Reader) -> Result<Option<ActorLine>, AllocError>
    ensures { GivesIf result reader.new.rest.now (call_at reader.old.rest.now) }
{
    if reader.take(b"turn".as_slice()) {
        return read_turn(alloc, reader);
    }
    Ok(read_plain(reader))
}

// Reads the next line's call, if it is one.
fn read_line(alloc: Global, reader: &mut Reader) -> Result<Option<ActorLine>, AllocError>
    ensures { GivesIf result reader.new.rest.now (call_line_at call_at reader.old.rest.now) }
{
    let Some(call) = read_call(alloc, reader)? else {
        return Ok(None);
    };
    if reader.take(b"\n".as_slice()) {
        return Ok(Some(call));
    }
    Ok(None)
}

/// Reads the next line's call, and moves past the line. Returns `None` if the line is no call; the rest of the input is
/// then unspecified.
pub fn next_line(alloc: Global, reader: &mut Reader) -> Result<Option<ActorLine>, AllocError>
    ensures found { IfOk result (λ found. IfSome found (λ call. StartsWith line_text FitsLine reader.old.rest.now call reader.new.rest.now)) }
    ensures none { IfOk result (λ found. IfNone found (StartsWithNone line_text FitsLine reader.old.rest.now)) }
{
    read_line(alloc, reader)
}
