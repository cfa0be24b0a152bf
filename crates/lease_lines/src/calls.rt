// The reader of a request's call.
ghost use Rattle.mono_text.specs.Parser.{Gives};
ghost use Rattle.lease_lines.specs.Parser.{one_at, two_at, three_at, token_call_at, mail_call_at, look_call_at, call_at};

use lease_core::Call;
use mono_text::Reader;

/// A call, with the key of its request.
#[derive(Clone, Copy, Debug, PartialEq, Eq, Drop)]
pub struct KeyCall {
    pub key: u64,
    pub call: Call,
}

// Reads a key and one number after it.
fn one(reader: &mut Reader) -> Option<(u64, u64)>
    ensures { Gives result reader.new.rest.now (one_at reader.old.rest.now) }
{
    let key = reader.number()?;
    let first = reader.number_behind()?;
    Some((key, first))
}

// Reads a key and two numbers after it.
fn two(reader: &mut Reader) -> Option<(u64, u64, u64)>
    ensures { Gives result reader.new.rest.now (two_at reader.old.rest.now) }
{
    let key = reader.number()?;
    let first = reader.number_behind()?;
    let second = reader.number_behind()?;
    Some((key, first, second))
}

// Reads a key and three numbers after it.
fn three(reader: &mut Reader) -> Option<(u64, u64, u64, u64)>
    ensures { Gives result reader.new.rest.now (three_at reader.old.rest.now) }
{
    let key = reader.number()?;
    let first = reader.number_behind()?;
    let second = reader.number_behind()?;
    let third = reader.number_behind()?;
    Some((key, first, second, third))
}

// Reads a try, or a question.
#[tactic(auto, unfolding(crate::specs::Parser::look_call_at))]
fn look_call(reader: &mut Reader) -> Option<KeyCall>
    ensures { Gives result reader.new.rest.now (look_call_at reader.old.rest.now) }
{
    if reader.take(b"try ".as_slice()) {
        let (key, session) = one(reader)?;
        return Some(KeyCall {
            key,
            call: Call::Try(session),
        });
    }
    if reader.take(b"owner ".as_slice()) {
        let key = reader.number()?;
        return Some(KeyCall {
            key,
            call: Call::Owner,
        });
    }
    if reader.take(b"stats ".as_slice()) {
        let key = reader.number()?;
        return Some(KeyCall {
            key,
            call: Call::Count,
        });
    }
    None
}

// Reads a call on the mailboxes, a try, or a question.
#[tactic(auto, unfolding(crate::specs::Parser::mail_call_at))]
fn mail_call(reader: &mut Reader) -> Option<KeyCall>
    ensures { Gives result reader.new.rest.now (mail_call_at reader.old.rest.now) }
{
    if reader.take(b"send ".as_slice()) {
        let (key, from, to, message) = three(reader)?;
        return Some(KeyCall {
            key,
            call: Call::Send(from, to, message),
        });
    }
    if reader.take(b"receive ".as_slice()) {
        let key = reader.number()?;
        return Some(KeyCall {
            key,
            call: Call::Receive,
        });
    }
    if reader.take(b"spawn ".as_slice()) {
        let key = reader.number()?;
        return Some(KeyCall {
            key,
            call: Call::Spawn,
        });
    }
    look_call(reader)
}

// Reads a call that is not one of the five on the leases.
#[tactic(auto, unfolding(crate::specs::Parser::token_call_at))]
fn token_call(reader: &mut Reader) -> Option<KeyCall>
    ensures { Gives result reader.new.rest.now (token_call_at reader.old.rest.now) }
{
    if reader.take(b"take ".as_slice()) {
        let (key, bucket, n) = two(reader)?;
        return Some(KeyCall {
            key,
            call: Call::Take(bucket, n),
        });
    }
    if reader.take(b"bucket ".as_slice()) {
        let (key, burst, period) = two(reader)?;
        return Some(KeyCall {
            key,
            call: Call::Bucket(burst, period),
        });
    }
    mail_call(reader)
}

/// Reads a call.
#[tactic(auto, unfolding(crate::specs::Parser::call_at))]
pub fn call(reader: &mut Reader) -> Option<KeyCall>
    ensures { Gives result reader.new.rest.now (call_at reader.old.rest.now) }
{
    if reader.take(b"acquire ".as_slice()) {
        let (key, session) = one(reader)?;
        return Some(KeyCall {
            key,
            call: Call::Acquire(session),
        });
    }
    if reader.take(b"release ".as_slice()) {
        let (key, session) = one(reader)?;
        return Some(KeyCall {
            key,
            call: Call::Release(session),
        });
    }
    if reader.take(b"beat ".as_slice()) {
        let (key, session) = one(reader)?;
        return Some(KeyCall {
            key,
            call: Call::Beat(session),
        });
    }
    if reader.take(b"open ".as_slice()) {
        let (key, limit) = one(reader)?;
        return Some(KeyCall {
            key,
            call: Call::Open(limit),
        });
    }
    if reader.take(b"close ".as_slice()) {
        let (key, session) = one(reader)?;
        return Some(KeyCall {
            key,
            call: Call::Close(session),
        });
    }
    token_call(reader)
}
