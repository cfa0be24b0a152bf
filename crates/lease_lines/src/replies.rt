// Replies as lines.
ghost use Rattle.std.specs.Prelude.{◌≡◌, ◌++◌, ◌∷◌, [], IfOk, OnOk, decimal};
ghost use Rattle.lease_lines.specs.Replies.{take_text, sent_text, got_text, counts_text, outcome_text, stamp_text, reply_text, reply_lines, bad_text};

use crate::causes::{lease_cause, limit_cause, mail_cause};
use lease_core::{Counts, Outcome, Reply};
use mono_actor::{Got, Sent};
use mono_limit::Take;
use mono_text::{put_nanos, put_number, put_pair, put_word};
use std::alloc::{AllocError, Global};

// Appends a word and a number after it, and ends the line.
fn end_with(out: &mut Vec<u8>, word: &[u8], n: u64) -> Result<(), AllocError>
    ensures { OnOk result (out.new.items ≡ out.old.items ++ (word.now ++ decimal n) ++ 10 ∷ []) }
{
    put_pair(out, word, n)?;
    put_word(out, b"\n".as_slice())
}

// Appends a cause, and ends the line.
fn end_with_cause(out: &mut Vec<u8>, cause: &[u8]) -> Result<(), AllocError>
    ensures { OnOk result (out.new.items ≡ out.old.items ++ cause.now ++ 10 ∷ []) }
{
    put_word(out, cause)?;
    put_word(out, b"\n".as_slice())
}

fn put_take(out: &mut Vec<u8>, take: Take) -> Result<(), AllocError>
    ensures { OnOk result (out.new.items ≡ out.old.items ++ take_text take ++ 10 ∷ []) }
{
    match take {
        Take::Granted => put_word(out, b"granted\n".as_slice()),
        Take::Short(tick) => {
            put_nanos(out, b"short ".as_slice(), tick)?;
            put_word(out, b"\n".as_slice())
        }
    }
}

fn put_sent(out: &mut Vec<u8>, sent: Sent) -> Result<(), AllocError>
    ensures { OnOk result (out.new.items ≡ out.old.items ++ sent_text sent ++ 10 ∷ []) }
{
    match sent {
        Sent::Queued => put_word(out, b"queued\n".as_slice()),
        Sent::Waits => put_word(out, b"waits\n".as_slice()),
    }
}

fn put_got(out: &mut Vec<u8>, actor: u64, got: Got<u64>) -> Result<(), AllocError>
    ensures { OnOk result (out.new.items ≡ out.old.items ++ got_text actor got ++ 10 ∷ []) }
{
    match got {
        Got::Message(from, message) => {
            put_pair(out, b"message ".as_slice(), actor)?;
            put_pair(out, b" ".as_slice(), from)?;
            end_with(out, b" ".as_slice(), message)
        }
        Got::Timeout => end_with(out, b"timeout ".as_slice(), actor),
    }
}

fn put_counts(out: &mut Vec<u8>, counts: Counts) -> Result<(), AllocError>
    ensures { OnOk result (out.new.items ≡ out.old.items ++ counts_text counts ++ 10 ∷ []) }
{
    put_pair(out, b"stats ".as_slice(), counts.sessions)?;
    put_pair(out, b" ".as_slice(), counts.entries)?;
    put_pair(out, b" ".as_slice(), counts.actors)?;
    end_with(out, b" ".as_slice(), counts.waiting)
}

// Appends an answer, and ends the line.
fn put_outcome(out: &mut Vec<u8>, outcome: Outcome) -> Result<(), AllocError>
    ensures { OnOk result (out.new.items ≡ out.old.items ++ outcome_text outcome ++ 10 ∷ []) }
{
    match outcome {
        Outcome::Opened(session) => end_with(out, b"session ".as_slice(), session),
        Outcome::Done => put_word(out, b"ok\n".as_slice()),
        Outcome::Held => put_word(out, b"held\n".as_slice()),
        Outcome::Left => put_word(out, b"left\n".as_slice()),
        Outcome::Closed => put_word(out, b"closed\n".as_slice()),
        Outcome::Ended => put_word(out, b"ended\n".as_slice()),
        Outcome::Busy => put_word(out, b"busy\n".as_slice()),
        Outcome::Owned(session) => end_with(out, b"owner ".as_slice(), session),
        Outcome::Free => put_word(out, b"free\n".as_slice()),
        Outcome::Counted(counts) => put_counts(out, counts),
        Outcome::Added(bucket) => end_with(out, b"bucket ".as_slice(), bucket),
        Outcome::Took(take) => put_take(out, take),
        Outcome::Spawned(actor) => end_with(out, b"actor ".as_slice(), actor),
        Outcome::Posted(sent) => put_sent(out, sent),
        Outcome::Ran(actor, got) => put_got(out, actor, got),
        Outcome::LeaseRefused(error) => end_with_cause(out, lease_cause(error)),
        Outcome::LimitRefused(error) => end_with_cause(out, limit_cause(error)),
        Outcome::MailRefused(error) => end_with_cause(out, mail_cause(error)),
    }
}

/// Appends the line of a reply by a core.
pub fn put_reply(out: &mut Vec<u8>, core: u64, reply: &Reply) -> Result<(), AllocError>
    ensures { OnOk result (out.new.items ≡ out.old.items ++ reply_text core reply.now ++ 10 ∷ []) }
{
    put_number(out, reply.number)?;
    put_pair(out, b" ".as_slice(), core)?;
    put_pair(out, b" ".as_slice(), reply.arrived)?;
    put_pair(out, b" ".as_slice(), reply.tick)?;
    put_word(out, b" ".as_slice())?;
    put_outcome(out, reply.outcome)
}

/// The words between a request's number and its answer if it is answered at the tick at which it came: the core, and
/// twice the tick.
///
/// Most replies of a batch have the same, so they are written once.
#[derive(Drop)]
pub struct Stamp {
    core: u64,
    tick: u64,
    text: Vec<u8>,
    pub ghost text_is: { text.items ≡ stamp_text core tick },
}

impl Stamp {
    /// Returns the stamp of a core at a tick. It fails if out of memory.
    pub fn new(alloc: Global, core: u64, tick: u64) -> Result<Stamp, AllocError>
        ensures { IfOk result (λ stamp. stamp.core ≡ core) }
    {
        let mut text = Vec::new(alloc);
        put_pair(&mut text, b" ".as_slice(), core)?;
        put_pair(&mut text, b" ".as_slice(), tick)?;
        put_pair(&mut text, b" ".as_slice(), tick)?;
        put_word(&mut text, b" ".as_slice())?;
        Ok(Stamp { core, tick, text })
    }
}

// Appends the line of a reply by the core of a stamp.
fn put_stamped(out: &mut Vec<u8>, stamp: &Stamp, reply: &Reply) -> Result<(), AllocError>
    ensures { OnOk result (out.new.items ≡ out.old.items ++ reply_text stamp.now.core reply.now ++ 10 ∷ []) }
{
    if reply.arrived != stamp.tick || reply.tick != stamp.tick {
        return put_reply(out, stamp.core, reply);
    }
    put_number(out, reply.number)?;
    put_word(out, stamp.text.as_slice())?;
    put_outcome(out, reply.outcome)
}

/// Appends the lines of replies by the core of a stamp, in order.
pub fn put_replies(out: &mut Vec<u8>, stamp: &Stamp, replies: &[Reply]) -> Result<(), AllocError>
    ensures { OnOk result (out.new.items ≡ out.old.items ++ reply_lines stamp.now.core replies.now) }
{
    for reply in replies {
        put_stamped(out, stamp, reply)?;
    }
    Ok(())
}

/// Appends the reply to a line that is no request.
pub fn put_bad(out: &mut Vec<u8>, number: u64) -> Result<(), AllocError>
    ensures { OnOk result (out.new.items ≡ out.old.items ++ bad_text number ++ 10 ∷ []) }
{
    put_number(out, number)?;
    put_word(out, b" bad\n".as_slice())
}
