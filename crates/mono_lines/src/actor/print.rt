// Answers as bytes.
ghost use Rattle.std.specs.Prelude.{◌≡◌, ◌≤◌, ◌++◌, codes, flat_map, length, take, OnOk};
ghost use Rattle.mono_text.specs.LineText.{number_part};
ghost use Rattle.mono_actor.specs.Answers as answer;
ghost use Rattle.mono_lines.specs.ActorAnswers.{error_text, sent_text, got_text, after_text, answer_text};
ghost use Rattle.mono_lines.specs.ActorReplies.{answer_of};

use mono_actor::{ActorError, After, Got, Sent};
use mono_text::{front_and_number, put_front};
use std::alloc::AllocError;

/// An answer that is no list.
#[derive(Clone, Copy, Drop)]
pub enum Told {
    Actor(u64),
    Posted(Sent),
    Done,
    Turn(u64, Got<u64>),
    Ended(After),
    Refused(ActorError),
    Invalid,
}

/// Appends a word.
#[inline(always)]
pub fn put_word(out: &mut Vec<u8>, word: &[u8]) -> Result<(), AllocError>
    ensures { OnOk result (out.new.items ≡ out.old.items ++ word.now) }
{
    out.extend_from_slice(word)
}

// The words below, each with its length, in 24 bytes each or, if a number follows them, in 32.

fn refused_word(error: ActorError) -> (&'static [u8; 24], usize)
    ensures word { take result.1 result.0.now ≡ codes "refused " ++ error_text error }
    ensures short { result.1 ≤ length result.0.now }
{
    match error {
        ActorError::Memory => (b"refused memory          ", 14),
        ActorError::Idle => (b"refused idle            ", 12),
        ActorError::AtCapacity => (b"refused at-capacity     ", 19),
        ActorError::NoActor => (b"refused no-actor        ", 16),
    }
}

fn sent_word(sent: Sent) -> (&'static [u8; 24], usize)
    ensures word { take result.1 result.0.now ≡ sent_text sent }
    ensures short { result.1 ≤ length result.0.now }
{
    match sent {
        Sent::Queued => (b"queued                  ", 6),
        Sent::Waits => (b"waits                   ", 5),
    }
}

fn after_word(after: After) -> (&'static [u8; 24], usize)
    ensures word { take result.1 result.0.now ≡ after_text after }
    ensures short { result.1 ≤ length result.0.now }
{
    match after {
        After::Idle => (b"idle                    ", 4),
        After::Again => (b"again                   ", 5),
        After::Stopped => (b"stopped                 ", 7),
    }
}

#[inline(always)]
fn put_got(out: &mut Vec<u8>, got: Got<u64>) -> Result<(), AllocError>
    ensures { OnOk result (out.new.items ≡ out.old.items ++ (codes "; " ++ got_text got)) }
{
    match got {
        Got::Message(from, message) => {
            front_and_number(out, b"; from                          ".as_slice(), 7, from)?;
            front_and_number(
                out,
                b"                                ".as_slice(),
                1,
                message,
            )
        }
        Got::Timeout => put_word(out, b"; timeout".as_slice()),
    }
}

// Appends the start of a turn.
#[inline(always)]
fn put_turn(out: &mut Vec<u8>, me: u64, got: Got<u64>) -> Result<(), AllocError>
    ensures { OnOk result (out.new.items ≡ out.old.items ++ answer_text (answer.Turn me got)) }
{
    front_and_number(out, b"turn                            ".as_slice(), 5, me)?;
    put_got(out, got)
}

/// Appends an answer's text.
#[inline(always)]
pub fn put_told(out: &mut Vec<u8>, item: Told) -> Result<(), AllocError>
    ensures { OnOk result (out.new.items ≡ out.old.items ++ answer_text (answer_of item)) }
{
    match item {
        Told::Actor(a) => {
            front_and_number(out, b"actor                           ".as_slice(), 6, a)
        }
        Told::Posted(sent) => {
            let (word, len) = sent_word(sent);
            put_front(out, word.as_slice(), len)
        }
        Told::Done => put_word(out, b"ok".as_slice()),
        Told::Turn(me, got) => put_turn(out, me, got),
        Told::Ended(after) => {
            let (word, len) = after_word(after);
            put_front(out, word.as_slice(), len)
        }
        Told::Refused(error) => {
            let (word, len) = refused_word(error);
            put_front(out, word.as_slice(), len)
        }
        Told::Invalid => put_word(out, b"refused invalid".as_slice()),
    }
}

fn put_numbers(out: &mut Vec<u8>, list: &[u64]) -> Result<(), AllocError>
    ensures { OnOk result (out.new.items ≡ out.old.items ++ flat_map number_part list.now) }
{
    for item in list {
        front_and_number(
            out,
            b"                                ".as_slice(),
            1,
            *item,
        )?;
    }
    Ok(())
}

/// Appends the text of a list of actors that are due.
pub fn put_due(out: &mut Vec<u8>, list: &[u64]) -> Result<(), AllocError>
    ensures { OnOk result (out.new.items ≡ out.old.items ++ answer_text (answer.Due list.now)) }
{
    put_word(out, b"due".as_slice())?;
    put_numbers(out, list)
}
