// Answers to lines as soon as they were read.
ghost use Rattle.std.specs.Prelude.{◌≡◌, ◌<◌, true, false, length, IfOk, OnErr};
ghost use Rattle.mono_text.specs.Services.{StartsWithNone, HasNoFeed};
ghost use Rattle.mono_text.specs.Follows.{Advances, Answered, HasFollowed, end_of};

use crate::reader::Reader;
use crate::services::Service;
use crate::sink::{Sink, write_all};
use crate::source::{BLOCK, MAX_INPUT, Source, front_of, zeros};
use std::alloc::{AllocError, Global};

/// How the answers to lines ended.
#[derive(Clone, Copy, Debug, PartialEq, Eq)]
pub enum FollowEnd {
    /// The input ended after a line.
    Done,
    /// A line spells no call, or the input ended within a line.
    BadLine,
    /// A read failed.
    ReadFault,
    /// A write failed.
    WriteFault,
    /// The allocation failed.
    OutOfMemory,
    /// A line has more than 2^24 bytes.
    TooLong,
}

/// How and where the answers to lines ended.
#[derive(Drop)]
pub struct Followed {
    /// The end.
    pub end: FollowEnd,
    /// how many lines were answered before it; the count ends at 2^64 - 1
    pub lines: u64,
    /// the bytes from the first line that was not answered, as far as they were read
    pub rest: Vec<u8>,
}

// The rest of some bytes once their whole lines were answered.
#[derive(Clone, Copy)]
struct Ready<'a> {
    rest: &'a [u8],
    lines: u64,
    is_bad: bool,
}

// Answers the whole lines at the front of the bytes, up to the first that spells no call.
fn answer_ready<'a, S: Service>(
    alloc: Global,
    service: &mut S,
    bytes: &'a [u8],
    out: &mut Vec<u8>,
) -> Result<Ready<'a>, AllocError>
    ensures advances { IfOk result (λ ready. Advances S.text S.fits S.answers service.old bytes.now out.old.items service.new ready.rest.now out.new.items) }
    ensures bad { IfOk result (λ ready. ready.is_bad ≡ true → StartsWithNone S.text S.fits ready.rest.now) }
    ensures whole { IfOk result (λ ready. ready.is_bad ≡ false → HasNoFeed ready.rest.now) }
{
    let mut reader = Reader::new(bytes);
    let mut spare = S::spare(alloc);
    let mut rest = bytes;
    let mut lines = 0u64;
    'lines: while reader.has_line() {
        let Some(call) = S::read(alloc, &mut spare, &mut reader)? else {
            return Ok(Ready {
                rest,
                lines,
                is_bad: true,
            });
        };
        service.answer(alloc, call, &mut spare, out)?;
        rest = reader.rest();
        lines = lines.saturating_add(1);
    }
    Ok(Ready {
        rest,
        lines,
        is_bad: false,
    })
}

// The result of a block: how the answers ended, if they did, how many lines were answered, and the rest.
#[derive(Drop)]
struct Block {
    end: Option<FollowEnd>,
    lines: u64,
    rest: Vec<u8>,
}

// Answers the whole lines at the front of the bytes, and writes the answers.
fn answer_block<V: Service, K: Sink>(
    alloc: Global,
    service: &mut V,
    pending: &[u8],
    sink: &mut K,
) -> Block
    ensures { Answered V.text V.fits V.answers service.old pending.now result.end service.new result.rest.items (K.written sink.old) (K.written sink.new) }
{
    let mut out = Vec::new(alloc);
    let Ok(ready) = answer_ready(alloc, service, pending, &mut out) else {
        return Block {
            end: Some(FollowEnd::OutOfMemory),
            lines: 0,
            rest: Vec::new(alloc),
        };
    };
    let Ok(rest) = Vec::from_slice(alloc, ready.rest) else {
        return Block {
            end: Some(FollowEnd::OutOfMemory),
            lines: 0,
            rest: Vec::new(alloc),
        };
    };
    if write_all(sink, &out).is_err() {
        return Block {
            end: Some(FollowEnd::WriteFault),
            lines: ready.lines,
            rest,
        };
    }
    if ready.is_bad {
        return Block {
            end: Some(FollowEnd::BadLine),
            lines: ready.lines,
            rest,
        };
    }
    Block {
        end: None,
        lines: ready.lines,
        rest,
    }
}

// Answers the whole lines at the front of what was read, and writes the answers. Without a line feed there is none, so a
// long line is not read again with each block.
fn answer_pending<V: Service, K: Sink>(
    alloc: Global,
    service: &mut V,
    pending: Vec<u8>,
    has_feed: bool,
    sink: &mut K,
) -> Block
    requires { has_feed ≡ false → HasNoFeed pending.items }
    ensures { Answered V.text V.fits V.answers service.old pending.items result.end service.new result.rest.items (K.written sink.old) (K.written sink.new) }
{
    if !has_feed {
        return Block {
            end: None,
            lines: 0,
            rest: pending,
        };
    }
    answer_block(alloc, service, &pending, sink)
}

// Returns how an input ends after these bytes.
fn end_behind(pending: &[u8]) -> FollowEnd
    ensures { result ≡ end_of pending.now }
{
    if pending.is_empty() {
        FollowEnd::Done
    } else {
        FollowEnd::BadLine
    }
}

// Answers each line that is read through the block.
fn follow_through<V: Service, S: Source, K: Sink>(
    alloc: Global,
    start: V,
    block: &mut [u8],
    source: &mut S,
    sink: &mut K,
) -> Followed
    requires { 0 < length block.old }
    ensures { HasFollowed V.text V.fits V.answers start result.end result.rest.items (S.left source.old) (S.left source.new) (K.written sink.old) (K.written sink.new) }
{
    let mut service = start;
    let mut pending = Vec::new(alloc);
    let mut lines = 0u64;
    let mut turns = u64::MAX;
    'reads: while 0 < turns {
        let Ok(n) = source.read(block) else {
            return Followed {
                end: FollowEnd::ReadFault,
                lines,
                rest: pending,
            };
        };
        if n == 0 {
            return Followed {
                end: end_behind(&pending),
                lines,
                rest: pending,
            };
        }
        let fresh = front_of(block, n);
        let has_feed = Reader::new(fresh).has_line();
        if pending.extend_from_slice(fresh).is_err() {
            return Followed {
                end: FollowEnd::OutOfMemory,
                lines,
                rest: pending,
            };
        }
        let made = answer_pending(alloc, &mut service, pending, has_feed, sink);
        lines = lines.saturating_add(made.lines);
        if let Some(end) = made.end {
            return Followed {
                end,
                lines,
                rest: made.rest,
            };
        }
        pending = made.rest;
        if pending.len() > MAX_INPUT {
            return Followed {
                end: FollowEnd::TooLong,
                lines,
                rest: pending,
            };
        }
        turns -= 1;
    }
    Followed {
        end: FollowEnd::TooLong,
        lines,
        rest: pending,
    }
}

/// Answers each line of the source as soon as it was read, and writes the answers before it reads more.
///
/// The bytes written are the answers to lines at the front of the input, by a run from the given value (`HasFollowed`).
/// These are all lines at the end of the input (`FollowEnd::Done`), and all before the first that spells no call
/// (`FollowEnd::BadLine`). If a call failed, they are some; a failed write may have cut the last answers short. If
/// there is no memory for a block, nothing is read or written.
pub fn follow<V: Service, S: Source, K: Sink>(
    alloc: Global,
    start: V,
    source: &mut S,
    sink: &mut K,
) -> Result<Followed, AllocError>
    ensures followed { IfOk result (λ f. HasFollowed V.text V.fits V.answers start f.end f.rest.items (S.left source.old) (S.left source.new) (K.written sink.old) (K.written sink.new)) }
    ensures none { OnErr result ((S.left source.new ≡ S.left source.old) × (K.written sink.new ≡ K.written sink.old)) }
{
    let mut block = zeros(alloc, BLOCK)?;
    Ok(follow_through(alloc, start, &mut block, source, sink))
}
