// The reader of calls.
ghost use Rattle.mono_text.specs.Parser.{Gives, call_line_at};
ghost use Rattle.mono_lines.specs.Pairs.{pair_at};
ghost use Rattle.mono_lines.specs.LimiterParser.{retry_at, slow_call_at, call_at};
ghost use Rattle.mono_lines.specs.declared.limit.calls.LimiterCall.TheVariants as line;

use crate::limit::calls::LimiterCall;
use mono_text::Reader;

// Reads the burst and the period of a bucket.
fn bucket(reader: &mut Reader) -> Option<LimiterCall>
    ensures { Gives result reader.new.rest.now (pair_at line.Bucket reader.old.rest.now) }
{
    let burst = reader.number()?;
    let period = reader.number_behind()?;
    Some(LimiterCall::Bucket(burst, period))
}

// Reads the bucket and the tokens of a take.
#[inline(always)]
fn take(reader: &mut Reader) -> Option<LimiterCall>
    ensures { Gives result reader.new.rest.now (pair_at line.Take reader.old.rest.now) }
{
    let bucket = reader.number()?;
    let n = reader.number_behind()?;
    Some(LimiterCall::Take(bucket, n))
}

// Reads the base, the cap and the number of attempts of a retry.
fn retry(reader: &mut Reader) -> Option<LimiterCall>
    ensures { Gives result reader.new.rest.now (retry_at reader.old.rest.now) }
{
    let base = reader.number()?;
    let cap = reader.number_behind()?;
    let most = reader.number_behind()?;
    Some(LimiterCall::Retry(base, cap, most))
}

// Reads a call that makes a bucket or a retry, or ends one.
#[tactic(auto, unfolding(crate::specs::LimiterParser::slow_call_at))]
fn slow_call(reader: &mut Reader) -> Option<LimiterCall>
    ensures { Gives result reader.new.rest.now (slow_call_at reader.old.rest.now) }
{
    if reader.take(b"bucket ".as_slice()) {
        return bucket(reader);
    }
    if reader.take(b"retry ".as_slice()) {
        return retry(reader);
    }
    if reader.take(b"done ".as_slice()) {
        let retry = reader.number()?;
        return Some(LimiterCall::Done(retry));
    }
    None
}

// Reads a call, without its line feed.
#[tactic(auto, unfolding(crate::specs::LimiterParser::call_at))]
fn call(reader: &mut Reader) -> Option<LimiterCall>
    ensures { Gives result reader.new.rest.now (call_at reader.old.rest.now) }
{
    if reader.take(b"take ".as_slice()) {
        return take(reader);
    }
    if reader.take(b"fail ".as_slice()) {
        let retry = reader.number()?;
        return Some(LimiterCall::Fail(retry));
    }
    if reader.take(b"clock ".as_slice()) {
        let n = reader.nanos()?;
        return Some(LimiterCall::Clock(n));
    }
    slow_call(reader)
}

/// Reads the next line's call, and moves past the line. Returns `None` if the line is no call; the rest of the input is
/// then unspecified.
#[inline(always)]
pub(crate) fn line(reader: &mut Reader) -> Option<LimiterCall>
    ensures { Gives result reader.new.rest.now (call_line_at call_at reader.old.rest.now) }
{
    let call = call(reader)?;
    if reader.take(b"\n".as_slice()) {
        return Some(call);
    }
    None
}
