// A limiter that answers lines.
ghost use Rattle.std.specs.Prelude.{◌≡◌, IfOk, OnOk, OnErr};
ghost use Rattle.mono_text.specs.Services.{Serves};
ghost use Rattle.mono_text.specs.Follows.{HasFollowed};
ghost use Rattle.mono_limit.specs.Limiter.{no_limits};
ghost use Rattle.mono_limit.specs.Limits.{limits_of};
ghost use Rattle.mono_lines.specs.LimiterTexts.{call_text, FitsCall, StepsAs, StepInto};
ghost use Rattle.mono_lines.specs.declared.limit.calls.LimiterCall.TheVariants as line;

use crate::limit::calls::LimiterCall;
use crate::limit::{print, read};
use mono_limit::{LimitError, Limiter};
use mono_text::{Followed, Reader, Served, Service, Sink, Source, follow, serve};
use mono_time::Instant;
use std::alloc::{AllocError, Global};

// A limiter, and a list for the retries of a clock step, which is used again.
#[derive(Drop)]
struct LimiterLines {
    limiter: Limiter,
    due: Vec<u64>,
}

impl LimiterLines {
    // Returns a limiter without buckets and retries, for at most `buckets` buckets, and `retries` retries that live at
    // a time.
    fn new(alloc: Global, buckets: u64, retries: u64) -> Result<LimiterLines, AllocError>
        ensures { IfOk result (λ lines. limits_of lines.limiter ≡ no_limits buckets retries) }
    {
        let limiter = Limiter::new(alloc, buckets, retries)?;
        Ok(LimiterLines {
            limiter,
            due: Vec::new(alloc),
        })
    }

    fn bucket(
        &mut self,
        alloc: Global,
        burst: u64,
        period: u64,
        out: &mut Vec<u8>,
    ) -> Result<(), AllocError>
        ensures { OnOk result (StepInto (limits_of self.old.limiter) (line.Bucket burst period) out.old.items out.new.items (limits_of self.new.limiter)) }
    {
        let told = self.limiter.bucket(alloc, burst, period);
        print::bucket(out, told)
    }

    fn take(&mut self, bucket: u64, n: u64, out: &mut Vec<u8>) -> Result<(), AllocError>
        ensures { OnOk result (StepInto (limits_of self.old.limiter) (line.Take bucket n) out.old.items out.new.items (limits_of self.new.limiter)) }
    {
        let told = self.limiter.take(bucket, n);
        print::take(out, told)
    }

    fn retry(
        &mut self,
        alloc: Global,
        base: u64,
        cap: u64,
        most: u64,
        out: &mut Vec<u8>,
    ) -> Result<(), AllocError>
        ensures { OnOk result (StepInto (limits_of self.old.limiter) (line.Retry base cap most) out.old.items out.new.items (limits_of self.new.limiter)) }
    {
        let told = self.limiter.retry(alloc, base, cap, most);
        print::retry(out, told)
    }

    fn fail(&mut self, retry: u64, out: &mut Vec<u8>) -> Result<(), AllocError>
        ensures { OnOk result (StepInto (limits_of self.old.limiter) (line.Fail retry) out.old.items out.new.items (limits_of self.new.limiter)) }
    {
        let told = self.limiter.fail(retry);
        print::fail(out, told)
    }

    fn done(&mut self, retry: u64, out: &mut Vec<u8>) -> Result<(), AllocError>
        ensures { OnOk result (StepInto (limits_of self.old.limiter) (line.Done retry) out.old.items out.new.items (limits_of self.new.limiter)) }
    {
        let told = self.limiter.done(retry);
        print::done(out, told)
    }

    fn clock(&mut self, alloc: Global, n: u128, out: &mut Vec<u8>) -> Result<(), AllocError>
        ensures { OnOk result (StepInto (limits_of self.old.limiter) (line.Clock n) out.old.items out.new.items (limits_of self.new.limiter)) }
    {
        let Some(now) = Instant::from_nanos(n) else {
            return print::refused(out, LimitError::Invalid);
        };
        self.due.clear();
        self.limiter.advance(alloc, now, &mut self.due)?;
        print::due(out, &self.due)
    }
}

impl Service for LimiterLines {
    type Call = LimiterCall;

    type Spare = ();

    ghost use Rattle.mono_text.specs.Services.{AnswersAs};
    ghost use Rattle.mono_lines.specs.LimiterTexts.{call_text, FitsCall, StepsAs, ShowsLimits};

    ghost text = { λ call. call_text call };

    ghost fits = { λ call. FitsCall call };

    ghost answers = { λ old call text new. AnswersAs ShowsLimits StepsAs old.limiter call text new.limiter };

    fn spare(_alloc: Global) {}

    fn read(
        _alloc: Global,
        _spare: &mut (),
        reader: &mut Reader,
    ) -> Result<Option<LimiterCall>, AllocError> {
        Ok(read::line(reader))
    }

    fn answer(
        &mut self,
        alloc: Global,
        call: LimiterCall,
        _spare: &mut (),
        out: &mut Vec<u8>,
    ) -> Result<(), AllocError> {
        match call {
            LimiterCall::Bucket(burst, period) => self.bucket(alloc, burst, period, out),
            LimiterCall::Take(bucket, n) => self.take(bucket, n, out),
            LimiterCall::Retry(base, cap, most) => self.retry(alloc, base, cap, most, out),
            LimiterCall::Fail(retry) => self.fail(retry, out),
            LimiterCall::Done(retry) => self.done(retry, out),
            LimiterCall::Clock(n) => self.clock(alloc, n, out),
        }
    }
}

/// Returns a limiter's answers to an input, one for each line, or the number of the first line that is no call. The
/// limiter has no buckets and retries at first, and these limits; its answers are those of its model.
pub fn limiter(
    alloc: Global,
    buckets: u64,
    retries: u64,
    input: &[u8],
) -> Result<Served, AllocError>
    ensures { IfOk result (λ served. Serves call_text FitsCall StepsAs (no_limits buckets retries) input.now served) }
{
    let lines = LimiterLines::new(alloc, buckets, retries)?;
    serve(alloc, lines, input)
}

/// Answers each line of the source as soon as it was read, as [`limiter`] answers a whole input. The output is always
/// the answers to lines at the source's front. If the limiter is out of memory, the source is not read and nothing is
/// written.
pub fn follow_limiter<S: Source, K: Sink>(
    alloc: Global,
    most_buckets: u64,
    most_retries: u64,
    source: &mut S,
    sink: &mut K,
) -> Result<Followed, AllocError>
    ensures followed { IfOk result (λ f. HasFollowed call_text FitsCall StepsAs (no_limits most_buckets most_retries) f.end f.rest.items
        (S.left source.old) (S.left source.new) (K.written sink.old) (K.written sink.new)) }
    ensures none { OnErr result ((S.left source.new ≡ S.left source.old) × (K.written sink.new ≡ K.written sink.old)) }
{
    let lines = LimiterLines::new(alloc, most_buckets, most_retries)?;
    follow(alloc, lines, source, sink)
}
