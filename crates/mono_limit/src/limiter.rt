// Buckets and retries by their numbers.
ghost use Rattle.std.specs.Prelude.{◌≡◌, ◌≤◌, ◌+◌, IfOk, vec_len, vec_capacity};
ghost use Rattle.mono_model.specs.Table.{count_of};
ghost use Rattle.mono_limit.specs.Limiter.{is_out_of_range};
ghost use Rattle.mono_limit.specs.BucketTable.{AreStored};
ghost use Rattle.mono_limit.specs.Retries.{greatest_of};

use crate::buckets::StoredBucket;
use crate::retries::{Retries, row_at};
use crate::schedules::Schedule;
use crate::{LimitError, Next, Take};
use mono_time::Instant;
use mono_wheel::Steps;
use std::alloc::{AllocError, Global};
use std::sync::ledger::Ledger;

/// Token buckets and retries, by their numbers, on one clock.
///
/// A tick is a millisecond. A bucket gains one token at the end of each of its periods, up to its burst; a clock step
/// does no work for it. A retry that failed waits for its next attempt until a clock step reaches its tick. If several
/// causes for a refusal hold, the first in [`LimitError`] counts, except that out of memory comes last. A refused call
/// changes nothing. Only `new`, `bucket` and `retry` take memory. The memory of the retries follows the number of live
/// ones.
#[derive(Drop)]
pub struct Limiter {
    buckets: Vec<StoredBucket>,
    most_buckets: u64,
    retries: Retries,
    pub ghost are_stored: { AreStored (greatest_of retries) buckets.items },
}

// Returns whether a number is 0, or 2^32 or more.
fn is_out_of_range(n: u64) -> bool
    ensures { result ≡ is_out_of_range n }
{
    n == 0 || n > u64::from(u32::MAX)
}

impl Limiter {
    ghost use Rattle.mono_model.specs.Memory.{OrLacksMemory};
    ghost use Rattle.mono_time.specs.Instants.{nanos_of};
    ghost use Rattle.mono_limit.specs.Limiter.{no_limits, bucket_answer, with_bucket, TakeAnswers, retry_answer, with_retry, fail_answer, failed, done_answer, done};
    ghost use Rattle.mono_limit.specs.Limits.{limits_of, credit_of, ListsInto};
    ghost use Rattle.mono_limit.specs.declared.LimitError.TheVariants.{Memory};

    /// Returns a limiter without buckets and retries, for at most `buckets` buckets, and `retries` retries that live at
    /// a time. The greatest tick is 0.
    pub fn new(alloc: Global, buckets: u64, retries: u64) -> Result<Limiter, AllocError>
        ensures { IfOk result (λ limiter. limits_of limiter ≡ no_limits buckets retries) }
    {
        let retries = Retries::new(alloc, retries)?;
        Ok(Limiter {
            buckets: Vec::new(alloc),
            most_buckets: buckets,
            retries,
        })
    }

    /// Adds a full bucket of at most `burst` tokens, which gains one at the end of each period of `period_ms` ticks
    /// from the greatest tick on. Returns its number, which is the next.
    ///
    /// Refuses the call as `AtCapacity` if and only if the buckets are at the limit. Otherwise it is refused as
    /// `BadBucket` if and only if burst or period is 0, or 2^32 or more.
    pub fn bucket(&mut self, alloc: Global, burst: u64, period_ms: u64) -> Result<u64, LimitError>
        ensures { OrLacksMemory Memory (bucket_answer (limits_of self.old) burst period_ms) (limits_of self.old)
            (with_bucket (limits_of self.old) burst period_ms) (λ limits. limits_of self.new ≡ limits) result }
    {
        let number = self.buckets.len() as u64;
        if number >= self.most_buckets {
            return Err(LimitError::AtCapacity);
        }
        if is_out_of_range(burst) || is_out_of_range(period_ms) {
            return Err(LimitError::BadBucket);
        }
        if self.buckets.reserve(1).is_err() {
            return Err(LimitError::Memory);
        }
        let origin = self.retries.greatest();
        let burst = burst as u32;
        self.buckets.push_reserved(StoredBucket {
            burst,
            period: period_ms as u32,
            tokens: burst,
            origin,
            ended: 0,
        });
        Ok(number)
    }

    /// Takes n tokens from a bucket, if it has them. Otherwise it returns the least tick at which the bucket has them,
    /// if no call takes any; that tick is below 2^128.
    ///
    /// Refuses the call as `TooMany` if and only if the bucket exists and n is above its burst. It is refused as
    /// `NoBucket` if and only if no bucket has the number.
    pub fn take(&mut self, bucket: u64, n: u64) -> Result<Take, LimitError>
        ensures { TakeAnswers (limits_of self.old) bucket n result (limits_of self.new) }
    {
        let at = bucket as usize;
        if at >= self.buckets.len() {
            return Err(LimitError::NoBucket);
        }
        let greatest = self.retries.greatest();
        let stored = &mut self.buckets[at];
        stored.take(greatest, n)
    }

    /// Adds a retry, which has not failed yet and does not wait. After its failure k it waits for the lesser of
    /// `cap_ms` and `base_ms` times 2^(k-1) ticks, and at the failure `most` it gives up. Returns its number, which is
    /// the next.
    ///
    /// Refuses the call as `AtCapacity` if and only if the next number is 2^64 - 1 or the live retries are at the
    /// limit. Otherwise it is refused as `BadRetry` if and only if the base is 0, the cap is below it, or `most` is 0,
    /// or 2^32 or more.
    pub fn retry(
        &mut self,
        alloc: Global,
        base_ms: u64,
        cap_ms: u64,
        most: u64,
    ) -> Result<u64, LimitError>
        ensures { OrLacksMemory Memory (retry_answer (limits_of self.old) base_ms cap_ms most) (limits_of self.old)
            (with_retry (limits_of self.old) base_ms cap_ms most) (λ limits. limits_of self.new ≡ limits) result }
    {
        if self.retries.is_full() {
            return Err(LimitError::AtCapacity);
        }
        if base_ms == 0 || cap_ms < base_ms || is_out_of_range(most) {
            return Err(LimitError::BadRetry);
        }
        let schedule = Schedule {
            base: base_ms,
            cap: cap_ms,
            most: most as u32,
            failures: 0,
            waits_for: None,
        };
        match self.retries.add(alloc, schedule) {
            Ok(retry) => Ok(retry),
            Err(_) => Err(LimitError::Memory),
        }
    }

    /// Records that an attempt of a retry has failed. The retry gives up, and is removed, if and only if this is its
    /// last failure (`answer`). Otherwise it waits for the greatest tick plus its delay, and the answer names that
    /// tick.
    ///
    /// Refuses the call as `Invalid` if and only if the retry does not wait, this is not its last failure, and that
    /// tick is above 2^63 - 1. It is refused as `Waiting` if and only if it waits, and as `NoRetry` if and only if no
    /// live retry has the number.
    pub fn fail(&mut self, retry: u64) -> Result<Next, LimitError>
        ensures answer { result ≡ fail_answer (limits_of self.old) retry }
        ensures limits { limits_of self.new ≡ failed (limits_of self.old) retry }
    {
        match row_at(&self.retries.rows, retry) {
            None => Err(LimitError::NoRetry),
            Some(schedule) => {
                let next = schedule.next(self.retries.greatest())?;
                match next {
                    Next::Again(tick) => self.retries.wait(retry, schedule, tick),
                    Next::GaveUp => self.retries.remove(retry, schedule),
                }
                Ok(next)
            }
        }
    }

    /// Ends and removes a retry. It is refused as `NoRetry` if and only if no live retry has the number.
    pub fn done(&mut self, retry: u64) -> Result<(), LimitError>
        ensures answer { result ≡ done_answer (limits_of self.old) retry }
        ensures limits { limits_of self.new ≡ done (limits_of self.old) retry }
    {
        match row_at(&self.retries.rows, retry) {
            None => Err(LimitError::NoRetry),
            Some(schedule) => {
                self.retries.remove(retry, schedule);
                Ok(())
            }
        }
    }

    /// Returns how many retries live.
    pub fn live(&self) -> usize
        ensures { result ≡ count_of (limits_of self.now).retries }
    {
        self.retries.live()
    }

    /// Shows the clock a moment. The greatest tick becomes the greater of itself and the moment's, rounded down. The
    /// call appends to `due` exactly the retries that wait for a tick up to the greatest, each once, in ascending
    /// ticks. Their wait ends. It does no work for a bucket.
    ///
    /// `due` has room for all live retries.
    pub fn clock<L: Ledger>(&mut self, now: Instant, due: &mut Vec<u64>, steps: &mut Steps<L>)
        requires { vec_len due.old + count_of (limits_of self.old).retries ≤ vec_capacity due.old }
        ensures due { ListsInto (limits_of self.old) (nanos_of now) due.old.items due.new.items (limits_of self.new) }
        ensures steps { steps.new + credit_of self.new ≡ steps.old + credit_of self.old }
    {
        self.retries.clock(now, due, steps);
    }
}
