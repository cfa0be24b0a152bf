// A bucket of tokens, and taking tokens from it.
ghost use Rattle.std.specs.Prelude.{◌≡◌, ◌<◌, ◌+◌, ◌-◌, ◌*◌};
ghost use Rattle.mono_limit.specs.BucketTable.{IsStored, TakesOf, bucket_at, ended_at};

use crate::{LimitError, Take};

/// A bucket as it was once `ended` of its periods had ended. It holds at most its burst of tokens, and its periods
/// count from the tick of its origin. A clock step does not change it.
#[derive(Clone, Copy)]
pub(crate) struct StoredBucket {
    pub(crate) burst: u32,
    pub(crate) period: u32,
    pub(crate) tokens: u32,
    pub(crate) origin: u64,
    pub(crate) ended: u64,
}

impl StoredBucket {
    /// Adds the tokens of all periods that have ended since, by one division.
    fn fill(&mut self, greatest: u64)
        requires { IsStored greatest self.old }
        ensures stored { IsStored greatest self.new }
        ensures bucket { bucket_at greatest self.new ≡ bucket_at greatest self.old }
        ensures ended { self.new.ended ≡ ended_at greatest self.new }
    {
        let ended = (greatest - self.origin) / u64::from(self.period);
        let burst = u64::from(self.burst);
        let gained = (ended - self.ended).min(burst);
        self.tokens = (u64::from(self.tokens) + gained).min(burst) as u32;
        self.ended = ended;
    }

    /// Returns the tick at which the bucket has n tokens, if no call takes any: the end of the last of the missing
    /// periods.
    fn tick_of_enough(&self, n: u64) -> u128
        requires { self.now.tokens < n }
        ensures { result ≡ self.now.origin + (self.now.ended + (n - self.now.tokens)) * self.now.period }
    {
        let wanted = u128::from(self.ended) + u128::from(n - u64::from(self.tokens));
        u128::from(self.origin) + wanted * u128::from(self.period)
    }

    /// Takes n tokens at the greatest tick. It is refused if and only if n is above the burst (`takes`).
    pub(crate) fn take(&mut self, greatest: u64, n: u64) -> Result<Take, LimitError>
        requires { IsStored greatest self.old }
        ensures stored { IsStored greatest self.new }
        ensures takes { TakesOf greatest (bucket_at greatest self.old) n result (bucket_at greatest self.new) }
    {
        if n > u64::from(self.burst) {
            return Err(LimitError::TooMany);
        }
        self.fill(greatest);
        if n > u64::from(self.tokens) {
            return Ok(Take::Short(self.tick_of_enough(n)));
        }
        self.tokens -= n as u32;
        Ok(Take::Granted)
    }
}
