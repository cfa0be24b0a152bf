// Buckets of tokens as a plain value, with the tasks that wait for tokens.
ghost use Rattle.std.specs.Prelude.{◌≡◌, ◌==◌, ◌<◌, ◌≤◌, ◌+◌, ◌++◌, true, [], IfOk, OnOk};
ghost use Rattle.std.specs.List.{find};
ghost use Rattle.std.specs.VecDeque.{deque_len, deque_capacity};

use mono_limit::{LimitError, Limiter};
use mono_task::SharedState;
use mono_time::Instant;
use std::alloc::{AllocError, Global};
use std::collections::VecDeque;

/// A task that waits for tokens of a bucket, with the ticket that its future drew.
#[derive(Clone, Copy, Debug, PartialEq, Eq)]
pub struct Waiter {
    pub(crate) ticket: u64,
    pub(crate) bucket: u64,
    pub(crate) task: u64,
}

/// Buckets of tokens, and the tasks that wait for tokens, first come, first served for each bucket.
///
/// Only the first task that waits for a bucket asks for its tokens. So no task that asks later overtakes it. The value
/// owes a wake to each task that comes to be the first because another left.
#[derive(Drop)]
pub struct Buckets {
    pub(crate) limiter: Limiter,
    // The waiting tasks of all buckets, in the order of their arrival.
    pub(crate) waiters: VecDeque<Waiter>,
    // The tasks that are owed a wake, in order, with their places.
    pub(crate) due: VecDeque<Waiter>,
    // The next ticket.
    pub(crate) next: u64,
    // A waiting task that leaves makes at most two tasks due: itself, and the first from then on.
    pub ghost room: { deque_len due + (deque_len waiters + deque_len waiters) ≤ deque_capacity due },
}

/// The answer to a future that asks for tokens.
#[derive(Clone, Copy, Debug, PartialEq, Eq)]
pub enum Asked {
    /// The tokens were taken.
    Granted,
    /// Another task came before.
    Waits,
    /// The bucket has too few tokens, and has them at this tick.
    Short(u128),
    /// The bucket never gives the tokens, or out of memory.
    Refused(LimitError),
}

/// Calls alone lead from some buckets to others. A task is listed at the bucket and the ticket with which it waits.
impl SharedState for Buckets {
    ghost use Rattle.mono_sync.specs.Runs.{Leads, leads_itself, leads_on};
    ghost use Rattle.mono_serve.specs.BucketCalls.{listed_in, lists_task, waiting_in, owed_by, some_waits, Step};

    ghost leads = { Leads Step };

    ghost names = { lists_task };

    ghost lists = { listed_in };

    ghost waiting = { waiting_in };

    ghost owes = { owed_by };

    fn next_owed(&mut self) -> Option<u64> {
        if self.due.is_empty() {
            return None;
        }
        let Some(first) = self.due.pop_front() else {
            unreachable!()
        };
        Some(first.task)
    }

    ghost leads_itself = { leads_itself Step };

    ghost leads_on = { leads_on Step };

    ghost lists_some = { some_waits };
}

impl Buckets {
    ghost use Rattle.mono_time.specs.Instants.{nanos_of};
    ghost use Rattle.mono_limit.specs.Limiter.{no_limits};
    ghost use Rattle.mono_limit.specs.Limits.{limits_of};
    ghost use Rattle.mono_serve.specs.BucketCalls.{first_of, is_first, is_there, place_of, others, next_of, SameBut, SameLine, TriesAt, Adds, Joins, Enters, Asks, GivesUp, LeavesAt};

    // Takes tokens at a reading of the clock. Refused as `Memory` if out of memory.
    fn try_at(
        limiter: &mut Limiter,
        alloc: Global,
        now: Instant,
        bucket: u64,
        n: u64,
    ) -> Result<mono_limit::Take, LimitError>
        ensures { TriesAt (limits_of limiter.old) (nanos_of now) bucket n result (limits_of limiter.new) }
    {
        let mut due = Vec::new(alloc);
        if limiter.advance(alloc, now, &mut due).is_err() {
            return Err(LimitError::Memory);
        }
        limiter.take(bucket, n)
    }

    // Takes tokens at a reading of the clock, as the first in the line does.
    fn try_take(
        &mut self,
        alloc: Global,
        now: Instant,
        bucket: u64,
        n: u64,
    ) -> Result<mono_limit::Take, LimitError>
        ensures tries { TriesAt (limits_of self.old.limiter) (nanos_of now) bucket n result (limits_of self.new.limiter) }
        ensures line { SameLine self.old self.new }
    {
        Buckets::try_at(&mut self.limiter, alloc, now, bucket, n)
    }

    /// Returns a value without buckets, for at most `most` buckets. No task waits.
    pub fn new(alloc: Global, most: u64) -> Result<Buckets, AllocError>
        ensures limits { IfOk result (λ made. limits_of made.limiter ≡ no_limits most 0) }
        ensures waiters { IfOk result (λ made. made.waiters.items ≡ []) }
        ensures due { IfOk result (λ made. made.due.items ≡ []) }
        ensures next { IfOk result (λ made. made.next ≡ 0) }
    {
        let limiter = Limiter::new(alloc, most, 0)?;
        Ok(Buckets {
            limiter,
            waiters: VecDeque::new(alloc),
            due: VecDeque::new(alloc),
            next: 0,
        })
    }

    /// Adds a full bucket of at most `burst` tokens, which gains one at the end of each period of `period_ms`
    /// milliseconds. Returns its number. Refuses the call as [`Limiter::bucket`] does.
    pub fn add(&mut self, alloc: Global, burst: u64, period_ms: u64) -> Result<u64, LimitError>
        ensures { Adds self.old burst period_ms result self.new }
    {
        self.limiter.bucket(alloc, burst, period_ms)
    }

    /// Returns the first task that waits for tokens of the bucket.
    pub fn first(&self, bucket: u64) -> Option<Waiter>
        ensures { result ≡ find (λ w. w.bucket == bucket) self.now.waiters.items }
    {
        self.waiters.iter().find(|w| w.bucket == bucket).copied()
    }

    /// Returns the number of the first task that waits for tokens of the bucket.
    pub fn first_task(&self, bucket: u64) -> Option<u64>
        ensures { result ≡ first_of self.now.waiters.items bucket }
    {
        match self.first(bucket) {
            None => None,
            Some(first) => Some(first.task),
        }
    }

    /// Returns whether the future with this ticket is the first that waits for tokens of the bucket.
    pub fn is_first(&self, bucket: u64, ticket: u64) -> bool
        ensures { result ≡ is_first self.now.waiters.items bucket ticket }
    {
        match self.first(bucket) {
            None => false,
            Some(first) => first.ticket == ticket,
        }
    }

    // Makes room for one more waiting task, and for the two tasks that it may make due.
    fn reserve(&mut self) -> Result<(), AllocError>
        ensures same { SameBut self.old self.new × (self.new.due.items ≡ self.old.due.items) }
        ensures waiter { OnOk result (deque_len self.new.waiters < deque_capacity self.new.waiters) }
        ensures due { OnOk result (deque_len self.new.due + (deque_len self.new.waiters + deque_len self.new.waiters) + 2 ≤ deque_capacity self.new.due) }
    {
        let count = self.waiters.len();
        let Some(twice) = count.checked_add(count) else {
            return Err(AllocError);
        };
        let Some(more) = twice.checked_add(2) else {
            return Err(AllocError);
        };
        self.due.reserve(more)?;
        self.waiters.reserve(1)
    }

    // Appends a task to those that wait for tokens of the bucket, and returns its ticket. Refused if out of memory, or if
    // no ticket is left.
    fn join(&mut self, bucket: u64, task: u64) -> Result<u64, AllocError>
        ensures { Joins self.old bucket task result self.new }
    {
        let ticket = self.next;
        let Some(next) = ticket.checked_add(1) else {
            return Err(AllocError);
        };
        self.reserve()?;
        self.waiters.push_back_reserved(Waiter {
            ticket,
            bucket,
            task,
        });
        self.next = next;
        Ok(ticket)
    }

    // Returns the place of the future with this ticket.
    fn place_of(&self, ticket: u64) -> Option<usize>
        ensures { result ≡ place_of self.now.waiters.items ticket }
    {
        self.waiters.iter().position(|w| w.ticket == ticket)
    }

    // Returns whether this task waits with the ticket for tokens of the bucket.
    fn is_there(&self, ticket: u64, bucket: u64, task: u64) -> bool
        ensures { result ≡ is_there self.now.waiters.items ticket bucket task }
    {
        self.waiters.iter().any(|w| w.ticket == ticket && w.bucket == bucket && w.task == task)
    }

    /// Makes a task wait for tokens of the bucket, in the place of the future with this ticket. A future that is not in
    /// the line joins it at its end, and so does one for which another task waits: that task is owed a wake. Returns the
    /// future's ticket. Refused only if the future joins the line, and out of memory or no ticket is left.
    pub fn enter(&mut self, ticket: Option<u64>, bucket: u64, task: u64) -> Result<u64, AllocError>
        ensures { Enters self.old ticket bucket task result self.new }
    {
        match ticket {
            None => self.join(bucket, task),
            Some(ticket) => {
                if self.is_there(ticket, bucket, task) {
                    return Ok(ticket);
                }
                self.give_up(ticket, task);
                self.join(bucket, task)
            }
        }
    }

    // Makes a task due that waits no longer in the line, unless it is the running one.
    fn owe_left(&mut self, left: Waiter, me: u64)
        requires { deque_len self.old.due + (deque_len self.old.waiters + deque_len self.old.waiters) < deque_capacity self.old.due }
        ensures due { self.new.due.items ≡ self.old.due.items ++ others left me }
        ensures len { deque_len self.new.due ≤ deque_len self.old.due + 1 }
        ensures capacity { deque_capacity self.new.due ≡ deque_capacity self.old.due }
        ensures line { SameBut self.old self.new }
    {
        if left.task != me {
            self.due.push_back_reserved(left);
        }
    }

    // Makes the first task due that waits for tokens of the bucket, if the one before it left.
    fn owe_next(&mut self, was_first: bool, bucket: u64)
        requires { deque_len self.old.due + (deque_len self.old.waiters + deque_len self.old.waiters) < deque_capacity self.old.due }
        ensures due { self.new.due.items ≡ self.old.due.items ++ next_of was_first self.old.waiters.items bucket }
        ensures line { SameBut self.old self.new }
    {
        if was_first {
            if let Some(first) = self.first(bucket) {
                self.due.push_back_reserved(first);
            }
        }
    }

    // Takes the future at this place out of the line, in a turn of the task `me`.
    fn take_out(&mut self, place: usize, me: u64)
        requires { place < deque_len self.old.waiters }
        ensures { LeavesAt place self.old me self.new }
    {
        let left = self.waiters[place];
        let was_first = self.is_first(left.bucket, left.ticket);
        let _ = self.waiters.remove(place);
        self.owe_left(left, me);
        self.owe_next(was_first, left.bucket);
    }

    /// Takes n tokens for the future with this ticket at a reading of the clock, if it is the first that waits for the
    /// bucket. It leaves the line, unless the bucket has too few tokens.
    pub fn ask(
        &mut self,
        alloc: Global,
        now: Instant,
        ticket: u64,
        bucket: u64,
        n: u64,
        me: u64,
    ) -> Asked
        ensures { Asks self.old (nanos_of now) ticket bucket n me result self.new }
    {
        if self.is_first(bucket, ticket) {
            return self.ask_first(alloc, now, ticket, bucket, n, me);
        }
        Asked::Waits
    }

    // Takes n tokens for the future that is the first in the bucket's line.
    fn ask_first(
        &mut self,
        alloc: Global,
        now: Instant,
        ticket: u64,
        bucket: u64,
        n: u64,
        me: u64,
    ) -> Asked
        requires { is_first self.old.waiters.items bucket ticket ≡ true }
        ensures { Asks self.old (nanos_of now) ticket bucket n me result self.new }
    {
        match self.try_take(alloc, now, bucket, n) {
            Ok(mono_limit::Take::Short(tick)) => Asked::Short(tick),
            Ok(mono_limit::Take::Granted) => {
                self.give_up(ticket, me);
                Asked::Granted
            }
            Err(error) => {
                self.give_up(ticket, me);
                Asked::Refused(error)
            }
        }
    }

    /// Takes the future with this ticket out of the line, in a turn of the task `me`. If another task waits with the
    /// ticket, it is owed a wake. If the future was the first for its bucket, the first from then on is owed a wake.
    pub fn give_up(&mut self, ticket: u64, me: u64)
        ensures { GivesUp self.old ticket me self.new }
    {
        if let Some(place) = self.place_of(ticket) {
            self.take_out(place, me);
        }
    }
}
