// A take of tokens as a future.
ghost use Rattle.std.specs.Prelude.{◌≡◌, false, ℕ};
ghost use Rattle.std.specs.Option.{option_map};
ghost use Rattle.std.specs.declared.option.Option.TheVariants.{None};
ghost use Rattle.mono_model.specs.Poll.{OnPending};
ghost use Rattle.mono_time.specs.Instants.{nanos_of};
ghost use Rattle.mono_serve.specs.BucketCalls.{Enters, Asks, GivesUp};
ghost use Rattle.mono_serve.specs.Takes.{deadline_of, is_over, MayGoOn, LeavesLine, FailsAwake, Naps, FirstNap, MakesSleep, Rests, AsksFor, GoesOn, TakePolls, TakeGives, TakeCancels};
ghost use Rattle.mono_serve.specs.Spent.{take_spent};
ghost use Rattle.mono_serve.specs.declared.takes.Stage.TheVariants.{Fresh};
ghost use Rattle.mono_task.specs.Owed.{Keeps};

use crate::buckets::{Asked, Buckets};
use mono_forms::FutureExt;
use mono_limit::LimitError;
use mono_model::{Host, Poll};
use mono_sync::Holds;
use mono_task::{SharedContext, TaskFuture};
use mono_time::{Error, Instant, Sleep, SleepError, TimeContext, sleep_until};
use std::alloc::{AllocError, Global};
use std::marker::PhantomData;
use std::mem;

/// A future that takes tokens of a bucket, and waits until the bucket has them.
///
/// It waits until no earlier future waits for the bucket. Then it sleeps exactly until the tick at which the bucket has
/// the tokens. It keeps its place in the line while the same task polls it. Polled by another task, it waits anew at the end.
#[derive(Drop)]
pub struct Take<W> {
    pub(crate) bucket: u64,
    pub(crate) n: u64,
    pub(crate) stage: Stage,
    shared: PhantomData<W>,
}

/// The place of a take on its way to the tokens.
#[derive(Drop)]
pub enum Stage {
    /// It was not polled.
    Fresh,
    /// It waits with this ticket.
    Waits(u64),
    /// It is the first with this ticket, and sleeps until the bucket has the tokens.
    Sleeps(u64, Sleep),
    /// It has answered.
    Over,
}

/// The reason why no tokens were taken.
#[derive(Debug, Drop)]
pub enum TakeError {
    /// The limiter refused the take, or was out of memory.
    Refused(LimitError),
    /// The allocation of a place in the line failed.
    Memory,
    /// The bucket has the tokens past the last instant.
    Far,
    /// The sleep was refused.
    Timer(SleepError),
}

impl<W> FutureExt for Take<W> {}

impl<W> Take<W> {
    /// Returns a future that takes `n` tokens of the bucket.
    pub fn new(bucket: u64, n: u64) -> Take<W>
        ensures bucket { result.bucket ≡ bucket }
        ensures n { result.n ≡ n }
        ensures stage { result.stage ≡ Fresh }
    {
        Take {
            bucket,
            n,
            stage: Stage::Fresh,
            shared: PhantomData,
        }
    }
}

// Returns the instant of a tick, unless it is past the last one.
pub(crate) fn deadline_of(tick: u128) -> Option<Instant>
    ensures { option_map nanos_of result ≡ deadline_of tick }
{
    Instant::from_nanos(tick.saturating_mul(1000000))
}

// Makes a task wait in a future's place in the line.
fn enter_part<W: Holds<Buckets>>(
    whole: &mut W,
    ticket: Option<u64>,
    bucket: u64,
    task: u64,
) -> Result<u64, AllocError>
    ensures answer { Enters (W.part whole.old) ticket bucket task result (W.part whole.new) }
    ensures leads { W.leads whole.old whole.new }
    ensures keeps { Keeps W.lists task whole.old whole.new }
{
    whole.part_mut().enter(ticket, bucket, task)
}

// Asks the buckets for a future.
fn ask_part<W: Holds<Buckets>>(
    whole: &mut W,
    alloc: Global,
    now: Instant,
    ticket: u64,
    bucket: u64,
    n: u64,
    me: u64,
) -> Asked
    ensures answer { Asks (W.part whole.old) (nanos_of now) ticket bucket n me result (W.part whole.new) }
    ensures leads { W.leads whole.old whole.new }
    ensures keeps { Keeps W.lists me whole.old whole.new }
{
    whole.part_mut().ask(alloc, now, ticket, bucket, n, me)
}

// Takes a future out of the line.
fn leave_part<W: Holds<Buckets>>(whole: &mut W, ticket: u64, me: u64)
    ensures answer { GivesUp (W.part whole.old) ticket me (W.part whole.new) }
    ensures leads { W.leads whole.old whole.new }
    ensures keeps { Keeps W.lists me whole.old whole.new }
{
    whole.part_mut().give_up(ticket, me)
}

// Makes the running task wait in a future's place in the line.
fn enter<W: Holds<Buckets>, C: SharedContext<W>>(
    cx: &mut C,
    ticket: Option<u64>,
    bucket: u64,
) -> Result<u64, AllocError>
    ensures answer { Enters (W.part (C.shared cx.old)) ticket bucket (C.number cx.old) result (W.part (C.shared cx.new)) }
    ensures work { C.work cx.new ≡ C.work cx.old }
    ensures reached { C.reaches cx.old cx.new }
{
    let me = cx.me();
    enter_part(cx.shared_mut(), ticket, bucket, me)
}

// Asks the buckets for the running task's future.
fn ask<W: Holds<Buckets>, C: SharedContext<W>>(
    alloc: Global,
    cx: &mut C,
    ticket: u64,
    bucket: u64,
    n: u64,
) -> Asked
    ensures answer { Asks (W.part (C.shared cx.old)) (C.nanos cx.old) ticket bucket n (C.number cx.old) result (W.part (C.shared cx.new)) }
    ensures work { C.work cx.new ≡ C.work cx.old }
    ensures reached { C.reaches cx.old cx.new }
{
    let now = Instant::now(cx);
    let me = cx.me();
    ask_part(cx.shared_mut(), alloc, now, ticket, bucket, n, me)
}

// Takes the running task's future out of the line.
fn leave<W: Holds<Buckets>, C: SharedContext<W>>(cx: &mut C, ticket: u64)
    ensures answer { GivesUp (W.part (C.shared cx.old)) ticket (C.number cx.old) (W.part (C.shared cx.new)) }
    ensures work { C.work cx.new ≡ C.work cx.old }
    ensures reached { C.reaches cx.old cx.new }
{
    let me = cx.me();
    leave_part(cx.shared_mut(), ticket, me)
}

// Takes the running task's future out of the line, and says so in one clause.
fn give_way<W: Holds<Buckets>, C: SharedContext<W>>(cx: &mut C, ticket: u64)
    ensures left { LeavesLine (λ x. W.part (C.shared x)) C.number C.work ticket cx.old cx.new }
    ensures reached { C.reaches cx.old cx.new }
{
    leave::<W, C>(cx, ticket);
}

impl<W> Take<W> {
    // Removes a refused sleep, and leaves the line.
    fn fail_awake<C: TimeContext + SharedContext<W>>(
        &mut self,
        cx: &mut C,
        ticket: u64,
        sleep: Sleep,
        error: Error,
    ) -> Option<Poll<Result<(), TakeError>>>
    where
        W: Holds<Buckets>,
        ensures fails { FailsAwake (λ x. W.part (C.shared x)) C.number C.sleeps C.work C.reaches (TakeError.Timer (SleepError.Timer error)) ticket sleep cx.old result self.new.stage cx.new }
        ensures again { MayGoOn result (is_over self.new.stage ≡ false) }
        ensures bucket { self.new.bucket ≡ self.old.bucket }
        ensures n { self.new.n ≡ self.old.n }
        ensures reached { C.reaches cx.old cx.new }
    {
        sleep.cancel(cx);
        give_way::<W, C>(cx, ticket);
        self.stage = Stage::Over;
        Some(Poll::Ready(Err(TakeError::Timer(SleepError::Timer(error)))))
    }

    // Polls the sleep. Returns no answer if it is over.
    fn nap<C: TimeContext + SharedContext<W>, R: Host>(
        &mut self,
        rt: &R,
        alloc: Global,
        cx: &mut C,
        ticket: u64,
        sleep: Sleep,
    ) -> Option<Poll<Result<(), TakeError>>>
    where
        W: Holds<Buckets>,
        ensures naps { Naps (λ x. W.part (C.shared x)) C.number C.sleeps C.work C.reaches ticket sleep cx.old result self.new.stage cx.new }
        ensures again { MayGoOn result (is_over self.new.stage ≡ false) }
        ensures bucket { self.new.bucket ≡ self.old.bucket }
        ensures n { self.new.n ≡ self.old.n }
        ensures reached { C.reaches cx.old cx.new }
    {
        let mut sleep = sleep;
        match sleep.poll(rt, alloc, cx) {
            Poll::Pending => {
                self.stage = Stage::Sleeps(ticket, sleep);
                Some(Poll::Pending)
            }
            Poll::Ready(Ok(())) => {
                sleep.cancel(cx);
                self.stage = Stage::Waits(ticket);
                None
            }
            Poll::Ready(Err(error)) => self.fail_awake(cx, ticket, sleep, error),
        }
    }

    // Polls a new sleep. If it is over at once, the task runs again after its turn.
    fn first_nap<C: TimeContext + SharedContext<W>, R: Host>(
        &mut self,
        rt: &R,
        alloc: Global,
        cx: &mut C,
        ticket: u64,
        sleep: Sleep,
    ) -> Poll<Result<(), TakeError>>
    where
        W: Holds<Buckets>,
        ensures naps { FirstNap (λ x. W.part (C.shared x)) C.number C.sleeps C.work C.reaches ticket sleep cx.old result self.new.stage cx.new }
        ensures again { OnPending result (is_over self.new.stage ≡ false) }
        ensures bucket { self.new.bucket ≡ self.old.bucket }
        ensures n { self.new.n ≡ self.old.n }
        ensures reached { C.reaches cx.old cx.new }
    {
        match self.nap(rt, alloc, cx, ticket, sleep) {
            Some(answer) => answer,
            None => {
                cx.wake_me();
                Poll::Pending
            }
        }
    }

    // Sleeps until a tick.
    fn rest<C: TimeContext + SharedContext<W>, R: Host>(
        &mut self,
        rt: &R,
        alloc: Global,
        cx: &mut C,
        ticket: u64,
        tick: u128,
    ) -> Poll<Result<(), TakeError>>
    where
        W: Holds<Buckets>,
        ensures rests { Rests (λ x. W.part (C.shared x)) C.number C.sleeps C.work C.reaches (deadline_of tick) ticket cx.old result self.new.stage cx.new }
        ensures again { OnPending result (is_over self.new.stage ≡ false) }
        ensures bucket { self.new.bucket ≡ self.old.bucket }
        ensures n { self.new.n ≡ self.old.n }
        ensures reached { C.reaches cx.old cx.new }
    {
        match deadline_of(tick) {
            None => {
                give_way::<W, C>(cx, ticket);
                self.stage = Stage::Over;
                Poll::Ready(Err(TakeError::Far))
            }
            Some(deadline) => self.rest_until(rt, alloc, cx, ticket, deadline),
        }
    }

    // Sleeps until a deadline.
    fn rest_until<C: TimeContext + SharedContext<W>, R: Host>(
        &mut self,
        rt: &R,
        alloc: Global,
        cx: &mut C,
        ticket: u64,
        deadline: Instant,
    ) -> Poll<Result<(), TakeError>>
    where
        W: Holds<Buckets>,
        ensures makes { MakesSleep (λ x. W.part (C.shared x)) C.number C.sleeps C.work C.reaches (nanos_of deadline) ticket cx.old result self.new.stage cx.new }
        ensures again { OnPending result (is_over self.new.stage ≡ false) }
        ensures bucket { self.new.bucket ≡ self.old.bucket }
        ensures n { self.new.n ≡ self.old.n }
        ensures reached { C.reaches cx.old cx.new }
    {
        match sleep_until(alloc, cx, deadline) {
            Ok(sleep) => self.first_nap(rt, alloc, cx, ticket, sleep),
            Err(error) => {
                give_way::<W, C>(cx, ticket);
                self.stage = Stage::Over;
                Poll::Ready(Err(TakeError::Timer(error)))
            }
        }
    }

    // Asks for the tokens, and sleeps if the bucket has too few.
    fn ask_for<C: TimeContext + SharedContext<W>, R: Host>(
        &mut self,
        rt: &R,
        alloc: Global,
        cx: &mut C,
        ticket: u64,
    ) -> Poll<Result<(), TakeError>>
    where
        W: Holds<Buckets>,
        ensures asks { AsksFor (λ x. W.part (C.shared x)) C.number C.nanos C.sleeps C.work C.reaches ticket self.old.bucket self.old.n cx.old result self.new.stage cx.new }
        ensures again { OnPending result (is_over self.new.stage ≡ false) }
        ensures bucket { self.new.bucket ≡ self.old.bucket }
        ensures n { self.new.n ≡ self.old.n }
        ensures reached { C.reaches cx.old cx.new }
    {
        match ask::<W, C>(alloc, cx, ticket, self.bucket, self.n) {
            Asked::Waits => {
                self.stage = Stage::Waits(ticket);
                Poll::Pending
            }
            Asked::Granted => {
                self.stage = Stage::Over;
                Poll::Ready(Ok(()))
            }
            Asked::Refused(error) => {
                self.stage = Stage::Over;
                Poll::Ready(Err(TakeError::Refused(error)))
            }
            Asked::Short(tick) => self.rest(rt, alloc, cx, ticket, tick),
        }
    }

    // Makes the running task wait in the line, and asks for the tokens.
    fn go_on<C: TimeContext + SharedContext<W>, R: Host>(
        &mut self,
        rt: &R,
        alloc: Global,
        cx: &mut C,
        ticket: Option<u64>,
    ) -> Poll<Result<(), TakeError>>
    where
        W: Holds<Buckets>,
        ensures goes_on { GoesOn (λ x. W.part (C.shared x)) C.number C.nanos C.sleeps C.work C.reaches ticket self.old.bucket self.old.n cx.old result self.new.stage cx.new }
        ensures again { OnPending result (is_over self.new.stage ≡ false) }
        ensures bucket { self.new.bucket ≡ self.old.bucket }
        ensures n { self.new.n ≡ self.old.n }
        ensures reached { C.reaches cx.old cx.new }
    {
        match enter::<W, C>(cx, ticket, self.bucket) {
            Ok(ticket) => self.ask_for(rt, alloc, cx, ticket),
            Err(_) => {
                self.stage = Stage::Over;
                Poll::Ready(Err(TakeError::Memory))
            }
        }
    }
}

/// The future answers once it has the tokens. It fails if the limiter refuses them, if the bucket has them past the last
/// instant, if the sleep is refused, or if out of memory.
impl<W: Holds<Buckets>, C: TimeContext + SharedContext<W>> TaskFuture<C> for Take<W> {
    type Output = Result<(), TakeError>;

    ghost is_spent = { take_spent };

    ghost polls = { λ f c r g d. TakePolls (λ x. W.part (C.shared x)) C.number C.nanos C.sleeps C.work C.reaches f.stage f.bucket f.n c r g.stage d };

    ghost gives = { λ f. TakeGives (λ x. W.part (C.shared x)) C.number C.nanos C.sleeps C.work C.reaches f.bucket f.n };

    ghost cancels = { λ f c d. TakeCancels (λ x. W.part (C.shared x)) C.number C.sleeps C.work C.reaches f.stage c d };

    fn spent(&self) -> bool {
        match &self.stage {
            Stage::Fresh => false,
            Stage::Waits(_) => false,
            Stage::Sleeps(_, _) => false,
            Stage::Over => true,
        }
    }

    fn poll<R: Host>(&mut self, rt: &R, alloc: Global, cx: &mut C) -> Poll<Result<(), TakeError>> {
        match mem::replace(&mut self.stage, Stage::Over) {
            Stage::Fresh => self.go_on(rt, alloc, cx, None),
            Stage::Waits(ticket) => self.go_on(rt, alloc, cx, Some(ticket)),
            Stage::Sleeps(ticket, sleep) => match self.nap(rt, alloc, cx, ticket, sleep) {
                Some(answer) => answer,
                None => self.go_on(rt, alloc, cx, Some(ticket)),
            },
            Stage::Over => unreachable!(),
        }
    }

    fn cancel(self, cx: &mut C) {
        match self.stage {
            Stage::Waits(ticket) => give_way::<W, C>(cx, ticket),
            Stage::Sleeps(ticket, sleep) => {
                sleep.cancel(cx);
                give_way::<W, C>(cx, ticket);
            }
            Stage::Fresh => {}
            Stage::Over => {}
        }
    }
}
