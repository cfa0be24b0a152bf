// The task that closes sessions in time.
ghost use Rattle.std.specs.Prelude.{◌≡◌, false};
ghost use Rattle.std.specs.Option.{option_map};
ghost use Rattle.mono_model.specs.Poll.{OnPending};
ghost use Rattle.mono_time.specs.Instants.{nanos_of};
ghost use Rattle.mono_serve.specs.Keepers.{is_over, KeeperPolls, KeeperGives, KeeperCancels, LeavesRest, Keeps, RestsIn, RestsUntil, MakesNap, Naps};
ghost use Rattle.mono_serve.specs.Spent.{keeper_spent};
ghost use Rattle.mono_serve.specs.LeaseCalls.{ShownAt, Rests, Forgets, Then};
ghost use Rattle.mono_serve.specs.Takes.{deadline_of};
ghost use Rattle.mono_serve.specs.declared.keepers.Phase.TheVariants.{Waits};

use crate::lease_parts::{advance_part, forget_part, rest_part};
use crate::leases::Leases;
use crate::takes::deadline_of;
use crate::wakes::wake_task;
use mono_forms::FutureExt;
use mono_model::{Host, Poll};
use mono_sync::Holds;
use mono_task::{SharedContext, TaskFuture};
use mono_time::{Error, Instant, Sleep, SleepError, TimeContext, sleep_until};
use std::alloc::{AllocError, Global};
use std::marker::PhantomData;
use std::mem;

/// A future that closes each session in time. The tasks that hold its keys from then on are owed a wake.
///
/// It sleeps until the next tick at which the clock may close a session, and never answers unless it fails. The leases
/// have one keeper: the one that was polled last is owed a wake if a session is to be closed before its sleep is over. One
/// that is cancelled is no keeper any more.
#[derive(Drop)]
pub struct Keeper<W> {
    pub(crate) phase: Phase,
    shared: PhantomData<W>,
}

/// The state of a keeper.
#[derive(Drop)]
pub enum Phase {
    /// It waits until it is woken.
    Waits,
    /// It sleeps until the next tick at which the clock may close a session.
    Sleeps(Sleep),
    /// It has failed.
    Over,
}

/// The reason why a keeper failed.
#[derive(Debug, Drop)]
pub enum KeeperError {
    /// The allocation of the list of closed sessions failed.
    Memory,
    /// The next tick is past the last instant.
    Far,
    /// The sleep was refused.
    Timer(SleepError),
}

impl<W> FutureExt for Keeper<W> {}

impl<W> Keeper<W> {
    /// Returns a keeper.
    pub fn new() -> Keeper<W>
        ensures { result.phase ≡ Waits }
    {
        Keeper {
            phase: Phase::Waits,
            shared: PhantomData,
        }
    }
}

// Shows the sessions' clock the turn's reading.
fn advance<W: Holds<Leases>, C: SharedContext<W>>(
    alloc: Global,
    cx: &mut C,
) -> Result<(), AllocError>
    ensures shown { Then (ShownAt (W.part (C.shared cx.old)) (C.nanos cx.old) result) (W.part (C.shared cx.new)) }
    ensures work { C.work cx.new ≡ C.work cx.old }
    ensures reached { C.reaches cx.old cx.new }
{
    let now = Instant::now(cx);
    advance_part(cx.shared_mut(), alloc, now)
}

// Notes the running task as the keeper.
fn rest<W: Holds<Leases>, C: SharedContext<W>>(cx: &mut C) -> Option<u64>
    ensures rests { Rests (W.part (C.shared cx.old)) (C.number cx.old) result (W.part (C.shared cx.new)) }
    ensures work { C.work cx.new ≡ C.work cx.old }
    ensures reached { C.reaches cx.old cx.new }
{
    let me = cx.me();
    rest_part(cx.shared_mut(), me)
}

// Notes the running task as the keeper no longer.
fn forget<W: Holds<Leases>, C: SharedContext<W>>(cx: &mut C)
    ensures forgets { Forgets (W.part (C.shared cx.old)) (C.number cx.old) (W.part (C.shared cx.new)) }
    ensures work { C.work cx.new ≡ C.work cx.old }
    ensures reached { C.reaches cx.old cx.new }
{
    let me = cx.me();
    forget_part(cx.shared_mut(), me)
}

// Notes the running task as the keeper no longer, and says so in one clause.
fn leave<W: Holds<Leases>, C: SharedContext<W>>(cx: &mut C)
    ensures left { LeavesRest (λ x. W.part (C.shared x)) C.number C.work cx.old cx.new }
    ensures reached { C.reaches cx.old cx.new }
{
    forget::<W, C>(cx);
}

impl<W> Keeper<W> {
    // Polls a new sleep. If it is over at once, the task runs again after its turn.
    fn nap<C: TimeContext + SharedContext<W>, R: Host>(
        &mut self,
        rt: &R,
        alloc: Global,
        cx: &mut C,
        sleep: Sleep,
    ) -> Poll<Result<(), KeeperError>>
    where
        W: Holds<Leases>,
        ensures naps { Naps (λ x. W.part (C.shared x)) C.number C.sleeps C.work C.reaches sleep cx.old result self.new.phase cx.new }
        ensures again { OnPending result (is_over self.new.phase ≡ false) }
        ensures reached { C.reaches cx.old cx.new }
    {
        let mut sleep = sleep;
        match sleep.poll(rt, alloc, cx) {
            Poll::Pending => {
                self.phase = Phase::Sleeps(sleep);
                Poll::Pending
            }
            Poll::Ready(Ok(())) => {
                sleep.cancel(cx);
                let me = cx.me();
                wake_task::<W, C>(cx, Some(me));
                self.phase = Phase::Waits;
                Poll::Pending
            }
            Poll::Ready(Err(error)) => {
                sleep.cancel(cx);
                self.phase = Phase::Over;
                Poll::Ready(Err(KeeperError::Timer(SleepError::Timer(error))))
            }
        }
    }

    // Sleeps until a deadline.
    fn rest_until<C: TimeContext + SharedContext<W>, R: Host>(
        &mut self,
        rt: &R,
        alloc: Global,
        cx: &mut C,
        deadline: Instant,
    ) -> Poll<Result<(), KeeperError>>
    where
        W: Holds<Leases>,
        ensures makes { MakesNap (λ x. W.part (C.shared x)) C.number C.sleeps C.work C.reaches (nanos_of deadline) cx.old result self.new.phase cx.new }
        ensures again { OnPending result (is_over self.new.phase ≡ false) }
        ensures reached { C.reaches cx.old cx.new }
    {
        match sleep_until(alloc, cx, deadline) {
            Ok(sleep) => self.nap(rt, alloc, cx, sleep),
            Err(error) => {
                self.phase = Phase::Over;
                Poll::Ready(Err(KeeperError::Timer(error)))
            }
        }
    }

    // Sleeps until a tick.
    fn rest_at<C: TimeContext + SharedContext<W>, R: Host>(
        &mut self,
        rt: &R,
        alloc: Global,
        cx: &mut C,
        tick: u64,
    ) -> Poll<Result<(), KeeperError>>
    where
        W: Holds<Leases>,
        ensures rests { RestsUntil (λ x. W.part (C.shared x)) C.number C.sleeps C.work C.reaches (deadline_of tick) cx.old result self.new.phase cx.new }
        ensures again { OnPending result (is_over self.new.phase ≡ false) }
        ensures reached { C.reaches cx.old cx.new }
    {
        match deadline_of(tick as u128) {
            None => {
                self.phase = Phase::Over;
                Poll::Ready(Err(KeeperError::Far))
            }
            Some(deadline) => self.rest_until(rt, alloc, cx, deadline),
        }
    }

    // Rests until the next tick at which the clock may close a session.
    fn rest<C: TimeContext + SharedContext<W>, R: Host>(
        &mut self,
        rt: &R,
        alloc: Global,
        cx: &mut C,
    ) -> Poll<Result<(), KeeperError>>
    where
        W: Holds<Leases>,
        ensures rests { RestsIn (λ x. W.part (C.shared x)) C.number C.sleeps C.work C.reaches cx.old result self.new.phase cx.new }
        ensures again { OnPending result (is_over self.new.phase ≡ false) }
        ensures reached { C.reaches cx.old cx.new }
    {
        match rest::<W, C>(cx) {
            None => {
                self.phase = Phase::Waits;
                Poll::Pending
            }
            Some(tick) => self.rest_at(rt, alloc, cx, tick),
        }
    }

    // Closes the sessions whose time is over, and rests.
    fn keep<C: TimeContext + SharedContext<W>, R: Host>(
        &mut self,
        rt: &R,
        alloc: Global,
        cx: &mut C,
    ) -> Poll<Result<(), KeeperError>>
    where
        W: Holds<Leases>,
        ensures keeps { Keeps (λ x. W.part (C.shared x)) C.number C.nanos C.sleeps C.work C.reaches cx.old result self.new.phase cx.new }
        ensures again { OnPending result (is_over self.new.phase ≡ false) }
        ensures reached { C.reaches cx.old cx.new }
    {
        match advance::<W, C>(alloc, cx) {
            Err(_) => {
                self.phase = Phase::Over;
                Poll::Ready(Err(KeeperError::Memory))
            }
            Ok(()) => self.rest(rt, alloc, cx),
        }
    }
}

/// The future closes the sessions whose time is over, and sleeps until the next tick at which the clock may close one.
/// It fails if out of memory, if its sleep is refused, or if that tick is past the last instant.
impl<W: Holds<Leases>, C: TimeContext + SharedContext<W>> TaskFuture<C> for Keeper<W> {
    type Output = Result<(), KeeperError>;

    ghost is_spent = { keeper_spent };

    ghost polls = { λ f c r g d. KeeperPolls (λ x. W.part (C.shared x)) C.number C.nanos C.sleeps C.work C.reaches f.phase c r g.phase d };

    ghost gives = { λ f. KeeperGives (λ x. W.part (C.shared x)) C.number C.nanos C.sleeps C.work C.reaches };

    ghost cancels = { λ f c d. KeeperCancels (λ x. W.part (C.shared x)) C.number C.sleeps C.work C.reaches f.phase c d };

    fn spent(&self) -> bool {
        match &self.phase {
            Phase::Waits => false,
            Phase::Sleeps(_) => false,
            Phase::Over => true,
        }
    }

    fn poll<R: Host>(
        &mut self,
        rt: &R,
        alloc: Global,
        cx: &mut C,
    ) -> Poll<Result<(), KeeperError>> {
        match mem::replace(&mut self.phase, Phase::Over) {
            Phase::Waits => self.keep(rt, alloc, cx),
            Phase::Sleeps(sleep) => {
                sleep.cancel(cx);
                self.keep(rt, alloc, cx)
            }
            Phase::Over => unreachable!(),
        }
    }

    fn cancel(self, cx: &mut C) {
        match self.phase {
            Phase::Sleeps(sleep) => {
                sleep.cancel(cx);
                leave::<W, C>(cx);
            }
            Phase::Waits => leave::<W, C>(cx),
            Phase::Over => {}
        }
    }
}
