// Tasks that hold the lock for a while, one after the other, and the task that closes their sessions in time.
use mono_rt::{Host, Poll, SharedContext, SleepFor, TaskFuture, TimeContext, sleep_for};
use mono_serve::{Acquire, Keeper, Leases, locks};
use mono_sync::Only;
use std::alloc::Global;
use std::mem;
use std::time::Duration;

/// The sessions of the tasks, and the lock's queue.
pub type Shared = Only<Leases>;

/// The key of the lock.
const KEY: u64 = 0;

/// A task that waits for the lock, holds it for a while, and answers the millisecond at which it released it, or 0 if it
/// never got it; or a task that closes sessions in time.
#[derive(Drop)]
pub enum Client {
    /// It opens a session for so many milliseconds, to hold the lock for a time.
    Opens(u64, Duration),
    /// Its session waits for the lock.
    Waits(u64, Acquire<Shared>, Duration),
    /// Its session holds the lock until the sleep ends.
    Holds(u64, SleepFor),
    /// It closes sessions in time.
    Keeps(Keeper<Shared>),
    /// It has answered.
    Over,
}

impl Client {
    /// Returns a task that holds the lock for this many milliseconds, if its session stays open for as long.
    pub fn new(lease_ms: u64, millis: u64) -> Client {
        Client::Opens(lease_ms, Duration::from_millis(millis))
    }

    // Opens a session, which waits for the lock from the next turn on.
    fn open<C: SharedContext<Shared>>(
        &mut self,
        alloc: Global,
        cx: &mut C,
        lease_ms: u64,
        length: Duration,
    ) -> Poll<u64>
        ensures { C.reaches cx.old cx.new }
    {
        match locks::open::<Shared, C>(alloc, cx, lease_ms) {
            Err(_) => Poll::Ready(0),
            Ok(session) => {
                *self = Client::Waits(session, Acquire::new(session, KEY), length);
                cx.wake_me();
                Poll::Pending
            }
        }
    }

    // Waits for the lock, and sleeps from the next turn on once the session holds it.
    fn wait<R: Host, C: SharedContext<Shared>>(
        &mut self,
        rt: &R,
        alloc: Global,
        cx: &mut C,
        waiting: (u64, Acquire<Shared>, Duration),
    ) -> Poll<u64>
        ensures { C.reaches cx.old cx.new }
    {
        let (session, mut acquire, length) = waiting;
        if TaskFuture::<C>::spent(&acquire) {
            return Poll::Ready(0);
        }
        match TaskFuture::<C>::poll(&mut acquire, rt, alloc, cx) {
            Poll::Pending => {
                *self = Client::Waits(session, acquire, length);
                Poll::Pending
            }
            Poll::Ready(Err(_)) => Poll::Ready(0),
            Poll::Ready(Ok(())) => {
                *self = Client::Holds(session, sleep_for(length));
                cx.wake_me();
                Poll::Pending
            }
        }
    }

    // Holds the lock until the sleep ends, and then closes the session.
    fn hold<R: Host, C: TimeContext + SharedContext<Shared>>(
        &mut self,
        rt: &R,
        alloc: Global,
        cx: &mut C,
        session: u64,
        sleep: SleepFor,
    ) -> Poll<u64>
        ensures { C.reaches cx.old cx.new }
    {
        let mut sleep = sleep;
        if TaskFuture::<C>::spent(&sleep) {
            return Poll::Ready(0);
        }
        match TaskFuture::<C>::poll(&mut sleep, rt, alloc, cx) {
            Poll::Pending => {
                *self = Client::Holds(session, sleep);
                Poll::Pending
            }
            Poll::Ready(_) => {
                let _ = locks::close::<Shared, C>(alloc, cx, session);
                Poll::Ready((cx.now() / 1000000) as u64)
            }
        }
    }

    // Closes sessions in time, until that fails.
    fn keep<R: Host, C: TimeContext + SharedContext<Shared>>(
        &mut self,
        rt: &R,
        alloc: Global,
        cx: &mut C,
        keeper: Keeper<Shared>,
    ) -> Poll<u64>
        ensures { C.reaches cx.old cx.new }
    {
        let mut keeper = keeper;
        if TaskFuture::<C>::spent(&keeper) {
            return Poll::Ready(0);
        }
        match keeper.poll(rt, alloc, cx) {
            Poll::Pending => {
                *self = Client::Keeps(keeper);
                Poll::Pending
            }
            Poll::Ready(_) => Poll::Ready(0),
        }
    }
}

impl<C: TimeContext + SharedContext<Shared>> TaskFuture<C> for Client {
    type Output = u64;

    fn spent(&self) -> bool {
        false
    }

    fn poll<R: Host>(&mut self, rt: &R, alloc: Global, cx: &mut C) -> Poll<u64> {
        match mem::replace(self, Client::Over) {
            Client::Opens(lease_ms, length) => self.open(alloc, cx, lease_ms, length),
            Client::Waits(session, acquire, length) => {
                self.wait(rt, alloc, cx, (session, acquire, length))
            }
            Client::Holds(session, sleep) => self.hold(rt, alloc, cx, session, sleep),
            Client::Keeps(keeper) => self.keep(rt, alloc, cx, keeper),
            Client::Over => Poll::Ready(0),
        }
    }

    fn cancel(self, cx: &mut C) {
        match self {
            Client::Waits(_, acquire, _) => acquire.cancel(cx),
            Client::Holds(_, sleep) => sleep.cancel(cx),
            Client::Keeps(keeper) => keeper.cancel(cx),
            Client::Opens(_, _) | Client::Over => {}
        }
    }
}
