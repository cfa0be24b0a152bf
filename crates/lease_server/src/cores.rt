// The task of one core.
ghost use Rattle.std.specs.Prelude.{IfOk};
ghost use Rattle.lease_server.specs.Stations.{Turns};

use crate::stations::Station;
use crate::status;
use mono_rt::{
    Context, Host, Instant, Poll, RemoteContext, RemoteWaker, SharedContext, Sleep, TaskFuture,
    TimeContext, UnparkHandle, sleep_until,
};
use std::alloc::{AllocError, Global};
use std::mem;
use std::time::Duration;

/// A task that performs the requests that come to the shared station, and sends the text of the replies. It answers a
/// status once the requests have ended, each was answered and all text was sent.
#[derive(Drop)]
pub struct CoreTask {
    nap: Option<Sleep>,
}

impl CoreTask {
    /// Returns the task of a core.
    pub fn new() -> CoreTask {
        CoreTask { nap: None }
    }

    // Sleeps until a session may close, if an acquire waits. While a text waits for a place, the core performs nothing, and
    // the writer wakes the task.
    fn rest<C: TimeContext + SharedContext<Station>, R: Host>(
        &mut self,
        rt: &R,
        alloc: Global,
        cx: &mut C,
    )
        ensures { C.reaches cx.old cx.new }
    {
        if cx.shared().waiting() == 0 || cx.shared().has_unsent() {
            return;
        }
        if let Some(tick) = cx.shared().next_close() {
            let end = Instant::ZERO.saturating_add(Duration::from_millis(tick));
            self.rest_until(rt, alloc, cx, end);
        }
    }

    // Sleeps until an instant.
    fn rest_until<C: TimeContext, R: Host>(
        &mut self,
        rt: &R,
        alloc: Global,
        cx: &mut C,
        end: Instant,
    )
        ensures { C.reaches cx.old cx.new }
    {
        match mem::replace(&mut self.nap, None) {
            Some(nap) => self.doze(rt, alloc, cx, nap, end),
            None => self.lie_down(rt, alloc, cx, end),
        }
    }

    // Makes a sleep, and waits for it. If it cannot be made, the task runs again at once, and makes it then.
    fn lie_down<C: TimeContext, R: Host>(&mut self, rt: &R, alloc: Global, cx: &mut C, end: Instant)
        ensures { C.reaches cx.old cx.new }
    {
        match sleep_until(alloc, cx, end) {
            Ok(nap) => self.doze(rt, alloc, cx, nap, end),
            Err(_) => cx.wake_me(),
        }
    }

    // Waits for this sleep, until this instant.
    fn doze<C: TimeContext, R: Host>(
        &mut self,
        rt: &R,
        alloc: Global,
        cx: &mut C,
        nap: Sleep,
        end: Instant,
    )
        ensures { C.reaches cx.old cx.new }
    {
        let mut nap = nap;
        let _ = nap.reset(cx, end);
        if let Poll::Ready(_) = nap.poll(rt, alloc, cx) {
            cx.wake_me();
        }
        self.nap = Some(nap);
    }

    // Ends if all was done, and otherwise rests.
    fn end_or_rest<C: TimeContext + SharedContext<Station>, R: Host>(
        &mut self,
        rt: &R,
        alloc: Global,
        cx: &mut C,
    ) -> Poll<u64>
        ensures { C.reaches cx.old cx.new }
    {
        if cx.shared().is_done() {
            return Poll::Ready(status::DONE);
        }
        self.rest(rt, alloc, cx);
        Poll::Pending
    }
}

// Performs one turn at the shared station, at the turn's instant, as `Station::turn` does.
fn turn_shared<C: SharedContext<Station>, R: Host>(
    cx: &mut C,
    rt: &R,
    alloc: Global,
    waker: &RemoteWaker<UnparkHandle>,
) -> Result<bool, AllocError>
    ensures reached { C.reaches cx.old cx.new }
    ensures turned { IfOk result (λ more. Turns (C.nanos cx.old) (C.shared cx.old) (C.shared cx.new)) }
{
    let now = Instant::now(cx);
    cx.shared_mut().turn(rt, alloc, waker, now)
}

impl<C: RemoteContext<UnparkHandle> + TimeContext + SharedContext<Station>> TaskFuture<C>
    for CoreTask {
    type Output = u64;

    fn spent(&self) -> bool {
        false
    }

    fn poll<R: Host>(&mut self, rt: &R, alloc: Global, cx: &mut C) -> Poll<u64> {
        let Ok(waker) = cx.remote_waker() else {
            return Poll::Ready(status::MEMORY);
        };
        match turn_shared(cx, rt, alloc, &waker) {
            Err(_) => Poll::Ready(status::MEMORY),
            Ok(true) => {
                cx.wake_me();
                Poll::Pending
            }
            Ok(false) => self.end_or_rest(rt, alloc, cx),
        }
    }

    fn cancel(self, cx: &mut C) {
        if let Some(nap) = self.nap {
            nap.cancel(cx);
        }
    }
}
