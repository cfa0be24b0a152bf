// Peers: tasks that act by the clock.
use mono_model::Host;
use mono_task::{Poll, TaskFuture};
use mono_time::{Instant, Sleep, TimeContext, sleep};
use std::alloc::Global;
use std::time::Duration;

/// A peer of a world: it acts by the clock, and talks to others over channels.
pub trait Peer {
    /// Acts once, at this millisecond. Returns the peer's output if it ends.
    fn act<R: Host>(&mut self, rt: &R, now: u64) -> Option<u64>;
}

/// The task of a peer, which acts once a millisecond until it ends. Its output is that of the peer, or 0 if a sleep is
/// refused.
#[derive(Drop)]
pub struct PeerTask<P> {
    peer: P,
    rest: Option<Sleep>,
}

impl<P: Peer> PeerTask<P> {
    /// Returns the task of this peer.
    pub fn new(peer: P) -> PeerTask<P> {
        PeerTask { peer, rest: None }
    }

    // Acts once, and then sleeps for a millisecond from the next turn on.
    fn act<R: Host, C: TimeContext>(&mut self, rt: &R, alloc: Global, cx: &mut C) -> Poll<u64>
        ensures { C.reaches cx.old cx.new }
    {
        if let Some(output) = self.peer.act(rt, Instant::now(cx).clock_tick()) {
            return Poll::Ready(output);
        }
        let Ok(rest) = sleep(alloc, cx, Duration::from_millis(1)) else {
            return Poll::Ready(0);
        };
        self.rest = Some(rest);
        cx.wake_me();
        Poll::Pending
    }
}

impl<C: TimeContext, P: Peer + Drop> TaskFuture<C> for PeerTask<P> {
    type Output = u64;

    fn spent(&self) -> bool {
        false
    }

    fn poll<R: Host>(&mut self, rt: &R, alloc: Global, cx: &mut C) -> Poll<u64> {
        let Some(mut rest) = self.rest.take() else {
            return self.act(rt, alloc, cx);
        };
        match rest.poll(rt, alloc, cx) {
            Poll::Pending => {
                self.rest = Some(rest);
                Poll::Pending
            }
            Poll::Ready(_) => {
                rest.cancel(cx);
                self.act(rt, alloc, cx)
            }
        }
    }

    fn cancel(self, cx: &mut C) {
        if let Some(rest) = self.rest {
            rest.cancel(cx);
        }
    }
}
