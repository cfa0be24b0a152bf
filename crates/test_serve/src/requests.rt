// Requests on a runtime: each makes a oneshot channel in its turn, and the channel is gone once it has answered. A channel
// that is there before them keeps its message.
use mono_rt::{
    Host, NoPool, Poll, RunError, Runtime, RuntimeBuilder, SharedContext, StepDriver, TaskFuture,
    TimeDriver,
};
use mono_sync::oneshot::{Oneshot, RecvAt, send_at};
use mono_sync::{Many, Only, make};
use std::alloc::Global;

/// The shared value: the channels.
type Replies = Only<Many<Oneshot<u64>>>;

/// How many requests are made.
const REQUESTS: u64 = 1000;

/// A task that makes one request after another, and answers it itself.
#[derive(Drop)]
struct Caller {
    // The key of the request that waits, and its future.
    asked: Option<(u64, RecvAt<Replies, u64>)>,
    left: u64,
    sum: u64,
}

impl Caller {
    // Makes a channel, waits in it, and sends its message. Returns whether each step did what it must.
    fn ask<C: SharedContext<Replies>, R: Host>(&mut self, rt: &R, alloc: Global, cx: &mut C) -> bool
        ensures { C.reaches cx.old cx.new }
    {
        let Ok(key) = make::<Replies, Oneshot<u64>, C>(cx, alloc, Oneshot::new(alloc)) else {
            return false;
        };
        let mut reply: RecvAt<Replies, u64> = RecvAt::new(key);
        if !matches!(reply.poll(rt, alloc, cx), Poll::Pending) {
            return false;
        }
        self.asked = Some((key, reply));
        send_at::<Replies, u64, C>(cx, key, self.left).is_ok()
    }

    // Makes a channel, waits in it and gives up. Returns whether the channel is gone.
    fn give_up<C: SharedContext<Replies>, R: Host>(rt: &R, alloc: Global, cx: &mut C) -> bool
        ensures { C.reaches cx.old cx.new }
    {
        let Ok(key) = make::<Replies, Oneshot<u64>, C>(cx, alloc, Oneshot::new(alloc)) else {
            return false;
        };
        let mut reply: RecvAt<Replies, u64> = RecvAt::new(key);
        let waits = matches!(reply.poll(rt, alloc, cx), Poll::Pending);
        reply.cancel(cx);
        waits && send_at::<Replies, u64, C>(cx, key, 0).is_err()
    }

    // Receives the reply that was asked for, if any. Returns whether it came and its channel is gone.
    fn hear<C: SharedContext<Replies>, R: Host>(
        &mut self,
        rt: &R,
        alloc: Global,
        cx: &mut C,
    ) -> bool
        ensures { C.reaches cx.old cx.new }
    {
        let Some((key, reply)) = self.asked.take() else {
            return true;
        };
        let mut reply = reply;
        if TaskFuture::<C>::spent(&reply) {
            return false;
        }
        let Poll::Ready(Ok(number)) = reply.poll(rt, alloc, cx) else {
            return false;
        };
        self.sum = self.sum.saturating_add(number);
        self.left = self.left.saturating_sub(1);
        send_at::<Replies, u64, C>(cx, key, 0).is_err()
    }

    // Makes the next request. Answers the sum once none is left, and a channel whose future is given up is gone.
    fn go_on<C: SharedContext<Replies>, R: Host>(
        &mut self,
        rt: &R,
        alloc: Global,
        cx: &mut C,
    ) -> Poll<u64>
        ensures { C.reaches cx.old cx.new }
    {
        if self.left == 0 {
            let is_gone = Caller::give_up::<C, R>(rt, alloc, cx);
            return Poll::Ready(if is_gone { self.sum } else { 0 });
        }
        if self.ask(rt, alloc, cx) {
            Poll::Pending
        } else {
            Poll::Ready(0)
        }
    }
}

impl<C: SharedContext<Replies>> TaskFuture<C> for Caller {
    type Output = u64;

    fn spent(&self) -> bool {
        false
    }

    fn poll<R: Host>(&mut self, rt: &R, alloc: Global, cx: &mut C) -> Poll<u64> {
        if !self.hear(rt, alloc, cx) {
            return Poll::Ready(0);
        }
        self.go_on(rt, alloc, cx)
    }

    fn cancel(self, cx: &mut C) {
        if let Some((_, reply)) = self.asked {
            reply.cancel(cx);
        }
    }
}

// Runs the caller beside a channel that has a message. Returns the sum of the replies, how many channels are left, and
// whether the first has its message; or none if out of memory.
fn run<R: Host>(rt: &R, alloc: Global) -> Option<(u64, u64, bool)> {
    let driver = TimeDriver::new(StepDriver::new(Vec::new(alloc)));
    let builder: RuntimeBuilder<TimeDriver<StepDriver>, NoPool> = RuntimeBuilder::new(driver);
    let mut beside: Oneshot<u64> = Oneshot::new(alloc);
    let is_sent = beside.send(7).is_ok();
    let mut part = Many::new(alloc);
    if part.make(alloc, beside).is_err() {
        return None;
    }
    let made: Runtime<Caller, u64, TimeDriver<StepDriver>, NoPool, Replies> =
        match builder.build_sharing(alloc, Only { part }) {
            Ok(made) => made,
            Err(_) => return None,
        };
    let mut runtime = made;
    let caller = Caller {
        asked: None,
        left: REQUESTS,
        sum: 0,
    };
    let sum = match runtime.block_on(rt, alloc, caller, 2 * REQUESTS + 2) {
        Ok(sum) => sum,
        Err(RunError::Memory) => return None,
        Err(_) => 0,
    };
    let part = &runtime.shared().part;
    let stays = match part.get(0) {
        Some(beside) => beside.is_closed(),
        None => false,
    };
    Some((sum, part.len(), is_sent && stays))
}

#[test]
fn a_thousand_requests_come_and_go(rt: HostRuntime) {
    if let Some(ended) = run(&rt, rt.alloc()) {
        assert_eq!(rt; ended, (500_500, 1, true));
    }
}
