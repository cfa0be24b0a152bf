// Senders on two threads that wait when the receiver closes the channel.
use mono_channel::{Receiver, Sender, channel};
use mono_rt::{
    Host, Instant, ListClock, NoPool, Poll, RemoteContext, RemoteWaker, RunError, TaskFuture,
    ThreadDriver, UnparkHandle, start,
};
use std::alloc::Global;
use std::process::Abort;
use std::sync::Arc;
use std::sync::atomic::{AtomicU64, Ordering};
use std::thread;

/// Sends numbers until the channel is closed, and counts once it waits. It answers how many it sent.
#[derive(Drop)]
struct Holder {
    sender: Sender<u64, UnparkHandle>,
    // how many senders wait
    waiting: Arc<AtomicU64, Global>,
    sent: u64,
}

impl Holder {
    // Sends until each place is taken, or the channel is closed.
    fn fill<R: Host>(&mut self, rt: &R, waker: &RemoteWaker<UnparkHandle>) -> Poll<u64> {
        for _ in 0..u64::MAX {
            let mut message = Some(self.sent);
            match self.sender.poll_send(rt, waker, &mut message) {
                Poll::Ready(Ok(())) => self.sent = self.sent.saturating_add(1),
                Poll::Ready(Err(_)) => return Poll::Ready(self.sent),
                Poll::Pending => {
                    self.waiting.fetch_add(1, Ordering::SeqCst);
                    return Poll::Pending;
                }
            }
        }
        Poll::Ready(self.sent)
    }
}

impl<C: RemoteContext<UnparkHandle>> TaskFuture<C> for Holder {
    type Output = u64;

    fn spent(&self) -> bool {
        false
    }

    fn poll<R: Host>(&mut self, rt: &R, _alloc: Global, cx: &mut C) -> Poll<u64> {
        let Ok(waker) = cx.remote_waker() else {
            return Poll::Ready(self.sent);
        };
        self.fill(rt, &waker)
    }

    fn cancel(self, _cx: &mut C) {}
}

// A driver that parks its thread, and whose clock always reads 0: no task sleeps.
fn driver<R: Abort>(rt: &R, alloc: Global) -> ThreadDriver<ListClock> {
    let readings = vec![in alloc; Instant::ZERO].expect(rt, "memory");
    ThreadDriver::new(alloc, ListClock::new(readings)).expect(rt, "memory")
}

// Runs a sender on a runtime of this thread. It is counted as waiting if it ended before it waited.
fn run<R: Host + Abort>(
    rt: &R,
    alloc: Global,
    sender: Sender<u64, UnparkHandle>,
    waiting: Arc<AtomicU64, Global>,
) -> Result<u64, RunError> {
    let count = Arc::try_clone(&waiting).expect(rt, "memory");
    let holder = Holder {
        sender,
        waiting,
        sent: 0,
    };
    let sent = start::<_, _, _, NoPool, _>(rt, alloc, driver(rt, alloc), holder, u64::MAX);
    count.fetch_add(1, Ordering::SeqCst);
    sent
}

// Returns once two senders wait.
fn await_both<R: Host>(rt: &R, waiting: &AtomicU64) {
    for _ in rt.forever() {
        if waiting.load(Ordering::SeqCst) >= 2 {
            return;
        }
        thread::yield_now();
    }
}

// Closes the channel once two senders wait. Returns how many messages were queued.
fn close<R: Host>(rt: &R, mut receiver: Receiver<u64, UnparkHandle>, waiting: &AtomicU64) -> u64 {
    await_both(rt, waiting);
    receiver.close(rt);
    let mut queued = 0u64;
    for _ in 0..8 {
        if receiver.try_recv(rt).is_ok() {
            queued = queued.saturating_add(1);
        }
    }
    queued
}

// Two senders fill a channel of four places and wait, and then its receiver closes it. Returns how many messages both
// sent, and how many came.
fn fill_and_close<R: Host + Abort + Sync>(rt: &R, alloc: Global) -> (u64, u64) {
    let (mut first, receiver) = channel(alloc, 4).expect(rt, "memory");
    let second = first.try_clone(rt).expect(rt, "a count");
    let waiting = Arc::new(alloc, AtomicU64::new(0)).expect(rt, "memory");
    let one = Arc::try_clone(&waiting).expect(rt, "memory");
    let two = Arc::try_clone(&waiting).expect(rt, "memory");
    let (queued, (left, right)) = thread::join(
        rt,
        move || close(rt, receiver, &waiting),
        move || {
            thread::join(
                rt,
                move || run(rt, alloc, first, one),
                move || run(rt, alloc, second, two),
            )
        },
    );
    (left.unwrap_or(0).saturating_add(right.unwrap_or(0)), queued)
}

#[test]
fn a_close_ends_the_senders_that_wait(rt: HostRuntime) {
    assert_eq!(rt; fill_and_close(&rt, rt.alloc()), (4, 4));
}
