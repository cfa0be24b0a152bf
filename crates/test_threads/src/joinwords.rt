use mono_joinword::{Completed, JoinError, Joiner, Outcome, Poll, Wakes, pair};
use std::alloc::Global;
use std::process::Abort;
use std::sync::Arc;
use std::sync::atomic::{AtomicU64, Ordering};
use std::thread::{self, JoinHandle, Threads};

#[derive(Drop)]
pub(crate) struct Named(pub(crate) u64);

impl Wakes for Named {
    ghost waker_number = { λ w. w.0 };

    fn number(&self) -> u64 {
        self.0
    }
}

// Returns the number of the waker that a completion hands back, or 0 if it hands back none.
pub(crate) fn woken(waker: Option<Named>) -> u64 {
    match waker {
        Some(Named(number)) => number,
        None => 0,
    }
}

#[test]
fn the_waker_comes_back_and_then_the_output(rt: HostRuntime) {
    let (runner, mut joiner) = pair::<u64, Named>(rt.alloc(), 4).expect(&rt, "memory");
    let is_pending = joiner.poll(Named(7)).is_pending();
    let done = runner.complete(Ok(4));
    assert!(rt; is_pending & !done.dropped & (woken(done.woke) == 7));
    assert!(rt; !joiner.is_taken());
    let is_ready = joiner.poll(Named(7)) == Poll::Ready(Ok(4));
    assert!(rt; is_ready & joiner.is_taken() & joiner.cancel().is_none());
}

#[test]
fn a_runner_that_is_let_go_cancels(rt: HostRuntime) {
    let (runner, mut joiner) = pair::<(), Named>(rt.alloc(), 0).expect(&rt, "memory");
    assert!(rt; joiner.poll(Named(7)).is_pending());
    drop(runner);
    assert!(rt; joiner.poll(Named(7)) == Poll::Ready(Err(JoinError::Canceled)));
}

// An output that counts how often one is dropped.
struct Counted {
    number: u64,
    drops: Arc<AtomicU64, Global>,
}

impl Outcome for Counted {
    ghost output_number = { λ c. c.number };

    fn number(&self) -> u64 {
        self.number
    }
}

impl Drop for Counted {
    fn drop(self) {
        let Self { number: _, drops } = self;
        drops.fetch_add(1, Ordering::SeqCst);
    }
}

// A joiner, and the thread on which its runner completes. If it waits, the waker 7 was stored before.
type Racing = (
    Joiner<Counted, Named>,
    JoinHandle<Completed<Counted, Named>>,
);

fn start_completing<R: Threads + Abort>(
    rt: &R,
    alloc: Global,
    waits: bool,
    spins: u64,
    drops: &Arc<AtomicU64, Global>,
) -> Racing {
    let drops = Arc::try_clone(drops).expect(rt, "memory");
    let output = Counted { number: 4, drops };
    let (runner, mut joiner) = pair::<Counted, Named>(alloc, 4).expect(rt, "memory");
    if waits {
        assert!(rt; joiner.poll(Named(7)).is_pending());
    }
    let child = thread::spawn(rt, move || runner.complete(Ok(output)));
    let child = child.ok().expect(rt, "a thread");
    for _ in 0..spins {
        joiner.is_finished();
    }
    (joiner, child)
}

// Returns whether this is the output of those jobs.
fn is_theirs(output: Result<Counted, JoinError>) -> bool {
    matches!(output, Ok(Counted { number: 4, .. }))
}

// Returns whether the joiner gets the output once, if it polls with the waker 8 while another thread completes.
fn poll_in_time<R: Threads + Abort>(
    rt: &R,
    alloc: Global,
    waits: bool,
    spins: u64,
    drops: &Arc<AtomicU64, Global>,
) -> bool {
    let (mut joiner, child) = start_completing(rt, alloc, waits, spins, drops);
    assert!(rt; !joiner.is_taken());
    let answer = joiner.poll(Named(8));
    let done = child.join(rt);
    let woke = woken(done.woke);
    let is_told = match answer {
        Poll::Ready(output) => (woke == 0 || waits && woke == 7) & is_theirs(output),
        Poll::Pending => match joiner.poll(Named(9)) {
            Poll::Ready(output) => (woke == 8) & is_theirs(output),
            Poll::Pending => false,
        },
    };
    is_told & !done.dropped & joiner.is_taken() & joiner.cancel().is_none()
}

// Returns whether the output is handed out or dropped if the joiner cancels while another thread completes.
fn cancel_in_time<R: Threads + Abort>(
    rt: &R,
    alloc: Global,
    waits: bool,
    spins: u64,
    drops: &Arc<AtomicU64, Global>,
) -> bool {
    let (joiner, child) = start_completing(rt, alloc, waits, spins, drops);
    let handed = joiner.cancel().is_some();
    let done = child.join(rt);
    let waker = if handed && waits { 7 } else { 0 };
    (done.dropped != handed) & (woken(done.woke) == waker)
}

#[test]
fn each_output_is_handed_out_or_dropped_once(rt: HostRuntime) {
    let drops = Arc::new(rt.alloc(), AtomicU64::new(0)).expect(&rt, "memory");
    for round in 0..200 {
        for waits in [false, true] {
            let is_polled = poll_in_time(&rt, rt.alloc(), waits, round * 16, &drops);
            assert!(rt; is_polled & cancel_in_time(&rt, rt.alloc(), waits, round * 16, &drops));
        }
    }
    assert!(rt; drops.load(Ordering::SeqCst) == 800);
}
