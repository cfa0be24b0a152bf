// A task that waits for another thread, by a future that hands out a waker in each pending poll.
ghost use Rattle.mono_model.specs.Poll.{OnPending};
ghost use Rattle.mono_channel.specs.Polls.{FindsNone};

use mono_channel::{Receiver, Sender, channel};
use mono_rt::{
    Host, Instant, ListClock, NoPool, Poll, RemoteContext, RemoteWaker, TaskFuture, ThreadDriver,
    UnparkHandle, start,
};
use mono_wait::{FromOutside, Outside};
use std::alloc::Global;
use std::{mem, thread};

// How many numbers go to and fro.
const COUNT: u64 = 1000;

/// The next number that another thread sends. It is 0 if that thread has closed its end.
#[derive(Drop)]
struct NextNumber {
    receiver: Receiver<u64, UnparkHandle>,
}

// A pending poll has found no number. The channel has the waker under its lock, where the other thread takes it.
impl Outside<UnparkHandle> for NextNumber {
    type Output = u64;

    ghost hands = { λ a t b. FindsNone a.receiver b.receiver };

    fn poll_outside<R: Host>(&mut self, rt: &R, waker: RemoteWaker<UnparkHandle>) -> Poll<u64>
        ensures handed { OnPending result (FindsNone self.old.receiver self.new.receiver) }
    {
        match self.receiver.poll_recv(rt, &waker) {
            Poll::Pending => Poll::Pending,
            Poll::Ready(Ok(Some(number))) => Poll::Ready(number),
            Poll::Ready(_) => Poll::Ready(0),
        }
    }
}

/// Waits for a number, sends one greater back, and waits again, up to the last number. It answers the last number that
/// came.
#[derive(Drop)]
struct Echo {
    sender: Sender<u64, UnparkHandle>,
    next: Option<FromOutside<NextNumber, UnparkHandle>>,
    // the number that came last
    last: u64,
}

impl Echo {
    // Returns a task over these ends.
    fn new(sender: Sender<u64, UnparkHandle>, receiver: Receiver<u64, UnparkHandle>) -> Echo {
        Echo {
            sender,
            next: Some(FromOutside::new(NextNumber { receiver })),
            last: 0,
        }
    }

    // Sends one number greater back. Returns whether the task waits for another.
    fn send_back<R: Host>(&mut self, rt: &R, number: u64) -> bool {
        self.last = number;
        number > 0
            && number < COUNT
            && self.sender.try_send(rt, number.saturating_add(1)).is_ok()
            && number.saturating_add(1) < COUNT
    }

    // Waits for the next number. None if one came and another is to come.
    fn turn<C: RemoteContext<UnparkHandle>, R: Host>(
        &mut self,
        rt: &R,
        alloc: Global,
        cx: &mut C,
    ) -> Option<Poll<u64>>
        ensures { C.reaches cx.old cx.new }
    {
        let Some(next) = mem::replace(&mut self.next, None) else {
            return Some(Poll::Ready(self.last));
        };
        if TaskFuture::<C>::spent(&next) {
            return Some(Poll::Ready(self.last));
        }
        let mut next = next;
        match next.poll(rt, alloc, cx) {
            Poll::Pending => {
                self.next = Some(next);
                Some(Poll::Pending)
            }
            Poll::Ready(Err(_)) => Some(Poll::Ready(0)),
            Poll::Ready(Ok(number)) => {
                if !self.send_back(rt, number) {
                    return Some(Poll::Ready(self.last));
                }
                self.next = Some(FromOutside::new(next.outside));
                None
            }
        }
    }
}

impl<C: RemoteContext<UnparkHandle>> TaskFuture<C> for Echo {
    type Output = u64;

    fn spent(&self) -> bool {
        false
    }

    fn poll<R: Host>(&mut self, rt: &R, alloc: Global, cx: &mut C) -> Poll<u64> {
        for _ in 0..COUNT {
            if let Some(answer) = self.turn(rt, alloc, cx) {
                return answer;
            }
        }
        Poll::Ready(0)
    }

    fn cancel(self, cx: &mut C) {
        let Echo {
            sender: _,
            next,
            last: _,
        } = self;
        if let Some(next) = next {
            next.cancel(cx);
        }
    }
}

// A driver that parks its thread, and whose clock always reads 0: no task sleeps.
fn driver(alloc: Global) -> Option<ThreadDriver<ListClock>> {
    let readings = vec![in alloc; Instant::ZERO].ok()?;
    ThreadDriver::new(alloc, ListClock::new(readings)).ok()
}

// Runs one task on a runtime of this thread.
fn run<R: Host>(rt: &R, alloc: Global, task: Echo) -> Option<u64> {
    let driver = driver(alloc)?;
    start::<_, _, _, NoPool, _>(rt, alloc, driver, task, u64::MAX).ok()
}

// Sends numbers to and fro between two threads. Returns the last number that came to each.
fn to_and_fro<R: Host + Sync>(rt: &R, alloc: Global) -> Option<(u64, u64)> {
    let (there, first) = channel(alloc, 1).ok()?;
    let (back, second) = channel(alloc, 1).ok()?;
    let mut there = there;
    there.try_send(rt, 1).ok()?;
    let caller = Echo::new(there, second);
    let other = Echo::new(back, first);
    let (one, two) = thread::join(
        rt,
        move || run(rt, alloc, caller),
        move || run(rt, alloc, other),
    );
    Some((one?, two?))
}

#[test]
fn a_thread_wakes_the_task_that_handed_it_a_waker(rt: HostRuntime) {
    if let Some((one, two)) = to_and_fro(&rt, rt.alloc()) {
        assert_eq!(rt; one, COUNT);
        assert_eq!(rt; two, COUNT - 1);
    }
}
