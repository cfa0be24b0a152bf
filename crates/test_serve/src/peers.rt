// Tasks that wait for each other through a channel which they share, by futures that say where they wait.
use mono_rt::{
    Host, NoPool, Poll, Runtime, RuntimeBuilder, SharedContext, StepDriver, TaskFuture, TimeDriver,
};
use mono_sync::Only;
use mono_sync::mpsc::{Channel, Recv, Send};
use mono_wait::Reaching;
use std::alloc::Global;
use std::mem;
use std::process::Abort;

/// A channel for one number.
type Shelf = Only<Channel<u64>>;

/// A task that sends numbers, or a task that receives them.
#[derive(Drop)]
enum Peer {
    /// It sends this number, and then each smaller one down to 1.
    Sends(Reaching<Send<Shelf, u64>>, u64),
    /// It receives numbers down to 1; the numbers so far, as digits.
    Receives(Reaching<Recv<Shelf, u64>>, u64),
    /// It has answered.
    Over,
}

impl Peer {
    // Returns a task that sends this number, and then each smaller one.
    fn sender(number: u64) -> Peer {
        Peer::Sends(
            Reaching {
                future: Send::new(number),
            },
            number,
        )
    }

    // Returns a task that has received these digits.
    fn receiver(digits: u64) -> Peer {
        Peer::Receives(
            Reaching {
                future: Recv::new(),
            },
            digits,
        )
    }

    // Polls the future of the task. None if the task goes on.
    fn step<C: SharedContext<Shelf>, R: Host>(
        &mut self,
        rt: &R,
        alloc: Global,
        cx: &mut C,
    ) -> Option<Poll<u64>>
        ensures { C.reaches cx.old cx.new }
    {
        match mem::replace(self, Peer::Over) {
            Peer::Over => Some(Poll::Ready(0)),
            Peer::Sends(send, number) => self.send(rt, alloc, cx, send, number),
            Peer::Receives(recv, digits) => self.receive(rt, alloc, cx, recv, digits),
        }
    }

    // Polls the future of a task that sends. None if the number was sent and another is left.
    fn send<C: SharedContext<Shelf>, R: Host>(
        &mut self,
        rt: &R,
        alloc: Global,
        cx: &mut C,
        send: Reaching<Send<Shelf, u64>>,
        number: u64,
    ) -> Option<Poll<u64>>
        ensures { C.reaches cx.old cx.new }
    {
        let mut send = send;
        if TaskFuture::<C>::spent(&send) {
            return Some(Poll::Ready(0));
        }
        match send.poll(rt, alloc, cx) {
            Poll::Pending => {
                *self = Peer::Sends(send, number);
                Some(Poll::Pending)
            }
            Poll::Ready(Err(_)) => Some(Poll::Ready(0)),
            Poll::Ready(Ok(())) => {
                if number <= 1 {
                    return Some(Poll::Ready(number));
                }
                *self = Peer::sender(number - 1);
                None
            }
        }
    }

    // Polls the future of a task that receives. None if a number came and another is to come.
    fn receive<C: SharedContext<Shelf>, R: Host>(
        &mut self,
        rt: &R,
        alloc: Global,
        cx: &mut C,
        recv: Reaching<Recv<Shelf, u64>>,
        digits: u64,
    ) -> Option<Poll<u64>>
        ensures { C.reaches cx.old cx.new }
    {
        let mut recv = recv;
        if TaskFuture::<C>::spent(&recv) {
            return Some(Poll::Ready(0));
        }
        match recv.poll(rt, alloc, cx) {
            Poll::Pending => {
                *self = Peer::Receives(recv, digits);
                Some(Poll::Pending)
            }
            Poll::Ready(Ok(Some(number))) => {
                let digits = digits.saturating_mul(10).saturating_add(number);
                if number <= 1 {
                    return Some(Poll::Ready(digits));
                }
                *self = Peer::receiver(digits);
                None
            }
            Poll::Ready(_) => Some(Poll::Ready(0)),
        }
    }
}

impl<C: SharedContext<Shelf>> TaskFuture<C> for Peer {
    type Output = u64;

    fn spent(&self) -> bool {
        false
    }

    fn poll<R: Host>(&mut self, rt: &R, alloc: Global, cx: &mut C) -> Poll<u64> {
        for _ in 0..10u64 {
            if let Some(answer) = self.step(rt, alloc, cx) {
                return answer;
            }
        }
        Poll::Ready(0)
    }

    fn cancel(self, cx: &mut C) {
        match self {
            Peer::Over => {}
            Peer::Sends(send, _) => send.cancel(cx),
            Peer::Receives(recv, _) => recv.cancel(cx),
        }
    }
}

// Returns the digits that one task receives of another. The channel has one place, so each waits for the other in turn.
fn digits<R: Host + Abort>(rt: &R, alloc: Global) -> u64 {
    let driver = TimeDriver::new(StepDriver::new(Vec::new(alloc)));
    let builder: RuntimeBuilder<TimeDriver<StepDriver>, NoPool> = RuntimeBuilder::new(driver);
    let shelf = Only {
        part: Channel::new(alloc, 1),
    };
    let made: Runtime<Peer, u64, TimeDriver<StepDriver>, NoPool, Shelf> = builder
        .build_sharing(alloc, shelf)
        .expect(rt, "memory");
    let mut runtime = made;
    if runtime.spawn(alloc, Peer::sender(5)).is_err() {
        panic!(rt; "spawn");
    }
    runtime
        .block_on(rt, alloc, Peer::receiver(0), 100)
        .unwrap_or(0)
}

#[test]
fn tasks_of_one_runtime_wake_each_other(rt: HostRuntime) {
    assert_eq!(rt; digits(&rt, rt.alloc()), 54321);
}
