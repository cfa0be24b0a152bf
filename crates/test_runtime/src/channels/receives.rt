// A task that receives by a future beside one that sends, on one runtime.

use mono_channel::{Receiver, Sender, channel};
use mono_inbox::NoUnpark;
use mono_rt::{
    Host, NoPool, Poll, RemoteContext, RunError, Runtime, RuntimeBuilder, StepDriver, TaskFuture,
};
use std::alloc::Global;
use std::process::Abort;

/// A task of the runtime.
#[derive(Drop)]
enum Party {
    /// It sends 7 in its second turn, and then closes its sender.
    Sends(Sender<u64, NoUnpark>, bool),
    /// It receives until the channel is closed, and answers the sum of the numbers; 9000 if out of memory.
    Receives(Receiver<u64, NoUnpark>, u64),
}

// Receives one message, or waits for one.
fn receive<C: RemoteContext<NoUnpark>, R: Host>(
    rt: &R,
    alloc: Global,
    cx: &mut C,
    receiver: &mut Receiver<u64, NoUnpark>,
    sum: &mut u64,
) -> Poll<u64>
    ensures { C.reaches cx.old cx.new }
{
    match receiver.recv().poll(rt, alloc, cx) {
        Poll::Pending => Poll::Pending,
        Poll::Ready(Ok(Some(number))) => {
            *sum = sum.saturating_add(number);
            cx.wake_me();
            Poll::Pending
        }
        Poll::Ready(Ok(None)) => Poll::Ready(*sum),
        Poll::Ready(Err(_)) => Poll::Ready(9000),
    }
}

impl<C: RemoteContext<NoUnpark>> TaskFuture<C> for Party {
    type Output = u64;

    fn spent(&self) -> bool {
        false
    }

    fn poll<R: Host>(&mut self, rt: &R, alloc: Global, cx: &mut C) -> Poll<u64> {
        match self {
            Party::Sends(sender, has_waited) => {
                if *has_waited {
                    let _ = sender.try_send(rt, 7);
                    sender.close(rt);
                    return Poll::Ready(0);
                }
                *has_waited = true;
                cx.wake_me();
                Poll::Pending
            }
            Party::Receives(receiver, sum) => receive(rt, alloc, cx, receiver, sum),
        }
    }

    fn cancel(self, _cx: &mut C) {}
}

// Receives in the main task what another task sends once the main task waits.
fn received<R: Host + Abort>(rt: &R, alloc: Global) -> Result<u64, RunError> {
    let (sender, receiver) = channel(alloc, 4).expect(rt, "memory");
    let builder: RuntimeBuilder<_, NoPool> = RuntimeBuilder::new(StepDriver::new(Vec::new(alloc)));
    let mut runtime: Runtime<Party, u64, StepDriver, NoPool> = builder
        .build(alloc)
        .expect(rt, "memory");
    let is_spawned = runtime.spawn(alloc, Party::Sends(sender, false)).is_ok();
    assert!(rt; is_spawned);
    runtime.block_on(rt, alloc, Party::Receives(receiver, 0), 100)
}

#[test]
fn a_message_and_a_close_wake_a_receive_that_waits(rt: HostRuntime) {
    assert_eq!(rt; received(&rt, rt.alloc()), Ok(7));
}
