// The sender and the receiver.
ghost use Rattle.std.specs.Prelude.{⊤};
ghost use Rattle.example_services.specs.Producers.{is_over};

use crate::channels::boards::Board;
use mono_rt::{Host, Poll, SharedContext, TaskFuture};
use mono_sync::mpsc::{Recv, Send};
use mono_sync::{Acquire, permits};
use std::alloc::Global;
use std::mem;

/// A task that sends numbers, or a task that receives them.
#[derive(Drop)]
pub enum Party {
    /// It waits for a permit to send this number, and then this many more.
    Asks(Acquire<Board>, u64, u64),
    /// It sends this number, and then this many more.
    Sends(Send<Board, u64>, u64, u64),
    /// It receives, and then this many more; the sum so far, and how many it has received.
    Receives(Recv<Board, u64>, u64, u64, u64),
    /// It has answered.
    Over,
}

impl Party {
    /// Returns a task that sends `count` numbers from the first on, each with a permit.
    pub fn producer(first: u64, count: u64) -> Party {
        Party::Asks(Acquire::new(), first, count.saturating_sub(1))
    }

    /// Returns a task that receives `count` numbers, and releases a permit for each.
    pub fn consumer(count: u64) -> Party {
        Party::Receives(Recv::new(), count.saturating_sub(1), 0, 0)
    }
}

// Releases the permit of a number that was received, and queues the task again if some are left.
fn received<C: SharedContext<Board>>(cx: &mut C, left: u64)
    ensures { C.reaches cx.old cx.new }
{
    let _ = permits::release::<Board, C>(cx);
    if left > 0 {
        cx.wake_me();
    }
}

impl<C: SharedContext<Board>> TaskFuture<C> for Party {
    type Output = u64;

    ghost is_spent = { is_over };

    ghost polls = { λ f c r g d. ⊤ };

    ghost cancels = { λ f c d. ⊤ };

    fn spent(&self) -> bool {
        match self {
            Party::Over => true,
            Party::Asks(acquire, _, _) => TaskFuture::<C>::spent(acquire),
            Party::Sends(send, _, _) => TaskFuture::<C>::spent(send),
            Party::Receives(recv, _, _, _) => TaskFuture::<C>::spent(recv),
        }
    }

    fn poll<R: Host>(&mut self, rt: &R, alloc: Global, cx: &mut C) -> Poll<u64> {
        match mem::replace(self, Party::Over) {
            Party::Over => Poll::Ready(0),
            Party::Asks(acquire, number, left) => {
                let mut acquire = acquire;
                match acquire.poll(rt, alloc, cx) {
                    Poll::Pending => {
                        *self = Party::Asks(acquire, number, left);
                        Poll::Pending
                    }
                    Poll::Ready(Err(_)) => Poll::Ready(0),
                    Poll::Ready(Ok(())) => {
                        *self = Party::Sends(Send::new(number), number, left);
                        cx.wake_me();
                        Poll::Pending
                    }
                }
            }
            Party::Sends(send, number, left) => {
                let mut send = send;
                match send.poll(rt, alloc, cx) {
                    Poll::Pending => {
                        *self = Party::Sends(send, number, left);
                        Poll::Pending
                    }
                    Poll::Ready(Err(_)) => Poll::Ready(0),
                    Poll::Ready(Ok(())) => {
                        if left == 0 {
                            return Poll::Ready(number);
                        }
                        *self = Party::Asks(Acquire::new(), number.saturating_add(1), left - 1);
                        cx.wake_me();
                        Poll::Pending
                    }
                }
            }
            Party::Receives(recv, left, sum, place) => {
                let mut recv = recv;
                match recv.poll(rt, alloc, cx) {
                    Poll::Pending => {
                        *self = Party::Receives(recv, left, sum, place);
                        Poll::Pending
                    }
                    Poll::Ready(Err(_)) => Poll::Ready(0),
                    Poll::Ready(Ok(None)) => Poll::Ready(sum),
                    Poll::Ready(Ok(Some(number))) => {
                        received(cx, left);
                        let place = place.saturating_add(1);
                        let sum = sum.saturating_add(number.saturating_mul(place));
                        if left == 0 {
                            return Poll::Ready(sum);
                        }
                        *self = Party::Receives(Recv::new(), left - 1, sum, place);
                        Poll::Pending
                    }
                }
            }
        }
    }

    fn cancel(self, cx: &mut C) {
        match self {
            Party::Over => {}
            Party::Asks(acquire, _, _) => acquire.cancel(cx),
            Party::Sends(send, _, _) => send.cancel(cx),
            Party::Receives(recv, _, _, _) => recv.cancel(cx),
        }
    }
}
