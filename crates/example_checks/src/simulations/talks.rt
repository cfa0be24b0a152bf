// The two tasks that talk: one sends, the other receives and may be mistaken about the end.
use mono_channel::{Receiver, SendError, Sender};
use mono_rt::{Host, Poll, RemoteContext, Sleep, TaskFuture, TimeContext, UnparkHandle, sleep};
use std::alloc::Global;
use std::mem;
use std::time::Duration;

/// The numbers that are left to send, and the sender.
#[derive(Drop)]
pub struct Unsent {
    sender: Sender<u64, UnparkHandle>,
    number: u64,
    left: u64,
}

/// A task of one of the two runtimes.
#[derive(Drop)]
pub enum Talk {
    /// It sends numbers, with a sleep of a millisecond after each third.
    Sends(Unsent),
    /// It sleeps, and then sends on.
    Rests(Sleep, Unsent),
    /// It receives until the channel is closed; how many numbers came. If it is hasty, it ends as soon as it sees that the
    /// channel is closed, before it looks for numbers that are left.
    Receives(Receiver<u64, UnparkHandle>, u64, bool),
    /// It has answered.
    Over,
}

impl Talk {
    /// Returns a task that sends so many numbers, and then closes its sender. It answers how many it sent.
    pub fn sender(sender: Sender<u64, UnparkHandle>, count: u64) -> Talk {
        Talk::Sends(Unsent {
            sender,
            number: 0,
            left: count,
        })
    }

    /// Returns a task that receives until the channel is closed, and answers how many numbers came.
    pub fn receiver(receiver: Receiver<u64, UnparkHandle>, is_hasty: bool) -> Talk {
        Talk::Receives(receiver, 0, is_hasty)
    }

    // Sends on from the next turn on once the sleep has ended.
    fn rest<R: Host, C: TimeContext>(
        &mut self,
        rt: &R,
        alloc: Global,
        cx: &mut C,
        rest: Sleep,
        unsent: Unsent,
    ) -> Poll<u64>
        ensures { C.reaches cx.old cx.new }
    {
        let mut rest = rest;
        match rest.poll(rt, alloc, cx) {
            Poll::Pending => *self = Talk::Rests(rest, unsent),
            Poll::Ready(_) => {
                rest.cancel(cx);
                *self = Talk::Sends(unsent);
                cx.wake_me();
            }
        }
        Poll::Pending
    }

    // Sends a number, or closes the sender if none is left or the channel is closed.
    fn send<R: Host, C: RemoteContext<UnparkHandle> + TimeContext>(
        &mut self,
        rt: &R,
        alloc: Global,
        cx: &mut C,
        unsent: Unsent,
    ) -> Poll<u64>
        ensures { C.reaches cx.old cx.new }
    {
        let Unsent {
            mut sender,
            number,
            left,
        } = unsent;
        if left == 0 {
            sender.close(rt);
            return Poll::Ready(number);
        }
        match send_by(rt, cx, &mut sender, number) {
            Poll::Pending => *self = Talk::Sends(Unsent {
                sender,
                number,
                left,
            }),
            Poll::Ready(Err(_)) => {
                sender.close(rt);
                return Poll::Ready(number);
            }
            Poll::Ready(Ok(())) => {
                let number = number.saturating_add(1);
                self.go_on(
                    alloc,
                    cx,
                    Unsent {
                        sender,
                        number,
                        left: left - 1,
                    },
                );
            }
        }
        Poll::Pending
    }

    // Sends on from the next turn on, or sleeps then for a millisecond after each third number.
    fn go_on<C: TimeContext>(&mut self, alloc: Global, cx: &mut C, unsent: Unsent)
        ensures { C.reaches cx.old cx.new }
    {
        *self = match rest_after(alloc, cx, unsent.number) {
            Some(rest) => Talk::Rests(rest, unsent),
            None => Talk::Sends(unsent),
        };
        cx.wake_me();
    }

    // Receives a number, or ends if the channel is closed.
    fn receive<R: Host, C: RemoteContext<UnparkHandle>>(
        &mut self,
        rt: &R,
        alloc: Global,
        cx: &mut C,
        receiver: Receiver<u64, UnparkHandle>,
        count: u64,
        is_hasty: bool,
    ) -> Poll<u64>
        ensures { C.reaches cx.old cx.new }
    {
        let mut receiver = receiver;
        if is_hasty && receiver.is_closed(rt) {
            return Poll::Ready(count);
        }
        match receiver.recv().poll(rt, alloc, cx) {
            Poll::Pending => {
                *self = Talk::Receives(receiver, count, is_hasty);
                Poll::Pending
            }
            Poll::Ready(Ok(Some(_))) => {
                *self = Talk::Receives(receiver, count.saturating_add(1), is_hasty);
                cx.wake_me();
                Poll::Pending
            }
            Poll::Ready(_) => Poll::Ready(count),
        }
    }
}

// Sends a number, or waits in line for a place. It fails if the channel was closed or out of memory.
fn send_by<R: Host, C: RemoteContext<UnparkHandle>>(
    rt: &R,
    cx: &mut C,
    sender: &mut Sender<u64, UnparkHandle>,
    number: u64,
) -> Poll<Result<(), SendError<u64>>>
    ensures { C.reaches cx.old cx.new }
{
    match cx.remote_waker() {
        Ok(waker) => sender.poll_send(rt, &waker, &mut Some(number)),
        Err(_) => Poll::Ready(Err(SendError::Memory(number))),
    }
}

// Makes a sleep of a millisecond after each third number. Returns None otherwise, or if the sleep is refused.
fn rest_after<C: TimeContext>(alloc: Global, cx: &mut C, number: u64) -> Option<Sleep>
    ensures { C.reaches cx.old cx.new }
{
    if number % 3 != 0 {
        return None;
    }
    sleep(alloc, cx, Duration::from_millis(1)).ok()
}

impl<C: RemoteContext<UnparkHandle> + TimeContext> TaskFuture<C> for Talk {
    type Output = u64;

    fn spent(&self) -> bool {
        false
    }

    fn poll<R: Host>(&mut self, rt: &R, alloc: Global, cx: &mut C) -> Poll<u64> {
        match mem::replace(self, Talk::Over) {
            Talk::Sends(unsent) => self.send(rt, alloc, cx, unsent),
            Talk::Rests(rest, unsent) => self.rest(rt, alloc, cx, rest, unsent),
            Talk::Receives(receiver, count, is_hasty) => {
                self.receive(rt, alloc, cx, receiver, count, is_hasty)
            }
            Talk::Over => Poll::Ready(0),
        }
    }

    fn cancel(self, cx: &mut C) {
        if let Talk::Rests(rest, _) = self {
            rest.cancel(cx);
        }
    }
}
