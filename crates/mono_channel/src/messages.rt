// Futures that send and receive, over an end that each borrows.
ghost use Rattle.std.specs.Prelude.{◌≡◌, true, false};
ghost use Rattle.std.specs.declared.option.Option.TheVariants.{None, Some};
ghost use Rattle.mono_model.specs.Poll.{OnPending};
ghost use Rattle.mono_channel.specs.Polls.{PollsToReceive, PollsToSend, PolledEnd};
ghost use Rattle.mono_channel.specs.Messages.{ReceiveGives, SendGives};
ghost use Rattle.mono_channel.specs.Queues.{WasFull};
ghost use Rattle.mono_channel.specs.Spent.{send_spent};

use crate::ends::{Receiver, Sender};
use crate::errors::{SendError, TryRecvError, TrySendError};
use crate::waiters::Waiter;
use mono_blocking::RemoteContext;
use mono_inbox::Unpark;
use mono_model::{Host, Poll};
use mono_task::TaskFuture;
use std::alloc::{AllocError, Global};
use std::mem;

/// A future that receives the next message, over a receiver that it borrows (`Receiver::recv`).
///
/// It is never spent: a poll after an answer receives the message after it. Giving it up loses no message and leaves the
/// receiver as it is; at most its task is woken once more.
#[derive(Drop)]
pub struct Recv<'a, T: Drop, U: Unpark> {
    pub(crate) receiver: &'a mut Receiver<T, U>,
    // the task that waits, after a pending poll
    pub(crate) task: u64,
}

/// A future that sends a message, over a sender that it borrows (`Sender::send`). It waits while each place is taken.
///
/// Giving it up before it has answered sends nothing and leaves the sender as it is, out of the line. It drops the message,
/// unless `into_message` takes it.
pub struct Send<'a, T: Drop, U: Unpark, R: Host + Drop> {
    pub(crate) sender: &'a mut Sender<T, U>,
    // the message, until the future has answered
    pub(crate) message: Option<T>,
    // the task that waits, after a pending poll
    pub(crate) task: u64,
    // the handle with which it leaves the line
    pub(crate) rt: R,
}

impl<T: Drop, U: Unpark, R: Host + Drop> Drop for Send<'_, T, U, R> {
    fn drop(self)
        ensures { self.exit.0.now ≡ self.entry.sender.now }
    {
        let Send {
            sender,
            message: _,
            task: _,
            rt,
        } = self;
        sender.leave_line(&rt);
    }
}

impl<T: Drop, U: Unpark> Receiver<T, U> {
    /// Returns a future that receives the next message, on the receiver itself (`receiver`, `same_reference`).
    ///
    /// ```rust
    /// // test_threads/src/channels/futures.rt
    /// receiver.recv().poll(rt, alloc, cx) == Poll::Ready(Ok(Some(10)))
    /// ```
    pub fn recv(&mut self) -> Recv<'_, T, U>
        ensures same_reference { result.receiver.ghost_name ≡ self.entry.ghost_name }
        ensures receiver { result.receiver.now ≡ self.old }
    {
        Recv {
            receiver: self,
            task: 0,
        }
    }

    // Takes the first message, or waits for one with the running task's waker.
    pub(crate) fn poll_in<C: RemoteContext<U>, R: Host>(
        &mut self,
        rt: &R,
        cx: &mut C,
    ) -> Poll<Result<Option<T>, AllocError>>
        ensures polled { PollsToReceive self.old result self.new }
        ensures ended { PolledEnd result self.new }
        ensures handed { OnPending result (C.has_handed_out cx.new ≡ true) }
        ensures reached { C.reaches cx.old cx.new }
    {
        match self.try_recv(rt) {
            Ok(message) => return Poll::Ready(Ok(Some(message))),
            Err(TryRecvError::Disconnected) => return Poll::Ready(Ok(None)),
            Err(TryRecvError::Empty) => {}
        }
        match cx.remote_waker() {
            Ok(waker) => self.take_or_pend(rt, Waiter::Task(waker)),
            Err(failed) => Poll::Ready(Err(failed)),
        }
    }
}

impl<T: Drop, U: Unpark> Sender<T, U> {
    /// Returns a future that sends the message, on the sender itself (`sender`, `same_reference`). If it is given up, it
    /// leaves the line by this handle.
    pub fn send<R: Host + Drop>(&mut self, rt: R, message: T) -> Send<'_, T, U, R>
        ensures same_reference { result.sender.ghost_name ≡ self.entry.ghost_name }
        ensures sender { result.sender.now ≡ self.old }
        ensures message { result.message ≡ Some message }
    {
        Send {
            sender: self,
            message: Some(message),
            task: 0,
            rt,
        }
    }

    // Sends the message, or keeps it and waits with the running task's waker.
    #[tactic(auto, using(crate::proofs::PollLemmas::on_pending))]
    pub(crate) fn poll_in<C: RemoteContext<U>, R: Host>(
        &mut self,
        rt: &R,
        cx: &mut C,
        message: T,
        kept: &mut Option<T>,
    ) -> Poll<Result<(), SendError<T>>>
        requires { kept.old ≡ None }
        ensures polled { PollsToSend self.old (Some message) result self.new kept.new }
        ensures full { OnPending result (WasFull self.old) }
        ensures handed { OnPending result (C.has_handed_out cx.new ≡ true) }
        ensures reached { C.reaches cx.old cx.new }
    {
        let again = match self.try_send(rt, message) {
            Ok(()) => return Poll::Ready(Ok(())),
            Err(TrySendError::Closed(back)) => return Poll::Ready(Err(SendError::Closed(back))),
            Err(TrySendError::Full(back)) => back,
        };
        match cx.remote_waker() {
            Ok(waker) => self.send_or_pend(rt, Waiter::Task(waker), again, kept),
            Err(_) => {
                self.leave_line(rt);
                Poll::Ready(Err(SendError::Memory(again)))
            }
        }
    }
}

impl<T: Drop, U: Unpark, R: Host + Drop> Send<'_, T, U, R> {
    /// Gives the future up and returns its message, which was not sent; none if the future has answered.
    pub fn into_message(self) -> Option<T>
        ensures message { result ≡ self.entry.message }
        ensures sender { self.exit.0.now ≡ self.entry.sender.now }
    {
        let mut future = self;
        mem::replace(&mut future.message, None)
    }
}

/// The future answers the first message, or none once the channel was closed and no message is left. It fails if out of
/// memory. A pending poll has handed out a waker of the running task, and the channel keeps it.
impl<T: Drop, U: Unpark, C: RemoteContext<U>> TaskFuture<C> for Recv<'_, T, U> {
    type Output = Result<Option<T>, AllocError>;

    ghost is_spent = { λ f. false };

    ghost polls = { λ f c r g d. PollsToReceive f.receiver.now r g.receiver.now × C.reaches c d × OnPending r ((C.has_handed_out d ≡ true) × (g.task ≡ C.number c)) × PolledEnd r g.receiver.now };

    ghost gives = { λ f. ReceiveGives f.receiver.now };

    ghost cancels = { λ f c d. d ≡ c };

    fn spent(&self) -> bool {
        false
    }

    fn poll<R: Host>(
        &mut self,
        rt: &R,
        _alloc: Global,
        cx: &mut C,
    ) -> Poll<Result<Option<T>, AllocError>> {
        self.task = cx.me();
        self.receiver.poll_in(rt, cx)
    }

    fn cancel(self, _cx: &mut C) {}
}

/// The future answers once the message is queued. It fails if the channel or the sender was closed, or if out of memory;
/// then the message comes back. A pending poll has handed out a waker of the running task, and the channel keeps it.
impl<T: Drop, U: Unpark, H: Host + Drop, C: RemoteContext<U>> TaskFuture<C> for Send<'_, T, U, H> {
    type Output = Result<(), SendError<T>>;

    ghost is_spent = { send_spent };

    ghost polls = { λ f c r g d. PollsToSend f.sender.now f.message r g.sender.now g.message × C.reaches c d × OnPending r ((C.has_handed_out d ≡ true) × (g.task ≡ C.number c) × WasFull f.sender.now) };

    ghost gives = { λ f. SendGives f.sender.now f.message };

    ghost cancels = { λ f c d. d ≡ c };

    fn spent(&self) -> bool {
        self.message.is_none()
    }

    fn poll<R: Host>(
        &mut self,
        rt: &R,
        _alloc: Global,
        cx: &mut C,
    ) -> Poll<Result<(), SendError<T>>> {
        let Some(message) = mem::replace(&mut self.message, None) else {
            unreachable!()
        };
        self.task = cx.me();
        self.sender.poll_in(rt, cx, message, &mut self.message)
    }

    fn cancel(self, _cx: &mut C) {}
}
