// Futures that send and receive, over an end that each owns and answers.
ghost use Rattle.std.specs.Prelude.{◌≡◌, IfOk, IfErr};
ghost use Rattle.std.specs.declared.option.Option.TheVariants.{None, Some};
ghost use Rattle.mono_model.specs.declared.poll.Poll.TheVariants.{Ready, Pending};
ghost use Rattle.mono_channel.specs.Polls.{PollsToReceive, PollsToSend, FindsNone};
ghost use Rattle.mono_channel.specs.Owned.{IntoSendGives, IntoRecvGives};
ghost use Rattle.mono_channel.specs.Spent.{sends_by, receives_by, into_send_spent, into_recv_spent};

use crate::ends::{Receiver, Sender};
use crate::errors::SendError;
use mono_blocking::RemoteContext;
use mono_inbox::Unpark;
use mono_model::{Host, Poll};
use mono_task::TaskFuture;
use std::alloc::{AllocError, Global};

/// A future that sends a message, over a sender that it owns (`Sender::into_send`). It answers the sender, too.
///
/// Use it in a loop, whose next turn takes the sender. A future that is given up drops its sender, which leaves the line
/// and is not closed: under a timeout, in a race or in a select, use `Sender::send`.
pub struct IntoSend<T: Drop, U: Unpark, R: Host + Drop> {
    // the sender and the message, until the future has answered
    pub(crate) inner: Option<(Sender<T, U>, T)>,
    // the handle with which the sender leaves the line
    pub(crate) rt: R,
}

impl<T: Drop, U: Unpark, R: Host + Drop> Drop for IntoSend<T, U, R> {
    fn drop(self) {
        let IntoSend { inner, rt } = self;
        if let Some((sender, _)) = inner {
            let mut sender = sender;
            sender.leave_line(&rt);
        }
    }
}

/// A future that receives the next message, over a receiver that it owns (`Receiver::into_recv`). It answers the
/// receiver, too.
///
/// Use it in a loop, whose next turn takes the receiver. A future that is given up drops its receiver, which is not
/// closed: under a timeout, in a race or in a select, use `Receiver::recv`.
#[derive(Drop)]
pub struct IntoRecv<T: Drop, U: Unpark> {
    // the receiver, until the future has answered
    pub(crate) receiver: Option<Receiver<T, U>>,
}

impl<T: Drop, U: Unpark> Sender<T, U> {
    /// Returns a future that sends the message and then answers the sender. If it is given up, the sender leaves the line by
    /// this handle.
    pub fn into_send<R: Host + Drop>(self, rt: R, message: T) -> IntoSend<T, U, R>
        ensures { sends_by result ≡ Some (self, message) }
    {
        IntoSend {
            inner: Some((self, message)),
            rt,
        }
    }

    // Sends the message, or returns it with the sender, which waits with the running task's waker.
    fn send_in<C: RemoteContext<U>, R: Host>(
        self,
        rt: &R,
        cx: &mut C,
        message: T,
    ) -> Result<(Sender<T, U>, Result<(), SendError<T>>), (Sender<T, U>, T)>
        ensures sent { IfOk result (λ r. PollsToSend self (Some message) (Ready r.1) r.0 None) }
        ensures waits { IfErr result (λ r. PollsToSend self (Some message) Pending r.0 (Some r.1)) }
        ensures reached { C.reaches cx.old cx.new }
    {
        let mut sender = self;
        let mut kept = None;
        match sender.poll_in(rt, cx, message, &mut kept) {
            Poll::Ready(answer) => Ok((sender, answer)),
            Poll::Pending => match kept {
                Some(message) => Err((sender, message)),
                None => unreachable!(),
            },
        }
    }
}

impl<T: Drop, U: Unpark> Receiver<T, U> {
    /// Returns a future that receives the next message and then answers the receiver.
    pub fn into_recv(self) -> IntoRecv<T, U>
        ensures { receives_by result ≡ Some self }
    {
        IntoRecv {
            receiver: Some(self),
        }
    }
}

/// The future answers the sender once the message is queued. It fails if the channel or the sender was closed, or if out
/// of memory; then the message comes back.
impl<T: Drop, U: Unpark, H: Host + Drop, C: RemoteContext<U>> TaskFuture<C> for IntoSend<T, U, H> {
    type Output = (Sender<T, U>, Result<(), SendError<T>>);

    ghost is_spent = { λ f. into_send_spent f };

    ghost gives = { λ f x. IntoSendGives (sends_by f) x.0 x.1 };

    ghost cancels = { λ f c d. d ≡ c };

    fn spent(&self) -> bool {
        self.inner.is_none()
    }

    fn poll<R: Host>(
        &mut self,
        rt: &R,
        _alloc: Global,
        cx: &mut C,
    ) -> Poll<(Sender<T, U>, Result<(), SendError<T>>)> {
        let Some((sender, message)) = self.inner.take() else {
            unreachable!()
        };
        match sender.send_in(rt, cx, message) {
            Ok(answer) => Poll::Ready(answer),
            Err(waiting) => {
                self.inner = Some(waiting);
                Poll::Pending
            }
        }
    }

    fn cancel(self, _cx: &mut C) {}
}

/// The future answers the receiver with the first message, or with none once the channel was closed and no message is
/// left. It fails if out of memory.
impl<T: Drop, U: Unpark, C: RemoteContext<U>> TaskFuture<C> for IntoRecv<T, U> {
    type Output = (Receiver<T, U>, Result<Option<T>, AllocError>);

    ghost is_spent = { λ f. into_recv_spent f };

    ghost gives = { λ f x. IntoRecvGives (receives_by f) x.0 x.1 };

    ghost cancels = { λ f c d. d ≡ c };

    fn spent(&self) -> bool {
        self.receiver.is_none()
    }

    fn poll<R: Host>(
        &mut self,
        rt: &R,
        _alloc: Global,
        cx: &mut C,
    ) -> Poll<(Receiver<T, U>, Result<Option<T>, AllocError>)> {
        let Some(mut receiver) = self.receiver.take() else {
            unreachable!()
        };
        match receiver.poll_in(rt, cx) {
            Poll::Ready(answer) => Poll::Ready((receiver, answer)),
            Poll::Pending => {
                self.receiver = Some(receiver);
                Poll::Pending
            }
        }
    }

    fn cancel(self, _cx: &mut C) {}
}
