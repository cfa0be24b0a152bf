// The end of a channel, with the message that was not sent yet.
ghost use Rattle.std.specs.Prelude.{◌≡◌, ◌++◌, ◌∷◌, [], true, IfErr, IfOk, None};
ghost use Rattle.mono_channel.specs.Delivery.{shares_kept, shares_given};
ghost use Rattle.mono_channel.specs.Ends.{sent_by, shares_of, closed, IsPair};
ghost use Rattle.mono_channel.specs.Errors.{unsent};
ghost use Rattle.lease_server.specs.Outlets.{passed, KeepsAll, Stays};

use mono_channel::{SendError, Sender};
use mono_rt::{Host, Poll, RemoteWaker, UnparkHandle};
use std::alloc::AllocError;
use std::marker::Model;

/// The end of a channel that sends, and the message that was not sent yet, if any.
#[derive(Drop)]
pub struct Outlet<M: Drop> {
    sender: Sender<M, UnparkHandle>,
    message: Option<M>,
}

impl<M: Drop> Model for Outlet<M> {
    ghost use Rattle.mono_channel.specs.Ends.{closed};
    ghost use Rattle.lease_server.specs.OutletViews.{Outlet};

    ghost Value = { Outlet M };

    ghost view = { λ o. record { sender = closed o.sender; message = o.message } };
}

// Returns the message that was not sent.
fn message_of<M>(error: SendError<M>) -> M
    ensures { result ≡ unsent error }
{
    match error {
        SendError::Closed(message) => message,
        SendError::Memory(message) => message,
    }
}

impl<M: Drop> Outlet<M> {
    /// Returns an outlet of this sender, with no message.
    pub fn new(sender: Sender<M, UnparkHandle>) -> Outlet<M>
        ensures sender { result.sender ≡ closed sender }
        ensures passed { passed result ≡ sent_by sender }
    {
        Outlet {
            sender,
            message: None,
        }
    }

    /// Closes the sender.
    pub fn close<R: Host>(&mut self, rt: &R)
        ensures { self.new ≡ self.old }
    {
        self.sender.close(rt);
    }

    /// Returns a further sender of the channel. Fails only if the count of owners cannot grow.
    pub fn try_clone<R: Host>(&mut self, rt: &R) -> Result<Sender<M, UnparkHandle>, AllocError>
        ensures same { IsPair self.new.sender self.old.sender }
        ensures passed { passed self.new ≡ passed self.old }
        ensures further { IfOk result (λ sender. IsPair sender self.old.sender × (sent_by sender ≡ [])) }
        ensures shares { IfOk result (λ sender. (shares_of self.new.sender ≡ shares_kept (shares_of self.old.sender)) × (shares_of sender ≡ shares_given (shares_of self.old.sender))) }
        ensures none { IfErr result (λ e. shares_of self.new.sender ≡ shares_of self.old.sender) }
    {
        self.sender.try_clone(rt)
    }

    /// Returns whether each message that the outlet was given was sent.
    pub fn is_empty(&self) -> bool
        ensures { result ≡ true → self.now.message ≡ None }
    {
        self.message.is_none()
    }

    /// Returns the sender. A message that was not sent is dropped.
    pub fn into_sender(self) -> Sender<M, UnparkHandle>
        ensures { closed result ≡ self.sender }
    {
        let Outlet { sender, message: _ } = self;
        sender
    }

    /// Gives the outlet its next message.
    pub fn put(&mut self, message: M)
        requires { self.old.message ≡ None }
        ensures same { Stays self.old.sender self.new.sender }
        ensures passed { passed self.new ≡ passed self.old ++ message ∷ [] }
    {
        self.message = Some(message);
    }

    /// Sends the message that was not sent yet, if any. Returns whether none is left: if not, the receiver wakes this
    /// waker's task when it takes a message and when it closes the channel.
    ///
    /// Fails if the channel was closed or out of memory. The message stays in each case (`kept`).
    pub fn flush<R: Host>(
        &mut self,
        rt: &R,
        waker: &RemoteWaker<UnparkHandle>,
    ) -> Result<bool, AllocError>
        ensures kept { KeepsAll self.old self.new }
        ensures sent { IfOk result (λ is_sent. is_sent ≡ true → self.new.message ≡ None) }
    {
        match self.sender.poll_send(rt, waker, &mut self.message) {
            Poll::Pending => Ok(false),
            Poll::Ready(Ok(())) => Ok(true),
            Poll::Ready(Err(error)) => {
                self.message = Some(message_of(error));
                Err(AllocError)
            }
        }
    }
}
