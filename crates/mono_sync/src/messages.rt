// The calls of a task on a channel: it sends and receives.
ghost use Rattle.std.specs.Prelude.{◌≡◌, true, false, ℕ};
ghost use Rattle.std.specs.declared.option.Option.TheVariants.{None, Some};
ghost use Rattle.mono_model.specs.Poll.{OnReady};
ghost use Rattle.mono_sync.specs.Mpsc.{TriesToSend, TriesToReceive, Sends, Receives, GivesUpSend, GivesUpReceive, Closes};
ghost use Rattle.mono_sync.specs.Messages.{SendPolls, SendGives, SendCancels, RecvPolls, RecvGives, RecvCancels};
ghost use Rattle.mono_sync.specs.Spent.{send_spent, recv_spent};
ghost use Rattle.mono_task.specs.Owed.{Keeps};

use crate::lines::{Ticket, ticket_of};
use crate::mpsc::{Channel, Receiving, Sending, TryRecvError, TrySendError};
use crate::parts::Holds;
use mono_model::{Host, Poll};
use mono_task::{SharedContext, TaskFuture};
use std::alloc::{AllocError, Global};
use std::marker::PhantomData;
use std::mem;

/// A future that sends a message over the tasks' channel, and waits while each place is taken.
#[derive(Drop)]
pub struct Send<W, T> {
    // The message, until it is sent.
    pub(crate) message: Option<T>,
    // The number of the ticket that the future drew.
    pub(crate) ticket: Option<u64>,
    shared: PhantomData<W>,
}

/// A future that receives a message over the tasks' channel, and waits while there is none.
#[derive(Drop)]
pub struct Recv<W, T> {
    // The number of the ticket that the future drew.
    pub(crate) ticket: Option<u64>,
    pub(crate) has_answered: bool,
    shared: PhantomData<W>,
    message: PhantomData<T>,
}

/// A message that was not sent, and comes back.
#[derive(Debug, Drop)]
pub enum SendError<T> {
    /// The channel was closed.
    Closed(T),
    /// The allocation failed.
    Memory(T),
}

impl<W, T> Send<W, T> {
    /// Returns a future that sends this message.
    pub fn new(message: T) -> Send<W, T>
        ensures message { result.message ≡ Some message }
        ensures ticket { result.ticket ≡ None }
    {
        Send {
            message: Some(message),
            ticket: None,
            shared: PhantomData,
        }
    }
}

impl<W, T> Recv<W, T> {
    /// Returns a future that receives the next message.
    pub fn new() -> Recv<W, T>
        ensures ticket { result.ticket ≡ None }
        ensures unspent { result.has_answered ≡ false }
    {
        Recv {
            ticket: None,
            has_answered: false,
            shared: PhantomData,
            message: PhantomData,
        }
    }
}

// Queues a message at once.
pub(crate) fn try_send_part<W: Holds<Channel<T>>, T: Drop>(
    whole: &mut W,
    message: T,
) -> Result<(), TrySendError<T>>
    ensures answer { TriesToSend (W.part whole.old) message result (W.part whole.new) }
    ensures leads { W.leads whole.old whole.new }
    ensures keeps { (me : ℕ) → Keeps W.lists me whole.old whole.new }
{
    whole.part_mut().try_send(message)
}

// Takes a message at once.
pub(crate) fn try_recv_part<W: Holds<Channel<T>>, T: Drop>(whole: &mut W) -> Result<T, TryRecvError>
    ensures answer { TriesToReceive (W.part whole.old) result (W.part whole.new) }
    ensures leads { W.leads whole.old whole.new }
    ensures keeps { (me : ℕ) → Keeps W.lists me whole.old whole.new }
{
    whole.part_mut().try_recv()
}

// Asks the channel for a future of this task that sends.
fn send_part<W: Holds<Channel<T>>, T: Drop>(
    whole: &mut W,
    ticket: Option<Ticket>,
    message: T,
    me: u64,
) -> Sending<T>
    ensures answer { Sends (W.part whole.old) ticket message me result (W.part whole.new) }
    ensures leads { W.leads whole.old whole.new }
    ensures keeps { Keeps W.lists me whole.old whole.new }
{
    whole.part_mut().send(ticket, message, me)
}

// Asks the channel for a future of this task that receives.
fn recv_part<W: Holds<Channel<T>>, T: Drop>(
    whole: &mut W,
    ticket: Option<Ticket>,
    me: u64,
) -> Receiving<T>
    ensures answer { Receives (W.part whole.old) ticket me result (W.part whole.new) }
    ensures leads { W.leads whole.old whole.new }
    ensures keeps { Keeps W.lists me whole.old whole.new }
{
    whole.part_mut().recv(ticket, me)
}

// Takes a future out of the line of senders.
fn leave_send_part<W: Holds<Channel<T>>, T: Drop>(whole: &mut W, ticket: Option<Ticket>, me: u64)
    ensures answer { GivesUpSend (W.part whole.old) ticket me (W.part whole.new) }
    ensures leads { W.leads whole.old whole.new }
    ensures keeps { Keeps W.lists me whole.old whole.new }
{
    whole.part_mut().give_up_send(ticket, me)
}

// Takes a future out of the line of receivers.
fn leave_recv_part<W: Holds<Channel<T>>, T: Drop>(whole: &mut W, ticket: Option<Ticket>, me: u64)
    ensures answer { GivesUpReceive (W.part whole.old) ticket me (W.part whole.new) }
    ensures leads { W.leads whole.old whole.new }
    ensures keeps { Keeps W.lists me whole.old whole.new }
{
    whole.part_mut().give_up_recv(ticket, me)
}

// Closes the channel.
pub(crate) fn close_part<W: Holds<Channel<T>>, T: Drop>(whole: &mut W)
    ensures answer { Closes (W.part whole.old) (W.part whole.new) }
    ensures leads { W.leads whole.old whole.new }
    ensures keeps { (me : ℕ) → Keeps W.lists me whole.old whole.new }
{
    whole.part_mut().close()
}

// Asks the channel for the running task's future that sends.
fn ask_send<W: Holds<Channel<T>>, T: Drop, C: SharedContext<W>>(
    cx: &mut C,
    ticket: Option<u64>,
    message: T,
) -> Sending<T>
    ensures answer { Sends (W.part (C.shared cx.old)) ticket message (C.number cx.old) result (W.part (C.shared cx.new)) }
    ensures work { C.work cx.new ≡ C.work cx.old }
    ensures reached { C.reaches cx.old cx.new }
{
    let me = cx.me();
    send_part::<W, T>(cx.shared_mut(), ticket_of(ticket), message, me)
}

// Asks the channel for the running task's future that receives.
fn ask_recv<W: Holds<Channel<T>>, T: Drop, C: SharedContext<W>>(
    cx: &mut C,
    ticket: Option<u64>,
) -> Receiving<T>
    ensures answer { Receives (W.part (C.shared cx.old)) ticket (C.number cx.old) result (W.part (C.shared cx.new)) }
    ensures work { C.work cx.new ≡ C.work cx.old }
    ensures reached { C.reaches cx.old cx.new }
{
    let me = cx.me();
    recv_part::<W, T>(cx.shared_mut(), ticket_of(ticket), me)
}

// Takes the running task's future out of the line of senders.
fn leave_send<W: Holds<Channel<T>>, T: Drop, C: SharedContext<W>>(cx: &mut C, ticket: Option<u64>)
    ensures answer { GivesUpSend (W.part (C.shared cx.old)) ticket (C.number cx.old) (W.part (C.shared cx.new)) }
    ensures work { C.work cx.new ≡ C.work cx.old }
    ensures reached { C.reaches cx.old cx.new }
{
    let me = cx.me();
    leave_send_part::<W, T>(cx.shared_mut(), ticket_of(ticket), me)
}

// Takes the running task's future out of the line of receivers.
fn leave_recv<W: Holds<Channel<T>>, T: Drop, C: SharedContext<W>>(cx: &mut C, ticket: Option<u64>)
    ensures answer { GivesUpReceive (W.part (C.shared cx.old)) ticket (C.number cx.old) (W.part (C.shared cx.new)) }
    ensures work { C.work cx.new ≡ C.work cx.old }
    ensures reached { C.reaches cx.old cx.new }
{
    let me = cx.me();
    leave_recv_part::<W, T>(cx.shared_mut(), ticket_of(ticket), me)
}

/// Sends a message at once. If tasks wait to receive, it is owed to the first of them, which the runtime wakes after the
/// turn.
///
/// Refused with `Closed` if the channel was closed, with `Full` if no place is free, and with `Memory` if the
/// allocation failed. A refused message comes back.
pub fn try_send<W: Holds<Channel<T>>, T: Drop, C: SharedContext<W>>(
    cx: &mut C,
    message: T,
) -> Result<(), TrySendError<T>>
    ensures answer { TriesToSend (W.part (C.shared cx.old)) message result (W.part (C.shared cx.new)) }
    ensures work { C.work cx.new ≡ C.work cx.old }
    ensures reached { C.reaches cx.old cx.new }
{
    try_send_part::<W, T>(cx.shared_mut(), message)
}

/// Receives a message at once. If tasks wait to send, the place is owed to the first of them, which the runtime wakes after
/// the turn.
///
/// Refused with `Empty` if no message is queued that is neither promised nor owed, and with `Disconnected` if the channel
/// was closed and no message is left.
pub fn try_recv<W: Holds<Channel<T>>, T: Drop, C: SharedContext<W>>(
    cx: &mut C,
) -> Result<T, TryRecvError>
    ensures answer { TriesToReceive (W.part (C.shared cx.old)) result (W.part (C.shared cx.new)) }
    ensures work { C.work cx.new ≡ C.work cx.old }
    ensures reached { C.reaches cx.old cx.new }
{
    try_recv_part::<W, T>(cx.shared_mut())
}

/// Closes the channel. The runtime wakes all tasks that wait to send, then all that wait to receive, after the turn.
///
/// The queued messages can still be received.
pub fn close<W: Holds<Channel<T>>, T: Drop, C: SharedContext<W>>(cx: &mut C)
    ensures answer { Closes (W.part (C.shared cx.old)) (W.part (C.shared cx.new)) }
    ensures work { C.work cx.new ≡ C.work cx.old }
    ensures reached { C.reaches cx.old cx.new }
{
    close_part::<W, T>(cx.shared_mut())
}

/// The future answers once the message is queued. It fails if the channel was closed, or if out of memory; then the
/// message comes back.
impl<W: Holds<Channel<T>>, T: Drop, C: SharedContext<W>> TaskFuture<C> for Send<W, T> {
    type Output = Result<(), SendError<T>>;

    ghost is_spent = { send_spent };

    ghost polls = { λ f c r g d. SendPolls (λ x. W.part (C.shared x)) C.number C.work f.message f.ticket c r g.message g.ticket d × OnReady r ((g.message ≡ None) × (g.ticket ≡ None)) };

    ghost gives = { λ f. SendGives (λ x. W.part (C.shared x)) C.number C.work f.message };

    ghost cancels = { λ f c d. SendCancels (λ x. W.part (C.shared x)) C.number C.work f.ticket c d };

    fn spent(&self) -> bool {
        self.message.is_none()
    }

    fn poll<R: Host>(
        &mut self,
        _rt: &R,
        _alloc: Global,
        cx: &mut C,
    ) -> Poll<Result<(), SendError<T>>> {
        let Some(message) = mem::replace(&mut self.message, None) else {
            unreachable!()
        };
        match ask_send::<W, T, C>(cx, self.ticket, message) {
            Sending::Sent => {
                self.ticket = None;
                Poll::Ready(Ok(()))
            }
            Sending::Closed(message) => {
                self.ticket = None;
                Poll::Ready(Err(SendError::Closed(message)))
            }
            Sending::Memory(message) => {
                self.ticket = None;
                Poll::Ready(Err(SendError::Memory(message)))
            }
            Sending::Joined(ticket, message) => {
                self.ticket = Some(ticket.number());
                self.message = Some(message);
                Poll::Pending
            }
            Sending::Waits(message) => {
                self.message = Some(message);
                Poll::Pending
            }
        }
    }

    fn cancel(self, cx: &mut C) {
        leave_send::<W, T, C>(cx, self.ticket)
    }
}

/// The future answers the first message, or none once the channel was closed and no message is left. It fails if out of
/// memory.
impl<W: Holds<Channel<T>>, T: Drop, C: SharedContext<W>> TaskFuture<C> for Recv<W, T> {
    type Output = Result<Option<T>, AllocError>;

    ghost is_spent = { recv_spent };

    ghost polls = { λ f c r g d. RecvPolls (λ x. W.part (C.shared x)) C.number C.work f.ticket c r g.ticket d × OnReady r ((g.ticket ≡ None) × (g.has_answered ≡ true)) };

    ghost gives = { λ f. RecvGives (λ x. W.part (C.shared x)) C.number C.work };

    ghost cancels = { λ f c d. RecvCancels (λ x. W.part (C.shared x)) C.number C.work f.ticket c d };

    fn spent(&self) -> bool {
        self.has_answered
    }

    fn poll<R: Host>(
        &mut self,
        _rt: &R,
        _alloc: Global,
        cx: &mut C,
    ) -> Poll<Result<Option<T>, AllocError>> {
        match ask_recv::<W, T, C>(cx, self.ticket) {
            Receiving::Waits => Poll::Pending,
            Receiving::Joined(ticket) => {
                self.ticket = Some(ticket.number());
                Poll::Pending
            }
            Receiving::Received(message) => {
                self.ticket = None;
                self.has_answered = true;
                Poll::Ready(Ok(Some(message)))
            }
            Receiving::Closed => {
                self.ticket = None;
                self.has_answered = true;
                Poll::Ready(Ok(None))
            }
            Receiving::Memory => {
                self.ticket = None;
                self.has_answered = true;
                Poll::Ready(Err(AllocError))
            }
        }
    }

    fn cancel(self, cx: &mut C) {
        leave_recv::<W, T, C>(cx, self.ticket)
    }
}
