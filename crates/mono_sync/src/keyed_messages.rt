// The calls of a task on one of many channels, each under a key of its own.
ghost use Rattle.std.specs.Prelude.{◌≡◌, true, false, ℕ};
ghost use Rattle.std.specs.declared.option.Option.TheVariants.{None, Some};
ghost use Rattle.mono_model.specs.Poll.{OnReady};
ghost use Rattle.mono_sync.specs.Mpsc.{listed_by, owed_by, waiting_in};
ghost use Rattle.mono_sync.specs.MpscRuns.{Leads};
ghost use Rattle.mono_sync.specs.Many.{LeadsEach, lists_each};
ghost use Rattle.mono_sync.specs.KeyedMessages.{SendsAt, ReceivesAt, GivesUpSendAt, GivesUpReceiveAt, TriesToSendAt, TriesToReceiveAt, ClosesAt, SendAtPolls, SendAtGives, SendAtCancels, RecvAtPolls, RecvAtGives, RecvAtCancels};
ghost use Rattle.mono_sync.specs.Spent.{send_at_spent, recv_at_spent};
ghost use Rattle.mono_task.specs.Owed.{Keeps};

use crate::lines::{Ticket, ticket_of};
use crate::messages::SendError;
use crate::mpsc::{Channel, Receiving, Sending, TryRecvError, TrySendError};
use crate::parts::Holds;
use crate::tables::Many;
use mono_model::{Host, Poll};
use mono_task::{SharedContext, TaskFuture};
use std::alloc::{AllocError, Global};
use std::marker::PhantomData;
use std::mem;

/// A future that sends a message over the channel with one key, and waits while each place is taken.
#[derive(Drop)]
pub struct SendAt<W, T> {
    pub(crate) key: u64,
    // The message, until it is sent.
    pub(crate) message: Option<T>,
    // The number of the ticket that the future drew.
    pub(crate) ticket: Option<u64>,
    shared: PhantomData<W>,
}

/// A future that receives a message over the channel with one key, and waits while there is none.
#[derive(Drop)]
pub struct RecvAt<W, T> {
    pub(crate) key: u64,
    // The number of the ticket that the future drew.
    pub(crate) ticket: Option<u64>,
    pub(crate) has_answered: bool,
    shared: PhantomData<W>,
    message: PhantomData<T>,
}

impl<W, T> SendAt<W, T> {
    /// Returns a future that sends this message over the channel with this key.
    pub fn new(key: u64, message: T) -> SendAt<W, T>
        ensures key { result.key ≡ key }
        ensures message { result.message ≡ Some message }
        ensures ticket { result.ticket ≡ None }
    {
        SendAt {
            key,
            message: Some(message),
            ticket: None,
            shared: PhantomData,
        }
    }
}

impl<W, T> RecvAt<W, T> {
    /// Returns a future that receives the next message of the channel with this key.
    pub fn new(key: u64) -> RecvAt<W, T>
        ensures key { result.key ≡ key }
        ensures ticket { result.ticket ≡ None }
        ensures unspent { result.has_answered ≡ false }
    {
        RecvAt {
            key,
            ticket: None,
            has_answered: false,
            shared: PhantomData,
            message: PhantomData,
        }
    }
}

// Asks the channel with this key for a future of this task that sends.
fn send_table<T: Drop>(
    channels: &mut Many<Channel<T>>,
    key: u64,
    ticket: Option<Ticket>,
    message: T,
    me: u64,
) -> Sending<T>
    ensures answer { SendsAt key channels.old ticket message me result channels.new }
    ensures leads { LeadsEach Leads waiting_in owed_by channels.old channels.new }
    ensures keeps { Keeps (lists_each listed_by) me channels.old channels.new }
{
    if channels.get(key).is_none() {
        return Sending::Closed(message);
    }
    channels.part_mut(key).send(ticket, message, me)
}

// Asks the channel with this key for a future that sends, in the whole.
fn send_part<W: Holds<Many<Channel<T>>>, T: Drop>(
    whole: &mut W,
    key: u64,
    ticket: Option<Ticket>,
    message: T,
    me: u64,
) -> Sending<T>
    ensures answer { SendsAt key (W.part whole.old) ticket message me result (W.part whole.new) }
    ensures leads { W.leads whole.old whole.new }
    ensures keeps { Keeps W.lists me whole.old whole.new }
{
    send_table::<T>(whole.part_mut(), key, ticket, message, me)
}

// Asks the channel with this key for the running task's future that sends.
fn ask_send<W: Holds<Many<Channel<T>>>, T: Drop, C: SharedContext<W>>(
    cx: &mut C,
    key: u64,
    ticket: Option<u64>,
    message: T,
) -> Sending<T>
    ensures answer { SendsAt key (W.part (C.shared cx.old)) ticket message (C.number cx.old) result (W.part (C.shared cx.new)) }
    ensures work { C.work cx.new ≡ C.work cx.old }
    ensures reached { C.reaches cx.old cx.new }
{
    let me = cx.me();
    send_part::<W, T>(cx.shared_mut(), key, ticket_of(ticket), message, me)
}

// Asks the channel with this key for a future of this task that receives.
fn recv_table<T: Drop>(
    channels: &mut Many<Channel<T>>,
    key: u64,
    ticket: Option<Ticket>,
    me: u64,
) -> Receiving<T>
    ensures answer { ReceivesAt key channels.old ticket me result channels.new }
    ensures leads { LeadsEach Leads waiting_in owed_by channels.old channels.new }
    ensures keeps { Keeps (lists_each listed_by) me channels.old channels.new }
{
    if channels.get(key).is_none() {
        return Receiving::Closed;
    }
    channels.part_mut(key).recv(ticket, me)
}

// Asks the channel with this key for a future that receives, in the whole.
fn recv_part<W: Holds<Many<Channel<T>>>, T: Drop>(
    whole: &mut W,
    key: u64,
    ticket: Option<Ticket>,
    me: u64,
) -> Receiving<T>
    ensures answer { ReceivesAt key (W.part whole.old) ticket me result (W.part whole.new) }
    ensures leads { W.leads whole.old whole.new }
    ensures keeps { Keeps W.lists me whole.old whole.new }
{
    recv_table::<T>(whole.part_mut(), key, ticket, me)
}

// Asks the channel with this key for the running task's future that receives.
fn ask_recv<W: Holds<Many<Channel<T>>>, T: Drop, C: SharedContext<W>>(
    cx: &mut C,
    key: u64,
    ticket: Option<u64>,
) -> Receiving<T>
    ensures answer { ReceivesAt key (W.part (C.shared cx.old)) ticket (C.number cx.old) result (W.part (C.shared cx.new)) }
    ensures work { C.work cx.new ≡ C.work cx.old }
    ensures reached { C.reaches cx.old cx.new }
{
    let me = cx.me();
    recv_part::<W, T>(cx.shared_mut(), key, ticket_of(ticket), me)
}

// Takes a future out of the line of senders of the channel with this key.
fn leave_send_table<T: Drop>(
    channels: &mut Many<Channel<T>>,
    key: u64,
    ticket: Option<Ticket>,
    me: u64,
)
    ensures answer { GivesUpSendAt key channels.old ticket me channels.new }
    ensures leads { LeadsEach Leads waiting_in owed_by channels.old channels.new }
    ensures keeps { Keeps (lists_each listed_by) me channels.old channels.new }
{
    if channels.get(key).is_none() {
        return;
    }
    channels.part_mut(key).give_up_send(ticket, me);
}

// Takes a future out of the line of senders of the channel with this key, in the whole.
fn leave_send_part<W: Holds<Many<Channel<T>>>, T: Drop>(
    whole: &mut W,
    key: u64,
    ticket: Option<Ticket>,
    me: u64,
)
    ensures answer { GivesUpSendAt key (W.part whole.old) ticket me (W.part whole.new) }
    ensures leads { W.leads whole.old whole.new }
    ensures keeps { Keeps W.lists me whole.old whole.new }
{
    leave_send_table::<T>(whole.part_mut(), key, ticket, me);
}

// Takes the running task's future out of the line of senders of the channel with this key.
fn stop_send<W: Holds<Many<Channel<T>>>, T: Drop, C: SharedContext<W>>(
    cx: &mut C,
    key: u64,
    ticket: Option<u64>,
)
    ensures answer { GivesUpSendAt key (W.part (C.shared cx.old)) ticket (C.number cx.old) (W.part (C.shared cx.new)) }
    ensures work { C.work cx.new ≡ C.work cx.old }
    ensures reached { C.reaches cx.old cx.new }
{
    let me = cx.me();
    leave_send_part::<W, T>(cx.shared_mut(), key, ticket_of(ticket), me);
}

// Takes a future out of the line of receivers of the channel with this key.
fn leave_recv_table<T: Drop>(
    channels: &mut Many<Channel<T>>,
    key: u64,
    ticket: Option<Ticket>,
    me: u64,
)
    ensures answer { GivesUpReceiveAt key channels.old ticket me channels.new }
    ensures leads { LeadsEach Leads waiting_in owed_by channels.old channels.new }
    ensures keeps { Keeps (lists_each listed_by) me channels.old channels.new }
{
    if channels.get(key).is_none() {
        return;
    }
    channels.part_mut(key).give_up_recv(ticket, me);
}

// Takes a future out of the line of receivers of the channel with this key, in the whole.
fn leave_recv_part<W: Holds<Many<Channel<T>>>, T: Drop>(
    whole: &mut W,
    key: u64,
    ticket: Option<Ticket>,
    me: u64,
)
    ensures answer { GivesUpReceiveAt key (W.part whole.old) ticket me (W.part whole.new) }
    ensures leads { W.leads whole.old whole.new }
    ensures keeps { Keeps W.lists me whole.old whole.new }
{
    leave_recv_table::<T>(whole.part_mut(), key, ticket, me);
}

// Takes the running task's future out of the line of receivers of the channel with this key.
fn stop_recv<W: Holds<Many<Channel<T>>>, T: Drop, C: SharedContext<W>>(
    cx: &mut C,
    key: u64,
    ticket: Option<u64>,
)
    ensures answer { GivesUpReceiveAt key (W.part (C.shared cx.old)) ticket (C.number cx.old) (W.part (C.shared cx.new)) }
    ensures work { C.work cx.new ≡ C.work cx.old }
    ensures reached { C.reaches cx.old cx.new }
{
    let me = cx.me();
    leave_recv_part::<W, T>(cx.shared_mut(), key, ticket_of(ticket), me);
}

// Sends a message to the channel with this key at once.
fn try_send_table<T: Drop>(
    channels: &mut Many<Channel<T>>,
    key: u64,
    message: T,
) -> Result<(), TrySendError<T>>
    ensures answer { TriesToSendAt key channels.old message result channels.new }
    ensures leads { LeadsEach Leads waiting_in owed_by channels.old channels.new }
    ensures keeps { (me : ℕ) → Keeps (lists_each listed_by) me channels.old channels.new }
{
    if channels.get(key).is_none() {
        return Err(TrySendError::Closed(message));
    }
    channels.part_mut(key).try_send(message)
}

// Sends a message to the channel with this key at once, in the whole.
pub(crate) fn try_send_part<W: Holds<Many<Channel<T>>>, T: Drop>(
    whole: &mut W,
    key: u64,
    message: T,
) -> Result<(), TrySendError<T>>
    ensures answer { TriesToSendAt key (W.part whole.old) message result (W.part whole.new) }
    ensures leads { W.leads whole.old whole.new }
    ensures keeps { (me : ℕ) → Keeps W.lists me whole.old whole.new }
{
    try_send_table::<T>(whole.part_mut(), key, message)
}

/// Sends a message to the channel with this key at once, as `try_send` does. Refused with `Closed` if no channel has the key.
pub fn try_send_at<W: Holds<Many<Channel<T>>>, T: Drop, C: SharedContext<W>>(
    cx: &mut C,
    key: u64,
    message: T,
) -> Result<(), TrySendError<T>>
    ensures answer { TriesToSendAt key (W.part (C.shared cx.old)) message result (W.part (C.shared cx.new)) }
    ensures work { C.work cx.new ≡ C.work cx.old }
    ensures reached { C.reaches cx.old cx.new }
{
    try_send_part::<W, T>(cx.shared_mut(), key, message)
}

// Receives a message of the channel with this key at once.
fn try_recv_table<T: Drop>(channels: &mut Many<Channel<T>>, key: u64) -> Result<T, TryRecvError>
    ensures answer { TriesToReceiveAt key channels.old result channels.new }
    ensures leads { LeadsEach Leads waiting_in owed_by channels.old channels.new }
    ensures keeps { (me : ℕ) → Keeps (lists_each listed_by) me channels.old channels.new }
{
    if channels.get(key).is_none() {
        return Err(TryRecvError::Disconnected);
    }
    channels.part_mut(key).try_recv()
}

// Receives a message of the channel with this key at once, in the whole.
pub(crate) fn try_recv_part<W: Holds<Many<Channel<T>>>, T: Drop>(
    whole: &mut W,
    key: u64,
) -> Result<T, TryRecvError>
    ensures answer { TriesToReceiveAt key (W.part whole.old) result (W.part whole.new) }
    ensures leads { W.leads whole.old whole.new }
    ensures keeps { (me : ℕ) → Keeps W.lists me whole.old whole.new }
{
    try_recv_table::<T>(whole.part_mut(), key)
}

/// Receives a message of the channel with this key at once, as `try_recv` does. Refused with `Disconnected` if no channel has the
/// key.
pub fn try_recv_at<W: Holds<Many<Channel<T>>>, T: Drop, C: SharedContext<W>>(
    cx: &mut C,
    key: u64,
) -> Result<T, TryRecvError>
    ensures answer { TriesToReceiveAt key (W.part (C.shared cx.old)) result (W.part (C.shared cx.new)) }
    ensures work { C.work cx.new ≡ C.work cx.old }
    ensures reached { C.reaches cx.old cx.new }
{
    try_recv_part::<W, T>(cx.shared_mut(), key)
}

// Closes the channel with this key.
fn close_table<T: Drop>(channels: &mut Many<Channel<T>>, key: u64)
    ensures answer { ClosesAt key channels.old channels.new }
    ensures leads { LeadsEach Leads waiting_in owed_by channels.old channels.new }
    ensures keeps { (me : ℕ) → Keeps (lists_each listed_by) me channels.old channels.new }
{
    if channels.get(key).is_none() {
        return;
    }
    channels.part_mut(key).close();
}

// Closes the channel with this key, in the whole.
pub(crate) fn close_part<W: Holds<Many<Channel<T>>>, T: Drop>(whole: &mut W, key: u64)
    ensures answer { ClosesAt key (W.part whole.old) (W.part whole.new) }
    ensures leads { W.leads whole.old whole.new }
    ensures keeps { (me : ℕ) → Keeps W.lists me whole.old whole.new }
{
    close_table::<T>(whole.part_mut(), key);
}

/// Closes the channel with this key, if there is one. The runtime wakes all tasks that wait in it after the turn.
pub fn close_at<W: Holds<Many<Channel<T>>>, T: Drop, C: SharedContext<W>>(cx: &mut C, key: u64)
    ensures answer { ClosesAt key (W.part (C.shared cx.old)) (W.part (C.shared cx.new)) }
    ensures work { C.work cx.new ≡ C.work cx.old }
    ensures reached { C.reaches cx.old cx.new }
{
    close_part::<W, T>(cx.shared_mut(), key);
}

/// The future answers once the message is queued. It fails if no channel has the key, if it was closed, or if out of memory; then the
/// message comes back.
impl<W: Holds<Many<Channel<T>>>, T: Drop, C: SharedContext<W>> TaskFuture<C> for SendAt<W, T> {
    type Output = Result<(), SendError<T>>;

    ghost is_spent = { send_at_spent };

    ghost polls = { λ f c r g d. SendAtPolls (λ x. W.part (C.shared x)) C.number C.work f.key f.message f.ticket c r g.message g.ticket d × (g.key ≡ f.key) × OnReady r ((g.message ≡ None) × (g.ticket ≡ None)) };

    ghost gives = { λ f. SendAtGives (λ x. W.part (C.shared x)) C.number C.work f.key f.message };

    ghost cancels = { λ f c d. SendAtCancels (λ x. W.part (C.shared x)) C.number C.work f.key f.ticket c d };

    fn spent(&self) -> bool {
        self.message.is_none()
    }

    fn poll<R: Host>(
        &mut self,
        _rt: &R,
        _alloc: Global,
        cx: &mut C,
    ) -> Poll<Result<(), SendError<T>>> {
        let Some(message) = mem::replace(&mut self.message, None) else {
            unreachable!()
        };
        match ask_send::<W, T, C>(cx, self.key, self.ticket, message) {
            Sending::Sent => {
                self.ticket = None;
                Poll::Ready(Ok(()))
            }
            Sending::Closed(message) => {
                self.ticket = None;
                Poll::Ready(Err(SendError::Closed(message)))
            }
            Sending::Memory(message) => {
                self.ticket = None;
                Poll::Ready(Err(SendError::Memory(message)))
            }
            Sending::Joined(ticket, message) => {
                self.ticket = Some(ticket.number());
                self.message = Some(message);
                Poll::Pending
            }
            Sending::Waits(message) => {
                self.message = Some(message);
                Poll::Pending
            }
        }
    }

    fn cancel(self, cx: &mut C) {
        stop_send::<W, T, C>(cx, self.key, self.ticket)
    }
}

/// The future answers the first message, or none if no channel has the key, or once it was closed and no message is left. It
/// fails if out of memory.
impl<W: Holds<Many<Channel<T>>>, T: Drop, C: SharedContext<W>> TaskFuture<C> for RecvAt<W, T> {
    type Output = Result<Option<T>, AllocError>;

    ghost is_spent = { recv_at_spent };

    ghost polls = { λ f c r g d. RecvAtPolls (λ x. W.part (C.shared x)) C.number C.work f.key f.ticket c r g.ticket d × (g.key ≡ f.key) × OnReady r ((g.ticket ≡ None) × (g.has_answered ≡ true)) };

    ghost gives = { λ f. RecvAtGives (λ x. W.part (C.shared x)) C.number C.work f.key };

    ghost cancels = { λ f c d. RecvAtCancels (λ x. W.part (C.shared x)) C.number C.work f.key f.ticket c d };

    fn spent(&self) -> bool {
        self.has_answered
    }

    fn poll<R: Host>(
        &mut self,
        _rt: &R,
        _alloc: Global,
        cx: &mut C,
    ) -> Poll<Result<Option<T>, AllocError>> {
        match ask_recv::<W, T, C>(cx, self.key, self.ticket) {
            Receiving::Waits => Poll::Pending,
            Receiving::Joined(ticket) => {
                self.ticket = Some(ticket.number());
                Poll::Pending
            }
            Receiving::Received(message) => {
                self.ticket = None;
                self.has_answered = true;
                Poll::Ready(Ok(Some(message)))
            }
            Receiving::Closed => {
                self.ticket = None;
                self.has_answered = true;
                Poll::Ready(Ok(None))
            }
            Receiving::Memory => {
                self.ticket = None;
                self.has_answered = true;
                Poll::Ready(Err(AllocError))
            }
        }
    }

    fn cancel(self, cx: &mut C) {
        stop_recv::<W, T, C>(cx, self.key, self.ticket)
    }
}
