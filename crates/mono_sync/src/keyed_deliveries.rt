// The calls of a task on one of many channels for one message, each under a key of its own.
ghost use Rattle.std.specs.Prelude.{◌≡◌, true, false, ℕ};
ghost use Rattle.std.specs.declared.option.Option.TheVariants.{None};
ghost use Rattle.mono_model.specs.Poll.{OnReady};
ghost use Rattle.mono_sync.specs.Oneshot.{listed_by, owed_by, waiting_in};
ghost use Rattle.mono_sync.specs.OneshotRuns.{Step};
ghost use Rattle.mono_sync.specs.Runs.{Leads};
ghost use Rattle.mono_sync.specs.Many.{LeadsEach, lists_each};
ghost use Rattle.mono_sync.specs.KeyedDeliveries.{ReceivesAt, TakesAt, GivesUpAt, DropsAt, SendsAt, ClosesAt, has_ended, RecvAtPolls, RecvAtGives, RecvAtCancels};
ghost use Rattle.mono_sync.specs.Spent.{oneshot_at_spent};
ghost use Rattle.mono_task.specs.Owed.{Keeps};

use crate::deliveries::RecvError;
use crate::lines::{Ticket, ticket_of};
use crate::making::remove_idle;
use crate::oneshot::{Oneshot, Receiving};
use crate::parts::Holds;
use crate::tables::Many;
use mono_model::{Host, Poll};
use mono_task::{SharedContext, TaskFuture};
use std::alloc::Global;
use std::marker::PhantomData;

/// A future that receives the message of the oneshot channel with one key, and waits until it was sent.
///
/// The channel is removed once the future has its message, once none will come, or if the future is given up. It stays if
/// another task waits in it.
#[derive(Drop)]
pub struct RecvAt<W, T> {
    pub(crate) key: u64,
    // The number of the ticket that the future drew.
    pub(crate) ticket: Option<u64>,
    pub(crate) has_answered: bool,
    shared: PhantomData<W>,
    message: PhantomData<T>,
}

impl<W, T> RecvAt<W, T> {
    /// Returns a future that receives the message of the channel with this key.
    pub fn new(key: u64) -> RecvAt<W, T>
        ensures key { result.key ≡ key }
        ensures ticket { result.ticket ≡ None }
        ensures unspent { result.has_answered ≡ false }
    {
        RecvAt {
            key,
            ticket: None,
            has_answered: false,
            shared: PhantomData,
            message: PhantomData,
        }
    }
}

// Asks the channel with this key for a future of this task.
fn ask_table<T: Drop>(
    channels: &mut Many<Oneshot<T>>,
    key: u64,
    ticket: Option<Ticket>,
    me: u64,
) -> Receiving<T>
    ensures answer { ReceivesAt key channels.old ticket me result channels.new }
    ensures leads { LeadsEach (Leads Step) waiting_in owed_by channels.old channels.new }
    ensures keeps { Keeps (lists_each listed_by) me channels.old channels.new }
{
    if channels.get(key).is_none() {
        return Receiving::Closed;
    }
    channels.part_mut(key).recv(ticket, me)
}

// Returns whether the answer is the message, or that none will come.
fn has_ended<T>(answer: &Receiving<T>) -> bool
    ensures { result ≡ has_ended answer.now }
{
    match answer {
        Receiving::Received(_) => true,
        Receiving::Closed => true,
        Receiving::Taken => false,
        Receiving::Memory => false,
        Receiving::Joined(_) => false,
        Receiving::Waits => false,
    }
}

// Asks the channel with this key for a future of this task. Removes the channel once it has answered.
fn take_table<T: Drop>(
    channels: &mut Many<Oneshot<T>>,
    key: u64,
    ticket: Option<Ticket>,
    me: u64,
) -> Receiving<T>
    ensures answer { TakesAt key channels.old ticket me result channels.new }
    ensures leads { LeadsEach (Leads Step) waiting_in owed_by channels.old channels.new }
    ensures keeps { Keeps (lists_each listed_by) me channels.old channels.new }
{
    let answer = ask_table::<T>(channels, key, ticket, me);
    if !has_ended(&answer) {
        return answer;
    }
    remove_idle(channels, key);
    answer
}

// Takes a future out of the line of the channel with this key.
fn leave_table<T: Drop>(channels: &mut Many<Oneshot<T>>, key: u64, ticket: Option<Ticket>, me: u64)
    ensures answer { GivesUpAt key channels.old ticket me channels.new }
    ensures leads { LeadsEach (Leads Step) waiting_in owed_by channels.old channels.new }
    ensures keeps { Keeps (lists_each listed_by) me channels.old channels.new }
{
    if channels.get(key).is_none() {
        return;
    }
    channels.part_mut(key).give_up(ticket, me);
}

// Takes a future out of the line of the channel with this key, and removes the channel.
fn drop_table<T: Drop>(channels: &mut Many<Oneshot<T>>, key: u64, ticket: Option<Ticket>, me: u64)
    ensures answer { DropsAt key channels.old ticket me channels.new }
    ensures leads { LeadsEach (Leads Step) waiting_in owed_by channels.old channels.new }
    ensures keeps { Keeps (lists_each listed_by) me channels.old channels.new }
{
    leave_table::<T>(channels, key, ticket, me);
    remove_idle(channels, key);
}

// Sends the message to the channel with this key.
fn send_table<T: Drop>(channels: &mut Many<Oneshot<T>>, key: u64, message: T) -> Result<(), T>
    ensures answer { SendsAt key channels.old message result channels.new }
    ensures leads { LeadsEach (Leads Step) waiting_in owed_by channels.old channels.new }
    ensures keeps { (me : ℕ) → Keeps (lists_each listed_by) me channels.old channels.new }
{
    if channels.get(key).is_none() {
        return Err(message);
    }
    channels.part_mut(key).send(message)
}

// Closes the channel with this key.
fn close_table<T: Drop>(channels: &mut Many<Oneshot<T>>, key: u64)
    ensures answer { ClosesAt key channels.old channels.new }
    ensures leads { LeadsEach (Leads Step) waiting_in owed_by channels.old channels.new }
    ensures keeps { (me : ℕ) → Keeps (lists_each listed_by) me channels.old channels.new }
{
    if channels.get(key).is_none() {
        return;
    }
    channels.part_mut(key).close();
}

// Takes the message of the channel with this key, in the whole.
fn take_part<W: Holds<Many<Oneshot<T>>>, T: Drop>(
    whole: &mut W,
    key: u64,
    ticket: Option<Ticket>,
    me: u64,
) -> Receiving<T>
    ensures answer { TakesAt key (W.part whole.old) ticket me result (W.part whole.new) }
    ensures leads { W.leads whole.old whole.new }
    ensures keeps { Keeps W.lists me whole.old whole.new }
{
    take_table::<T>(whole.part_mut(), key, ticket, me)
}

// Takes a future out of the line of the channel with this key, in the whole.
fn drop_part<W: Holds<Many<Oneshot<T>>>, T: Drop>(
    whole: &mut W,
    key: u64,
    ticket: Option<Ticket>,
    me: u64,
)
    ensures answer { DropsAt key (W.part whole.old) ticket me (W.part whole.new) }
    ensures leads { W.leads whole.old whole.new }
    ensures keeps { Keeps W.lists me whole.old whole.new }
{
    drop_table::<T>(whole.part_mut(), key, ticket, me)
}

// Sends the message to the channel with this key, in the whole.
pub(crate) fn send_part<W: Holds<Many<Oneshot<T>>>, T: Drop>(
    whole: &mut W,
    key: u64,
    message: T,
) -> Result<(), T>
    ensures answer { SendsAt key (W.part whole.old) message result (W.part whole.new) }
    ensures leads { W.leads whole.old whole.new }
    ensures keeps { (me : ℕ) → Keeps W.lists me whole.old whole.new }
{
    send_table::<T>(whole.part_mut(), key, message)
}

// Closes the channel with this key, in the whole.
pub(crate) fn close_part<W: Holds<Many<Oneshot<T>>>, T: Drop>(whole: &mut W, key: u64)
    ensures answer { ClosesAt key (W.part whole.old) (W.part whole.new) }
    ensures leads { W.leads whole.old whole.new }
    ensures keeps { (me : ℕ) → Keeps W.lists me whole.old whole.new }
{
    close_table::<T>(whole.part_mut(), key)
}

// Takes the message of the channel with this key for the running task's future.
fn take<W: Holds<Many<Oneshot<T>>>, T: Drop, C: SharedContext<W>>(
    cx: &mut C,
    key: u64,
    ticket: Option<u64>,
) -> Receiving<T>
    ensures answer { TakesAt key (W.part (C.shared cx.old)) ticket (C.number cx.old) result (W.part (C.shared cx.new)) }
    ensures work { C.work cx.new ≡ C.work cx.old }
    ensures reached { C.reaches cx.old cx.new }
{
    let me = cx.me();
    take_part::<W, T>(cx.shared_mut(), key, ticket_of(ticket), me)
}

// Takes the running task's future out of the line of the channel with this key.
fn leave<W: Holds<Many<Oneshot<T>>>, T: Drop, C: SharedContext<W>>(
    cx: &mut C,
    key: u64,
    ticket: Option<u64>,
)
    ensures answer { DropsAt key (W.part (C.shared cx.old)) ticket (C.number cx.old) (W.part (C.shared cx.new)) }
    ensures work { C.work cx.new ≡ C.work cx.old }
    ensures reached { C.reaches cx.old cx.new }
{
    let me = cx.me();
    drop_part::<W, T>(cx.shared_mut(), key, ticket_of(ticket), me)
}

/// Sends the message to the channel with this key. The runtime wakes the task that waits for it after the turn. The message
/// comes back if no channel has the key, if one was sent before, or if the channel was closed.
pub fn send_at<W: Holds<Many<Oneshot<T>>>, T: Drop, C: SharedContext<W>>(
    cx: &mut C,
    key: u64,
    message: T,
) -> Result<(), T>
    ensures answer { SendsAt key (W.part (C.shared cx.old)) message result (W.part (C.shared cx.new)) }
    ensures work { C.work cx.new ≡ C.work cx.old }
    ensures reached { C.reaches cx.old cx.new }
{
    send_part::<W, T>(cx.shared_mut(), key, message)
}

/// Closes the channel with this key, if there is one. The runtime wakes the task that waits after the turn. A message that
/// was sent can still be received.
pub fn close_at<W: Holds<Many<Oneshot<T>>>, T: Drop, C: SharedContext<W>>(cx: &mut C, key: u64)
    ensures answer { ClosesAt key (W.part (C.shared cx.old)) (W.part (C.shared cx.new)) }
    ensures work { C.work cx.new ≡ C.work cx.old }
    ensures reached { C.reaches cx.old cx.new }
{
    close_part::<W, T>(cx.shared_mut(), key)
}

/// The future answers the message. It fails if no channel has the key, if the channel was closed before a message was sent,
/// if another future waits for it, or if out of memory.
impl<W: Holds<Many<Oneshot<T>>>, T: Drop, C: SharedContext<W>> TaskFuture<C> for RecvAt<W, T> {
    type Output = Result<T, RecvError>;

    ghost is_spent = { oneshot_at_spent };

    ghost polls = { λ f c r g d. RecvAtPolls (λ x. W.part (C.shared x)) C.number C.work f.key f.ticket c r g.ticket d × (g.key ≡ f.key) × OnReady r ((g.ticket ≡ None) × (g.has_answered ≡ true)) };

    ghost gives = { λ f. RecvAtGives (λ x. W.part (C.shared x)) C.number C.work f.key };

    ghost cancels = { λ f c d. RecvAtCancels (λ x. W.part (C.shared x)) C.number C.work f.key f.ticket c d };

    fn spent(&self) -> bool {
        self.has_answered
    }

    fn poll<R: Host>(&mut self, _rt: &R, _alloc: Global, cx: &mut C) -> Poll<Result<T, RecvError>> {
        match take::<W, T, C>(cx, self.key, self.ticket) {
            Receiving::Waits => Poll::Pending,
            Receiving::Joined(ticket) => {
                self.ticket = Some(ticket.number());
                Poll::Pending
            }
            Receiving::Received(message) => {
                self.ticket = None;
                self.has_answered = true;
                Poll::Ready(Ok(message))
            }
            Receiving::Closed => {
                self.ticket = None;
                self.has_answered = true;
                Poll::Ready(Err(RecvError::Closed))
            }
            Receiving::Taken => {
                self.ticket = None;
                self.has_answered = true;
                Poll::Ready(Err(RecvError::Taken))
            }
            Receiving::Memory => {
                self.ticket = None;
                self.has_answered = true;
                Poll::Ready(Err(RecvError::Memory))
            }
        }
    }

    fn cancel(self, cx: &mut C) {
        leave::<W, T, C>(cx, self.key, self.ticket)
    }
}
