// The calls of a task on a channel for one message: it sends and receives.
ghost use Rattle.std.specs.Prelude.{◌≡◌, true, false, ℕ};
ghost use Rattle.std.specs.declared.option.Option.TheVariants.{None};
ghost use Rattle.mono_model.specs.Poll.{OnReady};
ghost use Rattle.mono_sync.specs.Oneshot.{Sends, Receives, Closes, GivesUp};
ghost use Rattle.mono_sync.specs.Deliveries.{RecvPolls, RecvGives, RecvCancels};
ghost use Rattle.mono_sync.specs.Spent.{oneshot_spent};
ghost use Rattle.mono_task.specs.Owed.{Keeps};

use crate::lines::{Ticket, ticket_of};
use crate::oneshot::{Oneshot, Receiving};
use crate::parts::Holds;
use mono_model::{Host, Poll};
use mono_task::{SharedContext, TaskFuture};
use std::alloc::Global;
use std::marker::PhantomData;

/// A future that receives the one message of the tasks' channel, and waits until it was sent.
#[derive(Drop)]
pub struct Recv<W, T> {
    // The number of the ticket that the future drew.
    pub(crate) ticket: Option<u64>,
    pub(crate) has_answered: bool,
    shared: PhantomData<W>,
    message: PhantomData<T>,
}

/// The reason why no message was received.
#[derive(Debug, Drop)]
pub enum RecvError {
    /// The channel was closed before one was sent, or the message was received.
    Closed,
    /// Another future waits for the message.
    Taken,
    /// The allocation of a place in the line failed.
    Memory,
}

impl<W, T> Recv<W, T> {
    /// Returns a future that receives the message.
    pub fn new() -> Recv<W, T>
        ensures ticket { result.ticket ≡ None }
        ensures unspent { result.has_answered ≡ false }
    {
        Recv {
            ticket: None,
            has_answered: false,
            shared: PhantomData,
            message: PhantomData,
        }
    }
}

// Asks the channel for a future of this task.
fn ask_part<W: Holds<Oneshot<T>>, T: Drop>(
    whole: &mut W,
    ticket: Option<Ticket>,
    me: u64,
) -> Receiving<T>
    ensures answer { Receives (W.part whole.old) ticket me result (W.part whole.new) }
    ensures leads { W.leads whole.old whole.new }
    ensures keeps { Keeps W.lists me whole.old whole.new }
{
    whole.part_mut().recv(ticket, me)
}

// Takes a future out of the line.
fn leave_part<W: Holds<Oneshot<T>>, T: Drop>(whole: &mut W, ticket: Option<Ticket>, me: u64)
    ensures answer { GivesUp (W.part whole.old) ticket me (W.part whole.new) }
    ensures leads { W.leads whole.old whole.new }
    ensures keeps { Keeps W.lists me whole.old whole.new }
{
    whole.part_mut().give_up(ticket, me)
}

// Sends the message.
pub(crate) fn send_part<W: Holds<Oneshot<T>>, T: Drop>(whole: &mut W, message: T) -> Result<(), T>
    ensures answer { Sends (W.part whole.old) message result (W.part whole.new) }
    ensures leads { W.leads whole.old whole.new }
    ensures keeps { (me : ℕ) → Keeps W.lists me whole.old whole.new }
{
    whole.part_mut().send(message)
}

// Closes the channel.
pub(crate) fn close_part<W: Holds<Oneshot<T>>, T: Drop>(whole: &mut W)
    ensures answer { Closes (W.part whole.old) (W.part whole.new) }
    ensures leads { W.leads whole.old whole.new }
    ensures keeps { (me : ℕ) → Keeps W.lists me whole.old whole.new }
{
    whole.part_mut().close()
}

// Asks the channel for the running task's future.
fn ask<W: Holds<Oneshot<T>>, T: Drop, C: SharedContext<W>>(
    cx: &mut C,
    ticket: Option<u64>,
) -> Receiving<T>
    ensures answer { Receives (W.part (C.shared cx.old)) ticket (C.number cx.old) result (W.part (C.shared cx.new)) }
    ensures work { C.work cx.new ≡ C.work cx.old }
    ensures reached { C.reaches cx.old cx.new }
{
    let me = cx.me();
    ask_part::<W, T>(cx.shared_mut(), ticket_of(ticket), me)
}

// Takes the running task's future out of the line.
fn leave<W: Holds<Oneshot<T>>, T: Drop, C: SharedContext<W>>(cx: &mut C, ticket: Option<u64>)
    ensures answer { GivesUp (W.part (C.shared cx.old)) ticket (C.number cx.old) (W.part (C.shared cx.new)) }
    ensures work { C.work cx.new ≡ C.work cx.old }
    ensures reached { C.reaches cx.old cx.new }
{
    let me = cx.me();
    leave_part::<W, T>(cx.shared_mut(), ticket_of(ticket), me)
}

/// Sends the message. The runtime wakes the task that waits for it after the turn. The message comes back if one was sent
/// before or the channel was closed.
pub fn send<W: Holds<Oneshot<T>>, T: Drop, C: SharedContext<W>>(
    cx: &mut C,
    message: T,
) -> Result<(), T>
    ensures answer { Sends (W.part (C.shared cx.old)) message result (W.part (C.shared cx.new)) }
    ensures work { C.work cx.new ≡ C.work cx.old }
    ensures reached { C.reaches cx.old cx.new }
{
    send_part::<W, T>(cx.shared_mut(), message)
}

/// Closes the channel. The runtime wakes the task that waits after the turn. A message that was sent can still be received.
pub fn close<W: Holds<Oneshot<T>>, T: Drop, C: SharedContext<W>>(cx: &mut C)
    ensures answer { Closes (W.part (C.shared cx.old)) (W.part (C.shared cx.new)) }
    ensures work { C.work cx.new ≡ C.work cx.old }
    ensures reached { C.reaches cx.old cx.new }
{
    close_part::<W, T>(cx.shared_mut())
}

/// The future answers the message. It fails if the channel was closed before one was sent, if another future waits for
/// it, or if out of memory.
impl<W: Holds<Oneshot<T>>, T: Drop, C: SharedContext<W>> TaskFuture<C> for Recv<W, T> {
    type Output = Result<T, RecvError>;

    ghost is_spent = { oneshot_spent };

    ghost polls = { λ f c r g d. RecvPolls (λ x. W.part (C.shared x)) C.number C.work f.ticket c r g.ticket d × OnReady r ((g.ticket ≡ None) × (g.has_answered ≡ true)) };

    ghost gives = { λ f. RecvGives (λ x. W.part (C.shared x)) C.number C.work };

    ghost cancels = { λ f c d. RecvCancels (λ x. W.part (C.shared x)) C.number C.work f.ticket c d };

    fn spent(&self) -> bool {
        self.has_answered
    }

    fn poll<R: Host>(&mut self, _rt: &R, _alloc: Global, cx: &mut C) -> Poll<Result<T, RecvError>> {
        match ask::<W, T, C>(cx, self.ticket) {
            Receiving::Waits => Poll::Pending,
            Receiving::Joined(ticket) => {
                self.ticket = Some(ticket.number());
                Poll::Pending
            }
            Receiving::Received(message) => {
                self.ticket = None;
                self.has_answered = true;
                Poll::Ready(Ok(message))
            }
            Receiving::Closed => {
                self.ticket = None;
                self.has_answered = true;
                Poll::Ready(Err(RecvError::Closed))
            }
            Receiving::Taken => {
                self.ticket = None;
                self.has_answered = true;
                Poll::Ready(Err(RecvError::Taken))
            }
            Receiving::Memory => {
                self.ticket = None;
                self.has_answered = true;
                Poll::Ready(Err(RecvError::Memory))
            }
        }
    }

    fn cancel(self, cx: &mut C) {
        leave::<W, T, C>(cx, self.ticket)
    }
}
