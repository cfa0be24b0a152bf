// The calls of a task on a broadcast.
ghost use Rattle.std.specs.Prelude.{◌≡◌, false, ℕ};
ghost use Rattle.mono_locks.specs.Broadcasts.{Sends, Receives, Closes, GivesUp};
ghost use Rattle.mono_task.specs.Owed.{Keeps};

use crate::asks::{Ask, Asking, ask_for};
use crate::broadcast::{Broadcast, Received, Receiver, SendError};
use crate::queues::{Asked, Ticket};
use mono_sync::Holds;
use mono_task::SharedContext;
use std::marker::PhantomData;

/// A call of [`recv`].
#[derive(Drop)]
pub struct RecvCall<T> {
    pub(crate) receiver: Receiver,
    message: PhantomData<T>,
}

/// A future that receives the next message of the tasks' broadcast, and waits until it was sent.
pub type RecvFuture<W, T> = Asking<W, RecvCall<T>>;

/// Returns a future that receives the next message of the tasks' broadcast. It answers the message, or why there is none,
/// and the receiver for what comes next. It fails if out of memory.
///
/// If the future is given up, a copy of this receiver goes on where it was.
pub fn recv<W, T>(receiver: Receiver) -> RecvFuture<W, T>
    ensures unspent { result.has_answered ≡ false }
    ensures receiver { result.call.receiver ≡ receiver }
{
    ask_for(RecvCall {
        receiver,
        message: PhantomData,
    })
}

impl<W: Holds<Broadcast<T>>, T: Copy + Drop> Ask<W> for RecvCall<T> {
    type Gets = Received<T>;

    ghost asks = { λ k ticket me w r v. Receives (W.part w) k.receiver.next ticket me r (W.part v) };

    ghost leaves = { λ k ticket me w v. GivesUp (W.part w) ticket me (W.part v) };

    fn ask(&self, shared: &mut W, ticket: Option<Ticket>, me: u64) -> Asked<Received<T>> {
        shared.part_mut().recv(self.receiver, ticket, me)
    }

    fn leave(&self, shared: &mut W, ticket: Option<Ticket>, me: u64) {
        shared.part_mut().give_up(ticket, me)
    }
}

// Sends a message.
pub(crate) fn send_part<W: Holds<Broadcast<T>>, T: Copy + Drop>(
    whole: &mut W,
    message: T,
) -> Result<(), SendError<T>>
    ensures answer { Sends (W.part whole.old) message result (W.part whole.new) }
    ensures leads { W.leads whole.old whole.new }
    ensures keeps { (me : ℕ) → Keeps W.lists me whole.old whole.new }
{
    whole.part_mut().send(message)
}

// Closes the channel.
pub(crate) fn close_part<W: Holds<Broadcast<T>>, T: Copy + Drop>(whole: &mut W)
    ensures answer { Closes (W.part whole.old) (W.part whole.new) }
    ensures leads { W.leads whole.old whole.new }
    ensures keeps { (me : ℕ) → Keeps W.lists me whole.old whole.new }
{
    whole.part_mut().close()
}

/// Sends a message to all receivers of the tasks' broadcast. The runtime wakes all tasks that wait for it after the turn.
///
/// Refused with `Closed` if the channel was closed, and with `Memory` if out of memory, or if no number is left.
pub fn send<W: Holds<Broadcast<T>>, T: Copy + Drop, C: SharedContext<W>>(
    cx: &mut C,
    message: T,
) -> Result<(), SendError<T>>
    ensures answer { Sends (W.part (C.shared cx.old)) message result (W.part (C.shared cx.new)) }
    ensures work { C.work cx.new ≡ C.work cx.old }
    ensures reached { C.reaches cx.old cx.new }
{
    send_part::<W, T>(cx.shared_mut(), message)
}

/// Closes the tasks' broadcast. The runtime wakes all tasks that wait for it after the turn. The messages that are kept can
/// still be received.
pub fn close<W: Holds<Broadcast<T>>, T: Copy + Drop, C: SharedContext<W>>(cx: &mut C)
    ensures answer { Closes (W.part (C.shared cx.old)) (W.part (C.shared cx.new)) }
    ensures work { C.work cx.new ≡ C.work cx.old }
    ensures reached { C.reaches cx.old cx.new }
{
    close_part::<W, T>(cx.shared_mut())
}
