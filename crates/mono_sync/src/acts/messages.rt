// What a future does with a channel in one turn.
ghost use Rattle.std.specs.Prelude.{◌≡◌, ℕ, Some, is_some, true};
ghost use Rattle.mono_sync.specs.Mpsc.{TriesToSend, TriesToReceive, Closes};
ghost use Rattle.mono_task.specs.Owed.{Keeps};

use crate::acts::performs::{Act, AtOnce, perform};
use crate::messages::{close_part, try_recv_part, try_send_part};
use crate::mpsc::{Channel, TryRecvError, TrySendError};
use crate::parts::Holds;
use std::alloc::Global;
use std::marker::PhantomData;

/// A call of [`try_send`].
#[derive(Drop)]
pub struct TrySendCall<T> {
    pub(crate) message: T,
}

/// Sends a message at once.
///
/// Refused with `Closed` if the channel was closed, with `Full` if no place is free, and with `Memory` if the allocation
/// failed. A refused message comes back.
pub fn try_send<W, T>(message: T) -> AtOnce<W, TrySendCall<T>>
    ensures act { result.act ≡ Some (record { message = message }) }
{
    perform(TrySendCall { message })
}

impl<W: Holds<Channel<T>>, T: Drop> Act<W> for TrySendCall<T> {
    type Answer = Result<(), TrySendError<T>>;

    ghost acts = { λ a w r v. TriesToSend (W.part w) a.message r (W.part v) };

    fn act(self, _alloc: Global, shared: &mut W) -> Result<(), TrySendError<T>> {
        try_send_part::<W, T>(shared, self.message)
    }
}

/// A call of [`try_recv`].
#[derive(Drop)]
pub struct TryRecvCall<T> {
    message: PhantomData<T>,
}

/// Receives a message at once.
///
/// Refused with `Empty` if no message is queued that is neither promised nor owed, and with `Disconnected` if the channel
/// was closed and no message is left.
pub fn try_recv<W, T>() -> AtOnce<W, TryRecvCall<T>>
    ensures unspent { is_some result.act ≡ true }
{
    perform(TryRecvCall {
        message: PhantomData,
    })
}

impl<W: Holds<Channel<T>>, T: Drop> Act<W> for TryRecvCall<T> {
    type Answer = Result<T, TryRecvError>;

    ghost acts = { λ a w r v. TriesToReceive (W.part w) r (W.part v) };

    fn act(self, _alloc: Global, shared: &mut W) -> Result<T, TryRecvError> {
        try_recv_part::<W, T>(shared)
    }
}

/// A call of [`close_channel`].
#[derive(Drop)]
pub struct CloseChannelCall<T> {
    message: PhantomData<T>,
}

/// Closes the channel: all tasks that wait at it are woken.
pub fn close_channel<W, T>() -> AtOnce<W, CloseChannelCall<T>>
    ensures unspent { is_some result.act ≡ true }
{
    perform(CloseChannelCall {
        message: PhantomData,
    })
}

impl<W: Holds<Channel<T>>, T: Drop> Act<W> for CloseChannelCall<T> {
    type Answer = ();

    ghost acts = { λ a w r v. Closes (W.part w) (W.part v) };

    fn act(self, _alloc: Global, shared: &mut W) {
        close_part::<W, T>(shared)
    }
}
