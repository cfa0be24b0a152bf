// What a future does with one of many channels in one turn.
ghost use Rattle.std.specs.Prelude.{◌≡◌, ℕ, Some, is_some, true};
ghost use Rattle.mono_sync.specs.KeyedMessages.{TriesToSendAt, TriesToReceiveAt, ClosesAt};
ghost use Rattle.mono_task.specs.Owed.{Keeps};

use crate::acts::performs::{Act, AtOnce, perform};
use crate::keyed_messages::{close_part, try_recv_part, try_send_part};
use crate::mpsc::{Channel, TryRecvError, TrySendError};
use crate::parts::Holds;
use crate::tables::Many;
use std::alloc::Global;
use std::marker::PhantomData;

/// A call of [`try_send_at`].
#[derive(Drop)]
pub struct TrySendAtCall<T> {
    pub(crate) key: u64,
    pub(crate) message: T,
}

/// Sends the message to the channel with this key.
///
/// The message comes back in the order of the errors: `Closed` if there is no such channel or it was closed, `Full`,
/// `Memory`.
pub fn try_send_at<W, T>(key: u64, message: T) -> AtOnce<W, TrySendAtCall<T>>
    ensures act { result.act ≡ Some (record { key = key; message = message }) }
{
    perform(TrySendAtCall { key, message })
}

impl<W: Holds<Many<Channel<T>>>, T: Drop> Act<W> for TrySendAtCall<T> {
    type Answer = Result<(), TrySendError<T>>;

    ghost acts = { λ a w r v. TriesToSendAt a.key (W.part w) a.message r (W.part v) };

    fn act(self, _alloc: Global, shared: &mut W) -> Result<(), TrySendError<T>> {
        try_send_part::<W, T>(shared, self.key, self.message)
    }
}

/// A call of [`try_recv_at`].
#[derive(Drop)]
pub struct TryRecvAtCall<T> {
    pub(crate) key: u64,
    message: PhantomData<T>,
}

/// Receives a message of the channel with this key.
///
/// Refused with `Empty` if no message is free, and with `Disconnected` if there is no such channel, or if it was closed and
/// has no message.
pub fn try_recv_at<W, T>(key: u64) -> AtOnce<W, TryRecvAtCall<T>>
    ensures unspent { is_some result.act ≡ true }
{
    perform(TryRecvAtCall {
        key,
        message: PhantomData,
    })
}

impl<W: Holds<Many<Channel<T>>>, T: Drop> Act<W> for TryRecvAtCall<T> {
    type Answer = Result<T, TryRecvError>;

    ghost acts = { λ a w r v. TriesToReceiveAt a.key (W.part w) r (W.part v) };

    fn act(self, _alloc: Global, shared: &mut W) -> Result<T, TryRecvError> {
        try_recv_part::<W, T>(shared, self.key)
    }
}

/// A call of [`close_channel_at`].
#[derive(Drop)]
pub struct CloseChannelAtCall<T> {
    pub(crate) key: u64,
    message: PhantomData<T>,
}

/// Closes the channel with this key, if there is one.
pub fn close_channel_at<W, T>(key: u64) -> AtOnce<W, CloseChannelAtCall<T>>
    ensures unspent { is_some result.act ≡ true }
{
    perform(CloseChannelAtCall {
        key,
        message: PhantomData,
    })
}

impl<W: Holds<Many<Channel<T>>>, T: Drop> Act<W> for CloseChannelAtCall<T> {
    type Answer = ();

    ghost acts = { λ a w r v. ClosesAt a.key (W.part w) (W.part v) };

    fn act(self, _alloc: Global, shared: &mut W) {
        close_part::<W, T>(shared, self.key)
    }
}
