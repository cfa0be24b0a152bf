// What a future does with one of many channels for one message in one turn.
ghost use Rattle.std.specs.Prelude.{◌≡◌, ℕ, Some, is_some, true};
ghost use Rattle.mono_sync.specs.KeyedDeliveries.{SendsAt, ClosesAt};
ghost use Rattle.mono_task.specs.Owed.{Keeps};

use crate::acts::performs::{Act, AtOnce, perform};
use crate::keyed_deliveries::{close_part, send_part};
use crate::oneshot::Oneshot;
use crate::parts::Holds;
use crate::tables::Many;
use std::alloc::Global;
use std::marker::PhantomData;

/// A call of [`send_once_at`].
#[derive(Drop)]
pub struct SendOnceAtCall<T> {
    pub(crate) key: u64,
    pub(crate) message: T,
}

/// Sends the message to the channel with this key.
///
/// The message comes back if there is no such channel, if one was sent, or if the channel was closed.
pub fn send_once_at<W, T>(key: u64, message: T) -> AtOnce<W, SendOnceAtCall<T>>
    ensures act { result.act ≡ Some (record { key = key; message = message }) }
{
    perform(SendOnceAtCall { key, message })
}

impl<W: Holds<Many<Oneshot<T>>>, T: Drop> Act<W> for SendOnceAtCall<T> {
    type Answer = Result<(), T>;

    ghost acts = { λ a w r v. SendsAt a.key (W.part w) a.message r (W.part v) };

    fn act(self, _alloc: Global, shared: &mut W) -> Result<(), T> {
        send_part::<W, T>(shared, self.key, self.message)
    }
}

/// A call of [`close_once_at`].
#[derive(Drop)]
pub struct CloseOnceAtCall<T> {
    pub(crate) key: u64,
    message: PhantomData<T>,
}

/// Closes the channel with this key, if there is one.
pub fn close_once_at<W, T>(key: u64) -> AtOnce<W, CloseOnceAtCall<T>>
    ensures unspent { is_some result.act ≡ true }
{
    perform(CloseOnceAtCall {
        key,
        message: PhantomData,
    })
}

impl<W: Holds<Many<Oneshot<T>>>, T: Drop> Act<W> for CloseOnceAtCall<T> {
    type Answer = ();

    ghost acts = { λ a w r v. ClosesAt a.key (W.part w) (W.part v) };

    fn act(self, _alloc: Global, shared: &mut W) {
        close_part::<W, T>(shared, self.key)
    }
}
