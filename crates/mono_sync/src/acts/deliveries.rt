// What a future does with a channel for one message in one turn.
ghost use Rattle.std.specs.Prelude.{◌≡◌, ℕ, Some, is_some, true};
ghost use Rattle.mono_sync.specs.Oneshot.{Sends, Closes};
ghost use Rattle.mono_task.specs.Owed.{Keeps};

use crate::acts::performs::{Act, AtOnce, perform};
use crate::deliveries::{close_part, send_part};
use crate::oneshot::Oneshot;
use crate::parts::Holds;
use std::alloc::Global;
use std::marker::PhantomData;

/// A call of [`send_once`].
#[derive(Drop)]
pub struct SendOnceCall<T> {
    pub(crate) message: T,
}

/// Sends the one message.
///
/// The message comes back if one was sent, or if the channel was closed.
pub fn send_once<W, T>(message: T) -> AtOnce<W, SendOnceCall<T>>
    ensures act { result.act ≡ Some (record { message = message }) }
{
    perform(SendOnceCall { message })
}

impl<W: Holds<Oneshot<T>>, T: Drop> Act<W> for SendOnceCall<T> {
    type Answer = Result<(), T>;

    ghost acts = { λ a w r v. Sends (W.part w) a.message r (W.part v) };

    fn act(self, _alloc: Global, shared: &mut W) -> Result<(), T> {
        send_part::<W, T>(shared, self.message)
    }
}

/// A call of [`close_once`].
#[derive(Drop)]
pub struct CloseOnceCall<T> {
    message: PhantomData<T>,
}

/// Closes the channel for one message: a task that waits is woken.
pub fn close_once<W, T>() -> AtOnce<W, CloseOnceCall<T>>
    ensures unspent { is_some result.act ≡ true }
{
    perform(CloseOnceCall {
        message: PhantomData,
    })
}

impl<W: Holds<Oneshot<T>>, T: Drop> Act<W> for CloseOnceCall<T> {
    type Answer = ();

    ghost acts = { λ a w r v. Closes (W.part w) (W.part v) };

    fn act(self, _alloc: Global, shared: &mut W) {
        close_part::<W, T>(shared)
    }
}
