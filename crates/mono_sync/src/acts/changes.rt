// What a future does with a watched value in one turn.
ghost use Rattle.std.specs.Prelude.{◌≡◌, ℕ, Some, is_some, true};
ghost use Rattle.mono_sync.specs.Watches.{Sends, Closes};
ghost use Rattle.mono_task.specs.Owed.{Keeps};

use crate::acts::performs::{Act, AtOnce, perform};
use crate::changes::{close_part, send_part};
use crate::parts::Holds;
use crate::watch::Watch;
use std::alloc::Global;
use std::marker::PhantomData;

/// A call of [`send_value`].
#[derive(Drop)]
pub struct SendValueCall<T> {
    pub(crate) value: T,
}

/// Replaces the watched value, and answers the value before: all tasks that wait for another one are woken.
///
/// The new value comes back if the watched value was closed, or if no version is left.
pub fn send_value<W, T>(value: T) -> AtOnce<W, SendValueCall<T>>
    ensures act { result.act ≡ Some (record { value = value }) }
{
    perform(SendValueCall { value })
}

impl<W: Holds<Watch<T>>, T: Drop> Act<W> for SendValueCall<T> {
    type Answer = Result<T, T>;

    ghost acts = { λ a w r v. Sends (W.part w) a.value r (W.part v) };

    fn act(self, _alloc: Global, shared: &mut W) -> Result<T, T> {
        send_part::<W, T>(shared, self.value)
    }
}

/// A call of [`close_value`].
#[derive(Drop)]
pub struct CloseValueCall<T> {
    value: PhantomData<T>,
}

/// Closes the watched value: all tasks that wait for another one are woken.
pub fn close_value<W, T>() -> AtOnce<W, CloseValueCall<T>>
    ensures unspent { is_some result.act ≡ true }
{
    perform(CloseValueCall { value: PhantomData })
}

impl<W: Holds<Watch<T>>, T: Drop> Act<W> for CloseValueCall<T> {
    type Answer = ();

    ghost acts = { λ a w r v. Closes (W.part w) (W.part v) };

    fn act(self, _alloc: Global, shared: &mut W) {
        close_part::<W, T>(shared)
    }
}
