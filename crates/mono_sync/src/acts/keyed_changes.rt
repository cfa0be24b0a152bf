// What a future does with one of many watched values in one turn.
ghost use Rattle.std.specs.Prelude.{◌≡◌, ℕ, Some, is_some, true};
ghost use Rattle.mono_sync.specs.KeyedChanges.{SendsAt, ClosesAt};
ghost use Rattle.mono_task.specs.Owed.{Keeps};

use crate::acts::performs::{Act, AtOnce, perform};
use crate::keyed_changes::{close_part, send_part};
use crate::parts::Holds;
use crate::tables::Many;
use crate::watch::Watch;
use std::alloc::Global;
use std::marker::PhantomData;

/// A call of [`send_value_at`].
#[derive(Drop)]
pub struct SendValueAtCall<T> {
    pub(crate) key: u64,
    pub(crate) value: T,
}

/// Replaces the watched value with this key, and answers the value before.
///
/// The new value comes back if there is no such watched value, if it was closed, or if no version is left.
pub fn send_value_at<W, T>(key: u64, value: T) -> AtOnce<W, SendValueAtCall<T>>
    ensures act { result.act ≡ Some (record { key = key; value = value }) }
{
    perform(SendValueAtCall { key, value })
}

impl<W: Holds<Many<Watch<T>>>, T: Drop> Act<W> for SendValueAtCall<T> {
    type Answer = Result<T, T>;

    ghost acts = { λ a w r v. SendsAt a.key (W.part w) a.value r (W.part v) };

    fn act(self, _alloc: Global, shared: &mut W) -> Result<T, T> {
        send_part::<W, T>(shared, self.key, self.value)
    }
}

/// A call of [`close_value_at`].
#[derive(Drop)]
pub struct CloseValueAtCall<T> {
    pub(crate) key: u64,
    held: PhantomData<T>,
}

/// Closes the watched value with this key, if there is one.
pub fn close_value_at<W, T>(key: u64) -> AtOnce<W, CloseValueAtCall<T>>
    ensures unspent { is_some result.act ≡ true }
{
    perform(CloseValueAtCall {
        key,
        held: PhantomData,
    })
}

impl<W: Holds<Many<Watch<T>>>, T: Drop> Act<W> for CloseValueAtCall<T> {
    type Answer = ();

    ghost acts = { λ a w r v. ClosesAt a.key (W.part w) (W.part v) };

    fn act(self, _alloc: Global, shared: &mut W) {
        close_part::<W, T>(shared, self.key)
    }
}
