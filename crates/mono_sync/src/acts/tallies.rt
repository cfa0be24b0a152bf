// What a future does with a channel that has a value next to it in one turn.
ghost use Rattle.std.specs.Prelude.{◌≡◌, ℕ, is_some, true};
ghost use Rattle.mono_sync.specs.Mpsc.{Closes};
ghost use Rattle.mono_task.specs.Owed.{Keeps};

use crate::acts::performs::{Act, AtOnce, perform};
use crate::parts::Holds;
use crate::tallied_messages::close_part;
use crate::tallies::{Tallied, Tally};
use std::alloc::Global;
use std::marker::PhantomData;

/// A call of [`close_tallied`].
#[derive(Drop)]
pub struct CloseTalliedCall<T, S> {
    message: PhantomData<T>,
    tally: PhantomData<S>,
}

/// Closes the channel with a value next to it: all tasks that wait at it are woken.
pub fn close_tallied<W, T, S>() -> AtOnce<W, CloseTalliedCall<T, S>>
    ensures unspent { is_some result.act ≡ true }
{
    perform(CloseTalliedCall {
        message: PhantomData,
        tally: PhantomData,
    })
}

impl<W: Holds<Tallied<T, S>>, T: Drop, S: Tally<T>> Act<W> for CloseTalliedCall<T, S> {
    type Answer = ();

    ghost acts = { λ a w r v. Closes (W.part w).channel (W.part v).channel };

    fn act(self, _alloc: Global, shared: &mut W) {
        close_part::<W, T, S>(shared)
    }
}
