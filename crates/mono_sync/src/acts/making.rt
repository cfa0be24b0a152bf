// What a future does with a table of parts in one turn.
ghost use Rattle.std.specs.Prelude.{◌≡◌, ℕ, Some, is_some, true};
ghost use Rattle.mono_sync.specs.Many.{Makes, Removes};
ghost use Rattle.mono_task.specs.Owed.{Keeps};

use crate::acts::performs::{Act, AtOnce, perform};
use crate::making::{make_part, remove_part};
use crate::parts::Holds;
use crate::tables::{Idle, Many, RemoveError};
use mono_task::SharedState;
use std::alloc::Global;
use std::marker::PhantomData;

/// A call of [`make`].
#[derive(Drop)]
pub struct MakeCall<X> {
    pub(crate) part: X,
}

/// Makes a part, and answers its key, which was never used.
///
/// The part comes back if out of memory, or if the keys are used up.
pub fn make<W, X>(part: X) -> AtOnce<W, MakeCall<X>>
    ensures act { result.act ≡ Some (record { part = part }) }
{
    perform(MakeCall { part })
}

impl<W: Holds<Many<X>>, X: SharedState + Drop> Act<W> for MakeCall<X> {
    type Answer = Result<u64, X>;

    ghost acts = { λ a w r v. Makes (W.part w) a.part r (W.part v) };

    fn act(self, alloc: Global, shared: &mut W) -> Result<u64, X> {
        make_part::<W, X>(shared, alloc, self.part)
    }
}

/// A call of [`remove`].
#[derive(Drop)]
pub struct RemoveCall<X> {
    pub(crate) key: u64,
    part: PhantomData<X>,
}

/// Removes the part with this key, and answers it.
///
/// Refused with `Missing` if it was removed or never made, and with `InUse` while a task waits in it or is owed a wake.
pub fn remove<W, X>(key: u64) -> AtOnce<W, RemoveCall<X>>
    ensures unspent { is_some result.act ≡ true }
{
    perform(RemoveCall {
        key,
        part: PhantomData,
    })
}

impl<W: Holds<Many<X>>, X: Idle + Drop> Act<W> for RemoveCall<X> {
    type Answer = Result<X, RemoveError>;

    ghost acts = { λ a w r v. Removes X.waiting X.owes (W.part w) a.key r (W.part v) };

    fn act(self, _alloc: Global, shared: &mut W) -> Result<X, RemoveError> {
        remove_part::<W, X>(shared, self.key)
    }
}
