//! Calls on tokens as futures: each is made in one turn.
//!
//! The functions here return a future, for forms such as `then`; the functions of the same names elsewhere take a context.
ghost use Rattle.std.specs.Prelude.{◌≡◌, Some, None};
ghost use Rattle.mono_groups.specs.Tokens.{Cancels, Makes, Removes};

pub use crate::join_set_acts::{
    AbortAllCall, EnterCall, TryJoinNextCall, abort_all, enter, try_join_next,
};
use crate::token_calls::cancel_part;
use crate::tokens::{RemoveError, Tokens};
use mono_sync::Holds;
use mono_sync::acts::{Act, AtOnce, perform};
use std::alloc::{AllocError, Global};

/// A call of [`make_token`] or [`child_token`].
#[derive(Drop)]
pub struct MakeTokenCall {
    pub(crate) parent: Option<u64>,
}

/// Makes a token without a parent, and answers its key. Refused if out of memory, or if the keys are used up.
pub fn make_token<W>() -> AtOnce<W, MakeTokenCall>
    ensures { result.act ≡ Some (record { parent = None }) }
{
    perform(MakeTokenCall { parent: None })
}

/// Makes a token below the one with this key, and answers its key. It is cancelled from the start if its parent was, or if no
/// token has this key. Refused if out of memory, or if the keys are used up.
pub fn child_token<W>(parent: u64) -> AtOnce<W, MakeTokenCall>
    ensures { result.act ≡ Some (record { parent = Some parent }) }
{
    perform(MakeTokenCall {
        parent: Some(parent),
    })
}

impl<W: Holds<Tokens>> Act<W> for MakeTokenCall {
    type Answer = Result<u64, AllocError>;

    ghost acts = { λ a w r v. Makes (W.part w) a.parent r (W.part v) };

    fn act(self, alloc: Global, shared: &mut W) -> Result<u64, AllocError> {
        shared.part_mut().add(alloc, self.parent)
    }
}

/// A call of [`cancel`].
#[derive(Drop)]
pub struct CancelCall {
    pub(crate) key: u64,
}

/// Cancels the token with this key and all below it. The runtime wakes the tasks that wait for them.
pub fn cancel<W>(key: u64) -> AtOnce<W, CancelCall>
    ensures { result.act ≡ Some (record { key = key }) }
{
    perform(CancelCall { key })
}

impl<W: Holds<Tokens>> Act<W> for CancelCall {
    type Answer = ();

    ghost acts = { λ a w r v. Cancels a.key (W.part w) (W.part v) };

    fn act(self, _alloc: Global, shared: &mut W) {
        cancel_part::<W>(shared, self.key)
    }
}

/// A call of [`remove_token`].
#[derive(Drop)]
pub struct RemoveTokenCall {
    pub(crate) key: u64,
}

/// Removes the token with this key, which counts as cancelled afterwards as it did before.
///
/// Refused with `Missing` if it was removed or never made, with `Live` if it was not cancelled, and with `InUse` while a task
/// waits for it.
pub fn remove_token<W>(key: u64) -> AtOnce<W, RemoveTokenCall>
    ensures { result.act ≡ Some (record { key = key }) }
{
    perform(RemoveTokenCall { key })
}

impl<W: Holds<Tokens>> Act<W> for RemoveTokenCall {
    type Answer = Result<(), RemoveError>;

    ghost acts = { λ a w r v. Removes (W.part w) a.key r (W.part v) };

    fn act(self, _alloc: Global, shared: &mut W) -> Result<(), RemoveError> {
        shared.part_mut().remove(self.key)
    }
}
