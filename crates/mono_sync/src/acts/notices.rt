// What a future does with a notice in one turn.
ghost use Rattle.std.specs.Prelude.{◌≡◌, ℕ, Some, is_some, true};
ghost use Rattle.mono_sync.specs.Notices.{NotifiesOne, NotifiesAll};
ghost use Rattle.mono_task.specs.Owed.{Keeps};

use crate::acts::performs::{Act, AtOnce, perform};
use crate::notices::Notify;
use crate::notifications::{all_part, one_part};
use crate::parts::Holds;
use std::alloc::Global;

/// A call of [`notify_one`].
#[derive(Drop)]
pub struct NotifyOneCall;

/// Notifies the first task that waits and has no notice.
pub fn notify_one<W>() -> AtOnce<W, NotifyOneCall>
    ensures unspent { is_some result.act ≡ true }
{
    perform(NotifyOneCall)
}

impl<W: Holds<Notify>> Act<W> for NotifyOneCall {
    type Answer = ();

    ghost acts = { λ a w r v. NotifiesOne (W.part w) (W.part v) };

    fn act(self, _alloc: Global, shared: &mut W) {
        one_part(shared)
    }
}

/// A call of [`notify_waiters`].
#[derive(Drop)]
pub struct NotifyWaitersCall;

/// Notifies all tasks that wait.
pub fn notify_waiters<W>() -> AtOnce<W, NotifyWaitersCall>
    ensures unspent { is_some result.act ≡ true }
{
    perform(NotifyWaitersCall)
}

impl<W: Holds<Notify>> Act<W> for NotifyWaitersCall {
    type Answer = ();

    ghost acts = { λ a w r v. NotifiesAll (W.part w) (W.part v) };

    fn act(self, _alloc: Global, shared: &mut W) {
        all_part(shared)
    }
}
