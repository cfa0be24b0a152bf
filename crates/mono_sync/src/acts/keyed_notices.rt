// What a future does with one of many notices in one turn.
ghost use Rattle.std.specs.Prelude.{◌≡◌, ℕ, Some};
ghost use Rattle.mono_sync.specs.KeyedNotices.{NotifiesOneAt, NotifiesAllAt};
ghost use Rattle.mono_task.specs.Owed.{Keeps};

use crate::acts::performs::{Act, AtOnce, perform};
use crate::keyed_notifications::{all_part, one_part};
use crate::notices::Notify;
use crate::parts::Holds;
use crate::tables::Many;
use std::alloc::Global;

/// A call of [`notify_one_at`].
#[derive(Drop)]
pub struct NotifyOneAtCall {
    pub(crate) key: u64,
}

/// Notifies the first task that waits for the notice with this key and has none. If each has one, the notice is kept.
pub fn notify_one_at<W>(key: u64) -> AtOnce<W, NotifyOneAtCall>
    ensures act { result.act ≡ Some (record { key = key }) }
{
    perform(NotifyOneAtCall { key })
}

impl<W: Holds<Many<Notify>>> Act<W> for NotifyOneAtCall {
    type Answer = ();

    ghost acts = { λ a w r v. NotifiesOneAt a.key (W.part w) (W.part v) };

    fn act(self, _alloc: Global, shared: &mut W) {
        one_part::<W>(shared, self.key)
    }
}

/// A call of [`notify_waiters_at`].
#[derive(Drop)]
pub struct NotifyWaitersAtCall {
    pub(crate) key: u64,
}

/// Notifies all tasks that wait for the notice with this key.
pub fn notify_waiters_at<W>(key: u64) -> AtOnce<W, NotifyWaitersAtCall>
    ensures act { result.act ≡ Some (record { key = key }) }
{
    perform(NotifyWaitersAtCall { key })
}

impl<W: Holds<Many<Notify>>> Act<W> for NotifyWaitersAtCall {
    type Answer = ();

    ghost acts = { λ a w r v. NotifiesAllAt a.key (W.part w) (W.part v) };

    fn act(self, _alloc: Global, shared: &mut W) {
        all_part::<W>(shared, self.key)
    }
}
