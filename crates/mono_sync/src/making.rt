// The calls of a task that makes or removes a part under a key.
ghost use Rattle.std.specs.Prelude.{◌≡◌, ℕ};
ghost use Rattle.mono_sync.specs.Many.{Makes, Removes, GoesIfIdle, LeadsEach, lists_each};
ghost use Rattle.mono_task.specs.Owed.{Keeps};

use crate::parts::Holds;
use crate::tables::{Idle, Many, RemoveError};
use mono_task::{SharedContext, SharedState};
use std::alloc::Global;

// Removes the part with this key if no task waits in it.
pub(crate) fn remove_idle<X: Idle + Drop>(parts: &mut Many<X>, key: u64)
    ensures gone { GoesIfIdle X.waiting X.owes key parts.old parts.new }
    ensures leads { LeadsEach X.leads X.waiting X.owes parts.old parts.new }
    ensures keeps { (me : ℕ) → Keeps (lists_each X.lists) me parts.old parts.new }
{
    let _ = parts.remove(key);
}

// Makes a part in a table.
fn make_table<X: SharedState + Drop>(parts: &mut Many<X>, alloc: Global, part: X) -> Result<u64, X>
    ensures made { Makes parts.old part result parts.new }
    ensures leads { LeadsEach X.leads X.waiting X.owes parts.old parts.new }
    ensures keeps { (me : ℕ) → Keeps (lists_each X.lists) me parts.old parts.new }
{
    parts.make(alloc, part)
}

// Removes the part with this key from a table.
fn remove_table<X: Idle + Drop>(parts: &mut Many<X>, key: u64) -> Result<X, RemoveError>
    ensures removed { Removes X.waiting X.owes parts.old key result parts.new }
    ensures leads { LeadsEach X.leads X.waiting X.owes parts.old parts.new }
    ensures keeps { (me : ℕ) → Keeps (lists_each X.lists) me parts.old parts.new }
{
    parts.remove(key)
}

// Makes a part in the whole.
pub(crate) fn make_part<W: Holds<Many<X>>, X: SharedState + Drop>(
    whole: &mut W,
    alloc: Global,
    part: X,
) -> Result<u64, X>
    ensures made { Makes (W.part whole.old) part result (W.part whole.new) }
    ensures leads { W.leads whole.old whole.new }
    ensures keeps { (me : ℕ) → Keeps W.lists me whole.old whole.new }
{
    make_table::<X>(whole.part_mut(), alloc, part)
}

// Removes the part with this key from the whole.
pub(crate) fn remove_part<W: Holds<Many<X>>, X: Idle + Drop>(
    whole: &mut W,
    key: u64,
) -> Result<X, RemoveError>
    ensures removed { Removes X.waiting X.owes (W.part whole.old) key result (W.part whole.new) }
    ensures leads { W.leads whole.old whole.new }
    ensures keeps { (me : ℕ) → Keeps W.lists me whole.old whole.new }
{
    remove_table::<X>(whole.part_mut(), key)
}

/// Makes a part in the running task's turn, and returns its key, which was never used. The part comes back if out of
/// memory, or if the keys are used up.
pub fn make<W: Holds<Many<X>>, X: SharedState + Drop, C: SharedContext<W>>(
    cx: &mut C,
    alloc: Global,
    part: X,
) -> Result<u64, X>
    ensures made { Makes (W.part (C.shared cx.old)) part result (W.part (C.shared cx.new)) }
    ensures work { C.work cx.new ≡ C.work cx.old }
    ensures reached { C.reaches cx.old cx.new }
{
    make_part::<W, X>(cx.shared_mut(), alloc, part)
}

/// Removes the part with this key in the running task's turn, and returns it.
///
/// Refused with `Missing` if it was removed or never made, and with `InUse` while a task waits in it or is owed a wake. Close
/// such a part first: the runtime wakes its tasks after the turn, and then it can be removed.
pub fn remove<W: Holds<Many<X>>, X: Idle + Drop, C: SharedContext<W>>(
    cx: &mut C,
    key: u64,
) -> Result<X, RemoveError>
    ensures removed { Removes X.waiting X.owes (W.part (C.shared cx.old)) key result (W.part (C.shared cx.new)) }
    ensures work { C.work cx.new ≡ C.work cx.old }
    ensures reached { C.reaches cx.old cx.new }
{
    remove_part::<W, X>(cx.shared_mut(), key)
}
