// What a future does with one of many watched values in place, in one turn.
ghost use Rattle.std.specs.Prelude.{◌≡◌, ℕ, is_some, true};
ghost use Rattle.std.specs.Fn.{FnOnceReturnsAtMut};
ghost use Rattle.mono_sync.specs.Watches.{listed_by, owed_by, waiting_in};
ghost use Rattle.mono_sync.specs.WatchRuns.{Step};
ghost use Rattle.mono_sync.specs.Runs.{Leads};
ghost use Rattle.mono_sync.specs.Many.{LeadsEach, lists_each};
ghost use Rattle.mono_sync.specs.KeyedMany.{ModifiesAt, ModifiesIfAt};
ghost use Rattle.mono_task.specs.Owed.{Keeps};

use crate::acts::performs::{Act, AtOnce, perform};
use crate::parts::Holds;
use crate::tables::Many;
use crate::watch::Watch;
use std::alloc::Global;
use std::marker::PhantomData;

/// A call of [`modify_value_at`].
#[derive(Drop)]
pub struct ModifyValueAtCall<T, F> {
    pub(crate) key: u64,
    pub(crate) func: F,
    value: PhantomData<T>,
}

/// Changes the watched value with this key by a closure, and answers what the closure returns: all tasks that wait for another
/// value are woken.
///
/// The closure comes back, and was not called, if there is no such watched value, if it was closed, or if no version is left.
pub fn modify_value_at<W, T, U, F: FnOnce(&mut T) -> U>(
    key: u64,
    func: F,
) -> AtOnce<W, ModifyValueAtCall<T, F>>
    ensures unspent { is_some result.act ≡ true }
{
    perform(ModifyValueAtCall {
        key,
        func,
        value: PhantomData,
    })
}

// Changes the watched value with this key.
fn modify_table<T, U, F: FnOnce(&mut T) -> U>(
    values: &mut Many<Watch<T>>,
    key: u64,
    func: F,
) -> Result<U, F>
    requires callable { F.IsAlwaysCallable func }
    ensures answer { ModifiesAt (FnOnceReturnsAtMut F.FnOnce func) func key values.old result values.new }
    ensures leads { LeadsEach (Leads Step) waiting_in owed_by values.old values.new }
    ensures keeps { (me : ℕ) → Keeps (lists_each listed_by) me values.old values.new }
{
    if values.get(key).is_none() {
        return Err(func);
    }
    values.part_mut(key).send_modify(func)
}

// Changes the watched value with this key, in the whole.
fn modify_part<W: Holds<Many<Watch<T>>>, T, U, F: FnOnce(&mut T) -> U>(
    whole: &mut W,
    key: u64,
    func: F,
) -> Result<U, F>
    requires callable { F.IsAlwaysCallable func }
    ensures answer { ModifiesAt (FnOnceReturnsAtMut F.FnOnce func) func key (W.part whole.old) result (W.part whole.new) }
    ensures leads { W.leads whole.old whole.new }
    ensures keeps { (me : ℕ) → Keeps W.lists me whole.old whole.new }
{
    modify_table(whole.part_mut(), key, func)
}

impl<W: Holds<Many<Watch<T>>>, T, U, F: FnOnce(&mut T) -> U + Drop> Act<W>
    for ModifyValueAtCall<T, F> {
    type Answer = Result<U, F>;

    ghost can_act = { λ a. F.IsAlwaysCallable a.func };

    ghost acts = { λ a w r v. ModifiesAt (FnOnceReturnsAtMut F.FnOnce a.func) a.func a.key (W.part w) r (W.part v) };

    fn act(self, _alloc: Global, shared: &mut W) -> Result<U, F> {
        modify_part::<W, T, U, F>(shared, self.key, self.func)
    }
}

/// A call of [`modify_value_if_at`].
#[derive(Drop)]
pub struct ModifyValueIfAtCall<T, F> {
    pub(crate) key: u64,
    pub(crate) func: F,
    value: PhantomData<T>,
}

/// Changes the watched value with this key by a closure, and answers what the closure returns. If that is true, all tasks that
/// wait for another value are woken. If it is false, the version stays the same, and no task is woken.
///
/// The closure comes back, and was not called, if there is no such watched value, if it was closed, or if no version is left.
pub fn modify_value_if_at<W, T, F: FnOnce(&mut T) -> bool>(
    key: u64,
    func: F,
) -> AtOnce<W, ModifyValueIfAtCall<T, F>>
    ensures unspent { is_some result.act ≡ true }
{
    perform(ModifyValueIfAtCall {
        key,
        func,
        value: PhantomData,
    })
}

// Changes the watched value with this key if the closure says so.
fn modify_if_table<T, F: FnOnce(&mut T) -> bool>(
    values: &mut Many<Watch<T>>,
    key: u64,
    func: F,
) -> Result<bool, F>
    requires callable { F.IsAlwaysCallable func }
    ensures answer { ModifiesIfAt (FnOnceReturnsAtMut F.FnOnce func) func key values.old result values.new }
    ensures leads { LeadsEach (Leads Step) waiting_in owed_by values.old values.new }
    ensures keeps { (me : ℕ) → Keeps (lists_each listed_by) me values.old values.new }
{
    if values.get(key).is_none() {
        return Err(func);
    }
    values.part_mut(key).send_if_modified(func)
}

// Changes the watched value with this key if the closure says so, in the whole.
fn modify_if_part<W: Holds<Many<Watch<T>>>, T, F: FnOnce(&mut T) -> bool>(
    whole: &mut W,
    key: u64,
    func: F,
) -> Result<bool, F>
    requires callable { F.IsAlwaysCallable func }
    ensures answer { ModifiesIfAt (FnOnceReturnsAtMut F.FnOnce func) func key (W.part whole.old) result (W.part whole.new) }
    ensures leads { W.leads whole.old whole.new }
    ensures keeps { (me : ℕ) → Keeps W.lists me whole.old whole.new }
{
    modify_if_table(whole.part_mut(), key, func)
}

impl<W: Holds<Many<Watch<T>>>, T, F: FnOnce(&mut T) -> bool + Drop> Act<W>
    for ModifyValueIfAtCall<T, F> {
    type Answer = Result<bool, F>;

    ghost can_act = { λ a. F.IsAlwaysCallable a.func };

    ghost acts = { λ a w r v. ModifiesIfAt (FnOnceReturnsAtMut F.FnOnce a.func) a.func a.key (W.part w) r (W.part v) };

    fn act(self, _alloc: Global, shared: &mut W) -> Result<bool, F> {
        modify_if_part::<W, T, F>(shared, self.key, self.func)
    }
}
