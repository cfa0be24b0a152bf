// What a future does with a watched value in place, in one turn.
ghost use Rattle.std.specs.Prelude.{◌≡◌, ℕ, is_some, true};
ghost use Rattle.std.specs.Fn.{FnOnceReturnsAtMut};
ghost use Rattle.mono_sync.specs.Modifies.{Modifies, ModifiesIf};
ghost use Rattle.mono_task.specs.Owed.{Keeps};

use crate::acts::performs::{Act, AtOnce, perform};
use crate::parts::Holds;
use crate::watch::Watch;
use std::alloc::Global;
use std::marker::PhantomData;

/// A call of [`modify_value`].
#[derive(Drop)]
pub struct ModifyValueCall<T, F> {
    pub(crate) func: F,
    value: PhantomData<T>,
}

/// Changes the watched value by a closure, and answers what the closure returns: all tasks that wait for another value are
/// woken.
///
/// The closure comes back, and was not called, if the watched value was closed, or if no version is left.
pub fn modify_value<W, T, U, F: FnOnce(&mut T) -> U>(func: F) -> AtOnce<W, ModifyValueCall<T, F>>
    ensures unspent { is_some result.act ≡ true }
{
    perform(ModifyValueCall {
        func,
        value: PhantomData,
    })
}

// Changes the watched value, in the whole.
fn modify_part<W: Holds<Watch<T>>, T, U, F: FnOnce(&mut T) -> U>(
    whole: &mut W,
    func: F,
) -> Result<U, F>
    requires callable { F.IsAlwaysCallable func }
    ensures answer { Modifies (FnOnceReturnsAtMut F.FnOnce func) func (W.part whole.old) result (W.part whole.new) }
    ensures leads { W.leads whole.old whole.new }
    ensures keeps { (me : ℕ) → Keeps W.lists me whole.old whole.new }
{
    whole.part_mut().send_modify(func)
}

impl<W: Holds<Watch<T>>, T, U, F: FnOnce(&mut T) -> U + Drop> Act<W> for ModifyValueCall<T, F> {
    type Answer = Result<U, F>;

    ghost can_act = { λ a. F.IsAlwaysCallable a.func };

    ghost acts = { λ a w r v. Modifies (FnOnceReturnsAtMut F.FnOnce a.func) a.func (W.part w) r (W.part v) };

    fn act(self, _alloc: Global, shared: &mut W) -> Result<U, F> {
        modify_part::<W, T, U, F>(shared, self.func)
    }
}

/// A call of [`modify_value_if`].
#[derive(Drop)]
pub struct ModifyValueIfCall<T, F> {
    pub(crate) func: F,
    value: PhantomData<T>,
}

/// Changes the watched value by a closure, and answers what the closure returns. If that is true, all tasks that wait for
/// another value are woken. If it is false, the version stays the same, and no task is woken.
///
/// The closure comes back, and was not called, if the watched value was closed, or if no version is left.
pub fn modify_value_if<W, T, F: FnOnce(&mut T) -> bool>(
    func: F,
) -> AtOnce<W, ModifyValueIfCall<T, F>>
    ensures unspent { is_some result.act ≡ true }
{
    perform(ModifyValueIfCall {
        func,
        value: PhantomData,
    })
}

// Changes the watched value if the closure says so, in the whole.
fn modify_if_part<W: Holds<Watch<T>>, T, F: FnOnce(&mut T) -> bool>(
    whole: &mut W,
    func: F,
) -> Result<bool, F>
    requires callable { F.IsAlwaysCallable func }
    ensures answer { ModifiesIf (FnOnceReturnsAtMut F.FnOnce func) func (W.part whole.old) result (W.part whole.new) }
    ensures leads { W.leads whole.old whole.new }
    ensures keeps { (me : ℕ) → Keeps W.lists me whole.old whole.new }
{
    whole.part_mut().send_if_modified(func)
}

impl<W: Holds<Watch<T>>, T, F: FnOnce(&mut T) -> bool + Drop> Act<W> for ModifyValueIfCall<T, F> {
    type Answer = Result<bool, F>;

    ghost can_act = { λ a. F.IsAlwaysCallable a.func };

    ghost acts = { λ a w r v. ModifiesIf (FnOnceReturnsAtMut F.FnOnce a.func) a.func (W.part w) r (W.part v) };

    fn act(self, _alloc: Global, shared: &mut W) -> Result<bool, F> {
        modify_if_part::<W, T, F>(shared, self.func)
    }
}
