// What a future does with a value of the user's own in one turn.
ghost use Rattle.std.specs.Prelude.{◌≡◌, ℕ, is_some, true};
ghost use Rattle.std.specs.Fn.{FnOnceReturnsAtMut};
ghost use Rattle.mono_task.specs.Owed.{Keeps};

use crate::acts::performs::{Act, AtOnce, perform};
use crate::owns::Own;
use crate::parts::Holds;
use std::alloc::Global;
use std::marker::PhantomData;

/// A call of [`change`].
#[derive(Drop)]
pub struct ChangeCall<S, F> {
    pub(crate) func: F,
    value: PhantomData<S>,
}

/// Calls a closure with your own value, to be read and changed, and answers what it returns.
pub fn change<W, S, T, F: FnOnce(&mut S) -> T>(func: F) -> AtOnce<W, ChangeCall<S, F>>
    ensures unspent { is_some result.act ≡ true }
{
    perform(ChangeCall {
        func,
        value: PhantomData,
    })
}

// Calls the closure with the value.
fn change_own<S, T, F: FnOnce(&mut S) -> T>(own: &mut Own<S>, func: F) -> T
    requires callable { F.IsAlwaysCallable func }
    ensures { FnOnceReturnsAtMut F.FnOnce func own.old.value result own.new.value }
{
    func(&mut own.value)
}

// Calls the closure with the value, in the whole.
fn change_part<W: Holds<Own<S>>, S, T, F: FnOnce(&mut S) -> T>(whole: &mut W, func: F) -> T
    requires callable { F.IsAlwaysCallable func }
    ensures answer { FnOnceReturnsAtMut F.FnOnce func (W.part whole.old).value result (W.part whole.new).value }
    ensures leads { W.leads whole.old whole.new }
    ensures keeps { (me : ℕ) → Keeps W.lists me whole.old whole.new }
{
    change_own(whole.part_mut(), func)
}

impl<W: Holds<Own<S>>, S, T, F: FnOnce(&mut S) -> T + Drop> Act<W> for ChangeCall<S, F> {
    type Answer = T;

    ghost can_act = { λ a. F.IsAlwaysCallable a.func };

    ghost acts = { λ a w r v. FnOnceReturnsAtMut F.FnOnce a.func (W.part w).value r (W.part v).value };

    fn act(self, _alloc: Global, shared: &mut W) -> T {
        change_part::<W, S, T, F>(shared, self.func)
    }
}
