// A value of the user's own, in which no task waits.
ghost use Rattle.std.specs.Prelude.{⊤};

use mono_task::SharedState;

/// A value of your own that the tasks share: each may read and change it, and none waits in it.
#[derive(Drop)]
pub struct Own<S> {
    /// The value.
    pub value: S,
}

/// Any change leads the value.
impl<S> SharedState for Own<S> {
    ghost leads = { λ a b. ⊤ };

    #[inline(always)]
    fn next_owed(&mut self) -> Option<u64> {
        None
    }

    ghost leads_itself = { λ a. tt };

    ghost leads_on = { λ a b c p q. tt };

    ghost lists_some = { λ a p t is. is };
}
