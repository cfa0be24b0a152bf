// The calls of a task on tokens: it waits until one is cancelled, and cancels.
ghost use Rattle.std.specs.Prelude.{◌≡◌, false, ℕ};
ghost use Rattle.mono_groups.specs.Tokens.{Awaits, Cancels, GivesUp};
ghost use Rattle.mono_task.specs.Owed.{Keeps};

use crate::asks::{Ask, Asking, ask_for};
use crate::tokens::Tokens;
use crate::waiters::Asked;
use mono_sync::Holds;
use mono_task::SharedContext;

/// A call of [`cancelled`].
#[derive(Drop)]
pub struct CancelledCall {
    pub(crate) key: u64,
}

/// A future that waits until the token with one key is cancelled.
pub type CancelledFuture<W> = Asking<W, CancelledCall>;

/// Returns a future that ends once the token with this key was cancelled, at its first poll if it was before. It fails if
/// out of memory.
pub fn cancelled<W>(key: u64) -> CancelledFuture<W>
    ensures key { result.call.key ≡ key }
    ensures unspent { result.has_answered ≡ false }
{
    ask_for(CancelledCall { key })
}

impl<W: Holds<Tokens>> Ask<W> for CancelledCall {
    type Gets = ();

    ghost asks = { λ k ticket me w r v. Awaits k.key (W.part w) ticket me r (W.part v) };

    ghost leaves = { λ k ticket me w v. GivesUp k.key (W.part w) ticket me (W.part v) };

    fn ask(&self, shared: &mut W, ticket: Option<u64>, me: u64) -> Asked<()> {
        shared.part_mut().cancelled(self.key, ticket, me)
    }

    fn leave(&self, shared: &mut W, ticket: Option<u64>, me: u64) {
        shared.part_mut().give_up(self.key, ticket, me)
    }
}

// Cancels a token and all below it.
pub(crate) fn cancel_part<W: Holds<Tokens>>(whole: &mut W, key: u64)
    ensures answer { Cancels key (W.part whole.old) (W.part whole.new) }
    ensures leads { W.leads whole.old whole.new }
    ensures keeps { (me : ℕ) → Keeps W.lists me whole.old whole.new }
{
    whole.part_mut().cancel(key)
}

/// Cancels the token with this key and all below it. The runtime wakes the tasks that wait for them after the turn.
///
/// Nothing changes if it was cancelled before, or if no token has this key.
pub fn cancel<W: Holds<Tokens>, C: SharedContext<W>>(cx: &mut C, key: u64)
    ensures answer { Cancels key (W.part (C.shared cx.old)) (W.part (C.shared cx.new)) }
    ensures work { C.work cx.new ≡ C.work cx.old }
    ensures reached { C.reaches cx.old cx.new }
{
    cancel_part::<W>(cx.shared_mut(), key)
}
