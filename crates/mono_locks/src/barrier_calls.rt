// The call of a task on a barrier: it waits.
ghost use Rattle.std.specs.Prelude.{◌≡◌, false};
ghost use Rattle.mono_locks.specs.Barriers.{Arrives, GivesUp};

use crate::asks::{Ask, Asking, ask_for};
use crate::barrier::{Barrier, BarrierWaitResult};
use crate::queues::{Asked, Ticket};
use mono_sync::Holds;

/// A call of [`wait`].
#[derive(Drop)]
pub struct WaitCall;

/// A future that waits at the tasks' barrier until as many have come as it has parties.
pub type WaitFuture<W> = Asking<W, WaitCall>;

/// Returns a future that waits at the tasks' barrier until as many have come as it has parties. It fails if out of memory.
pub fn wait<W>() -> WaitFuture<W>
    ensures unspent { result.has_answered ≡ false }
{
    ask_for(WaitCall)
}

impl<W: Holds<Barrier>> Ask<W> for WaitCall {
    type Gets = BarrierWaitResult;

    ghost asks = { λ k ticket me w r v. Arrives (W.part w) ticket me r (W.part v) };

    ghost leaves = { λ k ticket me w v. GivesUp (W.part w) ticket me (W.part v) };

    fn ask(&self, shared: &mut W, ticket: Option<Ticket>, me: u64) -> Asked<BarrierWaitResult> {
        shared.part_mut().wait(ticket, me)
    }

    fn leave(&self, shared: &mut W, ticket: Option<Ticket>, me: u64) {
        shared.part_mut().give_up(ticket, me)
    }
}
