// The sources of a future that waits for a key.
ghost use Rattle.mono_wait.specs.Frames.{frame_of};
ghost use Rattle.mono_wait.specs.Locks.{locks_cover};
ghost use Rattle.mono_wait.specs.Peers.{PeersNeeds};

use crate::leaves::Reaching;
use crate::waits::{SharedWaitContext, Waits};
use mono_serve::{Acquire, Leases};
use mono_sync::Lists;

// It needs the tasks whose sessions are before its own in the key's queue.
impl<W: Lists<Leases>, C: SharedWaitContext<W>> Waits<C> for Reaching<Acquire<W>> {
    ghost needs = { λ f. PeersNeeds };

    ghost polls_reach = { λ f c r g d p. p.1 };

    ghost cancels_reach = { λ f c d p. p.1 };

    ghost covers = { λ f c g d p. locks_cover (frame_of C.number C.work C.reaches C.watcher C.reaches_itself C.reaches_on) (λ x. W.part (C.shared x)) C.nanos (λ x. W.names (C.shared x)) C.same_number C.watches_peers (λ x t. W.names_part (C.shared x) t) f.future.ticket f.future.session f.future.key c g.future.ticket d p.1 p.0 };
}
