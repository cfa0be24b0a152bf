// The sources of a future that waits for a message to an actor.
ghost use Rattle.mono_wait.specs.Frames.{frame_of};
ghost use Rattle.mono_wait.specs.Peers.{PeersNeeds};
ghost use Rattle.mono_wait.specs.Receives.{receives_cover};

use crate::leaves::Reaching;
use crate::waits::{SharedWaitContext, Waits};
use mono_serve::{Mailboxes, Receive};
use mono_sync::Lists;

// It needs the tasks that send to its actor, or remove it.
impl<M: Drop, W: Lists<Mailboxes<M>>, C: SharedWaitContext<W>> Waits<C>
    for Reaching<Receive<W, M>> {
    ghost needs = { λ f. PeersNeeds };

    ghost polls_reach = { λ f c r g d p. p.1 };

    ghost cancels_reach = { λ f c d p. p.1 };

    ghost covers = { λ f c g d p. receives_cover (frame_of C.number C.work C.reaches C.watcher C.reaches_itself C.reaches_on) (λ x. W.part (C.shared x)) (λ x. W.names (C.shared x)) C.same_number C.watches_peers (λ x t. W.names_part (C.shared x) t) f.future.ticket f.future.actor c g.future.ticket d p.1 p.0 };
}
