// The sources of a future that takes tokens.
ghost use Rattle.mono_wait.specs.Frames.{frame_of};
ghost use Rattle.mono_wait.specs.Takes.{TakeNeeds, takes_cover};

use crate::leaves::Reaching;
use crate::waits::{SharedWaitContext, Waits};
use mono_serve::{Buckets, Take};
use mono_sync::Lists;

// It needs the tasks before it in the line, or its sleep once it is the first.
impl<W: Lists<Buckets>, C: SharedWaitContext<W>> Waits<C> for Reaching<Take<W>> {
    ghost needs = { λ f. TakeNeeds f.future.stage };

    ghost polls_reach = { λ f c r g d p. p.1 };

    ghost cancels_reach = { λ f c d p. p.1 };

    ghost covers = { λ f c g d p. takes_cover (frame_of C.number C.work C.reaches C.watcher C.reaches_itself C.reaches_on) (λ x. W.part (C.shared x)) C.sleeps C.nanos (λ x. W.names (C.shared x)) C.same_number C.watches_sleeps C.watches_peers (λ x t. W.names_part (C.shared x) t) c d p.1 f.future.stage g.future.stage f.future.bucket f.future.n p.0 };
}
