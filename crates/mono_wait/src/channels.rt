// The sources of futures over a channel between runtimes.
ghost use Rattle.mono_wait.specs.Outsides.{OutsideNeeds, outsides_cover};

use crate::waits::{RemoteWaitContext, Waits};
use mono_channel::{Recv, Send};
use mono_inbox::Unpark;
use mono_model::Host;

// It needs the threads that hold a waker of its task: its senders.
impl<T: Drop, U: Unpark, C: RemoteWaitContext<U>> Waits<C> for Recv<'_, T, U> {
    ghost needs = { λ f. OutsideNeeds };

    ghost polls_reach = { λ f c r g d p. p.1 };

    ghost cancels_reach = { λ f c d p. rw p (C.reaches_itself c) };

    ghost covers = { λ f c g d p. outsides_cover C.number C.work C.reaches C.watcher C.reaches_itself C.has_handed_out C.watches_threads c d p.1 p.2.0 };
}

// It needs the threads that hold a waker of its task: its receiver.
impl<T: Drop, U: Unpark, R: Host + Drop, C: RemoteWaitContext<U>> Waits<C> for Send<'_, T, U, R> {
    ghost needs = { λ f. OutsideNeeds };

    ghost polls_reach = { λ f c r g d p. p.1 };

    ghost cancels_reach = { λ f c d p. rw p (C.reaches_itself c) };

    ghost covers = { λ f c g d p. outsides_cover C.number C.work C.reaches C.watcher C.reaches_itself C.has_handed_out C.watches_threads c d p.1 p.2.0 };
}
