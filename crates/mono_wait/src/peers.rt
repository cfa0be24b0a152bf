// The sources of futures over a value that tasks share: each waits at its ticket.
ghost use Rattle.std.specs.Prelude.{[], ◌∷◌, zero, suc};
ghost use Rattle.mono_sync.specs.Mpsc as channel;
ghost use Rattle.mono_sync.specs.Semaphores as semaphore;
ghost use Rattle.mono_sync.specs.Notices as notice;
ghost use Rattle.mono_sync.specs.Watches as watch;
ghost use Rattle.mono_sync.specs.Oneshot as one_message;
ghost use Rattle.mono_wait.specs.Frames.{frame_of};
ghost use Rattle.mono_wait.specs.Keepers.{KeeperNeeds, keepers_cover};
ghost use Rattle.mono_wait.specs.Places.{PlaceNeeds, SenderNeeds, ReceiverNeeds, places_cover};
ghost use Rattle.mono_wait.specs.ListedTasks.{send_stands, recv_stands, acquire_stands, notified_stands, changed_stands, delivery_stands, wait_for_stands};
ghost use Rattle.std.specs.Fn.{FnReturnsAt};

use crate::leaves::Reaching;
use crate::waits::{SharedWaitContext, Waits};
use mono_serve::{Keeper, Leases};
use mono_sync::mpsc::{Channel, Recv, Send};
use mono_sync::oneshot::{self, Oneshot};
use mono_sync::tallies::{self, Tallied, Tally};
use mono_sync::watch::{Changed, WaitFor, Watch};
use mono_sync::{Acquire, Holds, Lists, Notified, Notify, Semaphore};

// It needs its ticket among the senders.
impl<T: Drop, W: Holds<Channel<T>>, C: SharedWaitContext<W>> Waits<C> for Reaching<Send<W, T>> {
    ghost needs = { λ f. SenderNeeds (λ w. channel.listed_by (W.part w)) W.lists f.future.ticket };

    ghost polls_reach = { λ f c r g d p. p.1 };

    ghost cancels_reach = { λ f c d p. p.1 };

    ghost covers = { λ f c g d p. places_cover C.number C.work C.reaches C.watcher C.reaches_itself C.same_number C.shared W.lists C.watches_places (λ w. channel.listed_by (W.part w)) W.place W.lists_part c d (zero ∷ []) g.future.ticket p.1 (send_stands (λ x. W.part (C.shared x)) C.number C.work f.future.message f.future.ticket c g.future.message g.future.ticket d p.0.0) };
}

// It needs its ticket among the receivers.
impl<T: Drop, W: Holds<Channel<T>>, C: SharedWaitContext<W>> Waits<C> for Reaching<Recv<W, T>> {
    ghost needs = { λ f. ReceiverNeeds (λ w. channel.listed_by (W.part w)) W.lists f.future.ticket };

    ghost polls_reach = { λ f c r g d p. p.1 };

    ghost cancels_reach = { λ f c d p. p.1 };

    ghost covers = { λ f c g d p. places_cover C.number C.work C.reaches C.watcher C.reaches_itself C.same_number C.shared W.lists C.watches_places (λ w. channel.listed_by (W.part w)) W.place W.lists_part c d (suc zero ∷ []) g.future.ticket p.1 (recv_stands (λ x. W.part (C.shared x)) C.number C.work f.future.ticket c g.future.ticket d p.0.0) };
}

// It needs its ticket.
impl<W: Holds<Semaphore>, C: SharedWaitContext<W>> Waits<C> for Reaching<Acquire<W>> {
    ghost needs = { λ f. PlaceNeeds (λ w. semaphore.listed_by (W.part w)) W.lists [] f.future.ticket };

    ghost polls_reach = { λ f c r g d p. p.1 };

    ghost cancels_reach = { λ f c d p. p.1 };

    ghost covers = { λ f c g d p. places_cover C.number C.work C.reaches C.watcher C.reaches_itself C.same_number C.shared W.lists C.watches_places (λ w. semaphore.listed_by (W.part w)) W.place W.lists_part c d [] g.future.ticket p.1 (acquire_stands C.number C.work (λ x. W.part (C.shared x)) f.future.ticket c g.future.ticket d p.0.0) };
}

// It needs its ticket.
impl<W: Holds<Notify>, C: SharedWaitContext<W>> Waits<C> for Reaching<Notified<W>> {
    ghost needs = { λ f. PlaceNeeds (λ w. notice.listed_by (W.part w)) W.lists [] f.future.ticket };

    ghost polls_reach = { λ f c r g d p. p.1 };

    ghost cancels_reach = { λ f c d p. p.1 };

    ghost covers = { λ f c g d p. places_cover C.number C.work C.reaches C.watcher C.reaches_itself C.same_number C.shared W.lists C.watches_places (λ w. notice.listed_by (W.part w)) W.place W.lists_part c d [] g.future.ticket p.1 (notified_stands C.number C.work (λ x. W.part (C.shared x)) f.future.ticket c g.future.ticket d p.0.0) };
}

// It needs its ticket.
impl<T: Drop, W: Holds<Watch<T>>, C: SharedWaitContext<W>> Waits<C> for Reaching<Changed<W, T>> {
    ghost needs = { λ f. PlaceNeeds (λ w. watch.listed_by (W.part w)) W.lists [] f.future.ticket };

    ghost polls_reach = { λ f c r g d p. p.1 };

    ghost cancels_reach = { λ f c d p. p.1 };

    ghost covers = { λ f c g d p. places_cover C.number C.work C.reaches C.watcher C.reaches_itself C.same_number C.shared W.lists C.watches_places (λ w. watch.listed_by (W.part w)) W.place W.lists_part c d [] g.future.ticket p.1 (changed_stands C.number C.work (λ x. W.part (C.shared x)) f.future.seen f.future.ticket c g.future.ticket d p.0.0) };
}

// It needs its ticket.
impl<T: Drop, W: Holds<Oneshot<T>>, C: SharedWaitContext<W>> Waits<C>
    for Reaching<oneshot::Recv<W, T>> {
    ghost needs = { λ f. PlaceNeeds (λ w. one_message.listed_by (W.part w)) W.lists [] f.future.ticket };

    ghost polls_reach = { λ f c r g d p. p.1 };

    ghost cancels_reach = { λ f c d p. p.1 };

    ghost covers = { λ f c g d p. places_cover C.number C.work C.reaches C.watcher C.reaches_itself C.same_number C.shared W.lists C.watches_places (λ w. one_message.listed_by (W.part w)) W.place W.lists_part c d [] g.future.ticket p.1 (delivery_stands C.number C.work (λ x. W.part (C.shared x)) f.future.ticket c g.future.ticket d p.0.0) };
}

// It needs its ticket among the senders.
impl<T: Drop, S: Tally<T>, W: Holds<Tallied<T, S>>, C: SharedWaitContext<W>> Waits<C>
    for Reaching<tallies::Send<W, T, S>> {
    ghost needs = { λ f. SenderNeeds (λ w. channel.listed_by (W.part w).channel) W.lists f.future.ticket };

    ghost polls_reach = { λ f c r g d p. p.1 };

    ghost cancels_reach = { λ f c d p. p.1 };

    ghost covers = { λ f c g d p. places_cover C.number C.work C.reaches C.watcher C.reaches_itself C.same_number C.shared W.lists C.watches_places (λ w. channel.listed_by (W.part w).channel) W.place W.lists_part c d (zero ∷ []) g.future.ticket p.1 (send_stands (λ x. (W.part (C.shared x)).channel) C.number C.work f.future.message f.future.ticket c g.future.message g.future.ticket d p.0.0) };
}

// It needs its ticket among the receivers.
impl<T: Drop, S: Tally<T>, W: Holds<Tallied<T, S>>, C: SharedWaitContext<W>> Waits<C>
    for Reaching<tallies::Recv<W, T, S>> {
    ghost needs = { λ f. ReceiverNeeds (λ w. channel.listed_by (W.part w).channel) W.lists f.future.ticket };

    ghost polls_reach = { λ f c r g d p. p.1 };

    ghost cancels_reach = { λ f c d p. p.1 };

    ghost covers = { λ f c g d p. places_cover C.number C.work C.reaches C.watcher C.reaches_itself C.same_number C.shared W.lists C.watches_places (λ w. channel.listed_by (W.part w).channel) W.place W.lists_part c d (suc zero ∷ []) g.future.ticket p.1 (recv_stands (λ x. (W.part (C.shared x)).channel) C.number C.work f.future.ticket c g.future.ticket d p.0.0) };
}

// It needs its ticket.
impl<T, W, C, F> Waits<C> for Reaching<WaitFor<W, T, F>>
where
    T: Drop,
    W: Holds<Watch<T>>,
    C: SharedWaitContext<W>,
    F: Fn(&T) -> bool + Drop,
{
    ghost needs = { λ f. PlaceNeeds (λ w. watch.listed_by (W.part w)) W.lists [] f.future.ticket };

    fn tells_its_needs(&self) {}

    ghost polls_reach = { λ f c r g d p. p.1 };

    ghost cancels_reach = { λ f c d p. p.1 };

    ghost covers = { λ f c g d p. places_cover C.number C.work C.reaches C.watcher C.reaches_itself C.same_number C.shared W.lists C.watches_places (λ w. watch.listed_by (W.part w)) W.place W.lists_part c d [] g.future.ticket p.1 (wait_for_stands (λ x. W.part (C.shared x)) C.number C.work (FnReturnsAt F.Fn f.future.func) f.future.ticket c g.future.ticket d p.0.0) };
}

// It needs the tasks that open sessions, and its sleep.
impl<W: Lists<Leases>, C: SharedWaitContext<W>> Waits<C> for Reaching<Keeper<W>> {
    ghost needs = { λ f. KeeperNeeds f.future.phase };

    ghost polls_reach = { λ f c r g d p. p.1 };

    ghost cancels_reach = { λ f c d p. p.1 };

    ghost covers = { λ f c g d p. keepers_cover (frame_of C.number C.work C.reaches C.watcher C.reaches_itself C.reaches_on) (λ x. W.part (C.shared x)) C.sleeps C.nanos (λ x. W.names (C.shared x)) C.same_number C.watches_sleeps C.watches_peers (λ x t. W.names_part (C.shared x) t) c d p.1 f.future.phase g.future.phase p.0 };
}
