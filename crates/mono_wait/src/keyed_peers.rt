// The sources of futures over one of many parts of a value that tasks share: each waits under its key, at its ticket.
ghost use Rattle.std.specs.Prelude.{[], ◌∷◌, zero, suc};
ghost use Rattle.mono_sync.specs.Mpsc as channel_calls;
ghost use Rattle.mono_sync.specs.Semaphores as semaphore_calls;
ghost use Rattle.mono_sync.specs.Notices as notice_calls;
ghost use Rattle.mono_sync.specs.Watches as watch_calls;
ghost use Rattle.mono_sync.specs.Oneshot as oneshot_calls;
ghost use Rattle.mono_sync.specs.Many.{lists_each};
ghost use Rattle.mono_wait.specs.Places.{PlaceNeeds, places_cover};
ghost use Rattle.mono_wait.specs.KeyedTasks.{send_at_stands, recv_at_stands, acquire_at_stands, notified_at_stands, changed_at_stands, deliver_at_stands, keeps_key};

use crate::leaves::Reaching;
use crate::waits::{SharedWaitContext, Waits};
use mono_sync::mpsc::{self, Channel};
use mono_sync::oneshot::{self, Oneshot};
use mono_sync::watch::{self, Watch};
use mono_sync::{AcquireAt, Holds, Many, NotifiedAt, Notify, Semaphore};

// It needs its ticket among the senders of its key.
impl<T: Drop, W: Holds<Many<Channel<T>>>, C: SharedWaitContext<W>> Waits<C>
    for Reaching<mpsc::SendAt<W, T>> {
    ghost needs = { λ f. PlaceNeeds (λ w. lists_each channel_calls.listed_by (W.part w)) W.lists (f.future.key ∷ zero ∷ []) f.future.ticket };

    ghost polls_reach = { λ f c r g d p. p.1 };

    ghost cancels_reach = { λ f c d p. p.1 };

    ghost covers = { λ f c g d p. places_cover C.number C.work C.reaches C.watcher C.reaches_itself C.same_number C.shared W.lists C.watches_places (λ w. lists_each channel_calls.listed_by (W.part w)) W.place W.lists_part c d (g.future.key ∷ zero ∷ []) g.future.ticket p.1 (keeps_key channel_calls.listed_by (W.part (C.shared d)) f.future.key g.future.key (zero ∷ []) g.future.ticket (C.number c) p.0.1 (send_at_stands (λ x. W.part (C.shared x)) C.number C.work f.future.key f.future.message f.future.ticket c g.future.message g.future.ticket d p.0.0)) };
}

// It needs its ticket among the receivers of its key.
impl<T: Drop, W: Holds<Many<Channel<T>>>, C: SharedWaitContext<W>> Waits<C>
    for Reaching<mpsc::RecvAt<W, T>> {
    ghost needs = { λ f. PlaceNeeds (λ w. lists_each channel_calls.listed_by (W.part w)) W.lists (f.future.key ∷ suc zero ∷ []) f.future.ticket };

    ghost polls_reach = { λ f c r g d p. p.1 };

    ghost cancels_reach = { λ f c d p. p.1 };

    ghost covers = { λ f c g d p. places_cover C.number C.work C.reaches C.watcher C.reaches_itself C.same_number C.shared W.lists C.watches_places (λ w. lists_each channel_calls.listed_by (W.part w)) W.place W.lists_part c d (g.future.key ∷ suc zero ∷ []) g.future.ticket p.1 (keeps_key channel_calls.listed_by (W.part (C.shared d)) f.future.key g.future.key (suc zero ∷ []) g.future.ticket (C.number c) p.0.1 (recv_at_stands (λ x. W.part (C.shared x)) C.number C.work f.future.key f.future.ticket c g.future.ticket d p.0.0)) };
}

// It needs its ticket under its key.
impl<W: Holds<Many<Semaphore>>, C: SharedWaitContext<W>> Waits<C> for Reaching<AcquireAt<W>> {
    ghost needs = { λ f. PlaceNeeds (λ w. lists_each semaphore_calls.listed_by (W.part w)) W.lists (f.future.key ∷ []) f.future.ticket };

    ghost polls_reach = { λ f c r g d p. p.1 };

    ghost cancels_reach = { λ f c d p. p.1 };

    ghost covers = { λ f c g d p. places_cover C.number C.work C.reaches C.watcher C.reaches_itself C.same_number C.shared W.lists C.watches_places (λ w. lists_each semaphore_calls.listed_by (W.part w)) W.place W.lists_part c d (g.future.key ∷ []) g.future.ticket p.1 (keeps_key semaphore_calls.listed_by (W.part (C.shared d)) f.future.key g.future.key ([]) g.future.ticket (C.number c) p.0.1 (acquire_at_stands C.number C.work f.future.key (λ x. W.part (C.shared x)) f.future.ticket c g.future.ticket d p.0.0)) };
}

// It needs its ticket under its key.
impl<W: Holds<Many<Notify>>, C: SharedWaitContext<W>> Waits<C> for Reaching<NotifiedAt<W>> {
    ghost needs = { λ f. PlaceNeeds (λ w. lists_each notice_calls.listed_by (W.part w)) W.lists (f.future.key ∷ []) f.future.ticket };

    ghost polls_reach = { λ f c r g d p. p.1 };

    ghost cancels_reach = { λ f c d p. p.1 };

    ghost covers = { λ f c g d p. places_cover C.number C.work C.reaches C.watcher C.reaches_itself C.same_number C.shared W.lists C.watches_places (λ w. lists_each notice_calls.listed_by (W.part w)) W.place W.lists_part c d (g.future.key ∷ []) g.future.ticket p.1 (keeps_key notice_calls.listed_by (W.part (C.shared d)) f.future.key g.future.key ([]) g.future.ticket (C.number c) p.0.1 (notified_at_stands C.number C.work f.future.key (λ x. W.part (C.shared x)) f.future.ticket c g.future.ticket d p.0.0)) };
}

// It needs its ticket under its key.
impl<T: Drop, W: Holds<Many<Watch<T>>>, C: SharedWaitContext<W>> Waits<C>
    for Reaching<watch::ChangedAt<W, T>> {
    ghost needs = { λ f. PlaceNeeds (λ w. lists_each watch_calls.listed_by (W.part w)) W.lists (f.future.key ∷ []) f.future.ticket };

    ghost polls_reach = { λ f c r g d p. p.1 };

    ghost cancels_reach = { λ f c d p. p.1 };

    ghost covers = { λ f c g d p. places_cover C.number C.work C.reaches C.watcher C.reaches_itself C.same_number C.shared W.lists C.watches_places (λ w. lists_each watch_calls.listed_by (W.part w)) W.place W.lists_part c d (g.future.key ∷ []) g.future.ticket p.1 (keeps_key watch_calls.listed_by (W.part (C.shared d)) f.future.key g.future.key ([]) g.future.ticket (C.number c) p.0.1 (changed_at_stands C.number C.work f.future.key (λ x. W.part (C.shared x)) f.future.seen f.future.ticket c g.future.ticket d p.0.0)) };
}

// It needs its ticket under its key.
impl<T: Drop, W: Holds<Many<Oneshot<T>>>, C: SharedWaitContext<W>> Waits<C>
    for Reaching<oneshot::RecvAt<W, T>> {
    ghost needs = { λ f. PlaceNeeds (λ w. lists_each oneshot_calls.listed_by (W.part w)) W.lists (f.future.key ∷ []) f.future.ticket };

    ghost polls_reach = { λ f c r g d p. p.1 };

    ghost cancels_reach = { λ f c d p. p.1 };

    ghost covers = { λ f c g d p. places_cover C.number C.work C.reaches C.watcher C.reaches_itself C.same_number C.shared W.lists C.watches_places (λ w. lists_each oneshot_calls.listed_by (W.part w)) W.place W.lists_part c d (g.future.key ∷ []) g.future.ticket p.1 (keeps_key oneshot_calls.listed_by (W.part (C.shared d)) f.future.key g.future.key ([]) g.future.ticket (C.number c) p.0.1 (deliver_at_stands (λ x. W.part (C.shared x)) C.number C.work f.future.key f.future.ticket c g.future.ticket d p.0.0)) };
}
