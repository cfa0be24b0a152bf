// The places of futures over one of many parts of a shared value: each waits under its key, at its ticket.
ghost use Rattle.std.specs.Prelude.{[], ◌∷◌, zero, suc};
ghost use Rattle.mono_sync.specs.Mpsc as channel_calls;
ghost use Rattle.mono_sync.specs.Semaphores as semaphore_calls;
ghost use Rattle.mono_sync.specs.Notices as notice_calls;
ghost use Rattle.mono_sync.specs.Watches as watch_calls;
ghost use Rattle.mono_sync.specs.Oneshot as oneshot_calls;
ghost use Rattle.mono_sync.specs.Many.{lists_each};
ghost use Rattle.mono_wait.specs.WaitPlaces.{AtTicket, at_ticket};
ghost use Rattle.mono_wait.specs.KeyedTasks.{send_at_stands, recv_at_stands, acquire_at_stands, notified_at_stands, changed_at_stands, deliver_at_stands, only_at};

use crate::leaves::Reaching;
use crate::placed::WaitsIn;
use crate::waits::SharedWaitContext;
use mono_sync::mpsc::{self, Channel};
use mono_sync::oneshot::{self, Oneshot};
use mono_sync::watch::{self, Watch};
use mono_sync::{AcquireAt, Holds, Many, NotifiedAt, Notify, Semaphore};

// It waits under its key, at its ticket among the senders.
impl<T: Drop, W: Holds<Many<Channel<T>>>, C: SharedWaitContext<W>> WaitsIn<W, C>
    for Reaching<mpsc::SendAt<W, T>> {
    ghost waits_in = { λ f. AtTicket (λ w. lists_each channel_calls.listed_by (W.part w)) W.lists (f.future.key ∷ zero ∷ []) f.future.ticket };

    ghost listed = { λ f c g d q. at_ticket (λ w. lists_each channel_calls.listed_by (W.part w)) W.lists (C.shared d) (g.future.key ∷ zero ∷ []) g.future.ticket (C.number c) (C.number d) (C.same_number c d q.1) (only_at channel_calls.listed_by (W.part (C.shared d)) f.future.key g.future.key (zero ∷ []) g.future.ticket (C.number c) q.0.1 (send_at_stands (λ x. W.part (C.shared x)) C.number C.work f.future.key f.future.message f.future.ticket c g.future.message g.future.ticket d q.0.0)) };
}

// It waits under its key, at its ticket among the receivers.
impl<T: Drop, W: Holds<Many<Channel<T>>>, C: SharedWaitContext<W>> WaitsIn<W, C>
    for Reaching<mpsc::RecvAt<W, T>> {
    ghost waits_in = { λ f. AtTicket (λ w. lists_each channel_calls.listed_by (W.part w)) W.lists (f.future.key ∷ suc zero ∷ []) f.future.ticket };

    ghost listed = { λ f c g d q. at_ticket (λ w. lists_each channel_calls.listed_by (W.part w)) W.lists (C.shared d) (g.future.key ∷ suc zero ∷ []) g.future.ticket (C.number c) (C.number d) (C.same_number c d q.1) (only_at channel_calls.listed_by (W.part (C.shared d)) f.future.key g.future.key (suc zero ∷ []) g.future.ticket (C.number c) q.0.1 (recv_at_stands (λ x. W.part (C.shared x)) C.number C.work f.future.key f.future.ticket c g.future.ticket d q.0.0)) };
}

// It waits under its key, at its ticket.
impl<W: Holds<Many<Semaphore>>, C: SharedWaitContext<W>> WaitsIn<W, C> for Reaching<AcquireAt<W>> {
    ghost waits_in = { λ f. AtTicket (λ w. lists_each semaphore_calls.listed_by (W.part w)) W.lists (f.future.key ∷ []) f.future.ticket };

    ghost listed = { λ f c g d q. at_ticket (λ w. lists_each semaphore_calls.listed_by (W.part w)) W.lists (C.shared d) (g.future.key ∷ []) g.future.ticket (C.number c) (C.number d) (C.same_number c d q.1) (only_at semaphore_calls.listed_by (W.part (C.shared d)) f.future.key g.future.key ([]) g.future.ticket (C.number c) q.0.1 (acquire_at_stands C.number C.work f.future.key (λ x. W.part (C.shared x)) f.future.ticket c g.future.ticket d q.0.0)) };
}

// It waits under its key, at its ticket.
impl<W: Holds<Many<Notify>>, C: SharedWaitContext<W>> WaitsIn<W, C> for Reaching<NotifiedAt<W>> {
    ghost waits_in = { λ f. AtTicket (λ w. lists_each notice_calls.listed_by (W.part w)) W.lists (f.future.key ∷ []) f.future.ticket };

    ghost listed = { λ f c g d q. at_ticket (λ w. lists_each notice_calls.listed_by (W.part w)) W.lists (C.shared d) (g.future.key ∷ []) g.future.ticket (C.number c) (C.number d) (C.same_number c d q.1) (only_at notice_calls.listed_by (W.part (C.shared d)) f.future.key g.future.key ([]) g.future.ticket (C.number c) q.0.1 (notified_at_stands C.number C.work f.future.key (λ x. W.part (C.shared x)) f.future.ticket c g.future.ticket d q.0.0)) };
}

// It waits under its key, at its ticket.
impl<T: Drop, W: Holds<Many<Watch<T>>>, C: SharedWaitContext<W>> WaitsIn<W, C>
    for Reaching<watch::ChangedAt<W, T>> {
    ghost waits_in = { λ f. AtTicket (λ w. lists_each watch_calls.listed_by (W.part w)) W.lists (f.future.key ∷ []) f.future.ticket };

    ghost listed = { λ f c g d q. at_ticket (λ w. lists_each watch_calls.listed_by (W.part w)) W.lists (C.shared d) (g.future.key ∷ []) g.future.ticket (C.number c) (C.number d) (C.same_number c d q.1) (only_at watch_calls.listed_by (W.part (C.shared d)) f.future.key g.future.key ([]) g.future.ticket (C.number c) q.0.1 (changed_at_stands C.number C.work f.future.key (λ x. W.part (C.shared x)) f.future.seen f.future.ticket c g.future.ticket d q.0.0)) };
}

// It waits under its key, at its ticket.
impl<T: Drop, W: Holds<Many<Oneshot<T>>>, C: SharedWaitContext<W>> WaitsIn<W, C>
    for Reaching<oneshot::RecvAt<W, T>> {
    ghost waits_in = { λ f. AtTicket (λ w. lists_each oneshot_calls.listed_by (W.part w)) W.lists (f.future.key ∷ []) f.future.ticket };

    ghost listed = { λ f c g d q. at_ticket (λ w. lists_each oneshot_calls.listed_by (W.part w)) W.lists (C.shared d) (g.future.key ∷ []) g.future.ticket (C.number c) (C.number d) (C.same_number c d q.1) (only_at oneshot_calls.listed_by (W.part (C.shared d)) f.future.key g.future.key ([]) g.future.ticket (C.number c) q.0.1 (deliver_at_stands (λ x. W.part (C.shared x)) C.number C.work f.future.key f.future.ticket c g.future.ticket d q.0.0)) };
}
