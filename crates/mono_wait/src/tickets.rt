// The places of futures that wait in a line of a shared value: each waits at its ticket.
ghost use Rattle.std.specs.Prelude.{[], ◌∷◌, zero, suc};
ghost use Rattle.mono_sync.specs.Mpsc as channel;
ghost use Rattle.mono_sync.specs.Semaphores as semaphore;
ghost use Rattle.mono_sync.specs.Notices as notice;
ghost use Rattle.mono_sync.specs.Watches as watch;
ghost use Rattle.mono_sync.specs.Oneshot as oneshot;
ghost use Rattle.mono_wait.specs.WaitPlaces.{AtTicket, at_ticket};
ghost use Rattle.mono_wait.specs.ListedTasks.{stands_at, send_stands, recv_stands, acquire_stands, notified_stands, changed_stands, delivery_stands, wait_for_stands};
ghost use Rattle.std.specs.Fn.{FnReturnsAt};

use crate::leaves::Reaching;
use crate::placed::WaitsIn;
use crate::waits::SharedWaitContext;
use mono_sync::mpsc::{Channel, Recv, Send};
use mono_sync::oneshot::{self, Oneshot};
use mono_sync::tallies::{self, Tallied, Tally};
use mono_sync::watch::{Changed, WaitFor, Watch};
use mono_sync::{Acquire, Holds, Notified, Notify, Semaphore};

// It waits at its ticket among the senders.
impl<T: Drop, W: Holds<Channel<T>>, C: SharedWaitContext<W>> WaitsIn<W, C>
    for Reaching<Send<W, T>> {
    ghost waits_in = { λ f. AtTicket (λ w. channel.listed_by (W.part w)) W.lists (zero ∷ []) f.future.ticket };

    ghost listed = { λ f c g d q. at_ticket (λ w. channel.listed_by (W.part w)) W.lists (C.shared d) (zero ∷ []) g.future.ticket (C.number c) (C.number d) (C.same_number c d q.1) (λ k is. stands_at (W.part (C.shared d)).senders g.future.ticket (C.number c) (send_stands (λ x. W.part (C.shared x)) C.number C.work f.future.message f.future.ticket c g.future.message g.future.ticket d q.0.0) k is) };
}

// It waits at its ticket among the receivers.
impl<T: Drop, W: Holds<Channel<T>>, C: SharedWaitContext<W>> WaitsIn<W, C>
    for Reaching<Recv<W, T>> {
    ghost waits_in = { λ f. AtTicket (λ w. channel.listed_by (W.part w)) W.lists (suc zero ∷ []) f.future.ticket };

    ghost listed = { λ f c g d q. at_ticket (λ w. channel.listed_by (W.part w)) W.lists (C.shared d) (suc zero ∷ []) g.future.ticket (C.number c) (C.number d) (C.same_number c d q.1) (λ k is. stands_at (W.part (C.shared d)).receivers g.future.ticket (C.number c) (recv_stands (λ x. W.part (C.shared x)) C.number C.work f.future.ticket c g.future.ticket d q.0.0) k is) };
}

// It waits at its ticket.
impl<W: Holds<Semaphore>, C: SharedWaitContext<W>> WaitsIn<W, C> for Reaching<Acquire<W>> {
    ghost waits_in = { λ f. AtTicket (λ w. semaphore.listed_by (W.part w)) W.lists [] f.future.ticket };

    ghost listed = { λ f c g d q. at_ticket (λ w. semaphore.listed_by (W.part w)) W.lists (C.shared d) [] g.future.ticket (C.number c) (C.number d) (C.same_number c d q.1) (λ k is. stands_at (W.part (C.shared d)).line g.future.ticket (C.number c) (acquire_stands C.number C.work (λ x. W.part (C.shared x)) f.future.ticket c g.future.ticket d q.0.0) k is) };
}

// It waits at its ticket.
impl<W: Holds<Notify>, C: SharedWaitContext<W>> WaitsIn<W, C> for Reaching<Notified<W>> {
    ghost waits_in = { λ f. AtTicket (λ w. notice.listed_by (W.part w)) W.lists [] f.future.ticket };

    ghost listed = { λ f c g d q. at_ticket (λ w. notice.listed_by (W.part w)) W.lists (C.shared d) [] g.future.ticket (C.number c) (C.number d) (C.same_number c d q.1) (λ k is. stands_at (W.part (C.shared d)).line g.future.ticket (C.number c) (notified_stands C.number C.work (λ x. W.part (C.shared x)) f.future.ticket c g.future.ticket d q.0.0) k is) };
}

// It waits at its ticket.
impl<T: Drop, W: Holds<Watch<T>>, C: SharedWaitContext<W>> WaitsIn<W, C>
    for Reaching<Changed<W, T>> {
    ghost waits_in = { λ f. AtTicket (λ w. watch.listed_by (W.part w)) W.lists [] f.future.ticket };

    ghost listed = { λ f c g d q. at_ticket (λ w. watch.listed_by (W.part w)) W.lists (C.shared d) [] g.future.ticket (C.number c) (C.number d) (C.same_number c d q.1) (λ k is. stands_at (W.part (C.shared d)).line g.future.ticket (C.number c) (changed_stands C.number C.work (λ x. W.part (C.shared x)) f.future.seen f.future.ticket c g.future.ticket d q.0.0) k is) };
}

// It waits at its ticket.
impl<T: Drop, W: Holds<Oneshot<T>>, C: SharedWaitContext<W>> WaitsIn<W, C>
    for Reaching<oneshot::Recv<W, T>> {
    ghost waits_in = { λ f. AtTicket (λ w. oneshot.listed_by (W.part w)) W.lists [] f.future.ticket };

    ghost listed = { λ f c g d q. at_ticket (λ w. oneshot.listed_by (W.part w)) W.lists (C.shared d) [] g.future.ticket (C.number c) (C.number d) (C.same_number c d q.1) (λ k is. stands_at (W.part (C.shared d)).line g.future.ticket (C.number c) (delivery_stands C.number C.work (λ x. W.part (C.shared x)) f.future.ticket c g.future.ticket d q.0.0) k is) };
}

// It waits at its ticket among the senders.
impl<T: Drop, S: Tally<T>, W: Holds<Tallied<T, S>>, C: SharedWaitContext<W>> WaitsIn<W, C>
    for Reaching<tallies::Send<W, T, S>> {
    ghost waits_in = { λ f. AtTicket (λ w. channel.listed_by (W.part w).channel) W.lists (zero ∷ []) f.future.ticket };

    ghost listed = { λ f c g d q. at_ticket (λ w. channel.listed_by (W.part w).channel) W.lists (C.shared d) (zero ∷ []) g.future.ticket (C.number c) (C.number d) (C.same_number c d q.1) (λ k is. stands_at (W.part (C.shared d)).channel.senders g.future.ticket (C.number c) (send_stands (λ x. (W.part (C.shared x)).channel) C.number C.work f.future.message f.future.ticket c g.future.message g.future.ticket d q.0.0) k is) };
}

// It waits at its ticket among the receivers.
impl<T: Drop, S: Tally<T>, W: Holds<Tallied<T, S>>, C: SharedWaitContext<W>> WaitsIn<W, C>
    for Reaching<tallies::Recv<W, T, S>> {
    ghost waits_in = { λ f. AtTicket (λ w. channel.listed_by (W.part w).channel) W.lists (suc zero ∷ []) f.future.ticket };

    ghost listed = { λ f c g d q. at_ticket (λ w. channel.listed_by (W.part w).channel) W.lists (C.shared d) (suc zero ∷ []) g.future.ticket (C.number c) (C.number d) (C.same_number c d q.1) (λ k is. stands_at (W.part (C.shared d)).channel.receivers g.future.ticket (C.number c) (recv_stands (λ x. (W.part (C.shared x)).channel) C.number C.work f.future.ticket c g.future.ticket d q.0.0) k is) };
}

// It waits at its ticket.
impl<T, W, C, F> WaitsIn<W, C> for Reaching<WaitFor<W, T, F>>
where
    T: Drop,
    W: Holds<Watch<T>>,
    C: SharedWaitContext<W>,
    F: Fn(&T) -> bool + Drop,
{
    ghost waits_in = { λ f. AtTicket (λ w. watch.listed_by (W.part w)) W.lists [] f.future.ticket };

    fn tells_its_places(&self) {}

    ghost listed = { λ f c g d q. at_ticket (λ w. watch.listed_by (W.part w)) W.lists (C.shared d) [] g.future.ticket (C.number c) (C.number d) (C.same_number c d q.1) (λ k is. stands_at (W.part (C.shared d)).line g.future.ticket (C.number c) (wait_for_stands (λ x. W.part (C.shared x)) C.number C.work (FnReturnsAt F.Fn f.future.func) f.future.ticket c g.future.ticket d q.0.0) k is) };
}
