// The places of futures that wait in the queue of a lock, a barrier, a cell or a broadcast: each waits at its ticket.
ghost use Rattle.std.specs.Prelude.{[]};
ghost use Rattle.mono_locks.specs.Barriers as barrier_calls;
ghost use Rattle.mono_locks.specs.Broadcasts as broadcast_calls;
ghost use Rattle.mono_locks.specs.Mutexes as mutex_calls;
ghost use Rattle.mono_locks.specs.OnceCells as once_cell_calls;
ghost use Rattle.mono_locks.specs.RwLocks as rwlock_calls;
ghost use Rattle.mono_wait.specs.AskedTasks.{queued_at, lock_stands, read_stands, write_stands, arrive_stands, init_stands, receive_stands};
ghost use Rattle.mono_wait.specs.WaitPlaces.{AtTicket, at_ticket};

use crate::leaves::Reaching;
use crate::placed::WaitsIn;
use crate::waits::SharedWaitContext;
use mono_locks::Asking;
use mono_locks::barrier::{self, Barrier};
use mono_locks::broadcast::{self, Broadcast};
use mono_locks::mutex::{self, Mutex};
use mono_locks::once_cell::{self, OnceCell};
use mono_locks::rwlock::{self, RwLock};
use mono_sync::Holds;

// It waits at its ticket.
impl<T: Drop, W: Holds<Mutex<T>>, C: SharedWaitContext<W>> WaitsIn<W, C>
    for Reaching<Asking<W, mutex::LockCall<T>>> {
    ghost waits_in = { λ f. AtTicket (λ w. mutex_calls.listed_by (W.part w)) W.lists [] f.future.ticket };

    ghost listed = { λ f c g d q. at_ticket (λ w. mutex_calls.listed_by (W.part w)) W.lists (C.shared d) [] g.future.ticket (C.number c) (C.number d) (C.same_number c d q.1) (λ k is. queued_at (W.part (C.shared d)).queue g.future.ticket (C.number c) (lock_stands W.part C.number C.shared C.work f.future.ticket c g.future.ticket d q.0.0) k is) };
}

// It waits at its ticket.
impl<T: Drop, W: Holds<RwLock<T>>, C: SharedWaitContext<W>> WaitsIn<W, C>
    for Reaching<Asking<W, rwlock::ReadCall<T>>> {
    ghost waits_in = { λ f. AtTicket (λ w. rwlock_calls.listed_by (W.part w)) W.lists [] f.future.ticket };

    ghost listed = { λ f c g d q. at_ticket (λ w. rwlock_calls.listed_by (W.part w)) W.lists (C.shared d) [] g.future.ticket (C.number c) (C.number d) (C.same_number c d q.1) (λ k is. queued_at (W.part (C.shared d)).queue g.future.ticket (C.number c) (read_stands W.part C.number C.shared C.work f.future.ticket c g.future.ticket d q.0.0) k is) };
}

// It waits at its ticket.
impl<T: Drop, W: Holds<RwLock<T>>, C: SharedWaitContext<W>> WaitsIn<W, C>
    for Reaching<Asking<W, rwlock::WriteCall<T>>> {
    ghost waits_in = { λ f. AtTicket (λ w. rwlock_calls.listed_by (W.part w)) W.lists [] f.future.ticket };

    ghost listed = { λ f c g d q. at_ticket (λ w. rwlock_calls.listed_by (W.part w)) W.lists (C.shared d) [] g.future.ticket (C.number c) (C.number d) (C.same_number c d q.1) (λ k is. queued_at (W.part (C.shared d)).queue g.future.ticket (C.number c) (write_stands W.part C.number C.shared C.work f.future.ticket c g.future.ticket d q.0.0) k is) };
}

// It waits at its ticket.
impl<W: Holds<Barrier>, C: SharedWaitContext<W>> WaitsIn<W, C>
    for Reaching<Asking<W, barrier::WaitCall>> {
    ghost waits_in = { λ f. AtTicket (λ w. barrier_calls.listed_by (W.part w)) W.lists [] f.future.ticket };

    ghost listed = { λ f c g d q. at_ticket (λ w. barrier_calls.listed_by (W.part w)) W.lists (C.shared d) [] g.future.ticket (C.number c) (C.number d) (C.same_number c d q.1) (λ k is. queued_at (W.part (C.shared d)).queue g.future.ticket (C.number c) (arrive_stands W.part C.number C.shared C.work f.future.ticket c g.future.ticket d q.0.0) k is) };
}

// It waits at its ticket.
impl<T: Drop, W: Holds<OnceCell<T>>, C: SharedWaitContext<W>> WaitsIn<W, C>
    for Reaching<Asking<W, once_cell::InitCall<T>>> {
    ghost waits_in = { λ f. AtTicket (λ w. once_cell_calls.listed_by (W.part w)) W.lists [] f.future.ticket };

    ghost listed = { λ f c g d q. at_ticket (λ w. once_cell_calls.listed_by (W.part w)) W.lists (C.shared d) [] g.future.ticket (C.number c) (C.number d) (C.same_number c d q.1) (λ k is. queued_at (W.part (C.shared d)).queue g.future.ticket (C.number c) (init_stands W.part C.number C.shared C.work f.future.ticket c g.future.ticket d q.0.0) k is) };
}

// It waits at its ticket.
impl<T: Copy + Drop, W: Holds<Broadcast<T>>, C: SharedWaitContext<W>> WaitsIn<W, C>
    for Reaching<Asking<W, broadcast::RecvCall<T>>> {
    ghost waits_in = { λ f. AtTicket (λ w. broadcast_calls.listed_by (W.part w)) W.lists [] f.future.ticket };

    ghost listed = { λ f c g d q. at_ticket (λ w. broadcast_calls.listed_by (W.part w)) W.lists (C.shared d) [] g.future.ticket (C.number c) (C.number d) (C.same_number c d q.1) (λ k is. queued_at (W.part (C.shared d)).queue g.future.ticket (C.number c) (receive_stands f.future.call.receiver.next W.part C.number C.shared C.work f.future.ticket c g.future.ticket d q.0.0) k is) };
}
