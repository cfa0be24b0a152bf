// The sources of futures over locks, barriers, cells and broadcasts of a value that tasks share: each waits at its ticket.
ghost use Rattle.std.specs.Prelude.{[]};
ghost use Rattle.mono_locks.specs.Barriers as barrier_calls;
ghost use Rattle.mono_locks.specs.Broadcasts as broadcast_calls;
ghost use Rattle.mono_locks.specs.Mutexes as mutex_calls;
ghost use Rattle.mono_locks.specs.OnceCells as once_cell_calls;
ghost use Rattle.mono_locks.specs.RwLocks as rwlock_calls;
ghost use Rattle.mono_wait.specs.AskedTasks.{lock_stands, read_stands, write_stands, arrive_stands, init_stands, receive_stands};
ghost use Rattle.mono_wait.specs.Places.{PlaceNeeds, places_cover};

use crate::leaves::Reaching;
use crate::waits::{SharedWaitContext, Waits};
use mono_locks::Asking;
use mono_locks::barrier::{self, Barrier};
use mono_locks::broadcast::{self, Broadcast};
use mono_locks::mutex::{self, Mutex};
use mono_locks::once_cell::{self, OnceCell};
use mono_locks::rwlock::{self, RwLock};
use mono_sync::Holds;

// It needs its ticket.
impl<T: Drop, W: Holds<Mutex<T>>, C: SharedWaitContext<W>> Waits<C>
    for Reaching<Asking<W, mutex::LockCall<T>>> {
    ghost needs = { λ f. PlaceNeeds (λ w. mutex_calls.listed_by (W.part w)) W.lists [] f.future.ticket };

    ghost polls_reach = { λ f c r g d p. p.1 };

    ghost cancels_reach = { λ f c d p. p.1 };

    ghost covers = { λ f c g d p. places_cover C.number C.work C.reaches C.watcher C.reaches_itself C.same_number C.shared W.lists C.watches_places (λ w. mutex_calls.listed_by (W.part w)) W.place W.lists_part c d [] g.future.ticket p.1 (lock_stands W.part C.number C.shared C.work f.future.ticket c g.future.ticket d p.0.0) };
}

// It needs its ticket.
impl<T: Drop, W: Holds<RwLock<T>>, C: SharedWaitContext<W>> Waits<C>
    for Reaching<Asking<W, rwlock::ReadCall<T>>> {
    ghost needs = { λ f. PlaceNeeds (λ w. rwlock_calls.listed_by (W.part w)) W.lists [] f.future.ticket };

    ghost polls_reach = { λ f c r g d p. p.1 };

    ghost cancels_reach = { λ f c d p. p.1 };

    ghost covers = { λ f c g d p. places_cover C.number C.work C.reaches C.watcher C.reaches_itself C.same_number C.shared W.lists C.watches_places (λ w. rwlock_calls.listed_by (W.part w)) W.place W.lists_part c d [] g.future.ticket p.1 (read_stands W.part C.number C.shared C.work f.future.ticket c g.future.ticket d p.0.0) };
}

// It needs its ticket.
impl<T: Drop, W: Holds<RwLock<T>>, C: SharedWaitContext<W>> Waits<C>
    for Reaching<Asking<W, rwlock::WriteCall<T>>> {
    ghost needs = { λ f. PlaceNeeds (λ w. rwlock_calls.listed_by (W.part w)) W.lists [] f.future.ticket };

    ghost polls_reach = { λ f c r g d p. p.1 };

    ghost cancels_reach = { λ f c d p. p.1 };

    ghost covers = { λ f c g d p. places_cover C.number C.work C.reaches C.watcher C.reaches_itself C.same_number C.shared W.lists C.watches_places (λ w. rwlock_calls.listed_by (W.part w)) W.place W.lists_part c d [] g.future.ticket p.1 (write_stands W.part C.number C.shared C.work f.future.ticket c g.future.ticket d p.0.0) };
}

// It needs its ticket.
impl<W: Holds<Barrier>, C: SharedWaitContext<W>> Waits<C>
    for Reaching<Asking<W, barrier::WaitCall>> {
    ghost needs = { λ f. PlaceNeeds (λ w. barrier_calls.listed_by (W.part w)) W.lists [] f.future.ticket };

    ghost polls_reach = { λ f c r g d p. p.1 };

    ghost cancels_reach = { λ f c d p. p.1 };

    ghost covers = { λ f c g d p. places_cover C.number C.work C.reaches C.watcher C.reaches_itself C.same_number C.shared W.lists C.watches_places (λ w. barrier_calls.listed_by (W.part w)) W.place W.lists_part c d [] g.future.ticket p.1 (arrive_stands W.part C.number C.shared C.work f.future.ticket c g.future.ticket d p.0.0) };
}

// It needs its ticket.
impl<T: Drop, W: Holds<OnceCell<T>>, C: SharedWaitContext<W>> Waits<C>
    for Reaching<Asking<W, once_cell::InitCall<T>>> {
    ghost needs = { λ f. PlaceNeeds (λ w. once_cell_calls.listed_by (W.part w)) W.lists [] f.future.ticket };

    ghost polls_reach = { λ f c r g d p. p.1 };

    ghost cancels_reach = { λ f c d p. p.1 };

    ghost covers = { λ f c g d p. places_cover C.number C.work C.reaches C.watcher C.reaches_itself C.same_number C.shared W.lists C.watches_places (λ w. once_cell_calls.listed_by (W.part w)) W.place W.lists_part c d [] g.future.ticket p.1 (init_stands W.part C.number C.shared C.work f.future.ticket c g.future.ticket d p.0.0) };
}

// It needs its ticket.
impl<T: Copy + Drop, W: Holds<Broadcast<T>>, C: SharedWaitContext<W>> Waits<C>
    for Reaching<Asking<W, broadcast::RecvCall<T>>> {
    ghost needs = { λ f. PlaceNeeds (λ w. broadcast_calls.listed_by (W.part w)) W.lists [] f.future.ticket };

    ghost polls_reach = { λ f c r g d p. p.1 };

    ghost cancels_reach = { λ f c d p. p.1 };

    ghost covers = { λ f c g d p. places_cover C.number C.work C.reaches C.watcher C.reaches_itself C.same_number C.shared W.lists C.watches_places (λ w. broadcast_calls.listed_by (W.part w)) W.place W.lists_part c d [] g.future.ticket p.1 (receive_stands f.future.call.receiver.next W.part C.number C.shared C.work f.future.ticket c g.future.ticket d p.0.0) };
}
