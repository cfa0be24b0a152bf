//! Laws that hold over any calls of locks, barriers, cells and broadcasts.
ghost use Rattle.mono_locks.specs.BarrierLaws.{NeverTooEarly, ShutUntilItOpens, OpensForAll, NoBarrierLiesIdle, PendingWaitIsListed, WaitTakesOutItsOwn};
ghost use Rattle.mono_locks.specs.BroadcastLaws.{KeepsTheLast, GetsEachInOrder, NothingAfterClose, NoBroadcastLiesIdle, PendingRecvIsListed, RecvTakesOutItsOwn};
ghost use Rattle.mono_locks.specs.MutexLaws.{HandedOn, AtMostOneGuard, LockersInOrder, NoMutexLiesIdle, PassedOn, PendingLockIsListed, LockTakesOutItsOwn};
ghost use Rattle.mono_locks.specs.OnceCellLaws.{SetOnce, OneTurnAtMost, NextTakesOver, InitsInOrder, NoCellLiesIdle, PendingInitIsListed, InitTakesOutItsOwn};
ghost use Rattle.mono_locks.specs.RwLockLaws.{WrittenOn, ReadersAreCounted, NoReaderBesideAWriter, NobodyOvertakes, RwLockInOrder, NoRwLockLiesIdle, PendingReadIsListed, PendingWriteIsListed, RwLockTakesOutItsOwn};

/// Shows that each guard of a mutex has the value that the guard before it was put back with.
pub fn values_are_handed_on<T>()
    ensures { HandedOn T }
{}

/// Shows that a mutex never has more than one guard that was not put back, and none while it is unlocked.
pub fn one_guard_at_most<T>()
    ensures { AtMostOneGuard T }
{}

/// Shows that of the tasks that wait for a mutex, the one that has waited longest is served first.
pub fn lockers_are_served_in_order<T>()
    ensures { LockersInOrder T }
{}

/// Shows that while a task waits for a mutex and nothing is owed, it is locked, or reserved for a task that was served.
pub fn no_mutex_lies_idle<T>()
    ensures { NoMutexLiesIdle T }
{}

/// Shows that a future that is given up after it was served passes the mutex on to the first task that waits.
pub fn a_lock_is_passed_on<T>()
    ensures { PassedOn T }
{}

/// Shows that a pending lock is listed with its task, at its ticket.
pub fn a_pending_lock_is_listed<T>()
    ensures { PendingLockIsListed T }
{}

/// Shows that a lock that asks or is given up takes out its own task alone, at its own ticket.
pub fn a_lock_takes_out_its_own<T>()
    ensures { LockTakesOutItsOwn T }
{}

/// Shows that each write guard of a lock has the value that the one before it was put back with. At most one is out.
pub fn one_writer_at_most<T>()
    ensures { WrittenOn T }
{}

/// Shows that the read guards that are out are those that were made and did not come back.
pub fn readers_are_counted<T>()
    ensures { ReadersAreCounted T }
{}

/// Shows that no read guard is out while a write guard is. So the value is there while a read guard is out.
pub fn readers_have_the_value<T>()
    ensures { NoReaderBesideAWriter T }
{}

/// Shows that while a task waits for a lock, no task that asks later has it before. So no reader overtakes a writer.
pub fn nobody_overtakes_a_writer<T>()
    ensures { NobodyOvertakes T }
{}

/// Shows that of the tasks that wait for a lock, the one that has waited longest is served first.
pub fn readers_and_writers_in_order<T>()
    ensures { RwLockInOrder T }
{}

/// Shows that while a lock owes nothing, the first task that waits asks for more than there is room for.
pub fn no_rwlock_lies_idle<T>()
    ensures { NoRwLockLiesIdle T }
{}

/// Shows that a pending read is listed with its task, at its ticket.
pub fn a_pending_read_is_listed<T>()
    ensures { PendingReadIsListed T }
{}

/// Shows that a pending write is listed with its task, at its ticket.
pub fn a_pending_write_is_listed<T>()
    ensures { PendingWriteIsListed T }
{}

/// Shows that a read or write that asks or is given up takes out its own task alone, at its own ticket.
pub fn a_reader_or_writer_takes_out_its_own<T>()
    ensures { RwLockTakesOutItsOwn T }
{}

/// Shows that the value that a cell was set to stays.
pub fn a_cell_is_set_once<T>()
    ensures { SetOnce T }
{}

/// Shows that at most one task at a time has the turn to make the value of a cell.
pub fn one_turn_at_most<T>()
    ensures { OneTurnAtMost T }
{}

/// Shows that a turn that is given back is owed to the first task that waits.
pub fn the_next_takes_over<T>()
    ensures { NextTakesOver T }
{}

/// Shows that of the tasks that wait for a cell, the one that has waited longest is served first.
pub fn turns_are_given_in_order<T>()
    ensures { InitsInOrder T }
{}

/// Shows that while a task waits for a cell and nothing is owed, the cell was not set, and the turn is not free.
pub fn no_cell_lies_idle<T>()
    ensures { NoCellLiesIdle T }
{}

/// Shows that a future that waits for a cell is listed with its task, at its ticket.
pub fn a_pending_init_is_listed<T>()
    ensures { PendingInitIsListed T }
{}

/// Shows that a future of a cell that asks or is given up takes out its own task alone, at its own ticket.
pub fn an_init_takes_out_its_own<T>()
    ensures { InitTakesOutItsOwn T }
{}

/// Shows that for each time that a barrier opened, as many futures came as it has parties.
pub fn a_barrier_never_opens_too_early()
    ensures { NeverTooEarly }
{}

/// Shows that a future that came to a barrier goes on only if it opened since.
pub fn a_barrier_is_shut_until_it_opens()
    ensures { ShutUntilItOpens }
{}

/// Shows that a barrier that opens owes a wake to all tasks that wait.
pub fn a_barrier_opens_for_all()
    ensures { OpensForAll }
{}

/// Shows that while a task waits at a barrier and nothing is owed, it came after the barrier opened last.
pub fn no_barrier_lies_idle()
    ensures { NoBarrierLiesIdle }
{}

/// Shows that a future that waits at a barrier is listed with its task, at its ticket.
pub fn a_pending_wait_is_listed()
    ensures { PendingWaitIsListed }
{}

/// Shows that a future at a barrier that asks or is given up takes out its own task alone, at its own ticket.
pub fn a_wait_takes_out_its_own()
    ensures { WaitTakesOutItsOwn }
{}

/// Shows that a broadcast keeps the last messages, in order.
pub fn a_broadcast_keeps_the_last<T>()
    ensures { KeepsTheLast T }
{}

/// Shows that each receiver gets each message that was sent after it subscribed, in order, unless it lags behind it.
pub fn each_receiver_gets_each_message<T>()
    ensures { GetsEachInOrder T }
{}

/// Shows that once a broadcast was closed, no message is sent.
pub fn nothing_is_sent_after_close<T>()
    ensures { NothingAfterClose T }
{}

/// Shows that while a task waits at a broadcast and nothing is owed, no message was sent since it came.
pub fn no_broadcast_lies_idle<T>()
    ensures { NoBroadcastLiesIdle T }
{}

/// Shows that a pending receiver of a broadcast is listed with its task, at its ticket.
pub fn a_pending_recv_is_listed<T>()
    ensures { PendingRecvIsListed T }
{}

/// Shows that a receiver's future that asks or is given up takes out its own task alone, at its own ticket.
pub fn a_recv_takes_out_its_own<T>()
    ensures { RecvTakesOutItsOwn T }
{}
