// Examples of runs of the machine.
ghost use Rattle.mono_machine.specs.Examples.{DeadlineIsNow, BothRoundings, NoneIsEarly, NoneIsLeftOut, FarSleeps, Ties, WokenInOwnTurn, LatestWaker, EndOfTheType, ClockGoesBack, LateMove, RefusalFirst, RefusalInTheMiddle, NoRoomFirst, RefusalsOfJoin, DoublesInInbox, TwoCauses, NoPool, OnTheCaller, OnAThread, JobsThatEnd, EndOfJobWakesNobody, CanceledIsToldOnce, WakesInOrder, LatestWaiter, LatestWaiterOfJob, NotedTwice, WhoIsListed, FinishesInTheInbox, QueuedStaysInPlace, ResetOfAFreshSleep, DroppedSleepWakesNobody, MovedEarlierIsLast, MovedEarlierKeepsWaker, FinishedTakesRoom, NoHandleTakesRoom, WaitsForItself, TakenHasFinished, DueIsNotElapsed, AscendingTicks, DoneIsNotListed, PollKeepsItsPlace, NoneFiresBeforeAnEarlier, NoneFiresBeforeItsTurn, NoneFiresTwice, WhomAWakeNames};

/// Shows that a sleep whose deadline is now has elapsed at its first poll.
pub fn deadline_is_now()
    ensures { DeadlineIsNow }
{}

/// Shows that a deadline is rounded up to its tick, and a clock value down.
pub fn both_roundings()
    ensures { BothRoundings }
{}

/// Shows that a report that a sleep fired a nanosecond early is no report of the machine.
pub fn none_is_early()
    ensures { NoneIsEarly }
{}

/// Shows that a report that leaves out a sleep which is due is no report of the machine.
pub fn none_is_left_out()
    ensures { NoneIsLeftOut }
{}

/// Shows that the nearer of two sleeps far apart fires at its tick.
pub fn far_sleeps()
    ensures { FarSleeps }
{}

/// Shows that sleeps of one tick fire in the order in which they were armed.
pub fn ties()
    ensures { Ties }
{}

/// Shows that a task that is woken in its own turn runs again, after the others.
pub fn woken_in_own_turn()
    ensures { WokenInOwnTurn }
{}

/// Shows that the task that polled a sleep last is woken, of two that polled it.
pub fn latest_waker()
    ensures { LatestWaker }
{}

/// Shows that the greatest deadline and the greatest clock value are accepted, and the next above each is refused. A
/// reset to the greatest deadline elapses at once if the clock has reached it.
pub fn end_of_the_type()
    ensures { EndOfTheType }
{}

/// Shows that a clock that goes back leaves the greatest tick, so that a reset to a deadline below it elapses at once.
pub fn clock_goes_back()
    ensures { ClockGoesBack }
{}

/// Shows that a sleep that was moved to a later deadline fires there.
pub fn late_move()
    ensures { LateMove }
{}

/// Shows that a refused turn does no step.
pub fn refusal_first()
    ensures { RefusalFirst }
{}

/// Shows that a refusal in the middle of a turn does not end it.
pub fn refusal_in_the_middle()
    ensures { RefusalInTheMiddle }
{}

/// Shows that the first of two causes that hold is the answer.
pub fn no_room_first()
    ensures { NoRoomFirst }
{}

/// Shows that the refusals of a join come in their order, and an output is handed out once.
pub fn refusals_of_join()
    ensures { RefusalsOfJoin }
{}

/// Shows that a task that waits in the inbox is not listed again, and the drain wakes it once.
pub fn doubles_in_inbox()
    ensures { DoublesInInbox }
{}

/// Shows that with no room, also a job that may not be made here is refused for want of room.
pub fn two_causes()
    ensures { TwoCauses }
{}

/// Shows that a job is refused if jobs run nowhere.
pub fn no_pool()
    ensures { NoPool }
{}

/// Shows that a job has ended once it is made if jobs run on the caller.
pub fn on_the_caller()
    ensures { OnTheCaller }
{}

/// Shows that the end of a job answers its waiter if jobs run on threads, and wakes no task.
pub fn on_a_thread()
    ensures { OnAThread }
{}

/// Shows that the end of a dropped job changes nothing, and no output comes out of a canceled one.
pub fn jobs_that_end()
    ensures { JobsThatEnd }
{}

/// Shows that the end of a job answers its waiter and wakes no task: the task has a turn once a wake from a thread is
/// drained.
pub fn end_of_job_wakes_nobody()
    ensures { EndOfJobWakesNobody }
{}

/// Shows that a canceled job is reported once; then it is taken, has finished, and its handle can be dropped.
pub fn canceled_is_told_once()
    ensures { CanceledIsToldOnce }
{}

/// Shows that a clock step wakes in the order in which it fires.
pub fn wakes_in_order()
    ensures { WakesInOrder }
{}

/// Shows that the task that polled a join handle last is woken, of two that polled it.
pub fn latest_waiter()
    ensures { LatestWaiter }
{}

/// Shows that the task that polled a job last is answered at its end, of two that polled it.
pub fn latest_waiter_of_job()
    ensures { LatestWaiterOfJob }
{}

/// Shows that a task that wakes itself twice in its turn runs once more, and one that wakes itself in its last turn
/// does not.
pub fn noted_twice()
    ensures { NotedTwice }
{}

/// Shows that a wake from a thread lists a queued task and one without a handle, but no finished task. A task that
/// finishes once it is listed comes out of the drain and has no turn.
pub fn who_is_listed()
    ensures { WhoIsListed }
{}

/// Shows that a task that finishes while it waits in the inbox is not listed again, and comes out of the drain.
pub fn finishes_in_the_inbox()
    ensures { FinishesInTheInbox }
{}

/// Shows that a wake of a queued task leaves its place in the queue.
pub fn queued_stays_in_place()
    ensures { QueuedStaysInPlace }
{}

/// Shows that a reset arms a sleep that was never polled, and one that has fired, which then is no longer elapsed.
pub fn reset_of_a_fresh_sleep()
    ensures { ResetOfAFreshSleep }
{}

/// Shows that the drop of a polled sleep wakes no task, and the sleep does not fire.
pub fn dropped_sleep_wakes_nobody()
    ensures { DroppedSleepWakesNobody }
{}

/// Shows that a sleep that is moved to an earlier tick fires after those that were armed for it before.
pub fn moved_earlier_is_last()
    ensures { MovedEarlierIsLast }
{}

/// Shows that a sleep that is moved to an earlier tick wakes the task that polled it, and is ready at every further
/// poll.
pub fn moved_earlier_keeps_waker()
    ensures { MovedEarlierKeepsWaker }
{}

/// Shows that a task or job that has ended takes room until its handle is dropped.
pub fn finished_takes_room()
    ensures { FinishedTakesRoom }
{}

/// Shows that a task without a handle takes room until it has finished, and then is removed.
pub fn no_handle_takes_room()
    ensures { NoHandleTakesRoom }
{}

/// Shows that a task that polled its own handle is not queued by its end.
pub fn waits_for_itself()
    ensures { WaitsForItself }
{}

/// Shows that a task whose output was taken has finished.
pub fn taken_has_finished()
    ensures { TakenHasFinished }
{}

/// Shows that a sleep whose deadline is now is not elapsed before it is polled.
pub fn due_is_not_elapsed()
    ensures { DueIsNotElapsed }
{}

/// Shows that a clock step fires in the order of the ticks, whatever was armed first.
pub fn ascending_ticks()
    ensures { AscendingTicks }
{}

/// Shows that a task that has finished is not listed, even if its handle is kept.
pub fn done_is_not_listed()
    ensures { DoneIsNotListed }
{}

/// Shows that a further poll of an armed sleep leaves its place within its tick.
pub fn poll_keeps_its_place()
    ensures { PollKeepsItsPlace }
{}

/// Shows that a sleep may not fire before one of an earlier tick.
pub fn none_fires_before_an_earlier()
    ensures { NoneFiresBeforeAnEarlier }
{}

/// Shows that a sleep may not fire before one that was armed earlier for the same tick.
pub fn none_fires_before_its_turn()
    ensures { NoneFiresBeforeItsTurn }
{}

/// Shows that a sleep may not fire twice in one clock step.
pub fn none_fires_twice()
    ensures { NoneFiresTwice }
{}

/// Shows that a wake is one of the task that it names, whatever it answers, and that a refused turn wakes nobody.
pub fn whom_a_wake_names()
    ensures { WhomAWakeNames }
{}
