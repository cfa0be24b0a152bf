//! Laws that hold over any calls of buckets, of leases and of mailboxes.
ghost use Rattle.mono_serve.specs.LeaseLaws.{ClosesOnTime, OneHolder, NoWakeIsLost, KeyIsHeld, KeeperIsInTime};
ghost use Rattle.mono_serve.specs.MailLaws.{ReceivedInOrder, WaitsInLine, NoMessageIsMissed};
ghost use Rattle.mono_serve.specs.Laws.{RateIsKept, FirstComeFirstServed, FirstIsOwed};

/// Shows that over any calls of any tasks a bucket gives at most the tokens that it had before, and one for each period
/// that has ended.
pub fn rate_is_kept()
    ensures { RateIsKept }
{}

/// Shows that the first task that waits for a bucket is the one that came first.
pub fn first_come_first_served()
    ensures { FirstComeFirstServed }
{}

/// Shows that a future that comes to be the first for its bucket, by a call of another one, is owed a wake.
pub fn first_is_owed()
    ensures { FirstIsOwed }
{}

/// Shows that a session that no call renews or closes is open if and only if the clock has not reached its closing tick.
pub fn closes_on_time()
    ensures { ClosesOnTime }
{}

/// Shows that once a future was told that its session holds a key, no other session holds it until the session releases
/// it or is closed.
pub fn one_holder()
    ensures { OneHolder }
{}

/// Shows that after a call each task in the line has its session in its key's queue behind another.
pub fn no_wake_is_lost()
    ensures { NoWakeIsLost }
{}

/// Shows that while a task waits at a key and nothing is owed, the key is held.
pub fn key_is_held()
    ensures { KeyIsHeld }
{}

/// Shows that a keeper that is owed no wake sleeps at most until the next session is to be closed.
pub fn keeper_is_in_time()
    ensures { KeeperIsInTime }
{}

/// Shows that over any calls of any tasks each message to an actor is received at most once, in the order in which they
/// were sent.
pub fn received_in_order<M>()
    ensures { ReceivedInOrder M }
{}

/// Shows that a future that waits for a message is in the line.
pub fn waits_in_line<M>()
    ensures { WaitsInLine M }
{}

/// Shows that after the wakes of a call no message waits for the actor of a task in the line.
pub fn no_message_is_missed<M>()
    ensures { NoMessageIsMissed M }
{}
