// The calls of leases that are a part of a shared value.
ghost use Rattle.std.specs.Prelude.{ℕ};
ghost use Rattle.mono_session.specs.Answers.{of_number, of_done};
ghost use Rattle.mono_session.specs.Calls as call;
ghost use Rattle.mono_time.specs.Instants.{nanos_of};
ghost use Rattle.mono_serve.specs.LeaseCalls.{ShownAt, Calls, Claims, Looks, GivesUp, Rests, Forgets, Then};
ghost use Rattle.mono_task.specs.Owed.{Keeps};

use crate::leases::{Claimed, Leases, Looked};
use mono_session::SessionError;
use mono_sync::Holds;
use mono_time::Instant;
use std::alloc::{AllocError, Global};

// Shows the sessions' clock an instant.
pub(crate) fn advance_part<W: Holds<Leases>>(
    whole: &mut W,
    alloc: Global,
    now: Instant,
) -> Result<(), AllocError>
    ensures answer { Then (ShownAt (W.part whole.old) (nanos_of now) result) (W.part whole.new) }
    ensures leads { W.leads whole.old whole.new }
    ensures keeps { (me : ℕ) → Keeps W.lists me whole.old whole.new }
{
    whole.part_mut().advance(alloc, now)
}

// Opens a session.
pub(crate) fn open_part<W: Holds<Leases>>(
    whole: &mut W,
    alloc: Global,
    now: Instant,
    limit_ms: u64,
) -> Result<u64, SessionError>
    ensures answer { Then (Calls (W.part whole.old) (nanos_of now) (call.Open limit_ms) (of_number result)) (W.part whole.new) }
    ensures leads { W.leads whole.old whole.new }
    ensures keeps { (me : ℕ) → Keeps W.lists me whole.old whole.new }
{
    whole.part_mut().open(alloc, now, limit_ms)
}

// Renews a session.
pub(crate) fn beat_part<W: Holds<Leases>>(
    whole: &mut W,
    alloc: Global,
    now: Instant,
    session: u64,
) -> Result<(), SessionError>
    ensures answer { Then (Calls (W.part whole.old) (nanos_of now) (call.Beat session) (of_done result)) (W.part whole.new) }
    ensures leads { W.leads whole.old whole.new }
    ensures keeps { (me : ℕ) → Keeps W.lists me whole.old whole.new }
{
    whole.part_mut().beat(alloc, now, session)
}

// Closes a session.
pub(crate) fn close_part<W: Holds<Leases>>(
    whole: &mut W,
    alloc: Global,
    now: Instant,
    session: u64,
) -> Result<(), SessionError>
    ensures answer { Then (Calls (W.part whole.old) (nanos_of now) (call.Close session) (of_done result)) (W.part whole.new) }
    ensures leads { W.leads whole.old whole.new }
    ensures keeps { (me : ℕ) → Keeps W.lists me whole.old whole.new }
{
    whole.part_mut().close(alloc, now, session)
}

// Removes a session from the queue of a key.
pub(crate) fn release_part<W: Holds<Leases>>(
    whole: &mut W,
    alloc: Global,
    now: Instant,
    session: u64,
    key: u64,
) -> Result<(), SessionError>
    ensures answer { Then (Calls (W.part whole.old) (nanos_of now) (call.Release session key) (of_done result)) (W.part whole.new) }
    ensures leads { W.leads whole.old whole.new }
    ensures keeps { (me : ℕ) → Keeps W.lists me whole.old whole.new }
{
    whole.part_mut().release(alloc, now, session, key)
}

// Appends a session to the queue of a key.
pub(crate) fn acquire_part<W: Holds<Leases>>(
    whole: &mut W,
    alloc: Global,
    now: Instant,
    session: u64,
    key: u64,
    task: u64,
) -> Claimed
    ensures answer { Then (Claims (W.part whole.old) (nanos_of now) session key task result) (W.part whole.new) }
    ensures leads { W.leads whole.old whole.new }
    ensures keeps { (me : ℕ) → Keeps W.lists me whole.old whole.new }
{
    whole.part_mut().acquire(alloc, now, session, key, task)
}

// Answers a future that waits.
pub(crate) fn look_part<W: Holds<Leases>>(
    whole: &mut W,
    alloc: Global,
    now: Instant,
    ticket: u64,
    session: u64,
    key: u64,
    task: u64,
) -> Looked
    ensures answer { Then (Looks (W.part whole.old) (nanos_of now) ticket session key task result) (W.part whole.new) }
    ensures leads { W.leads whole.old whole.new }
    ensures keeps { Keeps W.lists task whole.old whole.new }
{
    whole
        .part_mut()
        .look(alloc, now, ticket, session, key, task)
}

// Takes a future out of the line, and its session out of the queue.
pub(crate) fn give_up_part<W: Holds<Leases>>(
    whole: &mut W,
    ticket: u64,
    session: u64,
    key: u64,
    me: u64,
)
    ensures answer { Then (GivesUp (W.part whole.old) ticket session key me) (W.part whole.new) }
    ensures leads { W.leads whole.old whole.new }
    ensures keeps { Keeps W.lists me whole.old whole.new }
{
    whole.part_mut().give_up(ticket, session, key, me)
}

// Notes the keeper's task.
pub(crate) fn rest_part<W: Holds<Leases>>(whole: &mut W, task: u64) -> Option<u64>
    ensures answer { Rests (W.part whole.old) task result (W.part whole.new) }
    ensures leads { W.leads whole.old whole.new }
    ensures keeps { (me : ℕ) → Keeps W.lists me whole.old whole.new }
{
    whole.part_mut().rest(task)
}

// Notes that a task is the keeper no longer.
pub(crate) fn forget_part<W: Holds<Leases>>(whole: &mut W, task: u64)
    ensures answer { Forgets (W.part whole.old) task (W.part whole.new) }
    ensures leads { W.leads whole.old whole.new }
    ensures keeps { (me : ℕ) → Keeps W.lists me whole.old whole.new }
{
    whole.part_mut().forget(task)
}
