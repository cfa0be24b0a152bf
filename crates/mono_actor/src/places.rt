// The entry of an actor, at its number: all but its messages.
ghost use Rattle.std.specs.Prelude.{◌≡◌, ◌<◌, ◌^◌, ◌==◌, None, MatchOption};
ghost use Rattle.mono_model.specs.Ticks.{down};
ghost use Rattle.mono_time.specs.Instants.{nanos_of};
ghost use Rattle.mono_actor.specs.Actors.{wait_from};
ghost use Rattle.mono_actor.specs.QueueInvariants.{is_queued};
ghost use Rattle.mono_actor.specs.Places.{mode_of, receipt_in, timing_in, rest_in, taken_by};
ghost use Rattle.mono_actor.specs.Entries.{entry_with, entry_in, notified, timed_entry, rested_entry};
ghost use Rattle.mono_actor.specs.declared.answers.Got.TheVariants as got;
ghost use Rattle.mono_actor.specs.declared.places.Mode.TheVariants as place;

use crate::answers::Got;
use crate::mailboxes::{Letter, Mailbox};
use mono_time::Instant;

/// The greatest tick for which an actor may wait.
const LAST_TICK: u64 = (1 << 63) - 1;

/// The mode of an actor: an idle one may wait for a tick.
#[derive(Clone, Copy, Drop)]
pub enum Mode {
    Idle(Option<u64>),
    Queued,
    Running,
}

/// An actor, with the ends of its mailbox and the key of its receive timeout. The timeout is in ticks, or 0 for none.
#[derive(Clone, Copy, Drop)]
pub struct Entry {
    pub mode: Mode,
    pub mailbox: Mailbox,
    pub timeout: u64,
    pub timer: usize,
}

/// The work after a message: its receiver is queued and its key no longer waits for this tick, or nothing.
#[derive(Clone, Copy, Drop)]
pub enum Receipt {
    Queues(usize, Option<u64>),
    Waits,
}

/// The work after a new timeout: a key no longer waits for the first tick and waits for the second, or nothing.
#[derive(Clone, Copy, Drop)]
pub enum Timing {
    Rearms(usize, Option<u64>, Option<u64>),
    Keeps,
}

/// The work after a turn: the actor is queued again, or its key waits for this tick.
#[derive(Clone, Copy, Drop)]
pub enum Rest {
    Again,
    Waits(usize, Option<u64>),
}

/// Returns the tick for which an actor waits from now on.
pub fn wait_from(now: u64, timeout: u64) -> Option<u64>
    ensures { result ≡ wait_from now timeout }
{
    if timeout == 0 {
        return None;
    }
    match now.checked_add(timeout) {
        None => None,
        Some(tick) => { if LAST_TICK < tick { None } else { Some(tick) } }
    }
}

/// Returns a new actor: it is idle and waits for no tick, its mailbox is empty, and it has no timeout.
pub fn new_entry(timer: usize) -> Entry
    ensures { result ≡ record { mode = place.Idle None; mailbox = record { first = 0; last = 0; count = 0 }; timeout = 0; timer = timer } }
{
    Entry {
        mode: Mode::Idle(None),
        mailbox: Mailbox {
            first: 0,
            last: 0,
            count: 0,
        },
        timeout: 0,
        timer,
    }
}

/// Stores the actor's mailbox.
#[inline(always)]
pub fn set_mailbox(entry: &mut Entry, mailbox: Mailbox)
    ensures { entry.new ≡ entry_with mailbox entry.old }
{
    entry.mailbox = mailbox;
}

/// Stores the actor's mailbox, which has one more message, and queues an idle actor.
#[inline(always)]
pub fn notify(entry: &mut Entry, mailbox: Mailbox) -> Receipt
    ensures becomes { entry.new ≡ notified mailbox entry.old }
    ensures receipt { result ≡ receipt_in entry.old.timer entry.old.mode }
{
    entry.mailbox = mailbox;
    match entry.mode {
        Mode::Idle(waits_for) => {
            entry.mode = Mode::Queued;
            Receipt::Queues(entry.timer, waits_for)
        }
        Mode::Queued | Mode::Running => Receipt::Waits,
    }
}

/// Sets the actor's timeout. An idle actor waits anew from now.
pub fn set_timeout(entry: &mut Entry, now: u64, timeout: u64) -> Timing
    ensures becomes { entry.new ≡ timed_entry now timeout entry.old }
    ensures timing { result ≡ timing_in now timeout entry.old.timer entry.old.mode }
{
    entry.timeout = timeout;
    match entry.mode {
        Mode::Idle(waits_for) => {
            let tick = wait_from(now, timeout);
            entry.mode = Mode::Idle(tick);
            Timing::Rearms(entry.timer, waits_for, tick)
        }
        Mode::Queued | Mode::Running => Timing::Keeps,
    }
}

/// Returns whether the actor is queued.
#[inline(always)]
pub fn is_queued(entry: &Entry) -> bool
    ensures { result ≡ is_queued (mode_of entry.now.mode) }
{
    match entry.mode {
        Mode::Queued => true,
        Mode::Idle(_) | Mode::Running => false,
    }
}

/// Begins the actor's turn.
#[inline(always)]
pub fn start(entry: &mut Entry)
    ensures { entry.new ≡ entry_in place.Running entry.old }
{
    entry.mode = Mode::Running;
}

/// Returns the input of an actor's turn: its first message, or a timeout if there is none.
pub fn got_of<M>(letter: Option<Letter<M>>) -> Got<M>
    ensures { MatchOption letter (result ≡ got.Timeout) (λ l. result ≡ got.Message l.sender l.message) }
{
    match letter {
        None => Got::Timeout,
        Some(letter) => Got::Message(letter.sender, letter.message),
    }
}

/// Returns how many messages a turn takes at its start.
pub fn taken<M>(got: &Got<M>) -> u64
    ensures { result ≡ taken_by got.now }
{
    match got {
        Got::Message(_, _) => 1,
        Got::Timeout => 0,
    }
}

/// Ends the actor's turn, and keeps the actor.
#[inline(always)]
pub fn end_turn(entry: &mut Entry, now: u64) -> Rest
    ensures becomes { entry.new ≡ rested_entry now entry.old }
    ensures rest { result ≡ rest_in now entry.old.timer entry.old.timeout (entry.old.mailbox.count == 0) }
{
    if entry.mailbox.count == 0 {
        let tick = wait_from(now, entry.timeout);
        entry.mode = Mode::Idle(tick);
        Rest::Waits(entry.timer, tick)
    } else {
        entry.mode = Mode::Queued;
        Rest::Again
    }
}

/// The remains of an actor: its key, and the number of messages in its mailbox.
#[derive(Clone, Copy, Drop)]
pub struct Gone {
    pub timer: usize,
    pub letters: u64,
}

/// Returns the tick of a clock's reading: milliseconds, rounded down.
pub fn clock_tick(now: Instant) -> u64
    ensures tick { result ≡ down (nanos_of now) }
    ensures range { result < 2 ^ 63 }
{
    (now.as_nanos() / 1000000) as u64
}

/// Queues the actor, whose timeout has come.
#[inline(always)]
pub fn ring(entry: &mut Entry)
    ensures { entry.new ≡ entry_in place.Queued entry.old }
{
    entry.mode = Mode::Queued;
}
