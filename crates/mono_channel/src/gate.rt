// What the ends of a channel share under its lock: who waits, and whether the receiver closed the channel.
ghost use Rattle.std.specs.Prelude.{◌≡◌, true, false, [], ◌++◌, ◌∷◌, Some, None, Err, IfOk, IfErr, OnOk, MatchResult, MatchOption};
ghost use Rattle.crossbeam_queue.specs.Passes.{view, IsPassOf, IsSamePass, ruled_capacity};
ghost use Rattle.crossbeam_queue.specs.Fifo.{Held};
ghost use Rattle.mono_channel.specs.Queues.{IsQueued, HeldBelow};
ghost use Rattle.mono_channel.specs.Delivery.{Arrived, hand, sender};
ghost use Rattle.mono_channel.specs.Errors.{message_of, is_shut, is_disconnected, OnFull};
ghost use Rattle.mono_channel.specs.Standings.{standing};
ghost use Rattle.mono_channel.specs.Stakes.{IsStakeOf};
ghost use Rattle.mono_channel.specs.Lines.{Calls, spent};
ghost use Rattle.mono_channel.specs.declared.errors.TryRecvError.TheVariants.{Empty};

use crate::errors::{TryRecvError, TrySendError};
use crate::lines::Line;
use crate::rule::{End, Places, Queue, Received, Sent};
use crate::stakes::{SenderCount, Stake};
use crate::waiters::Waiter;
use mono_inbox::Unpark;
use mono_model::Host;
use std::alloc::Global;
use std::collections::BTreeMap;
use std::marker::Brand;
use std::mem;

/// Who waits at a channel, and whether its receiver closed it.
#[derive(Drop)]
pub(crate) struct Gate<U: Unpark> {
    alloc: Global,
    // whether the receiver closed the channel
    pub(crate) is_stopped: bool,
    // who waits to receive
    receiver: Option<Waiter<U>>,
    // those who wait to send
    pub(crate) line: Line<U>,
}

impl<U: Unpark> Gate<U> {
    /// Returns the gate of a new channel.
    pub(crate) fn new(alloc: Global) -> Gate<U>
        ensures open { result.is_stopped ≡ false }
        ensures none { (result.receiver ≡ None) × (result.line.waiters.entries ≡ []) }
    {
        Gate {
            alloc,
            is_stopped: false,
            receiver: None,
            line: Line::new(alloc),
        }
    }

    /// Closes the channel. Returns those who wait to send, by their seats.
    pub(crate) fn close(&mut self) -> BTreeMap<u64, Waiter<U>>
        ensures closed { self.new.is_stopped ≡ true }
        ensures woken { result.entries ≡ self.old.line.waiters.entries }
        ensures same { self.new.receiver ≡ self.old.receiver }
    {
        self.is_stopped = true;
        self.line.empty(self.alloc)
    }
}

/// Counts an open sender out. If it was the last, returns who waits to receive, who is to be woken.
pub(crate) fn leave<U: Unpark>(
    gate: &mut Gate<U>,
    senders: &SenderCount,
    stake: &mut Stake,
) -> Option<Waiter<U>>
    requires of { IsStakeOf senders.now stake.old }
    requires open { stake.old.me.0.senders ≡ 1 }
    ensures of { IsStakeOf senders.now stake.new }
    ensures counted { stake.new.me.0 ≡ standing 0 stake.new.me.0.over }
    ensures last { stake.new.me.0.over ≡ true → result ≡ gate.old.receiver }
    ensures others { stake.new.me.0.over ≡ false → (gate.new ≡ gate.old) × (result ≡ None) }
    ensures same { (gate.new.is_stopped ≡ gate.old.is_stopped) × (gate.new.line ≡ gate.old.line) }
{
    if senders.leave(stake) {
        mem::replace(&mut gate.receiver, None)
    } else {
        None
    }
}

// Queues a message, and returns who waits to receive, who is to be woken now. The waiter leaves the gate only if the
// message is queued.
fn put<T: Drop, U: Unpark, R: Host>(
    rt: &R,
    gate: &mut Gate<U>,
    queue: &Queue<T>,
    end: &mut End<T>,
    message: T,
) -> Result<Option<Waiter<U>>, TrySendError<T>>
    requires queue { IsPassOf queue.now end.old }
    requires sends { (view end.old).sends ≡ true }
    ensures queue { IsSamePass end.old end.new }
    ensures put { MatchResult result (λ first. (view end.new ≡ sender (view end.old).shares ((view end.old).sent ++ message ∷ [])) × (first ≡ gate.old.receiver) × (gate.new.receiver ≡ None)) (λ e. (message_of e ≡ message) × (view end.new ≡ view end.old) × (gate.new ≡ gate.old)) }
    ensures closed { MatchResult result (λ first. gate.old.is_stopped ≡ false) (λ e. is_shut e ≡ gate.old.is_stopped) }
    ensures full { OnFull result (Held (ruled_capacity queue.now) (IsQueued (view end.old).sent)) }
    ensures room { OnOk result (HeldBelow (ruled_capacity queue.now) (IsQueued (view end.old).sent)) }
    ensures same { (gate.new.is_stopped ≡ gate.old.is_stopped) × (gate.new.line ≡ gate.old.line) }
{
    if gate.is_stopped {
        return Err(TrySendError::Closed(message));
    }
    match push::<Brand, T, R>(rt, queue, end, message) {
        Ok(()) => Ok(mem::replace(&mut gate.receiver, None)),
        Err(message) => Err(TrySendError::Full(message)),
    }
}

/// Queues a message as `put` does, for a sender with this seat. If the message is queued, the sender waits no more, and
/// leaves the line.
pub(crate) fn send<T: Drop, U: Unpark, R: Host>(
    rt: &R,
    gate: &mut Gate<U>,
    queue: &Queue<T>,
    end: &mut End<T>,
    seat: &mut Option<u64>,
    message: T,
) -> Result<Option<Waiter<U>>, TrySendError<T>>
    requires queue { IsPassOf queue.now end.old }
    requires sends { (view end.old).sends ≡ true }
    ensures queue { IsSamePass end.old end.new }
    ensures put { MatchResult result (λ first. (view end.new ≡ sender (view end.old).shares ((view end.old).sent ++ message ∷ [])) × (first ≡ gate.old.receiver) × (gate.new.receiver ≡ None)) (λ e. (message_of e ≡ message) × (view end.new ≡ view end.old) × (gate.new ≡ gate.old)) }
    ensures closed { MatchResult result (λ first. gate.old.is_stopped ≡ false) (λ e. is_shut e ≡ gate.old.is_stopped) }
    ensures full { OnFull result (Held (ruled_capacity queue.now) (IsQueued (view end.old).sent)) }
    ensures room { OnOk result (HeldBelow (ruled_capacity queue.now) (IsQueued (view end.old).sent)) }
    ensures line { MatchResult result (λ first. (seat.new ≡ None) × (gate.new.line.waiters.entries ≡ spent seat.old gate.old.line.waiters.entries)) (λ e. seat.new ≡ seat.old) }
{
    let first = put(rt, gate, queue, end, message)?;
    gate.line.spend(seat);
    Ok(first)
}

// Queues a message if a place is left. Else it comes back.
fn push<P: Places, T: Drop, R: Host>(
    rt: &R,
    queue: &Queue<T>,
    end: &mut End<T>,
    message: T,
) -> Result<(), T>
    requires queue { IsPassOf queue.now end.old }
    requires sends { (view end.old).sends ≡ true }
    requires places { ruled_capacity queue.now ≡ P.places }
    ensures queue { IsSamePass end.old end.new }
    ensures sent { MatchResult result (λ done. (view end.new ≡ sender (view end.old).shares ((view end.old).sent ++ message ∷ [])) × HeldBelow P.places (IsQueued (view end.old).sent)) (λ back. (back ≡ message) × (view end.new ≡ view end.old) × Held P.places (IsQueued (view end.old).sent)) }
{
    queue.push_as::<Sent<P>, R>(rt, end, message)
}

/// Takes the first message, and calls the first who waits to send: returns both. The one called is to be woken now.
///
/// If none is queued, all that settled senders sent has been received.
pub(crate) fn take<T: Drop, U: Unpark, R: Host>(
    rt: &R,
    gate: &mut Gate<U>,
    queue: &Queue<T>,
    end: &mut End<T>,
) -> Option<(T, Option<Waiter<U>>)>
    requires queue { IsPassOf queue.now end.old }
    requires receives { (view end.old).receives ≡ true }
    ensures queue { IsSamePass end.old end.new }
    ensures taken { MatchOption result ((view end.new ≡ view end.old) × (gate.new ≡ gate.old) × Arrived (view end.old).shares (view end.old).received (view end.old).settled) (λ r. (view end.new ≡ hand (view end.old).shares ((view end.old).received ++ r.0 ∷ []) (view end.old).settled) × Calls gate.old.line.waiters.entries r.1 gate.new.line.waiters.entries) }
    ensures same { (gate.new.is_stopped ≡ gate.old.is_stopped) × (gate.new.receiver ≡ gate.old.receiver) }
{
    match queue.pop_as::<Received, R>(rt, end) {
        Some(message) => Some((message, gate.line.call())),
        None => None,
    }
}

/// Takes the first message as `take` does. If none is queued, refuses with `Disconnected` if and only if the channel has
/// ended, and else with `Empty`. A refusal leaves the gate as it was.
pub(crate) fn take_or_refuse<T: Drop, U: Unpark, R: Host>(
    rt: &R,
    gate: &mut Gate<U>,
    queue: &Queue<T>,
    end: &mut End<T>,
    has_ended: bool,
) -> Result<(T, Option<Waiter<U>>), TryRecvError>
    requires queue { IsPassOf queue.now end.old }
    requires receives { (view end.old).receives ≡ true }
    ensures queue { IsSamePass end.old end.new }
    ensures taken { MatchResult result (λ r. (view end.new ≡ hand (view end.old).shares ((view end.old).received ++ r.0 ∷ []) (view end.old).settled) × Calls gate.old.line.waiters.entries r.1 gate.new.line.waiters.entries) (λ e. (view end.new ≡ view end.old) × (gate.new ≡ gate.old) × Arrived (view end.old).shares (view end.old).received (view end.old).settled) }
    ensures refused { IfErr result (λ e. is_disconnected e ≡ has_ended) }
{
    match take(rt, gate, queue, end) {
        Some(taken) => Ok(taken),
        None if has_ended => Err(TryRecvError::Disconnected),
        None => Err(TryRecvError::Empty),
    }
}

/// Takes the first message, or refuses, as `take_or_refuse` does. If none is queued and the channel has not ended, keeps
/// who waits to receive.
pub(crate) fn take_or_wait<T: Drop, U: Unpark, R: Host>(
    rt: &R,
    gate: &mut Gate<U>,
    queue: &Queue<T>,
    end: &mut End<T>,
    has_ended: bool,
    waiter: Waiter<U>,
) -> Result<(T, Option<Waiter<U>>), TryRecvError>
    requires queue { IsPassOf queue.now end.old }
    requires receives { (view end.old).receives ≡ true }
    ensures queue { IsSamePass end.old end.new }
    ensures taken { MatchResult result (λ r. (view end.new ≡ hand (view end.old).shares ((view end.old).received ++ r.0 ∷ []) (view end.old).settled) × Calls gate.old.line.waiters.entries r.1 gate.new.line.waiters.entries) (λ e. (view end.new ≡ view end.old) × Arrived (view end.old).shares (view end.old).received (view end.old).settled) }
    ensures registered { result ≡ Err Empty → gate.new.receiver ≡ Some waiter }
    ensures refused { IfErr result (λ e. is_disconnected e ≡ has_ended) }
    ensures line { IfErr result (λ e. gate.new.line ≡ gate.old.line) }
{
    match take_or_refuse(rt, gate, queue, end, has_ended) {
        Ok(taken) => Ok(taken),
        Err(TryRecvError::Disconnected) => Err(TryRecvError::Disconnected),
        Err(TryRecvError::Empty) => {
            gate.receiver = Some(waiter);
            Err(TryRecvError::Empty)
        }
    }
}
