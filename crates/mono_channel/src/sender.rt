// The end that sends, and the making of a channel.
ghost use Rattle.std.specs.Prelude.{◌≡◌, ◌<◌, ◌≤◌, true, false, [], Some, None, ◌++◌, ◌∷◌, IfOk, IfErr, OnOk, MatchResult};
ghost use Rattle.std.specs.Arc.{arc_value};
ghost use Rattle.crossbeam_queue.specs.Fifo.{Held};
ghost use Rattle.crossbeam_queue.specs.Passes.{IsPassOf};
ghost use Rattle.mono_channel.specs.Ends.{sent_by, received_by, settled_by, shares_of, bound_of, is_open, is_over, closed, end_of, weight, Sends, IsPair};
ghost use Rattle.mono_channel.specs.Stakes.{IsStakeOf};
ghost use Rattle.mono_channel.specs.Delivery.{all_shares, shares_kept, shares_given};
ghost use Rattle.mono_channel.specs.Errors.{message_of, IfFull, OnFull};
ghost use Rattle.mono_channel.specs.Queues.{IsQueued, WasFull, HadRoom, IsFullIfTaken};
ghost use Rattle.mono_channel.specs.Polls.{PollsToSend};
ghost use Rattle.mono_model.specs.declared.poll.Poll.TheVariants.{Ready};
ghost use Rattle.mono_model.specs.Poll.{OnPending};

use crate::ends::{Receiver, Sender, Shared};
use crate::errors::{SendError, TrySendError};
use crate::gate::{Gate, leave, send};
use crate::rule::{End, Joins, Opens, Sent, queue_of};
use crate::stakes::{SenderCount, Stake};
use crate::waiters::{Waiter, wake_first};
use mono_inbox::{Parker, RemoteWaker, Unpark};
use mono_model::{Host, Poll};
use std::alloc::{AllocError, Global};
use std::marker::Brand;
use std::mem;
use std::sync::{Arc, Mutex};

/// Returns the two ends of a channel for at most `bound` messages.
pub fn channel<T: Drop, U: Unpark>(
    alloc: Global,
    bound: usize,
) -> Result<(Sender<T, U>, Receiver<T, U>), AllocError>
    requires { 0 < bound }
    ensures pair { IfOk result (λ r. IsPair r.0 r.1) }
    ensures sent { IfOk result (λ r. sent_by r.0 ≡ []) }
    ensures received { IfOk result (λ r. (received_by r.1 ≡ []) × (settled_by r.1 ≡ [])) }
    ensures shares { IfOk result (λ r. (shares_of r.0 ≡ all_shares) × (shares_of r.1 ≡ 0)) }
    ensures bound { IfOk result (λ r. bound_of r.0 ≡ bound) }
    ensures open { IfOk result (λ r. (is_open r.0 ≡ true) × (is_open r.1 ≡ true) × (is_over r.1 ≡ false)) }
{
    let (queue, mut first) = queue_of(alloc, bound)?;
    let end = queue.another::<Opens>(&mut first);
    let (senders, mine, theirs) = SenderCount::new(alloc)?;
    let gate = Mutex::new(Gate::new(alloc));
    let shared = Arc::new(
        alloc,
        Shared {
            queue,
            senders,
            gate,
        },
    )?;
    let other = Arc::try_clone(&shared)?;
    let sender = Sender::over(shared, end, mine, false);
    Ok((sender, Receiver::over(other, first, theirs)))
}

impl<T: Drop, U: Unpark> Sender<T, U> {
    // A sender that has sent what its end has.
    fn over(
        shared: Arc<Shared<T, U>, Global>,
        end: End<T>,
        stake: Stake,
        is_closed: bool,
    ) -> Sender<T, U>
        requires fits { IsPassOf (arc_value shared).queue end }
        requires sends { Sends end }
        requires counts { IsStakeOf (arc_value shared).senders stake × (stake.me.0.senders ≡ weight is_closed) }
        ensures { result ≡ end_of end stake is_closed false }
    {
        Sender {
            shared,
            end,
            stake,
            is_closed,
            seat: None,
        }
    }

    /// Returns a further sender of the channel, which is open if and only if this one is. Fails only if the count of owners
    /// or of open senders cannot grow: then this one keeps its shares.
    pub fn try_clone<R: Host>(&mut self, rt: &R) -> Result<Sender<T, U>, AllocError>
        ensures same { IsPair self.new self.old × (sent_by self.new ≡ sent_by self.old) }
        ensures further { IfOk result (λ s. IsPair s self.old × (sent_by s ≡ [])) }
        ensures shares { IfOk result (λ s. (shares_of self.new ≡ shares_kept (shares_of self.old)) × (shares_of s ≡ shares_given (shares_of self.old))) }
        ensures none { IfErr result (λ e. shares_of self.new ≡ shares_of self.old) }
        ensures open { (is_open self.new ≡ is_open self.old) × IfOk result (λ s. is_open s ≡ is_open self.old) }
    {
        let shared = Arc::try_clone(&self.shared)?;
        let stake = self
            .shared
            .senders
            .further(rt, &mut self.stake, self.is_closed)?;
        let end = self.shared.queue.another::<Joins>(&mut self.end);
        Ok(Sender::over(shared, end, stake, self.is_closed))
    }

    /// Queues a message at once, and then wakes the task that waits to receive.
    ///
    /// Refused with `Closed` if the channel or this sender was closed, and with `Full` if each place is taken: as many
    /// messages were queued as the channel has places (`full`). If the message is queued, fewer were (`room`). So an open
    /// channel answers `Full` if and only if each place is taken (`places`). A refused message comes back. A closed sender
    /// sends none (`open`).
    #[tactic(auto, using(crate::proofs::PlaceLemmas::full_if_taken))]
    pub fn try_send<R: Host>(&mut self, rt: &R, message: T) -> Result<(), TrySendError<T>>
        ensures sent { MatchResult result (λ done. sent_by self.new ≡ sent_by self.old ++ message ∷ []) (λ e. (message_of e ≡ message) × (sent_by self.new ≡ sent_by self.old)) }
        ensures full { OnFull result (WasFull self.old) }
        ensures room { OnOk result (HadRoom self.old) }
        ensures places { IsFullIfTaken self.old result }
        ensures open { OnOk result (is_open self.old ≡ true) × OnFull result (is_open self.old ≡ true) }
        ensures same { IsPair self.new self.old × (shares_of self.new ≡ shares_of self.old) × (is_open self.new ≡ is_open self.old) }
    {
        if self.is_closed {
            return Err(TrySendError::Closed(message));
        }
        let first = self.queue(rt, message)?;
        wake_first(rt, first);
        Ok(())
    }

    // Queues a message under the lock. The task that waits to receive is to be woken.
    fn queue<R: Host>(&mut self, rt: &R, message: T) -> Result<Option<Waiter<U>>, TrySendError<T>>
        ensures sent { MatchResult result (λ first. sent_by self.new ≡ sent_by self.old ++ message ∷ []) (λ e. (message_of e ≡ message) × (sent_by self.new ≡ sent_by self.old)) }
        ensures full { OnFull result (WasFull self.old) }
        ensures room { OnOk result (HadRoom self.old) }
        ensures same { IsPair self.new self.old × (shares_of self.new ≡ shares_of self.old) × (is_open self.new ≡ is_open self.old) }
    {
        let mut gate = self.shared.gate.lock(rt);
        let queue = &self.shared.queue;
        send(rt, &mut gate, queue, &mut self.end, &mut self.seat, message)
    }

    /// Gives up waiting: the sender leaves the line of those who wait. If it had been called, since a place was free, the
    /// next in line is called in its place. It does nothing if the sender does not wait.
    ///
    /// Call it if a pending `poll_send` is not polled again and the sender stays open. The futures do it themselves, and so
    /// does `close`.
    pub fn leave_line<R: Host>(&mut self, rt: &R)
        ensures { self.new ≡ self.old }
    {
        let next = self.give_up(rt);
        wake_first(rt, next);
    }

    // Leaves the line under the lock. The one that is called in its place is to be woken.
    fn give_up<R: Host>(&mut self, rt: &R) -> Option<Waiter<U>>
        ensures { self.new ≡ self.old }
    {
        let Some(seat) = mem::replace(&mut self.seat, None) else {
            return None;
        };
        let mut gate = self.shared.gate.lock(rt);
        gate.line.give_up(seat)
    }

    /// Sends the message, or keeps it and waits in line while each place is taken (`full`). Each time the receiver takes a
    /// message it wakes the task of the first in line; if it closes the channel, it wakes all. One that is woken and finds
    /// each place taken again stands in line where it did.
    ///
    /// Fails if the channel or this sender was closed, or there was no memory to wait in; the message comes back. It does
    /// nothing if there is no message.
    #[tactic(auto, using(crate::proofs::PollLemmas::on_pending))]
    pub fn poll_send<R: Host>(
        &mut self,
        rt: &R,
        waker: &RemoteWaker<U>,
        message: &mut Option<T>,
    ) -> Poll<Result<(), SendError<T>>>
        ensures polled { PollsToSend self.old message.old result self.new message.new }
        ensures full { OnPending result (WasFull self.old) }
    {
        let Some(first) = mem::replace(message, None) else {
            return Poll::Ready(Ok(()));
        };
        let again = match self.try_send(rt, first) {
            Ok(()) => return Poll::Ready(Ok(())),
            Err(TrySendError::Closed(back)) => return Poll::Ready(Err(SendError::Closed(back))),
            Err(TrySendError::Full(back)) => back,
        };
        match waker.clone() {
            Ok(waker) => self.send_or_pend(rt, Waiter::Task(waker), again, message),
            Err(_) => {
                self.leave_line(rt);
                Poll::Ready(Err(SendError::Memory(again)))
            }
        }
    }

    /// Sends the message, and parks this thread while each place is taken: for a thread without a runtime.
    ///
    /// Fails if the channel or this sender was closed, and then if out of memory; the message comes back.
    #[tactic(auto, using(crate::proofs::PollLemmas::sends_at_last, crate::proofs::PollLemmas::waits_on))]
    pub fn blocking_send<R: Host>(
        &mut self,
        rt: &R,
        alloc: Global,
        message: T,
    ) -> Result<(), SendError<T>>
        ensures { PollsToSend self.old (Some message) (Ready result) self.new None }
    {
        let again = match self.try_send(rt, message) {
            Ok(()) => return Ok(()),
            Err(TrySendError::Closed(back)) => return Err(SendError::Closed(back)),
            Err(TrySendError::Full(back)) => back,
        };
        let Ok(parker) = Parker::new(alloc) else {
            self.leave_line(rt);
            return Err(SendError::Memory(again));
        };
        let mut kept = Some(again);
        for _ in rt.forever() {
            match self.send_or_park(rt, &parker, &mut kept) {
                Poll::Ready(answer) => return answer,
                Poll::Pending => parker.park(rt),
            }
        }
        unreachable!()
    }

    // Sends the message, or keeps it and lets the next take and the close of the channel end the parker's wait.
    fn send_or_park<R: Host>(
        &mut self,
        rt: &R,
        parker: &Parker,
        message: &mut Option<T>,
    ) -> Poll<Result<(), SendError<T>>>
        ensures { PollsToSend self.old message.old result self.new message.new }
    {
        let Some(first) = mem::replace(message, None) else {
            return Poll::Ready(Ok(()));
        };
        if self.is_closed {
            return Poll::Ready(Err(SendError::Closed(first)));
        }
        match parker.handle() {
            Ok(handle) => self.send_or_pend(rt, Waiter::Thread(handle), first, message),
            Err(_) => {
                self.leave_line(rt);
                Poll::Ready(Err(SendError::Memory(first)))
            }
        }
    }

    /// Returns how many messages were queued at one moment of the call.
    pub fn len<R: Host>(&mut self, rt: &R) -> usize
        ensures most { result ≤ bound_of self.old }
        ensures queued { Held result (IsQueued (sent_by self.old)) }
        ensures same { IsPair self.new self.old × (sent_by self.new ≡ sent_by self.old) × (shares_of self.new ≡ shares_of self.old) × (is_open self.new ≡ is_open self.old) }
    {
        let _gate = self.shared.gate.lock(rt);
        self.shared
            .queue
            .len_as::<Sent<Brand>, R>(rt, &mut self.end)
    }

    /// Returns for how many messages the channel has places.
    pub fn capacity(&self) -> usize
        ensures { result ≡ bound_of self.now }
    {
        self.shared.queue.capacity()
    }

    /// Returns whether this sender or the channel was closed at one moment of the call. Then it stays closed.
    pub fn is_closed<R: Host>(&self, rt: &R) -> bool
        ensures { is_open self.now ≡ false → result ≡ true }
    {
        self.is_closed || self.shared.gate.lock(rt).is_stopped
    }

    /// Closes this sender, which leaves the line, and the channel if it was the last that was open: then wakes who waits to
    /// receive.
    pub fn close<R: Host>(&mut self, rt: &R)
        ensures { self.new ≡ closed self.old }
    {
        if self.is_closed {
            return;
        }
        self.leave_line(rt);
        let first = self.go(rt);
        wake_first(rt, first);
    }

    // Counts this sender out under the lock. The task that waits to receive is to be woken if it was the last.
    fn go<R: Host>(&mut self, rt: &R) -> Option<Waiter<U>>
        requires { is_open self.old ≡ true }
        ensures { self.new ≡ closed self.old }
    {
        self.is_closed = true;
        let mut gate = self.shared.gate.lock(rt);
        leave(&mut gate, &self.shared.senders, &mut self.stake)
    }

    // Looks again for a place, and waits if there is none.
    pub(crate) fn send_or_pend<R: Host>(
        &mut self,
        rt: &R,
        waiter: Waiter<U>,
        message: T,
        kept: &mut Option<T>,
    ) -> Poll<Result<(), SendError<T>>>
        requires kept { kept.old ≡ None }
        requires open { is_open self.old ≡ true }
        ensures sent { PollsToSend self.old (Some message) result self.new kept.new }
        ensures full { OnPending result (WasFull self.old) }
    {
        match self.queue_or_wait(rt, waiter, message) {
            Ok(first) => {
                wake_first(rt, first);
                Poll::Ready(Ok(()))
            }
            Err((TrySendError::Closed(back), _)) => Poll::Ready(Err(SendError::Closed(back))),
            Err((TrySendError::Full(back), true)) => {
                *kept = Some(back);
                Poll::Pending
            }
            Err((TrySendError::Full(back), false)) => Poll::Ready(Err(SendError::Memory(back))),
        }
    }

    // Queues a message as `queue` does, or keeps who waits under the same lock if each place is taken. The second part of
    // an error says whether it was kept.
    fn queue_or_wait<R: Host>(
        &mut self,
        rt: &R,
        waiter: Waiter<U>,
        message: T,
    ) -> Result<Option<Waiter<U>>, (TrySendError<T>, bool)>
        ensures sent { MatchResult result (λ first. sent_by self.new ≡ sent_by self.old ++ message ∷ []) (λ e. (message_of e.0 ≡ message) × (sent_by self.new ≡ sent_by self.old)) }
        ensures full { IfErr result (λ e. IfFull e.0 (WasFull self.old)) }
        ensures same { IsPair self.new self.old × (shares_of self.new ≡ shares_of self.old) × (is_open self.new ≡ is_open self.old) }
    {
        let mut gate = self.shared.gate.lock(rt);
        let queue = &self.shared.queue;
        match send(rt, &mut gate, queue, &mut self.end, &mut self.seat, message) {
            Ok(first) => Ok(first),
            Err(TrySendError::Closed(back)) => Err((TrySendError::Closed(back), false)),
            Err(TrySendError::Full(back)) => {
                self.seat = gate.line.enter(waiter, self.seat).ok();
                Err((TrySendError::Full(back), self.seat.is_some()))
            }
        }
    }
}
