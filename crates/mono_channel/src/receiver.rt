// The end that receives.
ghost use Rattle.std.specs.Prelude.{◌≡◌, ◌≤◌, ◌+◌, ◌||◌, true, false, [], ◌++◌, ◌∷◌, IfErr};
ghost use Rattle.std.specs.Arc.{arc_value};
ghost use Rattle.crossbeam_queue.specs.Fifo.{Held};
ghost use Rattle.crossbeam_queue.specs.Passes.{IsPassOf};
ghost use Rattle.mono_channel.specs.Delivery.{Arrived};
ghost use Rattle.mono_channel.specs.Beginnings.{Begun};
ghost use Rattle.mono_channel.specs.Ends.{sent_by, received_by, settled_by, shares_of, bound_of, is_open, is_over, has_ended, closed, end_of, KeepsEnd, Receives, IsPair};
ghost use Rattle.mono_channel.specs.Stakes.{IsStakeOf};
ghost use Rattle.mono_channel.specs.Kept.{KeepsAll};
ghost use Rattle.mono_channel.specs.Polls.{TriesToReceive, PollsToReceive, PolledEnd, first_of};
ghost use Rattle.mono_channel.specs.Errors.{is_disconnected};
ghost use Rattle.mono_model.specs.declared.poll.Poll.TheVariants.{Ready};

use crate::ends::{Receiver, Sender, Shared};
use crate::errors::TryRecvError;
use crate::gate::{take_or_refuse, take_or_wait};
use crate::rule::{End, Received, Settles};
use crate::stakes::{SenderCount, Stake};
use crate::waiters::{Waiter, wake_all, wake_first};
use mono_inbox::{Parker, RemoteWaker, Unpark};
use mono_model::{Host, Poll};
use std::alloc::{AllocError, Global};
use std::sync::Arc;

impl<T: Drop, U: Unpark> Receiver<T, U> {
    // A receiver that has received what its end has.
    pub(crate) fn over(
        shared: Arc<Shared<T, U>, Global>,
        end: End<T>,
        stake: Stake,
    ) -> Receiver<T, U>
        requires fits { IsPassOf (arc_value shared).queue end }
        requires receives { Receives end }
        requires counts { IsStakeOf (arc_value shared).senders stake }
        ensures { result ≡ end_of end stake false stake.me.0.over }
    {
        Receiver {
            shared,
            end,
            stake,
            is_closed: false,
        }
    }

    /// Takes a sender in, with its shares, and remembers what it sent. Close it first: one that is taken in open leaves the
    /// channel open. If the receiver saw that each sender is closed, this one is (`over`).
    pub fn settle(&mut self, sender: Sender<T, U>)
        requires { IsPair sender self.old }
        ensures settled { settled_by self.new ≡ settled_by self.old ++ sent_by sender ∷ [] }
        ensures shares { shares_of self.new ≡ shares_of self.old + shares_of sender }
        ensures same { IsPair self.new self.old × (received_by self.new ≡ received_by self.old) × KeepsEnd self.old self.new }
        ensures over { is_over self.new ≡ true → is_open sender ≡ false }
    {
        self.shared
            .queue
            .absorb::<Settles>(&mut self.end, sender.end);
        self.shared.senders.absorb(&mut self.stake, sender.stake);
    }

    /// Shows that what was received is a beginning of what arrives: once the queued messages are received too, all that the
    /// settled senders sent has arrived. It changes nothing.
    pub fn learn(&mut self)
        ensures begun { Begun (shares_of self.old) (received_by self.old) (settled_by self.old) }
        ensures same { KeepsAll self.old self.new }
    {
        self.shared.queue.learn_as::<Received>(&mut self.end);
    }

    /// Takes the first message at once, and then wakes the first that waits to send.
    ///
    /// Refused if no message is queued: with `Disconnected` if this receiver or each sender was closed, else with `Empty`
    /// (`ended`). Then all that settled senders sent has been received.
    pub fn try_recv<R: Host>(&mut self, rt: &R) -> Result<T, TryRecvError>
        ensures tried { TriesToReceive self.old result self.new }
        ensures ended { IfErr result (λ e. has_ended self.new ≡ is_disconnected e) }
    {
        let (message, called) = self.look(rt)?;
        wake_first(rt, called);
        Ok(message)
    }

    /// Takes the first message, or waits for one: the next message and the close of the channel then wake this waker's task.
    ///
    /// Answers none if no message is queued and this receiver or each sender was closed (`ended`). Fails only if the waker
    /// cannot be cloned.
    pub fn poll_recv<R: Host>(
        &mut self,
        rt: &R,
        waker: &RemoteWaker<U>,
    ) -> Poll<Result<Option<T>, AllocError>>
        ensures polled { PollsToReceive self.old result self.new }
        ensures ended { PolledEnd result self.new }
    {
        match self.try_recv(rt) {
            Ok(message) => return Poll::Ready(Ok(Some(message))),
            Err(TryRecvError::Disconnected) => return Poll::Ready(Ok(None)),
            Err(TryRecvError::Empty) => {}
        }
        match waker.clone() {
            Ok(waker) => self.take_or_pend(rt, Waiter::Task(waker)),
            Err(failed) => Poll::Ready(Err(failed)),
        }
    }

    /// Receives the next message, and parks this thread while none is queued: for a thread without a runtime.
    ///
    /// Returns none if no message is queued and this receiver or each sender was closed (`ended`). Fails only if out of
    /// memory.
    #[tactic(auto, using(crate::proofs::PollLemmas::then_receives, crate::proofs::PollLemmas::finds_none_again))]
    pub fn blocking_recv<R: Host>(&mut self, rt: &R, alloc: Global) -> Result<Option<T>, AllocError>
        ensures polled { PollsToReceive self.old (Ready result) self.new }
        ensures ended { PolledEnd (Ready result) self.new }
    {
        match self.try_recv(rt) {
            Ok(message) => return Ok(Some(message)),
            Err(TryRecvError::Disconnected) => return Ok(None),
            Err(TryRecvError::Empty) => {}
        }
        let parker = Parker::new(alloc)?;
        for _ in rt.forever() {
            match self.take_or_park(rt, &parker) {
                Poll::Ready(answer) => return answer,
                Poll::Pending => parker.park(rt),
            }
        }
        unreachable!()
    }

    // Takes the first message, or lets the next message and the close of the channel end the parker's wait.
    fn take_or_park<R: Host>(
        &mut self,
        rt: &R,
        parker: &Parker,
    ) -> Poll<Result<Option<T>, AllocError>>
        ensures polled { PollsToReceive self.old result self.new }
        ensures ended { PolledEnd result self.new }
    {
        match self.try_recv(rt) {
            Ok(message) => return Poll::Ready(Ok(Some(message))),
            Err(TryRecvError::Disconnected) => return Poll::Ready(Ok(None)),
            Err(TryRecvError::Empty) => {}
        }
        match parker.handle() {
            Ok(handle) => self.take_or_pend(rt, Waiter::Thread(handle)),
            Err(failed) => Poll::Ready(Err(failed)),
        }
    }

    /// Returns how many messages were queued at one moment of the call. Once they are received too, all that the settled
    /// senders sent has arrived.
    pub fn len<R: Host>(&mut self, rt: &R) -> usize
        ensures most { result ≤ bound_of self.old }
        ensures queued { Held result (λ items. Arrived (shares_of self.old) (received_by self.old ++ items) (settled_by self.old)) }
        ensures same { KeepsAll self.old self.new }
    {
        let _gate = self.shared.gate.lock(rt);
        self.shared.queue.len_as::<Received, R>(rt, &mut self.end)
    }

    /// Returns for how many messages the channel has places.
    pub fn capacity(&self) -> usize
        ensures { result ≡ bound_of self.now }
    {
        self.shared.queue.capacity()
    }

    /// Returns whether the channel was closed at one moment of the call: by this end, or since each sender was. Then it stays
    /// closed.
    pub fn is_closed<R: Host>(&self, rt: &R) -> bool
        ensures { is_open self.now ≡ false → result ≡ true }
    {
        let _gate = self.shared.gate.lock(rt);
        self.is_closed || self.shared.senders.is_zero()
    }

    /// Closes the channel, and then wakes those who wait to send, in the order in which they began to. Messages that are
    /// queued can still be received.
    pub fn close<R: Host>(&mut self, rt: &R)
        ensures { self.new ≡ closed self.old }
    {
        self.is_closed = true;
        let waiting = self.shared.gate.lock(rt).close();
        wake_all(rt, waiting);
    }

    // Looks again, and waits if there is no message.
    pub(crate) fn take_or_pend<R: Host>(
        &mut self,
        rt: &R,
        waiter: Waiter<U>,
    ) -> Poll<Result<Option<T>, AllocError>>
        ensures polled { PollsToReceive self.old result self.new }
        ensures ended { PolledEnd result self.new }
    {
        match self.look_or_wait(rt, waiter) {
            Ok((message, called)) => {
                wake_first(rt, called);
                Poll::Ready(Ok(Some(message)))
            }
            Err(TryRecvError::Disconnected) => Poll::Ready(Ok(None)),
            Err(TryRecvError::Empty) => Poll::Pending,
        }
    }

    // Takes the first message under the lock, and calls the first that waits to send: it is to be woken.
    fn look<R: Host>(&mut self, rt: &R) -> Result<(T, Option<Waiter<U>>), TryRecvError>
        ensures tried { TriesToReceive self.old (first_of result) self.new }
        ensures ended { IfErr result (λ e. has_ended self.new ≡ is_disconnected e) }
    {
        let mut gate = self.shared.gate.lock(rt);
        let has_ended = look(&self.shared.senders, &mut self.stake, self.is_closed);
        take_or_refuse(rt, &mut gate, &self.shared.queue, &mut self.end, has_ended)
    }

    // Takes the first message as `look` does, or keeps who waits under the same lock.
    fn look_or_wait<R: Host>(
        &mut self,
        rt: &R,
        waiter: Waiter<U>,
    ) -> Result<(T, Option<Waiter<U>>), TryRecvError>
        ensures tried { TriesToReceive self.old (first_of result) self.new }
        ensures ended { IfErr result (λ e. has_ended self.new ≡ is_disconnected e) }
    {
        let mut gate = self.shared.gate.lock(rt);
        let has_ended = look(&self.shared.senders, &mut self.stake, self.is_closed);
        take_or_wait(
            rt,
            &mut gate,
            &self.shared.queue,
            &mut self.end,
            has_ended,
            waiter,
        )
    }
}

// Returns whether the receiver was closed, or no sender is open.
fn look(senders: &SenderCount, stake: &mut Stake, is_closed: bool) -> bool
    requires { IsStakeOf senders.now stake.old }
    ensures of { IsStakeOf senders.now stake.new }
    ensures stays { stake.old.me.0.over ≡ true → stake.new.me.0.over ≡ true }
    ensures ended { result ≡ is_closed || stake.new.me.0.over }
{
    let none_open = senders.look(stake);
    is_closed || none_open
}
