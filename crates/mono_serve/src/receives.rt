// A future that receives a message to an actor.
ghost use Rattle.std.specs.Prelude.{◌≡◌, false};
ghost use Rattle.std.specs.declared.option.Option.TheVariants.{None};
ghost use Rattle.mono_serve.specs.Mail.{IsLimited, Leaves, ReceivePolls, ReceiveGives, ReceiveCancels};
ghost use Rattle.mono_serve.specs.Spent.{receive_spent};
ghost use Rattle.mono_serve.specs.MailCalls.{Receives, GivesUp};
ghost use Rattle.mono_task.specs.Owed.{Keeps};

use crate::mailboxes::{Mailboxes, Received};
use mono_actor::ActorError;
use mono_forms::FutureExt;
use mono_model::{Host, Poll};
use mono_sync::Holds;
use mono_task::{SharedContext, TaskFuture};
use mono_time::{TimeoutFor, timeout_for};
use std::alloc::Global;
use std::marker::PhantomData;
use std::time::Duration;

/// A future that waits for a message to an actor, and takes the first of its mailbox, with its sender.
///
/// Futures of one actor share its messages: each message goes to one of them, first come, first served. A future that is
/// polled by another task waits anew at the line's end.
#[derive(Drop)]
pub struct Receive<W, M> {
    pub(crate) actor: u64,
    pub(crate) ticket: Option<u64>,
    pub(crate) has_answered: bool,
    shared: PhantomData<W>,
    message: PhantomData<M>,
}

impl<W, M> FutureExt for Receive<W, M> {}

impl<W, M> Receive<W, M> {
    /// Returns a future that receives a message to the actor.
    pub fn new(actor: u64) -> Receive<W, M>
        ensures actor { result.actor ≡ actor }
        ensures ticket { result.ticket ≡ None }
        ensures unspent { result.has_answered ≡ false }
    {
        Receive {
            actor,
            ticket: None,
            has_answered: false,
            shared: PhantomData,
            message: PhantomData,
        }
    }
}

/// Returns a future that receives a message to the actor, or answers after `ms` milliseconds that none came.
pub fn receive_for<W, M>(actor: u64, ms: u64) -> TimeoutFor<Receive<W, M>>
    ensures { IsLimited actor ms result.both }
{
    timeout_for(Duration::from_millis(ms), Receive::new(actor))
}

// Asks for a message.
fn receive_part<W: Holds<Mailboxes<M>>, M: Drop>(
    whole: &mut W,
    ticket: Option<u64>,
    actor: u64,
    task: u64,
) -> Received<M>
    ensures answer { Receives (W.part whole.old) ticket actor task result (W.part whole.new) }
    ensures leads { W.leads whole.old whole.new }
    ensures keeps { Keeps W.lists task whole.old whole.new }
{
    whole.part_mut().receive(ticket, actor, task)
}

// Takes a future out of the line.
fn give_up_part<W: Holds<Mailboxes<M>>, M>(whole: &mut W, ticket: u64, me: u64)
    ensures answer { GivesUp (W.part whole.old) ticket me (W.part whole.new) }
    ensures leads { W.leads whole.old whole.new }
    ensures keeps { Keeps W.lists me whole.old whole.new }
{
    whole.part_mut().give_up(ticket, me)
}

// Asks for a message, for the running task.
fn ask<W: Holds<Mailboxes<M>>, M: Drop, C: SharedContext<W>>(
    cx: &mut C,
    ticket: Option<u64>,
    actor: u64,
) -> Received<M>
    ensures answer { Receives (W.part (C.shared cx.old)) ticket actor (C.number cx.old) result (W.part (C.shared cx.new)) }
    ensures work { C.work cx.new ≡ C.work cx.old }
    ensures reached { C.reaches cx.old cx.new }
{
    let me = cx.me();
    receive_part::<W, M>(cx.shared_mut(), ticket, actor, me)
}

// Takes the running task's future out of the line.
fn leave<W: Holds<Mailboxes<M>>, M, C: SharedContext<W>>(cx: &mut C, ticket: u64)
    ensures answer { GivesUp (W.part (C.shared cx.old)) ticket (C.number cx.old) (W.part (C.shared cx.new)) }
    ensures work { C.work cx.new ≡ C.work cx.old }
    ensures reached { C.reaches cx.old cx.new }
{
    let me = cx.me();
    give_up_part::<W, M>(cx.shared_mut(), ticket, me)
}

// Takes the running task's future out of the line, and says so in one clause.
fn drop_out<W: Holds<Mailboxes<M>>, M, C: SharedContext<W>>(cx: &mut C, ticket: u64)
    ensures left { Leaves (λ x. W.part (C.shared x)) C.number C.work ticket cx.old cx.new }
    ensures reached { C.reaches cx.old cx.new }
{
    leave::<W, M, C>(cx, ticket);
}

/// The future answers with the first message of its actor, or fails if no live actor has the number or if out of memory.
impl<W: Holds<Mailboxes<M>>, M: Drop, C: SharedContext<W>> TaskFuture<C> for Receive<W, M> {
    type Output = Result<(u64, M), ActorError>;

    ghost is_spent = { receive_spent };

    ghost polls = { λ f c r g d. ReceivePolls (λ x. W.part (C.shared x)) C.number C.work f.ticket f.actor c r g.ticket d };

    ghost gives = { λ f. ReceiveGives (λ x. W.part (C.shared x)) C.number C.work f.actor };

    ghost cancels = { λ f c d. ReceiveCancels (λ x. W.part (C.shared x)) C.number C.work f.ticket c d };

    fn spent(&self) -> bool {
        self.has_answered
    }

    fn poll<R: Host>(
        &mut self,
        _rt: &R,
        _alloc: Global,
        cx: &mut C,
    ) -> Poll<Result<(u64, M), ActorError>> {
        let answer = ask::<W, M, C>(cx, self.ticket, self.actor);
        match answer {
            Received::Waits(ticket) => {
                self.ticket = Some(ticket);
                Poll::Pending
            }
            Received::Got(from, message) => {
                self.ticket = None;
                self.has_answered = true;
                Poll::Ready(Ok((from, message)))
            }
            Received::Refused(error) => {
                self.ticket = None;
                self.has_answered = true;
                Poll::Ready(Err(error))
            }
        }
    }

    fn cancel(self, cx: &mut C) {
        if let Some(ticket) = self.ticket {
            drop_out::<W, M, C>(cx, ticket);
        }
    }
}
