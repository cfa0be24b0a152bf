// The calls of a task on one of many notices, each under a key of its own.
ghost use Rattle.std.specs.Prelude.{◌≡◌, true, false, ℕ};
ghost use Rattle.std.specs.declared.option.Option.TheVariants.{None};
ghost use Rattle.mono_model.specs.Poll.{OnReady, OnPending};
ghost use Rattle.mono_sync.specs.Notices.{listed_by, owed_by, waiting_in};
ghost use Rattle.mono_sync.specs.NoticeRuns.{Step};
ghost use Rattle.mono_sync.specs.Runs.{Leads};
ghost use Rattle.mono_sync.specs.Many.{LeadsEach, lists_each};
ghost use Rattle.mono_sync.specs.KeyedNotices.{AwaitsAt, GivesUpAt, NotifiesOneAt, NotifiesAllAt, NotifiedAtPolls, NotifiedAtGives, NotifiedAtCancels};
ghost use Rattle.mono_sync.specs.Spent.{notified_at_spent};
ghost use Rattle.mono_task.specs.Owed.{Keeps};

use crate::lines::{Ticket, ticket_of};
use crate::notices::{Notify, Notifying};
use crate::parts::Holds;
use crate::tables::Many;
use mono_model::{Host, Poll};
use mono_task::{SharedContext, TaskFuture};
use std::alloc::Global;
use std::marker::PhantomData;

/// A future that waits for the notice with one key.
#[derive(Drop)]
pub struct NotifiedAt<W> {
    pub(crate) key: u64,
    // The number of the ticket that the future drew.
    pub(crate) ticket: Option<u64>,
    pub(crate) has_answered: bool,
    shared: PhantomData<W>,
}

/// The reason why no notice came.
#[derive(Debug, Drop)]
pub enum NotifiedAtError {
    /// No notice has the key.
    Missing,
    /// The allocation of a place in the line failed.
    Memory,
}

impl<W> NotifiedAt<W> {
    /// Returns a future that waits for the notice with this key.
    pub fn new(key: u64) -> NotifiedAt<W>
        ensures key { result.key ≡ key }
        ensures ticket { result.ticket ≡ None }
        ensures unspent { result.has_answered ≡ false }
    {
        NotifiedAt {
            key,
            ticket: None,
            has_answered: false,
            shared: PhantomData,
        }
    }
}

// Asks the notice with this key for a future of this task.
fn ask_table(
    notices: &mut Many<Notify>,
    key: u64,
    ticket: Option<Ticket>,
    me: u64,
) -> Option<Notifying>
    ensures answer { AwaitsAt key notices.old ticket me result notices.new }
    ensures leads { LeadsEach (Leads Step) waiting_in owed_by notices.old notices.new }
    ensures keeps { Keeps (lists_each listed_by) me notices.old notices.new }
{
    if notices.get(key).is_none() {
        return None;
    }
    Some(notices.part_mut(key).notified(ticket, me))
}

// Asks the notice with this key for a future of this task, in the whole.
fn ask_part<W: Holds<Many<Notify>>>(
    whole: &mut W,
    key: u64,
    ticket: Option<Ticket>,
    me: u64,
) -> Option<Notifying>
    ensures answer { AwaitsAt key (W.part whole.old) ticket me result (W.part whole.new) }
    ensures leads { W.leads whole.old whole.new }
    ensures keeps { Keeps W.lists me whole.old whole.new }
{
    ask_table(whole.part_mut(), key, ticket, me)
}

// Asks the notice with this key for a future of this task, for the running task.
fn ask<W: Holds<Many<Notify>>, C: SharedContext<W>>(
    cx: &mut C,
    key: u64,
    ticket: Option<u64>,
) -> Option<Notifying>
    ensures answer { AwaitsAt key (W.part (C.shared cx.old)) ticket (C.number cx.old) result (W.part (C.shared cx.new)) }
    ensures work { C.work cx.new ≡ C.work cx.old }
    ensures reached { C.reaches cx.old cx.new }
{
    let me = cx.me();
    ask_part::<W>(cx.shared_mut(), key, ticket_of(ticket), me)
}

impl<W: Holds<Many<Notify>>> NotifiedAt<W> {
    /// Puts the future into the line without a poll, in a turn of the task that polls it later. So a notice that comes
    /// before its first poll serves it, to one or to all. It has the answer and the effect of a poll (`polled`).
    pub fn enable<C: SharedContext<W>>(&mut self, cx: &mut C) -> Poll<Result<(), NotifiedAtError>>
        requires unspent { self.old.has_answered ≡ false }
        ensures polled { NotifiedAtPolls (λ x. W.part (C.shared x)) C.number C.work self.old.key self.old.ticket cx.old result self.new.ticket cx.new }
        ensures key { self.new.key ≡ self.old.key }
        ensures ended { OnReady result ((self.new.ticket ≡ None) × (self.new.has_answered ≡ true)) }
        ensures again { OnPending result (self.new.has_answered ≡ false) }
        ensures reached { C.reaches cx.old cx.new }
    {
        let Some(answer) = ask::<W, C>(cx, self.key, self.ticket) else {
            self.ticket = None;
            self.has_answered = true;
            return Poll::Ready(Err(NotifiedAtError::Missing));
        };
        match answer {
            Notifying::Waits => Poll::Pending,
            Notifying::Joined(ticket) => {
                self.ticket = Some(ticket.number());
                Poll::Pending
            }
            Notifying::Notified => {
                self.ticket = None;
                self.has_answered = true;
                Poll::Ready(Ok(()))
            }
            Notifying::Memory => {
                self.ticket = None;
                self.has_answered = true;
                Poll::Ready(Err(NotifiedAtError::Memory))
            }
        }
    }
}

// Takes a future out of the line of the notice with this key.
fn leave_table(notices: &mut Many<Notify>, key: u64, ticket: Option<Ticket>, me: u64)
    ensures answer { GivesUpAt key notices.old ticket me notices.new }
    ensures leads { LeadsEach (Leads Step) waiting_in owed_by notices.old notices.new }
    ensures keeps { Keeps (lists_each listed_by) me notices.old notices.new }
{
    if notices.get(key).is_none() {
        return;
    }
    notices.part_mut(key).give_up(ticket, me);
}

// Takes a future out of the line of the notice with this key, in the whole.
fn leave_part<W: Holds<Many<Notify>>>(whole: &mut W, key: u64, ticket: Option<Ticket>, me: u64)
    ensures answer { GivesUpAt key (W.part whole.old) ticket me (W.part whole.new) }
    ensures leads { W.leads whole.old whole.new }
    ensures keeps { Keeps W.lists me whole.old whole.new }
{
    leave_table(whole.part_mut(), key, ticket, me)
}

// Takes a future out of the line of the notice with this key, for the running task.
fn leave<W: Holds<Many<Notify>>, C: SharedContext<W>>(cx: &mut C, key: u64, ticket: Option<u64>)
    ensures answer { GivesUpAt key (W.part (C.shared cx.old)) ticket (C.number cx.old) (W.part (C.shared cx.new)) }
    ensures work { C.work cx.new ≡ C.work cx.old }
    ensures reached { C.reaches cx.old cx.new }
{
    let me = cx.me();
    leave_part::<W>(cx.shared_mut(), key, ticket_of(ticket), me)
}

// Notifies one task that waits for the notice with this key.
fn one_table(notices: &mut Many<Notify>, key: u64)
    ensures answer { NotifiesOneAt key notices.old notices.new }
    ensures leads { LeadsEach (Leads Step) waiting_in owed_by notices.old notices.new }
    ensures keeps { (me : ℕ) → Keeps (lists_each listed_by) me notices.old notices.new }
{
    if notices.get(key).is_none() {
        return;
    }
    notices.part_mut(key).notify_one();
}

// Notifies one task that waits for the notice with this key, in the whole.
pub(crate) fn one_part<W: Holds<Many<Notify>>>(whole: &mut W, key: u64)
    ensures answer { NotifiesOneAt key (W.part whole.old) (W.part whole.new) }
    ensures leads { W.leads whole.old whole.new }
    ensures keeps { (me : ℕ) → Keeps W.lists me whole.old whole.new }
{
    one_table(whole.part_mut(), key)
}

/// Notifies the first task that waits for the notice with this key and has none, which the runtime wakes after the turn. If each
/// has one, the notice is kept. If no notice has the key, nothing is done.
pub fn notify_one_at<W: Holds<Many<Notify>>, C: SharedContext<W>>(cx: &mut C, key: u64)
    ensures answer { NotifiesOneAt key (W.part (C.shared cx.old)) (W.part (C.shared cx.new)) }
    ensures work { C.work cx.new ≡ C.work cx.old }
    ensures reached { C.reaches cx.old cx.new }
{
    one_part::<W>(cx.shared_mut(), key)
}

// Notifies all tasks that wait for the notice with this key.
fn all_table(notices: &mut Many<Notify>, key: u64)
    ensures answer { NotifiesAllAt key notices.old notices.new }
    ensures leads { LeadsEach (Leads Step) waiting_in owed_by notices.old notices.new }
    ensures keeps { (me : ℕ) → Keeps (lists_each listed_by) me notices.old notices.new }
{
    if notices.get(key).is_none() {
        return;
    }
    notices.part_mut(key).notify_waiters();
}

// Notifies all tasks that wait for the notice with this key, in the whole.
pub(crate) fn all_part<W: Holds<Many<Notify>>>(whole: &mut W, key: u64)
    ensures answer { NotifiesAllAt key (W.part whole.old) (W.part whole.new) }
    ensures leads { W.leads whole.old whole.new }
    ensures keeps { (me : ℕ) → Keeps W.lists me whole.old whole.new }
{
    all_table(whole.part_mut(), key)
}

/// Notifies all tasks that wait for the notice with this key, which the runtime wakes after the turn. If no notice has the key,
/// nothing is done.
pub fn notify_waiters_at<W: Holds<Many<Notify>>, C: SharedContext<W>>(cx: &mut C, key: u64)
    ensures answer { NotifiesAllAt key (W.part (C.shared cx.old)) (W.part (C.shared cx.new)) }
    ensures work { C.work cx.new ≡ C.work cx.old }
    ensures reached { C.reaches cx.old cx.new }
{
    all_part::<W>(cx.shared_mut(), key)
}

/// The future answers once it was notified. It fails with `Missing` if no notice has the key, and with `Memory` if out of
/// memory.
impl<W: Holds<Many<Notify>>, C: SharedContext<W>> TaskFuture<C> for NotifiedAt<W> {
    type Output = Result<(), NotifiedAtError>;

    ghost is_spent = { notified_at_spent };

    ghost polls = { λ f c r g d. NotifiedAtPolls (λ x. W.part (C.shared x)) C.number C.work f.key f.ticket c r g.ticket d × (g.key ≡ f.key) × OnReady r ((g.ticket ≡ None) × (g.has_answered ≡ true)) };

    ghost gives = { λ f. NotifiedAtGives (λ x. W.part (C.shared x)) C.number C.work f.key };

    ghost cancels = { λ f c d. NotifiedAtCancels (λ x. W.part (C.shared x)) C.number C.work f.key f.ticket c d };

    fn spent(&self) -> bool {
        self.has_answered
    }

    fn poll<R: Host>(
        &mut self,
        _rt: &R,
        _alloc: Global,
        cx: &mut C,
    ) -> Poll<Result<(), NotifiedAtError>> {
        self.enable(cx)
    }

    fn cancel(self, cx: &mut C) {
        leave::<W, C>(cx, self.key, self.ticket)
    }
}
