// The calls of a task on one of many watched values, each under a key of its own.
ghost use Rattle.std.specs.Prelude.{◌≡◌, true, false, ℕ};
ghost use Rattle.std.specs.declared.option.Option.TheVariants.{None};
ghost use Rattle.mono_model.specs.Poll.{OnReady};
ghost use Rattle.mono_sync.specs.Watches.{listed_by, owed_by, waiting_in};
ghost use Rattle.mono_sync.specs.WatchRuns.{Step};
ghost use Rattle.mono_sync.specs.Runs.{Leads};
ghost use Rattle.mono_sync.specs.Many.{LeadsEach, lists_each};
ghost use Rattle.mono_sync.specs.KeyedChanges.{ChangesAt, GivesUpAt, SendsAt, ClosesAt, ChangedAtPolls, ChangedAtGives, ChangedAtCancels};
ghost use Rattle.mono_sync.specs.Spent.{changed_at_spent};
ghost use Rattle.mono_task.specs.Owed.{Keeps};

use crate::changes::ChangedError;
use crate::lines::{Ticket, ticket_of};
use crate::parts::Holds;
use crate::tables::Many;
use crate::watch::{Changing, Watch};
use mono_model::{Host, Poll};
use mono_task::{SharedContext, TaskFuture};
use std::alloc::Global;
use std::marker::PhantomData;

/// A future that waits until the watched value with one key has another version than the one it has seen.
#[derive(Drop)]
pub struct ChangedAt<W, T> {
    pub(crate) key: u64,
    pub(crate) seen: u64,
    // The number of the ticket that the future drew.
    pub(crate) ticket: Option<u64>,
    pub(crate) has_answered: bool,
    shared: PhantomData<W>,
    value: PhantomData<T>,
}

impl<W, T> ChangedAt<W, T> {
    /// Returns a future that waits for another version than this one of the watched value with this key.
    pub fn new(key: u64, seen: u64) -> ChangedAt<W, T>
        ensures key { result.key ≡ key }
        ensures seen { result.seen ≡ seen }
        ensures ticket { result.ticket ≡ None }
        ensures unspent { result.has_answered ≡ false }
    {
        ChangedAt {
            key,
            seen,
            ticket: None,
            has_answered: false,
            shared: PhantomData,
            value: PhantomData,
        }
    }
}

// Asks the watched value with this key for a future of this task.
fn ask_table<T: Drop>(
    values: &mut Many<Watch<T>>,
    key: u64,
    seen: u64,
    ticket: Option<Ticket>,
    me: u64,
) -> Changing
    ensures answer { ChangesAt key values.old seen ticket me result values.new }
    ensures leads { LeadsEach (Leads Step) waiting_in owed_by values.old values.new }
    ensures keeps { Keeps (lists_each listed_by) me values.old values.new }
{
    if values.get(key).is_none() {
        return Changing::Closed;
    }
    values.part_mut(key).changed(seen, ticket, me)
}

// Asks the watched value with this key for a future of this task, in the whole.
fn ask_part<W: Holds<Many<Watch<T>>>, T: Drop>(
    whole: &mut W,
    key: u64,
    seen: u64,
    ticket: Option<Ticket>,
    me: u64,
) -> Changing
    ensures answer { ChangesAt key (W.part whole.old) seen ticket me result (W.part whole.new) }
    ensures leads { W.leads whole.old whole.new }
    ensures keeps { Keeps W.lists me whole.old whole.new }
{
    ask_table::<T>(whole.part_mut(), key, seen, ticket, me)
}

// Asks the watched value with this key for a future of this task, for the running task.
fn ask<W: Holds<Many<Watch<T>>>, T: Drop, C: SharedContext<W>>(
    cx: &mut C,
    key: u64,
    seen: u64,
    ticket: Option<u64>,
) -> Changing
    ensures answer { ChangesAt key (W.part (C.shared cx.old)) seen ticket (C.number cx.old) result (W.part (C.shared cx.new)) }
    ensures work { C.work cx.new ≡ C.work cx.old }
    ensures reached { C.reaches cx.old cx.new }
{
    let me = cx.me();
    ask_part::<W, T>(cx.shared_mut(), key, seen, ticket_of(ticket), me)
}

// Takes a future out of the line of the watched value with this key.
fn leave_table<T: Drop>(values: &mut Many<Watch<T>>, key: u64, ticket: Option<Ticket>, me: u64)
    ensures answer { GivesUpAt key values.old ticket me values.new }
    ensures leads { LeadsEach (Leads Step) waiting_in owed_by values.old values.new }
    ensures keeps { Keeps (lists_each listed_by) me values.old values.new }
{
    if values.get(key).is_none() {
        return;
    }
    values.part_mut(key).give_up(ticket, me);
}

// Takes a future out of the line of the watched value with this key, in the whole.
fn leave_part<W: Holds<Many<Watch<T>>>, T: Drop>(
    whole: &mut W,
    key: u64,
    ticket: Option<Ticket>,
    me: u64,
)
    ensures answer { GivesUpAt key (W.part whole.old) ticket me (W.part whole.new) }
    ensures leads { W.leads whole.old whole.new }
    ensures keeps { Keeps W.lists me whole.old whole.new }
{
    leave_table::<T>(whole.part_mut(), key, ticket, me)
}

// Takes a future out of the line of the watched value with this key, for the running task.
fn leave<W: Holds<Many<Watch<T>>>, T: Drop, C: SharedContext<W>>(
    cx: &mut C,
    key: u64,
    ticket: Option<u64>,
)
    ensures answer { GivesUpAt key (W.part (C.shared cx.old)) ticket (C.number cx.old) (W.part (C.shared cx.new)) }
    ensures work { C.work cx.new ≡ C.work cx.old }
    ensures reached { C.reaches cx.old cx.new }
{
    let me = cx.me();
    leave_part::<W, T>(cx.shared_mut(), key, ticket_of(ticket), me)
}

// Replaces the watched value with this key.
fn send_table<T: Drop>(values: &mut Many<Watch<T>>, key: u64, value: T) -> Result<T, T>
    ensures answer { SendsAt key values.old value result values.new }
    ensures leads { LeadsEach (Leads Step) waiting_in owed_by values.old values.new }
    ensures keeps { (me : ℕ) → Keeps (lists_each listed_by) me values.old values.new }
{
    if values.get(key).is_none() {
        return Err(value);
    }
    values.part_mut(key).send(value)
}

// Replaces the watched value with this key, in the whole.
pub(crate) fn send_part<W: Holds<Many<Watch<T>>>, T: Drop>(
    whole: &mut W,
    key: u64,
    value: T,
) -> Result<T, T>
    ensures answer { SendsAt key (W.part whole.old) value result (W.part whole.new) }
    ensures leads { W.leads whole.old whole.new }
    ensures keeps { (me : ℕ) → Keeps W.lists me whole.old whole.new }
{
    send_table::<T>(whole.part_mut(), key, value)
}

/// Replaces the watched value with this key, and returns the value before. The runtime wakes all tasks that wait for another
/// after the turn.
///
/// The new value comes back if no watched value has the key, if it was closed, or if no version is left.
pub fn send_at<W: Holds<Many<Watch<T>>>, T: Drop, C: SharedContext<W>>(
    cx: &mut C,
    key: u64,
    value: T,
) -> Result<T, T>
    ensures answer { SendsAt key (W.part (C.shared cx.old)) value result (W.part (C.shared cx.new)) }
    ensures work { C.work cx.new ≡ C.work cx.old }
    ensures reached { C.reaches cx.old cx.new }
{
    send_part::<W, T>(cx.shared_mut(), key, value)
}

// Closes the watched value with this key.
fn close_table<T: Drop>(values: &mut Many<Watch<T>>, key: u64)
    ensures answer { ClosesAt key values.old values.new }
    ensures leads { LeadsEach (Leads Step) waiting_in owed_by values.old values.new }
    ensures keeps { (me : ℕ) → Keeps (lists_each listed_by) me values.old values.new }
{
    if values.get(key).is_none() {
        return;
    }
    values.part_mut(key).close();
}

// Closes the watched value with this key, in the whole.
pub(crate) fn close_part<W: Holds<Many<Watch<T>>>, T: Drop>(whole: &mut W, key: u64)
    ensures answer { ClosesAt key (W.part whole.old) (W.part whole.new) }
    ensures leads { W.leads whole.old whole.new }
    ensures keeps { (me : ℕ) → Keeps W.lists me whole.old whole.new }
{
    close_table::<T>(whole.part_mut(), key)
}

/// Closes the watched value with this key, if there is one. The runtime wakes all tasks that wait for another after the turn.
pub fn close_at<W: Holds<Many<Watch<T>>>, T: Drop, C: SharedContext<W>>(cx: &mut C, key: u64)
    ensures answer { ClosesAt key (W.part (C.shared cx.old)) (W.part (C.shared cx.new)) }
    ensures work { C.work cx.new ≡ C.work cx.old }
    ensures reached { C.reaches cx.old cx.new }
{
    close_part::<W, T>(cx.shared_mut(), key)
}

/// The future answers the version of the last value once it differs from the seen one. It fails with `Closed` if no watched
/// value has the key or if the value was closed, and with `Memory` if out of memory.
impl<W: Holds<Many<Watch<T>>>, T: Drop, C: SharedContext<W>> TaskFuture<C> for ChangedAt<W, T> {
    type Output = Result<u64, ChangedError>;

    ghost is_spent = { changed_at_spent };

    ghost polls = { λ f c r g d. ChangedAtPolls (λ x. W.part (C.shared x)) C.number C.work f.key f.seen f.ticket c r g.ticket d × (g.key ≡ f.key) × (g.seen ≡ f.seen) × OnReady r ((g.ticket ≡ None) × (g.has_answered ≡ true)) };

    ghost gives = { λ f. ChangedAtGives (λ x. W.part (C.shared x)) C.number C.work f.key f.seen };

    ghost cancels = { λ f c d. ChangedAtCancels (λ x. W.part (C.shared x)) C.number C.work f.key f.ticket c d };

    fn spent(&self) -> bool {
        self.has_answered
    }

    fn poll<R: Host>(
        &mut self,
        _rt: &R,
        _alloc: Global,
        cx: &mut C,
    ) -> Poll<Result<u64, ChangedError>> {
        match ask::<W, T, C>(cx, self.key, self.seen, self.ticket) {
            Changing::Waits => Poll::Pending,
            Changing::Joined(ticket) => {
                self.ticket = Some(ticket.number());
                Poll::Pending
            }
            Changing::Changed(version) => {
                self.ticket = None;
                self.has_answered = true;
                Poll::Ready(Ok(version))
            }
            Changing::Closed => {
                self.ticket = None;
                self.has_answered = true;
                Poll::Ready(Err(ChangedError::Closed))
            }
            Changing::Memory => {
                self.ticket = None;
                self.has_answered = true;
                Poll::Ready(Err(ChangedError::Memory))
            }
        }
    }

    fn cancel(self, cx: &mut C) {
        leave::<W, T, C>(cx, self.key, self.ticket)
    }
}
