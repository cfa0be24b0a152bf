// The remote wakers of a runtime's tasks, and when the inbox learns of them.
ghost use Rattle.std.specs.Prelude.{◌≡◌, ◌+◌, ◌++◌, ◌∷◌, ◌<◌, ◌⊎◌, [], IfOk, IfSome, IfNone, MatchOption, length, vec_len, vec_capacity};
ghost use Rattle.mono_rt.specs.Drains.{IsReady};
ghost use Rattle.mono_rt.specs.EndedTasks.{all_in, closed_in};

use crate::parts::{Journal, Taken, take_waiting};
use mono_inbox::{Inbox, RemoteWaker, Unpark};
use mono_machine::List;
use mono_model::{History, Host, Tells};
use std::alloc::{AllocError, Global};
use std::mem;

/// How many tasks are made known or unknown under one lock.
const LOT: usize = 64;

/// The inbox, and the calls on it that are put off so that a task takes its lock less than once. Tasks are made known
/// in rows, before their first turns, and made unknown together, after their ends.
///
/// No thread has a waker of a task that had no turn yet. A wake of a task that ended is not listed, once a drain has made
/// the task unknown. One that came before is listed, and the drain finds the task finished. Each wake ends a park.
#[derive(Drop)]
pub struct Wakers<U: Unpark> {
    inbox: Inbox<U>,
    // each task below this number was made known
    known: u64,
    // tasks that ended and were not made unknown since
    pub(crate) ended: Vec<u64>,
    // the waker of a task that ended, which serves the next task
    spare: Option<RemoteWaker<U>>,
    // in proofs alone: the lists that the drains took from the inbox, in order
    pub(crate) taken: History<List<u64>>,
    // in proofs alone: the lists of tasks that were made unknown, in order
    pub(crate) retired: History<List<u64>>,
    // in proofs alone: an entry for each park that a refused drain ended
    pub(crate) unparks: History<()>,
}

/// Tasks that are made unknown together, as an entry of a history.
struct Together;

impl Tells<Vec<u64>, List<u64>> for Together {
    ghost entry = { λ tasks. tasks.items };
}

/// One task that is made unknown alone, as an entry of a history.
struct Alone;

impl Tells<u64, List<u64>> for Alone {
    ghost use Rattle.std.specs.Prelude.{◌∷◌, []};

    ghost entry = { λ task. task ∷ [] };
}

impl<U: Unpark> Wakers<U> {
    /// Makes an inbox with room for `entries` tasks, none of which is known.
    pub(crate) fn new(alloc: Global, entries: usize, unpark: U) -> Result<Wakers<U>, AllocError>
        ensures { IfOk result (λ wakers. closed_in wakers.retired.entries wakers.ended.items ≡ []) }
    {
        let ended = Vec::with_capacity(alloc, LOT)?;
        Ok(Wakers {
            inbox: Inbox::new(alloc, entries, unpark)?,
            known: 0,
            ended,
            spare: None,
            taken: History::new(),
            retired: History::new(),
            unparks: History::new(),
        })
    }

    /// Returns the waker of a task that begins a turn: the old one, or a new one before its first turn. Returns None if
    /// it ran out of memory.
    #[inline(always)]
    pub(crate) fn open<R: Host>(
        &mut self,
        rt: &R,
        alloc: Global,
        task: u64,
        had: Option<RemoteWaker<U>>,
    ) -> Option<RemoteWaker<U>>
        ensures own { IfSome result (λ waker. waker ≡ task) }
        ensures ended { self.new.ended ≡ self.old.ended }
        ensures retired { self.new.retired ≡ self.old.retired }
    {
        if let Some(waker) = had {
            if waker.task() == task {
                return Some(waker);
            }
        }
        if task >= self.known {
            self.know(rt, alloc, task);
        }
        if task < self.known {
            self.made(task)
        } else {
            None
        }
    }

    /// Makes a waker of a task that is known.
    fn made(&mut self, task: u64) -> Option<RemoteWaker<U>>
        ensures own { IfSome result (λ waker. waker ≡ task) }
        ensures ended { self.new.ended ≡ self.old.ended }
        ensures retired { self.new.retired ≡ self.old.retired }
    {
        match mem::replace(&mut self.spare, None) {
            Some(spare) => Some(spare.of_task(task)),
            None => self.inbox.waker_of_known(task).ok(),
        }
    }

    /// Makes this task and a row of tasks after it known, as far as memory lasts.
    fn know<R: Host>(&mut self, rt: &R, alloc: Global, task: u64)
        ensures ended { self.new.ended ≡ self.old.ended }
        ensures retired { self.new.retired ≡ self.old.retired }
    {
        let until = task.saturating_add(LOT as u64);
        self.known = self.inbox.lock(rt).know_row(alloc, self.known, until);
    }

    /// Records that the task ended, with its waker (`closed`). The task is made unknown with others, at the latest by
    /// the next `retire_ended`.
    #[inline(always)]
    pub(crate) fn close<R: Host>(&mut self, rt: &R, task: u64, waker: Option<RemoteWaker<U>>)
        ensures closed { closed_in self.new.retired.entries self.new.ended.items ≡ closed_in self.old.retired.entries self.old.ended.items ++ task ∷ [] }
    {
        if self.spare.is_none() {
            self.spare = waker;
        }
        self.make_room(rt);
        if self.ended.len() < self.ended.capacity() {
            self.ended.push_reserved(task);
        } else {
            self.inbox.retire(rt, task);
            self.retired = self.retired.told::<u64, Alone>(&task);
        }
    }

    /// Makes the tasks that ended unknown if their list is full. So it has room, or is empty.
    #[inline(always)]
    fn make_room<R: Host>(&mut self, rt: &R)
        ensures room { (vec_len self.new.ended < vec_capacity self.new.ended) ⊎ (self.new.ended.items ≡ []) }
        ensures closed { closed_in self.new.retired.entries self.new.ended.items ≡ closed_in self.old.retired.entries self.old.ended.items }
    {
        if self.ended.len() == self.ended.capacity() {
            self.retire_ended(rt);
        }
    }

    /// Makes the tasks that ended unknown, under one lock, if there are any. None is left (`none`).
    #[inline(always)]
    pub(crate) fn retire_ended<R: Host>(&mut self, rt: &R)
        ensures none { self.new.ended.items ≡ [] }
        ensures retired { all_in self.new.retired.entries ≡ closed_in self.old.retired.entries self.old.ended.items }
        ensures taken { self.new.taken ≡ self.old.taken }
        ensures unparks { self.new.unparks ≡ self.old.unparks }
    {
        if !self.ended.is_empty() {
            self.retire_list(rt);
        }
    }

    /// Makes the tasks that ended unknown, under one lock. None is left (`none`).
    #[inline(never)]
    fn retire_list<R: Host>(&mut self, rt: &R)
        ensures none { self.new.ended.items ≡ [] }
        ensures retired { all_in self.new.retired.entries ≡ closed_in self.old.retired.entries self.old.ended.items }
        ensures taken { self.new.taken ≡ self.old.taken }
        ensures unparks { self.new.unparks ≡ self.old.unparks }
    {
        self.inbox.retire_all(rt, &self.ended);
        self.retired = self.retired.told::<Vec<u64>, Together>(&self.ended);
        self.ended.clear();
    }

    /// Makes the tasks that ended unknown, and takes all that waits, with room for its wakes and for their entries. Takes
    /// nothing if out of memory; the next park then ends at once, so that the next drain takes it.
    #[inline(always)]
    pub(crate) fn drain<R: Host>(
        &mut self,
        rt: &R,
        alloc: Global,
        journal: &mut Journal,
    ) -> Option<Taken>
        ensures ready { IfSome result (λ taken. IsReady taken journal.new) }
        ensures taken { IfSome result (λ taken. self.new.taken.entries ≡ self.old.taken.entries ++ taken.tasks.items ∷ []) }
        ensures refused { IfNone result (self.new.taken.entries ≡ self.old.taken.entries) }
        ensures unparks { MatchOption result (length self.new.unparks.entries ≡ length self.old.unparks.entries + 1) (λ taken. self.new.unparks ≡ self.old.unparks) }
        ensures history { journal.new.history.entries ≡ journal.old.history.entries }
        ensures full { journal.new.is_full ≡ journal.old.is_full }
        ensures held { journal.new.entries.held ≡ journal.old.entries.held }
        ensures closed { closed_in self.new.retired.entries self.new.ended.items ≡ closed_in self.old.retired.entries self.old.ended.items }
    {
        self.retire_ended(rt);
        let answer = take_waiting(alloc, &mut self.inbox.lock(rt), journal, &mut self.taken);
        if answer.is_none() {
            self.end_next_park(rt);
        }
        answer
    }

    /// Ends the next park at once, since what waits was not taken, and counts that.
    fn end_next_park<R: Host>(&mut self, rt: &R)
        ensures unparks { length self.new.unparks.entries ≡ length self.old.unparks.entries + 1 }
        ensures taken { self.new.taken ≡ self.old.taken }
        ensures retired { self.new.retired ≡ self.old.retired }
        ensures ended { self.new.ended ≡ self.old.ended }
    {
        self.inbox.unpark(rt);
        self.unparks = self.unparks.and(&());
    }
}
