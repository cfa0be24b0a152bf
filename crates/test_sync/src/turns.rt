// Turns of tasks on a shared value, without a runtime: a test polls futures, and asks the value whom it owes a wake.
ghost use Rattle.std.specs.Prelude.{◌≡◌, false, refl};
ghost use Rattle.std.proofs.Common.{◌∙◌, ap, inl};
ghost use Rattle.mono_model.specs.Tasks.{no_tasks};
ghost use Rattle.mono_task.specs.Owed.{Keeps};
ghost use Rattle.test_sync.specs.Turns.{keeps_on};

mod by_key;
mod enabled;
mod keyed_channels;
mod kinds;
mod refused;
mod singles;

use mono_model::{Host, Poll};
use mono_task::{Context, SharedContext, SharedState, TaskError, TaskFuture, Woke};
use std::alloc::Global;

/// The turn of one task.
#[derive(Drop)]
pub(crate) struct Turn<W: SharedState + Drop> {
    /// The number of the task.
    pub(crate) task: u64,
    /// The shared value.
    pub(crate) shared: W,
}

/// The task alone is led through its own calls. It wakes no other.
impl<W: SharedState + Drop> Context for Turn<W> {
    ghost number = { λ c. c.task };

    ghost nanos = { λ c. 0 };

    ghost is_out_of_memory = { λ c. false };

    ghost work = { λ c. no_tasks 0 };

    ghost reaches = { λ c d. (d.task ≡ c.task) × W.leads c.shared d.shared × Keeps W.lists c.task c.shared d.shared };

    ghost wakes = { λ c t r d. d ≡ c };

    fn me(&self) -> u64 {
        self.task
    }

    fn now(&self) -> u128 {
        0
    }

    fn wake(&mut self, _task: u64) -> Result<Woke, TaskError> {
        Err(TaskError::NoTask)
    }

    ghost reaches_itself = { λ c. (refl, W.leads_itself c.shared, λ p t is. inl is) };

    ghost reaches_on = { λ a b c p q. (q.0 ∙ p.0, W.leads_on a.shared b.shared c.shared p.1 q.1, keeps_on W.lists a.task b.task a.shared b.shared c.shared p.0 p.2 q.2) };

    ghost same_number = { λ a b r. r.0 };

    ghost same_nanos = { λ a b r. refl };

    ghost stays_out_of_memory = { λ a b r is. is };
}

impl<W: SharedState + Drop> SharedContext<W> for Turn<W> {
    ghost shared = { λ c. c.shared };

    ghost with_shared = { λ c w. record c { shared = w } };

    fn shared(&self) -> &W {
        &self.shared
    }

    fn shared_mut(&mut self) -> &mut W {
        &mut self.shared
    }

    ghost shared_with = { λ c w. refl };

    ghost reaches_with = { λ c w led kept. (refl, led, kept) };

    ghost led = { λ a b r. r.1 };

    ghost kept = { λ a b r. r.2 };

    ghost wakes_nothing_shared = { λ c d t r w. ap (λ x. x.shared) w };

    ghost same_work_with = { λ c w. refl };
}

impl<W: SharedState + Drop> Turn<W> {
    /// Polls a future in this turn. Returns its answer, or none if it waits or has answered.
    pub(crate) fn answer<F: TaskFuture<Turn<W>>, R: Host>(
        &mut self,
        rt: &R,
        alloc: Global,
        future: &mut F,
    ) -> Option<F::Output>
        requires { (f : F) → F.can_poll f }
    {
        if future.spent() {
            return None;
        }
        match future.poll(rt, alloc, self) {
            Poll::Ready(answer) => Some(answer),
            Poll::Pending => None,
        }
    }

    /// Returns whether a future waits in a turn of this task.
    pub(crate) fn waits<F: TaskFuture<Turn<W>>, R: Host>(
        &mut self,
        rt: &R,
        alloc: Global,
        task: u64,
        future: &mut F,
    ) -> bool
    where
        F::Output: Drop,
        requires { (f : F) → F.can_poll f }
    {
        self.task = task;
        self.answer(rt, alloc, future).is_none()
    }

    /// Makes a call in a turn of task 9. Returns whether it was made.
    pub(crate) fn makes<A: TaskFuture<Turn<W>>, R: Host>(
        &mut self,
        rt: &R,
        alloc: Global,
        act: A,
    ) -> bool
    where
        A::Output: Drop,
        requires { (f : A) → A.can_poll f }
    {
        let mut act = act;
        self.task = 9;
        self.answer(rt, alloc, &mut act).is_some()
    }

    /// Returns whether this task alone is owed a wake, if any.
    pub(crate) fn wakes(&mut self, task: Option<u64>) -> bool {
        self.shared.next_owed() == task && self.shared.next_owed().is_none()
    }

    /// Lets a future of task 7 wait, and makes a call. Returns the future's answer if the call wakes task 7 alone.
    pub(crate) fn served<F: TaskFuture<Turn<W>>, A: TaskFuture<Turn<W>>, R: Host>(
        &mut self,
        rt: &R,
        alloc: Global,
        future: F,
        act: A,
    ) -> Option<F::Output>
    where
        A::Output: Drop,
        F::Output: Drop,
        requires future { (f : F) → F.can_poll f }
        requires act { (f : A) → A.can_poll f }
    {
        let mut future = future;
        if !self.waits(rt, alloc, 7, &mut future) || !self.makes(rt, alloc, act) {
            return None;
        }
        if !self.wakes(Some(7)) {
            return None;
        }
        self.task = 7;
        self.answer(rt, alloc, &mut future)
    }
}
