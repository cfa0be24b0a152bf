// The executor as a running task sees it.
ghost use Rattle.std.proofs.Common.{ap};
ghost use Rattle.std.specs.Prelude.{refl, ◌≡◌, ◌++◌, ◌∷◌, [], true, Option, Some, None, Err, IfOk, IfErr, OnOk, OnErr};
ghost use Rattle.mono_model.specs.Table.{next_number};
ghost use Rattle.mono_model.specs.Tasks.{woken, woken_if_any, spawned};
ghost use Rattle.mono_model.specs.Joins.{wake_answer, join_answer, joined, drop_answer, join_dropped};
ghost use Rattle.mono_model.specs.SleepAnswers.{without_waker, waker_in};
ghost use Rattle.mono_model.specs.declared.error.SleepError.TheVariants.{Memory};
ghost use Rattle.mono_task.specs.Schedule as schedule;
ghost use Rattle.mono_task.specs.Spawns.{refused_future, IsRefusedIfFull};
ghost use Rattle.mono_task.specs.Work.{without_outputs};
ghost use Rattle.mono_time.specs.Instants.{nanos_of};
ghost use Rattle.mono_time.specs.Sleeps.{Added, sleep_poll_answer, with_polled_sleep, sleep_reset_answer, with_reset_sleep, sleep_remove_answer, with_removed_sleep};
ghost use Rattle.mono_time.specs.Timers.{sleeps_of};
ghost use Rattle.mono_rt.specs.Remains.{ChangesPartsAndFutures, HandsOut, NotesMemory};
ghost use Rattle.mono_rt.specs.Reaches.{ReachesSharing, sharing_itself, sharing_on, by_shared};
ghost use Rattle.mono_rt.specs.Views.{running_in, WakesAlone, LacksMemory, tasks_in, work_in, sleeps_in, futures_in, KeepsWork, NotesSpawn, NotesWake, NotesJoin, NotesDrop, NotesSleep, NotesPoll, NotesGone, NotesReset};

use crate::parts::Parts;
use crate::wakers::Wakers;
use mono_blocking::{Blockings, ThreadPool};
use mono_inbox::{RemoteWaker, Unpark};
use mono_joinword::Outcome;
use mono_table::Slots;
use mono_task::{
    Context, JoinContext, JoinHandle, Poll, SharedContext, SharedState, SpawnRefused, SpawnTask,
    TaskError, Woke,
};
use mono_time::{Error, Instant, SleepError, TimeContext};
use std::alloc::{AllocError, Global};

/// The executor as a running task sees it: its tasks, sleeps and futures.
#[derive(Drop)]
pub struct Cx<F, O, P: ThreadPool, U: Unpark, W = ()> {
    pub(crate) parts: Parts<O, Blockings<P>>,
    // the future of each task by its number, and its remote waker once it has had a turn; the place is removed when the
    // task ends
    pub(crate) futures: Slots<F, RemoteWaker<U>>,
    pub(crate) wakers: Wakers<U>,
    // the waker of the task whose turn runs, unless it ran out of memory
    pub(crate) waker: Option<RemoteWaker<U>>,
    // whether a clone of that waker was handed out in this turn
    pub(crate) has_handed_out: bool,
    // the shared value of the tasks
    pub(crate) shared: W,
}

impl<F: Drop, O: Outcome + Drop, P: ThreadPool + Drop, U: Unpark, W: SharedState + Drop> Cx<
    F,
    O,
    P,
    U,
    W,
> {
    /// Makes a task of this future, queues it last, and stores the future under the task's number.
    ///
    /// Refused with `AtCapacity` if and only if the number of live tasks is at the limit or the next number is 2^64 - 1
    /// (`full`); otherwise with `Memory` if an allocation failed. A refused future comes back (`back`).
    ///
    /// The spawn, made or refused, is an act of the turn; an allocation that fails is none (`kept`).
    ///
    /// ```rust
    /// // tools/bench/mono_bench/src/turns/work.rt.txt
    /// match cx.spawn(alloc, work) {
    ///     Ok(handle) => {
    ///         let number = handle.task();
    ///         let _ = handle.cancel_join(cx);
    ///         Some(number)
    ///     }
    ///     Err(_) => None,
    /// }
    /// ```
    pub fn spawn(&mut self, alloc: Global, future: F) -> Result<JoinHandle<O>, SpawnRefused<F>>
        ensures number { IfOk result (λ handle. handle ≡ next_number (tasks_in self.old).table) }
        ensures tasks { OnOk result (tasks_in self.new ≡ spawned (tasks_in self.old)) }
        ensures futures { OnOk result (futures_in self.new ≡ futures_in self.old ++ Some future ∷ []) }
        ensures refused { OnErr result (KeepsWork self.old self.new) }
        ensures none { OnErr result (futures_in self.new ≡ futures_in self.old) }
        ensures back { IfErr result (λ refusal. refused_future refusal ≡ future) }
        ensures full { IsRefusedIfFull (tasks_in self.old) result }
        ensures same { ChangesPartsAndFutures self.old self.new }
        ensures kept { NotesSpawn result self.old self.new }
        ensures reached { ReachesSharing O.output_number W.SharedState self.old self.new }
    {
        if self.parts.tasks.has_no_place() {
            self.parts.refuse_spawn();
            return Err(SpawnRefused::AtCapacity(future));
        }
        if let Err(future) = self.futures.reserve_value(alloc, future) {
            self.parts.is_out_of_memory = true;
            return Err(SpawnRefused::Memory(future));
        }
        match self.parts.spawn(alloc) {
            Ok(t) => {
                self.futures.commit();
                Ok(JoinHandle::of_task(t))
            }
            Err(SpawnTask::AtCapacity) => Err(SpawnRefused::AtCapacity(self.futures.abort())),
            Err(SpawnTask::Memory) => Err(SpawnRefused::Memory(self.futures.abort())),
        }
    }

    /// Returns a remote waker of the task whose turn runs (`task`): a clone of the waker made before its first turn
    /// (`waker`). The context notes that it handed one out, and is as before otherwise (`same`). It fails only if out of
    /// memory. The flag of the turn notes that (`noted`), so the runtime answers Memory.
    pub fn remote_waker(&mut self) -> Result<RemoteWaker<U>, AllocError>
        ensures task { IfOk result (λ waker. waker ≡ running_in self.old) }
        ensures waker { IfOk result (λ waker. self.old.waker ≡ Some waker) }
        ensures same { OnOk result (HandsOut self.old self.new) }
        ensures noted { OnErr result (NotesMemory self.old self.new) }
        ensures reached { ReachesSharing O.output_number W.SharedState self.old self.new }
    {
        match hand_out(&mut self.waker, self.parts.me) {
            Ok(waker) => {
                self.has_handed_out = true;
                Ok(waker)
            }
            Err(error) => {
                self.parts.is_out_of_memory = true;
                Err(error)
            }
        }
    }

    /// Notes that an allocation of the running turn failed, for a future that allocates by itself. The runtime then
    /// answers Memory after the turn.
    pub fn note_out_of_memory(&mut self)
        ensures noted { NotesMemory self.old self.new }
        ensures reached { ReachesSharing O.output_number W.SharedState self.old self.new }
    {
        self.parts.is_out_of_memory = true;
    }
}

/// Returns a further waker of this task, if the waker is its own and a clone could be made.
fn hand_out<U: Unpark>(
    waker: &mut Option<RemoteWaker<U>>,
    task: u64,
) -> Result<RemoteWaker<U>, AllocError>
    ensures task { IfOk result (λ copy. copy ≡ task) }
    ensures waker { IfOk result (λ copy. waker.old ≡ Some copy) }
    ensures same { waker.new ≡ waker.old }
{
    match waker {
        Some(own) if own.task() == task => own.hand_out(),
        _ => Err(AllocError),
    }
}

impl<F: Drop, O: Outcome + Drop, P: ThreadPool + Drop, U: Unpark, W: SharedState + Drop> Context
    for Cx<F, O, P, U, W> {
    ghost number = { λ c. c.parts.me };

    ghost nanos = { λ c. nanos_of c.parts.now };

    ghost is_out_of_memory = { λ c. c.parts.is_out_of_memory };

    ghost work = { λ c. without_outputs c.parts.tasks.tasks };

    ghost reaches = { ReachesSharing O.output_number W.SharedState };

    ghost wakes = { λ c t r d. (d.parts.tasks.tasks ≡ woken c.parts.tasks.tasks t) × (d.parts.timers ≡ c.parts.timers) × (d.shared ≡ c.shared) };

    fn me(&self) -> u64 {
        self.parts.me
    }

    fn now(&self) -> u128 {
        self.parts.now.as_nanos()
    }

    fn wake(&mut self, task: u64) -> Result<Woke, TaskError>
        ensures answer { result ≡ wake_answer (work_in self.old) task }
        ensures work { work_in self.new ≡ woken (work_in self.old) task }
        ensures woke { WakesAlone task self.old self.new }
        ensures kept { NotesWake task result self.old self.new }
        ensures reached { ReachesSharing O.output_number W.SharedState self.old self.new }
    {
        self.parts.wake(task)
    }

    ghost reaches_itself = { sharing_itself O.output_number _ W.leads_itself };

    ghost reaches_on = { sharing_on O.output_number _ W.leads_on };

    ghost same_number = { λ a b r. r.parts.same_me };

    ghost same_nanos = { λ a b r. ap nanos_of r.parts.same_now };

    ghost stays_out_of_memory = { λ a b r. r.parts.memory };
}

impl<
    F: Drop,
    O: Outcome + Drop,
    P: ThreadPool + Drop,
    U: Unpark,
    W: SharedState + Drop,
> JoinContext<O> for Cx<F, O, P, U, W> {
    ghost tasks = { λ c. c.parts.tasks.tasks };

    fn poll_join(&mut self, task: u64) -> Result<Poll<O>, TaskError>
        ensures answer { result ≡ join_answer (tasks_in self.old) task }
        ensures tasks { tasks_in self.new ≡ joined (tasks_in self.old) task (running_in self.old) }
        ensures kept { NotesJoin O.output_number task result self.old self.new }
        ensures reached { ReachesSharing O.output_number W.SharedState self.old self.new }
    {
        self.parts.poll_join(task)
    }

    fn drop_join(&mut self, task: u64) -> Result<Option<O>, TaskError>
        ensures answer { result ≡ drop_answer (tasks_in self.old) task }
        ensures tasks { tasks_in self.new ≡ join_dropped (tasks_in self.old) task }
        ensures kept { NotesDrop O.output_number task result self.old self.new }
        ensures reached { ReachesSharing O.output_number W.SharedState self.old self.new }
    {
        self.parts.drop_join(task)
    }

    fn is_finished(&self, task: u64) -> Result<bool, TaskError> {
        self.parts.tasks.is_finished(task)
    }

    ghost same_work = { λ c. refl };

    ghost wakes_tasks = { λ c d t r w. w.0 };
}

impl<F: Drop, O: Outcome + Drop, P: ThreadPool + Drop, U: Unpark, W: SharedState + Drop> TimeContext
    for Cx<F, O, P, U, W> {
    ghost sleeps = { λ c. sleeps_of c.parts.timers };

    fn add_sleep(&mut self, alloc: Global, deadline: Instant) -> Result<u64, SleepError>
        ensures added { Added (sleeps_in self.old) (nanos_of deadline) result (sleeps_in self.new) }
        ensures memory { result ≡ Err Memory → LacksMemory self.new }
        ensures work { work_in self.new ≡ work_in self.old }
        ensures kept { NotesSleep (nanos_of deadline) result self.old self.new }
        ensures reached { ReachesSharing O.output_number W.SharedState self.old self.new }
    {
        self.parts.add_sleep(alloc, deadline)
    }

    fn poll_sleep(&mut self, sleep: u64) -> Result<Poll<()>, Error>
        ensures answer { result ≡ sleep_poll_answer (sleeps_in self.old) sleep }
        ensures sleeps { sleeps_in self.new ≡ with_polled_sleep (sleeps_in self.old) sleep (running_in self.old) }
        ensures work { work_in self.new ≡ work_in self.old }
        ensures kept { NotesPoll sleep result self.old self.new }
        ensures reached { ReachesSharing O.output_number W.SharedState self.old self.new }
    {
        self.parts.poll_sleep(sleep)
    }

    fn reset_sleep(&mut self, sleep: u64, deadline: Instant) -> Result<(), Error>
        ensures answer { result ≡ without_waker (sleep_reset_answer (sleeps_in self.old) sleep (nanos_of deadline)) }
        ensures sleeps { sleeps_in self.new ≡ with_reset_sleep (sleeps_in self.old) sleep (nanos_of deadline) }
        ensures work { work_in self.new ≡ woken_if_any (work_in self.old) (waker_in (sleep_reset_answer (sleeps_in self.old) sleep (nanos_of deadline))) }
        ensures kept { NotesReset sleep (nanos_of deadline) result self.old self.new }
        ensures reached { ReachesSharing O.output_number W.SharedState self.old self.new }
    {
        self.parts.reset_sleep(sleep, deadline)
    }

    fn drop_sleep(&mut self, sleep: u64) -> Result<(), Error>
        ensures answer { result ≡ sleep_remove_answer (sleeps_in self.old) sleep }
        ensures sleeps { sleeps_in self.new ≡ with_removed_sleep (sleeps_in self.old) sleep }
        ensures work { work_in self.new ≡ work_in self.old }
        ensures kept { NotesGone sleep result self.old self.new }
        ensures reached { ReachesSharing O.output_number W.SharedState self.old self.new }
    {
        self.parts.drop_sleep(sleep)
    }

    fn sleep_elapsed(&self, sleep: u64) -> Result<bool, Error> {
        self.parts.timers.is_elapsed(sleep)
    }

    ghost wakes_no_sleep = { λ c d t r w. ap sleeps_of w.1 };
}

impl<
    F: Drop,
    O: Outcome + Drop,
    P: ThreadPool + Drop,
    U: Unpark,
    W: SharedState + Drop,
> SharedContext<W> for Cx<F, O, P, U, W> {
    ghost shared = { λ c. c.shared };

    ghost with_shared = { λ c w. record c { shared = w } };

    fn shared(&self) -> &W {
        &self.shared
    }

    fn shared_mut(&mut self) -> &mut W {
        &mut self.shared
    }

    ghost shared_with = { λ c w. refl };

    ghost reaches_with = { by_shared O.output_number _ };

    ghost led = { λ a b r. r.shared };

    ghost kept = { λ a b r. r.kept };

    ghost wakes_nothing_shared = { λ c d t r w. w.2 };

    ghost same_work_with = { λ c w. refl };
}
