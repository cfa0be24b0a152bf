// Spawns outside of a turn, and the context between two turns.
ghost use Rattle.std.specs.Prelude.{◌≡◌, ◌++◌, ◌∷◌, [], Some, IfOk, IfErr, OnOk, OnErr};
ghost use Rattle.mono_model.specs.Table.{next_number};
ghost use Rattle.mono_model.specs.Tasks.{spawned};
ghost use Rattle.mono_task.specs.Spawns.{refused_future, IsRefusedIfFull};
ghost use Rattle.mono_rt.specs.Remains.{ChangesTasksAlone};
ghost use Rattle.mono_rt.specs.Views.{SpawnsOne, turn_of, turns_begun, context_of, tasks_of, futures_of, shared_of, is_timed, HasOwnFutures, KeepsTasks};

use crate::contexts::Cx;
use crate::runtimes::Runtime;
use mono_blocking::ThreadPool;
use mono_driver::Driver;
use mono_joinword::Outcome;
use mono_task::{JoinHandle, SharedState, SpawnRefused, SpawnTask};
use std::alloc::Global;

impl<F: Drop, O: Outcome + Drop, D: Driver, P: ThreadPool + Drop, W: SharedState + Drop> Runtime<
    F,
    O,
    D,
    P,
    W,
> {
    /// Makes a task of this future, and queues it last; it has its turns in calls of `block_on`. The future is stored
    /// under the task's number (`number`, `futures`). A spent one is not polled in its turns.
    ///
    /// Refused with `AtCapacity` if and only if the number of live tasks is at the limit or the next number is 2^64 - 1
    /// (`full`); otherwise with `Memory` if an allocation failed. For each machine that the context refined, the spawn
    /// is the machine's, with its reply (`machine`). A refused future is handed back (`back`), and all tasks, sleeps and
    /// futures are as before (`refused`). Each future still has its task's number (`aligned`). The journal does not
    /// record the spawn, and the driver gets no call (`journal`, `same`).
    ///
    /// ```rust
    /// // example_channels/src/two_tasks.rt
    /// runtime.spawn(alloc, producer).ok()?;
    /// ```
    pub fn spawn(&mut self, alloc: Global, future: F) -> Result<JoinHandle<O>, SpawnRefused<F>>
        ensures number { IfOk result (λ handle. handle ≡ next_number (tasks_of self.old).table) }
        ensures tasks { OnOk result (tasks_of self.new ≡ spawned (tasks_of self.old)) }
        ensures futures { OnOk result (futures_of self.new ≡ futures_of self.old ++ Some future ∷ []) }
        ensures machine { SpawnsOne O.output_number result self.old self.new }
        ensures back { IfErr result (λ refusal. refused_future refusal ≡ future) }
        ensures full { IsRefusedIfFull (tasks_of self.old) result }
        ensures refused { OnErr result (KeepsTasks self.old self.new) }
        ensures aligned { HasOwnFutures self.old → HasOwnFutures self.new }
        ensures has_timers { is_timed self.new ≡ is_timed self.old }
        ensures turn { turn_of self.new ≡ turn_of self.old }
        ensures shared { shared_of self.new ≡ shared_of self.old }
        ensures journal { self.new.journal ≡ self.old.journal }
        ensures same { ChangesTasksAlone self.old self.new }
    {
        if self.cx.parts.tasks.has_no_place() {
            return Err(SpawnRefused::AtCapacity(future));
        }
        if let Err(future) = self.cx.futures.reserve_value(alloc, future) {
            return Err(SpawnRefused::Memory(future));
        }
        match self.cx.parts.tasks.spawn(alloc) {
            Ok(t) => {
                self.cx.futures.commit();
                Ok(JoinHandle::of_task(t))
            }
            Err(SpawnTask::AtCapacity) => Err(SpawnRefused::AtCapacity(self.cx.futures.abort())),
            Err(SpawnTask::Memory) => Err(SpawnRefused::Memory(self.cx.futures.abort())),
        }
    }

    /// Returns how many turns the runtime has begun, at most 2^64 - 1. A call of `block_on` raises it by its turns.
    pub fn turns(&self) -> u64
        ensures { result ≡ turns_begun self.now }
    {
        self.cx.parts.tasks.turns()
    }

    /// Returns the context: the tasks, sleeps and futures between two calls.
    pub fn context(&self) -> &Cx<F, O, P, D::Unpark, W>
        ensures { result.now ≡ context_of self.now }
    {
        &self.cx
    }
}
