// The strategy for blocking jobs, and the trait of a pool.
ghost use Rattle.std.specs.Prelude.{◌≡◌, ℕ, IsOk, ⊤};
ghost use Rattle.mono_blocking.specs.Pool.{Offers, Schedules};
ghost use Rattle.mono_blocking.specs.declared.strategy.Offered.TheVariants.{Here};

use crate::no_jobs::NoJob;
use crate::task::{BlockingTask, Job};
use mono_model::Host;
use std::alloc::Global;
use std::marker::PhantomData;

/// The strategy for a blocking job if no pool is attached.
#[derive(Clone, Copy, Debug)]
pub enum BlockingStrategy {
    /// The job is refused.
    Panic,
    /// The caller runs the job at once.
    ExecuteLocal,
}

/// A pool, or the strategy without a pool.
#[derive(Drop)]
pub enum BlockingHandle<P> {
    /// Jobs go to this pool.
    Attached(P),
    /// There is no pool.
    Empty(BlockingStrategy),
}

/// Why a pool did not take a task. The task comes back.
#[derive(Drop)]
pub enum ScheduleError<J: Job> {
    /// The pool was out of memory for it.
    Memory(BlockingTask<J>),
    /// The pool refused it, and counted a refusal.
    Refused(BlockingTask<J>),
}

/// A pool's answer to a task that is offered to it.
#[derive(Clone, Copy, Debug, PartialEq, Eq)]
pub enum Offered {
    /// It took the task.
    Taken,
    /// The caller has to run the task.
    Here,
    /// It was out of memory for the task.
    Memory,
    /// It refuses the task, and counted a refusal.
    Refused,
}

/// A value that runs blocking tasks. A caller that has a task calls `schedule_task`; a pool implements `offer`.
pub trait ThreadPool {
    /// The jobs that it runs.
    type Job: Job;

    /// How often it refused a task, which never falls. A count of 2^64 - 1 counts as risen.
    ghost refusals: { Self → ℕ };

    /// Whether it runs each task on the caller, from now on.
    ghost runs_here: { Self → Type 0 } = { λ _. ⊥ };

    /// Takes the task out of `task`, or leaves that same task there (`offer`): the caller has to run it, the pool is
    /// out of memory, or it refuses the task. It refuses a task only if the count of refusals rose in this call.
    fn offer<R: Host>(
        &mut self,
        rt: &R,
        alloc: Global,
        task: &mut Option<BlockingTask<Self::Job>>,
    ) -> Offered
        ensures offer { Offers task.old task.new (refusals self.old) (refusals self.new) result }
        ensures here { runs_here self.old → (result ≡ Here) × runs_here self.new };

    /// Offers a task to the pool, to run it here or elsewhere. Otherwise the same task comes back. The pool refuses it
    /// only if the count of refusals rose in this call (`answer`). A pool that runs each task on the caller always answers
    /// Ok (`here`). No clause says that a pool runs what it took: it may drop it.
    final fn schedule_task<R: Host>(
        &mut self,
        rt: &R,
        alloc: Global,
        task: BlockingTask<Self::Job>,
    ) -> Result<(), ScheduleError<Self::Job>>
        ensures answer { Schedules task (refusals self.old) (refusals self.new) result }
        ensures here { runs_here self.old → (IsOk result) × runs_here self.new }
    {
        let mut left = Some(task);
        let offered = self.offer(rt, alloc, &mut left);
        let Some(task) = left else {
            return Ok(());
        };
        match offered {
            Offered::Taken => unreachable!(),
            Offered::Here => {
                drop(task.run(rt));
                Ok(())
            }
            Offered::Memory => Err(ScheduleError::Memory(task)),
            Offered::Refused => Err(ScheduleError::Refused(task)),
        }
    }
}

/// A pool that is never attached: it has no thread, and runs each task on the caller.
#[derive(Drop)]
pub struct NoPool<J = NoJob> {
    marker: PhantomData<J>,
}

impl<J: Job> ThreadPool for NoPool<J> {
    type Job = J;

    ghost refusals = { λ _. 0 };

    ghost runs_here = { λ _. ⊤ };

    fn offer<R: Host>(
        &mut self,
        _rt: &R,
        _alloc: Global,
        task: &mut Option<BlockingTask<J>>,
    ) -> Offered
        ensures offer { Offers task.old task.new 0 0 result }
        ensures here { ⊤ → (result ≡ Here) × ⊤ }
    {
        Offered::Here
    }
}
