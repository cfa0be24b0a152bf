// The calls of a context on blocking jobs, and its remote wakers.
ghost use Rattle.std.specs.Prelude.{◌≡◌, ℕ, Bool, true, IfOk, OnOk, OnErr};
ghost use Rattle.mono_model.specs.Jobs.{Jobs};
ghost use Rattle.mono_machine.specs.declared.events.Blocking.{Blocking};
ghost use Rattle.mono_blocking.specs.JobSpawns.{Spawned};
ghost use Rattle.mono_blocking.specs.Calls.{NotesMemory, PollsOutput, DropsHandle, Finds};

use crate::jobs::{JobHandle, PollJob, SpawnError};
use mono_inbox::{RemoteWaker, Unpark};
use mono_joinword::{JoinError, Outcome};
use mono_machine::Refusal;
use mono_model::{Host, Poll};
use mono_task::Context;
use std::alloc::{AllocError, Global};

/// A context with blocking jobs.
///
/// All jobs of a context have one type, so a handle and a form need no parameter for it.
pub trait JobContext: Context {
    /// The jobs that it runs.
    type Job: Outcome + Drop;

    /// What a job gives.
    type JobOutput: Outcome + Drop;

    // the jobs by number, whose handles are kept
    ghost jobs: { Self → Jobs };

    // what is done with a job
    ghost strategy: { Self → Blocking };

    // how often the pool refused a job
    ghost refusals: { Self → ℕ };

    /// Hands a job to the pool, or runs it in this call if the strategy says so. The handle has the next job number.
    ///
    /// Refused as `AtCapacity`, then as `NoPool`; then as `Memory`, or as `PoolFault` if the pool counted a refusal. The
    /// job comes back, except after `PoolFault` (`spawned`).
    fn spawn_blocking<R: Host>(
        &mut self,
        rt: &R,
        alloc: Global,
        job: Self::Job,
    ) -> Result<JobHandle, SpawnError<Self::Job>>
        ensures spawned { Spawned Self.Job.output_number job result (strategy self.old) (refusals self.old) (refusals self.new) (jobs self.old) (jobs self.new) }
        ensures strategy { strategy self.new ≡ strategy self.old }
        ensures memory { NotesMemory result (Self.is_out_of_memory self.new) }
        ensures work { Self.work self.new ≡ Self.work self.old }
        ensures reached { Self.reaches self.old self.new };

    /// Polls the handle of a job. If the job runs, the running task waits for it, in the place of any other. An output, or
    /// that the job was cancelled, is answered once.
    ///
    /// Refused as `NoTask`, then as `NoHandle`, then as `Taken`. After `Memory` nothing was asked (`polled`).
    fn poll_job(&mut self, job: u64) -> Result<Poll<Result<Self::JobOutput, JoinError>>, PollJob>
        ensures polled { PollsOutput Self.JobOutput.output_number (Self.number self.old) job result (jobs self.old) (jobs self.new) (Self.is_out_of_memory self.new) }
        ensures work { Self.work self.new ≡ Self.work self.old }
        ensures reached { Self.reaches self.old self.new };

    /// Drops the handle of a job, and returns an output that nobody took. Refused as `NoTask`, and then as `NoHandle`.
    fn drop_job(&mut self, job: u64) -> Result<Option<Result<Self::JobOutput, JoinError>>, Refusal>
        ensures dropped { DropsHandle Self.JobOutput.output_number job result (jobs self.old) (jobs self.new) }
        ensures work { Self.work self.new ≡ Self.work self.old }
        ensures reached { Self.reaches self.old self.new };

    /// Returns whether a job has ended. Refused as `drop_job` is.
    fn job_finished(&mut self, job: u64) -> Result<bool, Refusal>
        ensures found { Finds job result (jobs self.old) }
        ensures jobs { jobs self.new ≡ jobs self.old }
        ensures work { Self.work self.new ≡ Self.work self.old }
        ensures reached { Self.reaches self.old self.new };
}

/// A context that hands out remote wakers.
pub trait RemoteContext<U: Unpark>: Context {
    // whether a remote waker of the running task was handed out in this turn
    ghost has_handed_out: { Self → Bool };

    // the context once one was
    ghost handed_out: { Self → Self };

    /// Returns a remote waker of the running task, which wakes it from any thread. The context notes that it handed one
    /// out, and is as before otherwise (`same`). It fails only if out of memory, and the context notes that (`memory`).
    fn remote_waker(&mut self) -> Result<RemoteWaker<U>, AllocError>
        ensures waker { IfOk result (λ waker. waker ≡ Self.number self.old) }
        ensures same { OnOk result (self.new ≡ handed_out self.old) }
        ensures memory { OnErr result (Self.is_out_of_memory self.new ≡ true) }
        ensures work { Self.work self.new ≡ Self.work self.old }
        ensures reached { Self.reaches self.old self.new };

    ghost hands_out: { (c : Self) → has_handed_out (handed_out c) ≡ true };
}
