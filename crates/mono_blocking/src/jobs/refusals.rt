// Why a job was not made, or not asked.
use mono_machine::Refusal;

/// Why a job was not made. The job comes back, unless the pool refused it.
#[derive(Drop)]
pub enum SpawnError<J> {
    /// The call was out of memory for it.
    Memory(J),
    /// The kept jobs are at their limit, or the numbers are used up.
    AtCapacity(J),
    /// No pool is attached, and jobs are refused then.
    NoPool(J),
    /// The pool refused the job and counted a refusal. The job was cancelled.
    PoolFault,
}

/// Why a job was not asked for its output.
#[derive(Clone, Copy, Debug, PartialEq, Eq)]
pub enum PollJob {
    /// The waker could not be cloned.
    Memory,
    /// NoTask, NoHandle or Taken.
    Refused(Refusal),
}
