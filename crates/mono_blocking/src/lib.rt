//! Jobs that block: a job with the runner's end of its word, the pool whose workers run jobs, and the spawner of the
//! workers' threads.
#![tactic(auto)]

mod contexts;
mod handles;
mod jobs;
mod no_jobs;
mod pool;
mod queue;
mod runs;
mod signal;
mod spawner;
mod spawners;
mod strategy;
mod task;
mod worker;

pub use contexts::{JobContext, RemoteContext};
pub use jobs::{
    Answered, Blockings, End, JobHandle, JobTable, OutputOf, PollJob, PolledJob, SpawnError,
};
pub use mono_joinword::{JoinError, Outcome};
pub use no_jobs::NoJob;
pub use pool::DefaultThreadPool;
pub use runs::{JobError, RunJob, run_job};
pub use spawner::{Entry, Spawner, StartFault};
pub use spawners::{NoSpawner, ThreadSpawner};
pub use strategy::{BlockingHandle, BlockingStrategy, NoPool, Offered, ScheduleError, ThreadPool};
pub use task::{BlockingTask, Job, JobJoiner, JobWaker, Spent};
pub use worker::Worker;
