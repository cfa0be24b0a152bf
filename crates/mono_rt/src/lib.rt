//! The runtime: futures that run on a context, and the drivers on which it waits.
#![tactic(auto)]

mod alone;
mod block_on;
mod buildable;
mod builder;
mod contexts;
mod drains;
mod ends;
mod handles;
mod job_calls;
mod parts;
mod runtimes;
mod spawn_calls;
mod spawns;
mod task_waits;
mod turns;
mod wakers;

pub use alone::run_alone;
pub use builder::{Buildable, RuntimeBuilder, start};
pub use contexts::Cx;
pub use mono_blocking::{
    BlockingHandle, BlockingStrategy, DefaultThreadPool, Job, JobContext, JobError, JobHandle,
    NoJob, NoPool, NoSpawner, OutputOf, PollJob, RemoteContext, RunJob, SpawnError, Spawner,
    ThreadPool, ThreadSpawner, run_job,
};
pub use mono_driver::{
    Clock, Driver, DriverFault, FailingDriver, Instant, ListClock, StepDriver, SystemClock,
    ThreadDriver, TimeDriver,
};
pub use mono_inbox::{NoUnpark, RemoteWaker, Unpark, UnparkHandle};
pub use mono_joinword::{JoinError, Outcome};
pub use mono_machine::{
    Act, Blocking, End, Ended, Event, How, Limits, List, MAX_NANOS, Query, Refusal, Reply, Report,
    TurnStep, Woke,
};
pub use mono_model::{Host, Poll};
pub use mono_task::{
    Context, JoinContext, JoinHandle, SharedContext, SharedState, SpawnContext, SpawnRefused,
    TaskError, TaskFuture, TaskPhase,
};
pub use mono_time::{
    Elapsed, Error, Interval, LateError, MissedTickBehavior, Sleep, SleepError, SleepFor, Tick,
    TimeContext, Timeout, TimeoutError, TimeoutFor, TimeoutRefused, Timers, interval, interval_at,
    sleep, sleep_for, sleep_until, timeout, timeout_at, timeout_for,
};
pub use parts::{Entry, Journal, RunError, laws};
pub use runtimes::Runtime;
pub use task_waits::{TaskWait, WaitsFor};
