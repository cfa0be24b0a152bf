// How a runtime is set up and made.
ghost use Rattle.std.specs.Prelude.{⊤, ◌≡◌, ◌^◌, ℕ, max, Bool, true, false, not, None, [], IfOk, IfErr, IfSome, IfNone};
ghost use Rattle.mono_time.specs.Instants.{nanos_of};
ghost use Rattle.mono_time.specs.Timers.{registered_of};
ghost use Rattle.mono_blocking.specs.JobSpawns.{strategy_of, IsApart};
ghost use Rattle.mono_rt.specs.Reaches.{sharing_nothing};
ghost use Rattle.mono_rt.specs.Starts.{RunsFrom};
ghost use Rattle.mono_rt.specs.Pollable.{SpawnsPollable};
ghost use Rattle.mono_machine.specs.declared.events.Blocking.TheVariants as none;
ghost use Rattle.mono_blocking.specs.declared.strategy.BlockingHandle.TheVariants.{Attached, Empty};
ghost use Rattle.mono_blocking.specs.declared.strategy.BlockingStrategy.TheVariants.{Panic};
ghost use Rattle.mono_rt.specs.Views.{exposed, RefinesStart, HasNewJournal, default_start, futures_of, shared_of, jobs_of, is_timed, registered_in, Rests, IsAtZero, HasOwnFutures, ended_tasks};

use crate::contexts::Cx;
use crate::parts::{Journal, Parts, RunError, new_journal};
use crate::runtimes::Runtime;
use crate::wakers::Wakers;
use mono_blocking::{BlockingHandle, BlockingStrategy, Blockings, ThreadPool};
use mono_driver::{Clock, Driver, StepDriver, ThreadDriver, TimeDriver};
use mono_joinword::Outcome;
use mono_machine::Limits;
use mono_model::Host;
use mono_table::Slots;
use mono_task::{SharedState, TaskFuture};
use mono_time::{Due, Instant};
use std::alloc::{AllocError, AllocFailed, Global};

/// The inbox's first capacity if none is set.
pub(crate) const ENTRIES: u32 = 1024;

/// The least first capacity of an inbox.
const LEAST_ENTRIES: u32 = 256;

/// How many tasks, jobs and sleeps each may live at once if no limits are set.
const LIMIT: u64 = 1048576;

/// The settings of a runtime on a driver.
///
/// ```rust
/// // test_runtime/src/builders.rt
/// RuntimeBuilder::new(StepDriver::new(Vec::new(alloc)))
///     .with_blocking_strategy(BlockingStrategy::ExecuteLocal)
///     .with_journal()
///     .enable_timer()
///     .build(alloc)
/// ```
#[derive(Drop)]
pub struct RuntimeBuilder<D, P> {
    pub(crate) driver: D,
    pub(crate) pool: BlockingHandle<P>,
    pub(crate) entries: u32,
    pub(crate) limits: Limits,
    pub(crate) keeps_journal: bool,
}

impl<D: Drop, P: Drop> RuntimeBuilder<D, P> {
    /// Returns the defaults: no pool, and blocking jobs are refused; an inbox of 1024 entries; at most 2^20 tasks, jobs
    /// and sleeps each; no journal.
    pub fn new(driver: D) -> RuntimeBuilder<D, P>
        ensures driver { result.driver ≡ driver }
        ensures pool { result.pool ≡ Empty Panic }
        ensures entries { result.entries ≡ 1024 }
        ensures limits { result.limits ≡ record { tasks = 2 ^ 20; jobs = 2 ^ 20; sleeps = 2 ^ 20 } }
        ensures journal { result.keeps_journal ≡ false }
    {
        RuntimeBuilder {
            driver,
            pool: BlockingHandle::Empty(BlockingStrategy::Panic),
            entries: ENTRIES,
            limits: Limits {
                tasks: LIMIT,
                jobs: LIMIT,
                sleeps: LIMIT,
            },
            keeps_journal: false,
        }
    }

    /// Sets the inbox's first capacity, and raises it to at least 256. The capacity is a hint: the inbox grows when it
    /// must, and no clause of a runtime depends on it.
    pub fn with_entries(self, entries: u32) -> RuntimeBuilder<D, P>
        ensures { result ≡ record self { entries = max entries 256 } }
    {
        let mut this = self;
        this.entries = entries.max(LEAST_ENTRIES);
        this
    }

    /// Returns the inbox's first capacity that is set.
    pub fn entries(&self) -> u32
        ensures { result ≡ self.now.entries }
    {
        self.entries
    }

    /// Enables the timer.
    pub fn enable_timer(self) -> RuntimeBuilder<TimeDriver<D>, P>
        ensures driver { result.driver.driver ≡ self.driver }
        ensures pool { result.pool ≡ self.pool }
        ensures entries { result.entries ≡ self.entries }
        ensures limits { result.limits ≡ self.limits }
        ensures journal { result.keeps_journal ≡ self.keeps_journal }
    {
        let RuntimeBuilder {
            driver,
            pool,
            entries,
            limits,
            keeps_journal,
        } = self;
        RuntimeBuilder {
            driver: TimeDriver::new(driver),
            pool,
            entries,
            limits,
            keeps_journal,
        }
    }

    /// Enables the timer, which is all that can be enabled.
    pub fn enable_all(self) -> RuntimeBuilder<TimeDriver<D>, P>
        ensures driver { result.driver.driver ≡ self.driver }
        ensures pool { result.pool ≡ self.pool }
        ensures entries { result.entries ≡ self.entries }
        ensures limits { result.limits ≡ self.limits }
        ensures journal { result.keeps_journal ≡ self.keeps_journal }
    {
        self.enable_timer()
    }

    /// Sends blocking jobs to this pool. The last call of this and `with_blocking_strategy` wins.
    pub fn attach_thread_pool(self, pool: P) -> RuntimeBuilder<D, P>
        ensures { result ≡ record self { pool = Attached pool } }
    {
        let mut this = self;
        this.pool = BlockingHandle::Attached(pool);
        this
    }

    /// Attaches no pool: blocking jobs are refused, or run on the caller. The last call of this and
    /// `attach_thread_pool` wins.
    pub fn with_blocking_strategy(self, strategy: BlockingStrategy) -> RuntimeBuilder<D, P>
        ensures { result ≡ record self { pool = Empty strategy } }
    {
        let mut this = self;
        this.pool = BlockingHandle::Empty(strategy);
        this
    }

    /// Sets how many tasks, jobs and sleeps may live at once.
    pub fn limits(self, limits: Limits) -> RuntimeBuilder<D, P>
        ensures { result ≡ record self { limits = limits } }
    {
        let mut this = self;
        this.limits = limits;
        this
    }

    /// Lets the runtime keep a journal.
    pub fn with_journal(self) -> RuntimeBuilder<D, P>
        ensures { result ≡ record self { keeps_journal = true } }
    {
        let mut this = self;
        this.keeps_journal = true;
        this
    }
}

impl<D: Buildable, P: ThreadPool + Drop> RuntimeBuilder<D, P> {
    /// Makes a runtime. Its context refines the machine's start with the limits that were set (`stands`). The strategy
    /// is Attached if a pool is attached, else the one set before. The runtime has timers if and only if its driver has
    /// them (`timers`). No future is in its table (`futures`), nothing was done yet (`history`), and no task ended (`ended`).
    pub fn build<F: Drop, O: Outcome + Drop>(
        self,
        alloc: Global,
    ) -> Result<Runtime<F, O, D, P>, AllocError>
        ensures stands { IfOk result (λ made. RefinesStart O.output_number self.limits (strategy_of self.pool) made) }
        ensures timers { IfOk result (λ made. is_timed made ≡ D.marks_timers) }
        ensures pool { IfOk result (λ made. (jobs_of made).pool ≡ self.pool) }
        ensures driver { IfOk result (λ made. made.driver ≡ self.driver) }
        ensures journal { IfOk result (λ made. HasNewJournal self.keeps_journal made) }
        ensures history { IfOk result (λ made. made.journal.history.entries ≡ []) }
        ensures futures { IfOk result (λ made. futures_of made ≡ []) }
        ensures rests { IfOk result (λ made. Rests made) }
        ensures me { IfOk result (λ made. IsAtZero made) }
        ensures registered { IfOk result (λ made. (s : ℕ) → registered_in made s ≡ None) }
        ensures ended { IfOk result (λ made. ended_tasks made ≡ []) }
        ensures aligned { IfOk result (λ made. HasOwnFutures made) }
    {
        let made = D::build(alloc, self, ())?;
        Ok(made)
    }

    /// Makes a runtime whose tasks share this value (`shared`). Hands the value back if out of memory (`back`). All else is
    /// as in `build`.
    ///
    /// ```rust
    /// // example_channels/src/two_tasks.rt
    /// let Ok(mut runtime) = builder.build_sharing(alloc, Only { part }) else {
    ///     return None;
    /// };
    /// ```
    pub fn build_sharing<F: Drop, O: Outcome + Drop, W: SharedState + Drop>(
        self,
        alloc: Global,
        shared: W,
    ) -> Result<Runtime<F, O, D, P, W>, AllocFailed<W>>
        ensures stands { IfOk result (λ made. RefinesStart O.output_number self.limits (strategy_of self.pool) made) }
        ensures shared { IfOk result (λ made. shared_of made ≡ shared) }
        ensures back { IfErr result (λ failed. failed.value ≡ shared) }
        ensures timers { IfOk result (λ made. is_timed made ≡ D.marks_timers) }
        ensures pool { IfOk result (λ made. (jobs_of made).pool ≡ self.pool) }
        ensures driver { IfOk result (λ made. made.driver ≡ self.driver) }
        ensures journal { IfOk result (λ made. HasNewJournal self.keeps_journal made) }
        ensures history { IfOk result (λ made. made.journal.history.entries ≡ []) }
        ensures futures { IfOk result (λ made. futures_of made ≡ []) }
        ensures rests { IfOk result (λ made. Rests made) }
        ensures me { IfOk result (λ made. IsAtZero made) }
        ensures registered { IfOk result (λ made. (s : ℕ) → registered_in made s ≡ None) }
        ensures ended { IfOk result (λ made. ended_tasks made ≡ []) }
        ensures aligned { IfOk result (λ made. HasOwnFutures made) }
    {
        D::build(alloc, self, shared)
    }
}

impl<D: Driver, P: ThreadPool + Drop> RuntimeBuilder<D, P> {
    /// Makes a runtime that refines the start machine, with or without timers, and with this first reading of the
    /// clock. Hands the shared value back if out of memory.
    pub(crate) fn make<F: Drop, O: Outcome + Drop, W: SharedState + Drop>(
        self,
        alloc: Global,
        has_timers: bool,
        start: Instant,
        shared: W,
    ) -> Result<Runtime<F, O, D, P, W>, AllocFailed<W>>
        ensures shared { IfOk result (λ made. made.cx.shared ≡ shared) }
        ensures back { IfErr result (λ failed. failed.value ≡ shared) }
        ensures stands { IfOk result (λ made. RefinesStart O.output_number self.limits (strategy_of self.pool) made) }
        ensures timers { IfOk result (λ made. made.cx.parts.has_timers ≡ has_timers) }
        ensures pool { IfOk result (λ made. made.cx.parts.blocking.pool ≡ self.pool) }
        ensures driver { IfOk result (λ made. made.driver ≡ self.driver) }
        ensures entries { IfOk result (λ made. made.journal.entries.items ≡ []) }
        ensures history { IfOk result (λ made. made.journal.history.entries ≡ []) }
        ensures full { IfOk result (λ made. made.journal.is_full ≡ not self.keeps_journal) }
        ensures futures { IfOk result (λ made. made.cx.futures.items ≡ []) }
        ensures rests { IfOk result (λ made. made.cx.parts.tasks.turn ≡ None) }
        ensures me { IfOk result (λ made. (made.cx.parts.me ≡ 0) × (made.cx.parts.now ≡ start)) }
        ensures registered { IfOk result (λ made. (s : ℕ) → registered_of made.cx.parts.timers s ≡ None) }
        ensures ended { IfOk result (λ made. ended_tasks made ≡ []) }
    {
        let RuntimeBuilder {
            driver,
            pool,
            entries,
            limits,
            keeps_journal,
        } = self;
        let Ok(unpark) = driver.unpark() else {
            return Err(AllocFailed { value: shared });
        };
        let Ok(wakers) = Wakers::new(alloc, entries as usize, unpark) else {
            return Err(AllocFailed { value: shared });
        };
        let Ok(parts) = Parts::starting(alloc, limits, pool, has_timers, start) else {
            return Err(AllocFailed { value: shared });
        };
        Ok(Runtime {
            cx: Cx {
                parts,
                futures: Slots::new(alloc),
                wakers,
                waker: None,
                has_handed_out: false,
                shared,
            },
            driver,
            journal: new_journal(alloc, !keeps_journal),
            due: Due::new(alloc),
        })
    }
}

/// A driver for which a runtime can be made.
pub trait Buildable: Driver + Sized {
    /// whether a runtime on this driver has timers
    ghost marks_timers: { Bool } = { false };

    /// Returns whether a runtime on this driver has timers.
    fn has_timers() -> bool
        ensures { result ≡ marks_timers };

    /// Makes a runtime, as `RuntimeBuilder::build` specifies.
    final fn build<F: Drop, O: Outcome + Drop, P: ThreadPool + Drop, W: SharedState + Drop>(
        alloc: Global,
        this: RuntimeBuilder<Self, P>,
        shared: W,
    ) -> Result<Runtime<F, O, Self, P, W>, AllocFailed<W>>
        ensures shared { IfOk result (λ made. shared_of made ≡ shared) }
        ensures back { IfErr result (λ failed. failed.value ≡ shared) }
        ensures stands { IfOk result (λ made. RefinesStart O.output_number this.limits (strategy_of this.pool) made) }
        ensures timers { IfOk result (λ made. is_timed made ≡ marks_timers) }
        ensures pool { IfOk result (λ made. (jobs_of made).pool ≡ this.pool) }
        ensures driver { IfOk result (λ made. made.driver ≡ this.driver) }
        ensures journal { IfOk result (λ made. HasNewJournal this.keeps_journal made) }
        ensures history { IfOk result (λ made. made.journal.history.entries ≡ []) }
        ensures futures { IfOk result (λ made. futures_of made ≡ []) }
        ensures rests { IfOk result (λ made. Rests made) }
        ensures me { IfOk result (λ made. IsAtZero made) }
        ensures registered { IfOk result (λ made. (s : ℕ) → registered_in made s ≡ None) }
        ensures ended { IfOk result (λ made. ended_tasks made ≡ []) }
    {
        this.make(alloc, Self::has_timers(), zero(), shared)
    }
}

impl Buildable for StepDriver {
    fn has_timers() -> bool {
        false
    }
}

impl<C: Clock + Drop> Buildable for ThreadDriver<C> {
    fn has_timers() -> bool {
        false
    }
}

/// A runtime on it has timers.
impl<D: Driver> Buildable for TimeDriver<D> {
    ghost marks_timers = { true };

    fn has_timers() -> bool {
        true
    }
}

// The clock's zero.
fn zero() -> Instant
    ensures { nanos_of result ≡ 0 }
{
    match Instant::from_nanos(0) {
        Some(zero) => zero,
        None => unreachable!(),
    }
}

impl<F: Drop, O: Outcome + Drop, D: Driver, P: ThreadPool + Drop, W: SharedState + Drop> Runtime<
    F,
    O,
    D,
    P,
    W,
> {
    /// Returns the attached pool (`some`); None if and only if none is attached (`none`).
    pub fn into_pool(self) -> Option<P>
        ensures some { IfSome result (λ pool. (jobs_of self).pool ≡ Attached pool) }
        ensures none { IfNone result (IsApart (jobs_of self).pool) }
    {
        let (blocking, _journal) = self.apart();
        blocking.into_pool()
    }

    /// Consumes the runtime, and returns the jobs with their pool or strategy, and the journal.
    pub(crate) fn apart(self) -> (Blockings<P>, Journal)
        ensures blocking { result.0 ≡ self.cx.parts.blocking }
        ensures journal { result.1 ≡ self.journal }
    {
        let Runtime {
            cx,
            driver: _,
            journal,
            due: _,
        } = self;
        let Cx {
            parts,
            futures: _,
            wakers: _,
            waker: _,
            has_handed_out: _,
            shared: _,
        } = cx;
        let Parts { blocking, .. } = parts;
        (blocking, journal)
    }
}

/// Makes a runtime with the defaults on this driver, and runs the future on it as `Runtime::block_on` does. There is a
/// history from the machine's start that `Blocked` specifies for the answer (`history`). Its readings and parks are the
/// driver's. Each park ends at the next expiration over the registered ticks, of which there are none at the start. Each
/// turn is one poll of its task's own future, or none if that is spent, also the one in which memory ran out. An answer is
/// one that the future gives (`given`). The tasks share nothing, so no clause is about what a park finds in the shared value.
///
/// The future can be polled, and so can each that a turn spawns (`callable`, `others`).
pub fn start<D, F, O, P, R: Host>(
    rt: &R,
    alloc: Global,
    driver: D,
    future: F,
    turns: u64,
) -> Result<O, RunError>
where
    F: TaskFuture<Cx<F, O, P, D::Unpark>, Output = O> + Drop,
    O: Outcome + Drop,
    D: Buildable,
    P: ThreadPool + Drop,
    requires callable { F.can_poll future }
    requires others { SpawnsPollable F.TaskFuture ⊤ }
    ensures given { IfOk result (F.gives future) }
    ensures history { RunsFrom O.output_number sharing_nothing F.TaskFuture D.marks_timers turns future result default_start tt (exposed D.Clock driver) }
{
    let builder: RuntimeBuilder<D, P> = RuntimeBuilder::new(driver);
    match builder.build(alloc) {
        Err(_) => Err(RunError::Memory),
        Ok(runtime) => {
            let mut runtime = runtime;
            runtime.block_on(rt, alloc, future, turns)
        }
    }
}
