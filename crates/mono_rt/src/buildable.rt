// How a runtime is made from its parts.
ghost use Rattle.std.specs.Prelude.{◌≡◌, ℕ, IfOk, IfErr, None, false, []};
ghost use Rattle.mono_blocking.specs.JobSpawns.{strategy_of};
ghost use Rattle.mono_rt.specs.Views.{RefinesStart, futures_of, shared_of, jobs_of, is_timed, registered_in, Rests, IsFirstAt, ended_tasks};

use crate::builder::{ENTRIES, RuntimeBuilder};
use crate::parts::Journal;
use crate::runtimes::Runtime;
use mono_blocking::{BlockingHandle, ThreadPool};
use mono_driver::Driver;
use mono_joinword::Outcome;
use mono_machine::Limits;
use mono_task::SharedState;
use mono_time::Instant;
use std::alloc::{AllocFailed, Global};

impl<F: Drop, O: Outcome + Drop, D: Driver, P: ThreadPool + Drop, W: SharedState + Drop> Runtime<
    F,
    O,
    D,
    P,
    W,
> {
    /// Makes a runtime with a journal, whose tasks share this value. It refines the start machine with the pool's
    /// strategy. Before the first turn its context's reading is `start`, and no task had a turn (`first`). Hands the
    /// shared value back if out of memory (`back`).
    pub fn new(
        alloc: Global,
        driver: D,
        pool: BlockingHandle<P>,
        limits: Limits,
        has_timers: bool,
        start: Instant,
        shared: W,
    ) -> Result<Runtime<F, O, D, P, W>, AllocFailed<W>>
        ensures shared { IfOk result (λ runtime. shared_of runtime ≡ shared) }
        ensures back { IfErr result (λ failed. failed.value ≡ shared) }
        ensures stands { IfOk result (λ runtime. RefinesStart O.output_number limits (strategy_of pool) runtime) }
        ensures pool { IfOk result (λ runtime. (jobs_of runtime).pool ≡ pool) }
        ensures timers { IfOk result (λ runtime. is_timed runtime ≡ has_timers) }
        ensures driver { IfOk result (λ runtime. runtime.driver ≡ driver) }
        ensures rests { IfOk result (λ runtime. Rests runtime) }
        ensures journal { IfOk result (λ runtime. runtime.journal.entries.items ≡ []) }
        ensures history { IfOk result (λ runtime. runtime.journal.history.entries ≡ []) }
        ensures futures { IfOk result (λ runtime. futures_of runtime ≡ []) }
        ensures unfull { IfOk result (λ runtime. runtime.journal.is_full ≡ false) }
        ensures first { IfOk result (IsFirstAt start) }
        ensures registered { IfOk result (λ runtime. (s : ℕ) → registered_in runtime s ≡ None) }
        ensures ended { IfOk result (λ runtime. ended_tasks runtime ≡ []) }
    {
        let builder = RuntimeBuilder {
            driver,
            pool,
            entries: ENTRIES,
            limits,
            keeps_journal: true,
        };
        builder.make(alloc, has_timers, start, shared)
    }

    /// Returns the journal of all that its calls of `block_on` and `run_until` did.
    pub fn journal(&self) -> &Journal
        ensures { result.now ≡ self.now.journal }
    {
        &self.journal
    }

    /// Returns the value that the tasks share, between two calls of `block_on`.
    pub fn shared(&self) -> &W
        ensures { result.now ≡ shared_of self.now }
    {
        &self.cx.shared
    }

    /// Consumes the runtime, and returns its journal.
    pub(crate) fn into_journal(self) -> Journal
        ensures { result ≡ self.journal }
    {
        let (_jobs, journal) = self.apart();
        journal
    }
}
