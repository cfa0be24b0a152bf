// The end of a runtime.
ghost use Rattle.std.specs.Prelude.{◌≡◌, IfNone, IfSome};
ghost use Rattle.mono_blocking.specs.JobSpawns.{IsApart};
ghost use Rattle.mono_blocking.specs.declared.strategy.BlockingHandle.TheVariants.{Attached};
ghost use Rattle.mono_rt.specs.Views.{jobs_of, shared_of};

use crate::contexts::Cx;
use crate::parts::{Journal, Parts};
use crate::runtimes::Runtime;
use mono_blocking::ThreadPool;
use mono_driver::Driver;
use mono_joinword::Outcome;
use mono_task::SharedState;

impl<F: Drop, O: Outcome + Drop, D: Driver, P: ThreadPool + Drop, W: SharedState + Drop> Runtime<
    F,
    O,
    D,
    P,
    W,
> {
    /// Consumes the runtime, and returns its driver, its pool and its journal. There is no pool if and only if none was
    /// attached (`some`, `none`).
    pub fn into_driver(self) -> (D, Option<P>, Journal)
        ensures driver { result.0 ≡ self.driver }
        ensures some { IfSome result.1 (λ pool. (jobs_of self).pool ≡ Attached pool) }
        ensures none { IfNone result.1 (IsApart (jobs_of self).pool) }
        ensures journal { result.2 ≡ self.journal }
    {
        let Runtime {
            cx,
            driver,
            journal,
            due: _,
        } = self;
        let Cx {
            parts,
            futures: _,
            wakers: _,
            waker: _,
            has_handed_out: _,
            shared: _,
        } = cx;
        let Parts { blocking, .. } = parts;
        (driver, blocking.into_pool(), journal)
    }

    /// Consumes the runtime, and returns the value that its tasks shared.
    pub fn into_shared(self) -> W
        ensures { result ≡ shared_of self }
    {
        let Runtime {
            cx,
            driver: _,
            journal: _,
            due: _,
        } = self;
        let Cx {
            parts: _,
            futures: _,
            wakers: _,
            waker: _,
            has_handed_out: _,
            shared,
        } = cx;
        shared
    }
}
