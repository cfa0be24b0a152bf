// The parts of a runtime at its start.
ghost use Rattle.std.specs.Prelude.{◌≡◌, ℕ, IfOk, None};
ghost use Rattle.mono_machine.specs.Machine.{start_machine};
ghost use Rattle.mono_blocking.specs.JobSpawns.{strategy_of};
ghost use Rattle.mono_time.specs.Timers.{registered_of};
ghost use Rattle.mono_rt.specs.Refinement.{hosting_of, Matches};

use crate::parts::acts::Acts;
use crate::parts::state::Parts;
use mono_blocking::{BlockingHandle, Blockings, ThreadPool};
use mono_joinword::Outcome;
use mono_machine::Limits;
use mono_task::Tasks;
use mono_time::{Instant, Timers};
use std::alloc::{AllocError, Global};

impl<O: Outcome + Drop, P: ThreadPool + Drop> Parts<O, Blockings<P>> {
    /// Returns parts without tasks, sleeps and jobs, with the pool or strategy for the jobs.
    pub fn starting(
        alloc: Global,
        limits: Limits,
        pool: BlockingHandle<P>,
        has_timers: bool,
        now: Instant,
    ) -> Result<Parts<O, Blockings<P>>, AllocError>
        ensures stands { IfOk result (λ parts. Matches O.output_number hosting_of parts (start_machine limits (strategy_of pool))) }
        ensures pool { IfOk result (λ parts. parts.blocking.pool ≡ pool) }
        ensures timers { IfOk result (λ parts. parts.has_timers ≡ has_timers) }
        ensures rests { IfOk result (λ parts. parts.tasks.turn ≡ None) }
        ensures me { IfOk result (λ parts. (parts.me ≡ 0) × (parts.now ≡ now)) }
        ensures registered { IfOk result (λ parts. (s : ℕ) → registered_of parts.timers s ≡ None) }
    {
        match Tasks::new(alloc, limits.tasks) {
            Err(error) => Err(error),
            Ok(tasks) => match Timers::new(alloc, limits.sleeps, has_timers) {
                Err(error) => Err(error),
                Ok(timers) => Ok(Parts {
                    tasks,
                    timers,
                    has_timers,
                    blocking: Blockings::new(alloc, pool, limits.jobs),
                    acts: Acts::keeping_none(alloc),
                    me: 0,
                    now,
                    is_out_of_memory: false,
                }),
            },
        }
    }
}
