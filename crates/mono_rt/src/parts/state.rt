// The parts of a runtime other than its futures.
use crate::parts::acts::Acts;
use mono_task::Tasks;
use mono_time::{Instant, Timers};

/// The tasks, the sleeps, the jobs with their pool or strategy, and the record of the running turn. Nothing here
/// depends on the type of the futures, so the acts of a turn are proved here. The calls of the context's traits leave
/// the jobs unchanged, and require nothing of their type.
#[derive(Drop)]
pub struct Parts<O, B> {
    pub tasks: Tasks<O>,
    pub timers: Timers,
    pub has_timers: bool,
    pub blocking: B,
    pub acts: Acts,
    pub me: u64,
    pub now: Instant,
    pub is_out_of_memory: bool,
}
