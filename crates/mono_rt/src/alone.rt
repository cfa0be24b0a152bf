// A whole run of a runtime of its own.
ghost use Rattle.std.specs.Prelude.{⊤, ◌≡◌, IfOk, true};
ghost use Rattle.mono_machine.specs.Machine.{start_machine};
ghost use Rattle.mono_blocking.specs.JobSpawns.{strategy_of};
ghost use Rattle.mono_rt.specs.JournalRoom.{IsOneLong};
ghost use Rattle.mono_rt.specs.Reaches.{sharing_nothing};
ghost use Rattle.mono_rt.specs.Rounds.{Blocked};
ghost use Rattle.mono_rt.specs.DriverReadings.{IsTold};
ghost use Rattle.mono_rt.specs.Pollable.{SpawnsPollable};
ghost use Rattle.mono_rt.specs.Views.{exposed, BlocksFrom, IsRunFrom, ParksFrom, PollsFrom, StillPollsFrom};

use crate::contexts::Cx;
use crate::parts::{Journal, RunError};
use crate::runtimes::Runtime;
use mono_blocking::{BlockingHandle, ThreadPool};
use mono_driver::Driver;
use mono_joinword::Outcome;
use mono_machine::Limits;
use mono_model::Host;
use mono_task::TaskFuture;
use mono_time::Instant;
use std::alloc::{AllocError, Global};

/// Runs a main task on a new runtime, and returns the journal with the answer.
///
/// The journal's history is the one that `Blocked` specifies for the answer, from the machine's start (`blocked`). So
/// it is a run of the reference machine from its start (`run`). Each park ends at the next expiration over the
/// registered ticks, of which there are none at the start (`parks`). The readings are the driver's (`told`). If the
/// driver exposes its time, a reading is that time and the length of the parks since; if it exposes its readings, the
/// next of them. The journal is full only if a turn made more than 512 acts (`full`). Until it is full its entries are the
/// history (`Journal::kept`). An answer is one that the future gives (`given`).
///
/// Each turn of the history is one poll of its task's own future, from the futures that the turns before it left
/// (`polled`). A future that is spent is not polled: its turn ends pending. If the answer is Memory, this holds of the
/// turn in which memory ran out, too (`still_polled`).
///
/// The tasks share nothing, so no clause is about what a park finds in the shared value (`listed` of `block_on`).
///
/// The future can be polled, and so can each that a turn spawns (`callable`, `others`).
pub fn run_alone<F, O, D, P, R: Host>(
    rt: &R,
    alloc: Global,
    driver: D,
    pool: BlockingHandle<P>,
    limits: Limits,
    future: F,
    turns: u64,
) -> Result<(Result<O, RunError>, Journal), AllocError>
where
    F: TaskFuture<Cx<F, O, P, D::Unpark>, Output = O> + Drop,
    O: Outcome + Drop,
    D: Driver,
    P: ThreadPool + Drop,
    requires callable { F.can_poll future }
    requires others { SpawnsPollable F.TaskFuture ⊤ }
    ensures blocked { IfOk result (λ r. BlocksFrom O.output_number turns (start_machine limits (strategy_of pool)) r) }
    ensures given { IfOk result (λ r. IfOk r.0 (F.gives future)) }
    ensures told { IfOk result (λ r. IsTold r.0 (exposed D.Clock driver) r.1.history.entries) }
    ensures run { IfOk result (λ r. IsRunFrom (start_machine limits (strategy_of pool)) r.1) }
    ensures parks { IfOk result (λ r. ParksFrom (start_machine limits (strategy_of pool)) r.1) }
    ensures polled { IfOk result (λ r. PollsFrom O.output_number sharing_nothing F.TaskFuture future (start_machine limits (strategy_of pool)) tt r) }
    ensures still_polled { IfOk result (λ r. StillPollsFrom O.output_number sharing_nothing F.TaskFuture future (start_machine limits (strategy_of pool)) tt r) }
    ensures full { IfOk result (λ r. r.1.is_full ≡ true → IsOneLong O.output_number sharing_nothing F.TaskFuture) }
{
    let mut runtime = Runtime::new(alloc, driver, pool, limits, true, Instant::ZERO, ())?;
    let answer = runtime.block_on(rt, alloc, future, turns);
    Ok((answer, runtime.into_journal()))
}
