// The run of a script on a runtime.
ghost use Rattle.std.specs.Prelude.{◌≡◌, ◌≢◌, false, length, map, Err, IfOk, IfSome, IfNone, OnOk};
ghost use Rattle.mono_blocking.specs.Counts.{counted_by};
ghost use Rattle.mono_run.specs.Journal.{journal_text};
ghost use Rattle.mono_run.specs.Script.{IsSound};
ghost use Rattle.mono_rt.specs.Rounds.{output_in};
ghost use Rattle.mono_rt.specs.declared.parts.errors.RunError.TheVariants as error;
ghost use Rattle.mono_rt.specs.DriverReadings.{telling};
ghost use Rattle.mono_run.specs.ScriptDrivers.{readings_of, time_of, parks_of, submits_of, faults_of, can_fail_of};
ghost use Rattle.mono_run.specs.RunRecord.{Ran, RunsScript, RanBy, told_first, answer_of, told};

use crate::entries::journal_lines;
use crate::parser::Script;
use crate::{ScriptDriver, ScriptJob, ScriptTask};
use mono_blocking::{BlockingHandle, DefaultThreadPool, Spawner};
use mono_driver::{Clock, StepDriver, ThreadDriver};
use mono_model::Host;
use mono_rt::{Instant, Journal, RunError, Runtime, TaskWait};
use std::alloc::{AllocError, AllocFailed, Global};

/// How a run ended.
#[derive(Clone, Copy, Debug, PartialEq, Eq)]
pub enum RunEnd {
    /// The main task returned this output.
    Output(u64),
    /// The budget was spent.
    Turns,
    /// There was no place for the main task.
    Capacity,
}

/// The end of a run, and the lines of its journal.
#[derive(Drop)]
pub struct ScriptRun {
    pub end: RunEnd,
    pub text: Vec<u8>,
    /// The live tasks with the sources for which they wait, if the budget was spent, at most 4096 tasks may be live, and
    /// memory lasted.
    pub waits: Vec<TaskWait>,
}

type ScriptRuntime<'a, C> = Runtime<
    ScriptTask<'a>,
    u64,
    ScriptDriver<C>,
    DefaultThreadPool<ScriptJob>,
>;

// Returns a driver that never waits without workers, and else a driver that parks its thread, over the clock.
fn driver_for<C: Clock + Drop>(
    alloc: Global,
    workers: usize,
    clock: C,
) -> Result<ScriptDriver<C>, AllocError>
    ensures { IfOk result (λ driver. telling (readings_of C.readings driver) (time_of driver) (parks_of driver) (submits_of driver) (faults_of driver) (can_fail_of driver) ≡ told_first workers (C.readings clock)) }
{
    if workers == 0 {
        return Ok(ScriptDriver::Steps(StepDriver::new(Vec::new(alloc))));
    }
    match ThreadDriver::new(alloc, clock) {
        Ok(driver) => Ok(ScriptDriver::Threads(driver)),
        Err(refused) => Err(refused),
    }
}

// Returns how a run with this answer ended. Out of memory is no end, and the driver never fails.
fn end_of(answer: &Result<u64, RunError>) -> Option<RunEnd>
    requires { answer.now ≢ Err error.Driver }
    ensures some { IfSome result (λ end. answer.now ≡ answer_of end) }
    ensures none { IfNone result (answer.now ≡ Err error.Memory) }
{
    match answer {
        Ok(output) => Some(RunEnd::Output(*output)),
        Err(RunError::Turns) => Some(RunEnd::Turns),
        Err(RunError::AtCapacity) => Some(RunEnd::Capacity),
        Err(RunError::Memory) => None,
        Err(RunError::Driver) => unreachable!(),
    }
}

fn output_of(end: RunEnd) -> Option<u64>
    ensures { result ≡ output_in (answer_of end) }
{
    match end {
        RunEnd::Output(output) => Some(output),
        RunEnd::Turns => None,
        RunEnd::Capacity => None,
    }
}

// Returns the lines of the journal, which has all entries: a turn of a script has fewer acts than make a journal full.
fn told_of(
    alloc: Global,
    journal: &Journal,
    answer: &Result<u64, RunError>,
    waits: Vec<TaskWait>,
) -> Result<ScriptRun, AllocError>
    requires end { answer.now ≢ Err error.Driver }
    requires unfull { journal.now.is_full ≡ false }
    ensures answer { IfOk result (λ run. answer.now ≡ answer_of run.end) }
    ensures kept { OnOk result (journal.now.is_full ≡ false) }
    ensures text { IfOk result (λ run. run.text.items ≡ journal_text (map told journal.now.entries.items) (output_in (answer_of run.end))) }
{
    let Some(end) = end_of(answer) else {
        return Err(AllocError);
    };
    let text = journal_lines(alloc, journal, output_of(end))?;
    Ok(ScriptRun { end, text, waits })
}

// The greatest limit of tasks with which the live tasks are listed. The time of the list is at most its square.
const MOST_LISTED: u64 = 4096;

// Returns the live tasks with the sources for which they wait, if the budget was spent, the limit of tasks is not above
// `MOST_LISTED`, and memory lasts.
fn waits_of<C: Clock + Drop>(
    alloc: Global,
    runtime: &ScriptRuntime<C>,
    answer: &Result<u64, RunError>,
    most_tasks: u64,
) -> Vec<TaskWait> {
    if !matches!(answer, Err(RunError::Turns)) || most_tasks > MOST_LISTED {
        return Vec::new(alloc);
    }
    match runtime.tasks(alloc) {
        Ok(waits) => waits,
        Err(_) => Vec::new(alloc),
    }
}

// Closes the pool, so that its workers end.
fn end_workers<R: Host, C: Clock + Drop>(rt: &R, runtime: ScriptRuntime<C>) {
    if let Some(pool) = runtime.into_pool() {
        pool.close(rt);
    }
}

// Returns the clock's zero.
fn zero() -> Instant {
    match Instant::from_nanos(0) {
        Some(zero) => zero,
        None => unreachable!(),
    }
}

/// Runs kind 0 of the script as the main task of a new runtime with timers and a journal, with a budget of `turns`. The
/// pool has `workers` workers, and asks the spawner for them one by one. Without workers the time is the sum of the
/// parks, and the clock is not read.
///
/// It returns how the run ended, and the lines of its journal (`ran`). Without workers each reading in the journal is
/// the sum of the parks before it. With workers, if the clock exposes its readings, they are these, in order (`reads`).
/// If the script is sound, the turns in the journal are those that its lines give (`driven`). Once a call ran out of
/// memory, nothing is returned. This hides no driver's error, since the driver cannot fail. It hides no full journal,
/// since a turn has at most 510 acts. The workers end when they have run the queued jobs, for each answer. They go on waiting only if there was no memory for the runtime
/// itself. The thread that started them joins them.
pub fn run_script<R: Host + Send + 'static, C: Clock + Drop, P: Spawner>(
    rt: &R,
    alloc: Global,
    script: &Script,
    workers: usize,
    turns: u64,
    clock: C,
    spawner: &mut P,
) -> Result<ScriptRun, AllocError>
    ensures ran { IfOk result (λ run. Ran script.now.limits turns run.end run.text.items) }
    ensures driven { IfOk result (λ run. IsSound (length script.now.kinds) script.now → RunsScript workers (C.readings clock) script.now turns run.end run.text.items) }
    ensures reads { IfOk result (λ run. RanBy workers (C.readings clock) script.now.limits turns run.end run.text.items) }
    ensures starts { OnOk result (P.starts spawner.new ≡ counted_by workers (P.starts spawner.old)) }
{
    let main = ScriptTask::new(alloc, &script.kinds, 0)?;
    let driver = driver_for(alloc, workers, clock)?;
    let pool = DefaultThreadPool::new(rt, alloc, workers, spawner)?;
    let handle = BlockingHandle::Attached(pool);
    let made: Result<ScriptRuntime<C>, AllocFailed<()>> = Runtime::new(
        alloc,
        driver,
        handle,
        script.limits,
        true,
        zero(),
        (),
    );
    let mut runtime = made?;
    let answer = runtime.block_on(rt, alloc, main, turns);
    let waits = waits_of(alloc, &runtime, &answer, script.limits.tasks);
    let told = told_of(alloc, runtime.journal(), &answer, waits);
    end_workers(rt, runtime);
    told
}
