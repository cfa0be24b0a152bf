// Small futures on a driver that never waits.
ghost use Rattle.std.specs.Prelude.{⊤, false};
ghost use Rattle.mono_rt.specs.Views.{Rests};

use crate::runs::a_runtime;
use crate::turns::Gives;
use mono_blocking::{BlockingHandle, BlockingStrategy, NoPool};
use mono_machine::Limits;
use mono_model::Host;
use mono_rt::{Driver, RunError, Runtime, StepDriver, TaskPhase, TaskWait, WaitsFor};
use mono_task::{Poll, TaskFuture};
use mono_time::{Sleep, TimeContext, sleep};
use std::alloc::Global;
use std::process::Abort;
use std::rc::Rc;
use std::time::Duration;

/// A future that is ready with a number, or waits for ever, or sleeps for some milliseconds and then is ready with
/// their number. The output is in an `Rc`, which no other thread may have.
#[derive(Drop)]
pub(crate) enum Work {
    Ready(Rc<u64, Global>),
    Waits,
    Sleeps(u64, Option<Sleep>),
}

impl<C: TimeContext> TaskFuture<C> for Work {
    type Output = u64;

    ghost is_spent = { λ f. false };

    ghost polls = { λ f c r g d. ⊤ };

    ghost cancels = { λ f c d. ⊤ };

    fn spent(&self) -> bool {
        false
    }

    fn poll<R: Host>(&mut self, rt: &R, alloc: Global, cx: &mut C) -> Poll<u64> {
        match self {
            Work::Ready(output) => Poll::Ready(**output),
            Work::Waits => Poll::Pending,
            Work::Sleeps(ticks, kept) => poll_sleeping(rt, alloc, cx, *ticks, kept),
        }
    }

    fn cancel(self, cx: &mut C) {
        match self {
            Work::Sleeps(_, kept) => {
                if let Some(delay) = kept {
                    delay.cancel(cx);
                }
            }
            Work::Ready(_) | Work::Waits => {}
        }
    }
}

/// Polls a sleep of this many milliseconds, which is made at the first poll.
fn poll_sleeping<R: Host, C: TimeContext>(
    rt: &R,
    alloc: Global,
    cx: &mut C,
    ticks: u64,
    kept: &mut Option<Sleep>,
) -> Poll<u64>
    ensures { C.reaches cx.old cx.new }
{
    if kept.is_none() {
        match sleep(alloc, cx, Duration::from_millis(ticks)) {
            Ok(delay) => *kept = Some(delay),
            Err(_) => return Poll::Pending,
        }
    }
    match kept {
        Some(delay) => match delay.poll(rt, alloc, cx) {
            Poll::Ready(_) => Poll::Ready(ticks),
            Poll::Pending => Poll::Pending,
        },
        None => Poll::Pending,
    }
}

const LIMITS: Limits = Limits {
    tasks: 16,
    jobs: 16,
    sleeps: 16,
};

/// A runtime of such tasks.
pub(crate) type Worked<D> = Runtime<Work, u64, D, NoPool<Gives>>;

/// Such a runtime on a driver that never waits.
pub(crate) type Quiet = Worked<StepDriver>;

/// Returns the answer of such a task as the main one, with a budget of `units` turns. It has no clauses, so callers
/// have none to carry.
pub(crate) fn outcome_of<D: Driver, R: Host>(
    rt: &R,
    alloc: Global,
    runtime: &mut Worked<D>,
    main: Work,
    units: u64,
) -> Result<u64, RunError>
    requires { Rests runtime.old }
{
    runtime.block_on(rt, alloc, main, units)
}

/// Returns a driver that never waits, and whose call with this number fails, if there is one.
fn stepping<R: Abort>(rt: &R, alloc: Global, fails: Option<u64>) -> StepDriver {
    let mut failing = Vec::new(alloc);
    if let Some(call) = fails {
        failing.push(call).expect(rt, "memory");
    }
    StepDriver::new(failing)
}

/// Returns a runtime on such a driver.
pub(crate) fn quiet<R: Abort>(rt: &R, alloc: Global, fails: Option<u64>) -> Quiet
    ensures { Rests result }
{
    let pool = BlockingHandle::Empty(BlockingStrategy::Panic);
    a_runtime(rt, alloc, stepping(rt, alloc, fails), pool, LIMITS, true)
}

/// Returns a task that is ready with this number.
pub(crate) fn ready<R: Abort>(rt: &R, alloc: Global, output: u64) -> Work {
    Work::Ready(Rc::new(alloc, output).expect(rt, "memory"))
}

/// Returns a runtime with a spawned task that is ready with 2.
fn with_two<R: Abort>(rt: &R, alloc: Global) -> Quiet
    ensures { Rests result }
{
    let two = ready(rt, alloc, 2);
    let mut runtime = quiet(rt, alloc, None);
    assert!(rt; runtime.spawn(alloc, two).is_ok());
    runtime
}

/// Returns whether a main task with this budget ends so, and the journal then has this many entries, if that is
/// checked.
fn ends<R: Host>(
    rt: &R,
    alloc: Global,
    runtime: Quiet,
    main: Work,
    units: u64,
    answer: Result<u64, RunError>,
    entries: Option<usize>,
) -> bool
    requires { Rests runtime }
{
    let mut runtime = runtime;
    let ended = outcome_of(rt, alloc, &mut runtime, main, units);
    let has = runtime.journal().len();
    let has_no_pool = runtime.into_pool().is_none();
    has_no_pool && ended == answer && entries.unwrap_or(has) == has
}

/// No task may live.
const NO_TASK: Limits = Limits {
    tasks: 0,
    jobs: 16,
    sleeps: 16,
};

/// Returns whether a main task that is refused as at capacity is dropped, so that its output has no other holder, and
/// the refusal is the journal's one entry.
fn lets_the_refused_go<R: Host + Abort>(rt: &R, alloc: Global, output: &Rc<u64, Global>) -> bool {
    let theirs = Work::Ready(output.clone().expect(rt, "memory"));
    let pool = BlockingHandle::Empty(BlockingStrategy::Panic);
    let driver = stepping(rt, alloc, None);
    let mut runtime: Quiet = a_runtime(rt, alloc, driver, pool, NO_TASK, true);
    let answer = outcome_of(rt, alloc, &mut runtime, theirs, 3);
    let owners = Rc::strong_count(output);
    let is_kept = runtime.journal().len() == 1 && !runtime.journal().is_full();
    let has_no_pool = runtime.into_pool().is_none();
    has_no_pool & is_kept & (answer == Err(RunError::AtCapacity)) & (owners == 1)
}

/// Returns whether a main task that waits for ever ends so, with a budget of 3 turns.
fn waits<R: Host + Abort>(rt: &R, alloc: Global, fails: Option<u64>, answer: RunError) -> bool {
    let runtime = quiet(rt, alloc, fails);
    ends(rt, alloc, runtime, Work::Waits, 3, Err(answer), None)
}

#[test]
fn blocks(rt: HostRuntime) {
    let alloc = rt.alloc();
    // each turn has two entries
    let two = with_two(&rt, alloc);
    assert!(rt; ends(&rt, alloc, two, ready(&rt, alloc, 1), 10, Ok(1), Some(6)));
    let output = Rc::new(alloc, 7).expect(&rt, "memory");
    assert!(rt; lets_the_refused_go(&rt, alloc, &output));
    assert!(rt; waits(&rt, alloc, None, RunError::Turns));
    assert!(rt; waits(&rt, alloc, Some(0), RunError::Driver));
    let one = quiet(&rt, alloc, None);
    assert!(rt; ends(&rt, alloc, one, Work::Sleeps(5, None), 10, Ok(5), Some(10)));
}

/// Returns the row of an idle task that waits for this source.
fn idle(task: u64, waits_for: WaitsFor) -> TaskWait {
    TaskWait {
        task,
        phase: TaskPhase::Idle,
        waits_for,
        is_handed_out: false,
    }
}

/// Returns whether the list has exactly these two rows.
fn has_two_rows(list: &[TaskWait], first: TaskWait, second: TaskWait) -> bool {
    match list {
        [one, two] => *one == first && *two == second,
        _ => false,
    }
}

// A task that sleeps for a second has an armed sleep. The main task registered nowhere, so it is stuck.
#[test]
fn a_task_that_registered_nowhere_is_stuck(rt: HostRuntime) {
    let alloc = rt.alloc();
    let mut runtime = quiet(&rt, alloc, None);
    assert!(rt; runtime.spawn(alloc, Work::Sleeps(1000, None)).is_ok());
    let answer = outcome_of(&rt, alloc, &mut runtime, Work::Waits, 2);
    let list = runtime.tasks(alloc).expect(&rt, "memory");
    let sleeps = idle(0, WaitsFor::Sleep(0, 1000));
    let stuck = idle(1, WaitsFor::Nothing);
    assert!(rt; answer == Err(RunError::Turns));
    assert!(rt; has_two_rows(&list, sleeps, stuck));
    assert!(rt; !sleeps.is_stuck() & stuck.is_stuck());
    assert!(rt; runtime.into_pool().is_none());
}
