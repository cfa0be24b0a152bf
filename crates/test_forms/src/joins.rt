// A select as a main task of a built runtime, over the handles of spawned tasks. A form that has answered leaves no sleep
// behind for which a task parks.
use crate::chains::{Ended, one, told_in};
use mono_combine::{Select2, Start};
use mono_forms::FutureExt;
use mono_model::Host;
use mono_rt::{Cx, NoPool, NoUnpark, RuntimeBuilder, StepDriver, TimeDriver};
use mono_task::{JoinHandle, TaskError, TaskFuture};
use mono_time::{SleepFor, sleep_for};
use std::alloc::Global;
use std::process::Abort;
use std::time::Duration;

/// The answer of a task's handle.
type Joined = Result<u64, TaskError>;

fn millis(count: u64) -> SleepFor {
    sleep_for(Duration::from_millis(count))
}

/// Spawns two tasks, of the numbers 0 and 1, on a built runtime, and runs a main task beside them.
fn run_beside_two<F, R: Host + Abort>(
    rt: &R,
    alloc: Global,
    first: F,
    second: F,
    main: F,
) -> Ended<u64>
where
    F: TaskFuture<Cx<F, u64, NoPool, NoUnpark>, Output = u64> + Drop,
    requires { (f : F) → F.can_poll f }
{
    let driver = TimeDriver::new(StepDriver::new(Vec::new(alloc)));
    let builder: RuntimeBuilder<_, NoPool> = RuntimeBuilder::new(driver);
    let mut runtime = builder.with_journal().build(alloc).expect(rt, "memory");
    let is_first = runtime.spawn(alloc, first).is_ok();
    let is_second = runtime.spawn(alloc, second).is_ok();
    assert!(rt; is_first && is_second);
    let answer = runtime.block_on(rt, alloc, main, 1000);
    (answer, told_in(runtime.journal()))
}

/// Returns the output of a task, or 100.
fn output(answer: Joined) -> u64 {
    answer.unwrap_or(100)
}

fn passes(_: &Joined) -> bool {
    true
}

fn seven(_: Joined) -> u64 {
    7
}

fn nine() -> u64 {
    9
}

#[test]
fn a_handle_that_loses_a_select_is_dropped(rt: HostRuntime) {
    let (first, second) = (JoinHandle::of_task(0), JoinHandle::of_task(1));
    let select = Select2::new(first, second, passes, passes, 0, Start::Biased).with_bodies(
        output, seven, nine,
    );
    let ended = run_beside_two(
        &rt,
        rt.alloc(),
        millis(3).map(one).left_future(),
        millis(6).map(one).left_future(),
        select.right_future(),
    );
    assert_eq!(rt; ended, (Ok(1), (5, 1, 3)));
}
