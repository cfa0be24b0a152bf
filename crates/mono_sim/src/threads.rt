// A runtime as a thread runs it.
ghost use Rattle.mono_rt.specs.Views.{Rests, CanRun};
ghost use Rattle.mono_sim.specs.Courses.{RunsOnce};

use mono_blocking::ThreadPool;
use mono_driver::Driver;
use mono_joinword::Outcome;
use mono_model::Host;
use mono_rt::{Cx, RunError, Runtime};
use mono_task::{JoinHandle, SharedState, TaskFuture};
use std::alloc::Global;

/// Runs a runtime on any driver by one call of `run_until`, as a thread does. `once` has each clause of that call. A world
/// shows nothing else of a runtime (`laws::threads_may`).
pub fn run_once<F, O, D, P, W, R>(
    rt: &R,
    alloc: Global,
    runtime: &mut Runtime<F, O, D, P, W>,
    main: &JoinHandle<O>,
    turns: u64,
) -> Result<(), RunError>
where
    F: TaskFuture<Cx<F, O, P, D::Unpark, W>, Output = O> + Drop,
    O: Outcome + Drop,
    D: Driver,
    P: ThreadPool + Drop,
    W: SharedState + Drop,
    R: Host,
    requires callable { CanRun F.TaskFuture runtime.old }
    requires rests { Rests runtime.old }
    ensures once { RunsOnce O.output_number W.SharedState D.Clock F.TaskFuture main.now turns result runtime.old runtime.new }
    ensures callable { CanRun F.TaskFuture runtime.new }
    ensures rests { Rests runtime.new }
{
    runtime.run_until(rt, alloc, main, turns)
}
