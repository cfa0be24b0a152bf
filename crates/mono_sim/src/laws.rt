//! Laws on schedules and runtimes, as functions with empty bodies.
ghost use Rattle.mono_sim.specs.Threads.{IsAsOnThreads};
ghost use Rattle.mono_sim.specs.Turns.{IsFair, StaysPlanned, IsPlanned, IsOneRun};

use mono_blocking::ThreadPool;
use mono_driver::Driver;
use mono_joinword::Outcome;
use mono_rt::Cx;
use mono_task::{SharedState, TaskFuture};

/// Shows that schedules are fair: an unfinished runtime has a step within twice as many steps as there are unfinished
/// runtimes, unless the world ends before (`fair`). Only a step in which its main task finishes takes a runtime out of the
/// schedule (`stays`).
pub fn each_has_its_step<F, O, D, P, W>()
where
    F: TaskFuture<Cx<F, O, P, D::Unpark, W>, Output = O> + Drop,
    O: Outcome + Drop,
    D: Driver,
    P: ThreadPool + Drop,
    W: SharedState + Drop,
    ensures fair { IsFair O.output_number W.SharedState D.Clock F.TaskFuture }
    ensures stays { StaysPlanned O.output_number W.SharedState D.Clock F.TaskFuture }
{}

/// Shows that a plan follows from the plan before it and from what the steps did: what the runtimes answered, and whether
/// they had a turn (`planned`). So two worlds of one seed have equal plans as long as their runtimes answer alike: the same
/// runtimes are drawn, with the same budgets (`one_run`).
pub fn plans_follow<F, O, D, P, W>()
where
    F: TaskFuture<Cx<F, O, P, D::Unpark, W>, Output = O> + Drop,
    O: Outcome + Drop,
    D: Driver,
    P: ThreadPool + Drop,
    W: SharedState + Drop,
    ensures planned { IsPlanned O.output_number W.SharedState D.Clock F.TaskFuture }
    ensures one_run { IsOneRun O.output_number W.SharedState D.Clock F.TaskFuture }
{}

/// Shows that threads may do what a world shows: after any steps each runtime went on by calls of `run_until` on its main
/// task, with each clause of that call, and by nothing else. `run_once` makes such a call on any driver.
pub fn threads_may<F, O, D, P, W>()
where
    F: TaskFuture<Cx<F, O, P, D::Unpark, W>, Output = O> + Drop,
    O: Outcome + Drop,
    D: Driver,
    P: ThreadPool + Drop,
    W: SharedState + Drop,
    ensures { IsAsOnThreads O.output_number W.SharedState D.Clock F.TaskFuture }
{}
