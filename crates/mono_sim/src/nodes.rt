// A runtime in a world, with its main task.
ghost use Rattle.std.specs.Prelude.{◌≡◌, ◌==◌, not, IfOk, OnOk};
ghost use Rattle.mono_rt.specs.Views.{Rests, CanRun, turns_begun};
ghost use Rattle.mono_sim.specs.Courses.{RunsOnce};
ghost use Rattle.mono_sim.specs.Nodes.{has_finished, output_of};
ghost use Rattle.mono_sim.specs.Waits.{AddsWaits, ListsAll};

use crate::drivers::SimDriver;
use crate::seats::Seat;
use crate::threads::run_once;
use mono_blocking::ThreadPool;
use mono_driver::Driver;
use mono_joinword::Outcome;
use mono_model::Host;
use mono_rt::{Buildable, Cx, RunError, Runtime, TaskWait};
use mono_task::{JoinHandle, Poll, SharedState, TaskFuture};
use std::alloc::{AllocError, Global};

/// A runtime with timers is built on it.
impl Buildable for SimDriver {
    ghost use Rattle.std.specs.Prelude.{true};

    ghost marks_timers = { true };

    fn has_timers() -> bool {
        true
    }
}

/// A runtime in a world, with the handle of its main task and its driver's seat.
#[derive(Drop)]
pub struct Node<F, O, D: Driver, P: ThreadPool, W = ()> {
    pub(crate) runtime: Runtime<F, O, D, P, W>,
    pub(crate) main: JoinHandle<O>,
    pub(crate) seat: Seat,
}

impl<F: Drop, O: Outcome + Drop, D: Driver, P: ThreadPool + Drop, W: SharedState + Drop> Node<
    F,
    O,
    D,
    P,
    W,
> {
    /// Returns whether the main task has finished.
    pub(crate) fn has_finished(&self) -> bool
        ensures { result ≡ has_finished self.now }
    {
        matches!(self.runtime.is_finished(&self.main), Ok(true))
    }

    /// Returns the output of the main task once.
    pub(crate) fn output(&mut self) -> Option<O>
        ensures { result ≡ output_of self.old }
    {
        match self.runtime.poll_join(&self.main) {
            Ok(Poll::Ready(output)) => Some(output),
            _ => None,
        }
    }

    /// Adds the rows of the runtime's tasks, unless its main task has finished.
    #[tactic(auto, using(crate::proofs::WaitLemmas::adds_none, crate::proofs::WaitLemmas::adds_own))]
    fn add_waits(&self, alloc: Global, waits: &mut Vec<TaskWait>) -> Result<(), AllocError>
        ensures { OnOk result (AddsWaits O.output_number self.now waits.old.items waits.new.items) }
    {
        if self.has_finished() {
            return Ok(());
        }
        let own = self.runtime.tasks(alloc)?;
        waits.extend_from_slice(own.as_slice())?;
        Ok(())
    }
}

/// Returns the rows of the tasks of all unfinished runtimes, one runtime after the other.
pub(crate) fn all_waits<F, O, D, P, W>(
    alloc: Global,
    nodes: &[Node<F, O, D, P, W>],
) -> Result<Vec<TaskWait>, AllocError>
where
    F: Drop,
    O: Outcome + Drop,
    D: Driver,
    P: ThreadPool + Drop,
    W: SharedState + Drop,
    ensures { IfOk result (λ waits. ListsAll O.output_number nodes.now waits.items) }
{
    let mut waits = Vec::new(alloc);
    for node in nodes {
        node.add_waits(alloc, &mut waits)?;
    }
    Ok(waits)
}

impl<F, O, D, P, W> Node<F, O, D, P, W>
where
    F: TaskFuture<Cx<F, O, P, D::Unpark, W>, Output = O> + Drop,
    O: Outcome + Drop,
    D: Driver,
    P: ThreadPool + Drop,
    W: SharedState + Drop,
{
    /// Runs the runtime until its main task has an output, with this budget, at this time. Returns the answer, and whether
    /// a turn was run.
    pub(crate) fn go_on<R: Host>(
        &mut self,
        rt: &R,
        alloc: Global,
        now: u64,
        turns: u64,
    ) -> (Result<(), RunError>, bool)
        requires callable { CanRun F.TaskFuture self.old.runtime }
        requires rests { Rests self.old.runtime }
        ensures ran { RunsOnce O.output_number W.SharedState D.Clock F.TaskFuture self.old.main turns result.0 self.old.runtime self.new.runtime }
        ensures turned { result.1 ≡ not (turns_begun self.new.runtime == turns_begun self.old.runtime) }
        ensures callable { CanRun F.TaskFuture self.new.runtime }
        ensures rests { Rests self.new.runtime }
        ensures main { self.new.main ≡ self.old.main }
        ensures seat { self.new.seat ≡ self.old.seat }
    {
        self.seat.set_time(now);
        let before = self.runtime.turns();
        let answer = run_once(rt, alloc, &mut self.runtime, &self.main, turns);
        let after = self.runtime.turns();
        (answer, after != before)
    }
}
