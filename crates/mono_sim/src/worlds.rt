// A world of runtimes.
ghost use Rattle.std.specs.Prelude.{◌≡◌, ◌<◌, ◌≤◌, [], length, true, IfOk, OnOk, IfErr, OnErr};
ghost use Rattle.mono_rt.specs.Views.{Rests, CanRun};
ghost use Rattle.mono_sim.specs.Plans.{start_plan, after_driver, is_over};
ghost use Rattle.mono_sim.specs.Worlds.{IsSound, MovesClock, Begins, RunsAt, Steps, EachGoesOn, RunsFor, EndsAt, Adds, KeepsNodes, all_finished, IsRuntimeAt, IsOutputAt};

use crate::draws::{MILLI, Odds};
use crate::drivers::SimDriver;
use crate::nodes::{Node, all_waits};
use crate::schedules::Schedule;
use crate::seats::Seat;
use crate::steps::{End, Step};
use crate::trials::System;
use crate::waits::{is_any_queued, least_tick};
use mono_blocking::ThreadPool;
use mono_driver::Driver;
use mono_joinword::Outcome;
use mono_model::Host;
use mono_rt::{Cx, RunError, Runtime};
use mono_task::{JoinHandle, SharedState, TaskFuture};
use std::alloc::{AllocError, AllocFailed, Global};

/// A world: runtimes on one thread, with one clock, and a schedule by a seed.
#[derive(Drop)]
pub struct World<F, O, D: Driver, P: ThreadPool, W = ()> {
    pub(crate) schedule: Schedule,
    // the time, in nanoseconds
    pub(crate) time: u64,
    pub(crate) nodes: Vec<Node<F, O, D, P, W>>,
}

impl<F, O, D, P, W> World<F, O, D, P, W>
where
    F: TaskFuture<Cx<F, O, P, D::Unpark, W>, Output = O> + Drop,
    O: Outcome + Drop,
    D: Driver,
    P: ThreadPool + Drop,
    W: SharedState + Drop,
{
    /// Returns a world without runtimes, at time 0, with the schedule of this seed.
    pub fn new(alloc: Global, seed: u64, odds: Odds) -> World<F, O, D, P, W>
        ensures plan { result.schedule ≡ start_plan seed odds }
        ensures time { result.time ≡ 0 }
        ensures nodes { result.nodes.items ≡ [] }
        ensures sound { IsSound F.TaskFuture result }
    {
        World {
            schedule: Schedule::new(alloc, seed, odds),
            time: 0,
            nodes: Vec::new(alloc),
        }
    }

    /// Returns a driver for a runtime of this world, and its seat for `add`. The seed of the driver is drawn.
    pub fn driver(&mut self, alloc: Global) -> Result<(Seat, SimDriver), AllocError>
        ensures plan { self.new.schedule ≡ after_driver self.old.schedule }
        ensures same { KeepsNodes self.old self.new }
        ensures sound { IsSound F.TaskFuture self.old → IsSound F.TaskFuture self.new }
    {
        let (rand, fails) = self.schedule.draw_driver();
        let seat = Seat::new(alloc)?;
        let driver = SimDriver::new(alloc, seat.same()?, rand, fails)?;
        Ok((seat, driver))
    }

    /// Adds a runtime on the driver of this seat, which runs until this task of it has finished. Returns the runtime's
    /// number, counted from 0 (`number`). Out of memory, the runtime comes back (`back`).
    ///
    /// No turn of the runtime runs, and its futures can be polled (`rests`, `callable`).
    pub fn add(
        &mut self,
        seat: Seat,
        runtime: Runtime<F, O, D, P, W>,
        main: JoinHandle<O>,
    ) -> Result<usize, AllocFailed<Runtime<F, O, D, P, W>>>
        requires rests { Rests runtime }
        requires callable { CanRun F.TaskFuture runtime }
        ensures number { IfOk result (λ number. number ≡ length self.old.nodes.items) }
        ensures added { OnOk result (Adds seat runtime main self.old self.new) }
        ensures back { IfErr result (λ failed. failed.value ≡ runtime) }
        ensures refused { OnErr result (KeepsNodes self.old self.new × (self.new.schedule ≡ self.old.schedule)) }
        ensures sound { IsSound F.TaskFuture self.old → IsSound F.TaskFuture self.new }
    {
        let number = self.nodes.len();
        let Ok(()) = self.schedule.add(number) else {
            return Err(AllocFailed { value: runtime });
        };
        let node = Node {
            runtime,
            main,
            seat,
        };
        match self.nodes.push(node) {
            Ok(()) => Ok(number),
            Err(failed) => {
                self.schedule.take_back(number);
                let Node { runtime, .. } = failed.value;
                Err(AllocFailed { value: runtime })
            }
        }
    }
}

impl<F: Drop, O: Outcome + Drop, D: Driver, P: ThreadPool + Drop, W: SharedState + Drop> World<
    F,
    O,
    D,
    P,
    W,
> {
    /// Returns whether each main task has finished.
    fn has_finished(&self) -> bool
        ensures { result ≡ all_finished self.now }
    {
        self.nodes.iter().all(|node| node.has_finished())
    }

    /// Does a step after a round in which nothing happened: moves the clock to the tick of the next sleep, and begins a
    /// round. If no task waits for a sleep, the world is stuck. If a task is queued, a round begins at once.
    fn move_clock(&mut self, alloc: Global) -> Result<Step, AllocError>
        ensures moved { IfOk result (λ did. MovesClock O.output_number did self.old self.new) }
        ensures refused { OnErr result (self.new ≡ self.old) }
    {
        let waits = all_waits(alloc, self.nodes.as_slice())?;
        if is_any_queued(waits.as_slice()) {
            self.schedule.begin_round();
            return Ok(Step::Round);
        }
        match least_tick(waits.as_slice()) {
            None => Ok(Step::Stuck),
            Some(tick) => {
                self.time = self.time.max(tick.saturating_mul(MILLI));
                self.schedule.begin_round();
                Ok(Step::Moved)
            }
        }
    }

    /// Does a step between two rounds: ends the world if each main task has finished, or begins a round. Before that the
    /// clock moves if nothing happened in the last round.
    fn begin(&mut self, alloc: Global) -> Result<Step, AllocError>
        requires { is_over self.old.schedule ≡ true }
        ensures begins { IfOk result (λ did. Begins O.output_number did self.old self.new) }
        ensures refused { OnErr result (self.new ≡ self.old) }
    {
        if self.has_finished() {
            return Ok(Step::Over);
        }
        if self.schedule.is_quiet() {
            return self.move_clock(alloc);
        }
        self.schedule.begin_round();
        Ok(Step::Round)
    }
}

impl<F, O, D, P, W> World<F, O, D, P, W>
where
    F: TaskFuture<Cx<F, O, P, D::Unpark, W>, Output = O> + Drop,
    O: Outcome + Drop,
    D: Driver,
    P: ThreadPool + Drop,
    W: SharedState + Drop,
{
    /// Runs a runtime with this budget. Returns its answer, and whether a turn was run.
    fn run_at<R: Host>(
        &mut self,
        rt: &R,
        alloc: Global,
        number: usize,
        turns: u64,
    ) -> (Result<(), RunError>, bool)
        requires sound { IsSound F.TaskFuture self.old }
        requires number { number < length self.old.nodes.items }
        ensures sound { IsSound F.TaskFuture self.new }
        ensures runs { RunsAt O.output_number W.SharedState D.Clock F.TaskFuture number turns result.0 result.1 self.old self.new }
    {
        let time = self.time;
        self.nodes[number].go_on(rt, alloc, time, turns)
    }

    /// Does one step. Out of memory, nothing is done (`refused`).
    ///
    /// In a round each unfinished runtime has one step. The seed draws which is next, its budget, whether it stands still,
    /// and whether the clock jumps ahead before it (`steps`). Between two rounds the clock moves to the next expiration if
    /// nothing happened in the last round. The time never goes back (`time`), and each runtime goes on only by calls of
    /// `run_until` on its main task (`runs`).
    pub fn step<R: Host>(&mut self, rt: &R, alloc: Global) -> Result<Step, AllocError>
        requires sound { IsSound F.TaskFuture self.old }
        ensures sound { IsSound F.TaskFuture self.new }
        ensures steps { IfOk result (λ did. Steps O.output_number W.SharedState D.Clock F.TaskFuture did self.old self.new) }
        ensures time { self.old.time ≤ self.new.time }
        ensures runs { EachGoesOn O.output_number W.SharedState D.Clock F.TaskFuture self.old self.new }
        ensures refused { OnErr result (self.new ≡ self.old) }
    {
        if self.schedule.is_round_over() {
            return self.begin(alloc);
        }
        let drawn = self.schedule.draw()?;
        self.time = self.time.saturating_add(drawn.jump);
        if drawn.stands {
            self.schedule.disturb();
            return Ok(Step::Stood(drawn.number));
        }
        let (answer, turned) = self.run_at(rt, alloc, drawn.number, drawn.turns);
        self.schedule.note(answer, turned);
        Ok(Step::Ran(drawn.number, answer))
    }

    /// Does at most so many steps, and ends early if the world is over or stuck (`ends`). Fails only if out of memory.
    ///
    /// The world after it is that after so many steps, or fewer if it ended early (`chain`).
    pub fn run<R: Host>(&mut self, rt: &R, alloc: Global, steps: u64) -> Result<End, AllocError>
        requires sound { IsSound F.TaskFuture self.old }
        ensures sound { IsSound F.TaskFuture self.new }
        ensures ends { IfOk result (λ how. EndsAt O.output_number how self.new) }
        ensures chain { IfOk result (λ how. RunsFor O.output_number W.SharedState D.Clock F.TaskFuture steps how self.old self.new) }
        ensures time { self.old.time ≤ self.new.time }
        ensures runs { EachGoesOn O.output_number W.SharedState D.Clock F.TaskFuture self.old self.new }
    {
        let mut made = 0;
        while made < steps {
            let did = self.step(rt, alloc)?;
            if let Some(how) = did.end() {
                return Ok(how);
            }
            made += 1;
        }
        Ok(End::Steps)
    }
}

/// A world goes on by its own steps.
impl<F, O, D, P, W> System for World<F, O, D, P, W>
where
    F: TaskFuture<Cx<F, O, P, D::Unpark, W>, Output = O> + Drop,
    O: Outcome + Drop,
    D: Driver,
    P: ThreadPool + Drop,
    W: SharedState + Drop,
{
    ghost can_step = { IsSound F.TaskFuture };

    ghost steps = { Steps O.output_number W.SharedState D.Clock F.TaskFuture };

    fn make_step<R: Host>(&mut self, rt: &R, alloc: Global) -> Result<Step, AllocError> {
        self.step(rt, alloc)
    }
}

impl<F: Drop, O: Outcome + Drop, D: Driver, P: ThreadPool + Drop, W: SharedState + Drop> World<
    F,
    O,
    D,
    P,
    W,
> {
    /// Returns the time, in nanoseconds.
    pub fn now(&self) -> u64
        ensures { result ≡ self.now.time }
    {
        self.time
    }

    /// Returns how many runtimes the world has.
    pub fn len(&self) -> usize
        ensures { result ≡ length self.now.nodes.items }
    {
        self.nodes.len()
    }

    /// Returns a runtime by its number, which is below `len`. `tasks` of a runtime says what its tasks wait for.
    pub fn runtime(&self, number: usize) -> &Runtime<F, O, D, P, W>
        requires { number < length self.now.nodes.items }
        ensures { IsRuntimeAt number self.now result.now }
    {
        &self.nodes[number].runtime
    }

    /// Returns the output of a runtime's main task once: None if it has none, or if the output was taken. The number is
    /// below `len`.
    pub fn output(&mut self, number: usize) -> Option<O>
        requires { number < length self.old.nodes.items }
        ensures { IsOutputAt number self.old result }
    {
        self.nodes[number].output()
    }
}
