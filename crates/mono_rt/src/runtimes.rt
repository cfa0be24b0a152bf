// A runtime, and its turns.
ghost use Rattle.std.specs.Prelude.{◌≡◌, ◌<◌, None, length};
ghost use Rattle.mono_rt.specs.Journals.{Does};
ghost use Rattle.mono_rt.specs.Rounds.{TurnEnds};
ghost use Rattle.mono_rt.specs.Pollable.{CanTurn};
ghost use Rattle.mono_rt.specs.Progress.{lasting, Proceeds};

use crate::contexts::Cx;
use crate::parts::{Journal, RunError};
use mono_blocking::ThreadPool;
use mono_driver::Driver;
use mono_joinword::Outcome;
use mono_model::Host;
use mono_task::{SharedState, TaskFuture};
use mono_time::Due;
use std::alloc::Global;

/// A runtime: futures that run on one thread, the driver on which it waits, and its journal.
#[derive(Drop)]
pub struct Runtime<F, O, D: Driver, P: ThreadPool, W = ()> {
    pub(crate) cx: Cx<F, O, P, D::Unpark, W>,
    pub(crate) driver: D,
    pub(crate) journal: Journal,
    // the lists of the last clock step, whose memory serves the next one
    pub(crate) due: Due,
}

impl<F, O, D, P, W> Runtime<F, O, D, P, W>
where
    F: TaskFuture<Cx<F, O, P, D::Unpark, W>, Output = O> + Drop,
    O: Outcome + Drop,
    D: Driver,
    P: ThreadPool + Drop,
    W: SharedState + Drop,
{
    /// Reads the clock, and runs a turn of the task at the queue's front.
    pub(crate) fn turn<R: Host>(&mut self, rt: &R, alloc: Global) -> Result<(), RunError>
        requires callable { CanTurn F.TaskFuture self.old.cx }
        requires rests { self.old.cx.parts.tasks.turn ≡ None }
        requires queued { 0 < length self.old.cx.parts.tasks.tasks.queue }
        ensures turned { Does O.output_number (TurnEnds result) self.old.cx.parts self.new.cx.parts self.old.journal self.new.journal }
        ensures went { Proceeds O.output_number W.SharedState D.Clock F.TaskFuture (lasting result) self.old self.new }
    {
        let Some(now) = self
            .cx
            .parts
            .open_turn(alloc, &mut self.driver, &mut self.journal)
        else {
            return Err(RunError::Memory);
        };
        let (task, end, ended) = self.cx.turn(rt, alloc, now);
        self.cx
            .parts
            .keep_turn(alloc, &mut self.journal, task, end, ended);
        self.cx.parts.turn_answer()
    }
}
