// The drain: takes from the inbox the tasks that other threads woke.
ghost use Rattle.std.specs.Prelude.{◌≡◌, ◌≤◌, length, OnOk, OnErr};
ghost use Rattle.mono_rt.specs.Journals.{Does, Stays};
ghost use Rattle.mono_rt.specs.Rounds.{Drained};
ghost use Rattle.mono_rt.specs.Drains.{WakesTaken};
ghost use Rattle.mono_rt.specs.Progress.{Idles};
ghost use Rattle.mono_rt.specs.DriverReadings.{Told, Course, Telling, Still, EndsDrained};

use crate::parts::RunError;
use crate::runtimes::Runtime;
use mono_blocking::ThreadPool;
use mono_driver::Driver;
use mono_joinword::Outcome;
use mono_model::Host;
use mono_task::SharedState;
use std::alloc::Global;

impl<F: Drop, O: Outcome + Drop, D: Driver, P: ThreadPool + Drop, W: SharedState + Drop> Runtime<
    F,
    O,
    D,
    P,
    W,
> {
    /// Takes all that waits in the inbox, and wakes the tasks that are unfinished. Does nothing if out of memory: what waits
    /// stays in the inbox.
    #[inline(never)]
    pub(crate) fn drain<R: Host>(&mut self, rt: &R, alloc: Global) -> Result<(), RunError>
        ensures refused { OnErr result (Does O.output_number Stays self.old.cx.parts self.new.cx.parts self.old.journal self.new.journal) }
        ensures drained { OnOk result (Does O.output_number Drained self.old.cx.parts self.new.cx.parts self.old.journal self.new.journal) }
        ensures woken { OnOk result (WakesTaken O.output_number self.old.cx.parts self.new.cx.parts self.old.journal self.new.journal self.old.cx.wakers.taken.entries self.new.cx.wakers.taken.entries) }
        ensures kept { OnErr result ((self.new.cx.wakers.taken.entries ≡ self.old.cx.wakers.taken.entries) × (self.new.cx.parts ≡ self.old.cx.parts)) }
        ensures longer { length self.old.cx.parts.tasks.tasks.queue ≤ length self.new.cx.parts.tasks.tasks.queue }
        ensures idle { Idles self.old self.new }
        ensures driver { self.new.driver ≡ self.old.driver }
        ensures told { (old new : Told) (before after : Course) → EndsDrained result before old after new → Telling (Still after) old before self.old.journal self.new.journal new }
    {
        match self.cx.wakers.drain(rt, alloc, &mut self.journal) {
            None => Err(RunError::Memory),
            Some(taken) => {
                self.cx.parts.wake_taken(&mut self.journal, taken);
                Ok(())
            }
        }
    }
}
