// Rounds of turns, waits on the driver, and the main task.
ghost use Rattle.std.specs.Prelude.{◌≡◌, ◌<◌, ◌≤◌, ◌+◌, None, false, length, Some, IfOk, OnOk, IfErr, OnErr, if◌then◌else◌};
ghost use Rattle.mono_task.specs.Work.{GivesOutput};
ghost use Rattle.mono_rt.specs.Journals.{Does};
ghost use Rattle.mono_rt.specs.Rounds.{WaitEnds, broken_after, PauseEnds, Round, RoundBreaks, PassEnds, Ends, Blocked, cost};
ghost use Rattle.mono_rt.specs.SpawnErrors.{HasPlace, AnswersPlace, IfRefused};
ghost use Rattle.mono_model.specs.Table.{is_full};
ghost use Rattle.mono_rt.specs.Faults.{FaultsBy, FaultsParked};
ghost use Rattle.mono_rt.specs.FuturePolls.{OnMain, OnLack};
ghost use Rattle.mono_rt.specs.Pollable.{CanTurn};
ghost use Rattle.mono_rt.specs.Remains.{KeepsContext, KeepsStrategy, HasRetired};
ghost use Rattle.mono_rt.specs.DriverReadings.{going, Telling, Still, EndsWaited};
ghost use Rattle.mono_rt.specs.Progress.{ending, lasting, Idles, Proceeds, MakesMain, MakesNone};
ghost use Rattle.mono_rt.specs.Views.{exposed, Blocks, Rests, RaisesTurns, HasOwnFutures, is_at_limit, HoldsSamePlaces, GivesNoMore, LeadsShared, is_timed, TellsDriver, PollsMainTask, StillPollsMainTask, FindsTasksListedMain, FillsJournal, CanRun, ClosesEnded};

use crate::contexts::Cx;
use crate::parts::RunError;
use crate::runtimes::Runtime;
use mono_blocking::ThreadPool;
use mono_driver::Driver;
use mono_joinword::Outcome;
use mono_model::Host;
use mono_task::{SharedState, TaskFuture};
use std::alloc::Global;

// Returns the answer of a wait that ran out of memory after its park. A failed park is reported first.
fn out_of_memory_after(failed: bool) -> Result<bool, RunError>
    ensures { result ≡ broken_after failed }
{
    if failed {
        Ok(true)
    } else {
        Err(RunError::Memory)
    }
}

impl<F: Drop, O: Outcome + Drop, D: Driver, P: ThreadPool + Drop, W: SharedState + Drop> Runtime<
    F,
    O,
    D,
    P,
    W,
> {
    /// Parks the driver, since the queue is empty, drains the inbox, and with timers does a clock step. Returns whether
    /// the park failed; if it did, also if memory ran out after it.
    fn wait<R: Host>(&mut self, rt: &R, alloc: Global) -> Result<bool, RunError>
        ensures parks { Does O.output_number (WaitEnds self.old.cx.parts.has_timers result) self.old.cx.parts self.new.cx.parts self.old.journal self.new.journal }
        ensures idle { Idles self.old self.new }
        ensures faults { FaultsParked result (D.faults self.old.driver) (D.faults self.new.driver) }
        ensures told { Telling (EndsWaited result) (exposed D.Clock self.old.driver) going self.old.journal self.new.journal (exposed D.Clock self.new.driver) }
    {
        let Ok(failed) = self.cx.parts.park(rt, &mut self.driver, &mut self.journal) else {
            return Err(RunError::Memory);
        };
        let Ok(()) = self.drain(rt, alloc) else {
            return out_of_memory_after(failed);
        };
        if !self.cx.parts.has_timers {
            return Ok(failed);
        }
        match self
            .cx
            .parts
            .clock_step(alloc, &mut self.driver, &mut self.journal, &mut self.due)
        {
            Err(_) => out_of_memory_after(failed),
            Ok(()) => Ok(failed),
        }
    }

    /// Pauses between two rounds. Returns whether the pause costs one of the budget: the queue was empty and still is.
    /// A submit or park that failed is reported first, also if memory ran out after it.
    fn pause<R: Host>(&mut self, rt: &R, alloc: Global) -> Result<bool, RunError>
        ensures pauses { Does O.output_number (PauseEnds self.old.cx.parts.has_timers result) self.old.cx.parts self.new.cx.parts self.old.journal self.new.journal }
        ensures spent { IfOk result (λ spent. (if spent then 1 else 0) ≡ cost self.old.cx.parts.tasks.tasks.queue self.new.cx.parts.tasks.tasks.queue) }
        ensures queued { IfOk result (λ spent. spent ≡ false → 0 < length self.new.cx.parts.tasks.tasks.queue) }
        ensures idle { Idles self.old self.new }
        ensures faults { FaultsBy (ending result) (D.faults self.old.driver) (D.faults self.new.driver) }
        ensures told { TellsDriver (ending result) D.Clock self.old self.new }
        ensures placed { HasPlace (ending result) false }
    {
        if self.cx.parts.tasks.queue_len() > 0 {
            let handed = self.driver.submit(rt);
            let drained = self.drain(rt, alloc);
            return match handed {
                Err(_) => Err(RunError::Driver),
                Ok(()) => match drained {
                    Err(_) => Err(RunError::Memory),
                    Ok(()) => Ok(false),
                },
            };
        }
        match self.wait(rt, alloc) {
            Err(_) => Err(RunError::Memory),
            Ok(true) => Err(RunError::Driver),
            Ok(false) => Ok(self.cx.parts.tasks.queue_len() == 0),
        }
    }

    /// Makes the main task, and holds room for the entry of its handle's drop.
    fn start_main(&mut self, alloc: Global, future: F) -> Result<u64, RunError>
        ensures made { IfOk result (λ t. MakesMain O.output_number future t self.old self.new) }
        ensures none { IfErr result (λ error. MakesNone O.output_number error self.old self.new) }
        ensures place { AnswersPlace result (is_full self.old.cx.parts.tasks.tasks.table self.old.cx.parts.tasks.tasks.limit) self.old.journal.is_full }
        ensures untouched { IfRefused result (self.new.cx ≡ self.old.cx) }
        ensures has_timers { self.new.cx.parts.has_timers ≡ self.old.cx.parts.has_timers }
        ensures turn { self.new.cx.parts.tasks.turn ≡ self.old.cx.parts.tasks.turn }
        ensures turns { self.new.cx.parts.tasks.turns ≡ self.old.cx.parts.tasks.turns }
        ensures shared { self.new.cx.shared ≡ self.old.cx.shared }
        ensures faults { D.faults self.new.driver ≡ D.faults self.old.driver }
        ensures told { Telling (Still going) (exposed D.Clock self.old.driver) going self.old.journal self.new.journal (exposed D.Clock self.new.driver) }
        ensures full { self.new.journal.is_full ≡ self.old.journal.is_full }
        ensures wakers { self.new.cx.wakers ≡ self.old.cx.wakers }
    {
        if self.cx.parts.tasks.has_no_place() {
            return Err(self.cx.parts.refuse_main(&mut self.journal));
        }
        match self.cx.futures.reserve_value(alloc, future) {
            Err(_future) => Err(RunError::Memory),
            Ok(()) => match self.cx.parts.start_main(alloc, &mut self.journal) {
                Err(error) => {
                    drop(self.cx.futures.abort());
                    Err(error)
                }
                Ok(main) => {
                    self.cx.futures.commit();
                    Ok(main)
                }
            },
        }
    }
}

impl<F, O, D, P, W> Runtime<F, O, D, P, W>
where
    F: TaskFuture<Cx<F, O, P, D::Unpark, W>, Output = O> + Drop,
    O: Outcome + Drop,
    D: Driver,
    P: ThreadPool + Drop,
    W: SharedState + Drop,
{
    /// Runs at most 2q + 1 turns of queued tasks while the budget lasts, where q is the queue's length now. Returns the
    /// rest of the budget.
    fn round<R: Host>(&mut self, rt: &R, alloc: Global, units: u64) -> Result<u64, RunError>
        requires callable { CanTurn F.TaskFuture self.old.cx }
        requires rests { self.old.cx.parts.tasks.turn ≡ None }
        ensures left { IfOk result (λ left. left ≤ units) }
        ensures round { IfOk result (λ left. Does O.output_number (Round units left) self.old.cx.parts self.new.cx.parts self.old.journal self.new.journal) }
        ensures broken { OnErr result (Does O.output_number (RoundBreaks units) self.old.cx.parts self.new.cx.parts self.old.journal self.new.journal) }
        ensures fewer { IfOk result (λ left. 0 < length self.old.cx.parts.tasks.tasks.queue → 0 < units → left < units) }
        ensures went { Proceeds O.output_number W.SharedState D.Clock F.TaskFuture (lasting result) self.old self.new }
    {
        let queued = self.cx.parts.tasks.queue_len() as u64;
        let most = queued.saturating_mul(2).saturating_add(1).min(units);
        for done in 0..most {
            if self.cx.parts.tasks.queue_len() == 0 {
                return Ok(units - done);
            }
            self.turn(rt, alloc)?;
        }
        Ok(units - most)
    }

    /// Pauses, and runs a round. Returns the rest of the budget, which is smaller than before.
    fn pass<R: Host>(&mut self, rt: &R, alloc: Global, units: u64) -> Result<u64, RunError>
        requires callable { CanTurn F.TaskFuture self.old.cx }
        requires rests { self.old.cx.parts.tasks.turn ≡ None }
        requires some_left { 0 < units }
        ensures passes { Does O.output_number (PassEnds self.old.cx.parts.has_timers units result) self.old.cx.parts self.new.cx.parts self.old.journal self.new.journal }
        ensures fewer { IfOk result (λ left. left < units) }
        ensures went { Proceeds O.output_number W.SharedState D.Clock F.TaskFuture (ending result) self.old self.new }
    {
        match self.pause(rt, alloc) {
            Err(error) => Err(error),
            Ok(true) => match self.round(rt, alloc, units - 1) {
                Err(_) => Err(RunError::Memory),
                Ok(left) => Ok(left),
            },
            Ok(false) => match self.round(rt, alloc, units) {
                Err(_) => Err(RunError::Memory),
                Ok(left) => Ok(left),
            },
        }
    }

    /// Runs rounds and waits until the main task has its output. It ends, since each pass spends some of the budget.
    pub(crate) fn run<R: Host>(
        &mut self,
        rt: &R,
        alloc: Global,
        main: u64,
        turns: u64,
    ) -> Result<(), RunError>
        requires callable { CanTurn F.TaskFuture self.old.cx }
        requires rests { self.old.cx.parts.tasks.turn ≡ None }
        ensures given { OnOk result (GivesOutput self.new.cx.parts.tasks.tasks main) }
        ensures ends { Does O.output_number (Ends self.old.cx.parts.has_timers main turns result) self.old.cx.parts self.new.cx.parts self.old.journal self.new.journal }
        ensures went { Proceeds O.output_number W.SharedState D.Clock F.TaskFuture result self.old self.new }
    {
        let mut units = match self.round(rt, alloc, turns) {
            Ok(left) => left,
            Err(_) => return Err(RunError::Memory),
        };
        while units > 0 && !self.cx.parts.tasks.has_output(main) {
            match self.pass(rt, alloc, units) {
                Ok(left) => units = left,
                Err(error) => return Err(error),
            }
        }
        if self.cx.parts.tasks.has_output(main) {
            Ok(())
        } else {
            Err(RunError::Turns)
        }
    }

    /// Runs the future as the main task until it is ready, with a budget of `turns`. Each turn costs one, and so does
    /// each wait after which no task is queued.
    ///
    /// The history is the list of all that the calls of `block_on` and `run_until` did. `spawn`, `poll_join` and `drop_join`
    /// add nothing to it; this call goes on from the machine that they left.
    ///
    /// The history grows by the entries that `Blocked` specifies for the answer, from each machine that the parts
    /// refined. They are a run of the machine (`blocked`). The history exists whether or not a journal is kept; a
    /// journal that is not full equals it (`Journal::kept`). If the answer is Memory, nothing was done, or the main
    /// task was made. Then rounds and pauses within the budget follow, up to the call that ran out of memory, and the
    /// drop of the main task's handle. That drop takes no memory, since its room is reserved before the main task.
    ///
    /// The answer is AtCapacity if and only if the number of live tasks is at the limit or the next number is 2^64 - 1.
    /// If a kept journal then gets no room for the entry of the refusal, the answer is Memory (`place`).
    ///
    /// The journal is full afterwards only if it was before, or a turn made more than 512 acts. A full one stays full
    /// (`full`).
    ///
    /// The driver gets one `submit` before each drain that follows no park, and no other; the drain may run out of
    /// memory. It is parked and read as the history says, and after a call of it that failed it gets no further one but a
    /// reading (`told`).
    ///
    /// A task may take the main task's output, or drop its handle, through its context. No Ok answer comes then: the call
    /// goes on as for an unfinished main task (`blocked`). It answers Turns once the budget is spent, and waits for ever
    /// if a park does. The same comes of a main future that is spent.
    ///
    /// Each turn of the history is one poll of its task's own future, from the futures that the turns before it left
    /// (`polled`). A future that is spent is not polled: its turn ends pending, with no act but the wakes that the shared
    /// value owed (law `a_spent_future_is_not_polled`). If the answer is Memory, this holds of the turn in which memory
    /// ran out, too (`still_polled`).
    ///
    /// The answer is Driver if and only if the driver's count of faults rose in this call, also if memory ran out after
    /// that (`faults`).
    ///
    /// The runtime's count of turns rises by the turns of the history (`turns`). It keeps its timers, or stays without them
    /// (`timers`). Each reading before a turn or a park is an instant (`blocked`).
    ///
    /// Whom the shared value owes a wake after a poll, the runtime wakes before the turn ends. So at each park the value
    /// owes nothing, and each unfinished task whose last turn left it listed in the value is listed there still
    /// (`listed`).
    ///
    /// The runtime made each task that ended unknown to the inbox, in order, and no other: those that had ended before,
    /// and those whose turns of the history ended ready (`retired`). If memory ran out, some may wait for it (`closed`).
    ///
    /// An Ok value is one that the main future gives, if each future has its task's number (`given`). No task may
    /// answer more afterwards than it might before (`answers`).
    ///
    /// The main future and those of the runtime can be polled, and so can each that a turn spawns (`callable`,
    /// `others`). The same holds of the runtime afterwards.
    ///
    /// ```rust
    /// // example_channels/src/two_tasks.rt
    /// let sum = runtime.block_on(rt, alloc, consumer, 1000).ok()?;
    /// Some((sum, runtime.shared().part.len()))
    /// ```
    pub fn block_on<R: Host>(
        &mut self,
        rt: &R,
        alloc: Global,
        future: F,
        turns: u64,
    ) -> Result<O, RunError>
        requires callable { F.can_poll future }
        requires others { CanRun F.TaskFuture self.old }
        requires rests { Rests self.old }
        ensures blocked { Blocks O.output_number turns result self.old self.new }
        ensures place { AnswersPlace result (is_at_limit self.old) self.old.journal.is_full }
        ensures untouched { IfRefused result (KeepsContext self.old self.new) }
        ensures strategy { KeepsStrategy O.output_number self.old self.new }
        ensures given { IfOk result (λ output. HasOwnFutures self.old → F.gives future output) }
        ensures answers { GivesNoMore F.gives self.old self.new }
        ensures callable { CanRun F.TaskFuture self.new }
        ensures shared { LeadsShared W.leads self.old self.new }
        ensures retired { OnMain result (HasRetired O.output_number self.old self.new) }
        ensures rests { Rests self.new }
        ensures turns { RaisesTurns O.output_number self.old self.new }
        ensures polled { OnMain result (PollsMainTask O.output_number W.SharedState F.TaskFuture future self.old self.new) }
        ensures still_polled { OnLack result (StillPollsMainTask O.output_number W.SharedState F.TaskFuture future self.old self.new) }
        ensures listed { OnMain result (FindsTasksListedMain O.output_number W.SharedState F.TaskFuture future self.old self.new) }
        ensures faults { FaultsBy result (D.faults self.old.driver) (D.faults self.new.driver) }
        ensures told { TellsDriver result D.Clock self.old self.new }
        ensures full { FillsJournal O.output_number W.SharedState F.TaskFuture self.old self.new }
        ensures held { HoldsSamePlaces self.old self.new }
        ensures timers { is_timed self.new ≡ is_timed self.old }
        ensures closed { ClosesEnded O.output_number self.old self.new }
    {
        match self.start_main(alloc, future) {
            Err(error) => Err(error),
            Ok(main) => {
                let answer = self.run(rt, alloc, main, turns);
                self.cx.wakers.retire_ended(rt);
                let output = self.cx.parts.end_main(&mut self.journal, main);
                match answer {
                    Err(error) => Err(error),
                    Ok(()) => match output {
                        Some(output) => Ok(output),
                        None => unreachable!(),
                    },
                }
            }
        }
    }
}
