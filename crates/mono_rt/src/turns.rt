// A turn of the task at the queue's front.
ghost use Rattle.std.specs.Prelude.{◌≡◌, ◌<◌, ◌++◌, ◌∷◌, [], Bool, None, Some, true, false, length, IfSome, is_some, not, slice_set};
ghost use Rattle.mono_model.specs.Table.{value_at};
ghost use Rattle.mono_machine.specs.Machine.{Machine};
ghost use Rattle.mono_rt.specs.Record.{no_acts};
ghost use Rattle.mono_rt.specs.Refinement.{hosting_of, Matches};
ghost use Rattle.mono_table.specs.Slots.{lent_at};
ghost use Rattle.mono_rt.specs.EndedTasks.{closed_in, ended_at};
ghost use Rattle.mono_rt.specs.Payments.{PaysOwed};
ghost use Rattle.mono_rt.specs.Turns.{Begins, PaysAndPauses, PaysAndCompletes, Runs, Turn};
ghost use Rattle.mono_rt.specs.PartTurns.{IsTurnOf};
ghost use Rattle.mono_rt.specs.PossibleAnswers.{AnswersNoMore};
ghost use Rattle.mono_rt.specs.Pollable.{EachCanPoll, CanTurn};

use crate::contexts::Cx;
use mono_blocking::ThreadPool;
use mono_inbox::Unpark;
use mono_joinword::Outcome;
use mono_machine::{End, Ended};
use mono_model::Host;
use mono_task::{Poll, SharedState, TaskFuture};
use mono_time::Instant;
use std::alloc::Global;
use std::mem;

impl<F: Drop, O: Outcome + Drop, P: ThreadPool + Drop, U: Unpark, W: SharedState + Drop> Cx<
    F,
    O,
    P,
    U,
    W,
> {
    /// Puts the future of the task whose turn ends back to its place, with the task's waker.
    #[inline(always)]
    fn put_back(&mut self, task: u64, future: Option<F>)
        requires { IfSome future (λ f. lent_at self.old.futures task ≡ true) }
        ensures parts { self.new.parts ≡ self.old.parts }
        ensures futures { self.new.futures.items ≡ slice_set self.old.futures.items task future }
        ensures shared { self.new.shared ≡ self.old.shared }
        ensures wakers { self.new.wakers ≡ self.old.wakers }
    {
        let waker = mem::replace(&mut self.waker, None);
        match future {
            Some(future) => self.futures.put(task, future, waker),
            None => drop(self.futures.take(task)),
        }
    }

    /// Runs the queue's front at this reading of the clock, and takes its future out of the table. Before the first
    /// turn it makes the task's remote waker. The flag of refused memory is then that of this turn, in which no waker was
    /// handed out yet.
    fn begin_turn<R: Host>(&mut self, rt: &R, alloc: Global, now: Instant) -> (u64, Option<F>)
        requires rests { self.old.parts.tasks.turn ≡ None }
        requires queued { 0 < length self.old.parts.tasks.tasks.queue }
        ensures begins { Begins result.0 now self.old.parts.acts self.old self.new }
        ensures noted { self.new.parts.is_out_of_memory ≡ not (is_some self.new.waker) }
        ensures future { result.1 ≡ value_at self.old.futures.items result.0 }
        ensures lent { IfSome result.1 (λ future. lent_at self.new.futures result.0 ≡ true) }
        ensures closed { closed_in self.new.wakers.retired.entries self.new.wakers.ended.items ≡ closed_in self.old.wakers.retired.entries self.old.wakers.ended.items }
    {
        let Ok(task) = self.parts.tasks.begin_turn() else {
            unreachable!()
        };
        let (future, had) = self.futures.take(task);
        self.waker = self.wakers.open(rt, alloc, task, had);
        self.has_handed_out = false;
        self.parts.me = task;
        self.parts.now = now;
        self.parts.is_out_of_memory = self.waker.is_none();
        (task, future)
    }

    /// Wakes each task that the shared value owes a wake, in order. Each wake is an act of the running turn.
    #[inline(always)]
    fn pay_owed(&mut self)
        ensures { PaysOwed O.output_number W.SharedState self.old self.new }
    {
        while let Some(task) = self.shared.next_owed() {
            let _ = self.parts.wake(task);
        }
    }

    /// Pays what the shared value owes, ends the running turn pending, and puts the future back into the table.
    #[inline(always)]
    fn pause_turn(&mut self, task: u64, future: Option<F>) -> Ended
        requires runs { is_some self.old.parts.tasks.turn ≡ true }
        requires lent { IfSome future (λ f. lent_at self.old.futures task ≡ true) }
        ensures pauses { PaysAndPauses O.output_number W.SharedState task future result self.old self.new }
        ensures futures { self.new.futures.items ≡ slice_set self.old.futures.items task future }
        ensures wakers { self.new.wakers ≡ self.old.wakers }
    {
        self.pay_owed();
        let ended = self.parts.tasks.end_turn(Poll::Pending);
        self.put_back(task, future);
        ended
    }

    /// Pays what the shared value owes, ends the running turn ready, and removes the task's place (`gone`). The inbox
    /// knows the task until the next tasks end, or until it is drained.
    fn complete_turn<R: Host>(&mut self, rt: &R, task: u64, output: O) -> Ended
        requires runs { is_some self.old.parts.tasks.turn ≡ true }
        requires lent { lent_at self.old.futures task ≡ true }
        ensures completes { PaysAndCompletes O.output_number W.SharedState output result self.old self.new }
        ensures futures { self.new.futures.items ≡ self.old.futures.items }
        ensures closed { closed_in self.new.wakers.retired.entries self.new.wakers.ended.items ≡ closed_in self.old.wakers.retired.entries self.old.wakers.ended.items ++ task ∷ [] }
        ensures gone { self.new.futures.lent ≡ slice_set self.old.futures.lent task false }
    {
        self.pay_owed(); // what the poll and the cancel left
        let waker = mem::replace(&mut self.waker, None);
        self.wakers.close(rt, task, waker);
        self.futures.remove(task);
        self.parts.tasks.end_turn(Poll::Ready(output))
    }
}

impl<F, O, P, U, W> Cx<F, O, P, U, W>
where
    F: TaskFuture<Cx<F, O, P, U, W>, Output = O> + Drop,
    O: Outcome + Drop,
    P: ThreadPool + Drop,
    U: Unpark,
    W: SharedState + Drop,
{
    /// Runs the turn of the task that has begun, with the future that it had in the table.
    fn run_turn<R: Host>(
        &mut self,
        rt: &R,
        alloc: Global,
        task: u64,
        taken: Option<F>,
    ) -> (End, Ended)
        requires callable { IfSome taken F.can_poll }
        requires others { CanTurn F.TaskFuture self.old }
        requires runs { self.old.parts.tasks.turn ≡ Some task }
        requires lent { IfSome taken (λ f. lent_at self.old.futures task ≡ true) }
        ensures callable { EachCanPoll F.can_poll self.new.futures.items }
        ensures runs { Runs O.output_number W.SharedState F.TaskFuture taken task result.0 result.1 self.old self.new }
        ensures closed { closed_in self.new.wakers.retired.entries self.new.wakers.ended.items ≡ closed_in self.old.wakers.retired.entries self.old.wakers.ended.items ++ ended_at result.0 task }
    {
        let Some(mut future) = taken else {
            return (End::Pending, self.pause_turn(task, None));
        };
        if future.spent() {
            return (End::Pending, self.pause_turn(task, Some(future)));
        }
        match future.poll(rt, alloc, self) {
            Poll::Ready(output) => {
                future.cancel(self);
                let number = output.number();
                (End::Ready(number), self.complete_turn(rt, task, output))
            }
            Poll::Pending => (End::Pending, self.pause_turn(task, Some(future))),
        }
    }

    /// Runs one turn of the task at the queue's front.
    pub(crate) fn turn<R: Host>(&mut self, rt: &R, alloc: Global, now: Instant) -> (u64, End, Ended)
        requires callable { CanTurn F.TaskFuture self.old }
        requires rests { self.old.parts.tasks.turn ≡ None }
        requires queued { 0 < length self.old.parts.tasks.tasks.queue }
        ensures turn { Turn O.output_number W.SharedState F.TaskFuture result.0 now self.old.parts.acts result.1 result.2 self.old self.new }
        ensures is { (is_unread : Bool) → self.old.parts.acts ≡ no_acts is_unread → (m : Machine) → Matches O.output_number hosting_of self.old.parts m → IsTurnOf O.output_number result.0 result.1 result.2 self.old.parts self.new.parts m }
        ensures answers { AnswersNoMore F.gives self.old self.new }
        ensures callable { CanTurn F.TaskFuture self.new }
        ensures shared { W.leads self.old.shared self.new.shared }
        ensures has_timers { self.new.parts.has_timers ≡ self.old.parts.has_timers }
        ensures rests { self.new.parts.tasks.turn ≡ None }
        ensures closed { closed_in self.new.wakers.retired.entries self.new.wakers.ended.items ≡ closed_in self.old.wakers.retired.entries self.old.wakers.ended.items ++ ended_at result.1 result.0 }
    {
        let (task, taken) = self.begin_turn(rt, alloc, now);
        let (end, ended) = self.run_turn(rt, alloc, task, taken);
        (task, end, ended)
    }
}
