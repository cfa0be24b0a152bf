// A turn of the task at the queue's front.
ghost use Rattle.std.specs.Prelude.{◌≡◌, ℕ, IfOk, OnOk, Some, None};
ghost use Rattle.mono_machine.specs.Machine.{Machine, IsValid, IsValidDuring};
ghost use Rattle.mono_machine.specs.Turns.{replies_of, after_steps, end_answer, after_end, turn_report, after_turn};
ghost use Rattle.mono_time.specs.Timers.{registered_of};
ghost use Rattle.mono_replay.specs.PartRefinement.{Matches};
ghost use Rattle.mono_time.specs.Registrations.{registered_by_steps, registered_by_turn};

use crate::parts::Parts;
use crate::{End, Ended, List, Refusal, Reply, Report, TurnStep};
use mono_task::Poll;
use std::alloc::{AllocError, AllocFailed, Global};

impl Parts {
    /// Does each step in order, and returns its reply. The list is emptied, and its memory used for the replies.
    #[inline(always)]
    fn steps(
        &mut self,
        alloc: Global,
        me: u64,
        mut replies: List<Reply>,
        steps: &[TurnStep],
    ) -> Result<List<Reply>, AllocError>
        ensures replies { IfOk result (λ r. (m : Machine) → Matches self.old m → r ≡ replies_of me steps.now m) }
        ensures matches { OnOk result ((m : Machine) → Matches self.old m → Matches self.new (after_steps me steps.now m)) }
        ensures turn { self.new.tasks.turn ≡ self.old.tasks.turn }
        ensures registered { OnOk result ((m : Machine) → Matches self.old m → IsValidDuring (Some me) m → (s : ℕ) → registered_of self.new.timers s ≡ registered_by_steps me steps.now m s (registered_of self.old.timers s)) }
    {
        replies.clear();
        for step in steps {
            let reply = self.step(alloc, me, *step)?;
            replies.push(reply)?;
        }
        Ok(replies)
    }

    /// Ends the running task's turn. The inbox forgets a task that has finished.
    fn end(&mut self, me: u64, end: End) -> Ended
        requires { self.old.tasks.turn ≡ Some me }
        ensures answer { (m : Machine) → Matches self.old m → result ≡ end_answer end me m }
        ensures matches { (m : Machine) → Matches self.old m → IsValidDuring (Some me) m → Matches self.new (after_end end me m) }
        ensures rest { self.new.tasks.turn ≡ None }
        ensures timers { self.new.timers ≡ self.old.timers }
    {
        match end {
            End::Pending => self.tasks.end_turn(Poll::Pending),
            End::Ready(output) => {
                self.inbox.retire(me);
                self.tasks.end_turn(Poll::Ready(output))
            }
        }
    }

    /// Runs the turn of the running task. It ends also if a step ran out of memory.
    #[inline(always)]
    fn turn_of(
        &mut self,
        alloc: Global,
        me: u64,
        spare: List<Reply>,
        steps: &[TurnStep],
        end: End,
    ) -> Result<Report, AllocError>
        requires { self.old.tasks.turn ≡ Some me }
        ensures report { IfOk result (λ r. (m : Machine) → Matches self.old m → r ≡ Report.Turn me (replies_of me steps.now m) (end_answer end me (after_steps me steps.now m))) }
        ensures matches { OnOk result ((m : Machine) → Matches self.old m → IsValidDuring (Some me) m → Matches self.new (after_end end me (after_steps me steps.now m))) }
        ensures rest { self.new.tasks.turn ≡ None }
        ensures registered { OnOk result ((m : Machine) → Matches self.old m → IsValidDuring (Some me) m → (s : ℕ) → registered_of self.new.timers s ≡ registered_by_steps me steps.now m s (registered_of self.old.timers s)) }
    {
        let replies = self.steps(alloc, me, spare, steps);
        let ended = self.end(me, end);
        Ok(Report::Turn(me, replies?, ended))
    }

    /// Runs a turn of the task at the queue's front. If no task is queued, the turn is refused, and no step is done.
    /// The memory of the spare list is used for the replies.
    #[inline(always)]
    pub fn turn(
        &mut self,
        alloc: Global,
        spare: List<Reply>,
        steps: &[TurnStep],
        end: End,
    ) -> Result<Report, AllocError>
        requires { self.old.tasks.turn ≡ None }
        ensures report { IfOk result (λ r. (m : Machine) → Matches self.old m → IsValid m → r ≡ turn_report steps.now end m) }
        ensures matches { OnOk result ((m : Machine) → Matches self.old m → IsValid m → Matches self.new (after_turn steps.now end m)) }
        ensures rest { self.new.tasks.turn ≡ None }
        ensures registered { OnOk result ((m : Machine) → Matches self.old m → IsValid m → (s : ℕ) →
            registered_of self.new.timers s ≡ registered_by_turn m.tasks.queue steps.now m s (registered_of self.old.timers s)) }
    {
        match self.tasks.begin_turn() {
            Err(_) => Ok(Report::Reply(Reply::Refused(Refusal::Idle))),
            Ok(me) => {
                let report = self.turn_of(alloc, me, spare, steps, end)?;
                Ok(report)
            }
        }
    }
}
