// A turn, with a comparison of its report, reply by reply.
ghost use Rattle.std.specs.Prelude.{◌≡◌, ◌≢◌, ◌<◌, ◌+◌, ◌^◌, length, MatchBool, IfOk, OnOk};
ghost use Rattle.mono_machine.specs.Turns.{replies_of, after_steps, end_answer, after_end, turn_report, after_turn};
ghost use Rattle.mono_trace.specs.Trials.{Told};

use crate::comparisons::{is_reply, same_end, same_reply};
use crate::parts::Parts;
use mono_machine::{End, Ended, Refusal, Reply, Report, TurnStep};
use std::alloc::AllocError;

impl Parts {
    /// Makes each step in order, as long as its reply is the expected one.
    fn steps(&mut self, me: u64, steps: &[TurnStep], told: &[Reply]) -> Result<bool, AllocError>
        requires same_length { length steps.now ≡ length told.now }
        requires has_numbers { self.old.now.sleeps.arm_count + length steps.now < 2 ^ 128 }
        ensures told { IfOk result (λ b. MatchBool b ((told.now ≡ replies_of me steps.now self.old.now) × (self.new.now ≡ after_steps me steps.now self.old.now)) (told.now ≢ replies_of me steps.now self.old.now)) }
        ensures before { OnOk result (self.new.before ≡ self.old.before) }
    {
        for i in 0..steps.len() {
            let reply = self.step(me, steps[i])?;
            if !same_reply(told[i], reply) {
                return Ok(false);
            }
        }
        Ok(true)
    }

    /// Makes the turn of the running task, if the report is the expected one.
    fn turn_of(
        &mut self,
        me: u64,
        steps: &[TurnStep],
        end: End,
        told: &[Reply],
        ended: Ended,
    ) -> Result<bool, AllocError>
        requires has_numbers { self.old.now.sleeps.arm_count + length steps.now < 2 ^ 128 }
        ensures told { IfOk result (λ b. MatchBool b ((told.now ≡ replies_of me steps.now self.old.now) × (ended ≡ end_answer end me (after_steps me steps.now self.old.now)) × (self.new.now ≡ after_end end me (after_steps me steps.now self.old.now))) (told.now ≡ replies_of me steps.now self.old.now → ended ≡ end_answer end me (after_steps me steps.now self.old.now) → ⊥)) }
        ensures before { OnOk result (self.new.before ≡ self.old.before) }
    {
        if told.len() != steps.len() {
            return Ok(false);
        }
        if !self.steps(me, steps, told)? {
            return Ok(false);
        }
        let found = self.end(me, end)?;
        Ok(same_end(ended, found))
    }

    /// Makes a turn of the task at the queue's front, if the report is the expected one.
    pub fn turn(
        &mut self,
        steps: &[TurnStep],
        end: End,
        report: &Report,
    ) -> Result<bool, AllocError>
        requires { self.old.now.sleeps.arm_count + length steps.now < 2 ^ 128 }
        ensures { IfOk result (λ b. Told report.now (turn_report steps.now end self.old.now) (after_turn steps.now end self.old.now) self.old self.new b) }
    {
        match self.begin()? {
            None => Ok(is_reply(report, Reply::Refused(Refusal::Idle))),
            Some(me) => match report {
                Report::Turn(task, told, ended) => {
                    if *task != me {
                        return Ok(false);
                    }
                    self.turn_of(me, steps, end, told.as_slice(), *ended)
                }
                _ => Ok(false),
            },
        }
    }
}
