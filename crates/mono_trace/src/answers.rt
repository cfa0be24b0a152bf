// With which report the machine may take an event.
ghost use Rattle.std.specs.Prelude.{◌≡◌, ◌<◌, ◌+◌, ◌^◌, length, List, IfOk, OnOk, IfSome};
ghost use Rattle.mono_machine.specs.Turns.{replies_of, after_steps, turn_report};
ghost use Rattle.mono_machine.specs.Steps.{remote_report};
ghost use Rattle.mono_machine.specs.Acts.{act_outcome};
ghost use Rattle.mono_trace.specs.Verdicts.{MayAnswer};
ghost use Rattle.mono_machine.specs.declared.events.Event.TheVariants as event;

use crate::parts::Parts;
use crate::remote::is_waiting;
use mono_machine::{Act, End, Event, List, MAX_NANOS, Refusal, Reply, Report, TurnStep};
use std::alloc::{AllocError, Global};

// The numbers of sleeps that are due, in their order.
fn numbers_of(alloc: Global, due: Vec<(u128, u128, u64)>) -> Result<List<u64>, AllocError> {
    let mut numbers = List::new(alloc);
    'due: for (_, _, s) in due {
        numbers.push(s)?;
    }
    Ok(numbers)
}

impl Parts {
    // The reply to an act, which is performed.
    fn act_answer(&mut self, act: Act) -> Result<Report, AllocError>
        requires { self.old.now.sleeps.arm_count < 2 ^ 127 }
        ensures answer { IfOk result (λ r. r ≡ Report.Reply (act_outcome act self.old.now).reply) }
        ensures before { OnOk result (self.new.before ≡ self.old.before) }
    {
        let reply = self.act(act)?;
        Ok(Report::Reply(reply))
    }

    // The replies to the steps of a turn, which are performed.
    fn replies(
        &mut self,
        alloc: Global,
        me: u64,
        steps: &[TurnStep],
    ) -> Result<List<Reply>, AllocError>
        requires has_numbers { self.old.now.sleeps.arm_count + length steps.now < 2 ^ 128 }
        ensures replies { IfOk result (λ replies. replies ≡ replies_of me steps.now self.old.now) }
        ensures machine { OnOk result (self.new.now ≡ after_steps me steps.now self.old.now) }
        ensures before { OnOk result (self.new.before ≡ self.old.before) }
    {
        let mut replies = List::new(alloc);
        'steps: for i in 0..steps.len() {
            let reply = self.step(me, steps[i])?;
            replies.push(reply)?;
        }
        Ok(replies)
    }

    // The report of a turn, which is performed.
    fn turn_answer(
        &mut self,
        alloc: Global,
        steps: &[TurnStep],
        end: End,
    ) -> Result<Report, AllocError>
        requires { self.old.now.sleeps.arm_count + length steps.now < 2 ^ 128 }
        ensures answer { IfOk result (λ r. r ≡ turn_report steps.now end self.old.now) }
        ensures before { OnOk result (self.new.before ≡ self.old.before) }
    {
        match self.begin()? {
            None => Ok(Report::Reply(Reply::Refused(Refusal::Idle))),
            Some(me) => {
                let replies = self.replies(alloc, me, steps)?;
                let ended = self.end(me, end)?;
                Ok(Report::Turn(me, replies, ended))
            }
        }
    }

    // A report of a clock step, which is performed: the sleeps that are due, by their ticks and then by their armings. None
    // where no step allows that list.
    fn clock_answer(&mut self, alloc: Global, n: u128) -> Result<Option<Report>, AllocError>
        ensures answer { IfOk result (λ found. IfSome found (λ r. MayAnswer self.old.now (event.Clock n) r)) }
        ensures before { OnOk result (self.new.before ≡ self.old.before) }
    {
        if n > MAX_NANOS {
            return Ok(Some(Report::Reply(Reply::Refused(Refusal::Invalid))));
        }
        let due = self.sleeps.due_at(alloc, n / 1000000)?;
        let report = Report::Fired(numbers_of(alloc, due)?);
        if self.clock(n, &report)? {
            Ok(Some(report))
        } else {
            Ok(None)
        }
    }

    // What another thread's wake is answered. The wake is not performed.
    fn remote_answer(&self, t: u64) -> Report
        ensures { result ≡ remote_report self.now.now t }
    {
        if !self.tasks.is_issued(t) {
            return Report::Reply(Reply::Refused(Refusal::NoTask));
        }
        if self.tasks.has_finished(t) || is_waiting(&self.inbox, t) {
            return Report::Unlisted;
        }
        Report::Listed
    }

    // What a drain is answered. The drain is not performed.
    fn drain_answer(&self, alloc: Global) -> Result<Report, AllocError>
        ensures { IfOk result (λ r. r ≡ Report.Drained self.now.now.inbox) }
    {
        let tasks = Vec::from_slice(alloc, self.inbox.as_slice())?;
        Ok(Report::Drained(List::from(tasks)))
    }

    /// Returns a report with which the machine may take the event. The event may be performed, and can be taken back.
    pub fn answer(&mut self, alloc: Global, event: &Event) -> Result<Option<Report>, AllocError>
        requires { self.old.now.sleeps.arm_count < 2 ^ 127 }
        ensures answer { IfOk result (λ found. IfSome found (λ r. MayAnswer self.old.now event.now r)) }
        ensures before { OnOk result (self.new.before ≡ self.old.before) }
    {
        match event {
            Event::Act(act) => {
                let report = self.act_answer(*act)?;
                Ok(Some(report))
            }
            Event::Turn(steps, end) => {
                let report = self.turn_answer(alloc, steps.as_slice(), *end)?;
                Ok(Some(report))
            }
            Event::Clock(n) => self.clock_answer(alloc, *n),
            Event::Remote(t) => Ok(Some(self.remote_answer(*t))),
            Event::Drain => {
                let report = self.drain_answer(alloc)?;
                Ok(Some(report))
            }
        }
    }
}
