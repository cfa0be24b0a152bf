// A trace of the machine, which takes events with their reports one by one.
ghost use Rattle.std.specs.Prelude.{◌≡◌, ◌<◌, ◌≤◌, ◌+◌, ◌^◌, IfOk, IfSome, OnOk, true};
ghost use Rattle.mono_machine.specs.Machine.{start_machine};
ghost use Rattle.mono_machine.specs.Acts.{act_outcome};
ghost use Rattle.mono_trace.specs.Trials.{Told, Tried};

use crate::comparisons::same_reply;
use crate::parts::Parts;
use mono_machine::{Act, Blocking, Event, Limits, Report};
use std::alloc::{AllocError, Global};

impl Parts {
    /// Makes an act, if its reply is the expected one.
    fn act_told(&mut self, act: Act, report: &Report) -> Result<bool, AllocError>
        requires { self.old.now.sleeps.arm_count < 2 ^ 127 }
        ensures { IfOk result (λ b. Told report.now (Report.Reply (act_outcome act self.old.now).reply) (act_outcome act self.old.now).machine self.old self.new b) }
    {
        match report {
            Report::Reply(told) => {
                let reply = self.act(act)?;
                Ok(same_reply(*told, reply))
            }
            _ => Ok(false),
        }
    }

    /// Takes an event, if its report is an allowed one.
    fn event(&mut self, event: &Event, report: &Report) -> Result<bool, AllocError>
        requires { self.old.now.sleeps.arm_count < 2 ^ 127 }
        ensures tried { IfOk result (λ b. Tried event.now report.now self.old self.new b) }
        ensures arms { IfOk result (λ b. b ≡ true → self.new.now.sleeps.arm_count ≤ self.old.now.sleeps.arm_count + 2 ^ 63) }
    {
        match event {
            Event::Act(act) => self.act_told(*act, report),
            Event::Turn(steps, end) => self.turn(steps.as_slice(), *end, report),
            Event::Clock(n) => self.clock(*n, report),
            Event::Remote(t) => self.remote(*t, report),
            Event::Drain => self.drain(report),
        }
    }
}

/// The machine after the events and reports so far.
///
/// It is a view of one machine (`machine_of`), for any order in which the sleeps of one tick fired.
#[derive(Drop)]
pub struct Trace {
    parts: Parts,
}

impl Trace {
    ghost use Rattle.mono_trace.specs.Refinement.{machine_of};
    ghost use Rattle.mono_trace.specs.Traces.{Checks};
    ghost use Rattle.mono_trace.specs.Verdicts.{MayAnswer};

    /// Returns a view of the start machine with these limits and this strategy. It takes no memory yet.
    pub fn new(alloc: Global, limits: Limits, blocking: Blocking) -> Trace
        ensures { machine_of result ≡ start_machine limits blocking }
    {
        Trace {
            parts: Parts::new(alloc, limits, blocking),
        }
    }

    /// Returns how often a sleep was armed so far.
    pub fn arms(&self) -> u128
        ensures { result ≡ (machine_of self.now).sleeps.arm_count }
    {
        self.parts.sleeps.arms()
    }

    /// Takes an event with its report, and returns whether the machine may take the event with this report.
    ///
    /// Returns true if and only if the machine may, and the view is then the machine after the step. If it returns
    /// false, the view stays (`checks`). There must be fewer than 2^127 arms, and they rise by at most 2^63 (`arms`).
    /// The only error is out of memory; the trace is given up after it.
    pub fn step(
        &mut self,
        _alloc: Global,
        event: &Event,
        report: &Report,
    ) -> Result<bool, AllocError>
        requires { (machine_of self.old).sleeps.arm_count < 2 ^ 127 }
        ensures checks { Checks machine_of self.old event.now report.now result self.new }
        ensures arms { OnOk result ((machine_of self.new).sleeps.arm_count ≤ (machine_of self.old).sleeps.arm_count + 2 ^ 63) }
    {
        self.parts.keep();
        if self.parts.event(event, report)? {
            return Ok(true);
        }
        self.parts.take_back()?;
        Ok(false)
    }

    /// Returns a report with which the machine may take the event (`answers`): the one that it has to give, other than for the
    /// order of the sleeps that a clock step lists. There is none if the list that the trace has made is not allowed, which no
    /// clause excludes. The trace stands for the machine that it stood for (`stays`).
    pub fn answer(&mut self, alloc: Global, event: &Event) -> Result<Option<Report>, AllocError>
        requires { (machine_of self.old).sleeps.arm_count < 2 ^ 127 }
        ensures answers { IfOk result (λ found. IfSome found (λ report. MayAnswer (machine_of self.old) event.now report)) }
        ensures stays { OnOk result (machine_of self.new ≡ machine_of self.old) }
    {
        self.parts.keep();
        let found = self.parts.answer(alloc, event)?;
        self.parts.take_back()?;
        Ok(found)
    }
}
