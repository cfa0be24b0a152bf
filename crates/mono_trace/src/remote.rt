// Wakes from other threads, with a comparison of their reports.
ghost use Rattle.std.specs.Prelude.{◌≡◌, IfOk, OnOk};
ghost use Rattle.mono_model.specs.Tasks.{all_woken};
ghost use Rattle.mono_model.specs.Inbox.{is_waiting};
ghost use Rattle.mono_machine.specs.Steps.{remote_report, after_remote, after_drain};
ghost use Rattle.mono_trace.specs.Versions.{changed};
ghost use Rattle.mono_trace.specs.Trials.{Told};

use crate::comparisons::{is_drained, is_listed, is_reply, is_unlisted};
use crate::parts::Parts;
use crate::tasks::Tasks;
use mono_machine::{Refusal, Reply, Report};
use std::alloc::AllocError;

/// Wakes each task, in order.
fn wake_all(tasks: &mut Tasks, woken: &[u64]) -> Result<(), AllocError>
    ensures { OnOk result (tasks.new ≡ changed tasks.old (all_woken tasks.old.now woken.now)) }
{
    for t in woken {
        tasks.wake(*t)?;
    }
    Ok(())
}

/// Returns whether a task waits in the inbox.
pub fn is_waiting(inbox: &[u64], t: u64) -> bool
    ensures { result ≡ is_waiting inbox.now t }
{
    inbox.iter().any(|w| *w == t)
}

impl Parts {
    /// Wakes a task from another thread, if the report is the expected one.
    pub fn remote(&mut self, t: u64, report: &Report) -> Result<bool, AllocError>
        ensures { IfOk result (λ b. Told report.now (remote_report self.old.now t) (after_remote self.old.now t) self.old self.new b) }
    {
        if !self.tasks.is_issued(t) {
            return Ok(is_reply(report, Reply::Refused(Refusal::NoTask)));
        }
        if self.tasks.has_finished(t) || is_waiting(&self.inbox, t) {
            return Ok(is_unlisted(report));
        }
        if !is_listed(report) {
            return Ok(false);
        }
        self.inbox.push(t)?;
        Ok(true)
    }

    /// Wakes each task that waits in the inbox, if the report is the expected one.
    pub fn drain(&mut self, report: &Report) -> Result<bool, AllocError>
        ensures { IfOk result (λ b. Told report.now (Report.Drained self.old.now.inbox) (after_drain self.old.now) self.old self.new b) }
    {
        if !is_drained(report, &self.inbox) {
            return Ok(false);
        }
        wake_all(&mut self.tasks, &self.inbox)?;
        self.inbox.clear();
        Ok(true)
    }
}
