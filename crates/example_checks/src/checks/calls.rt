// Calls of `block_on`, and the check of the journal that they leave.
ghost use Rattle.std.specs.Prelude.{IfOk};
ghost use Rattle.mono_rt.specs.Views.{CanRun, Rests};
ghost use Rattle.example_checks.specs.WholeAnswers.{IsYesIfLeft};
ghost use Rattle.example_checks.specs.LeftCalls.{LeavesOneMore, LeavesWhole};

use mono_lines::trace::{Answer, check_whole};
use mono_machine::{Blocking, Limits};
use mono_rt::{Cx, Driver, Host, Outcome, RunError, Runtime, SharedState, TaskFuture, ThreadPool};
use std::alloc::{AllocError, Global};

/// Runs one more call of `block_on` on a runtime. If the calls so far left the runtime's history, this call leaves it with
/// them, whatever it answers (`left`). Then the whole history passes the check, for every driver and clock (`whole`).
pub fn one_more_call<F, O, D, P, W, R: Host>(
    rt: &R,
    alloc: Global,
    runtime: &mut Runtime<F, O, D, P, W>,
    future: F,
    turns: u64,
) -> Result<O, RunError>
where
    F: TaskFuture<Cx<F, O, P, D::Unpark, W>, Output = O> + Drop,
    O: Outcome + Drop,
    D: Driver,
    P: ThreadPool + Drop,
    W: SharedState + Drop,
    requires callable { F.can_poll future }
    requires others { CanRun F.TaskFuture runtime.old }
    requires rests { Rests runtime.old }
    ensures left { LeavesOneMore O.output_number turns result runtime.old runtime.new }
    ensures whole { LeavesWhole O.output_number turns result runtime.old runtime.new }
    ensures callable { CanRun F.TaskFuture runtime.new }
    ensures rests { Rests runtime.new }
{
    runtime.block_on(rt, alloc, future, turns)
}

/// Checks the text of a journal as `check --whole` does. If calls of `block_on` left the journal on a new runtime with these
/// limits and this strategy, the answer is Yes. The only error is out of memory.
pub fn checked_text(
    alloc: Global,
    limits: Limits,
    blocking: Blocking,
    text: &[u8],
) -> Result<Answer, AllocError>
    ensures { IfOk result (λ answer. IsYesIfLeft limits blocking text.now answer) }
{
    let answer = check_whole(alloc, limits, blocking, text)?;
    Ok(answer)
}
