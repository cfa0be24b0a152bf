// A check of a journal, and the line of its answer.
ghost use Rattle.std.specs.Prelude.{◌≡◌, None, IfOk, IfSome};
ghost use Rattle.mono_lines.specs.Journal.{FailsAtLine, FailsWholeAtLine};
ghost use Rattle.mono_script.specs.Endings.{IsOutput, IsLine};
ghost use Rattle.mono_script.specs.Checks.{checking, checking_whole, yes_line, no_line};
ghost use Rattle.mono_script.specs.declared.ends.Status.TheVariants as status;

use crate::ends::{Output, Status, bad_line};
use mono_lines::trace::{Answer, Failure, check_lines, check_whole};
use mono_machine::Limits;
use mono_replay::Blocking;
use std::alloc::{AllocError, Global};

fn yes(alloc: Global) -> Result<Output, AllocError>
    ensures text { IfOk result (λ o. o.text.items ≡ yes_line) }
    ensures status { IfOk result (λ o. o.status ≡ status.Done) }
    ensures line { IfOk result (λ o. o.bad_line ≡ None) }
{
    let text = Vec::from_slice(alloc, b"yes\n")?;
    Ok(Output {
        status: Status::Done,
        text,
        bad_line: None,
        waits: Vec::new(alloc),
    })
}

fn no(alloc: Global, n: usize) -> Result<Output, AllocError>
    ensures text { IfOk result (λ o. o.text.items ≡ no_line n) }
    ensures status { IfOk result (λ o. o.status ≡ status.NotARun) }
    ensures line { IfOk result (λ o. o.bad_line ≡ None) }
{
    let mut buffer = itoa::Buffer::new();
    let mut text = Vec::from_slice(alloc, b"no ")?;
    text.extend_from_slice(buffer.format(n).as_bytes())?;
    text.extend_from_slice(b"\n")?;
    Ok(Output {
        status: Status::NotARun,
        text,
        bad_line: None,
        waits: Vec::new(alloc),
    })
}

// Returns where and why an answer says that the journal is no run; none of other answers.
fn failure_in(answer: Answer) -> Option<Failure>
    ensures { IfSome result (λ failure. answer ≡ Answer.No failure) }
{
    match answer {
        Answer::No(failure) => Some(failure),
        Answer::Yes => None,
        Answer::BadLine(_) => None,
    }
}

// Returns where and why the journal is no run that this input is; none if it is a run, or if a line is bad.
pub(crate) fn failure_of(
    alloc: Global,
    limits: Limits,
    blocking: Blocking,
    input: &[u8],
) -> Result<Option<Failure>, AllocError>
    ensures { IfOk result (λ found. IfSome found (λ failure. FailsAtLine limits blocking input.now failure)) }
{
    let answer = check_lines(alloc, limits, blocking, input)?;
    Ok(failure_in(answer))
}

// Returns where and why this input is no whole journal; none if it is one, or if a line is bad.
pub(crate) fn failure_of_whole(
    alloc: Global,
    limits: Limits,
    blocking: Blocking,
    input: &[u8],
) -> Result<Option<Failure>, AllocError>
    ensures { IfOk result (λ found. IfSome found (λ failure. FailsWholeAtLine limits blocking input.now failure)) }
{
    let answer = check_whole(alloc, limits, blocking, input)?;
    Ok(failure_in(answer))
}

// Returns the output of a check.
pub(crate) fn output_of_check(
    alloc: Global,
    limits: Limits,
    blocking: Blocking,
    input: &[u8],
) -> Result<Output, AllocError>
    ensures output { IfOk result (λ o. IsOutput (checking limits blocking) input.now o.status o.text.items) }
    ensures line { IfOk result (λ o. IsLine (checking limits blocking) input.now o.status o.bad_line) }
{
    match check_lines(alloc, limits, blocking, input)? {
        Answer::BadLine(n) => bad_line(alloc, n),
        Answer::Yes => yes(alloc),
        Answer::No(failure) => no(alloc, failure.line),
    }
}

// Returns the output of a check of a whole journal.
pub(crate) fn output_of_whole(
    alloc: Global,
    limits: Limits,
    blocking: Blocking,
    input: &[u8],
) -> Result<Output, AllocError>
    ensures output { IfOk result (λ o. IsOutput (checking_whole limits blocking) input.now o.status o.text.items) }
    ensures line { IfOk result (λ o. IsLine (checking_whole limits blocking) input.now o.status o.bad_line) }
{
    match check_whole(alloc, limits, blocking, input)? {
        Answer::BadLine(n) => bad_line(alloc, n),
        Answer::Yes => yes(alloc),
        Answer::No(failure) => no(alloc, failure.line),
    }
}
