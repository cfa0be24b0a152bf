// Why a journal is no run, in a sentence.
use crate::word_texts::cut;
use mono_lines::trace::{Cause, Failure, Stage};
use mono_machine::Report;
use mono_text::report_line;
use std::alloc::{AllocError, Global};
use std::format;

// How many bytes of a report are shown.
const MOST: usize = 200;

// The line of a report, cut short.
fn report_text(alloc: Global, report: &Report) -> Result<String, AllocError> {
    let mut line = Vec::new(alloc);
    report_line(&mut line, report)?;
    line.pop();
    cut(alloc, &line, MOST)
}

// Which line may stand behind a stage.
fn next_text(alloc: Global, stage: Stage) -> Result<String, AllocError> {
    match stage {
        Stage::Start(_) => String::from_str(alloc, "spawn and its report, which begins a call"),
        Stage::Round(main, _) => format!(in alloc;
            "now NANOS, remote TASK, drain or drop-join {main}"
        ),
        Stage::Reading(_, greatest, _) => format!(in alloc;
            "a turn, or a park without a limit or to a tick above {greatest}, behind the line now"
        ),
        Stage::Parked(main, _) => format!(in alloc;
            "remote TASK, drain or drop-join {main} behind the park"
        ),
        Stage::Waited(main, _) => format!(in alloc;
            "clock NANOS or drop-join {main} behind the drain that follows a park"
        ),
        Stage::Hearing(_, _) | Stage::Woken(_, _) => String::from_str(
            alloc,
            "remote TASK or drain behind the line remote",
        ),
        Stage::Dropped(Some(output), _) => format!(in alloc;
            "main {output}, the output that the drop gave, or the next call"
        ),
        Stage::Dropped(None, _) => String::from_str(
            alloc,
            "the next call or the end: the drop gave no output",
        ),
    }
}

/// Returns why a journal is no run, in one sentence: what the machine could have answered in that line, or which line has to
/// stand there in a whole journal.
pub fn failure_sentence(alloc: Global, failure: &Failure) -> Result<String, AllocError> {
    let line = failure.line;
    match &failure.cause {
        Cause::Pair(Some(report)) => {
            let report = report_text(alloc, report)?;
            format!(in alloc; "line {line}: the machine answers: {report}")
        }
        Cause::Pair(None) => format!(in alloc; "line {line}: the machine answers otherwise"),
        Cause::Order(stage) => {
            let next = next_text(alloc, *stage)?;
            format!(in alloc; "line {line}: expected: {next}")
        }
    }
}
