// Reads, replays and writes line by line.
ghost use Rattle.std.specs.Prelude.{◌≡◌, IfOk, OnErr};
ghost use Rattle.mono_machine.specs.Machine.{start_machine};
ghost use Rattle.mono_text.specs.Follows.{HasFollowed};
ghost use Rattle.mono_text.specs.LineText.{event_text, FitsEvent};
ghost use Rattle.mono_script.specs.Follows.{ReportsAs};
ghost use Rattle.mono_script.specs.Answers.{IsAnswer};
ghost use Rattle.mono_script.specs.Endings.{IsOutput, IsLine};
ghost use Rattle.mono_script.specs.Meanings.{replaying};

use crate::ends::Output;
use crate::services::output_of;
use mono_machine::Limits;
use mono_replay::{Blocking, Event, Exec, List, Reply, Report, TurnStep};
use mono_text::{Followed, Reader, Served, Service, Sink, Source, follow, report_line, serve};
use std::alloc::{AllocError, Global};

// The lists of a turn's steps and replies, kept for the next turn.
#[derive(Drop)]
struct TurnLists {
    steps: List<TurnStep>,
    replies: List<Reply>,
}

// Keeps the lists of a turn for the next one.
#[inline(always)]
fn keep_lists(event: Event, report: Report, spare: &mut TurnLists) {
    if let Event::Turn(steps, _) = event {
        spare.steps = steps;
        if let Report::Turn(_, replies, _) = report {
            spare.replies = replies;
        }
    }
}

// An executor that answers event lines.
#[derive(Drop)]
struct ReplayLines {
    exec: Exec,
}

impl Service for ReplayLines {
    type Call = Event;

    type Spare = TurnLists;

    ghost use Rattle.mono_text.specs.Services.{AnswersAs};
    ghost use Rattle.mono_text.specs.LineText.{event_text, FitsEvent};
    ghost use Rattle.mono_replay.specs.Refinement.{Stands};
    ghost use Rattle.mono_script.specs.Follows.{ReportsAs};

    ghost text = { λ call. event_text call };

    ghost fits = { λ call. FitsEvent call };

    ghost answers = { λ old call text new. AnswersAs Stands ReportsAs old.exec call text new.exec };

    fn spare(alloc: Global) -> TurnLists {
        TurnLists {
            steps: List::new(alloc),
            replies: List::new(alloc),
        }
    }

    fn read(
        alloc: Global,
        spare: &mut TurnLists,
        reader: &mut Reader,
    ) -> Result<Option<Event>, AllocError> {
        reader.line(alloc, &mut spare.steps)
    }

    fn answer(
        &mut self,
        alloc: Global,
        call: Event,
        spare: &mut TurnLists,
        out: &mut Vec<u8>,
    ) -> Result<(), AllocError> {
        let report = self.exec.apply_reusing(alloc, &call, &mut spare.replies)?;
        report_line(out, &report)?;
        keep_lists(call, report, spare);
        Ok(())
    }
}

/// Replays the events of an input, and returns the line of each report, or the number of the first line that is no
/// event.
pub fn answer(
    alloc: Global,
    limits: Limits,
    blocking: Blocking,
    input: &[u8],
) -> Result<Served, AllocError>
    ensures { IfOk result (λ served. IsAnswer limits blocking input.now served) }
{
    let exec = Exec::new(alloc, limits, blocking)?;
    serve(alloc, ReplayLines { exec }, input)
}

// Returns the replay's answer as an output.
pub(crate) fn output_of_replay(
    alloc: Global,
    limits: Limits,
    blocking: Blocking,
    input: &[u8],
) -> Result<Output, AllocError>
    ensures output { IfOk result (λ o. IsOutput (replaying limits blocking) input.now o.status o.text.items) }
    ensures line { IfOk result (λ o. IsLine (replaying limits blocking) input.now o.status o.bad_line) }
{
    let served = answer(alloc, limits, blocking, input)?;
    output_of(alloc, served)
}

/// Replays each line of the source as soon as it was read. The bytes written are the reports of a run for the lines at
/// its front. If there is no memory for the executor, the source is not read and nothing is written.
pub(crate) fn follow_replay<S: Source, K: Sink>(
    alloc: Global,
    limits: Limits,
    blocking: Blocking,
    source: &mut S,
    sink: &mut K,
) -> Result<Followed, AllocError>
    ensures followed { IfOk result (λ f. HasFollowed event_text FitsEvent ReportsAs (start_machine limits blocking) f.end f.rest.items (S.left source.old) (S.left source.new) (K.written sink.old) (K.written sink.new)) }
    ensures none { OnErr result ((S.left source.new ≡ S.left source.old) × (K.written sink.new ≡ K.written sink.old)) }
{
    let exec = Exec::new(alloc, limits, blocking)?;
    follow(alloc, ReplayLines { exec }, source, sink)
}
