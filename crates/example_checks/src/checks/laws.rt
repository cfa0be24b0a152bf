// Laws of journals that calls of `block_on` leave.
ghost use Rattle.example_checks.specs.WholeCalls.{WholeCallsPass};
ghost use Rattle.example_checks.specs.WholeAnswers.{WholeAnswersAreYes};
ghost use Rattle.example_checks.specs.WholeExamples.{TurnIsWhole, HalfIsNone, LateIsNone, UnreadIsNone};
ghost use Rattle.example_checks.specs.ReadingRanges.{ShownReadingsAreInRange};

/// Shows that each journal that calls of `block_on` leave on a new runtime is whole, one call after the other.
///
/// Its pairs are those of a run from the machine's start, and its lines are in the order that `check --whole` asks for. So it
/// is for any answers: outputs, a spent budget, a driver that failed, a main task that was refused, and memory that ran out in
/// any call. The clock may fall, and a task may have taken the main task's output. The runtime has timers or it has none. Each
/// reading before a turn or a park is an instant.
pub fn whole_calls_pass()
    ensures { WholeCallsPass }
{}

/// Shows that the only answer of `mono_lines::trace::check_whole` to the text of such a journal is Yes, with and without the
/// line of the last call's output.
pub fn whole_answers_are_yes()
    ensures { WholeAnswersAreYes }
{}

/// Shows that no reading is above the greatest instant if the driver exposes its time, or its readings to come, and none of
/// these is. So it is for any answers of the driver's calls.
pub fn shown_readings_are_in_range()
    ensures { ShownReadingsAreInRange }
{}

/// Shows the whole journal of one call, and three journals that are not whole: the drop of the main task's handle is missing,
/// no clock shows as much as the reading, or no reading is before the turn.
pub fn example_journals()
    ensures whole { TurnIsWhole }
    ensures half { HalfIsNone }
    ensures late { LateIsNone }
    ensures unread { UnreadIsNone }
{}
