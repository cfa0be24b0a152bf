// A law of the definitions alone.
ghost use Rattle.mono_lines.specs.ActorRuns.{AreOneRun};

/// Shows that the answers to the lines of an input are those of one run of the calls that the lines made. So each law
/// of actors over any list of calls holds of it.
pub fn lines_are_one_run()
    ensures { AreOneRun }
{}
