// A law of the definitions alone.
ghost use Rattle.mono_lines.specs.LimiterTexts.{AreOneRun};

/// Shows that the answers to the lines of an input are those of one run of the lines' calls. So each law of a limiter
/// over any list of calls holds of it.
pub fn lines_are_one_run()
    ensures { AreOneRun }
{}
