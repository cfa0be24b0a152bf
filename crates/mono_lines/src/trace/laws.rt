// Facts about the definitions alone.
ghost use Rattle.mono_lines.specs.Journal.{OneLine, OneReport};

/// Shows that bytes begin with at most one line of a journal, so a written line is read back as the same content.
pub fn one_line()
    ensures { OneLine }
{}

/// Shows that bytes begin with the line of at most one report, so a written report line is read back as its report.
pub fn one_report()
    ensures { OneReport }
{}
