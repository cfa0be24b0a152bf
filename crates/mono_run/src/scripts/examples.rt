// Example scripts.
ghost use Rattle.mono_run.specs.Examples.{ASleep, ChildTasks, AJob, NotItsTurn, StrayEnd, NoSleep, ASleepIsWritten, NoKind, EndsInAKind, NoSuchKind};

/// Shows scripts with the turns that they give, and inputs with their first bad line.
pub fn worked_scripts()
    ensures a_sleep { ASleep }
    ensures child_tasks { ChildTasks }
    ensures a_job { AJob }
    ensures no_sleep { NoSleep }
    ensures not_its_turn { NotItsTurn }
    ensures stray_end { StrayEnd }
    ensures a_sleep_is_written { ASleepIsWritten }
    ensures no_kind { NoKind }
    ensures ends_in_a_kind { EndsInAKind }
    ensures no_such_kind { NoSuchKind }
{}
