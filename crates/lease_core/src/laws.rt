// Laws of the steps of cores.
ghost use Rattle.lease_core.specs.Laws.{AnsweredOnce, NoneWaitAtTheEnd, RunsContinue, OneCoreHolds};

/// Shows that each request is answered exactly once, or waits.
pub fn answered_once()
    ensures { AnsweredOnce }
{}

/// Shows that no request waits after the end of the input.
pub fn none_wait_at_the_end()
    ensures { NoneWaitAtTheEnd }
{}

/// Shows that each run can be continued: whatever comes next has replies, if the clock may show its readings.
pub fn runs_continue()
    ensures { RunsContinue }
{}

/// Shows that sessions of at most one core hold the lock of a key, if each core gets the requests of its own keys
/// alone. On one core the lock has one holder: the first in its queue.
pub fn one_core_holds()
    ensures { OneCoreHolds }
{}
