// Laws of what the server does from end to end, for users of the clause of `serve`.
ghost use Rattle.lease_server.specs.EndToEnd.{AnswersEachLineOnce, OneCoreHolds};
ghost use Rattle.lease_server.specs.Orders.{OneCoreAnswers};

/// Each line of the input is answered exactly once, by its number, and nothing else is answered.
pub fn each_line_once()
    ensures { AnswersEachLineOnce }
{}

/// At any moments of the runs of two cores, sessions of one core alone hold the lock of a key.
pub fn one_core_holds()
    ensures { OneCoreHolds }
{}

/// All requests about one key are answered by one core, and its answers stand in the output in the order of its run.
pub fn one_core_answers()
    ensures { OneCoreAnswers }
{}
