// Comparisons of an answer with the expected answer.
ghost use Rattle.std.specs.Prelude.{◌≡◌, ◌≢◌, MatchBool};

use mono_machine::{Ended, Reply, Report};

/// Returns whether two replies are the same.
pub fn same_reply(a: Reply, b: Reply) -> bool
    ensures { MatchBool result (a ≡ b) (a ≢ b) }
{
    a == b
}

/// Returns whether two turns ended alike.
pub fn same_end(a: Ended, b: Ended) -> bool
    ensures { MatchBool result (a ≡ b) (a ≢ b) }
{
    a == b
}

/// Returns whether two lists of numbers are the same.
pub fn same_list(a: &[u64], b: &[u64]) -> bool
    ensures { MatchBool result (a.now ≡ b.now) (a.now ≢ b.now) }
{
    a == b
}

/// Returns whether the report is this reply.
pub fn is_reply(report: &Report, reply: Reply) -> bool
    ensures { MatchBool result (report.now ≡ Report.Reply reply) (report.now ≢ Report.Reply reply) }
{
    match report {
        Report::Reply(told) => same_reply(*told, reply),
        _ => false,
    }
}

/// Returns whether the report is that a task was listed.
pub fn is_listed(report: &Report) -> bool
    ensures { MatchBool result (report.now ≡ Report.Listed) (report.now ≢ Report.Listed) }
{
    match report {
        Report::Listed => true,
        _ => false,
    }
}

/// Returns whether the report is that a task was not listed.
pub fn is_unlisted(report: &Report) -> bool
    ensures { MatchBool result (report.now ≡ Report.Unlisted) (report.now ≢ Report.Unlisted) }
{
    match report {
        Report::Unlisted => true,
        _ => false,
    }
}

/// Returns whether the report is that these tasks were drained.
pub fn is_drained(report: &Report, tasks: &[u64]) -> bool
    ensures { MatchBool result (report.now ≡ Report.Drained tasks.now) (report.now ≢ Report.Drained tasks.now) }
{
    match report {
        Report::Drained(told) => same_list(told.as_slice(), tasks),
        _ => false,
    }
}
