// The part of a job's word that a call saw.
ghost use Rattle.std.specs.Prelude.{◌≡◌, None};
ghost use Rattle.mono_blocking.specs.JobAnswers.{how_of};

use crate::{Job, JobJoiner, JobWaker};
use mono_joinword::{JoinError, JoinerSeat};
use mono_machine::{How, Refusal};
use mono_model::Poll;

/// The end of a job that a call saw as the first: how it ended, and the task that waited for it. It is the act right
/// before the call's own.
#[derive(Clone, Copy, Debug, PartialEq, Eq)]
pub struct End {
    /// How the job ended.
    pub how: How,
    /// The task that waited for it.
    pub waiter: Option<u64>,
}

/// The result of a poll of a job's handle: the end that it saw, and its answer.
#[derive(Drop)]
pub struct PolledJob<J: Job> {
    /// The job's end, if this call saw it.
    pub end: Option<End>,
    /// The answer, which is the machine's after that end.
    pub answer: Result<Poll<Result<J::Output, JoinError>>, Refusal>,
    /// The joiner that gave the output in this call, for contracts.
    pub joiner: Option<JobJoiner<J>>,
}

/// The result of another call on a job's handle: the end that it saw, and its answer.
#[derive(Drop)]
pub struct Answered<J: Job, A> {
    /// The job's end, if this call saw it.
    pub end: Option<End>,
    /// The answer, which is the machine's after that end.
    pub answer: Result<A, Refusal>,
    /// The seat of the joiner that was cancelled in this call, for contracts.
    pub seat: Option<JoinerSeat<J::Output, JobWaker<J::Unpark>>>,
}

/// Returns how a job ended, by its output.
pub(crate) fn how_of<A>(output: &Result<A, JoinError>) -> How
    ensures { result ≡ how_of output.now }
{
    match output {
        Ok(_) => How::Ran,
        Err(_) => How::Canceled,
    }
}

impl<J: Job> PolledJob<J> {
    /// Wraps an answer of the table alone, without an end.
    pub(crate) fn told(answer: Result<Poll<Result<J::Output, JoinError>>, Refusal>) -> PolledJob<J>
        ensures { result ≡ record { end = None; answer = answer; joiner = None } }
    {
        PolledJob {
            end: None,
            answer,
            joiner: None,
        }
    }
}

impl<J: Job, A: Drop> Answered<J, A> {
    /// Wraps an answer of the table alone, without an end.
    pub(crate) fn told(answer: Result<A, Refusal>) -> Answered<J, A>
        ensures { result ≡ record { end = None; answer = answer; seat = None } }
    {
        Answered {
            end: None,
            answer,
            seat: None,
        }
    }
}
