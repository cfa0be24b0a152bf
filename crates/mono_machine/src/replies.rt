// The replies of the machine for the answers of calls.
ghost use Rattle.std.specs.Prelude.{◌≡◌, ◌≤◌};
ghost use Rattle.mono_model.specs.Ticks.{up, max_nanos};
ghost use Rattle.mono_machine.specs.Acts.{reply_of};
ghost use Rattle.mono_machine.specs.SleepCalls.{poll_reply, gone_reply, elapsed_reply, reset_reply};
ghost use Rattle.mono_machine.specs.JoinCalls.{refusal_of, wake_reply, drop_reply, finished_reply, join_reply};

use crate::{Refusal, Reply, Woke};
use mono_model::{Error, Poll, TaskError};

/// Returns the refusal of a call on a task.
pub fn refusal_of(error: TaskError) -> Refusal
    ensures { result ≡ refusal_of error }
{
    match error {
        TaskError::Idle => Refusal::Idle,
        TaskError::NoTask => Refusal::NoTask,
        TaskError::NoHandle => Refusal::NoHandle,
        TaskError::Taken => Refusal::Taken,
    }
}

/// Returns the reply to a call that may be refused.
pub fn reply_of(answer: Result<Reply, Refusal>) -> Reply
    ensures { result ≡ reply_of answer }
{
    match answer {
        Ok(reply) => reply,
        Err(refusal) => Reply::Refused(refusal),
    }
}

/// Returns the reply to a wake.
pub fn wake_reply(answer: Result<Woke, TaskError>) -> Reply
    ensures { result ≡ wake_reply answer }
{
    match answer {
        Ok(woke) => Reply::Woke(woke),
        Err(error) => Reply::Refused(refusal_of(error)),
    }
}

/// Returns the reply to the drop of a task's handle.
pub fn drop_reply(answer: Result<Option<u64>, TaskError>) -> Reply
    ensures { result ≡ drop_reply answer }
{
    match answer {
        Ok(output) => Reply::Dropped(output),
        Err(error) => Reply::Refused(refusal_of(error)),
    }
}

/// Returns the reply to the question whether a task has finished.
pub fn finished_reply(answer: Result<bool, TaskError>) -> Reply
    ensures { result ≡ finished_reply answer }
{
    match answer {
        Ok(true) => Reply::Yes,
        Ok(false) => Reply::No,
        Err(error) => Reply::Refused(refusal_of(error)),
    }
}

/// Returns the reply to a poll of a task's handle.
pub fn join_reply(answer: Result<Poll<u64>, TaskError>) -> Reply
    ensures { result ≡ join_reply answer }
{
    match answer {
        Ok(Poll::Ready(output)) => Reply::Output(output),
        Ok(Poll::Pending) => Reply::Pending,
        Err(error) => Reply::Refused(refusal_of(error)),
    }
}

/// Returns the reply to a poll of a sleep.
pub fn poll_reply(answer: Result<Poll<()>, Error>) -> Reply
    ensures { result ≡ poll_reply answer }
{
    match answer {
        Ok(Poll::Ready(_)) => Reply::Ready,
        Ok(Poll::Pending) => Reply::Pending,
        Err(_) => Reply::Refused(Refusal::NoTimer),
    }
}

/// Returns the reply to the drop of a sleep.
pub fn gone_reply(answer: Result<(), Error>) -> Reply
    ensures { result ≡ gone_reply answer }
{
    match answer {
        Ok(_) => Reply::Dropped(None),
        Err(_) => Reply::Refused(Refusal::NoTimer),
    }
}

/// Returns the reply to the question whether a sleep has elapsed.
pub fn elapsed_reply(answer: Result<bool, Error>) -> Reply
    ensures { result ≡ elapsed_reply answer }
{
    match answer {
        Ok(true) => Reply::Yes,
        Ok(false) => Reply::No,
        Err(_) => Reply::Refused(Refusal::NoTimer),
    }
}

/// Returns the reply to the reset of a sleep to a deadline.
pub fn reset_reply(n: u128, greatest: u64) -> Reply
    requires { n ≤ max_nanos }
    ensures { result ≡ reset_reply greatest (up n) }
{
    if ((n + 999999) / 1000000) as u64 <= greatest {
        Reply::Elapsed
    } else {
        Reply::Armed
    }
}
