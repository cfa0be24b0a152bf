// The outcomes of the services' answers.
ghost use Rattle.mono_session.specs.Answers as lease;
ghost use Rattle.mono_limit.specs.Answers as limit;
ghost use Rattle.mono_actor.specs.Answers as mail;
ghost use Rattle.mono_actor.specs.Callers.{without_message};
ghost use Rattle.lease_core.specs.Tells.{LeaseTells, LimitTells, MailTells};

use crate::requests::Outcome;
use mono_actor::{ActorError, SendRefused, Sent};
use mono_limit::{LimitError, Take};
use mono_session::SessionError;

/// Returns the outcome of an open.
pub fn of_open(told: Result<u64, SessionError>) -> Outcome
    ensures { LeaseTells (lease.of_number told) result }
{
    match told {
        Ok(session) => Outcome::Opened(session),
        Err(error) => Outcome::LeaseRefused(error),
    }
}

/// Returns the outcome of a heartbeat.
pub fn of_beat(told: Result<(), SessionError>) -> Outcome
    ensures { LeaseTells (lease.of_done told) result }
{
    match told {
        Ok(()) => Outcome::Done,
        Err(error) => Outcome::LeaseRefused(error),
    }
}

/// Returns the outcome of a question for the holder of a lock.
pub fn of_owner(told: Option<u64>) -> Outcome
    ensures { LeaseTells (lease.of_owner told) result }
{
    match told {
        Some(session) => Outcome::Owned(session),
        None => Outcome::Free,
    }
}

/// Returns the outcome of a new bucket.
pub fn of_bucket(told: Result<u64, LimitError>) -> Outcome
    ensures { LimitTells (limit.of_bucket told) result }
{
    match told {
        Ok(bucket) => Outcome::Added(bucket),
        Err(error) => Outcome::LimitRefused(error),
    }
}

/// Returns the outcome of a take.
pub fn of_take(told: Result<Take, LimitError>) -> Outcome
    ensures { LimitTells (limit.of_take told) result }
{
    match told {
        Ok(take) => Outcome::Took(take),
        Err(error) => Outcome::LimitRefused(error),
    }
}

/// Returns the outcome of a new actor.
pub fn of_spawn(told: Result<u64, ActorError>) -> Outcome
    ensures { MailTells (mail.of_number told) result }
{
    match told {
        Ok(actor) => Outcome::Spawned(actor),
        Err(error) => Outcome::MailRefused(error),
    }
}

/// Returns the outcome of a send.
pub fn of_send(told: Result<Sent, SendRefused<u64>>) -> Outcome
    ensures { MailTells (mail.of_send (without_message told)) result }
{
    match told {
        Ok(sent) => Outcome::Posted(sent),
        Err(refused) => Outcome::MailRefused(refused.cause),
    }
}
